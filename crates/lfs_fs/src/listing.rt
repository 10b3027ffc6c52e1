//! The listing of one directory, and of all.
ghost use Rattle.std.specs.Prelude.{◌≡◌, map, IfErr, IfOk, OnErr, OnOk};
ghost use Rattle.lfs_model.specs.Call.{Entries, ListTree, Readdir, Rows};
ghost use Rattle.lfs_entries.specs.Telling.{AsksOnly, FailsWhere, InEach};
ghost use Rattle.lfs_fs.specs.Answers.{entry_of, row_of};
ghost use Rattle.lfs_fs.specs.Reading.{AreListable, HasRows};
ghost use Rattle.lfs_fs.specs.Seen.{answer_by, seen};
ghost use Rattle.lfs_fs.specs.Volume.{Serves};

use crate::error::FsError;
use crate::fs::Fs;
use lfs_device::SectorDevice;
use lfs_entries::{EntryFault, ListedEntry as Entry, TreeRow, list_entries, list_rows};
use lfs_files::Files;
use lfs_model::limits::FILE_NUMBERS;
use lfs_model::{FileNumber, Kind};
use lfs_path::header_of;
use std::alloc::Global;

impl<D: SectorDevice> Fs<D> {
    /// The entries of the directory of a path, ordered by the names' bytes, without dot and dot-dot
    /// (POSIX.1-2017, readdir).
    ///
    /// # Errors
    ///
    /// Those of the path; `NotDir` where it gives no directory.
    pub fn readdir(&mut self, path: &[u8]) -> Result<Vec<Entry>, FsError>
        ensures { Serves D.SectorDevice.state (seen self.old) (seen self.new)
            (Readdir path.now)
            (answer_by (λ entries. Entries (map entry_of entries.items)) result) }
    {
        let number = self.begin_with(path, true)?;
        let header = header_of(&mut self.store, number)?;
        check_directory(header.kind)?;
        let entries = list_entries(self.alloc, &mut self.store, number, header)?;
        Ok(entries)
    }

    /// Each entry of each directory, ordered by the directory's number and then by the name's
    /// bytes.
    ///
    /// # Errors
    ///
    /// `NoMemory` and `Device` for their causes.
    pub fn tree(&mut self) -> Result<Vec<TreeRow>, FsError>
        ensures { Serves D.SectorDevice.state (seen self.old) (seen self.new) ListTree
            (answer_by (λ rows. Rows (map row_of rows.items)) result) }
    {
        self.begin()?;
        let mut rows = Vec::new(self.alloc);
        for number in 1..FILE_NUMBERS {
            let number = FileNumber { value: number };
            let mut more = rows_at(self.alloc, &mut self.store, number)?;
            let Ok(()) = rows.append(&mut more) else {
                return Err(FsError::NoMemory);
            };
        }
        Ok(rows)
    }
}

/// The rows of the names in what stands at a number: only a directory has some.
fn rows_at<F: Files>(
    alloc: Global,
    files: &mut F,
    number: FileNumber,
) -> Result<Vec<TreeRow>, EntryFault>
    ensures only { AsksOnly (F.state files.old) (F.state files.new) result }
    ensures answer { IfOk result (λ rows. InEach (F.state files.old) (F.state files.new)
        (HasRows number.value rows.items)) }
    ensures failed { IfErr result (FailsWhere (F.state files.old) (F.state files.new)
        AreListable) }
{
    let Some(header) = files.header(number)? else {
        return Ok(Vec::new(alloc));
    };
    match header.kind {
        Kind::Directory => list_rows(alloc, files, number, header),
        Kind::File | Kind::Link => Ok(Vec::new(alloc)),
    }
}

/// Refuses what is no directory.
fn check_directory(kind: Kind) -> Result<(), FsError>
    ensures done { OnOk result (kind ≡ Kind.Directory) }
    ensures refused { OnErr result (kind ≡ Kind.Directory → ⊥) }
    ensures fault { IfErr result (λ fault. fault ≡ FsError.NotDir) }
{
    match kind {
        Kind::Directory => Ok(()),
        Kind::File => Err(FsError::NotDir),
        Kind::Link => Err(FsError::NotDir),
    }
}
