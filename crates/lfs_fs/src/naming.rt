//! Calls that find a file by its path, or make one.
ghost use Rattle.std.specs.Prelude.{◌≡◌, IfErr, OnErr, OnOk};
ghost use Rattle.lfs_model.specs.Call.{Open, Create, Done, Handle, Mkdir};
ghost use Rattle.lfs_fs.specs.Volume.{Serves};
ghost use Rattle.lfs_fs.specs.Seen.{answer_by, seen};

use crate::error::FsError;
use crate::fs::Fs;
use lfs_device::SectorDevice;
use lfs_entries::{NewObject, check_new_entry, draft_entry};
use lfs_model::Kind;
use lfs_model::limits::MOST_LINKS;
use lfs_path::header_of;

impl<D: SectorDevice> Fs<D> {
    /// A handle on the file of a path: the least that is free (POSIX.1-2017, open).
    ///
    /// # Errors
    ///
    /// In this order: those of the path; `IsDir`; `TooManyOpen` where 64 handles are open.
    pub fn open(&mut self, path: &[u8]) -> Result<u32, FsError>
        ensures { Serves D.SectorDevice.state (seen self.old) (seen self.new)
            (Open path.now)
            (answer_by Handle result) }
    {
        let number = self.begin_with(path, true)?;
        let header = header_of(&mut self.store, number)?;
        check_file(header.kind)?;
        let Some(handle) = self.handles.least_free() else {
            return Err(FsError::TooManyOpen);
        };
        self.handles.open(handle, number);
        Ok(handle)
    }

    /// Makes an empty file, and gives a handle on it: the least that is free (POSIX.1-2017, open
    /// with O_CREAT and O_EXCL).
    ///
    /// # Errors
    ///
    /// In this order: those of the path; of the new name `Exist`, `NameTooLong`, `Exist`, `NoEntry`
    /// where a slash follows it, `DirFull`;
    /// `TooManyOpen`; `NoNumber`; `NoSpace`.
    pub fn create(&mut self, path: &[u8]) -> Result<u32, FsError>
        ensures { Serves D.SectorDevice.state (seen self.old) (seen self.new)
            (Create path.now)
            (answer_by Handle result) }
    {
        let (directory, last) = self.begin_at(path, FsError::Exist)?;
        let holder = check_new_entry(&mut self.store, directory, last, false)?;
        let Some(handle) = self.handles.least_free() else {
            return Err(FsError::TooManyOpen);
        };
        let Some(file) = self.store.least_free() else {
            return Err(FsError::NoNumber);
        };
        let object = NewObject::File;
        let drafted = draft_entry(&mut self.store, directory, holder, file, object, last.name);
        self.finish(drafted)?;
        self.handles.open(handle, file);
        Ok(handle)
    }

    /// Makes an empty directory (POSIX.1-2017, mkdir).
    ///
    /// # Errors
    ///
    /// In this order: those of the path; of the new name `Exist`, `NameTooLong`, `Exist`,
    /// `DirFull`; `TooManyLinks` where the directory that is to have it has 1,000 links;
    /// `NoNumber`; `NoSpace`.
    pub fn mkdir(&mut self, path: &[u8]) -> Result<(), FsError>
        ensures { Serves D.SectorDevice.state (seen self.old) (seen self.new)
            (Mkdir path.now)
            (answer_by (λ _. Done) result) }
    {
        let (directory, last) = self.begin_at(path, FsError::Exist)?;
        let holder = check_new_entry(&mut self.store, directory, last, true)?;
        if holder.links >= MOST_LINKS {
            return Err(FsError::TooManyLinks);
        }
        let Some(number) = self.store.least_free() else {
            return Err(FsError::NoNumber);
        };
        let object = NewObject::Directory(self.store.new_form());
        let drafted = draft_entry(
            &mut self.store,
            directory,
            holder,
            number,
            object,
            last.name,
        );
        self.finish(drafted)
    }
}

/// Refuses a directory.
fn check_file(kind: Kind) -> Result<(), FsError>
    ensures done { OnOk result (kind ≡ Kind.Directory → ⊥) }
    ensures refused { OnErr result (kind ≡ Kind.Directory) }
    ensures fault { IfErr result (λ fault. fault ≡ FsError.IsDir) }
{
    match kind {
        Kind::Directory => Err(FsError::IsDir),
        Kind::File => Ok(()),
        Kind::Link => Ok(()),
    }
}
