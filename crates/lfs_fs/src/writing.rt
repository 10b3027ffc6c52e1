//! Calls that change the bytes of a file.
ghost use Rattle.std.specs.Prelude.{◌≡◌, ◌≤◌, ◌<◌, ◌+◌, ℕ, length, false, Some};
ghost use Rattle.std.specs.FinMap.{find};
ghost use Rattle.std.specs.Ordering.{nat_cmp};
ghost use Rattle.lfs_model.specs.Call.{Pwrite, Truncate, Count, Done};
ghost use Rattle.lfs_store.specs.StoreState.{drafted_of};
ghost use Rattle.lfs_fs.specs.Volume.{Serves};
ghost use Rattle.lfs_fs.specs.Seen.{IsReady, answer_by, seen};

use crate::error::FsError;
use crate::fs::Fs;
use lfs_device::SectorDevice;
use lfs_entries::{draft_bytes, draft_length};
use lfs_model::limits::LONGEST_TRANSFER;
use lfs_model::{FileNumber, limits};

/// The most bytes of a file.
const LARGEST_FILE: u64 = limits::LARGEST_FILE as u64;

impl<D: SectorDevice> Fs<D> {
    /// Puts bytes into a file at `offset`, all or none, and gives their number. A gap is filled
    /// with zeros (POSIX.1-2017, pwrite).
    ///
    /// # Errors
    ///
    /// In this order: `BadHandle`; `Inval` above 65,536 bytes; `FileTooBig` where they would end
    /// past 8,511,488; `NoSpace`.
    pub fn pwrite(&mut self, handle: u32, offset: u64, bytes: &[u8]) -> Result<u32, FsError>
        ensures { Serves D.SectorDevice.state (seen self.old) (seen self.new)
            (Pwrite handle offset bytes.now) (answer_by Count result) }
    {
        self.begin()?;
        let number = self.file(handle)?;
        if bytes.len() > LONGEST_TRANSFER as usize {
            return Err(FsError::Inval);
        }
        if bytes.is_empty() {
            return match self.check_worn() {
                Ok(()) => Ok(0),
                Err(fault) => Err(fault),
            };
        }
        let len = bytes.len() as u64;
        if offset > LARGEST_FILE - len {
            return Err(FsError::FileTooBig);
        }
        match self.write_file(number, offset as u32, bytes) {
            Ok(()) => Ok(len as u32),
            Err(fault) => Err(fault),
        }
    }

    /// Puts bytes into a file, where they end within the greatest size.
    fn write_file(&mut self, number: FileNumber, at: u32, bytes: &[u8]) -> Result<(), FsError>
        requires bytes { 0 < length bytes.now }
        requires end { at + length bytes.now ≤ LARGEST_FILE }
        requires ready { IsReady self.old }
        requires counted { drafted_of self.old.store ≡ (seen self.old).log.totals }
        requires most { length bytes.now ≤ LONGEST_TRANSFER }
        ensures { (handle : ℕ) → find nat_cmp handle self.old.handles ≡ Some number.value
            → length bytes.now ≤ LONGEST_TRANSFER
            → Serves D.SectorDevice.state (seen self.old) (seen self.new)
            (Pwrite handle at bytes.now) (answer_by (λ _. Count (length bytes.now)) result) }
    {
        let drafted = draft_bytes(&mut self.store, number, at, bytes);
        self.finish(drafted)
    }

    /// Cuts a file to `len` bytes, or makes it longer with zeros (POSIX.1-2017, ftruncate).
    ///
    /// # Errors
    ///
    /// In this order: `BadHandle`; `FileTooBig` above 8,511,488.
    pub fn truncate(&mut self, handle: u32, len: u64) -> Result<(), FsError>
        ensures { Serves D.SectorDevice.state (seen self.old) (seen self.new)
            (Truncate handle len)
            (answer_by (λ _. Done) result) }
    {
        self.begin()?;
        let number = self.file(handle)?;
        if len > LARGEST_FILE {
            return Err(FsError::FileTooBig);
        }
        self.cut_file(number, len as u32)
    }

    /// Cuts a file to a length, or makes it longer.
    fn cut_file(&mut self, number: FileNumber, len: u32) -> Result<(), FsError>
        requires most { len ≤ LARGEST_FILE }
        requires ready { IsReady self.old }
        requires counted { drafted_of self.old.store ≡ (seen self.old).log.totals }
        ensures { (handle : ℕ) → find nat_cmp handle self.old.handles ≡ Some number.value
            → Serves D.SectorDevice.state (seen self.old) (seen self.new)
            (Truncate handle len)
            (answer_by (λ _. Done) result) }
    {
        let drafted = draft_length(&mut self.store, number, len);
        self.finish(drafted)
    }
}
