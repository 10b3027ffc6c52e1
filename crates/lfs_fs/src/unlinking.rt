//! Calls that take names away.
ghost use Rattle.lfs_model.specs.Call.{Done, Rmdir, Unlink};
ghost use Rattle.lfs_fs.specs.Seen.{answer_by, seen};
ghost use Rattle.lfs_fs.specs.Volume.{Serves};

use crate::error::FsError;
use crate::fs::Fs;
use lfs_device::SectorDevice;
use lfs_entries::{check_empty, check_old_entry, drop_entry};

impl<D: SectorDevice> Fs<D> {
    /// Takes a name away (POSIX.1-2017, unlink). A symbolic link without names goes, and a file
    /// without names as soon as no handle is open on it.
    ///
    /// # Errors
    ///
    /// In this order: those of the path; `Perm` where it ends in no name; `NameTooLong`; `NoEntry`;
    /// `NotDir` where a slash follows the name of what is no directory; `Perm` for a directory.
    /// Never `NoSpace`.
    pub fn unlink(&mut self, path: &[u8]) -> Result<(), FsError>
        ensures { Serves D.SectorDevice.state (seen self.old) (seen self.new)
            (Unlink path.now)
            (answer_by (λ _. Done) result) }
    {
        let (directory, last) = self.begin_at(path, FsError::Perm)?;
        let entry = check_old_entry(&mut self.store, directory, last)?;
        let is_open = self.handles.gives(entry.object.number);
        let drafted = drop_entry(&mut self.store, directory, entry, last.name, is_open);
        self.finish(drafted)
    }

    /// Takes an empty directory away (POSIX.1-2017, rmdir).
    ///
    /// # Errors
    ///
    /// In this order: those of the path; `Busy` for the root; `Inval` where it ends in dot or
    /// dot-dot; `NameTooLong`; `NoEntry`; `NotDir`, for a symbolic link too; `NotEmpty`. Never
    /// `NoSpace`.
    pub fn rmdir(&mut self, path: &[u8]) -> Result<(), FsError>
        ensures { Serves D.SectorDevice.state (seen self.old) (seen self.new)
            (Rmdir path.now)
            (answer_by (λ _. Done) result) }
    {
        let (directory, last) = self.begin_at(path, FsError::Busy)?;
        let entry = check_empty(&mut self.store, directory, last.name)?;
        // No handle is open on a directory, which goes in any case.
        let drafted = drop_entry(&mut self.store, directory, entry, last.name, false);
        self.finish(drafted)
    }
}
