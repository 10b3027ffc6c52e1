//! A further name of an object.
ghost use Rattle.lfs_model.specs.Call.{Done, LinkTo};
ghost use Rattle.lfs_fs.specs.Volume.{Serves};
ghost use Rattle.lfs_fs.specs.Seen.{answer_by, seen};

use crate::error::FsError;
use crate::fs::Fs;
use lfs_device::SectorDevice;
use lfs_entries::{check_new_entry, check_old_entry, draft_name};
use lfs_model::limits::MOST_LINKS;

impl<D: SectorDevice> Fs<D> {
    /// Gives what a path names a further name; a symbolic link itself (POSIX.1-2017, link).
    ///
    /// # Errors
    ///
    /// In this order: those of the first path; of its name `Perm` where it ends in none,
    /// `NameTooLong`, `NoEntry`, `NotDir` where a slash follows the name of what is no directory,
    /// `Perm` for a directory; those of the second path; of the new name as those of `create`;
    /// `TooManyLinks` where the object has 1,000 names; `NoSpace`.
    pub fn link(&mut self, from: &[u8], to: &[u8]) -> Result<(), FsError>
        ensures { Serves D.SectorDevice.state (seen self.old) (seen self.new)
            (LinkTo from.now to.now) (answer_by (λ _. Done) result) }
    {
        let (directory, last) = self.begin_at(from, FsError::Perm)?;
        let entry = check_old_entry(&mut self.store, directory, last)?;
        let (parent, new) = self.reach(to, FsError::Exist)?;
        let holder = check_new_entry(&mut self.store, parent, new, false)?;
        let object = entry.object;
        if object.header.links >= MOST_LINKS {
            return Err(FsError::TooManyLinks);
        }
        let (number, header) = (object.number, object.header);
        let drafted = draft_name(&mut self.store, parent, holder, number, header, new.name);
        self.finish(drafted)
    }
}
