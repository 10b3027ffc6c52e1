//! Symbolic links, and how they are made.
ghost use Rattle.std.specs.Prelude.{◌≡◌, None, Some, IfErr, OnOk};
ghost use Rattle.lfs_model.specs.Call.{Done, Symlink};
ghost use Rattle.lfs_model.specs.PathText.{text_refusal};
ghost use Rattle.lfs_fs.specs.Refusals.{refusal_of};
ghost use Rattle.lfs_fs.specs.Seen.{answer_by, seen};
ghost use Rattle.lfs_fs.specs.Volume.{Serves};

use crate::error::FsError;
use crate::fs::Fs;
use lfs_device::SectorDevice;
use lfs_entries::{NewObject, check_new_entry, draft_entry};
use lfs_path::WalkFault;
use lfs_path::text::check_text;

impl<D: SectorDevice> Fs<D> {
    /// Makes a symbolic link with this text (POSIX.1-2017, symlink).
    ///
    /// # Errors
    ///
    /// In this order: of the text `NoEntry` where it is empty, `NameTooLong` above 1,023 bytes,
    /// `Inval` where it has a zero byte; those of the path; of the new name as those of `create`;
    /// `NoNumber`; `NoSpace`.
    pub fn symlink(&mut self, text: &[u8], path: &[u8]) -> Result<(), FsError>
        ensures { Serves D.SectorDevice.state (seen self.old) (seen self.new)
            (Symlink text.now path.now) (answer_by (λ _. Done) result) }
    {
        self.begin()?;
        check_link_text(text)?;
        let (directory, last) = self.reach(path, FsError::Exist)?;
        let holder = check_new_entry(&mut self.store, directory, last, false)?;
        let Some(number) = self.store.least_free() else {
            return Err(FsError::NoNumber);
        };
        let (object, name) = (NewObject::Link(text), last.name);
        let drafted = draft_entry(&mut self.store, directory, holder, number, object, name);
        self.finish(drafted)
    }
}

/// Refuses the text of a link for itself.
fn check_link_text(text: &[u8]) -> Result<(), FsError>
    ensures good { OnOk result (text_refusal text.now ≡ None) }
    ensures refused { IfErr result (λ fault. text_refusal text.now ≡ Some (refusal_of fault)) }
{
    match check_text(text) {
        Ok(()) => Ok(()),
        Err(WalkFault::NoEntry) => Err(FsError::NoEntry),
        Err(WalkFault::NotDir) => Err(FsError::NotDir),
        Err(WalkFault::NameTooLong) => Err(FsError::NameTooLong),
        Err(WalkFault::Inval) => Err(FsError::Inval),
        Err(WalkFault::Loop) => Err(FsError::Loop),
        Err(WalkFault::NoMemory) => Err(FsError::NoMemory),
        Err(WalkFault::Log(fault)) => Err(FsError::from(fault)),
    }
}
