//! What becomes of what a call drafted.
ghost use Rattle.std.specs.Prelude.{◌≡◌, ◌≤◌, false, OnOk};
ghost use Rattle.lfs_store.specs.StoreState.{asked_by, draft_of};
ghost use Rattle.lfs_fs.specs.Seen.{seen};
ghost use Rattle.lfs_fs.specs.Finishing.{Finishes};

use crate::error::FsError;
use crate::fs::Fs;
use lfs_device::SectorDevice;
use lfs_entries::EntryFault;

impl<D: SectorDevice> Fs<D> {
    /// Accepts what a call drafted, or gives it up where the draft isn't whole.
    pub(crate) fn finish(&mut self, drafted: Result<(), EntryFault>) -> Result<(), FsError>
        requires running { (seen self.old).log.halted ≡ false }
        requires room { OnOk drafted (asked_by (draft_of self.old.store) ≤ 456) }
        ensures ends { Finishes D.SectorDevice.state self.old self.new drafted result }
        ensures rest { self.new.handles ≡ self.old.handles }
    {
        match drafted {
            Ok(()) => self.accept(),
            Err(fault) => {
                self.store.give_up();
                Err(FsError::from(fault))
            }
        }
    }
}
