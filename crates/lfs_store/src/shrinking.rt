//! A file cut in its last block, into a draft that may hold other changes.
ghost use Rattle.std.specs.Prelude.{◌≡◌, ◌<◌, ◌≤◌, ◌+◌, ◌*◌, ◌/◌, true, IfErr, OnOk, IsErrOf};
ghost use Rattle.lfs_cleaner.specs.log.LogState.{IsReadFault};

use crate::pieces::cut_tail;
use crate::store::Store;
use lfs_cleaner::volume_log::{Header, LogFault};
use lfs_device::SectorDevice;
use lfs_files::StoreFault;
use lfs_model::FileNumber;
use lfs_model::limits::{LARGEST_FILE, SECTOR_LEN};

impl<D: SectorDevice> Store<D> {
    ghost use Rattle.lfs_store.specs.Keeping.{RedraftsUncounted};
    ghost use Rattle.lfs_store.specs.Recounting.{ChangesOnly};
    ghost use Rattle.lfs_store.specs.Seen.{files_of};
    ghost use Rattle.lfs_files.specs.Files.{Counts, IsFault, Redrafts, Shrinks};
    ghost use Rattle.lfs_store.specs.Shrinking.{ClearsTail};

    /// Cuts a file of this header at a length in its last block, which is zeros from there on. No
    /// block is lost, so the draft may lose others.
    ///
    /// # Errors
    ///
    /// As those of `write_at`.
    pub(crate) fn shrink(
        &mut self,
        number: FileNumber,
        header: Header,
        len: u32,
    ) -> Result<(), StoreFault>
        requires less { len < header.size }
        requires last { header.size ≤ SECTOR_LEN * (len / SECTOR_LEN) + SECTOR_LEN }
        requires most { header.size ≤ LARGEST_FILE }
        ensures redrafts { Redrafts (files_of D.SectorDevice.state self.old)
            (files_of D.SectorDevice.state self.new) }
        ensures done { OnOk result (Shrinks (files_of D.SectorDevice.state self.old)
            (files_of D.SectorDevice.state self.new) number.value header len) }
        ensures counted { OnOk result (Counts (files_of D.SectorDevice.state self.old)
            (files_of D.SectorDevice.state self.new)) }
        ensures failed { IfErr result (λ fault. (fault ≡ StoreFault.NoMemory → ⊥)
            → IsFault (files_of D.SectorDevice.state self.old)
            (files_of D.SectorDevice.state self.new)) }
        ensures halted { IsErrOf result (StoreFault.Log LogFault.Halted)
            → self.old.log.halted ≡ true }
        ensures other { IsErrOf result (StoreFault.Log LogFault.Full) → ⊥ }
    {
        let index = len / 512;
        let before = match self.measure(number, index, index + 1) {
            Ok(measure) => measure,
            Err(fault) => return Err(StoreFault::Log(fault)),
        };
        self.draft_shrink(number, header, len)?;
        match self.recount(number, index, index + 1, before) {
            Ok(()) => Ok(()),
            Err(fault) => Err(StoreFault::Log(fault)),
        }
    }

    /// Cuts a file in its last block, in the draft.
    fn draft_shrink(
        &mut self,
        number: FileNumber,
        header: Header,
        len: u32,
    ) -> Result<(), StoreFault>
        requires less { len < header.size }
        requires last { header.size ≤ SECTOR_LEN * (len / SECTOR_LEN) + SECTOR_LEN }
        requires most { header.size ≤ LARGEST_FILE }
        ensures redrafts { RedraftsUncounted D.SectorDevice.state self.old self.new }
        ensures done { OnOk result (Shrinks (files_of D.SectorDevice.state self.old)
            (files_of D.SectorDevice.state self.new) number.value header len) }
        ensures only { OnOk result (ChangesOnly (files_of D.SectorDevice.state self.old)
            (files_of D.SectorDevice.state self.new) number.value (len / SECTOR_LEN)
            (len / SECTOR_LEN + 1)) }
        ensures failed { IfErr result (λ fault. (fault ≡ StoreFault.NoMemory → ⊥)
            → IsReadFault D.SectorDevice.state self.old.log self.new.log) }
        ensures halted { IsErrOf result (StoreFault.Log LogFault.Halted)
            → self.old.log.halted ≡ true }
        ensures other { IsErrOf result (StoreFault.Log LogFault.Full) → ⊥ }
    {
        self.clear_tail(number, len)?;
        self.resize(number, header, len)
    }

    /// The block of a place of a file ends there.
    fn clear_tail(&mut self, number: FileNumber, len: u32) -> Result<(), StoreFault>
        requires most { len < LARGEST_FILE }
        ensures redrafts { RedraftsUncounted D.SectorDevice.state self.old self.new }
        ensures done { OnOk result (ClearsTail D.SectorDevice.state self.old.log self.new.log
            self.old.draft.changes self.new.draft.changes number.value len) }
        ensures failed { IfErr result (λ fault. (fault ≡ StoreFault.NoMemory → ⊥)
            → IsReadFault D.SectorDevice.state self.old.log self.new.log) }
        ensures halted { IsErrOf result (StoreFault.Log LogFault.Halted)
            → self.old.log.halted ≡ true }
        ensures other { IsErrOf result (StoreFault.Log LogFault.Full) → ⊥ }
    {
        let mut block = [0; 512];
        match self.block(number, len / 512, &mut block) {
            Ok(_) => {}
            Err(fault) => return Err(StoreFault::Log(fault)),
        }
        cut_tail(&mut block, (len % 512) as usize);
        let Ok(()) = self.draft.put_block(number, len / 512, &block) else {
            return Err(StoreFault::NoMemory);
        };
        Ok(())
    }
}
