//! The files of a volume as they are with a draft of changes.
ghost use Rattle.std.specs.Prelude.{◌≡◌, ◌<◌, true, IfOk, OnErr, IsErrOf, IsFalse};
ghost use Rattle.lfs_model.specs.Fields.{zeros};

use crate::draft::Draft;
use crate::reading::read_block;
use lfs_cleaner::volume_log::{BlockTotals, Header, Log, LogFault};
use lfs_device::SectorDevice;
use lfs_model::FileNumber;
use lfs_model::limits::SECTOR_LEN;

/// A log, and the changes of the present call, which reads see.
#[derive(Drop)]
pub struct Store<D: SectorDevice> {
    pub(crate) log: Log<D>,
    pub(crate) draft: Draft,
    /// The blocks of all files, with the draft.
    pub(crate) drafted: BlockTotals,
}

impl<D: SectorDevice> Store<D> {
    ghost use Rattle.lfs_cleaner.specs.log.LogState.{IsReadFault};
    ghost use Rattle.lfs_store.specs.Reading.{ReadsStore, ReadsHeader, ReadsBlock};

    /// What the inode of a file says of it, if the file is there.
    ///
    /// # Errors
    ///
    /// `Halted` once a write of the log failed, `Device` where a call of the device failed.
    pub(crate) fn header(&mut self, number: FileNumber) -> Result<Option<Header>, LogFault>
        ensures reads { ReadsStore D.SectorDevice.state self.old self.new }
        ensures answer { IfOk result (ReadsHeader D.SectorDevice.state self.old.log self.new.log
            self.old.draft.changes number.value) }
        ensures failed { OnErr result (IsReadFault D.SectorDevice.state self.old.log self.new.log) }
        ensures halted { IsErrOf result LogFault.Halted → self.old.log.halted ≡ true }
        ensures other { IsErrOf result LogFault.Full → ⊥ }
    {
        match self.draft.header(number) {
            Some(header) => Ok(header),
            None => self.log.header(number.value),
        }
    }

    /// Whether a block of a file is stored, and its bytes; zeros where it isn't.
    ///
    /// # Errors
    ///
    /// As those of `header`.
    pub(crate) fn block(
        &mut self,
        number: FileNumber,
        index: u32,
        out: &mut [u8; 512],
    ) -> Result<bool, LogFault>
        ensures reads { ReadsStore D.SectorDevice.state self.old self.new }
        ensures answer { IfOk result (ReadsBlock D.SectorDevice.state self.old.log self.new.log
            self.old.draft.changes number.value index out.new) }
        ensures zeros { IfOk result (λ found. IsFalse found → out.new ≡ zeros SECTOR_LEN) }
        ensures failed { OnErr result (IsReadFault D.SectorDevice.state self.old.log self.new.log) }
        ensures halted { IsErrOf result LogFault.Halted → self.old.log.halted ≡ true }
        ensures other { IsErrOf result LogFault.Full → ⊥ }
    {
        read_block(&mut self.log, &self.draft, number, index, out)
    }
}
