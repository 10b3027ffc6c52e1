//! The totals of the draft as one file changes.
ghost use Rattle.std.specs.Prelude.{◌≡◌, ◌<◌, ◌≤◌, true, OnOk, OnErr, IsErrOf};
ghost use Rattle.lfs_store.specs.Recounting.{Replaces, Recounts};

use crate::store::Store;
use crate::totals::Measure;
use lfs_cleaner::volume_log::{BlockTotals, LogFault};
use lfs_device::SectorDevice;
use lfs_model::FileNumber;
use lfs_model::limits::FILE_BLOCKS;

/// A total with one share in place of another.
fn replaced(total: u32, before: u32, after: u32) -> u32
    ensures { Replaces total before after result }
{
    let sum = u64::from(total) + u64::from(after);
    sum.saturating_sub(u64::from(before))
        .min(u64::from(u32::MAX)) as u32
}

/// The totals with one measure of a file in place of another.
pub fn recounted(totals: BlockTotals, before: Measure, after: Measure) -> BlockTotals
    ensures { Recounts totals result before after }
{
    BlockTotals {
        data_blocks: replaced(totals.data_blocks, before.data_blocks, after.data_blocks),
        meta_blocks: replaced(totals.meta_blocks, before.meta_blocks, after.meta_blocks),
    }
}

impl<D: SectorDevice> Store<D> {
    ghost use Rattle.lfs_cleaner.specs.log.LogState.{IsReadFault};
    ghost use Rattle.lfs_store.specs.Keeping.{OnlyCounts};
    ghost use Rattle.lfs_store.specs.Recounting.{Remeasures};

    /// The data blocks, inodes and blocks of pointers of all files, with the draft.
    pub fn space(&self) -> BlockTotals
        ensures { result ≡ self.now.drafted }
    {
        self.drafted
    }

    /// Puts the measure of a file in the place of what it was before.
    ///
    /// # Errors
    ///
    /// As those of `measure`.
    pub fn recount(
        &mut self,
        number: FileNumber,
        from: u32,
        to: u32,
        before: Measure,
    ) -> Result<(), LogFault>
        requires order { from ≤ to }
        requires low { to ≤ FILE_BLOCKS }
        ensures counts { OnlyCounts D.SectorDevice.state self.old self.new }
        ensures done { OnOk result (Remeasures D.SectorDevice.state self.old.log self.new.log
            self.old.draft.changes number.value from to before self.old.drafted self.new.drafted) }
        ensures failed { OnErr result (IsReadFault D.SectorDevice.state self.old.log self.new.log) }
        ensures halted { IsErrOf result LogFault.Halted → self.old.log.halted ≡ true }
        ensures other { IsErrOf result LogFault.Full → ⊥ }
    {
        let after = self.measure(number, from, to)?;
        self.drafted = recounted(self.drafted, before, after);
        Ok(())
    }
}
