//! A mounted volume, and what its calls have in common.
ghost use Rattle.std.specs.Prelude.{◌≡◌, ◌≤◌, ◌<◌, ◌^◌, ◌+◌, ◌*◌, length, true, false, Some, IfOk, IfErr, OnOk, OnErr};
ghost use Rattle.std.specs.FinMap.{find};
ghost use Rattle.std.specs.Ordering.{nat_cmp};
ghost use Rattle.lfs_model.specs.declared.limits.TheConstants.{MOST_HANDLES};
ghost use Rattle.lfs_store.specs.cleaner.Making.{IsAtRest, clean_orders};
ghost use Rattle.lfs_store.specs.StoreState.{asked_by, draft_of};
ghost use Rattle.lfs_fs.specs.Accepting.{StagesDraft, TurnsDown};
ghost use Rattle.lfs_fs.specs.Seen.{Begins, GivesNone, seen};

use crate::error::FsError;
use crate::handles::Handles;
use crate::rows::Space;
use lfs_device::SectorDevice;
use lfs_model::FileNumber;
use lfs_model::limits::{LEAST_NEED, NEED_OF_META, NEED_OF_SEGMENT};
use lfs_store::{BlockTotals, Store};
use std::alloc::Global;

/// From this checkpoint number on nothing is changed.
const WORN: u64 = 1 << 62;

/// A mounted volume, whose calls are made one at a time.
#[derive(Drop)]
pub struct Fs<D: SectorDevice> {
    pub(crate) alloc: Global,
    pub(crate) store: Store<D>,
    pub(crate) handles: Handles,
}

impl<D: SectorDevice> Fs<D> {
    /// Begins a call: no change is drafted yet.
    pub(crate) fn begin(&mut self) -> Result<(), FsError>
        ensures done { OnOk result (Begins self.old self.new) }
        ensures same { OnErr result (self.new ≡ self.old) }
        ensures halted { OnErr result ((seen self.old).log.halted ≡ true) }
        ensures fault { IfErr result (λ fault. fault ≡ FsError.Halted) }
    {
        if self.store.is_halted() {
            return Err(FsError::Halted);
        }
        self.store.give_up();
        Ok(())
    }

    /// The file of an open handle.
    pub(crate) fn file(&self, handle: u32) -> Result<FileNumber, FsError>
        ensures within { OnOk result (handle < MOST_HANDLES) }
        ensures opens { IfOk result (λ number. find nat_cmp handle self.now.handles
            ≡ Some number.value) }
        ensures missing { IfErr result (GivesNone self.now.handles handle) }
    {
        self.handles.get(handle).ok_or(FsError::BadHandle)
    }

    /// Refuses a change past the last checkpoint number at which the volume is changed.
    pub(crate) fn check_worn(&self) -> Result<(), FsError>
        ensures young { OnOk result ((seen self.now).log.number < 2 ^ 62) }
        ensures old { OnErr result (2 ^ 62 ≤ (seen self.now).log.number) }
        ensures fault { IfErr result (λ fault. fault ≡ FsError.Worn) }
    {
        if self.store.number() >= WORN {
            return Err(FsError::Worn);
        }
        Ok(())
    }

    /// What these totals need of the volume.
    pub(crate) fn space_of(&self, totals: BlockTotals) -> Space
        ensures stored { result.data_blocks ≡ totals.data_blocks }
        ensures above { result.meta_blocks ≡ totals.meta_blocks }
        ensures need { result.need ≡ totals.data_blocks + NEED_OF_META * totals.meta_blocks
            + LEAST_NEED }
        ensures limit { result.limit ≡ NEED_OF_SEGMENT
            * (seen self.now).log.segments }
    {
        let data_blocks = u64::from(totals.data_blocks);
        let meta_blocks = u64::from(totals.meta_blocks);
        Space {
            data_blocks,
            meta_blocks,
            need: data_blocks + NEED_OF_META * meta_blocks + LEAST_NEED,
            limit: NEED_OF_SEGMENT * u64::from(self.store.segments()),
        }
    }

    /// Makes the drafted changes whole, where the volume has the space for them. Commits come
    /// before the changes, never within.
    pub(crate) fn accept(&mut self) -> Result<(), FsError>
        requires running { (seen self.old).log.halted ≡ false }
        requires room { asked_by (draft_of self.old.store) ≤ 456 }
        ensures done { OnOk result (StagesDraft D.SectorDevice.state self.old self.new) }
        ensures refused { IfErr result (TurnsDown D.SectorDevice.state self.old
            self.new) }
        ensures fits { IfErr result (λ fault. fault ≡ FsError.NoMemory
            → ((seen self.old).log.saved ≡ true → IsAtRest (seen self.old).log) → ⊥) }
        ensures rest { self.new.handles ≡ self.old.handles }
        ensures told { length (D.state (seen self.new).log.device).told
            ≤ length (D.state (seen self.old).log.device).told
            + clean_orders (seen self.old).log.segments }
    {
        let space = self.space_of(self.store.space());
        if space.need > space.limit {
            self.store.give_up();
            return Err(FsError::NoSpace);
        }
        match self.check_worn() {
            Ok(()) => {}
            Err(fault) => {
                self.store.give_up();
                return Err(fault);
            }
        }
        match self.store.accept() {
            Ok(()) => Ok(()),
            Err(fault) => Err(FsError::from(fault)),
        }
    }
}
