//! What is seen of a store's volume: numbers, its device, and the totals of its files.
ghost use Rattle.std.specs.Prelude.{◌≡◌, false};
ghost use Rattle.lfs_model.specs.Checkpoint.{IsSegmentCount, IsVersion};
ghost use Rattle.lfs_store.specs.StoreState.{volume_of};

use crate::store::Store;
use lfs_cleaner::volume_log::memory::segments::Usage;
use lfs_device::{SectorDevice, TendedDevice};

impl<D: SectorDevice> Store<D> {
    /// Whether a write of the volume failed.
    pub fn is_halted(&self) -> bool
        ensures { result ≡ (volume_of self.now).halted }
    {
        self.log.is_halted()
    }

    /// The acknowledged checkpoint's number.
    pub fn number(&self) -> u64
        ensures { result ≡ (volume_of self.now).number }
    {
        self.log.number()
    }

    /// The version of the volume's layout.
    pub fn version(&self) -> u32
        ensures known { IsVersion result }
        ensures value { result ≡ (volume_of self.now).version }
    {
        self.log.version()
    }

    /// How many segments the volume has.
    pub fn segments(&self) -> u32
        ensures { result ≡ (volume_of self.now).segments }
    {
        self.log.segments()
    }

    /// A volume that isn't halted has as many segments as a volume may have: a law.
    pub fn has_segment_count(&self)
        ensures { (volume_of self.now).halted ≡ false → IsSegmentCount (volume_of self.now).segments }
    {
        self.log.are_tables_whole();
    }

    /// Whether nothing that was done waits for a checkpoint.
    pub fn is_saved(&self) -> bool
        ensures { result ≡ (volume_of self.now).saved }
    {
        self.log.is_saved()
    }

    /// The device as it is, to look at.
    pub fn device(&self) -> &D
        ensures { result.now ≡ (volume_of self.now).device }
    {
        self.log.device()
    }

    /// How many blocks live in each segment, and hold it.
    pub fn usage(&self) -> &Usage
        ensures { result.now ≡ (volume_of self.now).usage }
    {
        self.log.usage()
    }
}

impl<D: TendedDevice> Store<D> {
    ghost use Rattle.lfs_cleaner.specs.log.LogState.{Reads};
    ghost use Rattle.lfs_store.specs.StoreState.{draft_of, drafted_of};

    /// Tends to the device, of which the volume sees nothing.
    pub fn tend(&mut self)
        ensures tended { D.tends (volume_of self.old).device (volume_of self.new).device }
        ensures reads { Reads D.SectorDevice.state (volume_of self.old) (volume_of self.new) }
        ensures draft { draft_of self.new ≡ draft_of self.old }
        ensures drafted { drafted_of self.new ≡ drafted_of self.old }
        ensures no_failure { (D.SectorDevice.state (volume_of self.new).device).failures
            ≡ (D.SectorDevice.state (volume_of self.old).device).failures }
    {
        self.log.tend();
    }
}
