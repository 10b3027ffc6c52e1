//! A device in memory whose faults are chosen while a log holds it.
ghost use Rattle.std.specs.Prelude.{◌≡◌, ◌<◌, Some, None, OnOk, OnErr, IsErrOf};

use lfs_device::{DeviceCall, DeviceFault, MemDevice, ReadFault, SectorDevice};
use std::cell::Cell;

/// The calls that fail from now on, each after so many of its kind; none after `u64::MAX`.
#[derive(Clone, Copy)]
pub struct Faults {
    /// The device stops within this write.
    pub stop: u64,
    pub sync: u64,
    pub read: u64,
}

/// No call fails.
pub const NO_FAULT: Faults = Faults {
    stop: u64::MAX,
    sync: u64::MAX,
    read: u64::MAX,
};

/// A device that takes its faults from a cell at each call, so it bears no order.
#[derive(Drop)]
pub struct WiredDevice<'a> {
    pub device: MemDevice,
    pub wire: &'a Cell<Option<Faults>>,
}

impl WiredDevice<'_> {
    ghost use Rattle.lfs_device.specs.MemoryDevice.{bench_of, with_bench};

    /// The faults that were chosen since the last call are now those of the device.
    pub fn take_faults(&mut self)
        ensures { self.new.device ≡ with_bench (bench_of self.new.device) self.old.device }
    {
        if let Some(faults) = self.wire.take() {
            self.device.stop_at(faults.stop);
            self.device.fail(DeviceCall::Sync, faults.sync);
            self.device.fail(DeviceCall::Read, faults.read);
        }
    }
}

impl SectorDevice for WiredDevice<'_> {
    ghost use Rattle.lfs_device.specs.MemoryDevice.{device_state};
    ghost use Rattle.lfs_device.specs.Memory.{memory_lawful};
    ghost use Rattle.lfs_device.specs.Rows.{states_of};
    ghost use Rattle.lfs_device.specs.Told.{orders_of};
    ghost use Rattle.lfs_device.specs.Units.{unit_of};
    ghost use Rattle.lfs_log_tests.specs.Wired.{bearing_nothing, bearing_nothing_lawful};

    ghost state = { λ w. bearing_nothing (device_state w.device) };

    ghost lawful = { λ w. bearing_nothing_lawful (device_state w.device) (memory_lawful (unit_of w.device.units) w.device.rows.items (states_of w.device.past.value) w.device.failed.value w.device.failed_orders.value (orders_of w.device.told.value) w.device.bench w.device.fits w.device.whole w.device.were_whole) };

    fn sectors(&self) -> u32 {
        self.device.sectors()
    }

    fn read(&mut self, sector: u32, out: &mut [u8; 512]) -> Result<(), ReadFault> {
        self.take_faults();
        self.device.read(sector, out)
    }

    fn write(&mut self, sector: u32, bytes: &[u8; 512]) -> Result<(), DeviceFault> {
        self.take_faults();
        self.device.write(sector, bytes)
    }

    fn sync(&mut self) -> Result<(), DeviceFault> {
        self.take_faults();
        self.device.sync()
    }
}
