//! What a device that bears its calls gives a volume, as laws: each is the contract of a function
//! that does nothing.
ghost use Rattle.lfs_fs.specs.Available.{CallsAreAvailable, SyncsAreDone};

use lfs_device::SectorDevice;

/// Over a device that keeps the device model and bears more orders than a call may tell it
/// (`most_orders`), a volume that isn't halted answers neither `Device` nor `Halted`.
pub fn calls_are_available<D: SectorDevice>()
    ensures { CallsAreAvailable D.SectorDevice.state }
{}

/// So `sync` is Ok there, and so is `fsync` of an open file.
pub fn syncs_are_done<D: SectorDevice>()
    ensures { SyncsAreDone D.SectorDevice.state }
{}
