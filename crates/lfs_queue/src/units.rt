//! The laws of what orders let a stop leave, by the units of a device.
ghost use Rattle.lfs_queue.specs.UnitOrders.{AsToldOfWhole, LeavesOfOne, LeavesWithin};

use lfs_device::SectorDevice;

/// Where units are sectors, what orders let a stop leave is what they let it leave of each sector
/// by itself.
pub fn leaves_of_one()
    ensures { LeavesOfOne }
{}

/// Larger units let it leave all that units within them do.
pub fn leaves_within()
    ensures { LeavesWithin }
{}

/// Of a device that has as many sectors as the image, `IsAsTold` says its whole content.
pub fn as_told_of_whole<D: SectorDevice>(device: &D)
    ensures { AsToldOfWhole (D.state device.now) }
{}
