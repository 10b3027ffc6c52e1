//! What calls of a volume come to, one after the other, as laws: each is the contract of a function
//! that does nothing.
ghost use Rattle.lfs_fs.specs.InARow.{CallsAreKept, LeftIsMounted, MountsAreSaved};

use lfs_device::SectorDevice;

/// Calls in a row, over a device that keeps the device model and may be tended to between them: a
/// stop at any moment leaves the state after some of them, and one since an answer the state after
/// every call that was acknowledged by then, or a later one.
pub fn calls_are_kept<D: SectorDevice>()
    ensures { CallsAreKept D.SectorDevice.state }
{}

/// A mount is where they may begin: a stop behind it leaves the state that was found.
pub fn mounts_are_saved<D: SectorDevice>()
    ensures { MountsAreSaved D.SectorDevice.state }
{}

/// What such a stop leaves is mounted again, and refused for memory alone by a device that keeps the
/// model and bears two orders more.
pub fn left_is_mounted<D: SectorDevice>()
    ensures { LeftIsMounted D.SectorDevice.state }
{}
