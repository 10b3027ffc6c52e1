//! The laws of the calls, each the contract of a function that does nothing.
ghost use Rattle.pansuyog_calls.specs.InARow.{CallsAreKept, MountsAreSaved};
ghost use Rattle.pansuyog_calls.specs.Laws.{LooksTellNothing, RefusalsTellNothing};
ghost use Rattle.pansuyog_calls.specs.Sessions.{RecordsAreSaved};
ghost use Rattle.lfs_volume.specs.Found.{by_volume};

use lfs_device::SectorDevice;
use lfs_fs::InVolume;
use lfs_record::laws::sessions_are_saved;

/// A volume that is only read tells its device no write and no sync, by any call.
pub fn readers_tell_nothing<D: SectorDevice>()
    ensures looks { LooksTellNothing (by_volume D.state) }
    ensures refused { RefusalsTellNothing (by_volume D.state) }
{}

/// Calls of C in a row on a mounted volume, over a device that keeps the device model: a stop at any
/// moment since one answered leaves every call that was acknowledged by then.
pub fn calls_are_kept<D: SectorDevice>()
    ensures { CallsAreKept (by_volume D.SectorDevice.state) }
{}

/// They may begin behind a mount.
pub fn mounts_are_saved<D: SectorDevice>()
    ensures { MountsAreSaved (by_volume D.SectorDevice.state) }
{}

/// A recorder that C begins on a volume that is saved, over a device that keeps the device model: a stop
/// at any moment since C was told that a save is done leaves all lines that it was told are written
/// before, but for whole files that went.
pub fn records_are_saved<D: SectorDevice>()
    ensures { RecordsAreSaved (by_volume D.SectorDevice.state) }
{
    sessions_are_saved::<InVolume<D>>();
}
