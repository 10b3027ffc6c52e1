//! Calls on the whole volume (POSIX.1-2017: fsync, sync), and those that the volume has besides.
ghost use Rattle.lfs_model.specs.Call.{Fsync, Sync, Clean, Version, Upgrade};
ghost use Rattle.lfs_volume.specs.Found.{by_volume};
ghost use Rattle.lfs_queue.specs.Queue.{queue_state};
ghost use Rattle.pansuyog_calls.specs.Cleaning.{CleansOnceIn, TellsDue};
ghost use Rattle.pansuyog.specs.Serving.{IsUnchanged, KeepsRest, ServesCall};

use crate::handle::Handle;
use pansuyog_calls::access::Access;
use pansuyog_calls::saving;

/// Saves the whole volume, with the file of a handle.
#[unsafe(no_mangle)]
pub extern "C" fn pansuyog_fsync(volume: &mut Handle, file: u32) -> i32
    ensures serves { ServesCall volume.old.value volume.new.value (Fsync file) result }
    ensures rest { KeepsRest volume.old.value volume.new.value }
{
    saving::fsync(&mut volume.volume().fs, Access::ReadWrite, file)
}

/// Saves the whole volume: once the orders that wait behind `0` are carried out, every call before
/// survives a stop.
#[unsafe(no_mangle)]
pub extern "C" fn pansuyog_sync(volume: &mut Handle) -> i32
    ensures serves { ServesCall volume.old.value volume.new.value Sync result }
    ensures rest { KeepsRest volume.old.value volume.new.value }
{
    saving::sync(&mut volume.volume().fs, Access::ReadWrite)
}

/// Cleans segments until a quarter of them is clean.
#[unsafe(no_mangle)]
pub extern "C" fn pansuyog_clean(volume: &mut Handle) -> i32
    ensures serves { ServesCall volume.old.value volume.new.value Clean result }
    ensures rest { KeepsRest volume.old.value volume.new.value }
{
    saving::clean(&mut volume.volume().fs, Access::ReadWrite)
}

/// 1 where fewer than a quarter of the segments is clean, so that a cleaning has something to do;
/// else 0.
#[unsafe(no_mangle)]
pub extern "C" fn pansuyog_is_cleaning_due(volume: &mut Handle) -> i32
    ensures tells { TellsDue volume.old.value.fs result }
    ensures same { IsUnchanged volume.old.value volume.new.value }
{
    saving::is_cleaning_due(&volume.volume().fs)
}

/// One pass of the cleaner where that is so, and none else. What isn't saved is saved before it. The
/// device is told at most 520 orders, and 8 more for each segment.
#[unsafe(no_mangle)]
pub extern "C" fn pansuyog_clean_once(volume: &mut Handle) -> i32
    ensures serves { ServesCall volume.old.value volume.new.value Clean result }
    ensures once { CleansOnceIn (by_volume queue_state) volume.old.value.fs volume.new.value.fs
        result }
    ensures rest { KeepsRest volume.old.value volume.new.value }
{
    saving::clean_once(&mut volume.volume().fs, Access::ReadWrite)
}

/// The version of the volume's layout: 1 or 2.
#[unsafe(no_mangle)]
pub extern "C" fn pansuyog_version(volume: &mut Handle) -> i32
    ensures serves { ServesCall volume.old.value volume.new.value Version result }
    ensures rest { KeepsRest volume.old.value volume.new.value }
{
    saving::version(&mut volume.volume().fs)
}

/// Raises the version of the volume's layout to 2.
#[unsafe(no_mangle)]
pub extern "C" fn pansuyog_upgrade(volume: &mut Handle) -> i32
    ensures serves { ServesCall volume.old.value volume.new.value Upgrade result }
    ensures rest { KeepsRest volume.old.value volume.new.value }
{
    saving::upgrade(&mut volume.volume().fs, Access::ReadWrite)
}
