//! Calls on the whole volume (POSIX.1-2017: fsync, sync), and those that the volume has besides.
ghost use Rattle.lfs_model.specs.Call.{Fsync, Sync, Clean, Version, Upgrade};
ghost use Rattle.pansuyog_file.specs.Devices.{volume_state};
ghost use Rattle.pansuyog_calls.specs.Cleaning.{CleansOnceIn, TellsDue};
ghost use Rattle.pansuyog_file.specs.Serving.{IsUnchanged, KeepsRest, ServesCall, ServesChange};

use crate::handle::Handle;
use pansuyog_calls::saving;

/// Saves the whole volume, with the file of a handle.
#[unsafe(no_mangle)]
pub extern "C" fn pansuyog_file_fsync(volume: &mut Handle, file: u32) -> i32
    ensures serves { ServesChange volume.old.value volume.new.value (Fsync file) result }
    ensures rest { KeepsRest volume.old.value volume.new.value }
{
    let volume = &mut volume.volume().inner;
    saving::fsync(&mut volume.fs, volume.access, file)
}

/// Saves the whole volume: behind `0` every call before survives a stop.
#[unsafe(no_mangle)]
pub extern "C" fn pansuyog_file_sync(volume: &mut Handle) -> i32
    ensures serves { ServesChange volume.old.value volume.new.value Sync result }
    ensures rest { KeepsRest volume.old.value volume.new.value }
{
    let volume = &mut volume.volume().inner;
    saving::sync(&mut volume.fs, volume.access)
}

/// Cleans segments until a quarter of them is clean.
#[unsafe(no_mangle)]
pub extern "C" fn pansuyog_file_clean(volume: &mut Handle) -> i32
    ensures serves { ServesChange volume.old.value volume.new.value Clean result }
    ensures rest { KeepsRest volume.old.value volume.new.value }
{
    let volume = &mut volume.volume().inner;
    saving::clean(&mut volume.fs, volume.access)
}

/// 1 where fewer than a quarter of the segments is clean, so that a cleaning has something to do;
/// else 0.
#[unsafe(no_mangle)]
pub extern "C" fn pansuyog_file_is_cleaning_due(volume: &mut Handle) -> i32
    ensures tells { TellsDue volume.old.value.inner.fs result }
    ensures same { IsUnchanged volume.old.value volume.new.value }
{
    saving::is_cleaning_due(&volume.volume().inner.fs)
}

/// One pass of the cleaner where that is so, and none else. What isn't saved is saved before it. The
/// device is told at most 520 orders, and 8 more for each segment.
#[unsafe(no_mangle)]
pub extern "C" fn pansuyog_file_clean_once(volume: &mut Handle) -> i32
    ensures serves { ServesChange volume.old.value volume.new.value Clean result }
    ensures once { CleansOnceIn volume_state volume.old.value.inner.fs volume.new.value.inner.fs result }
    ensures rest { KeepsRest volume.old.value volume.new.value }
{
    let volume = &mut volume.volume().inner;
    saving::clean_once(&mut volume.fs, volume.access)
}

/// The version of the volume's layout: 1 or 2.
#[unsafe(no_mangle)]
pub extern "C" fn pansuyog_file_version(volume: &mut Handle) -> i32
    ensures serves { ServesCall volume.old.value volume.new.value Version result }
    ensures rest { KeepsRest volume.old.value volume.new.value }
{
    saving::version(&mut volume.volume().inner.fs)
}

/// Raises the version of the volume's layout to 2.
#[unsafe(no_mangle)]
pub extern "C" fn pansuyog_file_upgrade(volume: &mut Handle) -> i32
    ensures serves { ServesChange volume.old.value volume.new.value Upgrade result }
    ensures rest { KeepsRest volume.old.value volume.new.value }
{
    let volume = &mut volume.volume().inner;
    saving::upgrade(&mut volume.fs, volume.access)
}
