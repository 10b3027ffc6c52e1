//! A volume is made, mounted and unmounted.
ghost use Rattle.lfs_model.specs.Device.{in_sectors};
ghost use Rattle.pansuyog_calls.specs.Volumes.{MakesFrom, MountsFrom, Unmounts};
ghost use Rattle.pansuyog_file.specs.Devices.{file_state};

use crate::handle::Handle;
use pansuyog_calls::making;
use std::alloc::Global;

/// Makes an empty volume of so many segments, in a version of the layout, in the file that was taken.
#[unsafe(no_mangle)]
pub extern "C" fn pansuyog_file_format(volume: &mut Handle, segments: u32, version: u32) -> i32
    ensures { MakesFrom (in_sectors file_state) segments version volume.old.value.inner
        volume.new.value.inner result }
{
    making::format(&mut volume.volume().inner, segments, version)
}

/// Mounts the volume of the file that was taken. It writes nothing.
#[unsafe(no_mangle)]
pub extern "C" fn pansuyog_file_mount(alloc: Global, volume: &mut Handle) -> i32
    ensures { MountsFrom file_state volume.old.value.inner volume.new.value.inner result }
{
    making::mount(alloc, &mut volume.volume().inner)
}

/// Unmounts the volume. What wasn't saved is gone. The file stays taken.
#[unsafe(no_mangle)]
pub extern "C" fn pansuyog_file_unmount(volume: &mut Handle) -> i32
    ensures { Unmounts volume.old.value.inner volume.new.value.inner result }
{
    making::unmount(&mut volume.volume().inner)
}
