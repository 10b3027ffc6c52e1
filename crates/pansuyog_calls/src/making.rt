//! A volume is made, mounted and unmounted.
ghost use Rattle.std.specs.Prelude.{◌≡◌, None};
ghost use Rattle.lfs_model.specs.Device.{in_sectors};
ghost use Rattle.pansuyog_calls.specs.Making.{Makes, code_of_making};
ghost use Rattle.pansuyog_calls.specs.Volumes.{KeepsListingAndAccess, MakesFrom, MountsDevice, MountsFrom, Unmounts};

use crate::access::Access;
use crate::codes::{
    ALREADY_MOUNTED, DEVICE, INVAL, NOT_MOUNTED, READ_ONLY, TOO_SMALL, code_of_mount,
};
use crate::volume::VolumeIn;
use lfs_device::SectorDevice;
use lfs_fs::{FormatFault, Fs, find_volume, format_version};
use std::alloc::Global;

/// The number of the making of a volume.
pub(crate) fn code_of_making(made: Result<(), FormatFault>) -> i32
    ensures { result ≡ code_of_making made }
{
    match made {
        Ok(()) => 0,
        Err(FormatFault::Inval) => INVAL,
        Err(FormatFault::TooSmall) => TOO_SMALL,
        Err(FormatFault::Device) => DEVICE,
    }
}

/// Makes an empty volume on a device.
fn make_on<D: SectorDevice>(device: &mut D, segments: u32, version: u32) -> i32
    ensures { Makes (in_sectors D.state) segments version device.old device.new result }
{
    code_of_making(format_version(device, segments, version))
}

/// Makes an empty volume of so many segments, in a version of the layout, on a device on which none
/// is mounted.
pub fn format<D: SectorDevice>(volume: &mut VolumeIn<D>, segments: u32, version: u32) -> i32
    ensures { MakesFrom (in_sectors D.state) segments version volume.old volume.new result }
{
    if volume.fs.is_some() {
        return ALREADY_MOUNTED;
    }
    match (&mut volume.device, volume.access) {
        (Some(device), Access::ReadWrite) => {
            volume.recorder = None;
            make_on(device, segments, version)
        }
        (Some(_), Access::ReadOnly) => READ_ONLY,
        (None, _) => INVAL,
    }
}

/// Mounts the volume of a device, where nothing is held.
fn mount_on<D: SectorDevice + Drop>(alloc: Global, volume: &mut VolumeIn<D>, device: D) -> i32
    requires unmounted { volume.old.fs ≡ None }
    requires nothing { volume.old.device ≡ None }
    ensures mounts { MountsDevice D.state device volume.new.fs volume.new.device result }
    ensures rest { KeepsListingAndAccess volume.old volume.new }
{
    volume.recorder = None;
    let found = match find_volume(device) {
        Ok(found) => found,
        Err((fault, device)) => {
            volume.device = Some(device);
            return code_of_mount(fault);
        }
    };
    match Fs::mount(alloc, found) {
        Ok(fs) => {
            volume.fs = Some(fs);
            0
        }
        Err((fault, refused)) => {
            volume.device = Some(refused.into_inner());
            code_of_mount(fault)
        }
    }
}

/// Mounts the volume of a device on which none is mounted. It writes nothing.
pub fn mount<D: SectorDevice + Drop>(alloc: Global, volume: &mut VolumeIn<D>) -> i32
    ensures { MountsFrom D.state volume.old volume.new result }
{
    if volume.fs.is_some() {
        return ALREADY_MOUNTED;
    }
    match volume.device.take() {
        Some(device) => mount_on(alloc, volume, device),
        None => INVAL,
    }
}

/// Unmounts the volume. What wasn't saved is gone.
pub fn unmount<D: SectorDevice + Drop>(volume: &mut VolumeIn<D>) -> i32
    ensures { Unmounts volume.old volume.new result }
{
    match volume.fs.take() {
        Some(fs) => {
            volume.recorder = None;
            volume.device = Some(fs.into_device().into_inner());
            0
        }
        None => NOT_MOUNTED,
    }
}

/// Gives up what a volume holds: nothing is mounted, and the device is closed.
pub fn abandon<D: SectorDevice + Drop>(volume: &mut VolumeIn<D>)
    ensures unmounted { volume.new.fs ≡ None }
    ensures nothing { volume.new.device ≡ None }
    ensures rest { KeepsListingAndAccess volume.old volume.new }
{
    volume.fs = None;
    volume.device = None;
    volume.recorder = None;
}
