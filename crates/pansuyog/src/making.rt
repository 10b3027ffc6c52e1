//! A volume is made, mounted and unmounted.
ghost use Rattle.std.specs.Prelude.{◌≡◌, None, IfOk, IfErr};
ghost use Rattle.pansuyog.specs.Making.{
  IsNotTaken,
  IsTaken,
  Makes,
  MakesFrom,
  MountsFrom,
  MountsOn,
  Unmounts,
  code_of_making,
  code_of_mounting,
};
ghost use Rattle.pansuyog.specs.Serving.{KeepsListing};
ghost use Rattle.pansuyog.specs.declared.handle.Source.TheVariants as source_of;

use crate::handle::{Handle, Source, Volume};
use lfs_fs::{FormatFault, Fs, MountFault, find_volume, format_version};
use lfs_queue::QueueDevice;
use pansuyog_calls::codes::{
    ALREADY_MOUNTED, INVAL, NO_MEMORY, NOT_MOUNTED, TOO_SMALL, code_of_mount,
};
use std::alloc::Global;
use std::mem;

/// The device that a volume is to be made on or mounted from: one that none is mounted on any more,
/// or one that holds the sectors that were given. It has room for so many orders.
pub(crate) fn take_device(alloc: Global, volume: &mut Volume, room: u32) -> Result<QueueDevice, i32>
    ensures unmounted { IfOk result (λ device. volume.old.fs ≡ None) }
    ensures taken { IfOk result (λ device. IsTaken volume.old.source room device) }
    ensures fs { IfOk result (λ device. volume.new.fs ≡ None) }
    ensures nothing { IfOk result (λ device. volume.new.source ≡ source_of.Nothing) }
    ensures listing { IfOk result (λ device. KeepsListing volume.old volume.new) }
    ensures refused { IfErr result (λ code. IsNotTaken volume.old volume.new code) }
{
    if volume.fs.is_some() {
        return Err(ALREADY_MOUNTED);
    }
    match mem::replace(&mut volume.source, Source::Nothing) {
        Source::Device(mut device) => match device.reserve(room as usize) {
            Ok(()) => Ok(device),
            Err(_) => {
                volume.source = Source::Device(device);
                Err(NO_MEMORY)
            }
        },
        Source::Image(image) => match QueueDevice::new(alloc, image, room as usize) {
            Ok(device) => Ok(device),
            Err(_) => Err(NO_MEMORY),
        },
        Source::Nothing => Err(INVAL),
    }
}

/// The number of the making of a volume. A call of the device fails only where memory for an order
/// is refused.
pub(crate) fn code_of_made(made: Result<(), FormatFault>) -> i32
    ensures { result ≡ code_of_making made }
{
    match made {
        Ok(()) => 0,
        Err(FormatFault::Inval) => INVAL,
        Err(FormatFault::TooSmall) => TOO_SMALL,
        Err(FormatFault::Device) => NO_MEMORY,
    }
}

/// Makes an empty volume on a device.
fn make_on(device: &mut QueueDevice, segments: u32, version: u32) -> i32
    ensures { Makes segments version device.old device.new result }
{
    code_of_made(format_version(device, segments, version))
}

/// Makes an empty volume of so many segments, in a version of the layout. Its orders wait then.
#[unsafe(no_mangle)]
pub extern "C" fn pansuyog_format(
    alloc: Global,
    volume: &mut Handle,
    segments: u32,
    version: u32,
    room: u32,
) -> i32
    ensures { MakesFrom volume.old.value volume.new.value room segments version result }
{
    let volume = volume.volume();
    let mut device = match take_device(alloc, volume, room) {
        Ok(device) => device,
        Err(code) => return code,
    };
    volume.recorder = None;
    let code = make_on(&mut device, segments, version);
    volume.source = Source::Device(device);
    code
}

/// The number of a mount that is refused. A call of the device fails only where memory for an order
/// is refused.
fn code_of(fault: MountFault) -> i32
    ensures { result ≡ code_of_mounting fault }
{
    match fault {
        MountFault::Device => NO_MEMORY,
        other => code_of_mount(other),
    }
}

/// Mounts a device's volume, where none is mounted.
fn mount_on(alloc: Global, volume: &mut Volume, device: QueueDevice) -> i32
    requires unmounted { volume.old.fs ≡ None }
    requires nothing { volume.old.source ≡ source_of.Nothing }
    ensures mounts { MountsOn device volume.new.fs volume.new.source result }
    ensures listing { KeepsListing volume.old volume.new }
    ensures recorder { volume.new.recorder ≡ None }
{
    volume.recorder = None;
    let found = match find_volume(device) {
        Ok(found) => found,
        Err((fault, device)) => {
            volume.source = Source::Device(device);
            return code_of(fault);
        }
    };
    match Fs::mount(alloc, found) {
        Ok(fs) => {
            volume.fs = Some(fs);
            0
        }
        Err((fault, refused)) => {
            volume.source = Source::Device(refused.into_inner());
            code_of(fault)
        }
    }
}

/// Mounts the volume that the sectors hold. It writes nothing.
#[unsafe(no_mangle)]
pub extern "C" fn pansuyog_mount(alloc: Global, volume: &mut Handle, room: u32) -> i32
    ensures { MountsFrom volume.old.value volume.new.value room result }
{
    let volume = volume.volume();
    let device = match take_device(alloc, volume, room) {
        Ok(device) => device,
        Err(code) => return code,
    };
    mount_on(alloc, volume, device)
}

/// Unmounts the volume. What wasn't saved is gone. Orders that wait stay.
#[unsafe(no_mangle)]
pub extern "C" fn pansuyog_unmount(volume: &mut Handle) -> i32
    ensures unmounted { volume.new.value.fs ≡ None }
    ensures device { Unmounts volume.old.value.fs volume.old.value.source
        volume.new.value.source result }
    ensures listing { KeepsListing volume.old.value volume.new.value }
    ensures recorder { volume.new.value.recorder ≡ None }
{
    let volume = volume.volume();
    volume.recorder = None;
    match volume.fs.take() {
        Some(fs) => {
            volume.source = Source::Device(fs.into_device().into_inner());
            0
        }
        None => NOT_MOUNTED,
    }
}
