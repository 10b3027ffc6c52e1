//! Volumes in memory, whose device stops at a chosen write.
ghost use Rattle.std.specs.Prelude.{◌≡◌, IfOk, OnOk, Some};
ghost use Rattle.std.specs.NonZero.{non_zero_u32_get};
ghost use Rattle.lfs_model.specs.Device.{Only};
ghost use Rattle.lfs_model.specs.Image.{IsNew};
ghost use Rattle.lfs_device.specs.MemoryDevice.{bench_of, device_state};
ghost use Rattle.lfs_device.specs.Units.{unit_from};
ghost use Rattle.lfs_places.specs.Places.{volume_content};
ghost use Rattle.lfs_format.specs.Making.{places_by};
ghost use Rattle.lfs_format.specs.Shape.{IsShape, unit_power_of};

use crate::shaping::{read_unit, read_wanted};
use lfs_device::{Left, MemDevice};
use lfs_fs::{Fs, FsError, InVolume, Shape, find_volume, format_with};
use lfs_grammar::ShapeWords;
use lfs_host::fault::{Fault, Refusal};
use lfs_host::shape::{ShapeFault, Wanted};
use lfs_model::limits::LAST_VERSION;
use lfs_words::read_u64;
use std::alloc::Global;
use std::num::NonZeroU32;

/// The most bytes that a unit of the device may have.
const LARGEST_UNIT: u64 = 65_536;

/// What a command line wants of a volume in memory, and of its end.
#[derive(Clone, Copy)]
pub struct Trial {
    wanted: Wanted,
    stop: u64,
    left: Left,
    /// How many sectors a unit of the device has.
    unit: NonZeroU32,
}

/// How a volume in memory comes to its end.
#[derive(Clone, Copy)]
pub struct Plan {
    pub shape: Shape,
    /// The write that doesn't go through, counted from 0 behind the format, and with which the
    /// device stops.
    pub stop: u64,
    /// What the stop leaves of each sector that isn't synced.
    pub left: Left,
    /// How many sectors a unit of the device has.
    pub unit: NonZeroU32,
}

// The sectors of a unit of the device that has so many bytes, if a unit may.
fn sectors_of_unit(bytes: u64) -> Option<NonZeroU32> {
    if bytes > LARGEST_UNIT || !bytes.is_power_of_two() {
        return None;
    }
    NonZeroU32::new((bytes / 512) as u32)
}

// The sectors of a unit of the device. Without one it is a single sector. A volume of the last
// version has the unit too, and is refused for one that no volume has.
fn device_unit(version: u32, unit: Option<u64>) -> Result<NonZeroU32, Fault> {
    let Some(bytes) = unit else {
        return Ok(NonZeroU32::MIN);
    };
    match sectors_of_unit(bytes) {
        Some(unit) => Ok(unit),
        None if version == LAST_VERSION => Ok(NonZeroU32::MIN),
        None => Err(Fault::Unit),
    }
}

// The unit that a word tells, for a volume of this version.
fn read_device_unit(version: u32, word: Option<&str>) -> Result<Option<u64>, Fault> {
    match read_unit(word) {
        Err(Fault::UnitSize) if version != LAST_VERSION => Err(Fault::Unit),
        read => read,
    }
}

/// Reads the words of a trial. That of a unit may be left out.
pub fn read_trial(shape: ShapeWords<'_>, stop: &str, left: Left) -> Result<Trial, Fault> {
    let wanted = read_wanted(shape)?;
    let Some(stop) = read_u64(stop.as_bytes()) else {
        return Err(Fault::Stop);
    };
    let unit = read_device_unit(wanted.version, shape.unit)?;
    Ok(Trial {
        wanted: Wanted { unit, ..wanted },
        stop,
        left,
        unit: device_unit(wanted.version, unit)?,
    })
}

/// The plan of a trial whose volume there may be.
pub fn plan_of(trial: Trial) -> Result<Plan, Refusal> {
    Ok(Plan {
        shape: trial.wanted.shape()?,
        stop: trial.stop,
        left: trial.left,
        unit: trial.unit,
    })
}

/// The device of a new volume, which is to stop.
pub fn start(alloc: Global, plan: Plan) -> Result<MemDevice, Refusal>
    ensures shape { OnOk result (IsShape plan.shape) }
    ensures new { IfOk result (λ d. IsNew plan.shape.version plan.shape.segments
        (unit_power_of plan.shape.unit)
        (volume_content (places_by plan.shape.version) (device_state d).content)) }
    ensures alone { IfOk result (λ d. Only (device_state d).content (device_state d)) }
    ensures stops { IfOk result (λ d. (bench_of d).stop ≡ Some plan.stop) }
    ensures unit { IfOk result
        (λ d. (device_state d).unit ≡ unit_from (non_zero_u32_get plan.unit) 0) }
{
    if !plan.shape.is_fit() {
        return Err(Refusal::Shape(ShapeFault::Segments));
    }
    let sectors = plan.shape.sectors();
    let Ok(mut device) = MemDevice::with_unit(alloc, sectors, plan.unit, 0) else {
        return Err(Refusal::Call(FsError::NoMemory));
    };
    if let Err(refusal) = format_with(&mut device, plan.shape) {
        return Err(Refusal::Format(refusal));
    }
    device.stop_at(plan.stop);
    Ok(device)
}

/// Mounts a device's volume.
pub fn mount(alloc: Global, device: MemDevice) -> Result<Fs<InVolume<MemDevice>>, Refusal> {
    let found = match find_volume(device) {
        Ok(found) => found,
        Err((fault, _)) => return Err(Refusal::from(fault)),
    };
    match Fs::mount(alloc, found) {
        Ok(fs) => Ok(fs),
        Err((fault, _)) => Err(Refusal::from(fault)),
    }
}
