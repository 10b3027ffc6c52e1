//! Devices in memory.
use crate::order::NewVolume;
use anyhow::{Context, Result};
use lfs_device::{DeviceCall, Left, MemDevice, SectorDevice};
use lfs_model::limits::{CHECKPOINT_SLOTS, LAST_VERSION, SEGMENT_SECTORS};
use lfs_places::limits::FIRST_SEGMENT;
use lfs_script::fs::{Shape, format_with};
use std::alloc::{AllocError, Global};
use std::num::NonZeroU32;

/// More calls than a run makes of a kind.
const MANY_CALLS: u64 = 1_000_000;

/// A device of so many sectors, without a volume. Its units are counted from sector `first`.
pub fn device_of(alloc: Global, sectors: u32, unit: NonZeroU32, first: u32) -> Result<MemDevice> {
    let device = MemDevice::with_unit(alloc, sectors, unit, first).ok();
    device.context("no memory for a device")
}

/// How many sectors a device has for a volume.
pub fn sectors_of(volume: NewVolume) -> u32 {
    let before = if volume.version == LAST_VERSION {
        FIRST_SEGMENT
    } else {
        CHECKPOINT_SLOTS
    };
    before + SEGMENT_SECTORS * u32::from(volume.segments)
}

/// Makes an empty volume on a device. One of version 3 has the units that are told, others have
/// sectors.
pub fn make_volume<D: SectorDevice>(device: &mut D, volume: NewVolume) -> Result<()> {
    let segments = u32::from(volume.segments);
    let shape = Shape {
        segments,
        version: volume.version,
        segment_sectors: SEGMENT_SECTORS,
        unit: if volume.version == LAST_VERSION {
            volume.unit.get()
        } else {
            1
        },
    };
    format_with(device, shape)
        .ok()
        .context(format_args!("no volume of {segments} segments"))
}

/// A device with an empty volume.
pub fn new_device(alloc: Global, volume: NewVolume) -> Result<MemDevice> {
    let mut device = device_of(alloc, sectors_of(volume), volume.device_unit, 0)?;
    make_volume(&mut device, volume)?;
    Ok(device)
}

/// Whether one call of this kind goes well. A write is of zeros, to the first sector; a device that
/// has none reads and writes nothing.
fn goes(device: &mut MemDevice, call: DeviceCall) -> bool {
    let mut bytes = [0; 512];
    let some = device.sectors() > 0;
    match call {
        DeviceCall::Read => some && device.read(0, &mut bytes).is_ok(),
        DeviceCall::Write => some && device.write(0, &bytes).is_ok(),
        DeviceCall::Sync => device.sync().is_ok(),
    }
}

/// How many calls of this kind go well before the first that doesn't.
pub fn calls_left(device: &mut MemDevice, call: DeviceCall) -> u64 {
    for made in 0..MANY_CALLS {
        if !goes(device, call) {
            return made;
        }
    }
    MANY_CALLS
}

/// What is left of each of so many sectors, where these are the turns.
fn in_turns(alloc: Global, turns: &[Left], sectors: u32) -> Result<Vec<Left>, AllocError> {
    let mut lefts = Vec::new(alloc);
    for _ in 0..sectors {
        lefts.extend_from_slice(turns)?;
    }
    Ok(lefts)
}

/// Stops a device. Its sectors that aren't synced are in turn as these say.
pub fn stop(alloc: Global, device: &mut MemDevice, turns: &[Left]) -> Result<(), AllocError> {
    let lefts = in_turns(alloc, turns, device.sectors())?;
    device.crash_each(lefts.as_slice());
    Ok(())
}
