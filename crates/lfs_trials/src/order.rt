//! What a line tells the device.
use anyhow::{Context, Result, bail};
use lfs_device::{DeviceCall, Left};
use std::alloc::Global;
use std::num::NonZeroU32;

/// A volume that is to be made: its segments, the version of its layout, and the sectors of a unit.
#[derive(Clone, Copy)]
pub struct NewVolume {
    pub segments: u16,
    pub version: u32,
    pub unit: NonZeroU32,
    /// The sectors of a unit of its device.
    pub device_unit: NonZeroU32,
}

/// What is to be done. A unit is of so many sectors.
#[derive(Drop)]
pub enum Order {
    Device { sectors: u32, unit: NonZeroU32 },
    New(NewVolume),
    Fail { call: DeviceCall, nth: u64 },
    Stop(u64),
    Use,
    Crash(Vec<Left>),
    Rest(DeviceCall),
    Writes,
}

/// The kind of call that a word names.
fn call_of(word: &str) -> Result<DeviceCall> {
    match word {
        "read" => Ok(DeviceCall::Read),
        "write" => Ok(DeviceCall::Write),
        "sync" => Ok(DeviceCall::Sync),
        _ => bail!("{word} is no call of a device"),
    }
}

fn left_of(word: &str) -> Result<Left> {
    match word {
        "old" => Ok(Left::Old),
        "new" => Ok(Left::New),
        "bad" => Ok(Left::Bad),
        _ => bail!("{word} is nothing that a stop leaves"),
    }
}

fn lefts_of(alloc: Global, words: &str) -> Result<Vec<Left>> {
    let mut lefts = Vec::new(alloc);
    for word in words.split(' ') {
        lefts.push(left_of(word)?)?;
    }
    Ok(lefts)
}

/// The unit that a word names: one sector, where there is no word.
fn unit_of(word: &str) -> Result<NonZeroU32> {
    match word {
        "" => Ok(NonZeroU32::MIN),
        word => word.parse::<NonZeroU32>().context("the sectors of a unit"),
    }
}

fn new_device(words: &str) -> Result<Order> {
    let (sectors, unit) = words.split_once(' ').unwrap_or((words, ""));
    Ok(Order::Device {
        sectors: sectors.parse::<u32>().context("sectors")?,
        unit: unit_of(unit)?,
    })
}

/// The volume that words tell. Its device has the same units, where none of its own are told.
pub fn new_volume(words: &str) -> Result<NewVolume> {
    let (segments, words) = words.split_once(' ').context("segments and a version")?;
    let (version, units) = words.split_once(' ').unwrap_or((words, ""));
    let (unit, device_unit) = units.split_once(' ').unwrap_or((units, units));
    Ok(NewVolume {
        segments: segments.parse::<u16>().context("segments")?,
        version: version.parse::<u32>().context("a version")?,
        unit: unit_of(unit)?,
        device_unit: unit_of(device_unit)?,
    })
}

fn fault(words: &str) -> Result<Order> {
    let (call, nth) = words.split_once(' ').context("a call and its number")?;
    Ok(Order::Fail {
        call: call_of(call)?,
        nth: nth.parse::<u64>().context("the number of a call")?,
    })
}

/// The order of a line, without what it begins with.
pub fn read_order(alloc: Global, line: &str) -> Result<Order> {
    let (word, words) = line.split_once(' ').unwrap_or((line, ""));
    match word {
        "device" => new_device(words),
        "new" => Ok(Order::New(new_volume(words)?)),
        "fail" => fault(words),
        "stop" => Ok(Order::Stop(words.parse::<u64>().context("the number of a write")?)),
        "use" => Ok(Order::Use),
        "crash" => Ok(Order::Crash(lefts_of(alloc, words)?)),
        "rest" => Ok(Order::Rest(call_of(words)?)),
        "writes" => Ok(Order::Writes),
        _ => bail!("{line} is no order"),
    }
}
