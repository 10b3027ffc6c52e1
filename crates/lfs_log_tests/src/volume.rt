//! Empty volumes, and how a test says what went wrong.
use lfs_device::MemDevice;
use lfs_format::format;
use std::alloc::Global;

/// What went wrong in a test.
#[derive(Clone, Copy, Debug)]
pub enum Wrong {
    /// There is no such volume.
    NoVolume,
    /// The device was refused.
    NotOpened,
    /// This step, counted from 0, saw something else.
    Step(usize),
    /// So did a random run of this seed after so many rolls.
    Random { flaw: Flaw, seed: u32, rolls: u32 },
}

/// What a random run saw that it shouldn't.
#[derive(Clone, Copy, Debug)]
pub enum Flaw {
    Memory,
    Halted,
    GoesOn,
    Number,
    LeastFree,
    Files,
    Room,
    Call,
    Commit,
    Full,
    Unsaved,
    LiveBlocks,
    NotOpened,
}

/// A device that holds an empty volume.
pub fn new_volume(alloc: Global, segments: u32) -> Result<MemDevice, Wrong> {
    let sectors = segments.saturating_mul(64).saturating_add(2);
    let Ok(mut device) = MemDevice::new(alloc, sectors) else {
        return Err(Wrong::NoVolume);
    };
    match format(&mut device, segments) {
        Ok(()) => Ok(device),
        Err(_) => Err(Wrong::NoVolume),
    }
}
