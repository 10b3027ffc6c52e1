use crate::helpers::{BAD, Row, all_well, filled, first_wrong, lose, put};
use lfs_device::{DeviceCall, FileDevice, Left, MemDevice, NoMemory, ReadFault, SectorDevice};
use std::alloc::Global;
use std::fs::{self, File};
use std::num::NonZeroU32;

/// A call of a device and what is seen, or what is chosen for a device in memory.
#[derive(Clone, Copy)]
enum Step {
    /// How many sectors there are.
    Sectors(u32),
    /// A sector is filled with a byte: whether that succeeds.
    Fill(u32, u8, bool),
    /// The byte that a sector is filled with.
    Read(u32, Result<u8, ReadFault>),
    /// Whether a sync succeeds.
    Sync(bool),
    /// Two writes and a sync, and then a write and a sync: whether all succeed.
    Both(bool),
    /// How many writes a device in memory has begun.
    Writes(u64),
    StopAt(u64),
    Fail(DeviceCall, u64),
    Lose(u32),
    Crash(Left),
    CrashEach([Left; 3]),
    /// The first and the last of the sectors that can't be read.
    Spoilt(u32, u32),
}

/// Two writes and a sync, and one write more and a sync, until one fails: whether all succeed.
fn sync_both<D: SectorDevice>(device: &mut D) -> bool {
    if !put(device, 0, &[1; 512]) || !put(device, 1, &[2; 512]) || device.sync().is_err() {
        return false;
    }
    put(device, 0, &[3; 512]) && device.sync().is_ok()
}

/// Whether these are all the sectors that can't be read.
fn are_spoilt(device: &mut MemDevice, first: u32, last: u32) -> bool {
    for sector in 0..device.sectors() {
        let is_bad = filled(device, sector) == BAD;
        if is_bad != (first <= sector && sector <= last) {
            return false;
        }
    }
    true
}

/// Whether the call goes as it says; what only a device in memory can do doesn't.
fn is_call_well<D: SectorDevice>(device: &mut D, call: Step) -> bool {
    match call {
        Step::Sectors(sectors) => device.sectors() == sectors,
        Step::Fill(sector, byte, succeeds) => put(device, sector, &[byte; 512]) == succeeds,
        Step::Read(sector, holds) => filled(device, sector) == holds,
        Step::Sync(succeeds) => device.sync().is_ok() == succeeds,
        Step::Both(succeeds) => sync_both(device) == succeeds,
        _ => false,
    }
}

impl Row<FileDevice> for Step {
    fn is_well(self, device: &mut FileDevice) -> bool {
        is_call_well(device, self)
    }
}

impl Row<MemDevice> for Step {
    fn is_well(self, device: &mut MemDevice) -> bool {
        match self {
            Step::Writes(writes) => return device.writes() == writes,
            Step::StopAt(write) => device.stop_at(write),
            Step::Fail(call, nth) => device.fail(call, nth),
            Step::Lose(sector) => return lose(device, sector),
            Step::Crash(left) => device.crash(left),
            Step::CrashEach(left) => device.crash_each(&left),
            Step::Spoilt(first, last) => return are_spoilt(device, first, last),
            call => return is_call_well(device, call),
        }
        true
    }
}

#[test]
fn a_stop_at_each_write(rt: HostRuntime) {
    // The write at which the device stops, the choice, what then stands in sectors 0 and 1, and the
    // writes begun.
    let rows = [
        (0, Left::Old, Ok(0), Ok(0), 1),
        (0, Left::New, Ok(1), Ok(0), 1),
        (0, Left::Bad, BAD, Ok(0), 1),
        (1, Left::Old, Ok(0), Ok(0), 2),
        (1, Left::New, Ok(1), Ok(2), 2),
        (1, Left::Bad, BAD, BAD, 2),
        (2, Left::Old, Ok(1), Ok(2), 3),
        (2, Left::New, Ok(3), Ok(2), 3),
        (2, Left::Bad, BAD, Ok(2), 3),
        (3, Left::Old, Ok(3), Ok(2), 3),
        (3, Left::New, Ok(3), Ok(2), 3),
        (3, Left::Bad, Ok(3), Ok(2), 3),
    ];
    for (stop, left, first, second, writes) in rows {
        let steps = [
            Step::StopAt(stop),
            Step::Both(stop == 3),
            Step::Writes(writes),
            Step::Crash(left),
            Step::Read(0, first),
            Step::Read(1, second),
            Step::Both(true),
        ];
        all_well(&rt, MemDevice::new(rt.alloc(), 6), &steps);
    }
}

#[test]
fn a_stopped_device_fails_until_a_crash(rt: HostRuntime) {
    let steps = [
        Step::StopAt(1),
        Step::Fill(0, 7, true),
        Step::Fill(0, 8, false),
        Step::Fill(0, 9, false),
        Step::Sync(false),
        Step::Read(0, Err(ReadFault::Failed)),
        Step::Writes(3),
        Step::Crash(Left::New),
        Step::Read(0, Ok(9)),
        Step::Crash(Left::Old),
        Step::Read(0, Ok(9)),
    ];
    all_well(&rt, MemDevice::new(rt.alloc(), 6), &steps);
}

#[test]
fn each_unsynced_sector_has_its_choice(rt: HostRuntime) {
    let steps = [
        Step::Fill(4, 7, true),
        Step::Fill(1, 7, true),
        Step::Fill(3, 7, true),
        Step::Fill(0, 7, true),
        Step::CrashEach([Left::Old, Left::New, Left::Bad]),
        Step::Read(0, Ok(0)),
        Step::Read(1, Ok(7)),
        Step::Read(2, Ok(0)),
        Step::Read(3, BAD),
        Step::Read(4, Ok(0)),
        Step::Read(5, Ok(0)),
    ];
    all_well(&rt, MemDevice::new(rt.alloc(), 6), &steps);
}

#[test]
fn a_failed_write_counts_as_a_write(rt: HostRuntime) {
    for (left, after_good, after_failed) in [
        (Left::Old, Ok(5), Ok(5)),
        (Left::New, Ok(7), Ok(6)),
        (Left::Bad, BAD, BAD),
    ] {
        // A failed write, and then a good one: by the model 5, 6 and 7 may be left, and the device
        // chooses the last.
        let good_last = [
            Step::Fill(0, 5, true),
            Step::Sync(true),
            Step::Fail(DeviceCall::Write, 0),
            Step::Fill(0, 6, false),
            Step::Read(0, Ok(5)),
            Step::Fill(0, 7, true),
            Step::Read(0, Ok(7)),
            Step::Crash(left),
            Step::Read(0, after_good),
        ];
        // A good write, and then a failed one: the three may be left again, and a read gave the
        // middle one.
        let failed_last = [
            Step::Fill(0, 5, true),
            Step::Sync(true),
            Step::Fill(0, 7, true),
            Step::Fail(DeviceCall::Write, 0),
            Step::Fill(0, 6, false),
            Step::Read(0, Ok(7)),
            Step::Crash(left),
            Step::Read(0, after_failed),
        ];
        all_well(&rt, MemDevice::new(rt.alloc(), 6), &good_last);
        all_well(&rt, MemDevice::new(rt.alloc(), 6), &failed_last);
    }
}

#[test]
fn a_fault_comes_once(rt: HostRuntime) {
    let steps = [
        Step::Fail(DeviceCall::Read, 1),
        Step::Fail(DeviceCall::Write, 2),
        Step::Fail(DeviceCall::Sync, 0),
        Step::Read(0, Ok(0)),
        Step::Read(0, Err(ReadFault::Failed)),
        Step::Read(0, Ok(0)),
        Step::Fill(0, 3, true),
        Step::Fill(0, 3, true),
        Step::Fill(0, 3, false),
        Step::Fill(0, 3, true),
        // What a failed sync leaves unsynced, the next one makes durable.
        Step::Sync(false),
        Step::Sync(true),
        Step::Crash(Left::Old),
        Step::Read(0, Ok(3)),
        Step::Fill(0, 4, true),
        Step::Fail(DeviceCall::Sync, 0),
        Step::Sync(false),
        Step::Crash(Left::Old),
        Step::Read(0, Ok(3)),
    ];
    all_well(&rt, MemDevice::new(rt.alloc(), 6), &steps);
}

#[test]
fn an_unreadable_sector_stays_so(rt: HostRuntime) {
    let steps = [
        Step::Lose(2),
        Step::Read(2, BAD),
        Step::Sync(true),
        Step::Crash(Left::New),
        Step::Read(2, BAD),
        Step::Fill(2, 1, true),
        Step::Read(2, Ok(1)),
    ];
    all_well(&rt, MemDevice::new(rt.alloc(), 6), &steps);
}

/// A device of units of eight sectors from sector 2 on, the last of which has only four.
fn in_units(alloc: Global) -> Result<MemDevice, NoMemory> {
    match NonZeroU32::new(8) {
        Some(unit) => MemDevice::with_unit(alloc, 22, unit, 2),
        None => Err(NoMemory),
    }
}

#[test]
fn a_stop_spoils_whole_units(rt: HostRuntime) {
    // The sector that is written, and the first and the last that can't be read after a stop.
    let rows = [
        (0, 0, 0),
        (1, 1, 1),
        (2, 2, 9),
        (6, 2, 9),
        (9, 2, 9),
        (10, 10, 17),
        (17, 10, 17),
        (21, 18, 21),
    ];
    for (sector, first, last) in rows {
        let steps = [
            Step::Fill(sector, 7, true),
            Step::Crash(Left::Bad),
            Step::Spoilt(first, last),
        ];
        all_well(&rt, in_units(rt.alloc()), &steps);
    }
}

#[test]
fn a_unit_is_spoilt_by_each_of_its_sectors(rt: HostRuntime) {
    let steps = [
        Step::Fill(3, 5, true),
        Step::Sync(true),
        Step::Crash(Left::Bad),
        Step::Read(3, Ok(5)),
        // What isn't spoilt leaves the rest of the unit.
        Step::Fill(3, 6, true),
        Step::Fill(8, 7, true),
        Step::Fill(12, 8, true),
        Step::CrashEach([Left::Old, Left::New, Left::Old]),
        Step::Read(3, Ok(5)),
        Step::Read(4, Ok(0)),
        Step::Read(8, Ok(7)),
        Step::Read(12, Ok(0)),
        // One sector spoils those that the stop leaves otherwise, and those that were synced.
        Step::Fill(5, 6, true),
        Step::Fill(9, 7, true),
        Step::Fill(12, 8, true),
        Step::CrashEach([Left::New, Left::Bad, Left::New]),
        Step::Spoilt(2, 9),
        Step::Read(12, Ok(8)),
    ];
    all_well(&rt, in_units(rt.alloc()), &steps);
}

#[test]
fn a_failed_write_spoils_its_unit(rt: HostRuntime) {
    let steps = [
        Step::Fail(DeviceCall::Write, 0),
        Step::Fill(11, 4, false),
        Step::Read(11, Ok(0)),
        Step::Crash(Left::Bad),
        Step::Spoilt(10, 17),
    ];
    all_well(&rt, in_units(rt.alloc()), &steps);
}

/// A device over a file, which may be open for writing, if it can be had.
fn over_file(rt: &HostRuntime, path: &str, writes: bool) -> Option<FileDevice> {
    let file = File::options()
        .read(true)
        .write(writes)
        .open(rt, path)
        .ok()?;
    FileDevice::new(rt.alloc(), file).ok()
}

/// Whether the first three sectors of these bytes are filled with 9, 4 and 6, and the rest with 5.
fn is_written(bytes: &[u8]) -> bool {
    for (place, byte) in bytes.iter().enumerate() {
        let written = match place / 512 {
            0 => 9,
            1 => 4,
            2 => 6,
            _ => 5,
        };
        if *byte != written {
            return false;
        }
    }
    bytes.len() == 2_000
}

#[test]
fn a_file_is_a_device(rt: HostRuntime) {
    let calls = [
        Step::Sectors(3),
        Step::Read(0, Ok(5)),
        Step::Fill(0, 9, true),
        // It doesn't go on with the first sector, nor does the one after it with this.
        Step::Fill(2, 6, true),
        Step::Fill(1, 3, true),
        // The last one does, and this one is written over before it is sent.
        Step::Fill(2, 6, true),
        Step::Fill(1, 4, true),
        Step::Read(1, Ok(4)),
        Step::Sync(true),
        Step::Read(0, Ok(9)),
        Step::Read(1, Ok(4)),
    ];
    let is_put = fs::write(&rt, "device.img", [5u8; 2000].as_slice()).is_ok();
    assert!(rt; is_put);
    all_well(&rt, over_file(&rt, "device.img", true).ok_or(()), &calls);
    let is_left = fs::read(&rt, "device.img").is_ok_and(|bytes| is_written(bytes.as_slice()));
    let is_gone = fs::remove_file(&rt, "device.img").is_ok();
    assert!(rt; is_left && is_gone);
}

/// Whether a sync fails on a file that isn't open for writing, where a write waits for it, and, once
/// the file is shorter, a read of what is gone. What was written is read as it was.
fn fails_well(rt: &HostRuntime, device: &mut FileDevice) -> bool {
    let calls = [
        Step::Fill(0, 9, true),
        Step::Sync(false),
        Step::Read(0, Ok(9)),
        Step::Read(1, Ok(5)),
        // The first sector can't be sent, so no other is taken but the next.
        Step::Fill(2, 9, false),
        Step::Read(2, Ok(5)),
    ];
    let gone = [Step::Read(1, Err(ReadFault::Failed)), Step::Read(0, Ok(9))];
    first_wrong(device, &calls).is_none()
        && fs::write(rt, "readonly.img", [5u8; 100].as_slice()).is_ok()
        && first_wrong(device, &gone).is_none()
}

#[test]
fn a_file_that_is_not_open_for_writing_fails(rt: HostRuntime) {
    let is_put = fs::write(&rt, "readonly.img", [5u8; 1536].as_slice()).is_ok();
    let is_well = match over_file(&rt, "readonly.img", false) {
        Some(mut device) => fails_well(&rt, &mut device),
        None => false,
    };
    let is_gone = fs::remove_file(&rt, "readonly.img").is_ok();
    assert!(rt; is_put && is_well && is_gone);
}
