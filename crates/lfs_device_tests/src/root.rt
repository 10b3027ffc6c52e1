ghost use Rattle.std.specs.Prelude.{◌≤◌};

use crate::examples::{commit, write_blocks};
use crate::helpers::{BAD, Row, all_well, filled, lose, put};
use lfs_device::{DeviceCall, InSectors, Left, MemDevice, ReadFault, SectorDevice};
use lfs_layout::Checkpoint;
use lfs_verify::root::{RootFault, newest, replace};
use std::alloc::Global;

/// What is put into a slot.
#[derive(Clone, Copy)]
enum Holds {
    Zeros,
    Nothing,
    Number(u8),
    /// A checkpoint of version 3, where the others are of version 1.
    Summed(u8),
    Damaged(u8),
}

/// A call on the two slots and what is seen, or what is chosen for the device.
#[derive(Clone, Copy)]
enum Step {
    /// Puts this into a slot, unsynced where it can be read.
    Put(u32, Holds),
    /// Whether a sync succeeds.
    Sync(bool),
    /// The number of the newest checkpoint.
    Newest(Result<u64, RootFault>),
    /// The newest but one checkpoint is replaced by the one with this number: whether that
    /// succeeds.
    Replace(u8, bool),
    /// The byte that a sector is filled with.
    Read(u32, Result<u8, ReadFault>),
    StopAt(u64),
    Fail(DeviceCall, u64),
    Crash(Left),
}

/// The sector of a checkpoint of 64 segments with this number.
fn sector(number: u8) -> [u8; 512] {
    let mut sector = [0; 512];
    sector[..8].copy_from_slice(b"SLFSCKP1");
    sector[8] = number;
    sector[16] = 64;
    sector[20] = 1;
    sector[32] = 4;
    sector[160] = 5;
    sector
}

/// The sector of a checkpoint of 64 segments with this number, of version 3. All its tables stand at
/// this address.
fn summed(number: u64, address: u32) -> [u8; 512]
    requires { 1 ≤ number }
{
    Checkpoint::new(number, 64, 3, 0, [address; 32], [address; 16]).encode()
}

/// Puts it into a slot: whether that succeeds.
fn put_slot(device: &mut MemDevice, slot: u32, holds: Holds) -> bool {
    match holds {
        Holds::Zeros => put(device, slot, &[0; 512]),
        Holds::Nothing => lose(device, slot),
        Holds::Number(number) => put(device, slot, &sector(number)),
        Holds::Summed(number) => put(device, slot, &summed(u64::from(number).max(1), 4)),
        Holds::Damaged(number) => {
            let mut bytes = sector(number);
            bytes[511] = 1;
            put(device, slot, &bytes)
        }
    }
}

/// The number of the newest checkpoint.
fn number<D: SectorDevice>(device: &mut D) -> Result<u64, RootFault> {
    if device.sectors() < 2 {
        return Err(RootFault::Missing);
    }
    match newest(device) {
        Ok(checkpoint) => Ok(checkpoint.number),
        Err(fault) => Err(fault),
    }
}

/// Whether the newest but one checkpoint is replaced by the one with this number.
fn replace_by<D: SectorDevice>(device: &mut D, number: u8) -> bool {
    let Some(checkpoint) = Checkpoint::decode(&sector(number)) else {
        return false;
    };
    device.sectors() >= 2 && replace(device, &checkpoint).is_ok()
}

/// A device that stops within this write, as sectors 2 and 3 are written, and then, where there is a
/// byte for it, the slot in sector 1. It is given where this succeeds or fails as it should.
fn saved(alloc: Global, slot: Option<u8>, stop: u64, succeeds: bool) -> Option<MemDevice> {
    let row = [[7; 512], [8; 512]];
    let mut device = MemDevice::new(alloc, 5).ok()?;
    device.stop_at(stop);
    let mut device = InSectors::new(device);
    let outcome = match slot {
        None => write_blocks(&mut device, 2, &row),
        Some(byte) => commit(&mut device, 2, &row, 1, &[byte; 512]),
    };
    if outcome.is_ok() == succeeds {
        Some(device.into_inner())
    } else {
        None
    }
}

impl Row<MemDevice> for Step {
    fn is_well(self, device: &mut MemDevice) -> bool {
        match self {
            Step::Put(slot, holds) => return put_slot(device, slot, holds),
            Step::Sync(succeeds) => return device.sync().is_ok() == succeeds,
            Step::Newest(found) => return number(device) == found,
            Step::Replace(number, succeeds) => return replace_by(device, number) == succeeds,
            Step::Read(sector, holds) => return filled(device, sector) == holds,
            Step::StopAt(write) => device.stop_at(write),
            Step::Fail(call, nth) => device.fail(call, nth),
            Step::Crash(left) => device.crash(left),
        }
        true
    }
}

#[test]
fn the_newest_of_the_two_slots(rt: HostRuntime) {
    let missing = Err(RootFault::Missing);
    let rows = [
        (Holds::Number(2), Holds::Number(1), Ok(2)),
        (Holds::Number(2), Holds::Number(3), Ok(3)),
        (Holds::Number(4), Holds::Number(3), Ok(4)),
        (Holds::Nothing, Holds::Number(1), Ok(1)),
        (Holds::Number(2), Holds::Nothing, Ok(2)),
        (Holds::Number(2), Holds::Damaged(3), Ok(2)),
        (Holds::Damaged(2), Holds::Number(1), Ok(1)),
        (Holds::Damaged(2), Holds::Damaged(1), missing),
        (Holds::Nothing, Holds::Nothing, missing),
        (Holds::Zeros, Holds::Zeros, missing),
        (Holds::Number(1), Holds::Number(2), missing),
        (Holds::Number(3), Holds::Number(1), Ok(1)),
        (Holds::Number(0), Holds::Zeros, missing),
        (Holds::Number(0), Holds::Number(1), Ok(1)),
        (Holds::Summed(4), Holds::Summed(3), Ok(4)),
        (Holds::Nothing, Holds::Summed(3), Ok(3)),
        (Holds::Number(2), Holds::Summed(3), Ok(2)),
        (Holds::Summed(4), Holds::Number(1), Ok(1)),
    ];
    for (first, second, found) in rows {
        let steps = [
            Step::Put(0, first),
            Step::Put(1, second),
            Step::Newest(found),
            // It was synced first.
            Step::Crash(Left::Bad),
            Step::Newest(found),
        ];
        all_well(&rt, MemDevice::new(rt.alloc(), 5), &steps);
    }
}

/// The number of the newest checkpoint of a device with these slots.
fn newest_of(alloc: Global, first: &[u8; 512], second: &[u8; 512]) -> Option<u64> {
    let mut device = MemDevice::new(alloc, 2).ok()?;
    if !put(&mut device, 0, first) || !put(&mut device, 1, second) {
        return None;
    }
    number(&mut device).ok()
}

#[test]
fn a_half_written_slot_of_version_3(rt: HostRuntime) {
    let older = summed(2, 7);
    let old = summed(1, 0x0102_0304);
    let new = summed(3, 0x0506_0708);
    for cut in 0..=512usize {
        // As far as the cut the new bytes arrived, or all behind it.
        let mut front = old;
        front[..cut].copy_from_slice(&new[..cut]);
        let mut back = new;
        back[..cut].copy_from_slice(&old[..cut]);
        for slot in [front, back] {
            let found = if slot == new { 3 } else { 2 };
            assert_eq!(rt; newest_of(rt.alloc(), &older, &slot), Some(found));
        }
    }
}

#[test]
fn each_call_fails_in_turn(rt: HostRuntime) {
    for (call, nth) in [
        (DeviceCall::Sync, 0),
        (DeviceCall::Read, 0),
        (DeviceCall::Read, 1),
    ] {
        let steps = [
            Step::Put(0, Holds::Number(2)),
            Step::Put(1, Holds::Number(1)),
            Step::Fail(call, nth),
            Step::Newest(Err(RootFault::Device)),
            Step::Newest(Ok(2)),
        ];
        all_well(&rt, MemDevice::new(rt.alloc(), 5), &steps);
    }
    for (call, left, found) in [
        (DeviceCall::Write, Left::Old, 2),
        (DeviceCall::Write, Left::New, 3),
        (DeviceCall::Write, Left::Bad, 2),
        (DeviceCall::Sync, Left::Old, 2),
        (DeviceCall::Sync, Left::New, 3),
        (DeviceCall::Sync, Left::Bad, 2),
    ] {
        let steps = [
            Step::Put(0, Holds::Number(2)),
            Step::Put(1, Holds::Number(1)),
            Step::Sync(true),
            Step::Fail(call, 0),
            Step::Replace(3, false),
            Step::Crash(left),
            Step::Newest(Ok(found)),
        ];
        all_well(&rt, MemDevice::new(rt.alloc(), 5), &steps);
    }
}

#[test]
fn a_stop_within_the_slot_write(rt: HostRuntime) {
    // The choice, the number of the newest checkpoint then, and that of the one behind it.
    for (left, found, next) in [(Left::Old, 2, 3), (Left::New, 3, 4), (Left::Bad, 2, 3)] {
        let steps = [
            Step::Replace(1, true),
            Step::Newest(Ok(1)),
            Step::Replace(2, true),
            Step::Newest(Ok(2)),
            Step::StopAt(0),
            Step::Replace(3, false),
            Step::Newest(Err(RootFault::Device)),
            Step::Crash(left),
            Step::Newest(Ok(found)),
            // An Ok is durable, whatever a stop makes of what is unsynced.
            Step::Replace(next, true),
            Step::Crash(Left::Bad),
            Step::Newest(Ok(u64::from(next))),
        ];
        all_well(&rt, MemDevice::new(rt.alloc(), 5), &steps);
    }
}

#[test]
fn a_stop_within_a_row_and_its_slot(rt: HostRuntime) {
    // The slot's byte, the write at which the device stops, whether all was written, the choice,
    // and what then stands.
    let none = [Ok(0), Ok(0), Ok(0), Ok(0), Ok(0)];
    let row = [Ok(0), Ok(0), Ok(7), Ok(8), Ok(0)];
    let bad_row = [Ok(0), Ok(0), BAD, BAD, Ok(0)];
    let whole = [Ok(0), Ok(9), Ok(7), Ok(8), Ok(0)];
    let bad_slot = [Ok(0), BAD, Ok(7), Ok(8), Ok(0)];
    let rows = [
        (None, 2, true, Left::Old, none),
        (None, 2, true, Left::New, row),
        (None, 2, true, Left::Bad, bad_row),
        (Some(9), 1, false, Left::Old, none),
        (Some(9), 1, false, Left::New, row),
        (Some(9), 1, false, Left::Bad, bad_row),
        (Some(9), 2, false, Left::Old, row),
        (Some(9), 2, false, Left::New, whole),
        (Some(9), 2, false, Left::Bad, bad_slot),
        (Some(9), 3, true, Left::Bad, whole),
    ];
    for (slot, stop, is_whole, left, [first, second, third, fourth, fifth]) in rows {
        let steps = [
            Step::Crash(left),
            Step::Read(0, first),
            Step::Read(1, second),
            Step::Read(2, third),
            Step::Read(3, fourth),
            Step::Read(4, fifth),
        ];
        let device = saved(rt.alloc(), slot, stop, is_whole);
        all_well(&rt, device.ok_or(()), &steps);
    }
}
