ghost use Rattle.std.specs.Prelude.{◌≤◌};

use crate::helpers::{BAD, Row, all_well, filled, first_wrong, lose, only_byte, put};
use lfs_cache::{CachedDevice, MOST_SECTORS};
use lfs_device::{DeviceCall, MemDevice, NoMemory, ReadFault, SectorDevice};
use std::alloc::Global;

/// A call of a cache, and what is seen.
#[derive(Clone, Copy)]
enum Step {
    /// The byte that a sector is filled with, as it is lent.
    Lends(u32, Result<u8, ReadFault>),
    /// The same, as it is read.
    Reads(u32, Result<u8, ReadFault>),
    /// A sector is filled with a byte: whether that succeeds.
    Fill(u32, u8, bool),
    /// The same, around what is kept.
    FillAround(u32, u8, bool),
}

/// What a read gives where the device fails it.
const FAILED: Result<u8, ReadFault> = Err(ReadFault::Failed);

/// The byte that a sector is filled with, as it is lent.
fn lent(cache: &mut CachedDevice<MemDevice>, sector: u32) -> Result<u8, ReadFault> {
    if sector >= cache.sectors() {
        return Err(ReadFault::Failed);
    }
    only_byte(cache.read_ref(sector)?)
}

/// Whether a sector could be filled with a byte around what is kept.
fn put_around(cache: &mut CachedDevice<MemDevice>, sector: u32, byte: u8) -> bool {
    sector < cache.sectors() && cache.write_around(sector, &[byte; 512]).is_ok()
}

impl Row<CachedDevice<MemDevice>> for Step {
    fn is_well(self, cache: &mut CachedDevice<MemDevice>) -> bool {
        match self {
            Step::Lends(sector, holds) => lent(cache, sector) == holds,
            Step::Reads(sector, holds) => filled(cache, sector) == holds,
            Step::Fill(sector, byte, succeeds) => put(cache, sector, &[byte; 512]) == succeeds,
            Step::FillAround(sector, byte, succeeds) => put_around(cache, sector, byte) == succeeds,
        }
    }
}

/// Four sectors, filled with 0, 1 and 2, and the last unreadable. Calls of the device fail as they
/// are listed: that such a read fails in a table shows how many came to the device before it.
fn four_sectors(alloc: Global, faults: &[(DeviceCall, u64)]) -> Result<MemDevice, NoMemory> {
    let mut device = MemDevice::new(alloc, 4)?;
    put(&mut device, 1, &[1; 512]);
    put(&mut device, 2, &[2; 512]);
    lose(&mut device, 3);
    for (call, nth) in faults {
        device.fail(*call, *nth);
    }
    Ok(device)
}

/// In front of which so many are kept.
fn cached(
    alloc: Global,
    capacity: u32,
    faults: &[(DeviceCall, u64)],
) -> Result<CachedDevice<MemDevice>, NoMemory>
    requires some { 1 ≤ capacity }
    requires most { capacity ≤ MOST_SECTORS }
{
    match CachedDevice::new(alloc, four_sectors(alloc, faults)?, capacity) {
        Ok(cache) => Ok(cache),
        Err((refused, _)) => Err(refused),
    }
}

#[test]
fn a_kept_sector_is_not_read(rt: HostRuntime) {
    let one = [
        Step::Lends(0, Ok(0)),
        Step::Lends(0, Ok(0)),
        Step::Lends(1, Ok(1)),
        Step::Reads(1, Ok(1)),
        Step::Lends(1, Ok(1)),
        Step::Reads(0, Ok(0)),
        // The fourth read that reaches the device.
        Step::Reads(0, FAILED),
        Step::Lends(1, Ok(1)),
        Step::Lends(0, Ok(0)),
    ];
    all_well(&rt, cached(rt.alloc(), 1, &[(DeviceCall::Read, 3)]), &one);
    let two = [
        Step::Lends(0, Ok(0)),
        Step::Lends(1, Ok(1)),
        Step::Lends(0, Ok(0)),
        Step::Lends(1, Ok(1)),
        // That sector 0 is read is no use of it: it is what goes for sector 2.
        Step::Reads(0, Ok(0)),
        Step::Lends(2, Ok(2)),
        Step::Lends(1, Ok(1)),
        // The fourth read that reaches the device.
        Step::Lends(0, FAILED),
        Step::Lends(2, Ok(2)),
        Step::Lends(0, Ok(0)),
    ];
    all_well(&rt, cached(rt.alloc(), 2, &[(DeviceCall::Read, 3)]), &two);
}

#[test]
fn writes_are_kept_unless_they_fail(rt: HostRuntime) {
    let steps = [
        Step::Fill(0, 5, true),
        Step::Lends(0, Ok(5)),
        Step::Fill(0, 6, true),
        Step::Reads(0, Ok(6)),
        Step::Fill(0, 7, false),
        // The first read that reaches the device. The write had changed nothing.
        Step::Lends(0, FAILED),
        Step::Lends(0, Ok(6)),
        Step::Lends(0, Ok(6)),
        Step::Fill(3, 8, true),
        Step::Lends(3, Ok(8)),
    ];
    let faults = [(DeviceCall::Write, 2), (DeviceCall::Read, 0)];
    all_well(&rt, cached(rt.alloc(), 1, &faults), &steps);
    all_well(&rt, cached(rt.alloc(), 2, &faults), &steps);
}

#[test]
fn writes_around_are_not_kept(rt: HostRuntime) {
    let steps = [
        Step::Lends(0, Ok(0)),
        Step::Lends(1, Ok(1)),
        Step::FillAround(0, 5, true),
        Step::Lends(1, Ok(1)),
        // The third read that reaches the device.
        Step::Lends(0, FAILED),
        Step::Lends(0, Ok(5)),
        Step::FillAround(0, 6, false),
        Step::Lends(0, Ok(5)),
        Step::Lends(1, Ok(1)),
    ];
    let faults = [(DeviceCall::Write, 1), (DeviceCall::Read, 2)];
    all_well(&rt, cached(rt.alloc(), 2, &faults), &steps);
}

#[test]
fn an_unreadable_sector_is_not_kept(rt: HostRuntime) {
    let steps = [
        Step::Lends(3, BAD),
        Step::Lends(3, FAILED),
        Step::Lends(3, BAD),
        Step::Reads(3, BAD),
        Step::Fill(3, 4, true),
        Step::Lends(3, Ok(4)),
        Step::Reads(3, Ok(4)),
    ];
    all_well(&rt, cached(rt.alloc(), 2, &[(DeviceCall::Read, 1)]), &steps);
}

/// What is seen is the same where memory to keep a sector is refused. Where memory for the cache is,
/// the device comes back as it was. `rt try --test --fail-alloc` refuses an allocation.
#[test]
fn refused_memory_changes_no_answer(rt: HostRuntime) {
    let steps = [
        Step::Lends(1, Ok(1)),
        Step::Lends(2, Ok(2)),
        Step::Lends(1, Ok(1)),
        Step::Reads(2, Ok(2)),
        Step::Fill(0, 5, true),
        Step::Lends(0, Ok(5)),
        Step::Fill(0, 6, true),
        Step::Reads(0, Ok(6)),
        Step::Lends(0, Ok(6)),
        Step::Lends(3, BAD),
        Step::Lends(2, Ok(2)),
        Step::Lends(1, Ok(1)),
    ];
    let Ok(device) = four_sectors(rt.alloc(), &[]) else {
        return;
    };
    match CachedDevice::new(rt.alloc(), device, 4) {
        Ok(mut cache) => assert_eq!(rt; first_wrong(&mut cache, &steps), None),
        Err((_, mut device)) => assert_eq!(rt; filled(&mut device, 1), Ok(1)),
    }
}
