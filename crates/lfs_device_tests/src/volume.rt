//! Where a volume is found, by what a device holds.
use crate::helpers::{filled, put};
use lfs_device::{MemDevice, SectorDevice};
use lfs_layout::Checkpoint;
use lfs_places::Places;
use lfs_volume::{FindFault, InVolume, find_places};
use std::alloc::Global;

/// Of a device how many sectors it has, and the place, the number and the version of the one
/// checkpoint that it holds; and what is found on it.
type Row = (u32, u32, u64, u32, Result<Places, FindFault>);

const ROWS: [Row; 9] = [
    (4_097, 0, 2, 2, Err(FindFault::TooSmall)),
    (4_098, 0, 2, 2, Ok(Places::Old)),
    (4_098, 1, 3, 1, Ok(Places::Old)),
    (4_098, 0, 3, 2, Err(FindFault::NoCheckpoint)),
    (4_351, 0, 2, 3, Err(FindFault::NoCheckpoint)),
    (4_352, 0, 2, 3, Ok(Places::New)),
    (4_352, 1, 3, 2, Ok(Places::Old)),
    (4_352, 128, 3, 3, Ok(Places::New)),
    (4_352, 128, 3, 2, Err(FindFault::NoCheckpoint)),
];

/// The sector of a checkpoint of the least volume.
fn spelt(number: u64, version: u32) -> Option<[u8; 512]> {
    let checkpoint = Checkpoint {
        number,
        segments: 64,
        version,
        unit_power: 0,
        map: [0; 32],
        usage: [0; 16],
    };
    if checkpoint.is_fit() {
        Some(checkpoint.encode())
    } else {
        None
    }
}

/// A device that holds one checkpoint.
fn holding(
    alloc: Global,
    sectors: u32,
    place: u32,
    number: u64,
    version: u32,
) -> Option<MemDevice> {
    let bytes = spelt(number, version)?;
    let mut device = MemDevice::new(alloc, sectors).ok()?;
    if put(&mut device, place, &bytes) {
        Some(device)
    } else {
        None
    }
}

/// Whether a volume is found where the row says.
fn is_well(alloc: Global, row: Row) -> bool {
    let (sectors, place, number, version, found) = row;
    match holding(alloc, sectors, place, number, version) {
        Some(mut device) => find_places(&mut device) == found,
        None => false,
    }
}

#[test]
fn places_are_found_by_what_slots_hold(rt: HostRuntime) {
    for row in ROWS {
        assert!(rt; is_well(rt.alloc(), row));
    }
}

#[test]
fn a_volume_that_is_found_is_written_at_its_places(rt: HostRuntime) {
    let Some(device) = holding(rt.alloc(), 4_352, 0, 2, 3) else {
        panic!(rt; "no memory");
    };
    let Ok(mut volume) = InVolume::find(device) else {
        panic!(rt; "no volume");
    };
    assert!(rt; volume.places() == Places::New);
    assert_eq!(rt; volume.sectors(), 4_098);
    assert!(rt; put(&mut volume, 1, &[7; 512]));
    assert!(rt; put(&mut volume, 2, &[8; 512]));
    let mut device = volume.into_inner();
    for (sector, byte) in [(1, 0), (128, 7), (256, 8)] {
        assert!(rt; filled(&mut device, sector).ok() == Some(byte));
    }
}
