//! Volumes at their places: one that is made over another, slots that are lost, and a file that
//! spells a checkpoint.
use crate::volume::{SECTORS, device_of, mounted};
use lfs_device::{Left, MemDevice, SectorDevice};
use lfs_fs::{Fs, MountFault, Shape, find_volume, format_with};
use std::alloc::Global;
use std::test::Fail;

/// A volume of version 1, by the old places.
const OLD: Shape = Shape {
    segments: 64,
    version: 1,
    segment_sectors: 64,
    unit: 1,
};

/// A volume of version 3, by the new places.
const NEW: Shape = Shape {
    segments: 64,
    version: 3,
    segment_sectors: 64,
    unit: 8,
};

/// The sectors that either of them has room in.
const ROOMY: u32 = 4_352;

/// A device of so many sectors with an empty volume of this shape.
fn made(alloc: Global, sectors: u32, shape: Shape) -> Result<MemDevice, Fail> {
    let mut device = MemDevice::new(alloc, sectors)?;
    format_with(&mut device, shape)?;
    Ok(device)
}

/// A device with a volume of this shape that has a file, saved by its second checkpoint.
fn with_file(alloc: Global, shape: Shape) -> Result<MemDevice, Fail> {
    let mut fs = mounted(alloc, made(alloc, ROOMY, shape)?)?;
    fs.create(b"/f")?;
    fs.pwrite(0, 0, b"a")?;
    fs.sync()?;
    Ok(device_of(fs))
}

/// How many entries the volume of a device has. None where there is no checkpoint.
fn entries_on(alloc: Global, device: MemDevice) -> Result<Option<usize>, Fail> {
    let found = match find_volume(device) {
        Ok(found) => found,
        Err((MountFault::NoCheckpoint, _)) => return Ok(None),
        Err((fault, _)) => return Err(Fail::from(fault)),
    };
    match Fs::mount(alloc, found) {
        Ok(mut fs) => Ok(Some(fs.tree()?.len())),
        Err((MountFault::NoCheckpoint, _)) => Ok(None),
        Err((fault, _)) => Err(Fail::from(fault)),
    }
}

/// What is left where a device with a file stops within this write of the making of a volume.
fn left_within(
    alloc: Global,
    was: Shape,
    shape: Shape,
    write: u64,
    left: Left,
) -> Result<Option<usize>, Fail> {
    let mut device = with_file(alloc, was)?;
    device.stop_at(write);
    let _ = format_with(&mut device, shape);
    device.crash(left);
    entries_on(alloc, device)
}

/// Sector 128 is written and synced first, then sectors 0 and 1, then four blocks of the first
/// chunk, and then the checkpoint. The file's volume stands as long as its newest slot does, and its
/// first checkpoint has no entry.
#[test]
fn a_volume_is_made_over_another(rt: HostRuntime) -> Result<(), Fail> {
    let (file, empty, none) = (Some(1), Some(0), None);
    for (was, shape, left, want) in [
        (OLD, NEW, Left::Old, [file, file, file, none, empty]),
        (OLD, NEW, Left::New, [file, empty, none, empty, empty]),
        (OLD, NEW, Left::Bad, [file, empty, none, none, empty]),
        (NEW, OLD, Left::Old, [file, file, file, none, empty]),
        (NEW, OLD, Left::New, [file, none, none, empty, empty]),
        (NEW, OLD, Left::Bad, [file, none, none, none, empty]),
    ] {
        for (write, want) in [0, 1, 2, 7, 8].into_iter().zip(want) {
            assert!(rt; left_within(rt.alloc(), was, shape, write, left)? == want);
        }
        for write in 3..7 {
            assert!(rt; left_within(rt.alloc(), was, shape, write, left)?.is_none());
        }
    }
    Ok(())
}

/// Fills so many sectors from one on with zeros, for good.
fn zero(device: &mut MemDevice, first: u32, count: u32) -> Result<(), Fail> {
    for sector in (first..).take(count as usize) {
        if sector < device.sectors() {
            device.write(sector, &[0; 512])?;
        }
    }
    device.sync()?;
    Ok(())
}

/// Once a volume is made, no checkpoint of the former one is left behind its own slots.
#[test]
fn nothing_is_left_of_a_former_volume(rt: HostRuntime) -> Result<(), Fail> {
    for (was, shape, second) in [(OLD, NEW, 128), (NEW, OLD, 1), (NEW, NEW, 128)] {
        let mut device = with_file(rt.alloc(), was)?;
        format_with(&mut device, shape)?;
        zero(&mut device, 0, 1)?;
        zero(&mut device, second, 1)?;
        assert!(rt; entries_on(rt.alloc(), device)?.is_none());
    }
    Ok(())
}

/// Where a unit of 4 KiB with a slot in it is lost, the other slot serves.
#[test]
fn a_lost_unit_has_one_slot(rt: HostRuntime) -> Result<(), Fail> {
    for (first, want) in [(0, Some(0)), (128, Some(1))] {
        let mut device = with_file(rt.alloc(), NEW)?;
        zero(&mut device, first, 8)?;
        assert!(rt; entries_on(rt.alloc(), device)? == want);
    }
    Ok(())
}

/// The bytes of a sector.
fn bytes_at(device: &mut MemDevice, sector: u32) -> Result<[u8; 512], Fail> {
    let mut bytes = [0; 512];
    if sector >= device.sectors() {
        return Err(Fail::from("no such sector"));
    }
    device.read(sector, &mut bytes)?;
    Ok(bytes)
}

/// A device of so many sectors, with a volume of version 1. Its file has two full chunks, each of
/// whose blocks spells the checkpoint that a new volume of version 3 has at sector 128.
fn with_spelt(alloc: Global, sectors: u32) -> Result<MemDevice, Fail> {
    let spelt = bytes_at(&mut made(alloc, ROOMY, NEW)?, 128)?;
    let mut fs = mounted(alloc, made(alloc, sectors, OLD)?)?;
    fs.create(b"/f")?;
    for block in 0..126 {
        fs.pwrite(0, 512 * block, &spelt)?;
    }
    fs.sync()?;
    let mut device = device_of(fs);
    if bytes_at(&mut device, 128)? == spelt {
        Ok(device)
    } else {
        Err(Fail::from("the file has no block at sector 128"))
    }
}

/// An old volume is found by its own slots, whatever a file of it spells.
#[test]
fn a_file_that_spells_a_checkpoint_is_a_file(rt: HostRuntime) -> Result<(), Fail> {
    for sectors in [SECTORS, ROOMY] {
        let device = with_spelt(rt.alloc(), sectors)?;
        assert!(rt; entries_on(rt.alloc(), device)? == Some(1));
    }
    let mut device = with_spelt(rt.alloc(), SECTORS)?;
    zero(&mut device, 0, 2)?;
    assert!(rt; entries_on(rt.alloc(), device)?.is_none());
    Ok(())
}
