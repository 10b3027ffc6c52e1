//! Devices that aren't formatted or mounted, with the stage of damage.
use crate::volume::{SECTORS, device_of, formatted, mounted};
use lfs_device::{DeviceCall, MemDevice, SectorDevice};
use lfs_fs::{FormatFault, Fs, MountFault, find_volume, format};
use std::alloc::Global;
use std::test::Fail;

/// Why a device isn't mounted.
pub fn fault(alloc: Global, device: MemDevice) -> Option<MountFault> {
    let found = match find_volume(device) {
        Ok(found) => found,
        Err((fault, _)) => return Some(fault),
    };
    match Fs::mount(alloc, found) {
        Ok(_) => None,
        Err((fault, _)) => Some(fault),
    }
}

#[test]
fn a_device_is_refused(rt: HostRuntime) -> Result<(), Fail> {
    let alloc = rt.alloc();
    let mut small = MemDevice::new(alloc, SECTORS - 1)?;
    for (segments, refusal) in [
        (56, FormatFault::Inval),
        (65, FormatFault::Inval),
        (1_032, FormatFault::Inval),
        (64, FormatFault::TooSmall),
    ] {
        assert!(rt; format(&mut small, segments) == Err(refusal));
    }
    assert!(rt; fault(alloc, small) == Some(MountFault::TooSmall));
    let empty = MemDevice::new(alloc, SECTORS)?;
    assert!(rt; fault(alloc, empty) == Some(MountFault::NoCheckpoint));
    Ok(())
}

#[test]
fn a_mount_over_failing_calls(rt: HostRuntime) -> Result<(), Fail> {
    for (call, nth) in [
        (DeviceCall::Read, 0),
        (DeviceCall::Read, 1),
        (DeviceCall::Sync, 0),
    ] {
        let mut device = formatted(rt.alloc(), 64)?;
        device.fail(call, nth);
        assert!(rt; fault(rt.alloc(), device) == Some(MountFault::Device));
    }
    Ok(())
}

/// The device of a mount, also where memory is refused to it.
fn behind_mount(alloc: Global, device: MemDevice) -> Result<MemDevice, Fail> {
    let found = match find_volume(device) {
        Ok(found) => found,
        Err((fault, _)) => return Err(Fail::from(fault)),
    };
    match Fs::mount(alloc, found) {
        Ok(fs) => Ok(fs.into_device().into_inner()),
        Err((MountFault::NoMemory, device)) => Ok(device.into_inner()),
        Err((fault, _)) => Err(Fail::from(fault)),
    }
}

/// Where memory is refused to a mount, for its cache or for more, the device comes back as it was.
/// `rt try --test --fail-alloc` refuses an allocation: the first is the device's own, and those behind
/// the mount's are of the second mount.
#[test]
fn a_device_comes_back_without_memory(rt: HostRuntime) -> Result<(), Fail> {
    let device = behind_mount(rt.alloc(), formatted(rt.alloc(), 64)?)?;
    let entries = mounted(rt.alloc(), device)?.tree()?;
    assert!(rt; entries.is_empty());
    Ok(())
}

#[test]
fn a_read_that_failed_before_the_format(rt: HostRuntime) -> Result<(), Fail> {
    let mut device = MemDevice::new(rt.alloc(), SECTORS)?;
    device.fail(DeviceCall::Read, 0);
    if device.sectors() > 0 {
        assert!(rt; device.read(0, &mut [0; 512]).is_err());
    }
    assert!(rt; format(&mut device, 64) == Ok(()));
    let entries = mounted(rt.alloc(), device)?.tree()?;
    assert!(rt; entries.is_empty());
    Ok(())
}

/// The device of a volume of 64 segments with the file `/f` of one byte, saved.
fn device_with_file(alloc: Global) -> Result<MemDevice, Fail> {
    let mut fs = mounted(alloc, formatted(alloc, 64)?)?;
    fs.create(b"/f")?;
    fs.pwrite(0, 0, b"a")?;
    fs.sync()?;
    Ok(device_of(fs))
}

/// Another byte at a place of each sector that starts with some bytes.
#[derive(Clone, Copy)]
pub struct Damage<'a> {
    pub start: &'a [u8],
    pub place: usize,
    pub byte: u8,
}

/// Puts the other byte into a sector, if it starts so.
fn damage_sector(device: &mut MemDevice, sector: u32, damage: Damage) -> Result<(), Fail> {
    if sector >= device.sectors() || damage.place >= 512 {
        return Err(Fail::from("no such place"));
    }
    let mut block = [0; 512];
    device.read(sector, &mut block)?;
    if block.starts_with(damage.start) {
        block[damage.place] = damage.byte;
        device.write(sector, &block)?;
    }
    Ok(())
}

/// Puts the other byte into each sector of a segment that starts so.
pub fn damage_each(device: &mut MemDevice, damage: Damage) -> Result<(), Fail> {
    for sector in 2..SECTORS {
        damage_sector(device, sector, damage)?;
    }
    Ok(())
}

/// The fault of a mount of a volume with a file, behind some damage.
fn fault_with(alloc: Global, damage: Damage) -> Result<Option<MountFault>, Fail> {
    let mut device = device_with_file(alloc)?;
    damage_each(&mut device, damage)?;
    Ok(fault(alloc, device))
}

#[test]
fn a_damaged_volume_is_refused(rt: HostRuntime) -> Result<(), Fail> {
    let slot = b"\x02\0\0\0\x01f".as_slice();
    let root = b"\x02\0\0\0\x01\0\0\0".as_slice();
    let file = b"\x01\0\0\0\x02\0\0\0".as_slice();
    // The first segment is clean, and the next has 7 used sectors with 6 live blocks.
    let usage = b"\0\0\0\0\0\0\0\0\x07\0\x06\0".as_slice();
    for (start, place, byte, want) in [
        (slot, 5, b'g', None),
        (slot, 5, b'/', Some(MountFault::Damaged(10))),
        (slot, 0, 1, Some(MountFault::Damaged(12))),
        (slot, 0, 3, Some(MountFault::Damaged(10))),
        (root, 8, 3, Some(MountFault::Damaged(13))),
        (file, 8, 2, Some(MountFault::Damaged(13))),
        // A link, whose text is the file's byte.
        (file, 0, 3, None),
        (usage, 10, 0, Some(MountFault::Damaged(1))),
        (usage, 8, 8, Some(MountFault::Damaged(2))),
        (usage, 10, 5, Some(MountFault::Damaged(9))),
    ] {
        let found = fault_with(rt.alloc(), Damage { start, place, byte })?;
        assert!(rt; found == want);
    }
    Ok(())
}

/// The fault of a mount of a volume with a file, where a sector can't be read.
fn fault_without(alloc: Global, sector: u32) -> Result<Option<MountFault>, Fail> {
    let mut device = device_with_file(alloc)?;
    if sector >= device.sectors() {
        return Err(Fail::from("no such sector"));
    }
    device.set_unreadable(sector);
    Ok(fault(alloc, device))
}

#[test]
fn unreadable_sectors_are_refused_by_stage(rt: HostRuntime) -> Result<(), Fail> {
    let mut counts = [0u8; 10];
    for sector in 2..130 {
        match fault_without(rt.alloc(), sector)? {
            Some(MountFault::Damaged(code)) if code < 10 => {
                counts[code as usize] = counts[code as usize].saturating_add(1);
            }
            Some(fault) => return Err(Fail::from(fault)),
            None => {}
        }
    }
    // The usage block, its summary, the block of the inode map, two inodes, and a block of the root
    // and of the file; nothing points at the first segment any more.
    assert!(rt; counts == [0, 1, 1, 1, 2, 0, 0, 2, 0, 0]);
    Ok(())
}
