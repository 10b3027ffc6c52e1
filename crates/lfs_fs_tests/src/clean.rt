//! Volumes with too few clean segments, by hand: a file's blocks are moved, each to a clean segment
//! of its own. And how many segments are clean after many saved calls.
ghost use Rattle.std.specs.Prelude.{◌<◌, ◌≤◌};

use crate::damage::{Damage, damage_each, fault};
use crate::volume::{SECTORS, device_of, formatted, mounted};
use lfs_device::{MemDevice, SectorDevice};
use lfs_fs::MountFault;
use lfs_layout::{Checkpoint, UsageView, set_word};
use std::alloc::Global;
use std::test::Fail;

/// How many blocks the file has.
const BLOCKS: u8 = 56;

/// The file's inode.
const FILE: &[u8] = b"\x01\0\0\0\x02\0\0\0";

/// The usage block: the first segment is clean, and the next has the chunk of the one commit. Its
/// 61 blocks are the 56 of the file, one of the root, two inodes, a block of the inode map and this
/// one.
const USAGE: &[u8] = b"\0\0\0\0\0\0\0\0\x3e\0\x3d\0";

/// The device of a volume of 64 segments with the file `/f`, saved.
fn device_with_blocks(alloc: Global) -> Result<MemDevice, Fail> {
    let mut fs = mounted(alloc, formatted(alloc, 64)?)?;
    fs.create(b"/f")?;
    for index in 0..BLOCKS {
        fs.pwrite(0, 512 * u64::from(index), &[b'a'; 512])?;
    }
    fs.sync()?;
    Ok(device_of(fs))
}

/// Reads a sector.
fn sector_of(device: &mut MemDevice, sector: u32) -> Result<[u8; 512], Fail> {
    if sector >= device.sectors() {
        return Err(Fail::from("no such sector"));
    }
    let mut bytes = [0; 512];
    device.read(sector, &mut bytes)?;
    Ok(bytes)
}

/// Writes a sector.
fn put_sector(device: &mut MemDevice, sector: u32, bytes: &[u8; 512]) -> Result<(), Fail> {
    if sector >= device.sectors() {
        return Err(Fail::from("no such sector"));
    }
    device.write(sector, bytes)?;
    Ok(())
}

/// The first sector of a segment that starts with some bytes.
fn sector_with(device: &mut MemDevice, start: &[u8]) -> Result<u32, Fail> {
    for sector in 2..SECTORS {
        if sector_of(device, sector)?.starts_with(start) {
            return Ok(sector);
        }
    }
    Err(Fail::from("no sector starts so"))
}

/// Writes a block of the file behind a summary at the start of a segment, and points the inode
/// there.
fn move_block(
    device: &mut MemDevice,
    inode: &mut [u8; 512],
    index: u8,
    segment: u8,
) -> Result<(), Fail>
    requires { index < 56 }
{
    let first = 2 + 64 * u32::from(segment);
    let mut summary = [0; 512];
    // One block: of file 2, data, with this index.
    summary[0] = 1;
    summary[8] = 2;
    summary[10] = 1;
    summary[12] = index;
    put_sector(device, first, &summary)?;
    put_sector(device, first + 1, &[b'a'; 512])?;
    set_word(inode, 8 + usize::from(index), first + 1);
    Ok(())
}

/// Moves the first blocks of the file, one to each segment from number 2 on.
fn spread(device: &mut MemDevice, moved: u8) -> Result<(), Fail>
    requires { moved ≤ 56 }
{
    let inode_at = sector_with(device, FILE)?;
    let usage_at = sector_with(device, USAGE)?;
    let mut inode = sector_of(device, inode_at)?;
    let mut usage = sector_of(device, usage_at)?;
    for index in 0..moved {
        move_block(device, &mut inode, index, 2 + index)?;
        let entry = 8 * (2 + usize::from(index));
        usage[entry] = 2;
        usage[entry + 2] = 1;
    }
    usage[10] = 61 - moved;
    put_sector(device, inode_at, &inode)?;
    put_sector(device, usage_at, &usage)
}

/// The fault of a mount of the volume with so many blocks moved, behind some damage.
fn fault_of(alloc: Global, moved: u8, damage: Damage) -> Result<Option<MountFault>, Fail>
    requires { moved ≤ 56 }
{
    let mut device = device_with_blocks(alloc)?;
    spread(&mut device, moved)?;
    damage_each(&mut device, damage)?;
    Ok(fault(alloc, device))
}

#[test]
fn too_few_clean_segments_are_told_last(rt: HostRuntime) -> Result<(), Fail> {
    let slot = b"\x02\0\0\0\x01f".as_slice();
    let root = b"\x02\0\0\0\x01\0\0\0".as_slice();
    let usage = b"\0\0\0\0\0\0\0\0\x3e\0".as_slice();
    // With 55 blocks moved 56 segments are used, and 8 of 64 are clean; with 56 moved 7 are.
    for (moved, start, place, byte, want) in [
        (55, slot, 5, b'g', None),
        (56, slot, 5, b'g', Some(MountFault::Damaged(15))),
        (55, slot, 5, b'/', Some(MountFault::Damaged(10))),
        (56, slot, 5, b'/', Some(MountFault::Damaged(10))),
        (56, slot, 0, 1, Some(MountFault::Damaged(12))),
        (56, root, 8, 3, Some(MountFault::Damaged(13))),
        (56, usage, 10, 4, Some(MountFault::Damaged(9))),
    ] {
        let found = fault_of(rt.alloc(), moved, Damage { start, place, byte })?;
        assert!(rt; found == want);
    }
    Ok(())
}

/// The newest of the two checkpoints.
fn newest_of(device: &mut MemDevice) -> Result<Checkpoint, Fail> {
    let one = Checkpoint::decode(&sector_of(device, 0)?);
    let other = Checkpoint::decode(&sector_of(device, 1)?);
    match (one, other) {
        (Some(one), Some(other)) if one.number < other.number => Ok(other),
        (Some(one), _) => Ok(one),
        (None, Some(other)) => Ok(other),
        (None, None) => Err(Fail::from("no checkpoint")),
    }
}

/// In how many of 64 segments the newest checkpoint uses no sector.
fn unused_segments(device: &mut MemDevice) -> Result<usize, Fail> {
    let checkpoint = newest_of(device)?;
    let block = sector_of(device, checkpoint.usage[0])?;
    let Some(usage) = UsageView::decode(&block, 64) else {
        return Err(Fail::from("no usage block"));
    };
    let mut unused = 0usize;
    for segment in 0..64usize {
        if usage.get(segment).used == 0 {
            unused = unused.saturating_add(1);
        }
    }
    Ok(unused)
}

#[test]
fn fifty_saved_creates_fill_few_segments(rt: HostRuntime) -> Result<(), Fail> {
    let mut fs = mounted(rt.alloc(), formatted(rt.alloc(), 64)?)?;
    for number in 0..50u32 {
        let path = format!(in rt.alloc(); "/y{number}")?;
        fs.create(path.as_bytes())?;
        fs.sync()?;
    }
    let mut device = device_of(fs);
    assert!(rt; unused_segments(&mut device)? >= 56);
    Ok(())
}
