use crate::helpers::{Row, Words, all_well, lose, put_blocks, put_dirty};
use lfs_cache::{CachedDevice, DEFAULT_SECTORS};
use lfs_device::{DeviceCall, DeviceFault, MemDevice, NoMemory};
use lfs_layout::word;
use lfs_memory::inodes::{BlockKey, DirtyTable, IN_MEMORY, InodeMap};
use lfs_memory::pointers::read_block;
use lfs_memory::present::{locate_leaf, read_header};
use lfs_memory::segments::{ChunkWriter, Usage};
use lfs_memory::{Header, LogMemory};
use lfs_model::Kind;
use std::alloc::Global;

/// A read through memory and what it gives.
#[derive(Clone, Copy)]
enum Step {
    /// Of a file's number and an index: whether the block is stored, and its first number, if it can
    /// be read.
    Block(u16, u32, Result<bool, DeviceFault>, u32),
    /// Of a file's number: what its inode says.
    Header(u16, Result<Option<Header>, DeviceFault>),
    /// Of a file's number and a leaf: the pointer to it.
    Leaf(u16, u32, Result<u32, DeviceFault>),
}

/// Puts file 9 on the device, with blocks 0, 112 and 240, two of which file 10 has too.
fn put_files(device: &mut MemDevice) -> bool {
    let inode = [
        (0, 1),
        (1, 9),
        (2, 1),
        (3, 123_000),
        (8, 20),
        (120, 21),
        (121, 22),
    ];
    let blocks: [(u32, Words<'_>); 7] = [
        (10, &inode),
        (20, &[(0, 700)]),
        (21, &[(0, 24)]),
        (22, &[(0, 23)]),
        (23, &[(0, 25)]),
        (24, &[(0, 701)]),
        (25, &[(0, 702)]),
    ];
    put_blocks(device, &blocks)
}

/// Puts the inode of file 10, its single leaf and its block 112 into memory, and where the inodes
/// are. File 11 points past the device, file 12 to an unreadable sector, file 13 to what isn't in
/// memory.
fn put_in_memory(memory: &mut LogMemory) -> bool {
    for (number, address) in [(9, 10), (10, 1), (11, 40), (12, 30), (13, 1)] {
        memory.map.set_address(number, address);
    }
    let inode = [(0, 2), (2, 3), (3, 64), (8, 20), (120, 1), (121, 22)];
    let dirty = &mut memory.dirty;
    put_dirty(dirty, BlockKey::inode(10), &inode)
        && put_dirty(dirty, BlockKey::leaf(10, 0), &[(0, 1), (1, 1)])
        && put_dirty(dirty, BlockKey::data(10, 112), &[(0, 800)])
}

type Cached = CachedDevice<MemDevice>;

/// No read fails.
const NONE: u64 = u64::MAX;

/// Files 9 and 10, the one on a device, behind a cache, and the other in memory too. One read of the
/// device fails, before which so many come.
fn volume(alloc: Global, read: u64) -> Result<(Cached, LogMemory), NoMemory> {
    let mut device = MemDevice::new(alloc, 40)?;
    put_files(&mut device);
    lose(&mut device, 30);
    device.fail(DeviceCall::Read, read);
    let map = InodeMap::new(alloc)?;
    let usage = Usage::new(alloc, 64, 0)?;
    let dirty = DirtyTable::new(alloc, 4, 4)?;
    let mut memory = LogMemory {
        map,
        usage,
        dirty,
        chunk: ChunkWriter::new(),
    };
    put_in_memory(&mut memory);
    match CachedDevice::new(alloc, device, DEFAULT_SECTORS) {
        Ok(device) => Ok((device, memory)),
        Err(refused) => Err(refused.0),
    }
}

impl Row<(Cached, LogMemory)> for Step {
    fn is_well(self, (device, memory): &mut (Cached, LogMemory)) -> bool {
        match self {
            Step::Block(number, index, want, first) => {
                let mut out = [9; 512];
                let number = number % 4_096;
                let stored = read_block(device, memory, &mut None, number, index, &mut out);
                stored == want && (stored.is_err() || word(&out, 0) == first)
            }
            Step::Header(number, want) => read_header(device, memory, number % 4_096) == want,
            Step::Leaf(number, leaf, want) => {
                locate_leaf(device, memory, number % 4_096, leaf % 129) == want
            }
        }
    }
}

#[test]
fn blocks_that_are_read(rt: HostRuntime) {
    let fault = Err(DeviceFault);
    let steps = [
        Step::Block(9, 0, Ok(true), 700),
        Step::Block(9, 1, Ok(false), 0),
        Step::Block(9, 112, Ok(true), 701),
        Step::Block(9, 113, Ok(false), 0),
        Step::Block(9, 240, Ok(true), 702),
        Step::Block(9, 368, Ok(false), 0),
        Step::Block(9, 16_623, Ok(false), 0),
        Step::Block(9, 16_624, Ok(false), 0),
        Step::Block(10, 0, Ok(true), 700),
        Step::Block(10, 112, Ok(true), 800),
        Step::Block(10, 113, fault, 0),
        Step::Block(10, 240, Ok(true), 702),
        Step::Block(11, 0, fault, 0),
        Step::Block(12, 0, fault, 0),
        Step::Block(13, 0, fault, 0),
        Step::Block(0, 0, Ok(false), 0),
        Step::Block(14, 0, Ok(false), 0),
    ];
    all_well(&rt, volume(rt.alloc(), NONE), &steps);
}

#[test]
fn headers_that_are_read(rt: HostRuntime) {
    let file = Header {
        kind: Kind::File,
        form: 0,
        links: 1,
        size: 123_000,
    };
    let directory = Header {
        kind: Kind::Directory,
        form: 0,
        links: 3,
        size: 64,
    };
    let steps = [
        Step::Header(9, Ok(Some(file))),
        Step::Header(10, Ok(Some(directory))),
        Step::Header(11, Err(DeviceFault)),
        Step::Header(13, Err(DeviceFault)),
        Step::Header(14, Ok(None)),
    ];
    all_well(&rt, volume(rt.alloc(), NONE), &steps);
    let fails = [
        Step::Header(10, Ok(Some(directory))),
        Step::Header(9, Err(DeviceFault)),
        Step::Header(9, Ok(Some(file))),
    ];
    all_well(&rt, volume(rt.alloc(), 0), &fails);
}

#[test]
fn leaves_that_are_located(rt: HostRuntime) {
    let steps = [
        Step::Leaf(9, 0, Ok(21)),
        Step::Leaf(9, 1, Ok(23)),
        Step::Leaf(9, 2, Ok(0)),
        Step::Leaf(9, 128, Ok(0)),
        Step::Leaf(10, 0, Ok(IN_MEMORY)),
        Step::Leaf(10, 1, Ok(23)),
        Step::Leaf(11, 0, Err(DeviceFault)),
        Step::Leaf(0, 0, Ok(0)),
        Step::Leaf(14, 1, Ok(0)),
    ];
    all_well(&rt, volume(rt.alloc(), NONE), &steps);
}
