//! How many blocks of a file each segment holds.
ghost use Rattle.std.specs.Prelude.{◌≡◌, ◌<◌, ◌≤◌, ◌+◌, IfOk, OnOk, OnErr, IsTrue, IsFalse, true, get_or, length};
ghost use Rattle.lfs_memory.specs.Numbers.{IsFileNumber};
ghost use Rattle.lfs_memory.specs.Present.{Looks, OnlyLooks};
ghost use Rattle.lfs_memory.specs.Counting.{IsBefore, CountsOne, IsOver, CountsWhere, IsNothing, CountsWords, AreNoWords, CountsLeaf, FailsLeaf, CountsLeaves, FailsLeaves, CountsDouble, FailsDouble, CountsInode, FailsInode, CountsPast, CountsFile};

use crate::memory::LogMemory;
use crate::present::{read_inode, read_present};
use lfs_cache::CachedDevice;
use lfs_device::{DeviceFault, SectorDevice};
use lfs_inodes::BlockKey;
use lfs_layout::{DOUBLE_POINTER, FIRST_POINTER, SINGLE_POINTER, segment_of, word};
use lfs_model::limits::{
    BLOCK_POINTERS, CHECKPOINT_SLOTS, DIRECT_BLOCKS, FILE_NUMBERS, LAST_LEAF, MOST_SEGMENTS,
    SEGMENT_SECTORS,
};
use std::alloc::{AllocError, Global};
use std::marker::Model;

/// How many numbers there are, one for each segment that a volume may have.
const SEGMENTS: usize = MOST_SEGMENTS as usize;

/// The most blocks that a segment has.
const SECTORS: u16 = SEGMENT_SECTORS as u16;

/// A number for each segment. Contracts see the list.
#[derive(Drop)]
pub struct SegmentCounts {
    counts: Vec<u16>,
}

impl Model for SegmentCounts {
    ghost use Rattle.std.specs.Prelude.{◌≡◌, ℕ, List, length};
    ghost use Rattle.lfs_model.specs.declared.limits.TheConstants.{MOST_SEGMENTS};

    ghost Value = { List ℕ };

    ghost view = { λ c. c.counts.items };

    ghost invariant = { λ c. length c.counts.items ≡ MOST_SEGMENTS };
}

impl SegmentCounts {
    /// All numbers 0.
    ///
    /// # Errors
    ///
    /// Where memory runs out.
    pub fn new(alloc: Global) -> Result<SegmentCounts, AllocError>
        ensures { IfOk result IsNothing }
    {
        let counts = Vec::from_elem(alloc, 0, SEGMENTS)?;
        Ok(SegmentCounts { counts })
    }

    /// All numbers are 0 from now on.
    pub fn clear(&mut self)
        ensures { IsNothing self.new }
    {
        for segment in 0..SEGMENTS {
            self.counts[segment] = 0;
        }
    }

    /// How many numbers there are.
    pub fn segments(&self) -> u32
        ensures value { result ≡ length self.now }
        ensures most { result ≡ MOST_SEGMENTS }
    {
        self.counts.len() as u32
    }

    /// The number of a segment.
    pub fn count(&self, segment: u32) -> u16
        requires { segment < MOST_SEGMENTS }
        ensures { result ≡ get_or self.now segment 0 }
    {
        self.counts[segment as usize]
    }

    /// Counts a block at this address, if that is one on the device; not where no volume has one
    /// more there.
    pub fn add(&mut self, address: u32) -> bool
        ensures done { IsTrue result → CountsOne self.old self.new address }
        ensures over { IsFalse result → IsOver self.old address }
    {
        if address < CHECKPOINT_SLOTS {
            return true;
        }
        let segment = segment_of(address) as usize;
        if segment >= SEGMENTS {
            return false;
        }
        if self.counts[segment] >= SECTORS {
            return false;
        }
        self.counts[segment] += 1;
        true
    }
}

/// The blocks of a file from block `first` on.
#[derive(Clone, Copy)]
struct Tail {
    number: u16,
    first: u32,
    ghost numbered: { IsFileNumber number },
}

/// How many of so many pointers, the first of which is to block `lowest` of a file, are to blocks
/// before block `first`.
fn pointers_before(first: u32, lowest: u32, pointers: u32) -> u32
    ensures { IsBefore first lowest pointers result }
{
    first.saturating_sub(lowest).min(pointers)
}

/// Counts a block at this address where it is one of those to be counted; not where no volume has
/// one more there.
fn count_one(counts: &mut SegmentCounts, address: u32, counted: bool) -> bool
    ensures done { IsTrue result → CountsWhere counts.old counts.new address counted }
    ensures wanted { IsFalse result → counted ≡ true }
    ensures over { IsFalse result → IsOver counts.old address }
{
    if !counted {
        return true;
    }
    counts.add(address)
}

/// Counts the blocks whose addresses stand at so many places of 4 bytes.
fn count_words(
    counts: &mut SegmentCounts,
    block: &[u8; 512],
    start: usize,
    number: usize,
) -> Result<(), DeviceFault>
    requires { start + number ≤ BLOCK_POINTERS }
    ensures done { OnOk result (CountsWords block.now start number counts.old counts.new) }
    ensures failed { OnErr result (AreNoWords block.now start number counts.old) }
{
    for i in 0..number {
        if !counts.add(word(block, start + i)) {
            return Err(DeviceFault);
        }
    }
    Ok(())
}

/// Counts a leaf of pointers and the blocks below it, from block `first` of the file on. A leaf
/// that lies before isn't read.
fn count_leaf<D: SectorDevice>(
    device: &mut CachedDevice<D>,
    memory: &LogMemory,
    tail: Tail,
    index: u32,
    address: u32,
    counts: &mut SegmentCounts,
) -> Result<(), DeviceFault>
    requires index { index ≤ LAST_LEAF }
    ensures done { OnOk result (CountsLeaf (D.state device.old) (D.state device.new) memory.now
        tail.number index address tail.first counts.old counts.new) }
    ensures failed { OnErr result (FailsLeaf (D.state device.old) (D.state device.new) memory.now
        tail.number index address tail.first counts.old) }
    ensures no_failure { OnOk result ((D.state device.new).failures
        ≡ (D.state device.old).failures) }
    ensures looks { Looks (D.state device.old) (D.state device.new) }
{
    let start = pointers_before(
        tail.first,
        DIRECT_BLOCKS + BLOCK_POINTERS * index,
        BLOCK_POINTERS,
    );
    if start == BLOCK_POINTERS {
        return Ok(());
    }
    if address == 0 {
        return Ok(());
    }
    if !count_one(counts, address, start == 0) {
        return Err(DeviceFault);
    }
    let mut leaf = [0; 512];
    let key = BlockKey::leaf(tail.number, index);
    read_present(device, memory, key, address, false, &mut leaf)?;
    count_words(
        counts,
        &leaf,
        start as usize,
        (BLOCK_POINTERS - start) as usize,
    )
}

/// Counts the leaves below a double root, and the blocks below them, from block `first` of the file
/// on.
fn count_leaves<D: SectorDevice>(
    device: &mut CachedDevice<D>,
    memory: &LogMemory,
    tail: Tail,
    root: &[u8; 512],
    counts: &mut SegmentCounts,
) -> Result<(), DeviceFault>
    ensures done { OnOk result (CountsLeaves (D.state device.old) (D.state device.new) memory.now
        tail.number root.now BLOCK_POINTERS tail.first counts.old counts.new) }
    ensures failed { OnErr result (FailsLeaves (D.state device.old) (D.state device.new) memory.now
        tail.number root.now BLOCK_POINTERS tail.first counts.old) }
    ensures no_failure { OnOk result ((D.state device.new).failures
        ≡ (D.state device.old).failures) }
    ensures looks { Looks (D.state device.old) (D.state device.new) }
{
    for index in 0..BLOCK_POINTERS {
        let address = word(root, index as usize);
        count_leaf(device, memory, tail, index + 1, address, counts)?;
    }
    Ok(())
}

/// Counts all that is below the double root of a file, from block `first` on.
fn count_double<D: SectorDevice>(
    device: &mut CachedDevice<D>,
    memory: &LogMemory,
    tail: Tail,
    address: u32,
    counts: &mut SegmentCounts,
) -> Result<(), DeviceFault>
    ensures done { OnOk result (CountsDouble (D.state device.old) (D.state device.new) memory.now
        tail.number address tail.first counts.old counts.new) }
    ensures failed { OnErr result (FailsDouble (D.state device.old) (D.state device.new) memory.now
        tail.number address tail.first counts.old) }
    ensures no_failure { OnOk result ((D.state device.new).failures
        ≡ (D.state device.old).failures) }
    ensures looks { Looks (D.state device.old) (D.state device.new) }
{
    if address == 0 {
        return Ok(());
    }
    let mut root = [0; 512];
    let key = BlockKey::double(tail.number);
    read_present(device, memory, key, address, false, &mut root)?;
    count_leaves(device, memory, tail, &root, counts)
}

/// Counts the blocks below an inode, from block `first` of the file on.
fn count_inode<D: SectorDevice>(
    device: &mut CachedDevice<D>,
    memory: &LogMemory,
    tail: Tail,
    inode: &[u8; 512],
    counts: &mut SegmentCounts,
) -> Result<(), DeviceFault>
    ensures done { OnOk result (CountsInode (D.state device.old) (D.state device.new) memory.now
        tail.number inode.now tail.first counts.old counts.new) }
    ensures failed { OnErr result (FailsInode (D.state device.old) (D.state device.new) memory.now
        tail.number inode.now tail.first counts.old) }
    ensures no_failure { OnOk result ((D.state device.new).failures
        ≡ (D.state device.old).failures) }
    ensures looks { Looks (D.state device.old) (D.state device.new) }
{
    let direct = pointers_before(tail.first, 0, DIRECT_BLOCKS) as usize;
    let double = word(inode, DOUBLE_POINTER);
    count_words(
        counts,
        inode,
        FIRST_POINTER + direct,
        DIRECT_BLOCKS as usize - direct,
    )?;
    if !count_one(counts, double, tail.first <= DIRECT_BLOCKS + BLOCK_POINTERS) {
        return Err(DeviceFault);
    }
    let single = word(inode, SINGLE_POINTER);
    count_leaf(device, memory, tail, 0, single, counts)?;
    count_double(device, memory, tail, double, counts)
}

/// Counts the blocks of a file that have an address on the device, from block `first` on: data, and
/// blocks of pointers with no block before it. It reads each block of pointers once at most.
///
/// # Errors
///
/// Where a block of pointers can't be read, or the addresses are those of no volume.
pub fn count_past<D: SectorDevice>(
    device: &mut CachedDevice<D>,
    memory: &LogMemory,
    number: u16,
    first: u32,
    counts: &mut SegmentCounts,
) -> Result<(), DeviceFault>
    requires number { number < FILE_NUMBERS }
    ensures counted { OnOk result (CountsPast (D.state device.old) (D.state device.new) memory.now
        number first counts.new) }
    ensures looks { OnlyLooks (D.state device.old) (D.state device.new) memory.now result }
{
    counts.clear();
    let mut inode = [0; 512];
    if !read_inode(device, memory, number, &mut inode)? {
        return Ok(());
    }
    count_inode(device, memory, Tail { number, first }, &inode, counts)
}

/// Counts all blocks of a file that have an address on the device.
///
/// # Errors
///
/// As those of `count_past`.
pub fn count_file<D: SectorDevice>(
    device: &mut CachedDevice<D>,
    memory: &LogMemory,
    number: u16,
    counts: &mut SegmentCounts,
) -> Result<(), DeviceFault>
    requires number { number < FILE_NUMBERS }
    ensures counted { OnOk result (CountsFile (D.state device.old) (D.state device.new) memory.now
        number counts.new) }
    ensures looks { OnlyLooks (D.state device.old) (D.state device.new) memory.now result }
{
    count_past(device, memory, number, 0, counts)?;
    if !counts.add(memory.map.address(number)) {
        return Err(DeviceFault);
    }
    Ok(())
}
