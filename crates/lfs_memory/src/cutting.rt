//! A file's blocks from one on go.
ghost use Rattle.std.specs.Prelude.{◌≡◌, ◌<◌, ◌≤◌, not, ℕ, OnOk, OnErr};
ghost use Rattle.lfs_model.specs.Memory.{parent};
ghost use Rattle.lfs_model.specs.Entry.{Inode, Leaf};
ghost use Rattle.lfs_inodes.specs.Blocks.{blocks_of};
ghost use Rattle.lfs_inodes.specs.MapValue.{is_hidden_in};
ghost use Rattle.lfs_memory.specs.Lifting.{EndsLifting, IsInMemory, Prepares};
ghost use Rattle.lfs_memory.specs.Cutting.{IsCutLeaf, IsLiftedIfStored, HasEdge, KeepsOfInode, KeepsOfRoot, KeepsCount, ClearsLeaf, ClearsPointers, DropsPast, Cuts};
ghost use Rattle.lfs_memory.specs.Present.{OnlyLooks};
ghost use Rattle.lfs_memory.specs.Counting.{CountsPast};
ghost use Rattle.lfs_memory.specs.Removing.{AreCovered};
ghost use Rattle.lfs_memory.specs.Numbers.{IsFileNumber};
ghost use Rattle.lfs_memory.specs.Memory.{IsMemory};

use crate::counting::{SegmentCounts, count_past};
use crate::lifting::{LiftFault, lift_child, lift_inode};
use crate::memory::LogMemory;
use crate::removing::{are_covered, take_counts};
use lfs_cache::CachedDevice;
use lfs_device::{DeviceFault, SectorDevice};
use lfs_inodes::{BlockKey, DirtyTable};
use lfs_layout::FIRST_POINTER;
use lfs_model::limits::{BLOCK_POINTERS, DIRECT_BLOCKS, FILE_BLOCKS, FILE_NUMBERS};

/// How many pointers an inode has: to data blocks, to the single leaf and to the double root.
const ALL: u32 = DIRECT_BLOCKS + 2;

/// Brings the leaf of which a part stays into memory, if there is one that is stored. The block
/// above it is there.
///
/// # Errors
///
/// As those of `lift_child`.
fn lift_part<D: SectorDevice>(
    device: &mut CachedDevice<D>,
    memory: &mut LogMemory,
    number: u16,
    first: u32,
) -> Result<(), LiftFault>
    requires memory { IsMemory memory.old }
    requires number { IsFileNumber number }
    requires first { first ≤ FILE_BLOCKS }
    requires above { (q : ℕ) → IsCutLeaf first q → IsInMemory memory.old (parent (Leaf number q)) }
    ensures prepares { Prepares (D.state device.old) (D.state device.new) memory.old memory.new 1 }
    ensures leaf { OnOk result ((q : ℕ) → IsCutLeaf first q
        → IsLiftedIfStored memory.new (Leaf number q)) }
    ensures ends { EndsLifting (D.state device.old) (D.state device.new) memory.old memory.new
        result }
{
    if first <= DIRECT_BLOCKS {
        return Ok(());
    }
    if (first - DIRECT_BLOCKS) % BLOCK_POINTERS == 0 {
        return Ok(());
    }
    let leaf = BlockKey::leaf(number, (first - DIRECT_BLOCKS) / BLOCK_POINTERS);
    lift_child(device, memory, leaf)?;
    Ok(())
}

/// Brings the blocks of pointers of which a part stays into memory, where they are stored. The
/// inode is there.
///
/// # Errors
///
/// As those of `lift_child`.
fn lift_edge<D: SectorDevice>(
    device: &mut CachedDevice<D>,
    memory: &mut LogMemory,
    number: u16,
    first: u32,
) -> Result<(), LiftFault>
    requires memory { IsMemory memory.old }
    requires number { IsFileNumber number }
    requires first { first ≤ FILE_BLOCKS }
    requires above { IsInMemory memory.old (Inode number) }
    ensures prepares { Prepares (D.state device.old) (D.state device.new) memory.old memory.new 2 }
    ensures edge { OnOk result (HasEdge memory.new number first) }
    ensures ends { EndsLifting (D.state device.old) (D.state device.new) memory.old memory.new
        result }
{
    if first <= DIRECT_BLOCKS + BLOCK_POINTERS {
        return lift_part(device, memory, number, first);
    }
    match lift_child(device, memory, BlockKey::double(number)) {
        Ok(true) => lift_part(device, memory, number, first),
        Ok(false) => Ok(()),
        Err(fault) => Err(fault),
    }
}

/// How many of the pointers of an inode don't lead to what goes.
fn kept_of_inode(first: u32) -> u32
    ensures { KeepsOfInode first result }
{
    if first <= DIRECT_BLOCKS {
        return first;
    }
    if first <= DIRECT_BLOCKS + BLOCK_POINTERS {
        return DIRECT_BLOCKS + 1;
    }
    ALL
}

/// How many of the pointers of a double root don't lead to what goes.
fn kept_of_root(first: u32) -> u32
    requires { first ≤ FILE_BLOCKS }
    ensures { KeepsOfRoot first result }
{
    (first.saturating_sub(DIRECT_BLOCKS + BLOCK_POINTERS) + BLOCK_POINTERS - 1) / BLOCK_POINTERS
}

/// The leaf of which a part stays leads to none of what goes, if it is in memory.
fn clear_leaf(dirty: &mut DirtyTable, number: u16, first: u32)
    requires number { IsFileNumber number }
    requires first { first ≤ FILE_BLOCKS }
    ensures clears { ClearsLeaf (blocks_of dirty.old) (blocks_of dirty.new) number first }
    ensures stays { KeepsCount dirty.old dirty.new }
{
    if first <= DIRECT_BLOCKS {
        return;
    }
    let kept = (first - DIRECT_BLOCKS) % BLOCK_POINTERS;
    if kept == 0 {
        return;
    }
    let leaf = BlockKey::leaf(number, (first - DIRECT_BLOCKS) / BLOCK_POINTERS);
    dirty.clear_words(leaf, kept as usize, (BLOCK_POINTERS - kept) as usize);
}

/// The blocks of the file that are in memory lead to none of what goes.
fn clear_pointers(dirty: &mut DirtyTable, number: u16, first: u32)
    requires number { IsFileNumber number }
    requires first { first ≤ FILE_BLOCKS }
    ensures clears { ClearsPointers (blocks_of dirty.old) (blocks_of dirty.new) number first }
    ensures stays { KeepsCount dirty.old dirty.new }
{
    let kept = kept_of_inode(first);
    dirty.clear_words(
        BlockKey::inode(number),
        FIRST_POINTER + kept as usize,
        (ALL - kept) as usize,
    );
    let leaves = kept_of_root(first);
    dirty.clear_words(
        BlockKey::double(number),
        leaves as usize,
        (BLOCK_POINTERS - leaves) as usize,
    );
    clear_leaf(dirty, number, first);
}

/// The blocks of a file from one on, so many in each segment, leave memory and the tables.
fn drop_past(memory: &mut LogMemory, number: u16, first: u32, lives: bool, counts: &SegmentCounts)
    requires number { IsFileNumber number }
    requires first { first ≤ FILE_BLOCKS }
    requires covered { AreCovered memory.old.usage lives counts.now }
    ensures { DropsPast memory.old memory.new number first lives counts.now }
{
    take_counts(&mut memory.usage, counts, lives);
    memory.dirty.forget_past(number, first);
    clear_pointers(&mut memory.dirty, number, first);
}

/// Counts the blocks of a file from one on, and lets them go.
///
/// # Errors
///
/// Where they can't be counted, or aren't counted where they stand. Memory stays as it was.
fn drop_counted<D: SectorDevice>(
    device: &mut CachedDevice<D>,
    memory: &mut LogMemory,
    number: u16,
    first: u32,
    counts: &mut SegmentCounts,
) -> Result<(), DeviceFault>
    requires number { IsFileNumber number }
    requires first { first ≤ FILE_BLOCKS }
    ensures counted { OnOk result (CountsPast (D.state device.old) (D.state device.new) memory.old
        number first counts.new) }
    ensures drops { OnOk result (DropsPast memory.old memory.new number first
        (not (is_hidden_in memory.old.map number)) counts.new) }
    ensures same { OnErr result (memory.new ≡ memory.old) }
    ensures looks { OnlyLooks (D.state device.old) (D.state device.new) memory.old result }
{
    count_past(device, memory, number, first, counts)?;
    let lives = !memory.map.is_hidden(number);
    if !are_covered(&memory.usage, counts, lives) {
        return Err(DeviceFault);
    }
    drop_past(memory, number, first, lives, counts);
    Ok(())
}

/// Cuts a file away from block `first` on, in memory: data blocks, and blocks of pointers with no
/// block before it. They are counted in `counts`. The header of the file stays as it is; where
/// there is no file nothing changes.
///
/// # Errors
///
/// As those of `lift`, or where the blocks can't be counted. The log map stays as it was.
pub fn cut_file<D: SectorDevice>(
    device: &mut CachedDevice<D>,
    memory: &mut LogMemory,
    number: u16,
    first: u32,
    counts: &mut SegmentCounts,
) -> Result<(), LiftFault>
    requires memory { IsMemory memory.old }
    requires number { number < FILE_NUMBERS }
    requires first { first ≤ FILE_BLOCKS }
    ensures cuts { OnOk result (Cuts (D.state device.old) (D.state device.new) memory.old memory.new
        number first) }
    ensures prepares { OnErr result (Prepares (D.state device.old) (D.state device.new) memory.old
        memory.new 3) }
    ensures ends { EndsLifting (D.state device.old) (D.state device.new) memory.old memory.new
        result }
{
    match lift_inode(device, memory, number) {
        Ok(true) => {}
        Ok(false) => return Ok(()),
        Err(fault) => return Err(fault),
    }
    lift_edge(device, memory, number, first)?;
    match drop_counted(device, memory, number, first, counts) {
        Ok(()) => Ok(()),
        Err(_) => Err(LiftFault::Device),
    }
}
