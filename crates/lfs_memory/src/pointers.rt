//! The pointers to data blocks that one block above them has, read once for all of them.
ghost use Rattle.std.specs.Prelude.{◌≡◌, ◌<◌, ◌≤◌, ◌+◌, ◌*◌, ◌-◌, ℕ, min, None, IfOk, IfSome, IfNone, IsTrue, IsFalse};
ghost use Rattle.lfs_inodes.specs.Blocks.{blocks_of};
ghost use Rattle.lfs_inodes.specs.Key.{entry_of};
ghost use Rattle.lfs_model.specs.Fields.{zeros};
ghost use Rattle.lfs_memory.specs.Present.{OnlyLooks, AnswersBlock, FindsPointer};
ghost use Rattle.lfs_memory.specs.Pointers.{IsInodeAt, IsInRun, IsRunOf, IsKeptFor, HasNoWay, KeepsRun, CountsRun, AnswersCount, pointer_in, blocks_in};

use crate::memory::LogMemory;
use crate::present::{inode_pointer, locate_block, present_word, read_present};
use lfs_cache::CachedDevice;
use lfs_device::{DeviceFault, SectorDevice};
use lfs_inodes::{BlockKey, IN_MEMORY, Pointers, first_of_leaf, leaf_pointers, present_pointers};
use lfs_layout::FIRST_POINTER;
use lfs_model::limits::{
    BLOCK_POINTERS, DIRECT_BLOCKS, FILE_BLOCKS, FILE_NUMBERS, FIRST_DOUBLE, LAST_BLOCK, LAST_LEAF,
    SECTOR_LEN,
};

/// The pointers of one block of a file to the data blocks below it: those of its inode, or those of
/// a leaf.
#[derive(Clone, Copy)]
pub struct PointerRun {
    /// The file.
    number: u16,
    /// The index of the first of these data blocks, and how many they are.
    first: u32,
    len: u32,
    /// The place of the pointer to the first of them.
    place: u32,
    /// All numbers of the block of pointers.
    pointers: Pointers,
}

impl PointerRun {
    /// Whether the pointer to a data block of a file is here.
    fn has(&self, number: u16, index: u32) -> bool
        ensures yes { IsTrue result → IsInRun self.now number index }
    {
        self.number == number && self.first <= index && index - self.first < self.len
    }

    /// The pointer to a data block of the file.
    fn pointer(&self, index: u32) -> u32
        requires { self.now.first ≤ index }
        ensures { result ≡ pointer_in self.now index }
    {
        let place = self.place as usize + (index - self.first) as usize;
        match self.pointers.get(place) {
            Some(pointer) => *pointer,
            None => 0,
        }
    }

    /// Where the data blocks end to which the pointers are, at most at an index.
    fn end(&self, most: u32) -> u32
        ensures { result ≡ min (self.now.first + self.now.len) most }
    {
        let end = u64::from(self.first) + u64::from(self.len);
        end.min(u64::from(most)) as u32
    }

    /// How many pointers lead to a block, from one index on to another.
    fn count(&self, from: u32, to: u32) -> u32
        requires first { self.now.first ≤ from }
        requires order { from ≤ to }
        ensures few { result ≤ to - from }
        ensures value { blocks_in (pointer_in self.now) from to ≡ result }
    {
        let mut count = 0;
        for index in from..to {
            count += u32::from(self.pointer(index) != 0);
        }
        count
    }
}

/// Whether a block should be in memory, and isn't.
fn is_lacking(memory: &LogMemory, key: BlockKey, address: u32) -> bool
    ensures inside { IsTrue result → address ≡ 1 }
    ensures none { IsTrue result → blocks_of memory.now.dirty (entry_of key) ≡ None }
{
    if address != IN_MEMORY {
        return false;
    }
    match memory.dirty.block(key) {
        Some(_) => false,
        None => true,
    }
}

/// The pointers of the inode of a file that is there.
fn read_inode_run<D: SectorDevice>(
    device: &mut CachedDevice<D>,
    memory: &LogMemory,
    number: u16,
    address: u32,
) -> Result<PointerRun, DeviceFault>
    requires inode { IsInodeAt memory.now number address }
    ensures read { IfOk result (IsRunOf (D.state device.new) memory.now) }
    ensures from { IfOk result (λ run. (index : ℕ) → 0 ≤ index → index < DIRECT_BLOCKS
        → IsInRun run number index) }
    ensures looks { OnlyLooks (D.state device.old) (D.state device.new) memory.now result }
{
    let inode = BlockKey::inode(number);
    if is_lacking(memory, inode, address) {
        return Err(DeviceFault);
    }
    match present_pointers(device, &memory.dirty, inode, address) {
        Ok(pointers) => Ok(PointerRun {
            number,
            first: 0,
            len: DIRECT_BLOCKS,
            place: FIRST_POINTER as u32,
            pointers,
        }),
        Err(_) => Err(DeviceFault),
    }
}

/// The pointers of a leaf of a file that is there; zeros where there is no leaf.
fn read_leaf_run<D: SectorDevice>(
    device: &mut CachedDevice<D>,
    memory: &LogMemory,
    number: u16,
    address: u32,
    leaf: u32,
) -> Result<PointerRun, DeviceFault>
    requires inode { IsInodeAt memory.now number address }
    requires leaf { leaf ≤ LAST_LEAF }
    ensures read { IfOk result (IsRunOf (D.state device.new) memory.now) }
    ensures from { IfOk result (λ run. (index : ℕ) → DIRECT_BLOCKS + BLOCK_POINTERS * leaf ≤ index
        → index < FIRST_DOUBLE + BLOCK_POINTERS * leaf → IsInRun run number index) }
    ensures looks { OnlyLooks (D.state device.old) (D.state device.new) memory.now result }
{
    let inode = BlockKey::inode(number);
    let first = present_word(device, memory, inode, address, first_of_leaf(leaf))?;
    match leaf_pointers(device, &memory.dirty, number, first, leaf) {
        Ok(pointers) => Ok(PointerRun {
            number,
            first: DIRECT_BLOCKS + BLOCK_POINTERS * leaf,
            len: BLOCK_POINTERS,
            place: 0,
            pointers,
        }),
        Err(_) => Err(DeviceFault),
    }
}

/// The run that has the pointer to a data block of a file that is there.
fn read_run<D: SectorDevice>(
    device: &mut CachedDevice<D>,
    memory: &LogMemory,
    number: u16,
    address: u32,
    index: u32,
) -> Result<PointerRun, DeviceFault>
    requires inode { IsInodeAt memory.now number address }
    requires index { index < FILE_BLOCKS }
    ensures read { IfOk result (IsRunOf (D.state device.new) memory.now) }
    ensures from { IfOk result (λ run. IsInRun run number index) }
    ensures looks { OnlyLooks (D.state device.old) (D.state device.new) memory.now result }
{
    if index < DIRECT_BLOCKS {
        return read_inode_run(device, memory, number, address);
    }
    let leaf = (index - DIRECT_BLOCKS) / BLOCK_POINTERS;
    read_leaf_run(device, memory, number, address, leaf)
}

/// The run that has the pointer to a data block of a file; none where the file isn't there, or can't
/// have that block.
fn find_run<D: SectorDevice>(
    device: &mut CachedDevice<D>,
    memory: &LogMemory,
    number: u16,
    index: u32,
) -> Result<Option<PointerRun>, DeviceFault>
    requires number { number < FILE_NUMBERS }
    ensures read { IfOk result (KeepsRun (D.state device.new) memory.now) }
    ensures from { IfOk result (λ found. IfSome found (λ run. IsInRun run number index)) }
    ensures none { IfOk result (λ found. IfNone found (HasNoWay memory.now number index)) }
    ensures looks { OnlyLooks (D.state device.old) (D.state device.new) memory.now result }
{
    if index > LAST_BLOCK {
        return Ok(None);
    }
    let address = inode_pointer(memory, number);
    if address == 0 {
        return Ok(None);
    }
    let run = read_run(device, memory, number, address, index)?;
    Ok(Some(run))
}

/// Whether the pointer to a data block of a file is in the run that is kept.
fn is_kept_for(kept: &Option<PointerRun>, number: u16, index: u32) -> bool
    ensures { IsTrue result → IsKeptFor kept.now number index }
{
    match kept {
        Some(run) => run.has(number, index),
        None => false,
    }
}

/// Keeps the run that has the pointer to a data block of a file, if there is one: it is read where
/// another is kept, or none.
fn keep_run<D: SectorDevice>(
    device: &mut CachedDevice<D>,
    memory: &LogMemory,
    kept: &mut Option<PointerRun>,
    number: u16,
    index: u32,
) -> Result<bool, DeviceFault>
    requires number { number < FILE_NUMBERS }
    requires kept { KeepsRun (D.state device.old) memory.now kept.old }
    ensures kept { KeepsRun (D.state device.new) memory.now kept.new }
    ensures from { IfOk result (λ found. IsTrue found → IsKeptFor kept.new number index) }
    ensures none { IfOk result (λ found. IsFalse found → HasNoWay memory.now number index) }
    ensures looks { OnlyLooks (D.state device.old) (D.state device.new) memory.now result }
{
    if is_kept_for(kept, number, index) {
        return Ok(true);
    }
    let found = find_run(device, memory, number, index)?;
    let Some(run) = found else {
        return Ok(false);
    };
    *kept = Some(run);
    Ok(true)
}

/// The pointer to a data block in the run that is kept.
fn kept_pointer(kept: &Option<PointerRun>, number: u16, index: u32) -> u32
    requires { IsKeptFor kept.now number index }
    ensures { IfSome kept.now (λ run. result ≡ pointer_in run index) }
{
    match kept {
        Some(run) => run.pointer(index),
        None => 0,
    }
}

/// The pointer to a data block of a file: 0 where none is stored, `IN_MEMORY` for one in memory,
/// else its address. It is found in the run that is kept, or else alone.
///
/// # Errors
///
/// Where a block on the way can't be read.
pub fn find_block<D: SectorDevice>(
    device: &mut CachedDevice<D>,
    memory: &LogMemory,
    kept: &Option<PointerRun>,
    number: u16,
    index: u32,
) -> Result<u32, DeviceFault>
    requires number { number < FILE_NUMBERS }
    requires kept { KeepsRun (D.state device.old) memory.now kept.now }
    ensures kept { KeepsRun (D.state device.new) memory.now kept.now }
    ensures finds { FindsPointer (D.state device.old) (D.state device.new) memory.now number index
        result }
{
    if is_kept_for(kept, number, index) {
        return Ok(kept_pointer(kept, number, index));
    }
    locate_block(device, memory, number, index)
}

/// The pointer to a data block of a file: 0 where none is stored, `IN_MEMORY` for one in memory,
/// else its address. The run that has it is kept.
fn find_by_run<D: SectorDevice>(
    device: &mut CachedDevice<D>,
    memory: &LogMemory,
    kept: &mut Option<PointerRun>,
    number: u16,
    index: u32,
) -> Result<u32, DeviceFault>
    requires number { number < FILE_NUMBERS }
    requires kept { KeepsRun (D.state device.old) memory.now kept.old }
    ensures kept { KeepsRun (D.state device.new) memory.now kept.new }
    ensures finds { FindsPointer (D.state device.old) (D.state device.new) memory.now number index
        result }
{
    if !keep_run(device, memory, kept, number, index)? {
        return Ok(0);
    }
    Ok(kept_pointer(kept, number, index))
}

/// Whether a block of a file is stored, and its bytes; zeros where it isn't.
///
/// # Errors
///
/// Where the block, or one on the way to it, can't be read.
pub fn read_block<D: SectorDevice>(
    device: &mut CachedDevice<D>,
    memory: &LogMemory,
    kept: &mut Option<PointerRun>,
    number: u16,
    index: u32,
    out: &mut [u8; 512],
) -> Result<bool, DeviceFault>
    requires number { number < FILE_NUMBERS }
    requires kept { KeepsRun (D.state device.old) memory.now kept.old }
    ensures kept { KeepsRun (D.state device.new) memory.now kept.new }
    ensures answer { IfOk result (AnswersBlock (D.state device.old) (D.state device.new) memory.now
        number index out.new) }
    ensures zeros { IfOk result (λ found. IsFalse found → out.new ≡ zeros SECTOR_LEN) }
    ensures looks { OnlyLooks (D.state device.old) (D.state device.new) memory.now result }
{
    let address = find_by_run(device, memory, kept, number, index)?;
    if address == 0 {
        clear(out);
        return Ok(false);
    }
    let key = BlockKey::data(number, index);
    read_present(device, memory, key, address, true, out)?;
    Ok(true)
}

#[tactic(auto, unfolding(lfs_model::specs::Fields::zeros))]
fn clear(out: &mut [u8; 512])
    ensures { out.new ≡ zeros SECTOR_LEN }
{
    *out = [0; 512];
}

/// How many pointers of the run that is kept lead to a block, from one index on to another or to
/// where the run ends; and where that is.
fn count_kept(kept: &Option<PointerRun>, number: u16, from: u32, to: u32) -> (u32, u32)
    requires kept { IsKeptFor kept.now number from }
    requires order { from < to }
    ensures further { (from < result.1) × (result.1 ≤ to) }
    ensures few { result.0 ≤ result.1 - from }
    ensures value { IfSome kept.now (CountsRun from result.1 result.0) }
{
    match kept {
        Some(run) => {
            let end = run.end(to);
            (run.count(from, end), end)
        }
        None => (0, to),
    }
}

/// How many data blocks of a file are stored from one index on to another, or to where the run of
/// pointers ends that has the first; and where that is.
fn count_part<D: SectorDevice>(
    device: &mut CachedDevice<D>,
    memory: &LogMemory,
    kept: &mut Option<PointerRun>,
    number: u16,
    from: u32,
    to: u32,
) -> Result<(u32, u32), DeviceFault>
    requires number { number < FILE_NUMBERS }
    requires order { from < to }
    requires kept { KeepsRun (D.state device.old) memory.now kept.old }
    ensures kept { KeepsRun (D.state device.new) memory.now kept.new }
    ensures further { IfOk result (λ part. (from < part.1) × (part.1 ≤ to)) }
    ensures few { IfOk result (λ part. part.0 ≤ part.1 - from) }
    ensures answer { IfOk result (λ part. AnswersCount (D.state device.old) (D.state device.new)
        memory.now number from part.1 part.0) }
    ensures looks { OnlyLooks (D.state device.old) (D.state device.new) memory.now result }
{
    if !keep_run(device, memory, kept, number, from)? {
        return Ok((0, to));
    }
    Ok(count_kept(kept, number, from, to))
}

/// How many data blocks of a file are stored at the indices from one on to another. Each block of
/// pointers above them is looked at once.
///
/// # Errors
///
/// As those of `find_block`.
pub fn count_blocks<D: SectorDevice>(
    device: &mut CachedDevice<D>,
    memory: &LogMemory,
    kept: &mut Option<PointerRun>,
    number: u16,
    from: u32,
    to: u32,
) -> Result<u32, DeviceFault>
    requires number { number < FILE_NUMBERS }
    requires order { from ≤ to }
    requires kept { KeepsRun (D.state device.old) memory.now kept.old }
    ensures kept { KeepsRun (D.state device.new) memory.now kept.new }
    ensures few { IfOk result (λ count. count ≤ to - from) }
    ensures answer { IfOk result (AnswersCount (D.state device.old) (D.state device.new)
        memory.now number from to) }
    ensures looks { OnlyLooks (D.state device.old) (D.state device.new) memory.now result }
{
    let mut at = from;
    let mut count = 0;
    while at < to {
        let part = count_part(device, memory, kept, number, at, to)?;
        count += part.0;
        at = part.1;
    }
    Ok(count)
}
