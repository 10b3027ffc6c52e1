//! Blocks come into memory so that they may change.
ghost use Rattle.std.specs.Prelude.{◌≡◌, ◌<◌, ◌≤◌, ◌⊎◌, ◌↔◌, ◌/◌, ℕ, false, length, None, IsTrue, IsFalse, OnOk, OnErr, IfOk};
ghost use Rattle.lfs_model.specs.Entry.{Inode};
ghost use Rattle.lfs_model.specs.Memory.{parent};
ghost use Rattle.lfs_model.specs.Running.{IsSet};
ghost use Rattle.lfs_model.specs.Staging.{IsAtAddress};
ghost use Rattle.lfs_inodes.specs.Key.{entry_of};
ghost use Rattle.lfs_inodes.specs.Blocks.{blocks_of};
ghost use Rattle.lfs_inodes.specs.MapValue.{address_in, is_hidden_in, block_in};
ghost use Rattle.lfs_memory.specs.Memory.{IsMemory, tables_of};
ghost use Rattle.lfs_memory.specs.Moving.{MovesIn};
ghost use Rattle.lfs_memory.specs.Lifting.{EndsLifting, IsInMemory, Prepares, Gathers, IsCountedAbove, Brings, MapLifts, IsMapLost, IsAbsent};

use crate::changing::pointer_to;
use crate::memory::LogMemory;
use crate::present::inode_pointer;
use lfs_cache::CachedDevice;
use lfs_device::{DeviceFault, SectorDevice};
use lfs_inodes::{BlockKey, IN_MEMORY, InodeMap};
use lfs_layout::segment_of;
use lfs_model::BlockKind;
use lfs_model::limits::{BLOCK_FILES, CHECKPOINT_SLOTS, FILE_NUMBERS, MAP_BLOCKS};
use lfs_segments::Usage;

/// Whether a block at this address is counted, among those that live in its segment or those that
/// hold it.
pub fn is_counted(usage: &Usage, address: u32, lives: bool) -> bool
    ensures { IsTrue result ↔ IsCountedAbove usage.now address lives }
{
    if address < CHECKPOINT_SLOTS {
        return false;
    }
    let segment = segment_of(address);
    if segment >= usage.segments() {
        return false;
    }
    let state = usage.state(segment);
    if lives {
        state.live != 0
    } else {
        state.held != 0
    }
}

/// A block of the inode map will be written.
///
/// # Errors
///
/// Where it isn't counted at its address.
pub fn lift_map(memory: &mut LogMemory, index: usize) -> Result<(), DeviceFault>
    requires index { index < MAP_BLOCKS }
    ensures done { OnOk result (MapLifts memory.old memory.new index) }
    ensures same { OnErr result (memory.new ≡ memory.old) }
    ensures lost { OnErr result (IsMapLost memory.old index) }
    ensures last { memory.new.usage.last ≡ memory.old.usage.last }
{
    let address = memory.map.block_address(index);
    if address == IN_MEMORY {
        return Ok(());
    }
    if address >= CHECKPOINT_SLOTS {
        if !is_counted(&memory.usage, address, true) {
            return Err(DeviceFault);
        }
        memory.usage.lift(segment_of(address), true);
    }
    memory.map.set_block_address(index, IN_MEMORY);
    Ok(())
}

/// The block of the inode map that has the file's inode will be written, if the file has a name.
///
/// # Errors
///
/// As those of `lift_map`.
pub(crate) fn lift_map_of(memory: &mut LogMemory, number: u16) -> Result<(), DeviceFault>
    requires number { number < FILE_NUMBERS }
    ensures done { OnOk result ((memory.new ≡ memory.old)
        ⊎ MapLifts memory.old memory.new (number / BLOCK_FILES)) }
    ensures mapped { OnOk result (is_hidden_in memory.new.map number ≡ false
        → block_in memory.new.map (number / BLOCK_FILES) ≡ 1) }
    ensures addresses { OnOk result (memory.new.map.addresses ≡ memory.old.map.addresses) }
    ensures dirty { OnOk result (memory.new.dirty ≡ memory.old.dirty) }
    ensures same { OnErr result (memory.new ≡ memory.old) }
    ensures lost { OnErr result (IsMapLost memory.old (number / BLOCK_FILES)) }
    ensures last { memory.new.usage.last ≡ memory.old.usage.last }
{
    if memory.map.is_hidden(number) {
        return Ok(());
    }
    lift_map(memory, number as usize / BLOCK_FILES as usize)
}

/// A block comes into memory in the place of the one at its address, which isn't counted there any
/// more.
pub fn bring(memory: &mut LogMemory, key: BlockKey, address: u32, lives: bool, bytes: &[u8; 512])
    requires counted { IsCountedAbove memory.old.usage address lives }
    requires room { length memory.old.dirty.blocks < memory.old.dirty.capacity.limit }
    ensures { Brings memory.old memory.new (entry_of key) address lives bytes.now }
{
    memory.usage.lift(segment_of(address), lives);
    memory.dirty.fetch(key, bytes);
    mark(&mut memory.map, key);
}

/// The inode, if the key is one's, is in memory.
fn mark(map: &mut InodeMap, key: BlockKey)
    ensures hidden { map.new.hidden ≡ map.old.hidden }
    ensures blocks { map.new.blocks ≡ map.old.blocks }
    ensures inode { (n : ℕ) → entry_of key ≡ Inode n
        → IsSet (address_in map.old) (address_in map.new) n 1 }
    ensures others { ((n : ℕ) → entry_of key ≡ Inode n → ⊥) → map.new ≡ map.old }
{
    match key.kind() {
        BlockKind::Inode => map.set_address(key.file(), IN_MEMORY),
        _ => {}
    }
}

/// Why a block doesn't come into memory.
#[derive(Clone, Copy, Debug, PartialEq, Eq)]
pub enum LiftFault {
    /// Memory has no room for another block.
    Full,
    /// A block can't be read, or isn't counted at its address.
    Device,
}

/// Brings a block of a file into memory, whose address its parent's block in memory gives, or the
/// inode map.
///
/// # Errors
///
/// Then memory is as it was.
pub fn lift<D: SectorDevice>(
    device: &mut CachedDevice<D>,
    memory: &mut LogMemory,
    key: BlockKey,
    address: u32,
) -> Result<(), LiftFault>
    requires memory { IsMemory memory.old }
    requires at { IsAtAddress (blocks_of memory.old.dirty)
        (tables_of memory.old) (entry_of key) address }
    requires above { 2 ≤ address }
    requires mapped { (n : ℕ) → entry_of key ≡ Inode n → is_hidden_in memory.old.map n ≡ false
        → block_in memory.old.map (n / BLOCK_FILES) ≡ 1 }
    ensures prepares { Prepares (D.state device.old) (D.state device.new) memory.old memory.new 1 }
    ensures gathers { Gathers (D.state device.old) (D.state device.new) memory.old memory.new }
    ensures comes { OnOk result (MovesIn (D.state device.old) (D.state device.new)
        memory.old memory.new (entry_of key)) }
    ensures inside { OnOk result (IsInMemory memory.new (entry_of key)) }
    ensures same { OnErr result (memory.new ≡ memory.old) }
    ensures ends { EndsLifting (D.state device.old) (D.state device.new) memory.old memory.new
        result }
    ensures last { memory.new.usage.last ≡ memory.old.usage.last }
{
    if memory.dirty.len() >= memory.dirty.capacity() {
        return Err(LiftFault::Full);
    }
    let lives = !memory.map.is_hidden(key.file());
    if !is_counted(&memory.usage, address, lives) {
        return Err(LiftFault::Device);
    }
    if address >= device.sectors() {
        return Err(LiftFault::Device);
    }
    match device.read_ref(address) {
        Ok(block) => {
            bring(memory, key, address, lives, block);
            Ok(())
        }
        Err(_) => Err(LiftFault::Device),
    }
}

/// Whether a block is in memory.
pub fn has_block(memory: &LogMemory, key: BlockKey) -> bool
    ensures yes { IsTrue result → IsInMemory memory.now (entry_of key) }
    ensures no { IsFalse result → blocks_of memory.now.dirty (entry_of key) ≡ None }
{
    memory.dirty.block(key).is_some()
}

/// Brings the inode of a file into memory, if the file is there.
///
/// # Errors
///
/// As those of `lift`; the inode map's block may be one that will be written then.
pub fn lift_inode<D: SectorDevice>(
    device: &mut CachedDevice<D>,
    memory: &mut LogMemory,
    number: u16,
) -> Result<bool, LiftFault>
    requires memory { IsMemory memory.old }
    requires number { number < FILE_NUMBERS }
    ensures prepares { Prepares (D.state device.old) (D.state device.new) memory.old memory.new 1 }
    ensures gathers { Gathers (D.state device.old) (D.state device.new) memory.old memory.new }
    ensures inside { IfOk result (λ found. IsTrue found
        → (1 ≤ number) × IsInMemory memory.new (Inode number)) }
    ensures comes { IfOk result (λ found. IsTrue found → (memory.new ≡ memory.old)
        ⊎ MovesIn (D.state device.old) (D.state device.new) memory.old memory.new
        (Inode number)) }
    ensures none { IfOk result (λ found. IsFalse found
        → (number ≡ 0) ⊎ (address_in memory.old.map number ≡ 0)) }
    ensures same { IfOk result (λ found. IsFalse found → memory.new ≡ memory.old) }
    ensures absent { IfOk result (λ found. IsFalse found
        → IsAbsent (D.state device.old) (D.state device.new) memory.old number) }
    ensures kept { OnErr result (memory.new.dirty ≡ memory.old.dirty) }
    ensures ends { EndsLifting (D.state device.old) (D.state device.new) memory.old memory.new
        result }
    ensures last { memory.new.usage.last ≡ memory.old.usage.last }
{
    let address = inode_pointer(memory, number);
    if address == 0 {
        return Ok(false);
    }
    let key = BlockKey::inode(number);
    if address == IN_MEMORY {
        if has_block(memory, key) {
            return Ok(true);
        }
        return Err(LiftFault::Device);
    }
    match lift_map_of(memory, number) {
        Ok(()) => {}
        Err(_) => return Err(LiftFault::Device),
    }
    match lift(device, memory, key, address) {
        Ok(()) => Ok(true),
        Err(fault) => Err(fault),
    }
}

/// The pointer to a block of a file whose parent is in memory.
fn known_pointer(memory: &LogMemory, key: BlockKey) -> u32
    requires below { parent (entry_of key) ≡ entry_of key → ⊥ }
    requires above { IsInMemory memory.now (parent (entry_of key)) }
    ensures { IsAtAddress (blocks_of memory.now.dirty)
        (tables_of memory.now) (entry_of key) result }
{
    pointer_to(&memory.dirty, key).unwrap()
}

/// Brings a block of a file into memory, if it is stored; its parent is there.
///
/// # Errors
///
/// As those of `lift`: then memory is as it was.
pub fn lift_child<D: SectorDevice>(
    device: &mut CachedDevice<D>,
    memory: &mut LogMemory,
    key: BlockKey,
) -> Result<bool, LiftFault>
    requires memory { IsMemory memory.old }
    requires below { parent (entry_of key) ≡ entry_of key → ⊥ }
    requires above { IsInMemory memory.old (parent (entry_of key)) }
    ensures prepares { Prepares (D.state device.old) (D.state device.new) memory.old memory.new 1 }
    ensures gathers { Gathers (D.state device.old) (D.state device.new) memory.old memory.new }
    ensures comes { IfOk result (λ found. IsTrue found → (memory.new ≡ memory.old)
        ⊎ MovesIn (D.state device.old) (D.state device.new) memory.old memory.new
        (entry_of key)) }
    ensures inside { IfOk result (λ found. IsTrue found → IsInMemory memory.new (entry_of key)) }
    ensures none { IfOk result (λ found. IsFalse found
        → IsAtAddress (blocks_of memory.new.dirty) (tables_of memory.new) (entry_of key) 0) }
    ensures same { IfOk result (λ found. IsFalse found → memory.new ≡ memory.old) }
    ensures kept { OnErr result (memory.new ≡ memory.old) }
    ensures ends { EndsLifting (D.state device.old) (D.state device.new) memory.old memory.new
        result }
    ensures last { memory.new.usage.last ≡ memory.old.usage.last }
{
    let address = known_pointer(memory, key);
    if address == 0 {
        return Ok(false);
    }
    if address == IN_MEMORY {
        if has_block(memory, key) {
            return Ok(true);
        }
        return Err(LiftFault::Device);
    }
    match lift(device, memory, key, address) {
        Ok(()) => Ok(true),
        Err(fault) => Err(fault),
    }
}
