//! Blocks of segments come into memory one by one, to be written elsewhere.
ghost use Rattle.std.specs.Prelude.{◌≡◌, ◌<◌, ◌≤◌, ◌⊎◌, ◌+◌, true, None, length, OnOk, OnErr, IfOk, IsErrOf, IsTrue, IsFalse};
ghost use Rattle.lfs_model.specs.Content.{block};
ghost use Rattle.lfs_model.specs.Device.{cell_at};
ghost use Rattle.lfs_model.specs.Entry as entry;
ghost use Rattle.lfs_model.specs.Memory.{parent};
ghost use Rattle.lfs_model.specs.Summary.{IsPlaced};
ghost use Rattle.lfs_memory.specs.Lifting.{IsCountedAbove, IsInMemory, IsMapLost, MapLifts};
ghost use Rattle.lfs_memory.specs.Memory.{IsMemory};
ghost use Rattle.lfs_memory.specs.Moving.{MovesIn};
ghost use Rattle.lfs_memory.specs.Present.{Looks};
ghost use Rattle.lfs_memory.specs.inodes.Key.{entry_of};
ghost use Rattle.lfs_memory.specs.inodes.MapValue.{block_in};
ghost use Rattle.lfs_memory.specs.segments.Table.{address_of};
ghost use Rattle.lfs_log.specs.Relocating.{BringsOne, EndsBringing, IsInOrder, IsUsageLost, UsageLeaves, UsageLeavesIn};

use lfs_cache::CachedDevice;
use lfs_device::{DeviceFault, SectorDevice};
use lfs_layout::{BlockName, segment_of};
use lfs_memory::LogMemory;
use lfs_memory::inodes::{BlockKey, IN_MEMORY};
use lfs_memory::lifting::{LiftFault, has_block, is_counted, lift_child, lift_inode, lift_map};
use lfs_memory::segments::Usage;
use lfs_model::BlockKind;
use lfs_model::limits::{CHECKPOINT_SLOTS, MAP_BLOCKS, USAGE_BLOCKS};

/// The blocks in memory stand in the order of their keys: a law of their table.
pub fn are_in_order(memory: &LogMemory)
    ensures { IsInOrder memory.now.dirty }
{
    let _count = memory.dirty.len();
}

/// Brings the inode of this key into memory, if the file is there: whether it is there then.
///
/// # Errors
///
/// As those of `lift`.
pub(crate) fn bring_inode<D: SectorDevice>(
    device: &mut CachedDevice<D>,
    memory: &mut LogMemory,
    key: BlockKey,
) -> Result<bool, LiftFault>
    requires top { parent (entry_of key) ≡ entry_of key }
    requires memory { IsMemory memory.old }
    ensures brings { EndsBringing (D.state device.old) (D.state device.new) memory.old memory.new
        (entry_of key) result }
    ensures came { BringsOne memory.old memory.new (entry_of key) }
    ensures lacks { IsErrOf result LiftFault.Full → IsInMemory memory.new (entry_of key) → ⊥ }
    ensures comes { IfOk result (λ found. IsTrue found → (memory.new ≡ memory.old)
        ⊎ MovesIn (D.state device.old) (D.state device.new) memory.old memory.new
        (entry_of key)) }
    ensures last { memory.new.usage.last ≡ memory.old.usage.last }
    ensures more { length memory.new.dirty.blocks ≤ length memory.old.dirty.blocks + 1 }
    ensures same { IfOk result (λ found. IsFalse found → memory.new ≡ memory.old) }
    ensures kept { OnErr result (memory.new.dirty ≡ memory.old.dirty) }
{
    if has_block(memory, key) {
        return Ok(true);
    }
    are_in_order(memory);
    match lift_inode(device, memory, key.file()) {
        Ok(true) => {
            are_in_order(memory);
            Ok(true)
        }
        Ok(false) => Ok(false),
        Err(fault) => Err(fault),
    }
}

/// Brings a block of a file into memory, if it is stored: whether it is there then. The block above
/// it is there.
///
/// # Errors
///
/// As those of `lift`.
pub(crate) fn bring_child<D: SectorDevice>(
    device: &mut CachedDevice<D>,
    memory: &mut LogMemory,
    key: BlockKey,
) -> Result<bool, LiftFault>
    requires below { parent (entry_of key) ≡ entry_of key → ⊥ }
    requires above { IsInMemory memory.old (parent (entry_of key)) }
    requires memory { IsMemory memory.old }
    ensures brings { EndsBringing (D.state device.old) (D.state device.new) memory.old memory.new
        (entry_of key) result }
    ensures came { BringsOne memory.old memory.new (entry_of key) }
    ensures lacks { IsErrOf result LiftFault.Full → IsInMemory memory.new (entry_of key) → ⊥ }
    ensures comes { IfOk result (λ found. IsTrue found → (memory.new ≡ memory.old)
        ⊎ MovesIn (D.state device.old) (D.state device.new) memory.old memory.new
        (entry_of key)) }
    ensures last { memory.new.usage.last ≡ memory.old.usage.last }
    ensures more { length memory.new.dirty.blocks ≤ length memory.old.dirty.blocks + 1 }
    ensures same { IfOk result (λ found. IsFalse found → memory.new ≡ memory.old) }
    ensures kept { OnErr result (memory.new.dirty ≡ memory.old.dirty) }
{
    if has_block(memory, key) {
        return Ok(true);
    }
    are_in_order(memory);
    match lift_child(device, memory, key) {
        Ok(true) => {
            are_in_order(memory);
            Ok(true)
        }
        Ok(false) => Ok(false),
        Err(fault) => Err(fault),
    }
}

/// A block of the inode map will be written, if it is at this address that it stands.
///
/// # Errors
///
/// Where it isn't counted there.
pub(crate) fn relocate_map(
    memory: &mut LogMemory,
    index: u32,
    address: u32,
) -> Result<(), DeviceFault>
    requires index { index < MAP_BLOCKS }
    requires above { CHECKPOINT_SLOTS ≤ address }
    ensures done { OnOk result ((memory.new ≡ memory.old) ⊎ MapLifts memory.old memory.new index) }
    ensures left { OnOk result (block_in memory.new.map index ≡ address → ⊥) }
    ensures same { OnErr result (memory.new ≡ memory.old) }
    ensures lost { OnErr result (IsMapLost memory.old index) }
{
    if memory.map.block_address(index as usize) != address {
        return Ok(());
    }
    lift_map(memory, index as usize)
}

/// A usage block leaves its address, to be written elsewhere.
///
/// # Errors
///
/// Where it isn't counted there.
fn leave_usage(usage: &mut Usage, index: u32, address: u32) -> Result<(), DeviceFault>
    requires index { index < USAGE_BLOCKS }
    requires above { CHECKPOINT_SLOTS ≤ address }
    requires at { address_of usage.old index ≡ address }
    ensures left { OnOk result (UsageLeaves usage.old usage.new index) }
    ensures same { OnErr result (usage.new ≡ usage.old) }
    ensures lost { OnErr result (IsCountedAbove usage.old address true → ⊥) }
{
    if !is_counted(usage, address, true) {
        return Err(DeviceFault);
    }
    usage.lift(segment_of(address), true);
    usage.set_block(index, IN_MEMORY, true);
    Ok(())
}

/// A usage block will be written elsewhere, if it is at this address that it stands.
///
/// # Errors
///
/// Where it isn't counted there.
pub(crate) fn relocate_usage(
    memory: &mut LogMemory,
    index: u32,
    address: u32,
) -> Result<(), DeviceFault>
    requires index { index < USAGE_BLOCKS }
    requires above { CHECKPOINT_SLOTS ≤ address }
    ensures done { OnOk result ((memory.new ≡ memory.old)
        ⊎ UsageLeavesIn memory.old memory.new index) }
    ensures left { OnOk result (address_of memory.new.usage index ≡ address → ⊥) }
    ensures same { OnErr result (memory.new ≡ memory.old) }
    ensures lost { OnErr result (IsUsageLost memory.old index) }
{
    if memory.usage.block(index).address != address {
        return Ok(());
    }
    leave_usage(&mut memory.usage, index, address)?;
    Ok(())
}

/// The key of a block of a file.
#[tactic(auto, unfolding(lfs_model::specs::Summary::IsPlaced))]
pub(crate) fn key_of(name: BlockName) -> BlockKey
    requires placed { IsPlaced name.kind name.file name.index }
    requires file { 1 ≤ name.file }
    ensures { entry_of result ≡ entry.entry_of name }
{
    match name.kind {
        BlockKind::Data => BlockKey::data(name.file, name.index),
        BlockKind::Leaf => BlockKey::leaf(name.file, name.index),
        BlockKind::Double => BlockKey::double(name.file),
        _ => BlockKey::inode(name.file),
    }
}

/// Reads a sector of a segment.
///
/// # Errors
///
/// Where it can't be read, or a call of the device failed.
pub(crate) fn read_sector<D: SectorDevice>(
    device: &mut CachedDevice<D>,
    address: u32,
    out: &mut [u8; 512],
) -> Result<(), DeviceFault>
    requires some { 1 ≤ address }
    requires inside { address < (D.state device.old).size }
    ensures read { OnOk result ((D.state device.new).keeps_model
        → block (D.state device.old).content address ≡ out.new) }
    ensures unread { OnErr result ((D.state device.new).keeps_model
        → (D.state device.old).failures < (D.state device.new).failures
        ⊎ (cell_at (D.state device.old).content address ≡ None)) }
    ensures no_failure { OnOk result ((D.state device.new).failures
        ≡ (D.state device.old).failures) }
    ensures looks { Looks (D.state device.old) (D.state device.new) }
{
    match device.read(address, out) {
        Ok(()) => Ok(()),
        Err(_) => Err(DeviceFault),
    }
}
