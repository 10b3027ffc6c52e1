//! What a batch of changes needs comes into memory, so that the changes themselves call no device.
ghost use Rattle.std.specs.Prelude.{◌≡◌, ◌<◌, ◌≤◌, ◌⊎◌, ◌+◌, ◌/◌, length, OnOk, OnErr, IsErrOf, IsTrue, IsFalse};
ghost use Rattle.lfs_model.specs.Memory.{parent, IsPointers};
ghost use Rattle.lfs_model.specs.Entry.{Leaf, Inode};
ghost use Rattle.lfs_inodes.specs.MapValue.{block_in};
ghost use Rattle.lfs_inodes.specs.Key.{entry_of};
ghost use Rattle.lfs_memory.specs.Lifting.{EndsLifting, IsInMemory, IsMapLost, MapLifts, Prepares};
ghost use Rattle.lfs_memory.specs.Preparing.{HasParent, AreBlocksReady, IsHeaderReady, AreHeadersReady, LacksRoom, AreExcusedWithin, EndsOnWay, ways};
ghost use Rattle.lfs_memory.specs.Memory.{IsMemory};
ghost use Rattle.lfs_memory.specs.Numbers.{IsFileNumber};
ghost use Rattle.lfs_memory.specs.Present.{FailsFromDevice};

use crate::batch::{BlockEdit, HeaderEdit};
use crate::changing::{grow, pointer_to};
use crate::lifting::{LiftFault, lift_child, lift_inode, lift_map};
use crate::memory::LogMemory;
use lfs_cache::CachedDevice;
use lfs_device::{DeviceFault, SectorDevice};
use lfs_inodes::BlockKey;
use lfs_model::limits::{BLOCK_FILES, BLOCK_POINTERS, DIRECT_BLOCKS, LAST_LEAF, LAST_NUMBER};

/// A block of pointers of a file is in memory after this, an empty one where it isn't stored. The
/// block above it is there.
///
/// # Errors
///
/// As those of `lift_child`.
fn prepare_pointers<D: SectorDevice>(
    device: &mut CachedDevice<D>,
    memory: &mut LogMemory,
    key: BlockKey,
) -> Result<(), LiftFault>
    requires memory { IsMemory memory.old }
    requires pointers { IsPointers (entry_of key) }
    requires above { IsInMemory memory.old (parent (entry_of key)) }
    ensures prepares { Prepares (D.state device.old) (D.state device.new) memory.old memory.new 1 }
    ensures inside { OnOk result (IsInMemory memory.new (entry_of key)) }
    ensures same { OnErr result (memory.new ≡ memory.old) }
    ensures ends { EndsLifting (D.state device.old) (D.state device.new) memory.old memory.new
        result }
{
    match lift_child(device, memory, key) {
        Ok(true) => return Ok(()),
        Ok(false) => {}
        Err(fault) => return Err(fault),
    }
    if memory.dirty.len() >= memory.dirty.capacity() {
        return Err(LiftFault::Full);
    }
    grow(memory, key);
    Ok(())
}

/// A leaf of pointers of a file is in memory after this, and the double root above it. The inode is
/// there.
///
/// # Errors
///
/// As those of `lift_child`.
fn prepare_leaf<D: SectorDevice>(
    device: &mut CachedDevice<D>,
    memory: &mut LogMemory,
    number: u16,
    index: u32,
) -> Result<(), LiftFault>
    requires memory { IsMemory memory.old }
    requires number { IsFileNumber number }
    requires index { index ≤ LAST_LEAF }
    requires above { IsInMemory memory.old (Inode number) }
    ensures prepares { Prepares (D.state device.old) (D.state device.new) memory.old memory.new 2 }
    ensures inside { OnOk result (IsInMemory memory.new (Leaf number index)) }
    ensures short { IsErrOf result LiftFault.Full → LacksRoom memory.old 2 }
    ensures ends { EndsLifting (D.state device.old) (D.state device.new) memory.old memory.new
        result }
{
    let leaf = BlockKey::leaf(number, index);
    if index == 0 {
        return prepare_pointers(device, memory, leaf);
    }
    match prepare_pointers(device, memory, BlockKey::double(number)) {
        Ok(()) => {}
        Err(fault) => return Err(fault),
    }
    prepare_pointers(device, memory, leaf)
}

/// The blocks on the way to a data block of a file are in memory after this, from the inode down.
///
/// # Errors
///
/// As those of `lift_inode`; and where the file isn't there, for a block that its inode doesn't
/// point to.
fn prepare_way<D: SectorDevice>(
    device: &mut CachedDevice<D>,
    memory: &mut LogMemory,
    edit: &BlockEdit,
) -> Result<(), LiftFault>
    requires memory { IsMemory memory.old }
    ensures prepares { Prepares (D.state device.old) (D.state device.new) memory.old memory.new 3 }
    ensures ends { EndsOnWay (D.state device.old) (D.state device.new) memory.old memory.new
        edit.now.number edit.now.index result }
{
    let found = lift_inode(device, memory, edit.number)?;
    if edit.index < DIRECT_BLOCKS {
        return Ok(());
    }
    if !found {
        return Err(LiftFault::Device);
    }
    let leaf = (edit.index - DIRECT_BLOCKS) / BLOCK_POINTERS;
    prepare_leaf(device, memory, edit.number, leaf)
}

/// Whether a data block of a file may change with no call of the device: the block above it is in
/// memory, or will be the inode of a file that isn't there.
fn is_ready(memory: &LogMemory, edit: &BlockEdit) -> bool
    ensures yes { IsTrue result → HasParent memory.now edit.now.number edit.now.index }
    ensures no { IsFalse result → HasParent memory.now edit.now.number edit.now.index → ⊥ }
{
    if pointer_to(&memory.dirty, BlockKey::data(edit.number, edit.index)).is_some() {
        return true;
    }
    edit.index < DIRECT_BLOCKS && memory.map.address(edit.number) == 0
}

/// A data block of a file may change after this with no call of the device. Nothing comes into
/// memory where it may already.
///
/// # Errors
///
/// As those of `lift_inode`; and where the file isn't there, for a block that its inode doesn't
/// point to.
pub fn prepare_block<D: SectorDevice>(
    device: &mut CachedDevice<D>,
    memory: &mut LogMemory,
    edit: &BlockEdit,
) -> Result<(), LiftFault>
    requires memory { IsMemory memory.old }
    ensures prepares { Prepares (D.state device.old) (D.state device.new) memory.old memory.new 3 }
    ensures same { HasParent memory.old edit.now.number edit.now.index → memory.new ≡ memory.old }
    ensures away { OnErr result (HasParent memory.old edit.now.number edit.now.index → ⊥) }
    ensures ends { EndsOnWay (D.state device.old) (D.state device.new) memory.old memory.new
        edit.now.number edit.now.index result }
{
    if is_ready(memory, edit) {
        return Ok(());
    }
    prepare_way(device, memory, edit)
}

/// The block of the inode map that has the file's inode will be written, if the file is to have
/// links.
fn prepare_name(memory: &mut LogMemory, number: u16, links: u32) -> Result<(), DeviceFault>
    requires few { number ≤ LAST_NUMBER }
    ensures done { OnOk result ((memory.new ≡ memory.old)
        ⊎ MapLifts memory.old memory.new (number / BLOCK_FILES)) }
    ensures mapped { OnOk result (0 < links → block_in memory.new.map (number / BLOCK_FILES) ≡ 1) }
    ensures dirty { OnOk result (memory.new.dirty ≡ memory.old.dirty) }
    ensures same { OnErr result (memory.new ≡ memory.old) }
    ensures lost { OnErr result (IsMapLost memory.old (number / BLOCK_FILES)) }
{
    if links == 0 {
        return Ok(());
    }
    lift_map(memory, usize::from(number) / BLOCK_FILES as usize)
}

/// The header of a file, which is to have so many links, may change after this with no call of the
/// device.
///
/// # Errors
///
/// As those of `lift_inode` and `lift_map`.
pub fn prepare_header<D: SectorDevice>(
    device: &mut CachedDevice<D>,
    memory: &mut LogMemory,
    number: u16,
    links: u32,
) -> Result<(), LiftFault>
    requires memory { IsMemory memory.old }
    requires number { IsFileNumber number }
    ensures prepares { Prepares (D.state device.old) (D.state device.new) memory.old memory.new 1 }
    ensures ready { OnOk result (IsHeaderReady memory.new number links) }
    ensures short { IsErrOf result LiftFault.Full → LacksRoom memory.old 1 }
    ensures ends { EndsLifting (D.state device.old) (D.state device.new) memory.old memory.new
        result }
{
    match prepare_name(memory, number, links) {
        Ok(()) => {}
        Err(_) => return Err(LiftFault::Device),
    }
    lift_inode(device, memory, number)?;
    Ok(())
}

/// The headers of files may change as these say with no call of the device.
///
/// # Errors
///
/// As those of `prepare_header`.
pub fn prepare_headers<D: SectorDevice>(
    device: &mut CachedDevice<D>,
    memory: &mut LogMemory,
    edits: &[HeaderEdit],
) -> Result<(), LiftFault>
    requires memory { IsMemory memory.old }
    ensures prepares { Prepares (D.state device.old) (D.state device.new) memory.old memory.new
        (length edits.now) }
    ensures ready { OnOk result (AreHeadersReady memory.new edits.now) }
    ensures full { IsErrOf result LiftFault.Full → LacksRoom memory.old (length edits.now) }
    ensures failed { IsErrOf result LiftFault.Device
        → FailsFromDevice (D.state device.old) (D.state device.new) memory.old }
    ensures no_failure { OnOk result ((D.state device.new).failures
        ≡ (D.state device.old).failures) }
{
    for edit in edits {
        prepare_header(device, memory, edit.number, edit.header.links)?;
    }
    Ok(())
}

/// Data blocks of files may change as these say with no call of the device.
///
/// # Errors
///
/// As those of `prepare_block`.
pub fn prepare_blocks<D: SectorDevice>(
    device: &mut CachedDevice<D>,
    memory: &mut LogMemory,
    edits: &[BlockEdit],
) -> Result<(), LiftFault>
    requires memory { IsMemory memory.old }
    ensures prepares { Prepares (D.state device.old) (D.state device.new) memory.old memory.new
        (ways edits.now) }
    ensures ready { OnOk result (AreBlocksReady memory.new edits.now) }
    ensures full { IsErrOf result LiftFault.Full → LacksRoom memory.old (ways edits.now) }
    ensures failed { IsErrOf result LiftFault.Device
        → AreExcusedWithin (D.state device.old) (D.state device.new) memory.old edits.now }
    ensures no_failure { OnOk result ((D.state device.new).failures
        ≡ (D.state device.old).failures) }
{
    for edit in edits {
        prepare_block(device, memory, edit)?;
    }
    Ok(())
}

/// Headers and data blocks of files may change as these say with no call of the device.
///
/// # Errors
///
/// As those of `prepare_headers` and `prepare_blocks`.
pub fn prepare_batch<D: SectorDevice>(
    device: &mut CachedDevice<D>,
    memory: &mut LogMemory,
    headers: &[HeaderEdit],
    blocks: &[BlockEdit],
) -> Result<(), LiftFault>
    requires memory { IsMemory memory.old }
    ensures prepares { Prepares (D.state device.old) (D.state device.new) memory.old memory.new
        (length headers.now + ways blocks.now) }
    ensures headers { OnOk result (AreHeadersReady memory.new headers.now) }
    ensures blocks { OnOk result (AreBlocksReady memory.new blocks.now) }
    ensures full { IsErrOf result LiftFault.Full
        → LacksRoom memory.old (length headers.now + ways blocks.now) }
    ensures failed { IsErrOf result LiftFault.Device
        → AreExcusedWithin (D.state device.old) (D.state device.new) memory.old blocks.now }
    ensures no_failure { OnOk result ((D.state device.new).failures
        ≡ (D.state device.old).failures) }
{
    prepare_headers(device, memory, headers)?;
    prepare_blocks(device, memory, blocks)
}
