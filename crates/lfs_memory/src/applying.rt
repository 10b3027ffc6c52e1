//! A batch of changes of files in memory. Nothing here calls the device.
ghost use Rattle.std.specs.Prelude.{◌≡◌, ◌<◌, ◌≤◌, ◌+◌, length, OnOk, OnErr};
ghost use Rattle.lfs_memory.specs.Changing.{ChangesBlock, Stays};
ghost use Rattle.lfs_memory.specs.Applying.{Applies, AppliesHeader, AppliesHeaders, AppliesBlocks, FailsToApply, FailsHeaders, FailsBlocks, IsInodeAway, IsBlockAway};

use crate::batch::{BlockEdit, HeaderEdit};
use crate::changing::{change_header, create, pointer_to, put_block};
use crate::lifting::has_block;
use crate::memory::LogMemory;
use lfs_device::DeviceFault;
use lfs_inodes::BlockKey;

/// A file has this header; it is made where it isn't there.
///
/// # Errors
///
/// Where the inode stands on the device. Memory stays as it was.
pub fn apply_header(memory: &mut LogMemory, edit: &HeaderEdit) -> Result<(), DeviceFault>
    requires room { length memory.old.dirty.blocks < memory.old.dirty.capacity.limit }
    ensures done { OnOk result (AppliesHeader memory.old memory.new edit.now) }
    ensures away { OnErr result (IsInodeAway memory.old edit.now.number) }
    ensures same { OnErr result (memory.new ≡ memory.old) }
{
    let number = edit.number;
    let header = edit.header;
    if memory.map.address(number) == 0 {
        create(
            memory,
            number,
            header.kind,
            header.form,
            header.links,
            header.size,
        );
        return Ok(());
    }
    if !has_block(memory, BlockKey::inode(number)) {
        return Err(DeviceFault);
    }
    change_header(
        memory,
        number,
        header.kind,
        header.form,
        header.links,
        header.size,
    );
    Ok(())
}

/// A data block of a file is these bytes.
///
/// # Errors
///
/// Where the block above isn't in memory, or the block isn't counted at its address. Memory stays
/// as it was.
pub fn apply_block(memory: &mut LogMemory, edit: &BlockEdit) -> Result<(), DeviceFault>
    requires room { length memory.old.dirty.blocks < memory.old.dirty.capacity.limit }
    ensures done { OnOk result (ChangesBlock memory.old memory.new edit.now.number edit.now.index
        edit.now.bytes) }
    ensures away { OnErr result (IsBlockAway memory.old edit.now.number edit.now.index) }
    ensures same { OnErr result (memory.new ≡ memory.old) }
{
    let key = BlockKey::data(edit.number, edit.index);
    let Some(address) = pointer_to(&memory.dirty, key) else {
        return Err(DeviceFault);
    };
    put_block(memory, edit, address)
}

/// Files have these headers, one after the other.
///
/// # Errors
///
/// Where an inode stands on the device when its turn comes.
pub fn apply_headers(memory: &mut LogMemory, edits: &[HeaderEdit]) -> Result<(), DeviceFault>
    requires room { length memory.old.dirty.blocks + length edits.now
        ≤ memory.old.dirty.capacity.limit }
    ensures done { OnOk result (AppliesHeaders memory.old edits.now memory.new) }
    ensures failed { OnErr result (FailsHeaders memory.old edits.now) }
    ensures stays { Stays (length edits.now) memory.old memory.new }
{
    for edit in edits {
        apply_header(memory, edit)?;
    }
    Ok(())
}

/// Data blocks of files are these bytes, one after the other.
///
/// # Errors
///
/// Where the block above one isn't in memory when its turn comes, or it isn't counted at its
/// address.
pub fn apply_blocks(memory: &mut LogMemory, edits: &[BlockEdit]) -> Result<(), DeviceFault>
    requires room { length memory.old.dirty.blocks + length edits.now
        ≤ memory.old.dirty.capacity.limit }
    ensures done { OnOk result (AppliesBlocks memory.old edits.now memory.new) }
    ensures failed { OnErr result (FailsBlocks memory.old edits.now) }
    ensures stays { Stays (length edits.now) memory.old memory.new }
{
    for edit in edits {
        apply_block(memory, edit)?;
    }
    Ok(())
}

/// Files have these headers, and after them their data blocks are these bytes.
///
/// # Errors
///
/// As those of `apply_headers` and `apply_blocks`.
pub fn apply_batch(
    memory: &mut LogMemory,
    headers: &[HeaderEdit],
    blocks: &[BlockEdit],
) -> Result<(), DeviceFault>
    requires room { length memory.old.dirty.blocks + length headers.now + length blocks.now
        ≤ memory.old.dirty.capacity.limit }
    ensures done { OnOk result (Applies memory.old headers.now blocks.now memory.new) }
    ensures failed { OnErr result (FailsToApply memory.old headers.now blocks.now) }
    ensures stays { Stays (length headers.now + length blocks.now) memory.old memory.new }
{
    apply_headers(memory, headers)?;
    apply_blocks(memory, blocks)?;
    Ok(())
}
