//! How files change in memory, one block at a time. Nothing here calls the device.
ghost use Rattle.std.specs.Prelude.{◌≡◌, ◌≢◌, ◌<◌, not, ℕ, List, Some, None, length, OnOk, OnErr, IfSome, IfNone};
ghost use Rattle.lfs_model.specs.Memory.{parent};
ghost use Rattle.lfs_model.specs.Entry.{Inode, word};
ghost use Rattle.lfs_model.specs.Fields.{zeros};
ghost use Rattle.lfs_inodes.specs.Blocks.{blocks_of};
ghost use Rattle.lfs_inodes.specs.Key.{entry_of};
ghost use Rattle.lfs_inodes.specs.MapValue.{is_hidden_in};
ghost use Rattle.lfs_memory.specs.Changing.{ChangesHeader, Creates, Departs, Drops, Grows, IsMiscounted, IsPointedIn, MakesBlock, Stores, Tightens, file_in};
ghost use Rattle.lfs_memory.specs.Numbers.{IsFileNumber};

use crate::batch::BlockEdit;
use crate::memory::LogMemory;
use lfs_device::DeviceFault;
use lfs_inodes::{BlockKey, DirtyTable, IN_MEMORY};
use lfs_layout::{is_zero, segment_of, set_header, word};
use lfs_model::Kind;
use lfs_model::limits::{CHECKPOINT_SLOTS, SECTOR_LEN};
use lfs_segments::Usage;

/// The pointer to a block, by the block above it in memory: 0 for no block, `IN_MEMORY` for one in
/// memory, else its address.
#[tactic(auto, unfolding(lfs_model::specs::Entry::word))]
pub fn pointer_to(dirty: &DirtyTable, key: BlockKey) -> Option<u32>
    ensures some { IfSome result (λ address. IsPointedIn (blocks_of dirty.now) (entry_of key)
        address) }
    ensures none { IfNone result (parent (entry_of key) ≢ entry_of key
        → blocks_of dirty.now (parent (entry_of key)) ≡ None) }
{
    let above = key.parent()?;
    let block = dirty.block(above)?;
    Some(word(block, key.pointer()))
}

/// A block leaves its address, if it has one. Only under a device that broke its word it isn't
/// counted there.
fn depart(usage: &mut Usage, address: u32, lives: bool) -> Result<(), DeviceFault>
    ensures done { OnOk result (Departs usage.old usage.new address lives) }
    ensures miscounted { OnErr result (IsMiscounted usage.old address lives) }
    ensures same { OnErr result (usage.new ≡ usage.old) }
{
    if address < CHECKPOINT_SLOTS {
        return Ok(());
    }
    let segment = segment_of(address);
    if segment >= usage.segments() {
        return Err(DeviceFault);
    }
    let state = usage.state(segment);
    let count = if lives { state.live } else { state.held };
    if count == 0 {
        return Err(DeviceFault);
    }
    usage.lift(segment, lives);
    Ok(())
}

/// A data block that this pointer leads to is these bytes, in memory.
fn store_block(
    memory: &mut LogMemory,
    key: BlockKey,
    address: u32,
    bytes: &[u8; 512],
) -> Result<(), DeviceFault>
    requires room { length memory.old.dirty.blocks < memory.old.dirty.capacity.limit }
    ensures done { OnOk result (Stores memory.old memory.new (file_in key) (entry_of key)
        address bytes.now) }
    ensures miscounted { OnErr result (IsMiscounted memory.old.usage address
        (not (is_hidden_in memory.old.map (file_in key)))) }
    ensures same { OnErr result (memory.new ≡ memory.old) }
{
    let lives = !memory.map.is_hidden(key.file());
    depart(&mut memory.usage, address, lives)?;
    if address == IN_MEMORY {
        memory.dirty.put(key, bytes);
    } else {
        memory.dirty.fetch(key, bytes);
    }
    Ok(())
}

/// A data block that this pointer leads to is there no more.
fn drop_block(memory: &mut LogMemory, key: BlockKey, address: u32) -> Result<(), DeviceFault>
    ensures done { OnOk result (Drops memory.old memory.new (file_in key) (entry_of key) address) }
    ensures miscounted { OnErr result (IsMiscounted memory.old.usage address
        (not (is_hidden_in memory.old.map (file_in key)))) }
    ensures same { OnErr result (memory.new ≡ memory.old) }
{
    if address == 0 {
        return Ok(());
    }
    let lives = !memory.map.is_hidden(key.file());
    depart(&mut memory.usage, address, lives)?;
    memory.dirty.moved(key, 0);
    Ok(())
}

/// A data block of a file, whose pointer is this, is these bytes. One of zeros alone isn't stored.
///
/// # Errors
///
/// Where the block isn't counted at its address, which only a device that broke its word brings
/// about. Memory stays as it was.
pub fn put_block(memory: &mut LogMemory, edit: &BlockEdit, address: u32) -> Result<(), DeviceFault>
    requires room { length memory.old.dirty.blocks < memory.old.dirty.capacity.limit }
    ensures done { OnOk result (MakesBlock memory.old memory.new edit.now.number edit.now.index
        address edit.now.bytes) }
    ensures miscounted { OnErr result (IsMiscounted memory.old.usage address
        (not (is_hidden_in memory.old.map edit.now.number))) }
    ensures same { OnErr result (memory.new ≡ memory.old) }
{
    let key = BlockKey::data(edit.number, edit.index);
    if is_zero(&edit.bytes) {
        drop_block(memory, key, address)
    } else {
        store_block(memory, key, address, &edit.bytes)
    }
}

/// The inode of a file, which is in memory, has this kind, form, number of links and size in bytes.
pub fn change_header(memory: &mut LogMemory, file: u16, kind: Kind, form: u8, links: u32, size: u32)
    requires number { IsFileNumber file }
    requires there { (bytes : List ℕ) × (blocks_of memory.old.dirty (Inode file) ≡ Some bytes) }
    ensures { ChangesHeader memory.old memory.new file kind form links size }
{
    let key = BlockKey::inode(file);
    let mut inode = *memory.dirty.block(key).unwrap();
    set_header(&mut inode, u32::from(file), kind, form, links, size);
    memory.dirty.put(key, &inode);
}

/// A file of this number is made. The caller knows that there is none.
pub fn create(memory: &mut LogMemory, file: u16, kind: Kind, form: u8, links: u32, size: u32)
    requires number { IsFileNumber file }
    requires room { length memory.old.dirty.blocks < memory.old.dirty.capacity.limit }
    ensures { Creates memory.old memory.new file kind form links size }
{
    let mut inode = no_bytes();
    set_header(&mut inode, u32::from(file), kind, form, links, size);
    memory.dirty.put(BlockKey::inode(file), &inode);
    memory.map.set_address(file, IN_MEMORY);
    memory.map.set_hidden(file, links == 0);
}

#[tactic(auto, unfolding(lfs_model::specs::Fields::zeros))]
fn no_bytes() -> [u8; 512]
    ensures { result ≡ zeros SECTOR_LEN }
{
    [0; 512]
}

/// An empty block of pointers comes into memory.
#[tactic(auto, unfolding(lfs_model::specs::Fields::zeros))]
pub fn grow(memory: &mut LogMemory, key: BlockKey)
    requires room { length memory.old.dirty.blocks < memory.old.dirty.capacity.limit }
    ensures { Grows memory.old memory.new (entry_of key) }
{
    memory.dirty.fetch(key, &[0; 512]);
}

/// The blocks of pointers in memory that lead nowhere leave it.
pub fn tighten(memory: &mut LogMemory)
    ensures { Tightens memory.old memory.new }
{
    while let Some(key) = memory.dirty.first_empty() {
        memory.dirty.moved(key, 0);
    }
    memory.dirty.set_tight();
}
