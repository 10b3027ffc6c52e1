//! What the log answers to reads.
ghost use Rattle.std.specs.Prelude.{◌≡◌, ◌<◌, ◌≤◌, ◌⊎◌, OnOk, IfOk, IsTrue, IsFalse};
ghost use Rattle.lfs_model.specs.Entry.{Inode, Leaf, Double};
ghost use Rattle.lfs_inodes.specs.Key.{entry_of};
ghost use Rattle.lfs_inodes.specs.Blocks.{blocks_of};
ghost use Rattle.lfs_inodes.specs.MapValue.{address_in};
ghost use Rattle.lfs_inodes.specs.Present.{present};
ghost use Rattle.lfs_memory.specs.Present.{OnlyLooks, EndsReading, AnswersInode, AnswersHeader, AnswersAddress, FindsPointer, ShowsBlock, ShowsHeader, ShowsWord};

use crate::memory::LogMemory;
use lfs_cache::CachedDevice;
use lfs_device::{DeviceFault, SectorDevice};
use lfs_files::Header;
use lfs_inodes::{BlockKey, IN_MEMORY, header_of};
use lfs_layout::word;
use lfs_model::BlockKind;
use lfs_model::limits::{BLOCK_POINTERS, FILE_NUMBERS, LAST_BLOCK, LAST_LEAF};

/// The block of this key, whose pointer is known: in memory, or at its address on the device. What
/// the device had is kept in front of it where the caller wants that.
///
/// # Errors
///
/// Where neither has it, or a call of the device failed.
pub(crate) fn read_present<D: SectorDevice>(
    device: &mut CachedDevice<D>,
    memory: &LogMemory,
    key: BlockKey,
    address: u32,
    keeps: bool,
    out: &mut [u8; 512],
) -> Result<(), DeviceFault>
    requires stored { 1 ≤ address }
    ensures read { OnOk result (ShowsBlock (D.state device.old) (D.state device.new) memory.now
        (entry_of key) address out.new) }
    ensures ends { EndsReading (D.state device.old) (D.state device.new) memory.now (entry_of key)
        address result }
{
    if address == IN_MEMORY {
        let Some(block) = memory.dirty.block(key) else {
            return Err(DeviceFault);
        };
        *out = *block;
        return Ok(());
    }
    if address >= device.sectors() {
        return Err(DeviceFault);
    }
    if !keeps {
        return match device.read(address, out) {
            Ok(()) => Ok(()),
            Err(_) => Err(DeviceFault),
        };
    }
    match device.read_ref(address) {
        Ok(block) => {
            *out = *block;
            Ok(())
        }
        Err(_) => Err(DeviceFault),
    }
}

/// The number at a place of 4 bytes of the block of this key, as `read_present` finds it, where it
/// stands: nothing is copied, and what the device had is kept.
///
/// # Errors
///
/// As those of `read_present`.
#[tactic(auto, unfolding(lfs_model::specs::Entry::word))]
pub fn present_word<D: SectorDevice>(
    device: &mut CachedDevice<D>,
    memory: &LogMemory,
    key: BlockKey,
    address: u32,
    place: usize,
) -> Result<u32, DeviceFault>
    requires stored { 1 ≤ address }
    requires place { place < BLOCK_POINTERS }
    ensures read { IfOk result (ShowsWord (D.state device.old) (D.state device.new) memory.now
        (entry_of key) address place) }
    ensures ends { EndsReading (D.state device.old) (D.state device.new) memory.now (entry_of key)
        address result }
{
    if address == IN_MEMORY {
        return match memory.dirty.block(key) {
            Some(block) => Ok(word(block, place)),
            None => Err(DeviceFault),
        };
    }
    if address >= device.sectors() {
        return Err(DeviceFault);
    }
    match device.read_ref(address) {
        Ok(block) => Ok(word(block, place)),
        Err(_) => Err(DeviceFault),
    }
}

/// What the inode of this key says of its file, as `present_word` finds it.
///
/// # Errors
///
/// As those of `read_present`.
fn present_header<D: SectorDevice>(
    device: &mut CachedDevice<D>,
    memory: &LogMemory,
    key: BlockKey,
    address: u32,
) -> Result<Header, DeviceFault>
    requires stored { 1 ≤ address }
    ensures read { IfOk result (ShowsHeader (D.state device.old) (D.state device.new) memory.now
        (entry_of key) address) }
    ensures ends { EndsReading (D.state device.old) (D.state device.new) memory.now (entry_of key)
        address result }
{
    if address == IN_MEMORY {
        return match memory.dirty.block(key) {
            Some(inode) => Ok(header_of(inode)),
            None => Err(DeviceFault),
        };
    }
    if address >= device.sectors() {
        return Err(DeviceFault);
    }
    match device.read_ref(address) {
        Ok(inode) => Ok(header_of(inode)),
        Err(_) => Err(DeviceFault),
    }
}

/// Whether a file is there, and its inode then.
///
/// # Errors
///
/// As those of `read_present`.
pub fn read_inode<D: SectorDevice>(
    device: &mut CachedDevice<D>,
    memory: &LogMemory,
    number: u16,
    out: &mut [u8; 512],
) -> Result<bool, DeviceFault>
    requires number { number < FILE_NUMBERS }
    ensures answer { IfOk result (AnswersInode (D.state device.old) (D.state device.new) memory.now
        number out.new) }
    ensures some { IfOk result (λ found. IsTrue found
        → (1 ≤ number) × (1 ≤ address_in memory.now.map number)) }
    ensures none { IfOk result (λ found. IsFalse found
        → (number ≡ 0) ⊎ (address_in memory.now.map number ≡ 0)) }
    ensures bytes { IfOk result (λ found. IsTrue found → (D.state device.new).keeps_model
        → out.new ≡ present (D.state device.old).content (blocks_of memory.now.dirty) (Inode number)
        (address_in memory.now.map number)) }
    ensures looks { OnlyLooks (D.state device.old) (D.state device.new) memory.now result }
{
    let address = inode_pointer(memory, number);
    if address == 0 {
        return Ok(false);
    }
    read_present(device, memory, BlockKey::inode(number), address, false, out)?;
    Ok(true)
}

/// What the inode of a file says of it, if the file is there.
///
/// # Errors
///
/// As those of `read_present`.
pub fn read_header<D: SectorDevice>(
    device: &mut CachedDevice<D>,
    memory: &LogMemory,
    number: u16,
) -> Result<Option<Header>, DeviceFault>
    requires number { number < FILE_NUMBERS }
    ensures answer { IfOk result (AnswersHeader (D.state device.old) (D.state device.new) memory.now
        number) }
    ensures looks { OnlyLooks (D.state device.old) (D.state device.new) memory.now result }
{
    let address = inode_pointer(memory, number);
    if address == 0 {
        return Ok(None);
    }
    let header = present_header(device, memory, BlockKey::inode(number), address)?;
    Ok(Some(header))
}

/// The pointer to the inode of a file, or 0 where the file isn't there.
pub(crate) fn inode_pointer(memory: &LogMemory, number: u16) -> u32
    requires number { number < FILE_NUMBERS }
    ensures none { result ≡ 0 → (number ≡ 0) ⊎ (address_in memory.now.map number ≡ 0) }
    ensures some { (result ≡ 0 → ⊥) → (1 ≤ number) × (result ≡ address_in memory.now.map number) }
{
    if number == 0 {
        return 0;
    }
    memory.map.address(number)
}

/// The pointer to a block of a file: 0 where none is stored, `IN_MEMORY` for one in memory, else
/// its address.
///
/// # Errors
///
/// Where a block above it can't be read.
pub fn locate<D: SectorDevice>(
    device: &mut CachedDevice<D>,
    memory: &LogMemory,
    key: BlockKey,
) -> Result<u32, DeviceFault>
    ensures answer { IfOk result (AnswersAddress (D.state device.old) (D.state device.new)
        memory.now (entry_of key)) }
    ensures looks { OnlyLooks (D.state device.old) (D.state device.new) memory.now result }
{
    let Some(above) = key.parent() else {
        return Ok(memory.map.address(key.file()));
    };
    let address = match above.kind() {
        BlockKind::Inode => memory.map.address(above.file()),
        _ => locate(device, memory, above)?,
    };
    if address == 0 {
        return Ok(0);
    }
    present_word(device, memory, above, address, key.pointer())
}

/// The pointer to a data block, as `locate` gives it; 0 where no file has that block.
///
/// # Errors
///
/// As those of `locate`.
pub(crate) fn locate_block<D: SectorDevice>(
    device: &mut CachedDevice<D>,
    memory: &LogMemory,
    number: u16,
    index: u32,
) -> Result<u32, DeviceFault>
    requires number { number < FILE_NUMBERS }
    ensures { FindsPointer (D.state device.old) (D.state device.new) memory.now number index
        result }
{
    if index > LAST_BLOCK {
        return Ok(0);
    }
    if number == 0 {
        return Ok(0);
    }
    locate(device, memory, BlockKey::data(number, index))
}

/// The pointer to the double root of a file: 0 where none is stored, `IN_MEMORY` for one in memory,
/// else its address.
///
/// # Errors
///
/// Where the inode can't be read.
pub fn locate_double<D: SectorDevice>(
    device: &mut CachedDevice<D>,
    memory: &LogMemory,
    number: u16,
) -> Result<u32, DeviceFault>
    requires number { number < FILE_NUMBERS }
    ensures answer { IfOk result (AnswersAddress (D.state device.old) (D.state device.new)
        memory.now (Double number)) }
    ensures looks { OnlyLooks (D.state device.old) (D.state device.new) memory.now result }
{
    if number == 0 {
        return Ok(0);
    }
    locate(device, memory, BlockKey::double(number))
}

/// The pointer to a leaf of pointers of a file, the single one at 0, those below the double root
/// from 1 on: 0 where none is stored, `IN_MEMORY` for one in memory, else its address.
///
/// # Errors
///
/// Where the inode or the double root can't be read.
pub fn locate_leaf<D: SectorDevice>(
    device: &mut CachedDevice<D>,
    memory: &LogMemory,
    number: u16,
    leaf: u32,
) -> Result<u32, DeviceFault>
    requires number { number < FILE_NUMBERS }
    requires leaf { leaf ≤ LAST_LEAF }
    ensures answer { IfOk result (AnswersAddress (D.state device.old) (D.state device.new)
        memory.now (Leaf number leaf)) }
    ensures looks { OnlyLooks (D.state device.old) (D.state device.new) memory.now result }
{
    if number == 0 {
        return Ok(0);
    }
    locate(device, memory, BlockKey::leaf(number, leaf))
}
