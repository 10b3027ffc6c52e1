//! The way from an inode to the blocks of its file, where some of them are in memory.
ghost use Rattle.std.specs.Prelude.{◌≡◌, ◌<◌, ◌≤◌, ◌⊎◌, ◌==◌, ℕ, List, IfOk, IsErrOf};
ghost use Rattle.lfs_model.specs.Entry.{Leaf, word};
ghost use Rattle.lfs_model.specs.Summary.{IsFileNumber};
ghost use Rattle.lfs_inodes.specs.Following.{FollowsPointers};
ghost use Rattle.lfs_inodes.specs.Key.{entry_of};
ghost use Rattle.lfs_inodes.specs.Blocks.{blocks_of};
ghost use Rattle.lfs_inodes.specs.Pointed.{ArePointers};
ghost use Rattle.lfs_inodes.specs.Present.{present, leaf_now, data_now, IsAway, IsLeafAway, IsDataAway, leaf_first, data_first};

use crate::key::{BlockKey, DIRECT, IN_MEMORY, POINTERS};
use crate::pointers::{Pointers, all_pointers, no_pointers, pointer_at, pointers_at};
use crate::table::DirtyTable;
use lfs_cache::CachedDevice;
use lfs_device::{ReadFault, SectorDevice};
use lfs_layout::{DOUBLE_POINTER, FIRST_POINTER, SINGLE_POINTER, word};
use lfs_model::limits::{BLOCK_POINTERS, LAST_BLOCK, LAST_LEAF};

/// The number at a place of 4 bytes of the block of this key, whose pointer is known; 0 where there
/// is none.
#[tactic(auto, unfolding(lfs_model::specs::Entry::word), using(crate::proofs::Places::places))]
fn present_pointer<D: SectorDevice>(
    device: &mut CachedDevice<D>,
    table: &DirtyTable,
    key: BlockKey,
    address: u32,
    place: u32,
) -> Result<u32, ReadFault>
    requires { place < BLOCK_POINTERS }
    ensures value { IfOk result (λ found. (D.state device.new).keeps_model
        → found ≡ word (present (D.state device.old).content (blocks_of table.now)
        (entry_of key) address) place) }
    ensures unreadable { IsErrOf result ReadFault.Unreadable → (D.state device.new).keeps_model
        → IsAway (D.state device.old).content address }
    ensures follows { FollowsPointers (D.state device.old) (D.state device.new) result }
{
    if address != IN_MEMORY {
        return pointer_at(device, address, place);
    }
    match table.block(key) {
        Some(block) => Ok(word(block, place as usize)),
        None => Ok(0),
    }
}

/// All numbers of the block of this key, whose pointer is known; zeros where there is none.
///
/// # Errors
///
/// As those of `locate`.
pub fn present_pointers<D: SectorDevice>(
    device: &mut CachedDevice<D>,
    table: &DirtyTable,
    key: BlockKey,
    address: u32,
) -> Result<Pointers, ReadFault>
    ensures value { IfOk result (λ found. (D.state device.new).keeps_model
        → ArePointers found (present (D.state device.old).content (blocks_of table.now)
        (entry_of key) address)) }
    ensures unreadable { IsErrOf result ReadFault.Unreadable → (D.state device.new).keeps_model
        → IsAway (D.state device.old).content address }
    ensures follows { FollowsPointers (D.state device.old) (D.state device.new) result }
{
    if address != IN_MEMORY {
        return pointers_at(device, address);
    }
    match table.block(key) {
        Some(block) => Ok(all_pointers(block)),
        None => Ok(no_pointers()),
    }
}

/// The pointer to a leaf of pointers, the single one at 0, those under the double root from 1 on,
/// where the inode's pointer with which the way begins is `first`.
fn leaf_behind<D: SectorDevice>(
    device: &mut CachedDevice<D>,
    table: &DirtyTable,
    file: u16,
    first: u32,
    index: u32,
) -> Result<u32, ReadFault>
    requires file { IsFileNumber file }
    requires index { index ≤ LAST_LEAF }
    ensures value { IfOk result (λ pointer. (inode : List ℕ) → first ≡ word inode (leaf_first index)
        → (D.state device.new).keeps_model → pointer ≡ leaf_now (D.state device.old).content
        (blocks_of table.now) file inode index) }
    ensures unreadable { IsErrOf result ReadFault.Unreadable
        → (inode : List ℕ) → first ≡ word inode (leaf_first index)
        → (D.state device.new).keeps_model
        → IsLeafAway (D.state device.old).content inode index }
    ensures follows { FollowsPointers (D.state device.old) (D.state device.new) result }
{
    if index == 0 {
        return Ok(first);
    }
    let root = BlockKey::double(file);
    present_pointer(device, table, root, first, index - 1)
}

/// The place of 4 bytes of an inode at which the pointer stands with which the way to a data block
/// begins.
pub fn first_pointer(index: u32) -> usize
    ensures value { result ≡ data_first index }
    ensures within { result < BLOCK_POINTERS }
{
    if index < DIRECT {
        return FIRST_POINTER + index as usize;
    }
    if index < DIRECT + POINTERS {
        return SINGLE_POINTER;
    }
    DOUBLE_POINTER
}

/// The place of 4 bytes of an inode at which the pointer stands with which the way to a leaf begins.
pub fn first_of_leaf(index: u32) -> usize
    requires { index ≤ LAST_LEAF }
    ensures value { result ≡ leaf_first index }
    ensures within { result < BLOCK_POINTERS }
{
    if index == 0 {
        SINGLE_POINTER
    } else {
        DOUBLE_POINTER
    }
}

/// The pointers to the data blocks below a leaf of pointers of a file, the single one at 0, those
/// under the double root from 1 on, where the inode's pointer at `first_of_leaf` is `first`. Zeros
/// where there is no leaf.
///
/// # Errors
///
/// As those of `locate`.
pub fn leaf_pointers<D: SectorDevice>(
    device: &mut CachedDevice<D>,
    table: &DirtyTable,
    file: u16,
    first: u32,
    index: u32,
) -> Result<Pointers, ReadFault>
    requires file { IsFileNumber file }
    requires index { index ≤ LAST_LEAF }
    ensures value { IfOk result (λ found. (inode : List ℕ) → first ≡ word inode (leaf_first index)
        → (D.state device.new).keeps_model → ArePointers found
        (present (D.state device.old).content (blocks_of table.now) (Leaf file index)
        (leaf_now (D.state device.old).content (blocks_of table.now) file inode index))) }
    ensures unreadable { IsErrOf result ReadFault.Unreadable
        → (inode : List ℕ) → first ≡ word inode (leaf_first index)
        → (D.state device.new).keeps_model
        → IsLeafAway (D.state device.old).content inode index
        ⊎ IsAway (D.state device.old).content
        (leaf_now (D.state device.old).content (blocks_of table.now) file inode index) }
    ensures follows { FollowsPointers (D.state device.old) (D.state device.new) result }
{
    let pointer = leaf_behind(device, table, file, first, index)?;
    present_pointers(device, table, BlockKey::leaf(file, index), pointer)
}

/// The pointer to a data block of a file, as `locate_present` gives it, where the inode's pointer at
/// `first_pointer` is `first`.
///
/// # Errors
///
/// As those of `locate`.
pub fn locate_behind<D: SectorDevice>(
    device: &mut CachedDevice<D>,
    table: &DirtyTable,
    file: u16,
    first: u32,
    index: u32,
) -> Result<u32, ReadFault>
    requires file { IsFileNumber file }
    requires index { index ≤ LAST_BLOCK }
    ensures value { IfOk result (λ pointer. (inode : List ℕ) → first ≡ word inode (data_first index)
        → (D.state device.new).keeps_model → pointer ≡ data_now (D.state device.old).content
        (blocks_of table.now) file inode index) }
    ensures unreadable { IsErrOf result ReadFault.Unreadable
        → (inode : List ℕ) → first ≡ word inode (data_first index)
        → (D.state device.new).keeps_model
        → IsDataAway (D.state device.old).content (blocks_of table.now) file inode index }
    ensures follows { FollowsPointers (D.state device.old) (D.state device.new) result }
{
    if index < DIRECT {
        return Ok(first);
    }
    let place = index - DIRECT;
    let pointer = leaf_behind(device, table, file, first, place / POINTERS)?;
    let leaf = BlockKey::leaf(file, place / POINTERS);
    present_pointer(device, table, leaf, pointer, place % POINTERS)
}

/// The pointer to a data block of a file: 0 where none is stored, `IN_MEMORY` for one in the table,
/// else its address. Blocks of pointers that the table has are read there, others on the device,
/// two at most.
///
/// Where a pointer on the way is 1, the block is looked for in the table alone. `locate`, which
/// knows no table, reads the sector of that address.
///
/// # Errors
///
/// As those of `locate`.
#[tactic(auto, unfolding(lfs_model::specs::Entry::word))]
pub fn locate_present<D: SectorDevice>(
    device: &mut CachedDevice<D>,
    table: &DirtyTable,
    file: u16,
    inode: &[u8; 512],
    index: u32,
) -> Result<u32, ReadFault>
    requires file { IsFileNumber file }
    requires index { index ≤ LAST_BLOCK }
    ensures value { IfOk result (λ pointer. (D.state device.new).keeps_model
        → pointer ≡ data_now (D.state device.old).content
        (blocks_of table.now) file inode.now index) }
    ensures unreadable { IsErrOf result ReadFault.Unreadable → (D.state device.new).keeps_model
        → IsDataAway (D.state device.old).content (blocks_of table.now) file inode.now index }
    ensures follows { FollowsPointers (D.state device.old) (D.state device.new) result }
{
    let first = word(inode, first_pointer(index));
    locate_behind(device, table, file, first, index)
}
