//! The way from an inode to the blocks of its file.
ghost use Rattle.std.specs.Prelude.{[], ◌≡◌, ◌<◌, ◌↔◌, IsTrue, IfOk, IsErrOf};
ghost use Rattle.lfs_model.specs.Content.{block};
ghost use Rattle.lfs_model.specs.Entry.{word};
ghost use Rattle.lfs_inodes.specs.Following.{FollowsPointers};
ghost use Rattle.lfs_inodes.specs.Key.{entry_of};
ghost use Rattle.lfs_inodes.specs.Pointed.{ArePointers, leaf_in, data_in, pointed, IsLost, IsLeafLost, IsDataLost, IsWayLost};

use crate::key::{BlockKey, DIRECT, POINTERS};
use lfs_cache::CachedDevice;
use lfs_device::{ReadFault, SectorDevice};
use lfs_layout::{DOUBLE_POINTER, FIRST_POINTER, PointerView, SINGLE_POINTER, word};
use lfs_model::BlockKind;

/// The numbers of a block of pointers, each at its place of 4 bytes.
pub type Pointers = [u32; 128];

/// The number at a place of 4 bytes of the block at an address; 0 where the address is 0, or the
/// place past the block.
#[tactic(auto, unfolding(lfs_model::specs::Entry::word), using(crate::proofs::Places::places))]
pub(crate) fn pointer_at<D: SectorDevice>(
    device: &mut CachedDevice<D>,
    address: u32,
    place: u32,
) -> Result<u32, ReadFault>
    ensures value { IfOk result (λ found. (D.state device.new).keeps_model
        → found ≡ word (block (D.state device.old).content address) place) }
    ensures unreadable { IsErrOf result ReadFault.Unreadable → (D.state device.new).keeps_model
        → IsLost (D.state device.old).content address }
    ensures follows { FollowsPointers (D.state device.old) (D.state device.new) result }
{
    if address == 0 {
        return Ok(0);
    }
    if address >= device.sectors() {
        return Err(ReadFault::Unreadable);
    }
    let block = device.read_ref(address)?;
    Ok(word_or_none(block, place))
}

/// All numbers of the block at an address; zeros where the address is 0.
pub(crate) fn pointers_at<D: SectorDevice>(
    device: &mut CachedDevice<D>,
    address: u32,
) -> Result<Pointers, ReadFault>
    ensures value { IfOk result (λ found. (D.state device.new).keeps_model
        → ArePointers found (block (D.state device.old).content address)) }
    ensures unreadable { IsErrOf result ReadFault.Unreadable → (D.state device.new).keeps_model
        → IsLost (D.state device.old).content address }
    ensures follows { FollowsPointers (D.state device.old) (D.state device.new) result }
{
    if address == 0 {
        return Ok(no_pointers());
    }
    if address >= device.sectors() {
        return Err(ReadFault::Unreadable);
    }
    let block = device.read_ref(address)?;
    Ok(all_pointers(block))
}

/// All numbers of a block.
pub(crate) fn all_pointers(block: &[u8; 512]) -> Pointers
    ensures { ArePointers result block.now }
{
    PointerView::new(block).to_array()
}

/// The numbers where there is no block.
pub(crate) fn no_pointers() -> Pointers
    ensures { ArePointers result [] }
{
    [0; 128]
}

/// The number at a place of 4 bytes of a block; 0 past its end.
#[tactic(auto, unfolding(lfs_model::specs::Entry::word), using(crate::proofs::Places::places))]
fn word_or_none(block: &[u8; 512], place: u32) -> u32
    ensures { result ≡ word block.now place }
{
    if place >= POINTERS {
        return 0;
    }
    word(block, place as usize)
}

/// The address of a leaf of pointers: the single one at 0, those under the double root from 1 on.
#[tactic(auto, unfolding(lfs_model::specs::Entry::word))]
fn locate_leaf<D: SectorDevice>(
    device: &mut CachedDevice<D>,
    inode: &[u8; 512],
    index: u32,
) -> Result<u32, ReadFault>
    ensures value { IfOk result (λ address. (D.state device.new).keeps_model
        → address ≡ leaf_in (D.state device.old).content inode.now index) }
    ensures unreadable { IsErrOf result ReadFault.Unreadable → (D.state device.new).keeps_model
        → IsLeafLost (D.state device.old).content inode.now index }
    ensures follows { FollowsPointers (D.state device.old) (D.state device.new) result }
{
    if index == 0 {
        return Ok(word(inode, SINGLE_POINTER));
    }
    pointer_at(device, word(inode, DOUBLE_POINTER), index - 1)
}

/// The address of a data block of the file of an inode, or 0 where none is stored. It reads two
/// blocks of pointers at most.
///
/// Each pointer is taken for an address on the device, also 1, the slot of a checkpoint, to which
/// no pointer of a volume leads. `locate_present` takes 1 for a block in memory, so neither can
/// stand for the other.
///
/// # Errors
///
/// `Unreadable` where a block of pointers on the way can't be read or isn't on the device, `Failed`
/// where a call of the device failed.
#[tactic(auto, unfolding(lfs_model::specs::Entry::word))]
pub fn locate<D: SectorDevice>(
    device: &mut CachedDevice<D>,
    inode: &[u8; 512],
    index: u32,
) -> Result<u32, ReadFault>
    ensures value { IfOk result (λ address. (D.state device.new).keeps_model
        → address ≡ data_in (D.state device.old).content inode.now index) }
    ensures unreadable { IsErrOf result ReadFault.Unreadable → (D.state device.new).keeps_model
        → IsDataLost (D.state device.old).content inode.now index }
    ensures follows { FollowsPointers (D.state device.old) (D.state device.new) result }
{
    if index < DIRECT {
        return Ok(word(inode, FIRST_POINTER + index as usize));
    }
    let place = index - DIRECT;
    let leaf = locate_leaf(device, inode, place / POINTERS)?;
    pointer_at(device, leaf, place % POINTERS)
}

/// The address of any block of the file of an inode.
#[tactic(auto, unfolding(lfs_model::specs::Entry::word))]
fn locate_block<D: SectorDevice>(
    device: &mut CachedDevice<D>,
    inode: &[u8; 512],
    key: BlockKey,
) -> Result<u32, ReadFault>
    ensures value { IfOk result (λ address. (D.state device.new).keeps_model
        → address ≡ pointed (D.state device.old).content inode.now (entry_of key)) }
    ensures unreadable { IsErrOf result ReadFault.Unreadable → (D.state device.new).keeps_model
        → IsWayLost (D.state device.old).content inode.now (entry_of key) }
    ensures follows { FollowsPointers (D.state device.old) (D.state device.new) result }
{
    match key.kind() {
        BlockKind::Data => locate(device, inode, key.index()),
        BlockKind::Leaf => locate_leaf(device, inode, key.index()),
        BlockKind::Double => Ok(word(inode, DOUBLE_POINTER)),
        _ => Ok(0),
    }
}

/// Whether the pointers from an inode lead to a block of its file at this address. They lead to no
/// inode.
///
/// # Errors
///
/// As those of `locate`.
pub fn owner_points<D: SectorDevice>(
    device: &mut CachedDevice<D>,
    inode: &[u8; 512],
    key: BlockKey,
    address: u32,
) -> Result<bool, ReadFault>
    ensures value { IfOk result (λ leads. (D.state device.new).keeps_model
        → (IsTrue leads ↔ (0 < address)
        × (pointed (D.state device.old).content inode.now (entry_of key) ≡ address))) }
    ensures unreadable { IsErrOf result ReadFault.Unreadable → (D.state device.new).keeps_model
        → IsWayLost (D.state device.old).content inode.now (entry_of key) }
    ensures follows { FollowsPointers (D.state device.old) (D.state device.new) result }
{
    let found = locate_block(device, inode, key)?;
    Ok(address != 0 && found == address)
}
