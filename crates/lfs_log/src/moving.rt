//! Blocks of segments come into memory and go to other segments, file by file and leaf by leaf: a
//! block of data as soon as it was read, a block of pointers once all that it leads to was moved.
//! Leaves of pointers wait in memory as long as it has room, and are written one after the other.
//! After the cleaner of the Sprite LFS paper (1992, section 3.3).
ghost use Rattle.std.specs.Prelude.{◌≡◌, ◌<◌, ◌≤◌, ◌+◌, ◌*◌, ◌/◌, ℕ, [], List, length, true, ◌⊎◌, OnOk, OnErr, IfOk, IsErrOf, IsTrue, IsFalse};
ghost use Rattle.lfs_model.specs.Entry.{Entry};
ghost use Rattle.lfs_model.specs.Memory.{parent};
ghost use Rattle.lfs_model.specs.Running.{IsLowest};
ghost use Rattle.lfs_memory.specs.inodes.Blocks.{blocks_of};
ghost use Rattle.lfs_memory.specs.inodes.Data.{is_data_code};
ghost use Rattle.lfs_memory.specs.inodes.Key.{entry_of};
ghost use Rattle.lfs_memory.specs.Lifting.{IsInMemory};
ghost use Rattle.lfs_memory.specs.Memory.{HoldsVolume, IsMemory};
ghost use Rattle.lfs_memory.specs.Moving.{ComesIn, MovesIn};
ghost use Rattle.std.specs.List.Sorted.{IsNonDecreasingBy};
ghost use Rattle.lfs_memory.specs.Memory.{room_of};
ghost use Rattle.lfs_log.specs.Brought.{OutNumber};
ghost use Rattle.lfs_log.specs.Cleaning.{AreCleanable};
ghost use Rattle.lfs_log.specs.Groups.{HasAboveAlone, HasAboveAndLeaves, IsAbove, IsClosedLeaf, IsLeaf, group_at, group_of};
ghost use Rattle.lfs_log.specs.Moving.{Anywhere, BringsAbove, EndsMoving, IsStored, Lacks, Moved, MovesAll, MovesOut, Never, StandsAmong, depth};
ghost use Rattle.lfs_log.specs.Relocating.{BringsOne, EndsBringing, IsAmong};

use crate::groups::{GROUPS, KeyList, group};
use crate::placing::save_block;
use crate::relocating::{are_in_order, bring_child, bring_inode};
use lfs_cache::CachedDevice;
use lfs_device::SectorDevice;
use lfs_layout::segment_of;
use lfs_memory::inodes::BlockKey;
use lfs_memory::lifting::{LiftFault, has_block};
use lfs_memory::present::locate;
use lfs_memory::{LogFault, LogMemory};
use lfs_model::BlockKind;
use lfs_model::limits::CHECKPOINT_SLOTS;

/// For how many blocks a pass has memory at least: for those above a group, and for a block with all
/// above it. What more it has is for leaves of pointers that wait, to be written one after the other.
pub const MOST_MOVING: u32 = 8;

/// How many blocks are on the way to a block, and it.
const MOST_WAY: u32 = 4;

/// Whether an address lies in one of these segments.
fn is_among(victims: &[u16], address: u32) -> bool
    ensures yes { IsTrue result → (CHECKPOINT_SLOTS ≤ address) × IsAmong victims.now address }
    ensures no { IsFalse result → CHECKPOINT_SLOTS ≤ address → IsAmong victims.now address → ⊥ }
{
    if address < CHECKPOINT_SLOTS {
        return false;
    }
    let segment = segment_of(address);
    for victim in victims {
        if u32::from(*victim) == segment {
            return true;
        }
    }
    false
}

/// Brings a block of a file into memory, if it is stored: whether it is there then. The block above
/// it is there.
///
/// # Errors
///
/// As those of `lift`.
fn lift_block<D: SectorDevice>(
    device: &mut CachedDevice<D>,
    memory: &mut LogMemory,
    key: BlockKey,
) -> Result<bool, LiftFault>
    requires above { (parent (entry_of key) ≡ entry_of key → ⊥)
        → IsInMemory memory.old (parent (entry_of key)) }
    requires memory { IsMemory memory.old }
    ensures brings { EndsBringing (D.state device.old) (D.state device.new) memory.old memory.new
        (entry_of key) result }
    ensures comes { IfOk result (λ found. IsTrue found → (memory.new ≡ memory.old)
        ⊎ MovesIn (D.state device.old) (D.state device.new) memory.old memory.new
        (entry_of key)) }
    ensures came { BringsOne memory.old memory.new (entry_of key) }
    ensures last { memory.new.usage.last ≡ memory.old.usage.last }
    ensures more { length memory.new.dirty.blocks ≤ length memory.old.dirty.blocks + 1 }
    ensures same { IfOk result (λ found. IsFalse found → memory.new ≡ memory.old) }
    ensures kept { OnErr result (memory.new.dirty ≡ memory.old.dirty) }
{
    let Some(_) = key.parent() else {
        return bring_inode(device, memory, key);
    };
    bring_child(device, memory, key)
}

/// Brings a block of a file into memory, which isn't there; the block above it is. So many may come
/// in, and one less then.
///
/// # Errors
///
/// `Full` where none may, `Device` where it isn't stored or a call of the device failed.
fn bring_one<D: SectorDevice>(
    device: &mut CachedDevice<D>,
    memory: &mut LogMemory,
    key: BlockKey,
    left: &mut u32,
) -> Result<(), LogFault>
    requires above { (parent (entry_of key) ≡ entry_of key → ⊥)
        → IsInMemory memory.old (parent (entry_of key)) }
    requires outside { IsInMemory memory.old (entry_of key) → ⊥ }
    requires room { length memory.old.dirty.blocks < memory.old.dirty.capacity.limit }
    requires memory { IsMemory memory.old }
    ensures ends { EndsMoving (D.state device.old) (D.state device.new) memory.old memory.new
        left.old left.new (IsStored (entry_of key))
        (λ M M'. ComesIn M M' (entry_of key) × (left.new + 1 ≡ left.old))
        (λ M. (left.old ≡ 0) × (CHECKPOINT_SLOTS ≤ M.at (entry_of key))) result }
    ensures inside { OnOk result (IsInMemory memory.new (entry_of key)) }
    ensures came { BringsOne memory.old memory.new (entry_of key) }
    ensures stays { (x : Entry) → IsInMemory memory.old x → IsInMemory memory.new x }
    ensures more { length memory.new.dirty.blocks ≤ length memory.old.dirty.blocks + 1 }
    ensures memory { IsMemory memory.new }
    ensures capacity { memory.new.dirty.capacity ≡ memory.old.dirty.capacity }
{
    are_in_order(memory);
    if *left == 0 {
        return Err(LogFault::Full);
    }
    match lift_block(device, memory, key) {
        Ok(true) => {
            are_in_order(memory);
            *left -= 1;
            Ok(())
        }
        Ok(false) => Err(LogFault::Device),
        Err(_) => {
            are_in_order(memory);
            Err(LogFault::Device)
        }
    }
}

/// Brings an inode or a block of pointers into memory with all above it, where they aren't there.
///
/// # Errors
///
/// As those of `bring_one`.
fn bring<D: SectorDevice>(
    device: &mut CachedDevice<D>,
    memory: &mut LogMemory,
    key: BlockKey,
    left: &mut u32,
) -> Result<(), LogFault>
    requires room { length memory.old.dirty.blocks + depth (entry_of key)
        ≤ memory.old.dirty.capacity.limit }
    requires memory { IsMemory memory.old }
    ensures ends { (victims : List ℕ) (group : ℕ) → IsAbove group (entry_of key) → EndsMoving
        (D.state device.old) (D.state device.new) memory.old memory.new left.old left.new
        (IsStored (entry_of key))
        (λ M M'. BringsAbove victims left.old left.new group M M' × (M'.at (entry_of key) ≡ 1))
        (Lacks victims left.old group) result }
    ensures inside { OnOk result (IsInMemory memory.new (entry_of key)) }
    ensures waits { (group : ℕ) → IsAbove group (entry_of key) → HasAboveAndLeaves memory.old group
        → HasAboveAndLeaves memory.new group }
    ensures stays { (x : Entry) → IsInMemory memory.old x → IsInMemory memory.new x }
    ensures only { (x : Entry) → IsInMemory memory.new x → IsInMemory memory.old x
        ⊎ (depth x ≤ depth (entry_of key)) }
    ensures more { length memory.new.dirty.blocks
        ≤ length memory.old.dirty.blocks + depth (entry_of key) }
    ensures memory { IsMemory memory.new }
    ensures capacity { memory.new.dirty.capacity ≡ memory.old.dirty.capacity }
{
    if has_block(memory, key) {
        are_in_order(memory);
        return Ok(());
    }
    let Some(above) = key.parent() else {
        return bring_one(device, memory, key, left);
    };
    bring(device, memory, above, left)?;
    bring_one(device, memory, key, left)
}

/// The block of pointers, or inode, above a block of data.
fn above_data(key: BlockKey) -> BlockKey
    requires { is_data_code key.code ≡ true }
    ensures parent { entry_of result ≡ parent (entry_of key) }
    ensures above { IsAbove (group_of (entry_of key)) (entry_of result) }
{
    key.parent().unwrap()
}

/// Brings a block of data into memory with all above it, and puts it into another segment.
///
/// # Errors
///
/// As those of `bring_one`, and `Halted` where a write failed.
fn move_data<D: SectorDevice>(
    device: &mut CachedDevice<D>,
    memory: &mut LogMemory,
    victims: &[u16],
    key: BlockKey,
    left: &mut u32,
    age: u32,
) -> Result<(), LogFault>
    requires data_block { is_data_code key.code ≡ true }
    requires waits { HasAboveAndLeaves memory.old (group_of (entry_of key)) }
    requires victims { AreCleanable memory.old.usage victims.now }
    requires room { length memory.old.dirty.blocks + MOST_WAY
        ≤ memory.old.dirty.capacity.limit }
    requires spare { length memory.old.dirty.blocks + left.old ≤ room_of memory.old }
    requires memory { IsMemory memory.old }
    requires size { HoldsVolume (D.state device.old) memory.old }
    ensures ends { EndsMoving (D.state device.old) (D.state device.new) memory.old memory.new
        left.old left.new (StandsAmong victims.now (entry_of key))
        (λ M M'. StandsAmong victims.now (entry_of key) M
        → MovesOut victims.now left.old left.new (entry_of key) M M')
        (Lacks victims.now left.old (group_of (entry_of key))) result }
    ensures waits { OnOk result (HasAboveAndLeaves memory.new (group_of (entry_of key))) }
{
    are_in_order(memory);
    let above = above_data(key);
    bring(device, memory, above, left)?;
    bring_one(device, memory, key, left)?;
    match save_block(device, memory, key, age) {
        Ok(()) => {
            are_in_order(memory);
            Ok(())
        }
        Err(_) => Err(LogFault::Halted),
    }
}

/// Moves a block of a file, if it stands in one of these segments: one of data goes to another
/// segment, and an inode or a block of pointers comes into memory.
///
/// # Errors
///
/// As those of `move_data`.
fn move_block<D: SectorDevice>(
    device: &mut CachedDevice<D>,
    memory: &mut LogMemory,
    victims: &[u16],
    key: BlockKey,
    left: &mut u32,
    age: u32,
) -> Result<(), LogFault>
    requires waits { HasAboveAndLeaves memory.old (group_of (entry_of key)) }
    requires victims { AreCleanable memory.old.usage victims.now }
    requires room { length memory.old.dirty.blocks + MOST_WAY
        ≤ memory.old.dirty.capacity.limit }
    requires spare { length memory.old.dirty.blocks + left.old ≤ room_of memory.old }
    requires memory { IsMemory memory.old }
    requires size { HoldsVolume (D.state device.old) memory.old }
    ensures ends { EndsMoving (D.state device.old) (D.state device.new) memory.old memory.new
        left.old left.new Anywhere (MovesOut victims.now left.old left.new (entry_of key))
        (Lacks victims.now left.old (group_of (entry_of key))) result }
    ensures waits { OnOk result (HasAboveAndLeaves memory.new (group_of (entry_of key))) }
{
    are_in_order(memory);
    let address = match locate(device, memory, key) {
        Ok(address) => address,
        Err(_) => return Err(LogFault::Device),
    };
    if !is_among(victims, address) {
        return Ok(());
    }
    if key.is_data() {
        move_data(device, memory, victims, key, left, age)
    } else {
        bring(device, memory, key, left)
    }
}

/// Whether a key is that of a leaf of pointers.
fn is_leaf(key: BlockKey) -> bool
    ensures yes { IsTrue result → IsLeaf (entry_of key) }
    ensures no { IsFalse result → IsLeaf (entry_of key) → ⊥ }
{
    match key.kind() {
        BlockKind::Leaf => true,
        _ => false,
    }
}

/// Whether a key is that of a leaf of an earlier group.
fn is_closed_leaf(key: BlockKey, at_group: u32) -> bool
    ensures yes { IsTrue result → IsClosedLeaf at_group (entry_of key) }
    ensures no { IsFalse result → IsClosedLeaf at_group (entry_of key) → ⊥ }
{
    is_leaf(key) && group(key) < at_group
}

/// Puts the leaves of earlier groups that are in memory into other segments.
///
/// # Errors
///
/// The device's fault.
fn put_leaves<D: SectorDevice>(
    device: &mut CachedDevice<D>,
    memory: &mut LogMemory,
    victims: &[u16],
    at_group: u32,
    left: u32,
    age: u32,
) -> Result<(), LogFault>
    requires waits { HasAboveAndLeaves memory.old at_group }
    requires victims { AreCleanable memory.old.usage victims.now }
    requires spare { length memory.old.dirty.blocks ≤ room_of memory.old }
    requires memory { IsMemory memory.old }
    requires size { HoldsVolume (D.state device.old) memory.old }
    ensures ends { EndsMoving (D.state device.old) (D.state device.new) memory.old memory.new
        left left Anywhere (Moved victims.now left left at_group at_group) Never result }
    ensures alone { OnOk result (HasAboveAlone memory.new at_group) }
{
    are_in_order(memory);
    while let Some(key) = memory.dirty.next() {
        if !is_closed_leaf(key, at_group) {
            return Ok(());
        }
        match save_block(device, memory, key, age) {
            Ok(()) => are_in_order(memory),
            Err(_) => return Err(LogFault::Halted),
        }
    }
    Ok(())
}

/// Makes room in memory for a block with all above it: where it lacks that, the leaves of earlier
/// groups go to other segments. Else they wait, so that leaves stand together, which change often.
///
/// # Errors
///
/// The device's fault.
fn make_room<D: SectorDevice>(
    device: &mut CachedDevice<D>,
    memory: &mut LogMemory,
    victims: &[u16],
    at_group: u32,
    left: u32,
    age: u32,
) -> Result<(), LogFault>
    requires waits { HasAboveAndLeaves memory.old at_group }
    requires limit { MOST_MOVING ≤ memory.old.dirty.capacity.limit }
    requires victims { AreCleanable memory.old.usage victims.now }
    requires spare { length memory.old.dirty.blocks ≤ room_of memory.old }
    requires memory { IsMemory memory.old }
    requires size { HoldsVolume (D.state device.old) memory.old }
    ensures ends { EndsMoving (D.state device.old) (D.state device.new) memory.old memory.new
        left left Anywhere (Moved victims.now left left at_group at_group) Never result }
    ensures waits { OnOk result (HasAboveAndLeaves memory.new at_group) }
    ensures room { OnOk result (length memory.new.dirty.blocks + MOST_WAY
        ≤ memory.new.dirty.capacity.limit) }
{
    are_in_order(memory);
    if memory.dirty.len() + MOST_WAY as usize <= memory.dirty.capacity() {
        return Ok(());
    }
    match put_leaves(device, memory, victims, at_group, left, age) {
        Ok(()) => {
            are_in_order(memory);
            Ok(())
        }
        Err(fault) => Err(fault),
    }
}

/// Puts all that is in memory into other segments, each block before the one that points to it.
///
/// # Errors
///
/// The device's fault.
fn put_all<D: SectorDevice>(
    device: &mut CachedDevice<D>,
    memory: &mut LogMemory,
    victims: &[u16],
    from: u32,
    to: u32,
    left: u32,
    age: u32,
) -> Result<(), LogFault>
    requires next { GROUPS * (from / GROUPS + 1) ≤ to }
    requires waits { HasAboveAndLeaves memory.old from }
    requires victims { AreCleanable memory.old.usage victims.now }
    requires spare { length memory.old.dirty.blocks ≤ room_of memory.old }
    requires memory { IsMemory memory.old }
    requires size { HoldsVolume (D.state device.old) memory.old }
    ensures ends { EndsMoving (D.state device.old) (D.state device.new) memory.old memory.new
        left left Anywhere (Moved victims.now left left from to) Never result }
    ensures empty { OnOk result (memory.new.dirty.blocks ≡ []) }
{
    are_in_order(memory);
    while let Some(key) = memory.dirty.next() {
        match save_block(device, memory, key, age) {
            Ok(()) => are_in_order(memory),
            Err(_) => return Err(LogFault::Halted),
        }
    }
    Ok(())
}

/// Goes on to the next group, with room in memory for a block with all above it. All that is in
/// memory goes to other segments where that group is one of another file.
///
/// # Errors
///
/// The device's fault.
fn go_on<D: SectorDevice>(
    device: &mut CachedDevice<D>,
    memory: &mut LogMemory,
    victims: &[u16],
    from: u32,
    to: u32,
    left: u32,
    age: u32,
) -> Result<(), LogFault>
    requires next { from ≤ to }
    requires waits { HasAboveAndLeaves memory.old from }
    requires limit { MOST_MOVING ≤ memory.old.dirty.capacity.limit }
    requires victims { AreCleanable memory.old.usage victims.now }
    requires spare { length memory.old.dirty.blocks ≤ room_of memory.old }
    requires memory { IsMemory memory.old }
    requires size { HoldsVolume (D.state device.old) memory.old }
    ensures ends { EndsMoving (D.state device.old) (D.state device.new) memory.old memory.new
        left left Anywhere (Moved victims.now left left from to) Never result }
    ensures waits { OnOk result (HasAboveAndLeaves memory.new to) }
    ensures room { OnOk result (length memory.new.dirty.blocks + MOST_WAY
        ≤ memory.new.dirty.capacity.limit) }
{
    if from / GROUPS == to / GROUPS {
        return make_room(device, memory, victims, to, left, age);
    }
    put_all(device, memory, victims, from, to, left, age)
}

/// Moves the blocks of these keys, which stand in the order of their groups, those that stand in
/// these segments. So many may come into memory in all.
///
/// # Errors
///
/// As those of `move_block`.
pub fn move_blocks<D: SectorDevice>(
    device: &mut CachedDevice<D>,
    memory: &mut LogMemory,
    victims: &[u16],
    keys: &KeyList,
    most: u32,
    age: u32,
) -> Result<(), LogFault>
    requires order { IsNonDecreasingBy group_at keys.now.keys }
    requires nothing { memory.old.dirty.blocks ≡ [] }
    requires victims { AreCleanable memory.old.usage victims.now }
    requires limit { MOST_MOVING ≤ memory.old.dirty.capacity.limit }
    requires spare { most ≤ room_of memory.old }
    requires memory { IsMemory memory.old }
    requires size { HoldsVolume (D.state device.old) memory.old }
    ensures ends { EndsMoving (D.state device.old) (D.state device.new) memory.old memory.new
        most 0 Anywhere (MovesAll victims.now keys.now.keys) (λ M. OutNumber victims.now most M) result }
    ensures nothing { OnOk result (memory.new.dirty.blocks ≡ []) }
{
    are_in_order(memory);
    let mut left = most;
    let mut at_group = 0;
    for at in 0..keys.len() {
        let key = keys.get(at);
        let next = group(key);
        go_on(device, memory, victims, at_group, next, left, age)?;
        move_block(device, memory, victims, key, &mut left, age)?;
        at_group = next;
    }
    let end = GROUPS * (at_group / GROUPS + 1);
    put_all(device, memory, victims, at_group, end, left, age)
}
