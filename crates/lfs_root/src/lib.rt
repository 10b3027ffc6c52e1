//! The two checkpoint slots: the newest checkpoint of a device, and its replacement by a newer one.
#![tactic(auto)]

ghost use Rattle.std.specs.Prelude.{◌≡◌, ◌+◌, ◌%◌, ◌<◌, ◌≤◌, nat_lt, ℕ, List, length, IsErr, IfOk, IfSome, OnOk, OnErr, IsErrOf};
ghost use Rattle.lfs_model.specs.Checkpoint.{CheckpointValue, FitsCheckpoint, checkpoint_sector, is_last, layout_version, rank};
ghost use Rattle.lfs_model.specs.Device.{Cell, put, MayWriteUnit, Only, AllLeft, Carries, Elapses, IsUntouched, LeavesOnly, ComesFrom};
ghost use Rattle.lfs_model.specs.Slots.{SlotHolds, IsNewest, HasNoCheckpoint, NewestIs, NewestIsOneOf};
ghost use Rattle.lfs_root.specs.Apart.{SlotsApart};

use lfs_device::{DeviceFault, ReadFault, SectorDevice};
use lfs_layout::Checkpoint;
use lfs_model::limits::{CHECKPOINT_SLOTS, LAST_VERSION};

/// Why no checkpoint is given.
#[derive(Clone, Copy, Debug, PartialEq, Eq)]
pub enum RootFault {
    /// Neither slot holds a checkpoint.
    Missing,
    /// A device call failed.
    Device,
}

/// The checkpoint that this slot holds, if it holds one.
fn read_slot<D: SectorDevice>(device: &mut D, slot: u32) -> Result<Option<Checkpoint>, DeviceFault>
    requires { slot < (D.state device.old).size }
    ensures fits { IfOk result (λ found. IfSome found FitsCheckpoint) }
    ensures holds { IfOk result (λ found. (D.state device.new).keeps_model
        → SlotHolds (D.state device.old).content slot found) }
    ensures failed { OnErr result ((D.state device.old).failures < (D.state device.new).failures) }
    ensures no_failure { OnOk result
        ((D.state device.new).failures ≡ (D.state device.old).failures) }
    ensures untouched { IsUntouched (D.state device.old) (D.state device.new) }
    ensures carries { Carries (D.state device.old) (D.state device.new) }
    ensures time { Elapses (D.state device.old) (D.state device.new) }
    ensures told { (D.state device.new).told ≡ (D.state device.old).told }
{
    let mut bytes = [0; 512];
    match device.read(slot, &mut bytes) {
        Ok(()) => {}
        Err(ReadFault::Unreadable) => return Ok(None),
        Err(ReadFault::Failed) => return Err(DeviceFault),
    }
    let Some(checkpoint) = Checkpoint::decode(&bytes) else {
        return Ok(None);
    };
    if checkpoint.number % 2 != u64::from(slot) {
        return Ok(None);
    }
    Ok(Some(checkpoint))
}

/// Whether it is of the last version of the layout.
fn is_of_last(checkpoint: &Checkpoint) -> bool
    ensures { result ≡ is_last (layout_version checkpoint.now) }
{
    checkpoint.version == LAST_VERSION
}

/// Whether the second counts before the first: it has the greater number, or the first alone is of
/// the last version of the layout.
fn is_before(first: &Checkpoint, second: &Checkpoint) -> bool
    ensures { FitsCheckpoint first.now → FitsCheckpoint second.now
        → result ≡ nat_lt (rank first.now) (rank second.now) }
{
    match (is_of_last(first), is_of_last(second)) {
        (true, false) => true,
        (false, true) => false,
        _ => first.number < second.number,
    }
}

/// The checkpoint that counts before the other.
fn greater(first: Option<Checkpoint>, second: Option<Checkpoint>) -> Option<Checkpoint>
    ensures fits { IfSome first FitsCheckpoint → IfSome second FitsCheckpoint
        → IfSome result FitsCheckpoint }
    ensures newest { (content : List Cell) → SlotHolds content 0 first → SlotHolds content 1 second
        → NewestIs content result }
{
    match (first, second) {
        (Some(first), Some(second)) => {
            if is_before(&first, &second) {
                Some(second)
            } else {
                Some(first)
            }
        }
        (Some(first), None) => Some(first),
        (None, second) => second,
    }
}

/// Syncs, and then gives the newest checkpoint of the two slots, sectors 0 and 1. A slot that is
/// unreadable, that holds no checkpoint, or one whose number has the other slot's parity, counts as
/// empty. Where one slot holds a checkpoint of the last version of the layout, and the other one of
/// an older version, the older version counts. After `Ok` and `Missing` all that the device holds is durable, and at no moment does a
/// stop leave what it couldn't leave at the start.
///
/// # Errors
///
/// `Missing` where neither slot holds a checkpoint, `Device` where a call of the device failed.
pub fn newest<D: SectorDevice>(device: &mut D) -> Result<Checkpoint, RootFault>
    requires { CHECKPOINT_SLOTS ≤ (D.state device.old).size }
    ensures fits { IfOk result FitsCheckpoint }
    ensures found { IfOk result (λ c. (D.state device.new).keeps_model
        → IsNewest (D.state device.old).content c) }
    ensures missing { IsErrOf result RootFault.Missing → (D.state device.new).keeps_model
        → HasNoCheckpoint (D.state device.old).content }
    ensures durable { OnOk result ((D.state device.new).keeps_model
        → Only (D.state device.old).content (D.state device.new)) }
    ensures durable_missing { IsErrOf result RootFault.Missing → (D.state device.new).keeps_model
        → Only (D.state device.old).content (D.state device.new) }
    ensures failed { IsErrOf result RootFault.Device
        → (D.state device.old).failures < (D.state device.new).failures }
    ensures no_failure { OnOk result
        ((D.state device.new).failures ≡ (D.state device.old).failures) }
    ensures no_failure_missing { IsErrOf result RootFault.Missing
        → (D.state device.new).failures ≡ (D.state device.old).failures }
    ensures untouched { IsUntouched (D.state device.old) (D.state device.new) }
    ensures any_moment { LeavesOnly (D.state device.old) (D.state device.new)
        (D.state device.old).may_leave }
    ensures carries { Carries (D.state device.old) (D.state device.new) }
    ensures told { length (D.state device.new).told ≤ length (D.state device.old).told + 1 }
{
    if device.sync().is_err() {
        return Err(RootFault::Device);
    }
    let Ok(first) = read_slot(device, 0) else {
        return Err(RootFault::Device);
    };
    let Ok(second) = read_slot(device, 1) else {
        return Err(RootFault::Device);
    };
    match greater(first, second) {
        Some(checkpoint) => Ok(checkpoint),
        None => Err(RootFault::Missing),
    }
}

/// Writes a sector and syncs. A stop may also spoil the other sectors of its unit.
fn write_durably<D: SectorDevice>(
    device: &mut D,
    sector: u32,
    bytes: &[u8; 512],
) -> Result<(), DeviceFault>
    requires { sector < (D.state device.old).size }
    ensures any_moment { LeavesOnly (D.state device.old) (D.state device.new)
        (ComesFrom (D.state device.old)
        (MayWriteUnit (D.state device.old).unit sector bytes.now)) }
    ensures left { AllLeft (D.state device.new)
        (ComesFrom (D.state device.old)
        (MayWriteUnit (D.state device.old).unit sector bytes.now)) }
    ensures content { OnOk result ((D.state device.new).keeps_model
        → (D.state device.new).content ≡ put (D.state device.old).content sector bytes.now) }
    ensures durable { OnOk result ((D.state device.new).keeps_model
        → Only (D.state device.new).content (D.state device.new)) }
    ensures failed { OnErr result ((D.state device.old).failures < (D.state device.new).failures) }
    ensures failed_order { OnErr result
        ((D.state device.old).failed_orders < (D.state device.new).failed_orders) }
    ensures borne { OnErr result ((n : ℕ) → (D.state device.old).bears n
        → n ≤ length (D.state device.old).told + 1) }
    ensures no_failure { OnOk result
        ((D.state device.new).failures ≡ (D.state device.old).failures) }
    ensures carries { Carries (D.state device.old) (D.state device.new) }
    ensures told { length (D.state device.new).told ≤ length (D.state device.old).told + 2 }
{
    device.write_around(sector, bytes)?;
    device.sync()?;
    Ok(())
}

/// Writes the checkpoint to its slot, the sector that is its number modulo 2, and syncs. After `Ok`
/// nothing else has changed. A stop or a failure may also spoil the other sectors of the slot's unit.
/// Where the newest checkpoint is the one before it in number, and both are of the last version of
/// the layout or neither is, `Ok` makes this one the newest. If the
/// slots are of different units too, a stop at any moment leaves that one or this as the newest.
///
/// # Errors
///
/// `DeviceFault` where the write or the sync failed.
pub fn replace<D: SectorDevice>(device: &mut D, checkpoint: &Checkpoint) -> Result<(), DeviceFault>
    requires size { CHECKPOINT_SLOTS ≤ (D.state device.old).size }
    requires fits { FitsCheckpoint checkpoint.now }
    ensures any_moment { LeavesOnly (D.state device.old) (D.state device.new)
        (ComesFrom (D.state device.old) (MayWriteUnit (D.state device.old).unit
        (checkpoint.now.number % 2) (checkpoint_sector checkpoint.now))) }
    ensures newest { SlotsApart (D.state device.old).unit → (last : CheckpointValue)
        → AllLeft (D.state device.old) (λ c. IsNewest c last)
        → checkpoint.now.number ≡ last.number + 1
        → is_last (layout_version checkpoint.now) ≡ is_last (layout_version last)
        → LeavesOnly (D.state device.old) (D.state device.new) (NewestIsOneOf last checkpoint.now) }
    ensures left { AllLeft (D.state device.new)
        (ComesFrom (D.state device.old) (MayWriteUnit (D.state device.old).unit
        (checkpoint.now.number % 2) (checkpoint_sector checkpoint.now))) }
    ensures left_newest { SlotsApart (D.state device.old).unit → (last : CheckpointValue)
        → AllLeft (D.state device.old) (λ c. IsNewest c last)
        → checkpoint.now.number ≡ last.number + 1
        → is_last (layout_version checkpoint.now) ≡ is_last (layout_version last)
        → AllLeft (D.state device.new) (NewestIsOneOf last checkpoint.now) }
    ensures content { OnOk result ((D.state device.new).keeps_model
        → (D.state device.new).content ≡ put (D.state device.old).content
        (checkpoint.now.number % 2) (checkpoint_sector checkpoint.now)) }
    ensures durable { OnOk result ((D.state device.new).keeps_model
        → Only (D.state device.new).content (D.state device.new)) }
    ensures acknowledged { OnOk result ((last : CheckpointValue) → (D.state device.new).keeps_model
        → AllLeft (D.state device.old) (λ c. IsNewest c last)
        → checkpoint.now.number ≡ last.number + 1
        → is_last (layout_version checkpoint.now) ≡ is_last (layout_version last)
        → AllLeft (D.state device.new) (λ c. IsNewest c checkpoint.now)) }
    ensures failed { OnErr result ((D.state device.old).failures < (D.state device.new).failures) }
    ensures failed_order { OnErr result
        ((D.state device.old).failed_orders < (D.state device.new).failed_orders) }
    ensures borne { OnErr result ((n : ℕ) → (D.state device.old).bears n
        → n ≤ length (D.state device.old).told + 1) }
    ensures no_failure { OnOk result
        ((D.state device.new).failures ≡ (D.state device.old).failures) }
    ensures carries { Carries (D.state device.old) (D.state device.new) }
    ensures told { length (D.state device.new).told ≤ length (D.state device.old).told + 2 }
{
    let slot = (checkpoint.number % 2) as u32;
    write_durably(device, slot, &checkpoint.encode())
}

/// A content has one newest checkpoint.
pub fn one_newest()
    ensures { (content : List Cell) (c d : CheckpointValue) → IsNewest content c
        → IsNewest content d → c ≡ d }
{}
