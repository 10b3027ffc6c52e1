//! How the usage blocks that changed get new places, and are written there once all counts are
//! final.
ghost use Rattle.std.specs.Prelude.{◌≡◌, ◌≢◌, ◌<◌, ◌≤◌, ◌+◌, ◌/◌, [], ℕ, true, false, length, IfSome, IfNone, OnOk, OnErr};
ghost use Rattle.lfs_memory.specs.segments.Chunk.{due_in};
ghost use Rattle.lfs_memory.specs.segments.Table.{address_of, stale_of, used_of, clean_in};
ghost use Rattle.lfs_memory.specs.Memory.{IsMemory, HoldsVolume, Goes, Stops, room_of};
ghost use Rattle.lfs_log.specs.Keeping.{OnlyPlaces, OnlyUsage};
ghost use Rattle.lfs_log.specs.Placing.{EndsSaving};
ghost use Rattle.lfs_log.specs.Settling.{IsNowhere, Leaves, Resettles, IsResettled, IsAnew, AreAnew, IsFilled, blocks_in};

use crate::placing::seal_full;
use lfs_device::{DeviceFault, SectorDevice};
use lfs_layout::{BlockName, place_in_segment, segment_of};
use lfs_memory::LogMemory;
use lfs_memory::inodes::IN_MEMORY;
use lfs_memory::segments::{Usage, write};
use lfs_model::BlockKind;
use lfs_model::limits::{BLOCK_SEGMENTS, CHECKPOINT_SLOTS, USAGE_BLOCKS};

/// The usage block lives no more at its address, which it may have left before. Only under a device
/// that broke its word it doesn't live there.
fn leave(usage: &mut Usage, index: u32) -> Result<(), DeviceFault>
    requires { index < USAGE_BLOCKS }
    ensures left { OnOk result (Leaves usage.old usage.new index) }
    ensures nowhere { OnErr result (IsNowhere usage.old index) }
    ensures same { OnErr result (usage.new ≡ usage.old) }
    ensures used { (s : ℕ) → used_of usage.new s ≡ used_of usage.old s }
    ensures clean { clean_in usage.new.segments ≡ clean_in usage.old.segments }
{
    let address = usage.block(index).address;
    if address == IN_MEMORY {
        return Ok(());
    }
    if address < CHECKPOINT_SLOTS {
        return Err(DeviceFault);
    }
    let segment = segment_of(address);
    if segment >= usage.segments() {
        return Err(DeviceFault);
    }
    if usage.state(segment).live == 0 {
        return Err(DeviceFault);
    }
    usage.lift(segment, true);
    Ok(())
}

/// The usage block leaves its address and gets the next place.
fn resettle(memory: &mut LogMemory, index: u32, age: u32) -> Result<(), DeviceFault>
    requires index { index < blocks_in memory.old.usage }
    requires room { 0 < room_of memory.old }
    requires memory { IsMemory memory.old }
    ensures done { OnOk result (Resettles memory.old memory.new index age) }
    ensures nowhere { OnErr result (IsNowhere memory.old.usage index) }
    ensures only { OnlyUsage memory.old memory.new }
    ensures due { OnOk result (due_in memory.new.chunk memory.new.usage
        + clean_in memory.new.usage.segments
        ≤ due_in memory.old.chunk memory.old.usage + clean_in memory.old.usage.segments) }
    ensures kept { OnErr result (memory.new.usage ≡ memory.old.usage) }
    ensures chunk { OnErr result (memory.new.chunk ≡ memory.old.chunk) }
{
    leave(&mut memory.usage, index)?;
    let name = BlockName {
        file: 0,
        kind: BlockKind::Usage,
        index,
    };
    let place = memory.next_place(name, true, age);
    memory.usage.set_block(index, place, true);
    Ok(())
}

/// A usage block that changed gets the next place, and a chunk that is full by that is sealed.
///
/// # Errors
///
/// The device's fault.
pub fn settle_block<D: SectorDevice>(
    device: &mut D,
    memory: &mut LogMemory,
    index: u32,
    age: u32,
) -> Result<(), DeviceFault>
    requires index { index < blocks_in memory.old.usage }
    requires stale { stale_of memory.old.usage index ≡ true }
    requires room { 0 < room_of memory.old }
    requires memory { IsMemory memory.old }
    requires size { HoldsVolume (D.state device.old) memory.old }
    ensures saves { EndsSaving (D.state device.old) (D.state device.new) memory.old memory.new 1 0
        result }
    ensures moved { OnOk result (IsResettled memory.old.usage memory.new.usage index) }
    ensures only { OnlyUsage memory.old memory.new }
{
    resettle(memory, index, age)?;
    seal_full(device, memory)
}

/// Whether the usage block stands where the acknowledged checkpoint needs nothing.
fn is_anew(usage: &Usage, index: u32) -> bool
    requires { index < USAGE_BLOCKS }
    ensures yes { result ≡ true → IsAnew usage.now index }
    ensures no { result ≢ true → IsAnew usage.now index → ⊥ }
{
    let address = usage.block(index).address;
    if address < CHECKPOINT_SLOTS {
        return false;
    }
    let segment = segment_of(address);
    if segment >= usage.segments() {
        return false;
    }
    u32::from(usage.state(segment).kept) <= place_in_segment(address)
}

/// How many usage blocks there are.
fn block_count(usage: &Usage) -> u32
    ensures count { result ≡ blocks_in usage.now }
    ensures most { result ≤ USAGE_BLOCKS }
{
    (usage.segments() + (BLOCK_SEGMENTS - 1)) / BLOCK_SEGMENTS
}

/// The first usage block that changed and doesn't stand at such a place.
fn next_out(usage: &Usage) -> Option<u32>
    ensures some { IfSome result (λ j. (j < blocks_in usage.now) × (stale_of usage.now j ≡ true)
        × (IsAnew usage.now j → ⊥)) }
    ensures none { IfNone result (AreAnew usage.now) }
{
    for index in 0..block_count(usage) {
        if usage.block(index).stale && !is_anew(usage, index) {
            return Some(index);
        }
    }
    None
}

/// All usage blocks that changed get places in segments that were taken since the acknowledged
/// checkpoint. As one gets its place others may change, so it goes on until all stand there.
///
/// # Errors
///
/// The device's fault.
pub fn settle_usage<D: SectorDevice>(
    device: &mut D,
    memory: &mut LogMemory,
    age: u32,
) -> Result<(), DeviceFault>
    requires room { USAGE_BLOCKS ≤ room_of memory.old }
    requires memory { IsMemory memory.old }
    requires size { HoldsVolume (D.state device.old) memory.old }
    ensures saves { EndsSaving (D.state device.old) (D.state device.new) memory.old memory.new
        USAGE_BLOCKS 0 result }
    ensures anew { OnOk result (AreAnew memory.new.usage) }
    ensures only { OnlyUsage memory.old memory.new }
{
    for round in 0..USAGE_BLOCKS {
        let Some(index) = next_out(&memory.usage) else {
            return Ok(());
        };
        settle_block(device, memory, index, age)?;
    }
    Ok(())
}

/// A usage block is written where it stands, if it changed.
fn fill_block<D: SectorDevice>(
    device: &mut D,
    memory: &mut LogMemory,
    index: u32,
) -> Result<(), DeviceFault>
    requires anew { AreAnew memory.old.usage }
    requires closed { memory.old.chunk.names ≡ [] }
    requires index { index < blocks_in memory.old.usage }
    requires memory { IsMemory memory.old }
    requires size { HoldsVolume (D.state device.old) memory.old }
    ensures done { OnOk result (Goes (D.state device.old) (D.state device.new) memory.old memory.new
        0) }
    ensures stopped { OnErr result (Stops (D.state device.old) (D.state device.new) memory.old) }
    ensures filled { OnOk result (IsFilled memory.old.usage memory.new.usage index) }
    ensures only { OnlyPlaces memory.old memory.new }
    ensures told { length (D.state device.new).told ≤ length (D.state device.old).told + 1 }
{
    let place = memory.usage.block(index);
    if !place.stale {
        return Ok(());
    }
    let bytes = memory.usage.spelled(index);
    write(device, &memory.usage, place.address, bytes, false)?;
    memory.usage.set_block(index, place.address, false);
    Ok(())
}

/// The usage blocks that changed are written where they stand.
///
/// # Errors
///
/// The device's fault.
pub fn fill_usage<D: SectorDevice>(
    device: &mut D,
    memory: &mut LogMemory,
) -> Result<(), DeviceFault>
    requires anew { AreAnew memory.old.usage }
    requires closed { memory.old.chunk.names ≡ [] }
    requires memory { IsMemory memory.old }
    requires size { HoldsVolume (D.state device.old) memory.old }
    ensures done { OnOk result (Goes (D.state device.old) (D.state device.new) memory.old memory.new
        0) }
    ensures stopped { OnErr result (Stops (D.state device.old) (D.state device.new) memory.old) }
    ensures fresh { OnOk result ((j : ℕ) → j < blocks_in memory.new.usage
        → stale_of memory.new.usage j ≡ false) }
    ensures address { OnOk result ((j : ℕ)
        → address_of memory.new.usage j ≡ address_of memory.old.usage j) }
    ensures only { OnlyPlaces memory.old memory.new }
    ensures told { length (D.state device.new).told
        ≤ length (D.state device.old).told + USAGE_BLOCKS }
{
    for index in 0..block_count(&memory.usage) {
        fill_block(device, memory, index)?;
    }
    Ok(())
}
