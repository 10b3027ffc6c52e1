//! The keys of the blocks that stand in segments are listed, so that a pass of the cleaner moves them
//! file by file.
ghost use Rattle.std.specs.Prelude.{◌≡◌, ◌<◌, ◌≤◌, ◌+◌, ◌*◌, ℕ, [], length, get_or, OnOk, OnErr};
ghost use Rattle.lfs_model.specs.Entry as entry;
ghost use Rattle.lfs_model.specs.Reach.{segment_start};
ghost use Rattle.lfs_model.specs.Summary.{FitsSummary, IsPlaced};
ghost use Rattle.lfs_memory.specs.Memory.{HoldsVolume, IsMemory};
ghost use Rattle.lfs_memory.specs.Present.{FailsFromDevice};
ghost use Rattle.lfs_log.specs.Collecting.{AddsKeys, Collects, IsFound, IsListed, IsTableLost, LiftsOne, LiftsTables, ListsAll, ListsBetween, NamesFound};
ghost use Rattle.lfs_log.specs.Relocating.{Relocates};

use crate::groups::KeyList;
use crate::relocating::{key_of, read_sector, relocate_map, relocate_usage};
use lfs_cache::CachedDevice;
use lfs_device::{DeviceFault, SectorDevice};
use lfs_layout::{BlockName, SummaryView};
use lfs_memory::LogMemory;
use lfs_model::BlockKind;
use lfs_model::limits::{CHECKPOINT_SLOTS, MOST_SEGMENTS, SEGMENT_SECTORS};

/// Lists the key of a block of a file.
#[tactic(auto, using(crate::proofs::Collected::adds_one))]
fn list_block(keys: &mut KeyList, name: BlockName)
    requires placed { IsPlaced name.kind name.file name.index }
    requires file { 1 ≤ name.file }
    requires room { length keys.old.keys < keys.old.room }
    ensures adds { AddsKeys keys.old keys.new 1 }
    ensures lists { IsListed keys.new.keys (entry.entry_of name) }
{
    keys.push(key_of(name));
}

/// Lists the key of the block that a summary names, if it is one of a file. One of the tables will
/// be written elsewhere, if it is at this address that it stands.
///
/// # Errors
///
/// Where a block of the tables isn't counted there.
#[tactic(auto, unfolding(lfs_model::specs::Summary::IsPlaced))]
fn collect_block(
    memory: &mut LogMemory,
    name: BlockName,
    address: u32,
    keys: &mut KeyList,
) -> Result<(), DeviceFault>
    requires placed { IsPlaced name.kind name.file name.index }
    requires above { CHECKPOINT_SLOTS ≤ address }
    requires room { length keys.old.keys < keys.old.room }
    ensures lifts { LiftsOne memory.old memory.new }
    ensures adds { AddsKeys keys.old keys.new 1 }
    ensures lists { OnOk result (IsFound keys.new.keys memory.new (entry.entry_of name) address) }
    ensures lost { OnErr result (IsTableLost memory.new) }
{
    match name.kind {
        BlockKind::Map => relocate_map(memory, name.index, address),
        BlockKind::Usage => relocate_usage(memory, name.index, address),
        _ => {
            list_block(keys, name);
            Ok(())
        }
    }
}

/// Lists the keys of the blocks of files that a chunk names.
///
/// # Errors
///
/// As those of `collect_block`.
fn collect_chunk(
    memory: &mut LogMemory,
    names: &SummaryView<'_>,
    first: u32,
    keys: &mut KeyList,
) -> Result<(), DeviceFault>
    requires fits { FitsSummary names.now }
    requires above { CHECKPOINT_SLOTS ≤ first }
    requires few { first ≤ CHECKPOINT_SLOTS + SEGMENT_SECTORS * (MOST_SEGMENTS + 1) }
    requires room { length keys.old.keys + length names.now ≤ keys.old.room }
    ensures lifts { (n : ℕ) × LiftsTables n memory.old memory.new }
    ensures adds { AddsKeys keys.old keys.new (length names.now) }
    ensures lists { OnOk result (NamesFound keys.new.keys memory.new names.now first
        (length names.now)) }
    ensures lost { OnErr result (IsTableLost memory.new) }
{
    for place in 0..names.len() {
        collect_block(memory, names.get(place), first + place as u32, keys)?;
    }
    Ok(())
}

/// Lists the keys of the blocks of files that the summaries of a segment name, chunk by chunk.
///
/// # Errors
///
/// As those of `collect_keys`.
fn collect_segment<D: SectorDevice>(
    device: &mut CachedDevice<D>,
    memory: &mut LogMemory,
    segment: u32,
    keys: &mut KeyList,
) -> Result<(), DeviceFault>
    requires inside { segment < length memory.old.usage.segments }
    requires closed { memory.old.chunk.names ≡ [] }
    requires memory { IsMemory memory.old }
    requires size { HoldsVolume (D.state device.old) memory.old }
    requires room { length keys.old.keys + SEGMENT_SECTORS ≤ keys.old.room }
    ensures collects { Collects (D.state device.old) (D.state device.new) memory.old memory.new
        keys.old keys.new SEGMENT_SECTORS }
    ensures lists { OnOk result (ListsBetween (D.state device.old) (D.state device.new) memory.old
        memory.new (segment_start segment) (segment_start (segment + 1)) keys.new.keys) }
    ensures failed { OnErr result (FailsFromDevice (D.state device.old) (D.state device.new)
        memory.old) }
    ensures no_failure { OnOk result ((D.state device.new).failures
        ≡ (D.state device.old).failures) }
{
    let mut sector = [0; 512];
    let first = CHECKPOINT_SLOTS + SEGMENT_SECTORS * segment;
    let used = u32::from(memory.usage.state(segment).used);
    let mut at = 0;
    while at < used {
        read_sector(device, first + at, &mut sector)?;
        let Some(names) = SummaryView::decode(&sector) else {
            return Err(DeviceFault);
        };
        let count = names.len() as u32;
        if count >= used - at {
            return Err(DeviceFault);
        }
        collect_chunk(memory, &names, first + at + 1, keys)?;
        at += 1 + count;
    }
    Ok(())
}

/// Lists the keys of the blocks of files that the summaries of these segments name. Blocks of the
/// tables that stand there will be written elsewhere.
///
/// # Errors
///
/// Where a summary can't be read, is none, or a block of the tables isn't counted there.
pub fn collect_keys<D: SectorDevice>(
    device: &mut CachedDevice<D>,
    memory: &mut LogMemory,
    victims: &[u16],
    keys: &mut KeyList,
) -> Result<(), DeviceFault>
    requires inside { (i : ℕ) → i < length victims.now
        → get_or victims.now i 0 < length memory.old.usage.segments }
    requires closed { memory.old.chunk.names ≡ [] }
    requires memory { IsMemory memory.old }
    requires size { HoldsVolume (D.state device.old) memory.old }
    requires room { length keys.old.keys + SEGMENT_SECTORS * length victims.now ≤ keys.old.room }
    ensures relocates { Relocates (D.state device.old) (D.state device.new) memory.old memory.new }
    ensures dirty { memory.new.dirty ≡ memory.old.dirty }
    ensures last { memory.new.usage.last ≡ memory.old.usage.last }
    ensures room { keys.old.room ≤ keys.new.room }
    ensures lists { OnOk result (ListsAll (D.state device.old) (D.state device.new) memory.old
        memory.new victims.now keys.new.keys) }
    ensures failed { OnErr result (FailsFromDevice (D.state device.old) (D.state device.new)
        memory.old) }
    ensures no_failure { OnOk result ((D.state device.new).failures
        ≡ (D.state device.old).failures) }
{
    for victim in victims {
        collect_segment(device, memory, u32::from(*victim), keys)?;
    }
    Ok(())
}
