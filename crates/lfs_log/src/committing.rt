//! A commit: all that changed goes to clean segments, and then the next checkpoint to its slot.
//! After the checkpoints of the Sprite LFS paper (1992, section 4.1).
ghost use Rattle.std.specs.Prelude.{◌≡◌, ◌<◌, ◌≤◌, ◌+◌, ◌^◌, ◌-◌, [], length, OnOk, OnErr};
ghost use Rattle.lfs_memory.specs.segments.Table.{clean_in};
ghost use Rattle.lfs_log.specs.Settling.{AreAnew};
ghost use Rattle.lfs_memory.specs.Memory.{IsMemory, AreMapsOut, EndsUnit, HoldsVolume, Goes, OnlyPads, PadsChunk, Stops, room_of};
ghost use Rattle.lfs_memory.specs.Moving.{HoldsOn, StaysPut};
ghost use Rattle.lfs_log.specs.Publishing.{IsAllOut};
ghost use Rattle.lfs_log.specs.Versions.{number_of};
ghost use Rattle.lfs_log.specs.Saving.{CommitsAll, CommitsOpen, CommitFails, CommitFailsOpen, IsSpared, IsSparedBy, orders_open, segments_for, segments_open};
ghost use Rattle.lfs_log.specs.Placing.{EndsSaving};
ghost use Rattle.lfs_log.specs.Telling.{orders_due};

use crate::layout_version::LayoutVersion;
use crate::mapping::save_map;
use crate::placing::{save_files, seal};
use crate::publishing::publish;
use crate::settling::{fill_usage, settle_usage};
use lfs_device::{DeviceFault, SectorDevice};
use lfs_memory::LogMemory;
use lfs_model::limits::{MAP_BLOCKS, OPEN_CHUNK_BLOCKS, TABLE_BLOCKS};

/// All that is to be saved gets its place, each block before those that point to it.
fn place_all<D: SectorDevice>(
    device: &mut D,
    memory: &mut LogMemory,
    age: u32,
) -> Result<(), DeviceFault>
    requires room { length memory.old.dirty.blocks + TABLE_BLOCKS ≤ room_of memory.old }
    requires memory { IsMemory memory.old }
    requires size { HoldsVolume (D.state device.old) memory.old }
    ensures saves { EndsSaving (D.state device.old) (D.state device.new) memory.old memory.new
        (length memory.old.dirty.blocks + TABLE_BLOCKS)
        (length memory.old.dirty.blocks + MAP_BLOCKS) result }
    ensures dirty { OnOk result (memory.new.dirty.blocks ≡ []) }
    ensures capacity { OnOk result (memory.new.dirty.capacity ≡ memory.old.dirty.capacity) }
    ensures maps { OnOk result (AreMapsOut memory.new.map) }
    ensures anew { OnOk result (AreAnew memory.new.usage) }
{
    save_files(device, memory, age)?;
    save_map(device, memory, age)?;
    settle_usage(device, memory, age)?;
    Ok(())
}

/// Pads the chunk that is being written until it ends on a unit.
fn pad_rest(memory: &mut LogMemory)
    requires begun { 0 < length memory.old.chunk.names }
    requires memory { IsMemory memory.old }
    ensures pads { PadsChunk memory.old memory.new }
    ensures ends { EndsUnit memory.new }
{
    for _ in 0..memory.lacking() {
        memory.pad();
    }
}

/// Ends the chunk that is being written, if there is one, on a unit.
pub fn seal_rest<D: SectorDevice>(device: &mut D, memory: &mut LogMemory) -> Result<(), DeviceFault>
    requires memory { IsMemory memory.old }
    requires size { HoldsVolume (D.state device.old) memory.old }
    ensures done { OnOk result (Goes (D.state device.old) (D.state device.new) memory.old memory.new
        OPEN_CHUNK_BLOCKS) }
    ensures stopped { OnErr result (Stops (D.state device.old) (D.state device.new) memory.old) }
    ensures stays { OnOk result (HoldsOn (D.state device.old) (D.state device.new)
        memory.old memory.new StaysPut) }
    ensures only { OnlyPads memory.old memory.new }
    ensures ended { OnOk result (memory.new.chunk.names ≡ []) }
    ensures told { length (D.state device.new).told + clean_in memory.new.usage.segments
        ≤ orders_due (D.state device.old) memory.old }
{
    if memory.chunk.is_empty() {
        return Ok(());
    }
    pad_rest(memory);
    seal(device, memory)
}

/// Writes all that changed behind the chunk that has begun, and to segments that were clean.
fn write_out<D: SectorDevice>(
    device: &mut D,
    memory: &mut LogMemory,
    age: u32,
) -> Result<(), DeviceFault>
    requires room { length memory.old.dirty.blocks + TABLE_BLOCKS ≤ room_of memory.old }
    requires spare { IsSparedBy (segments_open memory.old) memory.old }
    requires memory { IsMemory memory.old }
    requires size { HoldsVolume (D.state device.old) memory.old }
    ensures done { OnOk result (Goes (D.state device.old) (D.state device.new)
        memory.old memory.new (length memory.old.dirty.blocks + TABLE_BLOCKS + OPEN_CHUNK_BLOCKS)) }
    ensures stopped { OnErr result (Stops (D.state device.old) (D.state device.new) memory.old) }
    ensures capacity { OnOk result (memory.new.dirty.capacity ≡ memory.old.dirty.capacity) }
    ensures out { OnOk result (IsAllOut memory.new) }
    ensures taken { clean_in memory.old.usage.segments
        ≤ clean_in memory.new.usage.segments + segments_open memory.old }
    ensures told { length (D.state device.new).told + 3
        ≤ length (D.state device.old).told + orders_open memory.old }
{
    place_all(device, memory, age)?;
    seal_rest(device, memory)?;
    fill_usage(device, memory)?;
    Ok(())
}

/// Saves all that memory holds, but for files without a name: blocks behind the chunk that has
/// begun and to clean segments, a sync, the next checkpoint after the one of this number to its
/// slot, a sync. No more segments are taken for it than its blocks want with that chunk, and those
/// that were emptied are clean then.
///
/// # Errors
///
/// The device's fault: a stop leaves what was acknowledged or what was to be saved.
pub fn save_open<D: SectorDevice>(
    device: &mut D,
    memory: &mut LogMemory,
    version: LayoutVersion,
    number: u64,
) -> Result<(), DeviceFault>
    requires number { number < 2 ^ 64 - 1 }
    requires room { length memory.old.dirty.blocks + TABLE_BLOCKS ≤ room_of memory.old }
    requires spare { IsSparedBy (segments_open memory.old) memory.old }
    requires memory { IsMemory memory.old }
    requires size { HoldsVolume (D.state device.old) memory.old }
    ensures done { OnOk result (CommitsOpen (D.state device.old) (D.state device.new) memory.old
        memory.new (number_of version) number) }
    ensures stopped { OnErr result (CommitFailsOpen (D.state device.old) (D.state device.new)
        memory.old (number_of version) number) }
{
    let age = u32::try_from(number + 1).unwrap_or(u32::MAX);
    write_out(device, memory, age)?;
    publish(device, memory, version, number)?;
    Ok(())
}

/// The same where no chunk has begun: blocks go to clean segments, and no more of these are taken
/// for it than its blocks want.
///
/// # Errors
///
/// The device's fault: a stop leaves what was acknowledged or what was to be saved.
pub fn save<D: SectorDevice>(
    device: &mut D,
    memory: &mut LogMemory,
    version: LayoutVersion,
    number: u64,
) -> Result<(), DeviceFault>
    requires closed { memory.old.chunk.names ≡ [] }
    requires number { number < 2 ^ 64 - 1 }
    requires clean { segments_for (length memory.old.dirty.blocks)
        ≤ clean_in memory.old.usage.segments }
    requires spare { IsSpared memory.old }
    requires memory { IsMemory memory.old }
    requires size { HoldsVolume (D.state device.old) memory.old }
    ensures done { OnOk result (CommitsAll (D.state device.old) (D.state device.new) memory.old
        memory.new (number_of version) number) }
    ensures stopped { OnErr result (CommitFails (D.state device.old) (D.state device.new) memory.old
        (number_of version) number) }
{
    save_open(device, memory, version, number)
}
