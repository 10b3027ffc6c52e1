//! How blocks of files and of the inode map go to the log.
ghost use Rattle.std.specs.Prelude.{◌≡◌, ◌<◌, ◌≤◌, ◌+◌, [], true, length, None, OnOk, OnErr};
ghost use Rattle.lfs_model.specs.Entry.{Entry};
ghost use Rattle.lfs_model.specs.Running.{IsLowest};
ghost use Rattle.lfs_memory.specs.inodes.Blocks.{blocks_of};
ghost use Rattle.lfs_memory.specs.inodes.Data.{data_count, is_data_code};
ghost use Rattle.lfs_memory.specs.inodes.Key.{entry_of};
ghost use Rattle.lfs_memory.specs.Memory.{EndsUnit, IsMemory, IsMemoryUpTo, HoldsVolume, Goes, Stops, room_of};
ghost use Rattle.lfs_memory.specs.Moving.{HoldsOn, MovesOut, Spares, StaysPut};
ghost use Rattle.lfs_memory.specs.segments.Chunk.{room_in};
ghost use Rattle.lfs_memory.specs.segments.Early.{early_in};
ghost use Rattle.lfs_log.specs.Cleaning.{StayCleanable};
ghost use Rattle.lfs_log.specs.Early.{GoesEarly, IsBegunFresh, IsFresh};
ghost use Rattle.lfs_log.specs.Keeping.{OnlyChunk};
ghost use Rattle.lfs_log.specs.Placing.{EndsSaving, KeepsKept, LeavesMemory, WritesNext};

use lfs_device::{DeviceFault, SectorDevice};
use lfs_memory::LogMemory;
use lfs_memory::inodes::BlockKey;
use lfs_memory::segments::write;
use lfs_model::limits::CHUNK_BLOCKS;

/// Writes the summary of the chunk, which ends on a unit.
pub fn seal<D: SectorDevice>(device: &mut D, memory: &mut LogMemory) -> Result<(), DeviceFault>
    requires begun { 0 < length memory.old.chunk.names }
    requires ends { EndsUnit memory.old }
    requires memory { IsMemoryUpTo CHUNK_BLOCKS memory.old }
    requires size { HoldsVolume (D.state device.old) memory.old }
    ensures done { OnOk result (Goes (D.state device.old) (D.state device.new) memory.old memory.new
        (room_in memory.old.chunk)) }
    ensures stopped { OnErr result (Stops (D.state device.old) (D.state device.new) memory.old) }
    ensures only { OnlyChunk memory.old memory.new }
    ensures stays { OnOk result (HoldsOn (D.state device.old) (D.state device.new)
        memory.old memory.new StaysPut) }
    ensures ended { OnOk result (memory.new.chunk.names ≡ []) }
    ensures segment { memory.new.chunk.segment ≡ memory.old.chunk.segment }
    ensures kept { OnErr result (memory.new.chunk ≡ memory.old.chunk) }
    ensures told { length (D.state device.new).told ≤ length (D.state device.old).told + 1 }
    ensures cleanable { OnOk result (StayCleanable memory.old memory.new) }
    ensures spares { OnOk result (Spares (D.state device.old) (D.state device.new) memory.old
        memory.new) }
{
    memory.chunk.seal(device, &memory.usage)?;
    Ok(())
}

/// Writes the summary of a chunk that is full.
pub fn seal_full<D: SectorDevice>(device: &mut D, memory: &mut LogMemory) -> Result<(), DeviceFault>
    requires memory { IsMemoryUpTo CHUNK_BLOCKS memory.old }
    requires size { HoldsVolume (D.state device.old) memory.old }
    ensures saves { EndsSaving (D.state device.old) (D.state device.new) memory.old memory.new 0 0
        result }
    ensures only { OnlyChunk memory.old memory.new }
    ensures stays { OnOk result (HoldsOn (D.state device.old) (D.state device.new)
        memory.old memory.new StaysPut) }
    ensures segment { memory.new.chunk.segment ≡ memory.old.chunk.segment }
    ensures fresh { OnOk result (IsBegunFresh memory.old → IsFresh memory.new) }
    ensures spares { OnOk result (Spares (D.state device.old) (D.state device.new) memory.old
        memory.new) }
{
    if memory.chunk.is_full() {
        seal(device, memory)?;
    }
    Ok(())
}

/// Writes a block of a file to the next place. What points to it, its parent in memory or the inode
/// map, points there from then on.
fn write_block<D: SectorDevice>(
    device: &mut D,
    memory: &mut LogMemory,
    key: BlockKey,
    age: u32,
) -> Result<(), DeviceFault>
    requires lowest { IsLowest (blocks_of memory.old.dirty) (entry_of key) }
    requires room { 0 < room_of memory.old }
    requires memory { IsMemory memory.old }
    requires size { HoldsVolume (D.state device.old) memory.old }
    ensures writes { WritesNext (D.state device.old) (D.state device.new) memory.old memory.new
        result }
    ensures moves { OnOk result (MovesOut (D.state device.old) (D.state device.new)
        memory.old memory.new (entry_of key)) }
    ensures fewer { OnOk result (length memory.new.dirty.blocks + 1
        ≡ length memory.old.dirty.blocks) }
    ensures capacity { OnOk result (memory.new.dirty.capacity ≡ memory.old.dirty.capacity) }
    ensures fresh { OnOk result (IsFresh memory.old → IsBegunFresh memory.new) }
    ensures early { OnOk result (IsFresh memory.old
        → early_in memory.new.usage.segments ≡ early_in memory.old.usage.segments + 1) }
    ensures cleanable { OnOk result (StayCleanable memory.old memory.new) }
    ensures spares { OnOk result (Spares (D.state device.old) (D.state device.new) memory.old
        memory.new) }
    ensures data_blocks { OnOk result (is_data_code key.code ≡ true
        → data_count memory.new.dirty + 1 ≡ data_count memory.old.dirty) }
    ensures kept { KeepsKept memory.old memory.new }
    ensures out { OnOk result (LeavesMemory memory.old memory.new (entry_of key)) }
{
    let lives = !memory.map.is_hidden(key.file());
    let again = memory.leads_on(key);
    let address = memory.next_place(key.name(), lives, age);
    let bytes = memory.dirty.block(key).unwrap();
    write(device, &memory.usage, address, bytes, again)?;
    memory.dirty.moved(key, address);
    memory.point(key, address);
    Ok(())
}

/// Saves a block of a file: it goes to the next place, and a chunk that is full with it is sealed.
pub fn save_block<D: SectorDevice>(
    device: &mut D,
    memory: &mut LogMemory,
    key: BlockKey,
    age: u32,
) -> Result<(), DeviceFault>
    requires room { 0 < room_of memory.old }
    requires lowest { IsLowest (blocks_of memory.old.dirty) (entry_of key) }
    requires memory { IsMemory memory.old }
    requires size { HoldsVolume (D.state device.old) memory.old }
    ensures saves { EndsSaving (D.state device.old) (D.state device.new) memory.old memory.new 1 1
        result }
    ensures moves { OnOk result (MovesOut (D.state device.old) (D.state device.new)
        memory.old memory.new (entry_of key)) }
    ensures fewer { OnOk result (length memory.new.dirty.blocks + 1
        ≡ length memory.old.dirty.blocks) }
    ensures capacity { OnOk result (memory.new.dirty.capacity ≡ memory.old.dirty.capacity) }
    ensures early { OnOk result (IsFresh memory.old → GoesEarly memory.old memory.new 1) }
    ensures cleanable { OnOk result (StayCleanable memory.old memory.new) }
    ensures spares { OnOk result (Spares (D.state device.old) (D.state device.new) memory.old
        memory.new) }
    ensures data_blocks { OnOk result (is_data_code key.code ≡ true
        → data_count memory.new.dirty + 1 ≡ data_count memory.old.dirty) }
    ensures kept { KeepsKept memory.old memory.new }
    ensures out { OnOk result (LeavesMemory memory.old memory.new (entry_of key)) }
{
    write_block(device, memory, key, age)?;
    seal_full(device, memory)?;
    Ok(())
}

/// Saves all blocks of files that are in memory, each before the blocks that point to it.
pub fn save_files<D: SectorDevice>(
    device: &mut D,
    memory: &mut LogMemory,
    age: u32,
) -> Result<(), DeviceFault>
    requires room { length memory.old.dirty.blocks ≤ room_of memory.old }
    requires memory { IsMemory memory.old }
    requires size { HoldsVolume (D.state device.old) memory.old }
    ensures saves { EndsSaving (D.state device.old) (D.state device.new) memory.old memory.new
        (length memory.old.dirty.blocks) (length memory.old.dirty.blocks) result }
    ensures empty { OnOk result ((x : Entry) → blocks_of memory.new.dirty x ≡ None) }
    ensures blocks { OnOk result (memory.new.dirty.blocks ≡ []) }
    ensures capacity { OnOk result (memory.new.dirty.capacity ≡ memory.old.dirty.capacity) }
{
    while let Some(key) = memory.dirty.next() {
        save_block(device, memory, key, age)?;
    }
    Ok(())
}
