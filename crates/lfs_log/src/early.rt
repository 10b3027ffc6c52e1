//! Blocks that are written between commits: full chunks of data blocks go to clean segments, where no
//! acknowledged checkpoint reaches them, and leave memory. An early write is a commit's beginning
//! that stops.
ghost use Rattle.std.specs.Prelude.{◌≡◌, ◌<◌, ◌≤◌, ◌+◌, ◌⊎◌, [], length, OnOk, OnErr};
ghost use Rattle.lfs_memory.specs.segments.Table.{clean_in};
ghost use Rattle.lfs_memory.specs.inodes.Data.{data_count};
ghost use Rattle.lfs_memory.specs.Memory.{IsMemory, HoldsVolume, Goes, Stops};
ghost use Rattle.lfs_log.specs.Thresholds.{reserve_of};
ghost use Rattle.lfs_log.specs.Saving.{orders_for};
ghost use Rattle.lfs_log.specs.Early.{WritesChunks, blocks_due};

use crate::committing::seal_rest;
use crate::placing::save_block;
use crate::thresholds::exceeds_reserve;
use lfs_device::{DeviceFault, SectorDevice};
use lfs_memory::LogMemory;
use lfs_model::limits::{CHUNK_BLOCKS, OPEN_CHUNK_BLOCKS};

/// Writes a chunk of data blocks, those of the least keys, to a clean segment, and its summary.
fn write_chunk<D: SectorDevice>(
    device: &mut D,
    memory: &mut LogMemory,
    age: u32,
) -> Result<(), DeviceFault>
    requires many { CHUNK_BLOCKS ≤ length memory.old.dirty.blocks }
    requires data_blocks { CHUNK_BLOCKS ≤ data_count memory.old.dirty }
    requires closed { memory.old.chunk.names ≡ [] }
    requires clean { 0 < clean_in memory.old.usage.segments }
    requires memory { IsMemory memory.old }
    requires size { HoldsVolume (D.state device.old) memory.old }
    ensures done { OnOk result (Goes (D.state device.old) (D.state device.new) memory.old memory.new
        (CHUNK_BLOCKS + OPEN_CHUNK_BLOCKS)) }
    ensures stopped { OnErr result (Stops (D.state device.old) (D.state device.new) memory.old) }
    ensures closed { OnOk result (memory.new.chunk.names ≡ []) }
    ensures fewer { OnOk result (length memory.new.dirty.blocks + CHUNK_BLOCKS
        ≡ length memory.old.dirty.blocks) }
    ensures data_blocks { OnOk result (data_count memory.new.dirty + CHUNK_BLOCKS
        ≡ data_count memory.old.dirty) }
    ensures due { OnOk result (blocks_due memory.new ≡ blocks_due memory.old) }
    ensures capacity { OnOk result (memory.new.dirty.capacity ≡ memory.old.dirty.capacity) }
    ensures taken { OnOk result (clean_in memory.old.usage.segments
        ≤ clean_in memory.new.usage.segments + 1) }
    ensures told { OnOk result (length (D.state device.new).told
        ≤ length (D.state device.old).told + CHUNK_BLOCKS + 1) }
    ensures most { length (D.state device.new).told
        ≤ length (D.state device.old).told + CHUNK_BLOCKS + 2 }
{
    memory.usage.end_last();
    for _ in 0..CHUNK_BLOCKS {
        let key = memory.dirty.next().unwrap();
        save_block(device, memory, key, age)?;
    }
    seal_rest(device, memory)?;
    Ok(())
}

/// The age of blocks that are written after the checkpoint of this number: the next one's.
pub fn age_after(number: u64) -> u32 {
    u32::try_from(number.saturating_add(1)).unwrap_or(u32::MAX)
}

/// Writes full chunks of data blocks to clean segments, as long as memory has one and more than
/// the reserve of the next commit is clean.
///
/// # Errors
///
/// The device's fault: a stop leaves what was acknowledged.
pub fn write_chunks<D: SectorDevice>(
    device: &mut D,
    memory: &mut LogMemory,
    age: u32,
) -> Result<(), DeviceFault>
    requires closed { memory.old.chunk.names ≡ [] }
    requires memory { IsMemory memory.old }
    requires size { HoldsVolume (D.state device.old) memory.old }
    ensures done { OnOk result (WritesChunks (D.state device.old) (D.state device.new)
        memory.old memory.new) }
    ensures left { OnOk result ((data_count memory.new.dirty < CHUNK_BLOCKS)
        ⊎ (clean_in memory.new.usage.segments ≤ reserve_of (length memory.new.usage.segments))) }
    ensures reserve { OnOk result (((device.new ≡ device.old) × (memory.new ≡ memory.old))
        ⊎ (reserve_of (length memory.new.usage.segments) ≤ clean_in memory.new.usage.segments)) }
    ensures idle { data_count memory.old.dirty < CHUNK_BLOCKS
        → (device.new ≡ device.old) × (memory.new ≡ memory.old) }
    ensures stopped { OnErr result (Stops (D.state device.old) (D.state device.new) memory.old) }
    ensures told { length (D.state device.new).told
        ≤ length (D.state device.old).told + orders_for (length memory.old.dirty.blocks) }
{
    while memory.dirty.has_data(CHUNK_BLOCKS)
        && exceeds_reserve(memory.usage.segments(), memory.usage.clean())
    {
        write_chunk(device, memory, age)?;
    }
    Ok(())
}
