//! What a mount takes into memory: the tables that a walk over the volume leads to.
ghost use Rattle.std.specs.Prelude.{◌≡◌, ◌≤◌, ◌+◌, ◌*◌, ◌/◌, ℕ, length, IfOk};
ghost use Rattle.lfs_model.specs.Checkpoint.{IsSegmentCount};
ghost use Rattle.lfs_verify.specs.Loading.{IsLoaded};
ghost use Rattle.lfs_log.specs.Held.{IsPassMemory};
ghost use Rattle.lfs_log.specs.Opening.{IsOpened};
ghost use Rattle.lfs_log.specs.Thresholds.{most_victims};

use crate::groups::KeyList;
use crate::moving::MOST_MOVING;
use crate::thresholds::most_victims;
use lfs_memory::LogMemory;
use lfs_memory::inodes::{DirtyTable, InodeMap};
use lfs_memory::segments::{ChunkWriter, Usage};
use lfs_model::limits::{CHUNK_BLOCKS, MOST_UNSAVED, SEGMENT_SECTORS, TABLE_BLOCKS};
use lfs_verify::{BlockTotals, Tables};
use std::alloc::{AllocError, Global};

/// Room for the keys of all blocks that a pass of the cleaner over so many segments may find.
///
/// # Errors
///
/// Where memory is refused.
fn pass_keys(alloc: Global, segments: u32) -> Result<KeyList, AllocError>
    requires { IsSegmentCount segments }
    ensures { IfOk result (λ l. SEGMENT_SECTORS * most_victims segments ≤ l.room) }
{
    KeyList::new(alloc, (SEGMENT_SECTORS * most_victims(segments)) as usize)
}

/// How many blocks may wait in the memory of a pass over so many segments: as many leaves of pointers
/// as full segments of data have, and somewhat more.
fn most_waiting(segments: u32) -> u32
    requires { IsSegmentCount segments }
    ensures least { MOST_MOVING ≤ result }
    ensures most { result + TABLE_BLOCKS ≤ CHUNK_BLOCKS * (segments / 8) }
{
    segments / 2 + MOST_MOVING
}

/// What a mount takes into memory.
#[derive(Drop)]
pub struct OpenedLog {
    pub memory: LogMemory,
    /// The number of the newest checkpoint.
    pub number: u64,
    /// How many blocks the files have.
    pub totals: BlockTotals,
    /// The memory of a pass of the cleaner, and a list of the keys of what it moves.
    pub pass: LogMemory,
    pub keys: KeyList,
}

/// Memory for a pass of the cleaner over so many segments.
///
/// # Errors
///
/// Where memory is refused.
fn pass_memory(alloc: Global, segments: u32) -> Result<LogMemory, AllocError>
    requires { IsSegmentCount segments }
    ensures segments { IfOk result (λ v. length v.usage.segments ≡ segments) }
    ensures least { IfOk result (λ v. MOST_MOVING ≤ v.dirty.capacity.limit) }
    ensures limit { IfOk result (λ v. v.dirty.capacity.limit + TABLE_BLOCKS
        ≤ CHUNK_BLOCKS * (segments / 8)) }
{
    let map = InodeMap::new(alloc)?;
    let usage = Usage::new(alloc, segments, 0)?;
    let room = most_waiting(segments);
    let dirty = DirtyTable::new(alloc, room, room)?;
    Ok(LogMemory {
        map,
        usage,
        dirty,
        chunk: ChunkWriter::new(),
    })
}

/// The memory of a log, made of the tables that a walk over its device found.
///
/// # Errors
///
/// Where memory is refused.
pub fn open_memory(alloc: Global, tables: Tables) -> Result<OpenedLog, AllocError>
    requires count { IsSegmentCount tables.segments }
    requires whole { length tables.usage.segments ≡ tables.segments }
    ensures opened { IfOk result (λ r. (size : ℕ) → IsLoaded tables size
        → IsOpened r.memory size) }
    ensures pass { IfOk result (λ r. IsPassMemory r.memory r.pass r.keys) }
    ensures map { IfOk result (λ r. r.memory.map ≡ tables.map) }
    ensures usage { IfOk result (λ r. r.memory.usage ≡ tables.usage) }
    ensures number { IfOk result (λ r. r.number ≡ tables.number) }
    ensures data_blocks { IfOk result (λ r. r.totals.data_blocks ≡ tables.data_blocks) }
    ensures meta_blocks { IfOk result (λ r. r.totals.meta_blocks ≡ tables.meta_blocks) }
{
    let pass = pass_memory(alloc, tables.segments)?;
    let keys = pass_keys(alloc, tables.segments)?;
    let dirty = DirtyTable::new(alloc, MOST_UNSAVED, MOST_UNSAVED)?;
    Ok(OpenedLog {
        memory: LogMemory {
            map: tables.map,
            usage: tables.usage,
            dirty,
            chunk: ChunkWriter::new(),
        },
        number: tables.number,
        totals: BlockTotals {
            data_blocks: tables.data_blocks,
            meta_blocks: tables.meta_blocks,
        },
        pass,
        keys,
    })
}
