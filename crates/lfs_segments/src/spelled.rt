//! The blocks of the usage table as they are written. As the numbers of a segment change, its entry
//! is put anew, so that a commit spells none.
ghost use Rattle.std.specs.Prelude.{◌≡◌, ◌<◌, ℕ, List, [], length, get_or, replicate, slice_set, IfOk};
ghost use Rattle.lfs_segments.specs.Table.{SegmentNumbers, no_segment};
ghost use Rattle.lfs_segments.specs.Steps as steps;
ghost use Rattle.lfs_segments.specs.Spelling.{AreSpelled};

use crate::state::SegmentState;
use lfs_layout::{SegmentUsage, set_usage_entry};
use lfs_model::limits::{BLOCK_SEGMENTS, MOST_SEGMENTS, USAGE_BLOCKS};
use std::alloc::{AllocError, Global};

/// The blocks of the usage table, spelled.
#[derive(Drop)]
pub struct SpelledBlocks {
    blocks: Vec<[u8; 512]>,
}

impl SpelledBlocks {
    /// The blocks of clean segments.
    pub fn new(alloc: Global) -> Result<SpelledBlocks, AllocError>
        ensures { IfOk result (λ b. (n : ℕ) → AreSpelled b.blocks.items (replicate n no_segment)) }
    {
        let blocks = Vec::from_elem(alloc, [0; 512], USAGE_BLOCKS as usize)?;
        Ok(SpelledBlocks { blocks })
    }

    /// The blocks become what others are. No memory is asked for.
    pub fn copy_from(&mut self, other: &SpelledBlocks)
        requires { length self.old.blocks.items ≡ length other.now.blocks.items }
        ensures { self.new.blocks.items ≡ other.now.blocks.items }
    {
        self.blocks.copy_from_slice(other.blocks.as_slice());
    }

    /// A segment has these numbers from now on.
    pub fn put(&mut self, segment: u32, state: SegmentState)
        requires low { segment < MOST_SEGMENTS }
        requires blocks { length self.old.blocks.items ≡ USAGE_BLOCKS }
        ensures { (segments : List SegmentNumbers) → segment < length segments
            → AreSpelled self.old.blocks.items segments
            → AreSpelled self.new.blocks.items (slice_set segments segment state) }
    {
        let block = &mut self.blocks[(segment / BLOCK_SEGMENTS) as usize];
        set_usage_entry(block, (segment % BLOCK_SEGMENTS) as usize, saved(state));
    }

    /// A block of the table.
    pub fn get(&self, index: u32) -> &[u8; 512]
        requires { index < length self.now.blocks.items }
        ensures { result.now ≡ get_or self.now.blocks.items index [] }
    {
        &self.blocks[index as usize]
    }
}

/// What a checkpoint says of a segment: nothing where nothing lives.
fn saved(state: SegmentState) -> SegmentUsage
    ensures { result ≡ steps.saved state }
{
    let empty = state.live == 0;
    SegmentUsage {
        used: if empty { 0 } else { state.used },
        live: state.live,
        age: if empty { 0 } else { state.age },
    }
}
