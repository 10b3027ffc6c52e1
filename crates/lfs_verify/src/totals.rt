//! How many blocks all files have, by the marks of a walk.
ghost use Rattle.std.specs.Prelude.{◌≡◌, ◌<◌, ◌^◌, length};
ghost use Rattle.lfs_verify.specs.Totals.{above_count, CountsByMarks};

use crate::order::{FIRST_DATA, FIRST_INODE};

/// How many blocks all files have.
#[derive(Clone, Copy, Debug, PartialEq, Eq)]
pub struct BlockTotals {
    /// Blocks of data.
    pub data_blocks: u32,
    /// Inodes and blocks of pointers.
    pub meta_blocks: u32,
}

/// How many sectors have a mark above this one.
pub(crate) fn count_above(marks: &[u32], mark: u32) -> u32
    requires { length marks.now < 2 ^ 32 }
    ensures { result ≡ above_count marks.now mark (length marks.now) }
{
    let mut count = 0u32;
    for sector in 0..marks.len() {
        if marks[sector] > mark {
            count += 1;
        }
    }
    count
}

/// How many blocks all files have, by the marks of a whole walk over a volume that holds a log map.
pub fn count_totals(marks: &[u32]) -> BlockTotals
    requires { length marks.now < 2 ^ 32 }
    ensures { CountsByMarks marks.now result.data_blocks result.meta_blocks }
{
    let data_blocks = count_above(marks, FIRST_DATA);
    let all = count_above(marks, FIRST_INODE);
    BlockTotals {
        data_blocks,
        meta_blocks: all - data_blocks,
    }
}
