//! How large a new file may be.
ghost use Rattle.std.specs.Prelude.{◌≡◌, ◌≤◌, ◌<◌, ◌+◌, ◌↔◌, IsTrue};
ghost use Rattle.std.specs.List.{range_with_len};
ghost use Rattle.lfs_model.specs.Need.{pointers};
ghost use Rattle.lfs_put.specs.Largest.{Fits, IsLargest, cost_of_blocks, cost_of_entries};

use lfs_model::limits;
use lfs_model::limits::{
    BLOCK_POINTERS, DIRECT_BLOCKS, FILE_BLOCKS, FILE_LEAVES, NARROW_SLOT, NEED_OF_META, SECTOR_LEN,
    WIDE_SLOT,
};

/// The bytes of a block.
pub const BLOCK: u64 = SECTOR_LEN as u64;

/// The bytes of an entry in a directory of the first form.
pub const NARROW: u64 = NARROW_SLOT as u64;

/// The bytes of an entry in a directory of the second form.
pub const WIDE: u64 = WIDE_SLOT as u64;

/// The most blocks of a file.
const MOST_BLOCKS: u64 = FILE_BLOCKS as u64;

/// The most entries of a directory.
pub const MOST_ENTRIES: u64 = limits::MOST_ENTRIES as u64;

/// The last number of an object.
pub const LAST_NUMBER: u64 = limits::LAST_NUMBER as u64;

/// An object adds no more than this to the need, however large it is.
const MOST_COST: u64 = 20_000;

/// How many blocks an inode points to itself.
const DIRECT: u64 = DIRECT_BLOCKS as u64;

/// How many blocks a block of pointers points to.
const POINTERS: u64 = BLOCK_POINTERS as u64;

// How many blocks of pointers an object has whose first blocks are all stored, so many.
fn pointer_blocks(blocks: u64) -> u64
    requires { blocks ≤ MOST_BLOCKS }
    ensures counted { result ≡ pointers (range_with_len 0 blocks) }
    ensures few { result ≤ FILE_LEAVES + 1 }
{
    if blocks <= DIRECT {
        return 0;
    }
    if blocks <= DIRECT + POINTERS {
        return 1;
    }
    2 + (blocks - DIRECT - POINTERS).div_ceil(POINTERS)
}

// What an object adds to the need whose first blocks are all stored, so many.
fn cost_of(blocks: u64) -> u64
    requires { blocks ≤ MOST_BLOCKS }
    ensures cost { result ≡ cost_of_blocks blocks }
    ensures few { result ≤ MOST_COST }
{
    blocks + NEED_OF_META * (1 + pointer_blocks(blocks))
}

/// What a directory of so many entries, of so many bytes each, adds to the need.
pub fn directory_cost(slot: u64, entries: u64) -> u64
    requires slot { slot ≤ WIDE }
    requires entries { entries ≤ MOST_ENTRIES }
    ensures cost { result ≡ cost_of_entries slot entries }
    ensures few { result ≤ MOST_COST }
{
    cost_of((slot * entries).div_ceil(BLOCK))
}

// Whether a new file of so many blocks fits.
fn fits(need: u64, limit: u64, slot: u64, entries: u64, blocks: u64) -> bool
    requires slot { slot ≤ WIDE }
    requires entries { entries < MOST_ENTRIES }
    requires blocks { blocks ≤ MOST_BLOCKS }
    ensures { IsTrue result ↔ Fits need limit slot entries blocks }
{
    let added = cost_of(blocks) + directory_cost(slot, entries + 1);
    let most = u128::from(limit) + u128::from(directory_cost(slot, entries));
    u128::from(need) + u128::from(added) <= most
}

/// The greatest number of blocks of a new file that fits, in a directory that has so many entries of
/// so many bytes each.
pub fn most_blocks(need: u64, limit: u64, slot: u64, entries: u64) -> u64
    requires slot { slot ≤ WIDE }
    requires entries { entries < MOST_ENTRIES }
    ensures { IsLargest need limit slot entries result }
{
    let mut blocks = MOST_BLOCKS;
    while blocks > 0 && !fits(need, limit, slot, entries, blocks) {
        blocks -= 1;
    }
    blocks
}
