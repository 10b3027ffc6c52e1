//! The bytes of a file, block by block: laid over its blocks, cut off them, and read out of them.
ghost use Rattle.std.specs.Prelude.{◌≡◌, ◌≤◌, ◌<◌, ◌+◌, ◌++◌, ℕ, cond, is_ok, length, slice_index};
ghost use Rattle.lfs_store.specs.Pieces.{BlockOverlays, CutsTail, part_of_block, place_in_block, PartBegins, PartGoesOn, PartEnds, PartRead, WriteBegins, WriteGoesOn, WriteHeads, WriteIsDone, CutBegins, CutHeads, CutBlocksHeads, CutBetween, CutInside, CutNone, CutIsDone};

use lfs_model::limits::{LARGEST_FILE, LAST_BLOCK, SECTOR_LEN};
use std::alloc::AllocError;

/// Where a place of a file lies in its block at an index: 0 where it lies before, 512 where it lies
/// behind.
fn place_in_block(at: u32, index: u32) -> usize
    requires { index ≤ LAST_BLOCK }
    ensures { result ≡ place_in_block at index }
{
    at.saturating_sub(512 * index).min(512) as usize
}

/// Lays bytes that begin at a place of a file over its block at an index.
pub fn overlay(block: &mut [u8; 512], index: u32, at: u32, bytes: &[u8])
    requires low { index ≤ LAST_BLOCK }
    requires end { at + length bytes.now ≤ LARGEST_FILE }
    ensures { BlockOverlays at bytes.now index block.old block.new }
{
    let start = place_in_block(at, index);
    let stop = place_in_block(at + bytes.len() as u32, index);
    if start < stop {
        let skip = (512 * index).saturating_sub(at) as usize;
        let len = stop - start;
        block[start..stop].copy_from_slice(&bytes[skip..skip + len]);
    }
}

/// Makes the bytes of a block from a place on zeros.
pub fn cut_tail(block: &mut [u8; 512], from: usize)
    requires { from ≤ SECTOR_LEN }
    ensures { CutsTail from block.old block.new }
{
    block[from..512].fill(0);
}

/// Appends the bytes between two places of a file that lie in its block at an index.
pub fn append_part(
    out: &mut Vec<u8>,
    block: &[u8; 512],
    index: u32,
    from: u32,
    to: u32,
) -> Result<(), AllocError>
    requires low { index ≤ LAST_BLOCK }
    ensures { out.new.items ≡ cond (is_ok result)
        (out.old.items ++ part_of_block from to index block.now) out.old.items }
{
    let start = place_in_block(from, index);
    let stop = place_in_block(to, index);
    if start < stop {
        out.extend_from_slice(&block[start..stop])?;
    }
    Ok(())
}

/// The bytes between two places of a file, appended block by block, are what is read of its object.
pub fn part_appended()
    ensures begins { PartBegins }
    ensures goes_on { PartGoesOn }
    ensures ends { PartEnds }
    ensures read { PartRead }
{}

/// Bytes laid over one block after the other, from the block in which they begin on, are written to
/// the file.
pub fn bytes_written()
    ensures begins { WriteBegins }
    ensures goes_on { WriteGoesOn }
    ensures heads { WriteHeads }
    ensures done { WriteIsDone }
{}

/// A file without its blocks from one on, and with the tail of its last block cut off, is cut.
pub fn bytes_cut()
    ensures begins { CutBegins }
    ensures heads { CutHeads }
    ensures between { CutBetween }
    ensures inside { CutInside }
    ensures none { CutNone }
    ensures heads_after { CutBlocksHeads }
    ensures done { CutIsDone }
{}
