//! What the walk asks of a block by itself.
ghost use Rattle.std.specs.Prelude.{◌≡◌, ◌<◌, ◌≤◌, ◌*◌, ◌^◌, ◌↔◌, ℕ, slice_index, IsTrue};
ghost use Rattle.lfs_model.specs.Entry.{IsInode, word};
ghost use Rattle.lfs_verify.specs.Take.{SomeWord};
ghost use Rattle.lfs_verify.specs.Walk.{IsDataBytes};

use lfs_layout::{InodeView, is_form, word};
use lfs_model::limits::{BLOCK_POINTERS, FILE_BLOCKS};

/// The number at a place of 4 bytes of a block.
#[tactic(auto, unfolding(lfs_model::specs::Entry::word))]
pub fn word_at(block: &[u8; 512], place: usize) -> u32
    requires { place < BLOCK_POINTERS }
    ensures { result ≡ word block.now place }
{
    word(block, place)
}

/// Whether a block of addresses leads somewhere.
pub fn has_word(block: &[u8; 512]) -> bool
    ensures { IsTrue result ↔ SomeWord block.now }
{
    for place in 0..128usize {
        if word_at(block, place) != 0 {
            return true;
        }
    }
    false
}

/// Whether a block is the inode of this number, of a form that this version of the layout has.
pub fn is_inode(block: &[u8; 512], version: u32, file: u32) -> bool
    ensures { IsTrue result ↔ IsInode version file block.now }
{
    let Some(inode) = InodeView::decode(block) else {
        return false;
    };
    is_form(version, inode.kind(), inode.form()) && inode.number() == file
}

/// Whether a byte isn't 0.
pub fn has_byte(block: &[u8; 512]) -> bool
    ensures { IsTrue result ↔ ((o : ℕ) × (0 < slice_index block.now o)) }
{
    for place in 0..512usize {
        if block[place] != 0 {
            return true;
        }
    }
    false
}

/// Whether the bytes from a place on are 0.
pub fn is_zero_past(block: &[u8; 512], end: usize) -> bool
    requires { end < 2 ^ 32 }
    ensures { IsTrue result ↔ ((o : ℕ) → end ≤ o → slice_index block.now o ≡ 0) }
{
    for place in end..512usize {
        if block[place] != 0 {
            return false;
        }
    }
    true
}

/// Whether a block may be the one at a place of a file of this size.
pub fn is_data(block: &[u8; 512], index: u32, size: u32) -> bool
    requires { index < FILE_BLOCKS }
    ensures { IsTrue result ↔ IsDataBytes index size block.now }
{
    if 512 * index >= size {
        return false;
    }
    if !has_byte(block) {
        return false;
    }
    is_zero_past(block, (size - 512 * index) as usize)
}
