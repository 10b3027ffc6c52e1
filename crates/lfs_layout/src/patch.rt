//! Changing a block in place.
ghost use Rattle.std.specs.Prelude.{◌≡◌, ◌<◌, ◌+◌, ◌*◌, [], ◌∷◌, ◌++◌, length, slice_set, take, drop};
ghost use Rattle.lfs_model.specs.Inode.{kind_byte};
ghost use Rattle.lfs_model.specs.Fields.{le16, le32, read32, zeros};
ghost use Rattle.lfs_model.specs.Usage.{usage_of};

use crate::fields::number32_at;
use crate::inode::byte_of;
use crate::usage::SegmentUsage;
use crate::writer::Writer;
use byteorder::{ByteOrder, LittleEndian};
use lfs_model::Kind;
use lfs_model::limits::{BLOCK_SEGMENTS, SECTOR_LEN};

/// How many places of 4 bytes a sector has.
pub const SECTOR_WORDS: usize = SECTOR_LEN / 4;

/// The number at a place of 4 bytes.
pub fn word(block: &[u8; 512], place: usize) -> u32
    requires { place < SECTOR_WORDS }
    ensures { result ≡ read32 (4 * place) block.now }
{
    number32_at(block, 4 * place)
}

/// Puts a number at a place of 4 bytes.
#[tactic(auto, unfolding(lfs_model::specs::Fields::le32))]
pub fn set_word(block: &mut [u8; 512], place: usize, number: u32)
    requires { place < SECTOR_WORDS }
    ensures { block.new ≡ take (4 * place) block.old ++ le32 number ++ drop
        (4 * place + 4) block.old }
{
    let at = 4 * place;
    LittleEndian::write_u32(&mut block[at..at + 4], number);
}

/// Puts a number at a place of 2 bytes.
#[tactic(auto, unfolding(lfs_model::specs::Fields::le16))]
fn set_half(block: &mut [u8; 512], place: usize, number: u16)
    requires { place < 2 * SECTOR_WORDS }
    ensures { block.new ≡ take (2 * place) block.old ++ le16 number ++ drop
        (2 * place + 2) block.old }
{
    let at = 2 * place;
    LittleEndian::write_u16(&mut block[at..at + 2], number);
}

/// Gives a usage block this entry at a place. The other entries stay.
pub fn set_usage_entry(block: &mut [u8; 512], entry: usize, usage: SegmentUsage)
    requires { entry < BLOCK_SEGMENTS }
    ensures entries { usage_of block.new ≡ slice_set (usage_of block.old) entry usage }
    ensures length { length block.new ≡ SECTOR_LEN }
{
    set_half(block, 4 * entry, usage.used);
    set_half(block, 4 * entry + 1, usage.live);
    set_word(block, 2 * entry + 1, usage.age);
}

/// Makes a block the inode of this number with this kind, form, links and size in bytes. The
/// addresses stay.
pub fn set_header(block: &mut [u8; 512], number: u32, kind: Kind, form: u8, links: u32, size: u32)
    ensures { block.new ≡ (kind_byte kind ∷ []) ++ (form ∷ []) ++ zeros 2 ++ le32 number ++ le32 links ++ le32
        size ++ drop 16 block.old }
{
    let header = header_bytes(number, kind, form, links, size);
    block[..16].copy_from_slice(&header);
}

/// The bytes of an inode before its addresses, the padding left out.
fn header_bytes(number: u32, kind: Kind, form: u8, links: u32, size: u32) -> [u8; 16]
    ensures { result ≡ (kind_byte kind ∷ []) ++ (form ∷ []) ++ zeros 2 ++ le32 number ++ le32 links ++ le32 size }
{
    let mut header = Writer::new();
    header.bytes(&[byte_of(kind)]);
    header.bytes(&[form]);
    header.zeros(2);
    header.number32(number);
    header.number32(links);
    header.number32(size);
    header.finish()
}
