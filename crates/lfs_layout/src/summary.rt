//! Summaries of chunks, read in place.
ghost use Rattle.std.specs.Prelude.{◌≡◌, ◌<◌, ◌≤◌, ◌+◌, ◌*◌, ◌++◌, ◌↔◌, List, ℕ, length, get_or, IfSome, IfNone, IsTrue};
ghost use Rattle.lfs_model.specs.Summary.{BlockNameValue, FitsSummary, IsEntryAt, IsPlaced, block_at, block_kind_byte, block_kind_of, no_block, summary_entry, summary_sector, summary_in};

use crate::fields::{is_zero_at, number16_at, number32_at};
use crate::writer::SectorWriter;
use lfs_model::BlockKind;
use lfs_model::limits::{
    CHUNK_BLOCKS, LAST_BLOCK, LAST_LEAF, LAST_NUMBER, MAP_BLOCKS, SECTOR_LEN, USAGE_BLOCKS,
};
use std::marker::Model;

/// What a summary says of one block of its chunk.
#[derive(Clone, Copy, Debug, PartialEq, Eq)]
pub struct BlockName {
    /// The number of the object that the block belongs to; 0 for a block of the inode map or of
    /// usage.
    pub file: u16,
    /// What the block is.
    pub kind: BlockKind,
    /// The block's place among those of its kind in the file.
    pub index: u32,
}

impl Model for BlockName {
    ghost use Rattle.lfs_model.specs.Summary.{BlockNameValue};

    ghost Value = { BlockNameValue };

    ghost view = { λ b. record { file = b.file; kind = b.kind; index = b.index } };

    ghost inverse = { λ b. record { file = b.file; kind = b.kind; index = b.index } };
}

/// The blocks of a chunk, as its summary names them.
#[derive(Drop)]
pub struct SummaryView<'a> {
    sector: &'a [u8; 512],
}

impl<'a> Model for SummaryView<'a> {
    ghost use Rattle.std.specs.Prelude.{List, ◌≤◌};
    ghost use Rattle.lfs_model.specs.Fields.{read16};
    ghost use Rattle.lfs_model.specs.declared.limits.TheConstants.{CHUNK_BLOCKS};
    ghost use Rattle.lfs_model.specs.Summary.{BlockNameValue, blocks_of};

    ghost Value = { List BlockNameValue };

    ghost view = { λ v. blocks_of v.sector.now };

    ghost invariant = { λ v. read16 0 v.sector.now ≤ CHUNK_BLOCKS };
}

#[tactic(auto, unfolding(lfs_model::specs::Summary::block_kind_of))]
fn kind_of(byte: u8) -> BlockKind
    ensures { result ≡ block_kind_of byte }
{
    match byte {
        1 => BlockKind::Data,
        2 => BlockKind::Leaf,
        3 => BlockKind::Double,
        4 => BlockKind::Inode,
        5 => BlockKind::Map,
        _ => BlockKind::Usage,
    }
}

#[tactic(auto, unfolding(lfs_model::specs::Summary::block_kind_byte))]
fn byte_of_kind(kind: BlockKind) -> u8
    ensures { result ≡ block_kind_byte kind }
{
    match kind {
        BlockKind::Data => 1,
        BlockKind::Leaf => 2,
        BlockKind::Double => 3,
        BlockKind::Inode => 4,
        BlockKind::Map => 5,
        BlockKind::Usage => 6,
    }
}

/// Whether a summary may name this block: each kind has its own numbers of objects and its own
/// indices.
#[tactic(auto, unfolding(lfs_model::specs::Summary::IsPlaced))]
pub fn is_placed(block: BlockName) -> bool
    ensures { IsTrue result ↔ IsPlaced block.kind block.file block.index }
{
    let BlockName { file, kind, index } = block;
    let of_file = 1 <= file && file <= LAST_NUMBER;
    match kind {
        BlockKind::Data => of_file && index <= LAST_BLOCK,
        BlockKind::Leaf => of_file && index <= LAST_LEAF,
        BlockKind::Double => of_file && index == 0,
        BlockKind::Inode => of_file && index == 0,
        BlockKind::Map => file == 0 && index < MAP_BLOCKS,
        BlockKind::Usage => file == 0 && index < USAGE_BLOCKS,
    }
}

fn block_of(sector: &[u8; 512], at: usize) -> BlockName
    requires { at + 8 ≤ SECTOR_LEN }
    ensures { result ≡ block_at at sector.now }
{
    BlockName {
        file: number16_at(sector, at),
        kind: kind_of(sector[at + 2]),
        index: number32_at(sector, at + 4),
    }
}

fn is_block_at(sector: &[u8; 512], at: usize) -> bool
    requires { at + 8 ≤ SECTOR_LEN }
    ensures { IsTrue result ↔ IsEntryAt at sector.now }
{
    let byte = sector[at + 2];
    let kind = kind_of(byte);
    if byte_of_kind(kind) != byte {
        return false;
    }
    if sector[at + 3] != 0 {
        return false;
    }
    let file = number16_at(sector, at);
    let index = number32_at(sector, at + 4);
    is_placed(BlockName { file, kind, index })
}

impl<'a> SummaryView<'a> {
    /// The summary whose sector this is, if it is one.
    pub fn decode(sector: &'a [u8; 512]) -> Option<SummaryView<'a>>
        ensures found { IfSome result (λ bs. FitsSummary bs × (sector.now ≡ summary_sector bs)) }
        ensures none { IfNone result ((bs : List BlockNameValue) → FitsSummary bs
            → ¬ (sector.now ≡ summary_sector bs)) }
        ensures exact { result ≡ summary_in sector.now }
    {
        let count = number16_at(sector, 0) as usize;
        if count == 0 {
            return None;
        }
        if count > CHUNK_BLOCKS {
            return None;
        }
        if !is_zero_at(sector, 2, 6) {
            return None;
        }
        for i in 0..count {
            if !is_block_at(sector, 8 + 8 * i) {
                return None;
            }
        }
        if !is_zero_at(sector, 8 + 8 * count, 8 * (CHUNK_BLOCKS - count)) {
            return None;
        }
        Some(SummaryView { sector })
    }

    /// How many blocks the chunk has, 1 to 63.
    pub fn len(&self) -> usize
        ensures { result ≡ length self.now }
    {
        number16_at(self.sector, 0) as usize
    }

    /// One of its blocks, the first at 0.
    pub fn get(&self, place: usize) -> BlockName
        requires { place < length self.now }
        ensures { result ≡ get_or self.now place no_block }
    {
        block_of(self.sector, 8 + 8 * place)
    }
}

/// Whether a chunk may have these blocks: 1 to 63 of them, each of which a summary may name.
pub fn is_summary(blocks: &[BlockName]) -> bool
    ensures { IsTrue result ↔ FitsSummary blocks.now }
{
    if blocks.is_empty() {
        return false;
    }
    if blocks.len() > CHUNK_BLOCKS {
        return false;
    }
    for block in blocks {
        if !is_placed(*block) {
            return false;
        }
    }
    true
}

#[tactic(auto, unfolding(lfs_model::specs::Summary::summary_entry))]
fn write_entry(sector: &mut SectorWriter, block: BlockName)
    requires { length sector.old + 8 ≤ SECTOR_LEN }
    ensures written { sector.new ≡ sector.old ++ summary_entry block }
    ensures length { length sector.new ≡ length sector.old + 8 }
{
    sector.number16(block.file);
    sector.bytes(&[byte_of_kind(block.kind), 0]);
    sector.number32(block.index);
}

/// The summary of a chunk of these blocks, for which `is_summary` has to hold.
pub fn encode_summary(blocks: &[BlockName]) -> [u8; 512]
    requires { FitsSummary blocks.now }
    ensures { result ≡ summary_sector blocks.now }
{
    let mut sector = SectorWriter::new();
    sector.number16(blocks.len() as u16);
    sector.zeros(6);
    for block in blocks {
        write_entry(&mut sector, *block);
    }
    sector.zeros(8 * (CHUNK_BLOCKS - blocks.len()));
    sector.finish()
}

/// Two summaries that are spelled alike are one.
pub fn one_summary_spelling()
    ensures { (a b : List BlockNameValue) → FitsSummary a → FitsSummary b
        → summary_sector a ≡ summary_sector b → a ≡ b }
{}

impl Default for BlockName {
    /// A name that no block has.
    fn default() -> BlockName
        ensures { result ≡ no_block }
    {
        BlockName {
            file: 0,
            kind: BlockKind::Data,
            index: 0,
        }
    }
}
