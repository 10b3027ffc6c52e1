//! A batch of changes, staged whole or not at all.
ghost use Rattle.std.specs.Prelude.{◌≡◌, ◌≤◌, ◌+◌, ◌*◌, [], length, IfOk, OnOk, OnErr};
ghost use Rattle.lfs_memory.specs.Numbers.{IsFileNumber};
ghost use Rattle.lfs_memory.specs.Batch.{IsNoChange, AddsHeaderEdit, AddsBlockEdit};
ghost use Rattle.lfs_memory.specs.Preparing.{ways, way_from, is_beside, row_of};

use crate::batch::{BlockEdit, HeaderEdit, Loss};
use lfs_files::Header;
use lfs_model::limits::{BLOCK_POINTERS, DIRECT_BLOCKS, LAST_BLOCK};
use std::alloc::{AllocError, Global};

/// The changes of one call: first what is lost, then headers, then blocks.
#[derive(Drop)]
pub struct Changes {
    pub headers: Vec<HeaderEdit>,
    pub blocks: Vec<BlockEdit>,
    pub loss: Loss,
}

impl Changes {
    /// No change, with room for so many headers and blocks.
    ///
    /// # Errors
    ///
    /// Where memory runs out.
    pub fn new(alloc: Global, headers: usize, blocks: usize) -> Result<Changes, AllocError>
        ensures { IfOk result IsNoChange }
    {
        Ok(Changes {
            headers: Vec::with_capacity(alloc, headers)?,
            blocks: Vec::with_capacity(alloc, blocks)?,
            loss: Loss::Nothing,
        })
    }

    /// No change any more.
    pub fn clear(&mut self)
        ensures { IsNoChange self.new }
    {
        self.headers.clear();
        self.blocks.clear();
        self.loss = Loss::Nothing;
    }

    /// A file has this header; it is made where it isn't there.
    ///
    /// # Errors
    ///
    /// Where memory runs out.
    pub fn put_header(&mut self, number: u16, header: Header) -> Result<(), AllocError>
        requires number { IsFileNumber number }
        ensures done { OnOk result (AddsHeaderEdit self.old self.new number header) }
        ensures same { OnErr result (self.new.headers.items ≡ self.old.headers.items) }
        ensures blocks { self.new.blocks ≡ self.old.blocks }
        ensures loss { self.new.loss ≡ self.old.loss }
    {
        self.headers.push(HeaderEdit { number, header })?;
        Ok(())
    }

    /// A block of a file has these bytes.
    ///
    /// # Errors
    ///
    /// Where memory runs out.
    pub fn put_block(
        &mut self,
        number: u16,
        index: u32,
        bytes: &[u8; 512],
    ) -> Result<(), AllocError>
        requires number { IsFileNumber number }
        requires low { index ≤ LAST_BLOCK }
        ensures done { OnOk result (AddsBlockEdit self.old self.new number index bytes.now) }
        ensures same { OnErr result (self.new.blocks.items ≡ self.old.blocks.items) }
        ensures headers { self.new.headers ≡ self.old.headers }
        ensures loss { self.new.loss ≡ self.old.loss }
    {
        self.blocks.push(BlockEdit {
            number,
            index,
            bytes: *bytes,
        })?;
        Ok(())
    }
}

/// How many blocks may come into memory as the blocks above these are brought there.
pub fn ways_to(blocks: &[BlockEdit]) -> usize
    ensures value { result ≡ ways blocks.now }
    ensures most { result ≤ 3 * length blocks.now }
{
    let mut ways = 0usize;
    let mut before = None;
    for block in blocks {
        ways += way_behind(&before, block);
        before = Some(*block);
    }
    ways
}

/// How many may for one block behind another.
fn way_behind(before: &Option<BlockEdit>, block: &BlockEdit) -> usize
    ensures { result ≡ way_from before.now block.now }
{
    match before {
        Some(before) => { if is_beside(before, block) { 0 } else { 3 } }
        None => 3,
    }
}

/// Whether the block above two blocks is the same.
fn is_beside(a: &BlockEdit, b: &BlockEdit) -> bool
    ensures { result ≡ is_beside a.now b.now }
{
    a.number == b.number && row_of(a.index) == row_of(b.index)
}

/// The place of the block above among those of a file: the inode, and then the leaves of pointers.
fn row_of(index: u32) -> u32
    ensures { result ≡ row_of index }
{
    if index < DIRECT_BLOCKS {
        0
    } else {
        1 + (index - DIRECT_BLOCKS) / BLOCK_POINTERS
    }
}
