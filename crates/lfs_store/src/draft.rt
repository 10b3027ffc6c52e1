//! What a call will change, before it is staged.
ghost use Rattle.std.specs.Prelude.{◌≡◌, ◌≤◌, ◌+◌, length, IfSome, IfNone, IfOk, OnOk, OnErr, IsTrue, IsFalse};
ghost use Rattle.lfs_cleaner.specs.log.memory.Batch.{IsNoChange};
ghost use Rattle.lfs_store.specs.Drafting.{HeaderPlace, DraftsHeader, PutsHeader, IsBlock, PlaceInDraft, DraftsBlock, LeavesBlock, PutsBlock, LosesOnly, IsAsBefore};
ghost use Rattle.lfs_store.specs.Growing.{PlacesBlock};
ghost use Rattle.lfs_store.specs.Reading.{SaysHeader, SaysBlock};
ghost use Rattle.lfs_model.specs.Fields.{zeros};

use crate::losing::{header_after, takes_block};
use lfs_cleaner::volume_log::{BlockEdit, Changes, Header, HeaderEdit, Loss};
use lfs_layout::is_zero;
use lfs_model::FileNumber;
use lfs_model::limits::{LAST_BLOCK, SECTOR_LEN};
use std::alloc::{AllocError, Global};

/// The changes of one call. A later change of a header or of a block takes the place of the one
/// before it.
#[derive(Drop)]
pub struct Draft {
    pub changes: Changes,
}

impl Draft {
    /// No change, with room for so many headers and blocks.
    ///
    /// # Errors
    ///
    /// Where memory runs out.
    pub fn new(alloc: Global, headers: usize, blocks: usize) -> Result<Draft, AllocError>
        ensures empty { IfOk result (λ draft. IsNoChange draft.changes) }
        ensures nothing { IfOk result (λ draft. LosesOnly draft.changes Loss.Nothing) }
    {
        let changes = Changes::new(alloc, headers, blocks)?;
        Ok(Draft { changes })
    }

    /// No change any more.
    pub fn clear(&mut self)
        ensures empty { IsNoChange self.new.changes }
        ensures nothing { LosesOnly self.new.changes Loss.Nothing }
    {
        self.changes.clear();
    }

    /// A file loses this before headers and blocks change.
    pub fn lose(&mut self, loss: Loss)
        ensures alone { IsNoChange self.old.changes → LosesOnly self.new.changes loss }
        ensures headers { self.new.changes.headers ≡ self.old.changes.headers }
        ensures blocks { self.new.changes.blocks ≡ self.old.changes.blocks }
        ensures loss { self.new.changes.loss ≡ loss }
    {
        self.changes.loss = loss;
    }

    /// The header that the draft gives a file.
    pub fn find_header(&self, number: FileNumber) -> Option<Header>
        ensures { DraftsHeader self.now.changes number.value result }
    {
        let Some(place) = last_header(&self.changes.headers, number.value) else {
            return None;
        };
        Some(self.changes.headers[place].header)
    }

    /// A file has this header; it is made where it isn't there.
    ///
    /// # Errors
    ///
    /// Where memory runs out: the draft is as it was.
    pub fn put_header(&mut self, number: FileNumber, header: Header) -> Result<(), AllocError>
        ensures done { OnOk result (PutsHeader self.old.changes self.new.changes number.value
            header) }
        ensures same { OnErr result (IsAsBefore self.old.changes self.new.changes) }
    {
        let Some(place) = last_header(&self.changes.headers, number.value) else {
            return self.changes.put_header(number.value, header);
        };
        let edit = HeaderEdit {
            number: number.value,
            header,
        };
        self.changes.headers[place] = edit;
        Ok(())
    }

    /// The bytes that the draft gives a block of a file.
    pub fn find_block(&self, number: FileNumber, index: u32) -> Option<&[u8; 512]>
        ensures some { IfSome result (λ bytes. DraftsBlock self.now.changes number.value index
            bytes.now) }
        ensures none { IfNone result (LeavesBlock self.now.changes number.value index) }
        ensures long { IfSome result (λ bytes. length bytes.now ≡ SECTOR_LEN) }
    {
        let Some(place) = last_block(&self.changes.blocks, number.value, index) else {
            return None;
        };
        Some(&self.changes.blocks[place].bytes)
    }

    /// A block of a file has these bytes.
    ///
    /// # Errors
    ///
    /// Where memory runs out: the draft is as it was.
    pub fn put_block(
        &mut self,
        number: FileNumber,
        index: u32,
        bytes: &[u8; 512],
    ) -> Result<(), AllocError>
        requires low { index ≤ LAST_BLOCK }
        ensures done { OnOk result (PutsBlock self.old.changes self.new.changes number.value index
            bytes.now) }
        ensures placed { OnOk result (PlacesBlock self.old.changes self.new.changes number.value
            index) }
        ensures same { OnErr result (IsAsBefore self.old.changes self.new.changes) }
    {
        let Some(place) = last_block(&self.changes.blocks, number.value, index) else {
            return self.changes.put_block(number.value, index, bytes);
        };
        self.changes.blocks[place] = BlockEdit {
            number: number.value,
            index,
            bytes: *bytes,
        };
        Ok(())
    }

    /// The header that a file has after the draft, or that it isn't there; `None` where the draft
    /// leaves it as it is.
    pub fn header(&self, number: FileNumber) -> Option<Option<Header>>
        ensures { SaysHeader self.now.changes number.value result }
    {
        match self.find_header(number) {
            Some(header) => Some(Some(header)),
            None => header_after(&self.changes.loss, number.value),
        }
    }

    /// Whether a block of a file is stored after the draft, and its bytes; zeros where it isn't.
    /// `None` where the draft leaves it as it is.
    pub fn block(&self, number: FileNumber, index: u32, out: &mut [u8; 512]) -> Option<bool>
        ensures says { SaysBlock self.now.changes number.value index out.new result }
        ensures zeros { IfSome result (λ found. IsFalse found → out.new ≡ zeros SECTOR_LEN) }
    {
        if let Some(bytes) = self.find_block(number, index) {
            *out = *bytes;
            return Some(!is_zero(bytes));
        }
        if !takes_block(&self.changes.loss, number.value, index) {
            return None;
        }
        clear(out);
        Some(false)
    }
}

/// Where the last header of a file is.
fn last_header(edits: &[HeaderEdit], number: u16) -> Option<usize>
    ensures { HeaderPlace edits.now number result }
{
    let mut place = edits.len();
    while place > 0 {
        place -= 1;
        if edits[place].number == number {
            return Some(place);
        }
    }
    None
}

/// Where the last bytes of a block of a file are.
fn last_block(edits: &[BlockEdit], number: u16, index: u32) -> Option<usize>
    ensures { PlaceInDraft edits.now number index result }
{
    let mut place = edits.len();
    while place > 0 {
        place -= 1;
        if is_block(&edits[place], number, index) {
            return Some(place);
        }
    }
    None
}

/// Whether this is a block's bytes.
fn is_block(edit: &BlockEdit, number: u16, index: u32) -> bool
    ensures yes { IsTrue result → IsBlock number index edit.now }
    ensures no { IsFalse result → IsBlock number index edit.now → ⊥ }
{
    edit.number == number && edit.index == index
}

#[tactic(auto, unfolding(lfs_model::specs::Fields::zeros))]
fn clear(out: &mut [u8; 512])
    ensures { out.new ≡ zeros SECTOR_LEN }
{
    *out = [0; 512];
}
