//! How many blocks a file has with the draft.
ghost use Rattle.std.specs.Prelude.{◌≡◌, ◌<◌, ◌≤◌, ◌+◌, ◌-◌, true, IfSome, IfNone, IfOk, OnErr, IsErrOf, IsTrue, IsFalse};
ghost use Rattle.std.specs.List.{AllByRecursion};
ghost use Rattle.lfs_cleaner.specs.log.LogState.{IsReadFault};
ghost use Rattle.lfs_store.specs.Keeping.{ReadsLog};
ghost use Rattle.lfs_store.specs.Measuring.{SaysStored, IsBetween, IsOff, KeepsBefore, LeavesBlocks, StoresLeaf, IsLeafRange, TellsStored, TellsLeaf, TellsDouble, CountsStored, CountsLeaves, CountsPointers};

use crate::draft::Draft;
use crate::losing::takes_block;
use crate::store::Store;
use crate::totals::Measure;
use lfs_cleaner::volume_log::{BlockEdit, Log, LogFault, Loss};
use lfs_device::SectorDevice;
use lfs_layout::is_zero;
use lfs_model::FileNumber;
use lfs_model::limits::{
    BLOCK_POINTERS, DIRECT_BLOCKS, FILE_BLOCKS, FILE_LEAVES, FIRST_DOUBLE, LAST_LEAF,
};

impl<D: SectorDevice> Store<D> {
    ghost use Rattle.lfs_store.specs.Measuring.{Measures};
    ghost use Rattle.lfs_store.specs.Reading.{ReadsStore};

    /// How many blocks a file has: data blocks at the indices from one on to another, its inode,
    /// its leaves of pointers with a block there, and its double root. It reads no block of data.
    ///
    /// # Errors
    ///
    /// As those of `header`.
    pub fn measure(&mut self, number: FileNumber, from: u32, to: u32) -> Result<Measure, LogFault>
        requires order { from ≤ to }
        requires low { to ≤ FILE_BLOCKS }
        ensures reads { ReadsStore D.SectorDevice.state self.old self.new }
        ensures few { IfOk result (λ found. found.data_blocks ≤ to - from) }
        ensures few_above { IfOk result (λ found. found.meta_blocks ≤ FILE_LEAVES + 2) }
        ensures answer { IfOk result (Measures D.SectorDevice.state self.old.log self.new.log
            self.old.draft.changes number.value from to) }
        ensures failed { OnErr result (IsReadFault D.SectorDevice.state self.old.log self.new.log) }
        ensures halted { IsErrOf result LogFault.Halted → self.old.log.halted ≡ true }
        ensures other { IsErrOf result LogFault.Full → ⊥ }
    {
        let size = match self.header(number) {
            Ok(Some(header)) => header.size,
            Ok(None) => {
                return Ok(Measure {
                    data_blocks: 0,
                    meta_blocks: 0,
                });
            }
            Err(fault) => return Err(fault),
        };
        let end = size.div_ceil(512).min(to);
        let data_blocks = count_stored(&mut self.log, &self.draft, number, from.min(end), end)?;
        let pointers = count_pointers(&mut self.log, &self.draft, number, size, from, to)?;
        Ok(Measure {
            data_blocks,
            meta_blocks: 1 + pointers,
        })
    }
}

/// Whether a block of a file is stored. It reads no block of data.
fn is_stored<D: SectorDevice>(
    log: &mut Log<D>,
    draft: &Draft,
    number: FileNumber,
    index: u32,
) -> Result<bool, LogFault>
    ensures reads { ReadsLog D.state log.old log.new result }
    ensures answer { IfOk result
        (TellsStored D.state log.old log.new draft.now.changes number.value index) }
{
    match stored_after(draft, number, index) {
        Some(stored) => Ok(stored),
        None => log.has_block(number.value, index),
    }
}

/// Whether a leaf of pointers of a file is stored, since a block below it is. Where the draft
/// stores one, nothing is read; where it changes one, it looks at each block below, until one is
/// stored.
fn has_leaf<D: SectorDevice>(
    log: &mut Log<D>,
    draft: &Draft,
    number: FileNumber,
    leaf: u32,
) -> Result<bool, LogFault>
    requires leaf { leaf ≤ LAST_LEAF }
    ensures reads { ReadsLog D.state log.old log.new result }
    ensures answer { IfOk result
        (TellsLeaf D.state log.old log.new draft.now.changes number.value leaf) }
{
    if stores_leaf(draft, number, leaf) {
        return Ok(true);
    }
    let first = DIRECT_BLOCKS + BLOCK_POINTERS * leaf;
    if !changes_blocks(draft, number, first, first + BLOCK_POINTERS) {
        return log.has_leaf(number.value, leaf);
    }
    for index in first..first + BLOCK_POINTERS {
        if is_stored(log, draft, number, index)? {
            return Ok(true);
        }
    }
    Ok(false)
}

/// How many blocks of a file are stored at the indices from one on to another. Where they are more
/// than one, and the draft changes none of them, they are counted by their blocks of pointers; else
/// it looks at each.
fn count_stored<D: SectorDevice>(
    log: &mut Log<D>,
    draft: &Draft,
    number: FileNumber,
    from: u32,
    to: u32,
) -> Result<u32, LogFault>
    requires order { from ≤ to }
    ensures reads { ReadsLog D.state log.old log.new result }
    ensures few { IfOk result (λ count. count ≤ to - from) }
    ensures answer { IfOk result
        (CountsStored D.state log.old log.new draft.now.changes number.value from to) }
{
    if to - from > 1 && !changes_blocks(draft, number, from, to) {
        return log.count_blocks(number.value, from, to);
    }
    let mut count = 0;
    for index in from..to {
        count += u32::from(is_stored(log, draft, number, index)?);
    }
    Ok(count)
}

/// How many leaves of pointers of a file are stored, from one on to another.
fn count_leaves<D: SectorDevice>(
    log: &mut Log<D>,
    draft: &Draft,
    number: FileNumber,
    from: u32,
    to: u32,
) -> Result<u32, LogFault>
    requires order { from ≤ to }
    requires low { to ≤ FILE_LEAVES }
    ensures reads { ReadsLog D.state log.old log.new result }
    ensures few { IfOk result (λ count. count ≤ to - from) }
    ensures answer { IfOk result
        (CountsLeaves D.state log.old log.new draft.now.changes number.value from to) }
{
    let mut count = 0;
    for leaf in from..to {
        count += u32::from(has_leaf(log, draft, number, leaf)?);
    }
    Ok(count)
}

/// Whether the double root of pointers of a file of this size is stored, since a leaf below it is.
/// Where the draft changes a block there, it looks at each leaf below, until one is stored.
fn has_double<D: SectorDevice>(
    log: &mut Log<D>,
    draft: &Draft,
    number: FileNumber,
    size: u32,
) -> Result<bool, LogFault>
    ensures reads { ReadsLog D.state log.old log.new result }
    ensures answer { IfOk result
        (TellsDouble D.state log.old log.new draft.now.changes number.value size) }
{
    if !changes_blocks(draft, number, FIRST_DOUBLE, FILE_BLOCKS) {
        return log.has_double(number.value);
    }
    let blocks = size.div_ceil(512);
    let leaves = blocks
        .saturating_sub(DIRECT_BLOCKS)
        .div_ceil(BLOCK_POINTERS);
    let end = leaves.min(FILE_LEAVES);
    for leaf in 1..end.max(1) {
        if has_leaf(log, draft, number, leaf)? {
            return Ok(true);
        }
    }
    Ok(false)
}

/// The first of the leaves of pointers with a block at the indices from one on to another, before
/// the end of a file of this size, and where they end.
fn leaf_range(size: u32, from: u32, to: u32) -> (u32, u32)
    requires { to ≤ FILE_BLOCKS }
    ensures range { IsLeafRange size from to result.0 result.1 }
    ensures order { result.0 ≤ result.1 }
    ensures low { result.1 ≤ FILE_LEAVES }
{
    let blocks = size.div_ceil(512).min(to);
    let end = blocks
        .saturating_sub(DIRECT_BLOCKS)
        .div_ceil(BLOCK_POINTERS);
    let first = (from.saturating_sub(DIRECT_BLOCKS) / BLOCK_POINTERS).min(end);
    (first, end)
}

/// How many blocks of pointers a file of this size has: leaves with a block at the indices from one
/// on to another, and the double root.
fn count_pointers<D: SectorDevice>(
    log: &mut Log<D>,
    draft: &Draft,
    number: FileNumber,
    size: u32,
    from: u32,
    to: u32,
) -> Result<u32, LogFault>
    requires order { from ≤ to }
    requires low { to ≤ FILE_BLOCKS }
    ensures reads { ReadsLog D.state log.old log.new result }
    ensures few { IfOk result (λ count. count ≤ FILE_LEAVES + 1) }
    ensures answer { IfOk result
        (CountsPointers D.state log.old log.new draft.now.changes number.value size from to) }
{
    let (first, end) = leaf_range(size, from, to);
    let leaves = count_leaves(log, draft, number, first, end)?;
    // A leaf behind the first is below the double root.
    if first > 0 && leaves > 0 {
        return Ok(leaves + 1);
    }
    let found = has_double(log, draft, number, size)?;
    Ok(leaves + u32::from(found))
}

/// Whether a block of a file is stored after a draft; `None` where the draft leaves it as it is.
fn stored_after(draft: &Draft, number: FileNumber, index: u32) -> Option<bool>
    ensures { SaysStored draft.now.changes number.value index result }
{
    if let Some(bytes) = draft.find_block(number, index) {
        return Some(!is_zero(bytes));
    }
    if !takes_block(&draft.changes.loss, number.value, index) {
        return None;
    }
    Some(false)
}

/// Whether a draft stores a block below a leaf of pointers of a file: it looks at the last that it
/// has there.
fn stores_leaf(draft: &Draft, number: FileNumber, leaf: u32) -> bool
    requires { leaf ≤ LAST_LEAF }
    ensures { IsTrue result → StoresLeaf draft.now.changes number.value leaf }
{
    let first = DIRECT_BLOCKS + BLOCK_POINTERS * leaf;
    let edits = &draft.changes.blocks;
    let Some(index) = index_between(edits, number.value, first, first + BLOCK_POINTERS) else {
        return false;
    };
    match stored_after(draft, number, index) {
        Some(stored) => stored,
        None => false,
    }
}

/// Whether a draft changes a block of a file at the indices from one on to another.
fn changes_blocks(draft: &Draft, number: FileNumber, from: u32, to: u32) -> bool
    ensures { IsFalse result → LeavesBlocks draft.now.changes number.value from to }
{
    match index_between(&draft.changes.blocks, number.value, from, to) {
        Some(_) => true,
        None => takes_before(&draft.changes.loss, number.value, to),
    }
}

/// Whether a loss takes a block of a file before an index.
fn takes_before(loss: &Loss, number: u16, to: u32) -> bool
    ensures { IsFalse result → KeepsBefore loss.now number to }
{
    match loss {
        Loss::Nothing => false,
        Loss::FirstVersion => false,
        Loss::Blocks(cut) => cut.number == number && cut.first < to,
        Loss::Link(_) => false,
        Loss::File(removal) => removal.number == number,
    }
}

/// The index of the last of these blocks that is one of a file at the indices from one on to
/// another.
fn index_between(edits: &[BlockEdit], number: u16, from: u32, to: u32) -> Option<u32>
    ensures some { IfSome result (IsBetween from to) }
    ensures none { IfNone result (AllByRecursion (IsOff number from to) edits.now) }
{
    let mut place = edits.len();
    while place > 0 {
        place -= 1;
        if is_between(&edits[place], number, from, to) {
            return Some(edits[place].index);
        }
    }
    None
}

/// Whether this is a block of a file at the indices from one on to another.
fn is_between(edit: &BlockEdit, number: u16, from: u32, to: u32) -> bool
    ensures inside { IsTrue result → IsBetween from to edit.now.index }
    ensures off { IsFalse result → IsOff number from to edit.now }
{
    edit.number == number && from <= edit.index && edit.index < to
}
