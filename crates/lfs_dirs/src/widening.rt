//! A directory drafted anew in form 1, whose slots hold longer names.
ghost use Rattle.std.specs.Prelude.{◌≡◌, ◌≢◌, ◌<◌, ◌≤◌, ◌+◌, ◌*◌, ◌++◌, true, length, IfOk, IfErr, OnOk, IsErrOf, None};
ghost use Rattle.lfs_model.specs.Slot.{slot_in};
ghost use Rattle.lfs_model.specs.Tree.{slot_len};
ghost use Rattle.lfs_files.specs.Files.{Redrafts};
ghost use Rattle.lfs_dirs.specs.Directory.{first_slots, per_block, slot_count};
ghost use Rattle.lfs_dirs.specs.Finding.{GathersOnly, HasNoSlot, IsBlockFault, IsDirectoryFault};
ghost use Rattle.lfs_dirs.specs.Searching.{count_in_nth};
ghost use Rattle.lfs_dirs.specs.Widening.{AppendsWide, CountsWidened, TellsWide, Widens, WidensBlock, wide_slot};

use crate::listing::SlotFault;
use crate::slots::{slots_in_block, slots_of};
use lfs_files::{Files, Header, LogFault, StoreFault};
use lfs_layout::{SlotView, encode_slot, nth_slot};
use lfs_model::FileNumber;
use lfs_model::limits::MOST_ENTRIES;
use std::alloc::Global;

/// The form of the directories that take longer names.
const WIDE_FORM: u8 = 1;

/// Drafts a directory of this header in form 1: it keeps its names and the numbers that they give.
///
/// # Errors
///
/// `NoMemory` where memory runs out; else as those of `find` and of `Files::write_at`.
pub fn widen<F: Files>(
    alloc: Global,
    files: &mut F,
    directory: FileNumber,
    header: Header,
) -> Result<(), StoreFault>
    requires size { header.size ≤ MOST_ENTRIES * slot_len header.form }
    ensures redrafts { Redrafts (F.state files.old) (F.state files.new) }
    ensures done { OnOk result (Widens (F.state files.old) (F.state files.new) directory.value
        header) }
    ensures counted { OnOk result (CountsWidened (F.state files.old) (F.state files.new)
        directory.value header) }
    ensures failed { IfErr result (λ fault. (fault ≡ StoreFault.NoMemory → ⊥)
        → IsDirectoryFault (F.state files.old) (F.state files.new) directory.value header) }
    ensures halted { IsErrOf result (StoreFault.Log LogFault.Halted)
        → (F.state files.old).halted ≡ true }
    ensures other { IsErrOf result (StoreFault.Log LogFault.Full) → ⊥ }
{
    let slots = wide_slots(alloc, files, directory, header)?;
    let size = slots.len() as u32;
    files.reform(directory, header, WIDE_FORM, size)?;
    if slots.is_empty() {
        return Ok(());
    }
    let wide = Header {
        kind: header.kind,
        form: WIDE_FORM,
        links: header.links,
        size,
    };
    files.write_at(directory, wide, 0, slots.as_slice())?;
    Ok(())
}

/// The slots of a directory of this header, in their order, as slots of form 1.
fn wide_slots<F: Files>(
    alloc: Global,
    files: &mut F,
    directory: FileNumber,
    header: Header,
) -> Result<Vec<u8>, StoreFault>
    requires size { header.size ≤ MOST_ENTRIES * slot_len header.form }
    ensures gathers { GathersOnly (F.state files.old) (F.state files.new) result }
    ensures long { IfOk result (λ slots. length slots.items ≡ slot_len 1 * slot_count header) }
    ensures few { IfOk result (λ slots. length slots.items ≤ MOST_ENTRIES * slot_len 1) }
    ensures answer { IfOk result (λ slots. TellsWide (F.state files.old) (F.state files.new)
        directory.value header slots.items) }
    ensures failed { IfErr result (λ fault. (fault ≡ StoreFault.NoMemory → ⊥)
        → IsDirectoryFault (F.state files.old) (F.state files.new) directory.value header) }
{
    let all = slots_of(header);
    let whole = slots_in_block(header.form);
    let mut slots = Vec::new(alloc);
    for index in 0..all.div_ceil(whole) {
        widen_nth(files, directory, header, index, &mut slots)?;
    }
    Ok(slots)
}

/// The slots of one block of a directory come behind others, as slots of form 1.
fn widen_nth<F: Files>(
    files: &mut F,
    directory: FileNumber,
    header: Header,
    index: u32,
    slots: &mut Vec<u8>,
) -> Result<(), StoreFault>
    requires low { per_block header.form * index < slot_count header }
    ensures gathers { GathersOnly (F.state files.old) (F.state files.new) result }
    ensures long { OnOk result (length slots.new.items ≡ length slots.old.items
        + slot_len 1 * count_in_nth header index) }
    ensures done { OnOk result (WidensBlock (F.state files.old) (F.state files.new) header.form
        directory.value index (count_in_nth header index) slots.old.items slots.new.items) }
    ensures failed { IfErr result (λ fault. (fault ≡ StoreFault.NoMemory → ⊥)
        → IsBlockFault (F.state files.old) (F.state files.new) header.form directory.value index
        (count_in_nth header index)) }
{
    let whole = slots_in_block(header.form);
    let count = (slots_of(header) - whole * index).min(whole) as usize;
    widen_block(files, directory, header.form, index, count, slots)?;
    Ok(())
}

/// The first slots of one block of a directory come behind others, as slots of form 1.
fn widen_block<F: Files>(
    files: &mut F,
    directory: FileNumber,
    form: u8,
    index: u32,
    count: usize,
    slots: &mut Vec<u8>,
) -> Result<(), StoreFault>
    requires few { count ≤ per_block form }
    ensures gathers { GathersOnly (F.state files.old) (F.state files.new) result }
    ensures long { OnOk result (length slots.new.items ≡ length slots.old.items
        + slot_len 1 * count) }
    ensures done { OnOk result (WidensBlock (F.state files.old) (F.state files.new) form directory.value
        index count slots.old.items slots.new.items) }
    ensures failed { IfErr result (λ fault. (fault ≡ StoreFault.NoMemory → ⊥)
        → IsBlockFault (F.state files.old) (F.state files.new) form directory.value index count) }
{
    let mut block = [0; 512];
    match files.block(directory, index, &mut block) {
        Ok(_) => {}
        Err(fault) => return Err(StoreFault::Log(fault)),
    }
    match put_wide_slots(&block, form, count, slots) {
        Ok(()) => Ok(()),
        Err(SlotFault::NoMemory) => Err(StoreFault::NoMemory),
        Err(SlotFault::NoSlot) => Err(StoreFault::Log(LogFault::Device)),
    }
}

/// The first slots of a block come behind others, as slots of form 1.
fn put_wide_slots(
    block: &[u8; 512],
    form: u8,
    count: usize,
    slots: &mut Vec<u8>,
) -> Result<(), SlotFault>
    requires { count ≤ per_block form }
    ensures long { OnOk result (length slots.new.items ≡ length slots.old.items
        + slot_len 1 * count) }
    ensures done { OnOk result (AppendsWide form (first_slots form block.now count)
        slots.old.items slots.new.items) }
    ensures broken { IfErr result (λ fault. fault ≡ SlotFault.NoSlot → HasNoSlot form block.now
        count) }
{
    for place in 0..count {
        put_wide_slot(nth_slot(block, form, place), form, slots)?;
    }
    Ok(())
}

/// A slot comes behind others, as a slot of form 1.
fn put_wide_slot(slot: &[u8], form: u8, slots: &mut Vec<u8>) -> Result<(), SlotFault>
    requires { length slot.now ≡ slot_len form }
    ensures long { OnOk result (length slots.new.items ≡ length slots.old.items + slot_len 1) }
    ensures done { OnOk result (slots.new.items ≡ slots.old.items ++ wide_slot form slot.now) }
    ensures formed { OnOk result (slot_in form slot.now ≢ None) }
    ensures broken { IfErr result (λ fault. fault ≡ SlotFault.NoSlot
        → slot_in form slot.now ≡ None) }
{
    let Some(view) = SlotView::decode(form, slot) else {
        return Err(SlotFault::NoSlot);
    };
    let wide = encode_slot(WIDE_FORM, view.number(), view.name());
    match slots.extend_from_slice(wide.written()) {
        Ok(()) => Ok(()),
        Err(_) => Err(SlotFault::NoMemory),
    }
}
