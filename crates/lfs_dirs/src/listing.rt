//! The names of a directory, listed in order.
ghost use Rattle.std.specs.Prelude.{◌≡◌, ◌≢◌, ◌<◌, ◌≤◌, length, true, IfOk, IfErr, OnOk, IsErrOf, None};
ghost use Rattle.lfs_model.specs.Slot.{slot_in};
ghost use Rattle.lfs_model.specs.TreeOf.{with_slot};
ghost use Rattle.lfs_files.specs.Files.{IsFault, Reads};
ghost use Rattle.lfs_model.specs.Tree.{slot_len};
ghost use Rattle.lfs_dirs.specs.Directory.{first_slots, per_block};
ghost use Rattle.lfs_dirs.specs.Finding.{HasNoSlot, IsDirectoryFault, IsBlockFault};
ghost use Rattle.lfs_dirs.specs.Listing.{PutsSlots, ListsBlock, Lists, Inspects, LacksSlot, LacksBlockSlot, gathered};

use crate::entry::{Entry, push_entry, put_in_order};
use crate::slots::{slots_in_block, slots_of};
use lfs_files::{Files, Header, LogFault, StoreFault};
use lfs_layout::{SlotView, nth_slot};
use lfs_model::FileNumber;
use std::alloc::Global;

/// The names in a directory of this header with the numbers that they give, in the order of the
/// names' bytes.
///
/// # Errors
///
/// `NoMemory` where memory runs out; else as those of `find`.
pub fn list<F: Files>(
    alloc: Global,
    files: &mut F,
    directory: FileNumber,
    header: Header,
) -> Result<Vec<Entry>, StoreFault>
    ensures reads { Reads (F.state files.old) (F.state files.new) }
    ensures answer { IfOk result (λ entries. Lists (F.state files.old) (F.state files.new)
        directory.value header entries.items) }
    ensures failed { IfErr result (λ fault. (fault ≡ StoreFault.NoMemory → ⊥)
        → IsDirectoryFault (F.state files.old) (F.state files.new) directory.value header) }
    ensures halted { IsErrOf result (StoreFault.Log LogFault.Halted)
        → (F.state files.old).halted ≡ true }
    ensures other { IsErrOf result (StoreFault.Log LogFault.Full) → ⊥ }
{
    match inspect(alloc, files, directory, header) {
        Ok(entries) => Ok(entries),
        Err(ListFault::NoMemory) => Err(StoreFault::NoMemory),
        Err(ListFault::NoSlot) => Err(StoreFault::Log(LogFault::Device)),
        Err(ListFault::Log(fault)) => Err(StoreFault::Log(fault)),
    }
}

/// Why a directory isn't listed.
pub enum ListFault {
    /// Memory was refused.
    NoMemory,
    /// Bytes of it are no slot.
    NoSlot,
    /// The log gave no answer.
    Log(LogFault),
}

/// The same of a directory whose slots aren't known to be well-formed: they are, where it is
/// listed.
///
/// # Errors
///
/// `NoMemory` where memory runs out, `NoSlot` where a slot is malformed; else as those of `find`.
pub fn inspect<F: Files>(
    alloc: Global,
    files: &mut F,
    directory: FileNumber,
    header: Header,
) -> Result<Vec<Entry>, ListFault>
    ensures reads { Reads (F.state files.old) (F.state files.new) }
    ensures answer { IfOk result (λ entries. Inspects (F.state files.old) (F.state files.new)
        directory.value header entries.items) }
    ensures failed { IfErr result (λ fault. (fault ≡ ListFault.NoMemory → ⊥)
        → IsDirectoryFault (F.state files.old) (F.state files.new) directory.value header) }
    ensures malformed { IsErrOf result ListFault.NoSlot
        → LacksSlot (F.state files.old) (F.state files.new) directory.value header }
    ensures device { IsErrOf result (ListFault.Log LogFault.Device)
        → IsFault (F.state files.old) (F.state files.new) }
    ensures halted { IsErrOf result (ListFault.Log LogFault.Halted)
        → (F.state files.old).halted ≡ true }
    ensures other { IsErrOf result (ListFault.Log LogFault.Full) → ⊥ }
{
    let slots = slots_of(header);
    let whole = slots_in_block(header.form);
    let mut entries = Vec::new(alloc);
    let mut index = slots.div_ceil(whole);
    while index > 0 {
        index -= 1;
        let count = (slots - whole * index).min(whole) as usize;
        list_block(
            alloc,
            files,
            directory,
            header.form,
            index,
            count,
            &mut entries,
        )?;
    }
    match put_in_order(&mut entries) {
        Ok(()) => Ok(entries),
        Err(_) => Err(ListFault::NoMemory),
    }
}

/// Gathers the names of one block of a directory, whose first slots are the directory's, behind
/// those of the blocks that follow it.
fn list_block<F: Files>(
    alloc: Global,
    files: &mut F,
    directory: FileNumber,
    form: u8,
    index: u32,
    count: usize,
    entries: &mut Vec<Entry>,
) -> Result<(), ListFault>
    requires few { count ≤ per_block form }
    ensures reads { Reads (F.state files.old) (F.state files.new) }
    ensures done { OnOk result (ListsBlock (F.state files.old) (F.state files.new) form directory.value
        index count entries.old.items entries.new.items) }
    ensures failed { IfErr result (λ fault. (fault ≡ ListFault.NoMemory → ⊥)
        → IsBlockFault (F.state files.old) (F.state files.new) form directory.value index count) }
    ensures malformed { IsErrOf result ListFault.NoSlot
        → LacksBlockSlot (F.state files.old) (F.state files.new) form directory.value index count }
    ensures device { IsErrOf result (ListFault.Log LogFault.Device)
        → IsFault (F.state files.old) (F.state files.new) }
    ensures halted { IsErrOf result (ListFault.Log LogFault.Halted)
        → (F.state files.old).halted ≡ true }
    ensures other { IsErrOf result (ListFault.Log LogFault.Full) → ⊥ }
{
    let mut block = [0; 512];
    match files.block(directory, index, &mut block) {
        Ok(_) => {}
        Err(fault) => return Err(ListFault::Log(fault)),
    }
    match put_slots(alloc, &block, form, count, entries) {
        Ok(()) => Ok(()),
        Err(SlotFault::NoMemory) => Err(ListFault::NoMemory),
        Err(SlotFault::NoSlot) => Err(ListFault::NoSlot),
    }
}

/// Why slots aren't taken.
pub enum SlotFault {
    /// Memory was refused.
    NoMemory,
    /// Bytes of a directory are no slot.
    NoSlot,
}

/// The names of the first slots of a block are gathered, from the last on.
fn put_slots(
    alloc: Global,
    block: &[u8; 512],
    form: u8,
    count: usize,
    entries: &mut Vec<Entry>,
) -> Result<(), SlotFault>
    requires { count ≤ per_block form }
    ensures done { OnOk result (PutsSlots form (first_slots form block.now count)
        entries.old.items entries.new.items) }
    ensures broken { IfErr result (λ fault. fault ≡ SlotFault.NoSlot → HasNoSlot form block.now count) }
{
    let mut place = count;
    while place > 0 {
        place -= 1;
        put_slot(alloc, form, nth_slot(block, form, place), entries)?;
    }
    Ok(())
}

/// The name of a slot is gathered.
fn put_slot(alloc: Global, form: u8, slot: &[u8], entries: &mut Vec<Entry>) -> Result<(), SlotFault>
    requires { length slot.now ≡ slot_len form }
    ensures done { OnOk result (gathered entries.new.items ≡ with_slot (slot_in form slot.now)
        (gathered entries.old.items)) }
    ensures formed { OnOk result (slot_in form slot.now ≢ None) }
    ensures broken { IfErr result (λ fault. fault ≡ SlotFault.NoSlot
        → slot_in form slot.now ≡ None) }
{
    let Some(view) = SlotView::decode(form, slot) else {
        return Err(SlotFault::NoSlot);
    };
    let number = FileNumber {
        value: view.number() as u16,
    };
    match push_entry(alloc, entries, view.name(), number) {
        Ok(()) => Ok(()),
        Err(_) => Err(SlotFault::NoMemory),
    }
}
