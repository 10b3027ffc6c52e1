//! The slots of directories, gone through one by one.
ghost use Rattle.std.specs.Prelude.{ℕ};
ghost use Rattle.std.specs.Prelude.{◌≡◌, ◌≤◌, ◌↔◌, [], ◌∷◌, length, IfOk, IsTrue, None};
ghost use Rattle.std.specs.FinMap.{find, put};
ghost use Rattle.lfs_model.specs.Tree.{Names, byte_cmp, slot_len};
ghost use Rattle.lfs_dirs.specs.Directory.{first_slots, per_block};
ghost use Rattle.lfs_tree.specs.Naming.{HasNames, TakesSlots, is_directory_kind};

use crate::headers::Headers;
use crate::tables::NameTables;
use lfs_files::Header;
use lfs_layout::{SlotView, nth_slot};
use lfs_model::{FileNumber, Kind};
use std::alloc::{AllocError, Global};
use std::collections::BTreeSet;

/// Whether it is the header of a directory.
pub(crate) fn is_directory(header: Header) -> bool
    ensures { result ≡ is_directory_kind header.kind }
{
    match header.kind {
        Kind::Directory => true,
        Kind::File => false,
        Kind::Link => false,
    }
}

/// A name comes into a set: true where the set didn't have it.
///
/// # Errors
///
/// Where memory runs out.
fn insert_name(
    alloc: Global,
    names: &mut BTreeSet<Vec<u8>>,
    name: &[u8],
) -> Result<bool, AllocError>
    ensures new { IfOk result (λ new. (ms : Names) → HasNames names.old ms
        → IsTrue new ↔ (find byte_cmp name.now ms ≡ None)) }
    ensures more { IfOk result (λ new. (ms : Names) (v : ℕ) → HasNames names.old ms
        → HasNames names.new (put byte_cmp name.now v ms)) }
{
    let name = name.to_vec(alloc)?;
    let Ok(new) = names.insert(name) else {
        return Err(AllocError);
    };
    Ok(new)
}

/// Goes through a slot of a directory of this form: false where it is malformed, its number isn't there, or the
/// directory had its name.
///
/// # Errors
///
/// Where memory runs out.
fn take_slot(
    alloc: Global,
    form: u8,
    slot: &[u8],
    directory: FileNumber,
    headers: &Headers,
    names: &mut BTreeSet<Vec<u8>>,
    tables: &mut NameTables,
) -> Result<bool, AllocError>
    requires { length slot.now ≡ slot_len form }
    ensures { IfOk result (λ taken. TakesSlots form headers.now directory.value (slot.now ∷ [])
        names.old names.new tables.old tables.new taken) }
{
    let Some(view) = SlotView::decode(form, slot) else {
        return Ok(false);
    };
    let number = FileNumber {
        value: view.number() as u16,
    };
    let Some(header) = headers.get(number.value) else {
        return Ok(false);
    };
    if !insert_name(alloc, names, view.name())? {
        return Ok(false);
    }
    tables.note(directory, number, is_directory(header));
    Ok(true)
}

/// Goes through the first slots of a block of a directory of this form, from the last on.
///
/// # Errors
///
/// Where memory runs out.
pub(crate) fn take_slots(
    alloc: Global,
    block: &[u8; 512],
    form: u8,
    count: usize,
    directory: FileNumber,
    headers: &Headers,
    names: &mut BTreeSet<Vec<u8>>,
    tables: &mut NameTables,
) -> Result<bool, AllocError>
    requires { count ≤ per_block form }
    ensures { IfOk result (λ taken. TakesSlots form headers.now directory.value
        (first_slots form block.now count) names.old names.new tables.old tables.new taken) }
{
    let mut place = count;
    while place > 0 {
        place -= 1;
        if !take_slot(
            alloc,
            form,
            nth_slot(block, form, place),
            directory,
            headers,
            names,
            tables,
        )? {
            return Ok(false);
        }
    }
    Ok(true)
}
