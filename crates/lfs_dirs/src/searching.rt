//! A name looked up in a directory.
ghost use Rattle.std.specs.Prelude.{◌≡◌, ◌<◌, ◌≤◌, ◌*◌, ◌/◌, true, IfOk, IfSome, IfNone, OnErr, IsErrOf};
ghost use Rattle.lfs_files.specs.Files.{Reads};
ghost use Rattle.lfs_dirs.specs.Directory.{first_slots, per_block, slot_count};
ghost use Rattle.lfs_dirs.specs.Finding.{Finds, HasNoSlot, IsDirectoryFault, IsBlockFault};
ghost use Rattle.lfs_dirs.specs.Repointing.{Lacks};
ghost use Rattle.lfs_dirs.specs.Searching.{FindsIn, FindsInBlock, FindsInNth, FindsName, FindsSlot, SearchesOnly};

use crate::slots::{slots_in_block, slots_of};
use lfs_files::{Files, Header, LogFault};
use lfs_layout::{SlotView, has_name, nth_slot};
use lfs_model::FileNumber;

/// A name of a directory.
#[derive(Clone, Copy)]
pub struct Found {
    /// How many slots stand before its own.
    pub place: u32,
    /// The number that it gives.
    pub number: FileNumber,
}

/// The slot of a name in a directory of this header and the number that it gives, if it is there:
/// the first slot that has the name.
///
/// # Errors
///
/// As those of `Files::block`; `Device` also where bytes of this name are no slot, as none of a
/// directory are.
pub fn find<F: Files>(
    files: &mut F,
    directory: FileNumber,
    header: Header,
    name: &[u8],
) -> Result<Option<Found>, LogFault>
    ensures reads { Reads (F.state files.old) (F.state files.new) }
    ensures answer { IfOk result (Finds (F.state files.old) (F.state files.new)
        directory.value header name.now) }
    ensures slot { IfOk result (FindsSlot (F.state files.old) (F.state files.new)
        directory.value header name.now) }
    ensures inside { IfOk result (λ found. IfSome found (λ slot. slot.place < slot_count header)) }
    ensures failed { OnErr result (IsDirectoryFault (F.state files.old)
        (F.state files.new) directory.value header) }
    ensures halted { IsErrOf result LogFault.Halted → (F.state files.old).halted ≡ true }
    ensures other { IsErrOf result LogFault.Full → ⊥ }
{
    let slots = slots_of(header);
    let whole = slots_in_block(header.form);
    for index in 0..slots.div_ceil(whole) {
        match search_nth(files, directory, header, index, name) {
            Ok(Some(found)) => return Ok(Some(found)),
            Ok(None) => {}
            Err(fault) => return Err(fault),
        }
    }
    Ok(None)
}

/// The slot of this name in a directory of this header, looked for first in the block in which the
/// slot of this place stands.
///
/// # Errors
///
/// As those of `find`.
pub fn search_from<F: Files>(
    files: &mut F,
    directory: FileNumber,
    header: Header,
    name: &[u8],
    place: u32,
) -> Result<Option<Found>, LogFault>
    ensures searches { SearchesOnly (F.state files.old) (F.state files.new) directory.value header
        result }
    ensures found { IfOk result (λ found. IfSome found (FindsName (F.state files.old)
        (F.state files.new) directory.value header name.now)) }
    ensures none { IfOk result (λ found. IfNone found (Lacks (F.state files.old)
        (F.state files.new) directory.value header name.now)) }
{
    if place < slots_of(header) {
        let index = place / slots_in_block(header.form);
        match search_nth(files, directory, header, index, name) {
            Ok(Some(found)) => return Ok(Some(found)),
            Ok(None) => {}
            Err(fault) => return Err(fault),
        }
    }
    find(files, directory, header, name)
}

/// The first slot of this name in one block of a directory.
fn search_nth<F: Files>(
    files: &mut F,
    directory: FileNumber,
    header: Header,
    index: u32,
    name: &[u8],
) -> Result<Option<Found>, LogFault>
    requires low { per_block header.form * index < slot_count header }
    ensures searches { SearchesOnly (F.state files.old) (F.state files.new) directory.value header
        result }
    ensures answer { IfOk result (FindsInNth (F.state files.old) (F.state files.new)
        directory.value header index name.now) }
{
    let whole = slots_in_block(header.form);
    let first = whole * index;
    let count = (slots_of(header) - first).min(whole);
    match search_block(files, directory, header.form, index, count, name) {
        Ok(Some(found)) => Ok(Some(Found {
            place: first + found.place,
            number: found.number,
        })),
        Ok(None) => Ok(None),
        Err(fault) => Err(fault),
    }
}

/// The same in one block of a directory, whose first slots are the directory's; the place is
/// counted from the block's first.
fn search_block<F: Files>(
    files: &mut F,
    directory: FileNumber,
    form: u8,
    index: u32,
    count: u32,
    name: &[u8],
) -> Result<Option<Found>, LogFault>
    requires few { count ≤ per_block form }
    ensures reads { Reads (F.state files.old) (F.state files.new) }
    ensures answer { IfOk result (FindsInBlock (F.state files.old) (F.state files.new) form
        directory.value index count name.now) }
    ensures inside { IfOk result (λ found. IfSome found (λ slot. slot.place < count)) }
    ensures failed { OnErr result (IsBlockFault (F.state files.old)
        (F.state files.new) form directory.value index count) }
    ensures halted { IsErrOf result LogFault.Halted → (F.state files.old).halted ≡ true }
    ensures other { IsErrOf result LogFault.Full → ⊥ }
{
    let mut block = [0; 512];
    match files.block(directory, index, &mut block) {
        Ok(_) => {}
        Err(fault) => return Err(fault),
    }
    match search_slots(&block, form, count, name) {
        Ok(found) => Ok(found),
        Err(NoSlot) => Err(LogFault::Device),
    }
}

/// Bytes of a directory that are no slot.
struct NoSlot;

/// The same in the first slots of a block.
fn search_slots(
    block: &[u8; 512],
    form: u8,
    count: u32,
    name: &[u8],
) -> Result<Option<Found>, NoSlot>
    requires { count ≤ per_block form }
    ensures found { IfOk result (FindsIn form (first_slots form block.now count) name.now) }
    ensures inside { IfOk result (λ found. IfSome found (λ slot. slot.place < count)) }
    ensures broken { OnErr result (HasNoSlot form block.now count) }
{
    for place in 0..count {
        let slot = nth_slot(block, form, place as usize);
        if has_name(slot, name) {
            let Some(view) = SlotView::decode(form, slot) else {
                return Err(NoSlot);
            };
            return Ok(Some(Found {
                place,
                number: FileNumber {
                    value: view.number() as u16,
                },
            }));
        }
    }
    Ok(None)
}
