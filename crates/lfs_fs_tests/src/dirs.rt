//! Names of a root of either form.
ghost use Rattle.std.specs.Prelude.{◌≤◌, ◌<◌, ◌+◌, ◌*◌};
ghost use Rattle.lfs_model.specs.Tree.{slot_len};

use crate::volume::{MemoryStore, add_name, root, store_with};
use lfs_fs::path::dirs::{Entry, find, list, repoint, take};
use lfs_fs::store::Header;
use lfs_layout::is_name;
use lfs_model::FileNumber;
use std::alloc::Global;
use std::test::Fail;

/// A call over the root with so many slots, and what it answers.
#[derive(Clone, Copy)]
enum Step<'a> {
    /// Looks a name up: the place of its slot, and its number.
    Find(u8, &'a [u8], Option<(u32, u16)>),
    /// Has a name of the root, looked for near a place, give another number.
    Repoint(u8, u32, &'a [u8], u16),
    /// Stages what was drafted, and takes a name of the root out, looked for near a place.
    Take(u8, u32, &'a [u8]),
    /// Lists the names with their numbers.
    List(u8, &'a [(&'a [u8], u16)]),
}

/// Whether a name's slot has this place and number, or isn't there.
fn is_found(
    store: &mut MemoryStore,
    header: Header,
    name: &[u8],
    slot: Option<(u32, u16)>,
) -> bool {
    match find(store, FileNumber::ROOT, header, name) {
        Ok(Some(found)) => slot == Some((found.place, found.number.value)),
        Ok(None) => slot == None,
        Err(_) => false,
    }
}

/// Whether a name is there, and comes to give another number.
fn is_repointed(
    store: &mut MemoryStore,
    header: Header,
    place: u32,
    name: &[u8],
    number: u16,
) -> bool
    requires { header.size + slot_len header.form ≤ 1024 * slot_len header.form }
{
    let Some(number) = FileNumber::new(number) else {
        return false;
    };
    if !is_name(header.form, name) {
        return false;
    }
    repoint(store, FileNumber::ROOT, header, name, place, number) == Ok(true)
}

/// Whether the draft is staged, and a name is there and is then taken out.
fn is_taken(store: &mut MemoryStore, header: Header, place: u32, name: &[u8]) -> bool
    requires { header.size + slot_len header.form ≤ 1024 * slot_len header.form }
{
    if store.accept() != Ok(()) {
        return false;
    }
    take(store, FileNumber::ROOT, header, name, place) == Ok(true)
}

/// Whether the entries of a directory are these.
fn are_entries(entries: &[Entry], rows: &[(&[u8], u16)]) -> bool {
    for (entry, (name, number)) in entries.iter().zip(rows) {
        if entry.name.as_slice() != *name || entry.number.value != *number {
            return false;
        }
    }
    entries.len() == rows.len()
}

/// Whether a call answers what the step says.
fn is_well(alloc: Global, store: &mut MemoryStore, form: u8, step: Step) -> Result<bool, Fail> {
    match step {
        Step::Find(slots, name, slot) => {
            Ok(is_found(store, root(form, u16::from(slots)), name, slot))
        }
        Step::Repoint(slots, place, name, number) => {
            let header = root(form, u16::from(slots));
            Ok(is_repointed(store, header, place, name, number))
        }
        Step::Take(slots, place, name) => {
            Ok(is_taken(store, root(form, u16::from(slots)), place, name))
        }
        Step::List(slots, rows) => {
            let entries = list(alloc, store, FileNumber::ROOT, root(form, u16::from(slots)))?;
            Ok(are_entries(&entries, rows))
        }
    }
}

/// The place of the first step that goes otherwise, over a root of this form whose names `i` down
/// to `a` give 2 to 10: eight of them in the first block in form 0, else four in each of two blocks.
fn first_wrong(alloc: Global, form: u8, steps: &[Step]) -> Result<Option<usize>, Fail> {
    let mut store = store_with(alloc, form, b"ihgfedcba")?;
    for (place, step) in steps.iter().enumerate() {
        if !is_well(alloc, &mut store, form, *step)? {
            return Ok(Some(place));
        }
    }
    Ok(None)
}

#[test]
fn names_are_found_and_listed_in_order(rt: HostRuntime) -> Result<(), Fail> {
    let rows = [
        (b"a".as_slice(), 10),
        (b"b".as_slice(), 9),
        (b"c".as_slice(), 8),
        (b"d".as_slice(), 7),
        (b"e".as_slice(), 6),
        (b"f".as_slice(), 5),
        (b"g".as_slice(), 4),
        (b"h".as_slice(), 3),
        (b"i".as_slice(), 2),
    ];
    let steps = [
        Step::Find(9, b"i", Some((0, 2))),
        Step::Find(9, b"b", Some((7, 9))),
        Step::Find(9, b"a", Some((8, 10))),
        Step::Find(9, b"j", None),
        Step::Find(9, b"ab", None),
        Step::List(9, &rows),
    ];
    assert_eq!(rt; first_wrong(rt.alloc(), 0, &steps)?, None);
    assert_eq!(rt; first_wrong(rt.alloc(), 1, &steps)?, None);
    Ok(())
}

#[test]
fn a_name_gives_another_number(rt: HostRuntime) -> Result<(), Fail> {
    let steps = [
        Step::Repoint(9, 7, b"b", 77),
        Step::Find(9, b"b", Some((7, 77))),
        Step::Find(9, b"a", Some((8, 10))),
        // From another block, and from behind the last slot.
        Step::Repoint(9, 0, b"a", 78),
        Step::Repoint(9, 9, b"i", 79),
        Step::Find(9, b"a", Some((8, 78))),
        Step::Find(9, b"i", Some((0, 79))),
    ];
    assert_eq!(rt; first_wrong(rt.alloc(), 0, &steps)?, None);
    assert_eq!(rt; first_wrong(rt.alloc(), 1, &steps)?, None);
    Ok(())
}

#[test]
fn the_last_slot_comes_into_the_gap(rt: HostRuntime) -> Result<(), Fail> {
    let steps = [
        Step::Take(9, 1, b"h"),
        Step::Find(8, b"h", None),
        Step::Find(8, b"a", Some((1, 10))),
        Step::Find(8, b"b", Some((7, 9))),
        Step::Find(8, b"f", Some((3, 5))),
        Step::Find(8, b"e", Some((4, 6))),
        // From another block, and from behind the last slot.
        Step::Take(8, 8, b"g"),
        Step::Find(7, b"b", Some((2, 9))),
        Step::Take(7, 6, b"i"),
        Step::Find(6, b"c", Some((0, 8))),
        Step::Find(6, b"i", None),
    ];
    assert_eq!(rt; first_wrong(rt.alloc(), 0, &steps)?, None);
    assert_eq!(rt; first_wrong(rt.alloc(), 1, &steps)?, None);
    Ok(())
}

/// A name of so many bytes that tells a place below 1,024.
fn name_of<const L: usize>(place: u16) -> [u8; L]
    requires { 2 ≤ L }
{
    let mut name = [b'n'; L];
    name[0] = b'0' + (place / 32 % 32) as u8;
    name[1] = b'0' + (place % 32) as u8;
    name
}

/// Adds so many names of 123 bytes to a root of form 1.
fn add_long_names(store: &mut MemoryStore, slots: u16) -> Result<(), Fail>
    requires { slots ≤ 1024 }
{
    for place in 0..slots {
        add_name(store, 1, place, &name_of::<123>(place))?;
    }
    Ok(())
}

/// Whether so many names of 123 bytes fill a root of form 1, and each gives its own number. The next
/// one, and one of 124 bytes, give none.
fn are_long_names_found(alloc: Global, slots: u16) -> Result<bool, Fail>
    requires { slots < 1024 }
{
    let mut store = store_with(alloc, 1, b"")?;
    add_long_names(&mut store, slots)?;
    for place in 0..slots {
        if !is_found(
            &mut store,
            root(1, slots),
            &name_of::<123>(place),
            Some((u32::from(place), 2 + place)),
        ) {
            return Ok(false);
        }
    }
    Ok(
        is_found(&mut store, root(1, slots), &name_of::<123>(slots), None)
            && is_found(&mut store, root(1, slots), &name_of::<124>(0), None),
    )
}

#[test]
fn names_of_form_1_fill_blocks_of_each_kind(rt: HostRuntime) -> Result<(), Fail> {
    // Over two blocks; past the blocks that an inode leads to; past those of its single leaf.
    assert!(rt; are_long_names_found(rt.alloc(), 5)?);
    assert!(rt; are_long_names_found(rt.alloc(), 553)?);
    assert!(rt; are_long_names_found(rt.alloc(), 1_023)?);
    Ok(())
}

#[test]
fn names_are_as_long_as_the_form_allows(rt: HostRuntime) {
    assert!(rt; is_name(0, &[b'n'; 59]));
    assert!(rt; !is_name(0, &[b'n'; 60]));
    assert!(rt; is_name(1, &[b'n'; 123]));
    assert!(rt; !is_name(1, &[b'n'; 124]));
}
