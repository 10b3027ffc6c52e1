//! Walks over a root with two files, and the texts of paths.

use crate::volume::{MemoryStore, file, plain, store_with};
use lfs_fs::path::text::check_text;
use lfs_fs::path::tree::{parent, resolve};
use lfs_fs::path::{Last, WalkFault};
use lfs_fs::store::Files;
use lfs_model::{FileNumber, Kind};
use std::alloc::Global;
use std::test::Fail;

/// Drafts the two files that the root names.
fn make_files(store: &mut MemoryStore) -> Result<(), Fail> {
    store.create(file(2)?, Kind::File, 0)?;
    store.create(file(3)?, Kind::File, 0)?;
    Ok(())
}

/// The place of the first path that gives something else, where the root names file 2 `a` and file
/// 3 `b`.
fn first_wrong(
    alloc: Global,
    rows: &[(&[u8], Result<u16, WalkFault>)],
) -> Result<Option<usize>, Fail> {
    let mut store = store_with(alloc, 0, b"ab")?;
    make_files(&mut store)?;
    for (place, (path, want)) in rows.iter().enumerate() {
        if plain(resolve(alloc, &mut *store, path, true)) != *want {
            return Ok(Some(place));
        }
    }
    Ok(None)
}

#[test]
fn names_and_dots_are_walked(rt: HostRuntime) -> Result<(), Fail> {
    let rows = [
        (b"/".as_slice(), Ok(1)),
        (b"a".as_slice(), Ok(2)),
        (b"//b".as_slice(), Ok(3)),
        (b"/.././a".as_slice(), Ok(2)),
        (b"./..".as_slice(), Ok(1)),
        (b"c".as_slice(), Err(WalkFault::NoEntry)),
        (b"a/".as_slice(), Err(WalkFault::NotDir)),
        (b"a/..".as_slice(), Err(WalkFault::NotDir)),
        ([b'n'; 59].as_slice(), Err(WalkFault::NoEntry)),
        ([b'n'; 60].as_slice(), Err(WalkFault::NameTooLong)),
    ];
    assert_eq!(rt; first_wrong(rt.alloc(), &rows)?, None);
    Ok(())
}

/// Whether a path is walked to its last piece, which is this name in the root, or none.
fn ends_in(alloc: Global, store: &mut MemoryStore, path: &[u8], name: Option<&[u8]>) -> bool {
    match parent(alloc, store, path) {
        Ok(place) => place.chain.directory() == FileNumber::ROOT && is_last(place.last, name),
        Err(_) => false,
    }
}

/// Whether the last piece of a path is this name with a slash behind it, or there is none.
fn is_last(last: Option<Last>, name: Option<&[u8]>) -> bool {
    match (last, name) {
        (Some(last), Some(name)) => last.name == name && last.slash,
        (None, None) => true,
        _ => false,
    }
}

#[test]
fn the_last_piece_is_not_walked(rt: HostRuntime) -> Result<(), Fail> {
    let mut store = store_with(rt.alloc(), 0, b"ab")?;
    make_files(&mut store)?;
    for (path, name) in [
        (b".//../c/".as_slice(), Some(b"c".as_slice())),
        (b"/".as_slice(), None),
    ] {
        assert!(rt; ends_in(rt.alloc(), &mut store, path, name));
    }
    assert!(rt;
        matches!(
            parent(rt.alloc(), &mut *store, b"a/b"),
            Err(WalkFault::NotDir)
        )
    );
    Ok(())
}

#[test]
fn texts_are_refused(rt: HostRuntime) {
    for (path, want) in [
        (b"".as_slice(), Err(WalkFault::NoEntry)),
        (b"a\0".as_slice(), Err(WalkFault::Inval)),
        ([b'/'; 1_023].as_slice(), Ok(())),
        ([b'/'; 1_024].as_slice(), Err(WalkFault::NameTooLong)),
    ] {
        assert!(rt; check_text(path) == want);
    }
}
