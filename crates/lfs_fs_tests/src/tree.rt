//! Walks over a tree of directories, files and symbolic links.

use crate::volume::{MemoryStore, file, mounted, plain, store_with};
use lfs_device::MemDevice;
use lfs_fs::path::dirs::add;
use lfs_fs::path::tree::{parent, resolve};
use lfs_fs::path::{Last, WalkFault};
use lfs_fs::store::{Files, Header};
use lfs_layout::is_name;
use lfs_model::{FileNumber, Kind};
use std::alloc::Global;
use std::test::Fail;

/// An object of a tree.
#[derive(Clone, Copy)]
enum Object<'a> {
    Directory,
    File,
    Link(&'a [u8]),
}

/// Drafts a new object.
fn make(store: &mut MemoryStore, number: FileNumber, object: Object) -> Result<(), Fail> {
    match object {
        Object::Directory => store.create(number, Kind::Directory, 0)?,
        Object::File => store.create(number, Kind::File, 0)?,
        Object::Link(text) => make_link(store, number, text)?,
    }
    Ok(())
}

/// Drafts a new link of this text.
fn make_link(store: &mut MemoryStore, number: FileNumber, text: &[u8]) -> Result<(), Fail> {
    if text.is_empty() || text.len() > 1_023 {
        return Err(Fail::from("no link"));
    }
    let size = text.len() as u32;
    let header = Header {
        kind: Kind::Link,
        form: 0,
        links: 1,
        size,
    };
    store.create_link(number, size)?;
    store.write_at(number, header, 0, text)?;
    Ok(())
}

/// Drafts a name in a directory.
fn name(
    store: &mut MemoryStore,
    directory: FileNumber,
    name: &[u8],
    number: FileNumber,
) -> Result<(), Fail> {
    if !is_name(0, name) {
        return Err(Fail::from("no name"));
    }
    match store.header(directory)? {
        Some(header) if header.size <= 65_472 => {
            add(store, directory, header, number, name)?;
            Ok(())
        }
        _ => Err(Fail::from("no directory")),
    }
}

/// The files of a new volume with these objects from number 2 on, each named in a directory.
fn tree_of(alloc: Global, objects: &[(u16, &[u8], Object)]) -> Result<Box<MemoryStore>, Fail> {
    let mut store = store_with(alloc, 0, b"")?;
    for (number, (directory, text, object)) in (2..99u16).zip(objects) {
        make(&mut store, file(number)?, *object)?;
        name(&mut store, file(*directory)?, text, file(number)?)?;
    }
    Ok(store)
}

/// The directory `d` (2) with the directory `x` (3) with the file `f` (4), and links in the root
/// and in `d`.
fn small_tree(alloc: Global) -> Result<Box<MemoryStore>, Fail> {
    tree_of(
        alloc,
        &[
            (1, b"d", Object::Directory),
            (2, b"x", Object::Directory),
            (3, b"f", Object::File),
            (1, b"s", Object::Link(b"d/../d/")),
            (2, b"up", Object::Link(b"../d/x")),
            (1, b"l", Object::Link(b"/l")),
            (2, b"abs", Object::Link(b"/d/x/f")),
            (1, b"slash", Object::Link(b"d/x/f/")),
        ],
    )
}

#[test]
fn directories_and_links_are_walked(rt: HostRuntime) -> Result<(), Fail> {
    let mut store = small_tree(rt.alloc())?;
    for (path, follow, want) in [
        (b"/d/x/..".as_slice(), true, Ok(2)),
        (b"d/x/../../..".as_slice(), true, Ok(1)),
        (b"/d//x/./f".as_slice(), true, Ok(4)),
        (b"/s".as_slice(), false, Ok(5)),
        (b"/s".as_slice(), true, Ok(2)),
        (b"/s/".as_slice(), false, Ok(2)),
        (b"/s/x".as_slice(), true, Ok(3)),
        (b"/d/up/f".as_slice(), true, Ok(4)),
        (b"/d/up/..".as_slice(), true, Ok(2)),
        (b"/d/abs".as_slice(), true, Ok(4)),
        (b"/d/abs/".as_slice(), false, Err(WalkFault::NotDir)),
        (b"/d/x/f/..".as_slice(), true, Err(WalkFault::NotDir)),
        (b"/slash".as_slice(), true, Err(WalkFault::NotDir)),
        (b"/l".as_slice(), true, Err(WalkFault::Loop)),
        (b"/l".as_slice(), false, Ok(7)),
        (b"/d/q".as_slice(), true, Err(WalkFault::NoEntry)),
        (b"".as_slice(), true, Err(WalkFault::NoEntry)),
    ] {
        assert!(rt; plain(resolve(rt.alloc(), &mut *store, path, follow)) == want);
    }
    Ok(())
}

/// Whether a path is walked to its last piece, which is this name in the directory, or none.
fn ends_in(
    alloc: Global,
    store: &mut MemoryStore,
    path: &[u8],
    directory: u16,
    name: Option<&[u8]>,
) -> bool {
    match parent(alloc, store, path) {
        Ok(place) => place.chain.directory().value == directory && is_last(place.last, name),
        Err(_) => false,
    }
}

/// Whether the last piece of a path is this name, or there is none.
fn is_last(last: Option<Last>, name: Option<&[u8]>) -> bool {
    match (last, name) {
        (Some(last), Some(name)) => last.name == name,
        (None, None) => true,
        _ => false,
    }
}

#[test]
fn the_directory_of_the_last_piece_is_walked(rt: HostRuntime) -> Result<(), Fail> {
    let mut store = small_tree(rt.alloc())?;
    for (path, directory, name) in [
        (b"/d/x/new".as_slice(), 3, Some(b"new".as_slice())),
        (b"/s/up/new/".as_slice(), 3, Some(b"new".as_slice())),
        (b"/s/x/../..".as_slice(), 2, Some(b"..".as_slice())),
        (b"new".as_slice(), 1, Some(b"new".as_slice())),
        (b"//".as_slice(), 1, None),
    ] {
        assert!(rt; ends_in(rt.alloc(), &mut store, path, directory, name));
    }
    Ok(())
}

#[test]
fn forty_links_are_followed(rt: HostRuntime) -> Result<(), Fail> {
    let alloc = rt.alloc();
    let mut store = tree_of(alloc, &[(1, b"l", Object::File)])?;
    let mut text = [b'l'; 42];
    for links in 1..42u16 {
        let end = links as usize;
        let number = file(2 + links)?;
        make(&mut store, number, Object::Link(&text[..end]))?;
        name(&mut store, FileNumber::ROOT, &text[..end + 1], number)?;
    }
    text[0] = b'l';
    assert!(rt; plain(resolve(alloc, &mut *store, &text[..41], true)) == Ok(2));
    assert!(rt; plain(resolve(alloc, &mut *store, &text, true)) == Err(WalkFault::Loop));
    Ok(())
}

/// Drafts other links of a directory.
fn relink(store: &mut MemoryStore, number: FileNumber, links: u32) -> Result<(), Fail> {
    if links == 0 || links > 1_000 {
        return Err(Fail::from("no links"));
    }
    match store.header(number)? {
        Some(header) => store.set_links(number, header, links)?,
        None => return Err(Fail::from("no directory")),
    }
    Ok(())
}

/// The device of a volume with the small tree, saved.
fn device_with_tree(alloc: Global) -> Result<MemDevice, Fail> {
    let mut store = small_tree(alloc)?;
    relink(&mut store, FileNumber::ROOT, 3)?;
    relink(&mut store, file(2)?, 3)?;
    store.accept()?;
    store.commit()?;
    Ok(Box::into_inner(store).into_device().into_inner())
}

#[test]
fn directories_and_links_are_mounted(rt: HostRuntime) -> Result<(), Fail> {
    let mut fs = mounted(rt.alloc(), device_with_tree(rt.alloc())?)?;
    assert!(rt; fs.tree()?.len() == 8);
    assert!(rt; fs.stat(b"/s/x/f")?.number == 4);
    Ok(())
}
