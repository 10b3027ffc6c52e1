//! The root of a volume of version 2, full of names as long as one may be there.
use crate::volume::{device_of, formatted_version, mounted};
use lfs_device::{Left, MemDevice};
use lfs_fs::{Fs, FsError, InVolume};
use std::alloc::Global;
use std::test::Fail;

/// The most entries of a directory.
const MOST_ENTRIES: u16 = 1_024;

/// The most names of a file.
const MOST_LINKS: u16 = 1_000;

/// A slash and the most bytes of a name.
const LONGEST_PATH: usize = 124;

/// The path of the entry of this number, which stand in their order.
fn path_of(entry: u16) -> [u8; LONGEST_PATH] {
    let mut path = [b'a'; LONGEST_PATH];
    path[0] = b'/';
    path[120] = b'0' + (entry / 1_000 % 10) as u8;
    path[121] = b'0' + (entry / 100 % 10) as u8;
    path[122] = b'0' + (entry / 10 % 10) as u8;
    path[123] = b'0' + (entry % 10) as u8;
    path
}

/// Whether the entry is made: the name of a new file, or one more of the last new one.
fn makes(fs: &mut Fs<InVolume<MemDevice>>, entry: u16) -> bool {
    let path = path_of(entry);
    let first = entry / MOST_LINKS * MOST_LINKS;
    if entry == first {
        fs.create(&path).is_ok()
    } else {
        fs.link(&path_of(first), &path) == Ok(())
    }
}

/// Whether these entries are all that the root has.
fn has_entries(fs: &mut Fs<InVolume<MemDevice>>, count: u16) -> bool {
    let Ok(entries) = fs.readdir(b"/") else {
        return false;
    };
    for (entry, place) in entries.iter().zip(0..count) {
        if entry.name.as_slice() != &path_of(place)[1..] {
            return false;
        }
    }
    entries.len() == usize::from(count)
}

/// Whether the root has so many bytes.
fn has_size(fs: &mut Fs<InVolume<MemDevice>>, size: u64) -> bool {
    match fs.stat(b"/") {
        Ok(stat) => stat.size == size,
        Err(_) => false,
    }
}

/// The volume once its device has stopped.
fn after_a_stop(
    alloc: Global,
    fs: Box<Fs<InVolume<MemDevice>>>,
) -> Result<Box<Fs<InVolume<MemDevice>>>, Fail> {
    let mut device = device_of(fs);
    device.crash(Left::Old);
    mounted(alloc, device)
}

/// Whether an empty root takes as many entries as a directory may have and no more, and lists them.
fn is_filled(fs: &mut Fs<InVolume<MemDevice>>) -> bool {
    for entry in 0..MOST_ENTRIES {
        if !makes(fs, entry) {
            return false;
        }
    }
    fs.create(b"/b") == Err(FsError::DirFull)
        && has_size(fs, 131_072)
        && has_entries(fs, MOST_ENTRIES)
        && fs.sync() == Ok(())
}

/// Whether the root has all of them, and none once they are taken away from the first on.
fn is_emptied(fs: &mut Fs<InVolume<MemDevice>>) -> bool {
    if !has_entries(fs, MOST_ENTRIES) {
        return false;
    }
    for entry in 0..MOST_ENTRIES {
        if fs.unlink(&path_of(entry)) != Ok(()) {
            return false;
        }
    }
    has_entries(fs, 0) && fs.sync() == Ok(())
}

#[test]
fn a_root_full_of_long_names(rt: HostRuntime) -> Result<(), Fail> {
    let alloc = rt.alloc();
    let mut fs = mounted(alloc, formatted_version(alloc, 64, 2)?)?;
    assert!(rt; is_filled(&mut fs));
    let mut fs = after_a_stop(alloc, fs)?;
    assert!(rt; is_emptied(&mut fs));
    let mut fs = after_a_stop(alloc, fs)?;
    assert!(rt; has_entries(&mut fs, 0));
    Ok(())
}
