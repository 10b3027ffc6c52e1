//! A recorder over a volume in memory: which files its lines come to.
use crate::volume::{formatted, mounted};
use lfs_device::MemDevice;
use lfs_fs::{Fs, FsError, InVolume};
use lfs_record::Recorder;
use std::alloc::Global;
use std::test::Fail;

/// The files of the root, each with its size.
fn is_listed(
    fs: &mut Fs<InVolume<MemDevice>>,
    alloc: Global,
    want: &[(&'static str, u64)],
) -> Result<bool, Fail> {
    let entries = fs.readdir(b"/")?;
    if entries.len() != want.len() {
        return Ok(false);
    }
    for place in 0..want.len() {
        let Some(entry) = entries.get(place) else {
            return Ok(false);
        };
        let mut path = Vec::new(alloc);
        path.push(b'/')?;
        path.extend_from_slice(entry.name.as_slice())?;
        let size = fs.stat(path.as_slice())?.size;
        if entry.name.as_slice() != want[place].0.as_bytes() || size != want[place].1 {
            return Ok(false);
        }
    }
    Ok(true)
}

/// Files of ten bytes, of which two are kept: a file ends behind ten bytes and with its day, and a
/// day that goes back begins another. What isn't of the recorder stays.
#[test]
fn lines_go_to_files(rt: HostRuntime) -> Result<(), Fail> {
    let alloc = rt.alloc();
    let mut fs = mounted(alloc, formatted(alloc, 64)?)?;
    fs.mkdir(b"/00000000-2025-12-31")?;
    let mut recorder = Recorder::begin(alloc, &mut fs, 10, 2)?;
    for (day, line, want) in [
        (
            b"2026-01-01",
            "one",
            [("00000000-2025-12-31", 0), ("00000001-2026-01-01", 4)].as_slice(),
        ),
        (
            b"2026-01-01",
            "and two",
            [("00000000-2025-12-31", 0), ("00000001-2026-01-01", 12)].as_slice(),
        ),
        (
            b"2026-01-01",
            "three",
            [
                ("00000000-2025-12-31", 0),
                ("00000001-2026-01-01", 12),
                ("00000002-2026-01-01", 6),
            ]
            .as_slice(),
        ),
        (
            b"2026-01-02",
            "",
            [
                ("00000000-2025-12-31", 0),
                ("00000002-2026-01-01", 6),
                ("00000003-2026-01-02", 1),
            ]
            .as_slice(),
        ),
        (
            b"2026-01-01",
            "back",
            [
                ("00000000-2025-12-31", 0),
                ("00000003-2026-01-02", 1),
                ("00000004-2026-01-01", 5),
            ]
            .as_slice(),
        ),
    ] {
        recorder.line(alloc, &mut fs, day, line.as_bytes())?;
        assert!(rt; is_listed(&mut fs, alloc, want)?);
    }
    recorder.save(&mut fs)?;
    assert!(rt; fs.is_saved());
    Ok(())
}

/// A line with a newline, a day that is none, and a line of 65,536 bytes aren't taken; one of 65,535
/// bytes is.
#[test]
fn what_is_no_line(rt: HostRuntime) -> Result<(), Fail> {
    let alloc = rt.alloc();
    let mut fs = mounted(alloc, formatted(alloc, 64)?)?;
    let mut recorder = Recorder::begin(alloc, &mut fs, 1, 0)?;
    let long = vec![in alloc; b'a'; 65_536]?;
    for (day, line, want) in [
        (b"2026-01-01", b"a\nb".as_slice(), Some(FsError::Inval)),
        (b"2026-01-1 ", b"a".as_slice(), Some(FsError::Inval)),
        (b"2026-01-01", long.as_slice(), Some(FsError::Inval)),
        (b"2026-01-01", &long[1..], None),
    ] {
        assert!(rt; recorder.line(alloc, &mut fs, day, line).err() == want);
    }
    assert!(rt; is_listed(&mut fs, alloc, [("00000001-2026-01-01", 65_536)].as_slice())?);
    Ok(())
}

/// A file goes on behind another beginning where its last line is whole and no other name gives it.
#[test]
fn a_file_goes_on(rt: HostRuntime) -> Result<(), Fail> {
    let alloc = rt.alloc();
    let mut fs = mounted(alloc, formatted(alloc, 64)?)?;
    let handle = fs.create(b"/00000007-2026-01-01")?;
    fs.pwrite(handle, 0, b"whole\n")?;
    for (text, end, is_linked, want) in [
        (
            b"".as_slice(),
            6,
            false,
            [("00000007-2026-01-01", 8)].as_slice(),
        ),
        (
            b"x".as_slice(),
            8,
            false,
            [("00000007-2026-01-01", 9), ("00000008-2026-01-01", 2)].as_slice(),
        ),
        (
            b"".as_slice(),
            9,
            true,
            [
                ("00000007-2026-01-01", 9),
                ("00000008-2026-01-01", 2),
                ("00000009-2026-01-01", 2),
                ("other", 2),
            ]
            .as_slice(),
        ),
    ] {
        fs.pwrite(handle, end, text)?;
        if is_linked {
            fs.link(b"/00000008-2026-01-01", b"/other")?;
        }
        let mut recorder = Recorder::begin(alloc, &mut fs, 100, 0)?;
        recorder.line(alloc, &mut fs, b"2026-01-01", b"a")?;
        assert!(rt; is_listed(&mut fs, alloc, want)?);
    }
    Ok(())
}

/// Where there is no space the oldest file goes, but not the newest, nor one of another name: a line
/// of 65,536 bytes needs 128 blocks and one of pointers, an inode, and the name's 1/8 of a block.
#[test]
fn the_oldest_file_goes(rt: HostRuntime) -> Result<(), Fail> {
    let alloc = rt.alloc();
    let mut fs = mounted(alloc, formatted(alloc, 64)?)?;
    let other = fs.create(b"/00000000-other")?;
    fs.pwrite(other, 0, b"a")?;
    let mut recorder = Recorder::begin(alloc, &mut fs, 1, 0)?;
    let line = vec![in alloc; b'a'; 65_535]?;
    for _ in 0..40 {
        recorder.line(alloc, &mut fs, b"2026-01-01", line.as_slice())?;
    }
    let entries = fs.readdir(b"/")?;
    assert!(rt; entries.len() == 16);
    assert!(rt; entries[0].name.as_slice() == b"00000000-other".as_slice());
    assert!(rt; entries[1].name.as_slice() == b"00000026-2026-01-01".as_slice());
    assert!(rt; entries[15].name.as_slice() == b"00000040-2026-01-01".as_slice());
    Ok(())
}
