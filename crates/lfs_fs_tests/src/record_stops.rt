//! A recorder over a device that stops within each write, in each way that a write is left.
use crate::volume::{device_of, formatted, mounted};
use lfs_device::{Left, MemDevice};
use lfs_fs::{Fs, InVolume};
use lfs_record::Recorder;
use std::alloc::Global;
use std::test::Fail;

/// Three lines, of which a file takes two.
const LINES: [&str; 3] = ["a", "b", "c"];

/// What is written of them.
const TEXTS: &[u8; 6] = b"a\nb\nc\n";

/// Writes the lines, each with a save: how many were saved before a call was refused.
fn save_lines(alloc: Global, fs: &mut Fs<InVolume<MemDevice>>) -> usize {
    let Ok(mut recorder) = Recorder::begin(alloc, fs, 4, 0) else {
        return 0;
    };
    for saved in 0..LINES.len() {
        if recorder
            .line(alloc, fs, b"2026-01-01", LINES[saved].as_bytes())
            .is_err()
        {
            return saved;
        }
        if recorder.save(fs).is_err() {
            return saved;
        }
    }
    LINES.len()
}

/// The bytes of the files of the root, one behind the other.
fn joined(alloc: Global, fs: &mut Fs<InVolume<MemDevice>>) -> Result<Vec<u8>, Fail> {
    let entries = fs.readdir(b"/")?;
    let mut all = Vec::new(alloc);
    for entry in entries.as_slice() {
        let mut path = Vec::new(alloc);
        path.push(b'/')?;
        path.extend_from_slice(entry.name.as_slice())?;
        let handle = fs.open(path.as_slice())?;
        let bytes = fs.pread(handle, 0, 100)?;
        all.extend_from_slice(bytes.as_slice())?;
        fs.close(handle)?;
    }
    Ok(all)
}

/// Whether a recorder that begins on what was left goes on behind it.
fn goes_on(alloc: Global, fs: &mut Fs<InVolume<MemDevice>>, before: &[u8]) -> Result<bool, Fail> {
    let mut recorder = Recorder::begin(alloc, fs, 4, 0)?;
    recorder.line(alloc, fs, b"2026-01-02", b"d")?;
    recorder.save(fs)?;
    let bytes = joined(alloc, fs)?;
    let (was, more) = bytes.as_slice().split_at(before.len().min(bytes.len()));
    Ok(was == before && more == b"d\n".as_slice())
}

/// What is left of the lines on a device that stops within this write, whose unsynced sectors are
/// then left so: how many were saved, the bytes of all files, and how many writes were begun.
fn left_after_stop(alloc: Global, write: u64, left: Left) -> Result<(usize, Vec<u8>, u64), Fail> {
    let mut device = formatted(alloc, 64)?;
    device.stop_at(write);
    let mut fs = mounted(alloc, device)?;
    let saved = save_lines(alloc, &mut fs);
    let mut device = device_of(fs);
    let writes = device.writes();
    device.crash(left);
    let mut fs = mounted(alloc, device)?;
    let bytes = joined(alloc, &mut fs)?;
    if !goes_on(alloc, &mut fs, bytes.as_slice())? {
        return Err(Fail::from("a recorder didn't go on behind what was left"));
    }
    Ok((saved, bytes, writes))
}

/// Whether a stop within this write leaves whole lines, the first ones, and all that were saved.
fn keeps_lines(alloc: Global, write: u64, left: Left) -> Result<bool, Fail> {
    let (saved, bytes, _) = left_after_stop(alloc, write, left)?;
    let is_whole = bytes.len() % 2 == 0;
    Ok(is_whole && bytes.len() / 2 >= saved && TEXTS.starts_with(bytes.as_slice()))
}

#[test]
fn saved_lines_are_left(rt: HostRuntime) -> Result<(), Fail> {
    let alloc = rt.alloc();
    let (saved, bytes, writes) = left_after_stop(alloc, u64::MAX, Left::Old)?;
    assert!(rt; saved == 3);
    assert!(rt; bytes.as_slice() == TEXTS.as_slice());
    for left in [Left::Old, Left::New, Left::Bad] {
        for write in 0..writes {
            assert!(rt; keeps_lines(alloc, write, left)?);
        }
    }
    Ok(())
}
