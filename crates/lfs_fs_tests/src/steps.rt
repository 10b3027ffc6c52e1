//! Calls of a volume, one after the other, with their answers.
use crate::volume::{device_of, mounted};
use lfs_device::{Left, MemDevice, SectorDevice};
use lfs_fs::{Fs, FsError, InVolume, Space, Stat, TreeRow};
use lfs_model::Kind;
use std::alloc::Global;
use std::test::Fail;

/// A file in the root.
#[derive(Clone, Copy)]
pub struct Row<'a> {
    pub name: &'a [u8],
    pub number: u32,
    /// In bytes.
    pub size: u64,
    /// Its first bytes, at most 16.
    pub head: &'a [u8],
}

/// What happens to a device between two mounts.
#[derive(Clone, Copy)]
pub enum Event {
    Nothing,
    /// It stops, which leaves this of each unsynced sector.
    Stop(Left),
    /// A sector can't be read any more.
    Lose(u32),
}

/// A call, and what it answers.
#[derive(Clone, Copy)]
pub enum Step<'a> {
    Create(&'a [u8], Result<u32, FsError>),
    Open(&'a [u8], Result<u32, FsError>),
    /// The path is opened for each handle from this one on, as the last one of 64.
    OpenRest(&'a [u8], u32),
    Pread(u32, u64, u32, Result<&'a [u8], FsError>),
    Pwrite(u32, u64, &'a [u8], Result<u32, FsError>),
    Truncate(u32, u64, Result<(), FsError>),
    Close(u32, Result<(), FsError>),
    Mkdir(&'a [u8], Result<(), FsError>),
    Unlink(&'a [u8], Result<(), FsError>),
    Stat(&'a [u8], Result<Stat, FsError>),
    Sync(Result<(), FsError>),
    Clean(Result<(), FsError>),
    CleanOnce(Result<(), FsError>),
    IsCleaningDue(bool),
    Space(Space),
    /// The files of the root.
    Tree(&'a [Row<'a>]),
    /// How many files the root has.
    Count(usize),
    /// The device is taken back and mounted again.
    Mount(Event),
}

/// Whether an entry of a tree is this file in the root.
fn is_row(entry: &TreeRow, row: Row) -> bool {
    entry.directory == 1
        && entry.kind == Kind::File
        && entry.links == 1
        && entry.number == row.number
        && entry.size == row.size
        && entry.name.as_slice() == row.name
        && entry.head.as_slice() == row.head
}

/// Whether a tree has these entries.
fn are_rows(entries: &[TreeRow], rows: &[Row]) -> bool {
    for (entry, row) in entries.iter().zip(rows) {
        if !is_row(entry, *row) {
            return false;
        }
    }
    entries.len() == rows.len()
}

/// Whether the tree is these files.
fn has_rows(fs: &mut Fs<InVolume<MemDevice>>, rows: &[Row]) -> bool {
    match fs.tree() {
        Ok(entries) => are_rows(&entries, rows),
        Err(_) => false,
    }
}

/// Whether the tree has so many entries.
fn has_entries(fs: &mut Fs<InVolume<MemDevice>>, count: usize) -> bool {
    match fs.tree() {
        Ok(entries) => entries.len() == count,
        Err(_) => false,
    }
}

/// Whether a read gives these bytes, or is refused so.
fn reads(
    fs: &mut Fs<InVolume<MemDevice>>,
    handle: u32,
    offset: u64,
    len: u32,
    want: Result<&[u8], FsError>,
) -> bool {
    match (fs.pread(handle, offset, len), want) {
        (Ok(bytes), Ok(want)) => bytes.as_slice() == want,
        (Err(fault), Err(want)) => fault == want,
        _ => false,
    }
}

/// Whether a path is opened as each handle from this one on, as the last one of 64.
fn opens_rest(fs: &mut Fs<InVolume<MemDevice>>, path: &[u8], first: u32) -> bool {
    for handle in first..64 {
        if fs.open(path) != Ok(handle) {
            return false;
        }
    }
    true
}

/// Whether a call answers what the step says.
fn is_well(fs: &mut Fs<InVolume<MemDevice>>, step: Step) -> bool {
    match step {
        Step::Create(path, want) => fs.create(path) == want,
        Step::Open(path, want) => fs.open(path) == want,
        Step::OpenRest(path, first) => opens_rest(fs, path, first),
        Step::Pread(handle, offset, len, want) => reads(fs, handle, offset, len, want),
        Step::Pwrite(handle, offset, bytes, want) => fs.pwrite(handle, offset, bytes) == want,
        Step::Truncate(handle, len, want) => fs.truncate(handle, len) == want,
        Step::Close(handle, want) => fs.close(handle) == want,
        Step::Mkdir(path, want) => fs.mkdir(path) == want,
        Step::Unlink(path, want) => fs.unlink(path) == want,
        Step::Stat(path, want) => fs.stat(path) == want,
        Step::Sync(want) => fs.sync() == want,
        Step::Clean(want) => fs.clean() == want,
        Step::CleanOnce(want) => fs.clean_once() == want,
        Step::IsCleaningDue(want) => fs.is_cleaning_due() == want,
        Step::Space(want) => fs.space() == Ok(want),
        Step::Tree(rows) => has_rows(fs, rows),
        Step::Count(count) => has_entries(fs, count),
        Step::Mount(_) => false,
    }
}

/// The device after what happens to it.
fn after(mut device: MemDevice, event: Event) -> MemDevice {
    match event {
        Event::Nothing => {}
        Event::Stop(left) => device.crash(left),
        Event::Lose(sector) => {
            if sector < device.sectors() {
                device.set_unreadable(sector);
            }
        }
    }
    device
}

/// The place of the first step that goes otherwise, over the volume of a device.
pub fn first_wrong(
    alloc: Global,
    device: MemDevice,
    steps: &[Step],
) -> Result<Option<usize>, Fail> {
    let mut fs = mounted(alloc, device)?;
    for (place, step) in steps.iter().enumerate() {
        if let Step::Mount(event) = *step {
            fs = mounted(alloc, after(device_of(fs), event))?;
        } else if !is_well(&mut fs, *step) {
            return Ok(Some(place));
        }
    }
    Ok(None)
}
