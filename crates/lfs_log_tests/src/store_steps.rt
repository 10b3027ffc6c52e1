//! Tests of a store as lists of steps.
ghost use Rattle.std.specs.Prelude.{◌≡◌, ◌<◌, ◌≤◌};

use crate::devices::{Probe, is_probe_well};
use crate::volume::{Wrong, new_volume};
use lfs_device::{InSectors, MemDevice};
use lfs_model::{FileNumber, Kind};
use lfs_store::volume_log::{Header, LogFault};
use lfs_store::{BlockTotals, Files, Measure, Store, StoreFault};
use std::alloc::Global;

/// A call of the store that has to be done.
#[derive(Clone, Copy)]
pub enum Call {
    /// A file or a directory is made.
    Create(u16, Kind),
    /// A symbolic link of so many bytes is made.
    CreateLink(u16, u32),
    /// A file, made where it isn't there, is written with so many blocks of sevens.
    WriteFile(u16, u32),
    /// A block of file 2, of this size, is written with a byte.
    WriteBlock(u32, u32, u8),
    /// File 2, of this size, is written from a place on: a byte so many times.
    Write(u32, u32, usize, u8),
    /// In an empty draft file 2, of this size, has so many links in the place of one.
    SetLinks(u32, u32),
    /// In an empty draft file 2 has another size in the place of this.
    SetLen(u32, u32),
    /// In an empty draft file 2 is removed.
    Remove,
    /// File 2 is removed at once.
    Forget,
    GiveUp,
    /// A commit, and whether it had something to save: the acknowledged checkpoint's number is one
    /// more then.
    Save(bool),
    /// Files with one block of sevens are made from number 2 to before this one, each with a commit
    /// that fills a segment: with both inodes, two blocks of the tables and 58 blocks of file 100,
    /// which the next one writes again, it has 63.
    FilesTo(u16),
}

/// What is read of files.
#[derive(Clone, Copy)]
pub enum Look {
    /// A file's kind, links and size.
    Is(u16, Kind, u32, u32),
    /// There is no file of this number.
    Lacks(u16),
    /// A file of so many blocks of sevens, with one link.
    Holds(u16, u32),
    /// Such files from number 2 to before this one.
    HoldsTo(u16, u32),
    /// A block of file 2 is filled with this byte: 0 where it isn't stored.
    Reads(u32, u8),
    /// The byte of file 2 at a place, if its block is stored.
    Byte(u32, Option<u8>),
    /// Bytes of file 2 from a place on.
    Bytes(u32, [u8; 4]),
}

/// What is counted.
#[derive(Clone, Copy)]
pub enum Count {
    /// The acknowledged checkpoint's number.
    Number(u64),
    /// How many segments are clean.
    Clean(u32),
    LeastFree(u16),
    /// Data blocks, and inodes and blocks of pointers, with the draft.
    Space(u32, u32),
    /// From one index to before another: the data blocks of file 2, and all its other blocks.
    Measured(u32, u32, u32, u32),
}

/// A step of a test.
#[derive(Clone, Copy)]
pub enum Step {
    Calls(Call),
    Accepts(Result<(), StoreFault>),
    Commits(Result<(), LogFault>),
    Sees(Look),
    Counts(Count),
    /// The store is left for this, and opened again.
    On(Probe),
}

/// The file of most steps.
pub const FILE_2: FileNumber = FileNumber { value: 2 };

/// A store on a device in memory.
type MemoryStore = Store<InSectors<MemDevice>>;

/// The nearest number that a file may have.
fn number_of(file: u16) -> FileNumber {
    FileNumber {
        value: file.clamp(1, 4_095),
    }
}

pub fn file_of(links: u32, size: u32) -> Header {
    Header {
        kind: Kind::File,
        form: 0,
        links,
        size,
    }
}

/// Writes a file with blocks of sevens before this one, and makes it where it isn't there.
fn write_file(store: &mut MemoryStore, file: u16, end: u32) -> bool {
    let number = number_of(file);
    if store.header(number) == Ok(None) && store.create(number, Kind::File, 0).is_err() {
        return false;
    }
    for index in 0..end {
        let Ok(Some(header)) = store.header(number) else {
            return false;
        };
        if store
            .write_at(number, header, index.min(16_623) * 512, &[7; 512])
            .is_err()
        {
            return false;
        }
    }
    true
}

/// Makes files from number 2 to before this one.
fn make_files(store: &mut MemoryStore, end: u16) -> bool {
    for file in 2..end {
        if !write_file(store, file, 1) || !write_file(store, 100, 58) {
            return false;
        }
        if store.accept().is_err() || store.commit().is_err() {
            return false;
        }
    }
    true
}

/// Commits: whether that was done, and had something to save, or nothing.
fn save(store: &mut MemoryStore, changed: bool) -> bool {
    let number = store.number();
    store.commit().is_ok() && store.number() == number.saturating_add(u64::from(changed))
}

/// Writes the same byte so many times.
fn write(store: &mut MemoryStore, size: u32, at: u32, len: usize, byte: u8) -> bool {
    let bytes = [byte; 1_200];
    let len = len.clamp(1, 1_200);
    let at = at.min(8_511_488 - len as u32);
    store
        .write_at(FILE_2, file_of(1, size), at, &bytes[..len])
        .is_ok()
}

/// Changes file 2 in an empty draft.
fn change(store: &mut MemoryStore, call: Call) -> bool {
    store.give_up();
    match call {
        Call::SetLinks(size, links) => store.set_links(FILE_2, file_of(1, size), links).is_ok(),
        Call::SetLen(size, len) => store
            .set_len(FILE_2, file_of(1, size), len.min(8_511_488))
            .is_ok(),
        Call::Remove => store.remove(FILE_2).is_ok(),
        Call::Forget => store.forget(FILE_2).is_ok(),
        _ => true,
    }
}

/// Calls the store: whether the call was done.
fn is_done(store: &mut MemoryStore, call: Call) -> bool {
    match call {
        Call::Create(file, kind) => store.create(number_of(file), kind, 0).is_ok(),
        Call::CreateLink(file, size) => store.create_link(number_of(file), size.min(1_023)).is_ok(),
        Call::WriteFile(file, end) => write_file(store, file, end),
        Call::WriteBlock(size, index, byte) => {
            write(store, size, index.min(16_623) * 512, 512, byte)
        }
        Call::Write(size, at, len, byte) => write(store, size, at, len, byte),
        Call::Save(changed) => save(store, changed),
        Call::FilesTo(end) => make_files(store, end),
        _ => change(store, call),
    }
}

/// Whether a block of a file is filled with this byte: 0 where it isn't stored.
fn reads(store: &mut MemoryStore, file: u16, index: u32, byte: u8) -> bool {
    let mut bytes = [255; 512];
    store.block(number_of(file), index, &mut bytes) == Ok(byte != 0) && bytes == [byte; 512]
}

/// Whether a file has so many blocks of sevens, and one link.
fn holds(store: &mut MemoryStore, file: u16, blocks: u32) -> bool {
    let size = blocks.saturating_mul(512);
    if store.header(number_of(file)) != Ok(Some(file_of(1, size))) {
        return false;
    }
    for index in 0..blocks {
        if !reads(store, file, index, 7) {
            return false;
        }
    }
    true
}

/// Whether files from number 2 to before this one have so many blocks of sevens.
fn holds_to(store: &mut MemoryStore, end: u16, blocks: u32) -> bool {
    for file in 2..end {
        if !holds(store, file, blocks) {
            return false;
        }
    }
    true
}

/// The byte of file 2 at a place, if its block is stored.
fn byte_at(store: &mut MemoryStore, place: u32) -> Result<Option<u8>, LogFault> {
    let mut bytes = [255; 512];
    if store.block(FILE_2, place / 512, &mut bytes)? {
        Ok(Some(bytes[(place % 512) as usize]))
    } else {
        Ok(None)
    }
}

/// Whether these are bytes of file 2 from a place on.
fn has_bytes(store: &mut MemoryStore, alloc: Global, from: u32, want: [u8; 4]) -> bool {
    match store.read_at(alloc, FILE_2, from, from.saturating_add(4)) {
        Ok(bytes) => bytes.as_slice() == want.as_slice(),
        Err(_) => false,
    }
}

fn is_seen(store: &mut MemoryStore, alloc: Global, look: Look) -> bool {
    match look {
        Look::Is(file, kind, links, size) => {
            store.header(number_of(file))
                == Ok(Some(Header {
                    kind,
                    form: 0,
                    links,
                    size,
                }))
        }
        Look::Lacks(file) => store.header(number_of(file)) == Ok(None),
        Look::Holds(file, blocks) => holds(store, file, blocks),
        Look::HoldsTo(end, blocks) => holds_to(store, end, blocks),
        Look::Reads(index, byte) => reads(store, 2, index, byte),
        Look::Byte(place, byte) => byte_at(store, place) == Ok(byte),
        Look::Bytes(from, bytes) => has_bytes(store, alloc, from, bytes),
    }
}

fn totals_of(data_blocks: u32, meta_blocks: u32) -> BlockTotals {
    BlockTotals {
        data_blocks,
        meta_blocks,
    }
}

/// Whether file 2 has so many data blocks from one index to before another, and so many others: its
/// inode, leaves with a block there, its double root.
fn measures(store: &mut MemoryStore, from: u32, to: u32, want: (u32, u32)) -> bool {
    let to = to.min(16_624);
    let (data_blocks, meta_blocks) = want;
    store.measure(FILE_2, from.min(to), to)
        == Ok(Measure {
            data_blocks,
            meta_blocks,
        })
}

fn is_counted(store: &mut MemoryStore, count: Count) -> bool {
    match count {
        Count::Number(number) => store.number() == number,
        Count::Clean(segments) => store.usage().clean() == segments,
        Count::LeastFree(number) => store.least_free() == FileNumber::new(number),
        Count::Space(data, meta) => store.space() == totals_of(data, meta),
        Count::Measured(from, to, data, meta) => measures(store, from, to, (data, meta)),
    }
}

/// The store on the heap, where each end drops it by one call.
fn mounted(alloc: Global, device: MemDevice) -> Option<Box<MemoryStore>> {
    let Ok(store) = Store::open(alloc, InSectors::new(device)) else {
        return None;
    };
    Box::new(alloc, store).ok()
}

/// Carries out a step while no store holds the device.
fn between(alloc: Global, store: Box<MemoryStore>, probe: Probe) -> Option<Box<MemoryStore>> {
    let slot = (store.number() % 2) as u32;
    let mut device = Box::into_inner(store).into_device().into_inner();
    if !is_probe_well(&mut device, slot, probe) {
        return None;
    }
    mounted(alloc, device)
}

/// The store after a step, where it saw what it should.
fn after(alloc: Global, store: Box<MemoryStore>, step: Step) -> Option<Box<MemoryStore>> {
    let mut store = store;
    let well = match step {
        Step::Calls(call) => is_done(&mut store, call),
        Step::Accepts(outcome) => store.accept() == outcome,
        Step::Commits(outcome) => store.commit() == outcome,
        Step::Sees(look) => is_seen(&mut store, alloc, look),
        Step::Counts(count) => is_counted(&mut store, count),
        Step::On(probe) => return between(alloc, store, probe),
    };
    if well { Some(store) } else { None }
}

/// Carries out the steps over an empty volume of 64 segments.
pub fn check(alloc: Global, steps: &[Step]) -> Result<(), Wrong> {
    let Some(mut store) = mounted(alloc, new_volume(alloc, 64)?) else {
        return Err(Wrong::NotOpened);
    };
    for (place, step) in steps.iter().enumerate() {
        let Some(next) = after(alloc, store, *step) else {
            return Err(Wrong::Step(place));
        };
        store = next;
    }
    Ok(())
}
