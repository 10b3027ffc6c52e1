//! Tests of a log as lists of steps.
ghost use Rattle.std.specs.Prelude.{◌≡◌, ◌<◌, ◌≤◌};

use crate::devices::{Probe, is_probe_well};
use crate::volume::{Wrong, new_volume};
use lfs_cache::{DEFAULT_SECTORS, MOST_SECTORS};
use lfs_device::{InSectors, MemDevice, SectorDevice};
use lfs_model::Kind;
use lfs_store::volume_log::{Changes, Cut, Header, LastLink, Log, LogFault, Loss};
use std::alloc::Global;

/// A change of files, or a commit.
#[derive(Clone, Copy)]
pub enum Act {
    /// A file has one link and this size; it is made where it isn't there.
    Make(u16, u32),
    /// A block of a file is filled with a byte.
    Fill(u16, u32, u8),
    /// The blocks of file 2 before this one are filled with a byte.
    FillTo(u32, u8),
    /// The blocks of file 2 at the edges are filled, each with the byte of its edge.
    FillEdges,
    /// A file is cut away from a block on.
    Cut(u16, u32),
    /// A file of this size loses its last link.
    Hide(u16, u32),
    Remove(u16),
    /// Files of 60 blocks from number 2 to before this one are made, each with a commit of its own,
    /// which fills a segment: with an inode and two blocks of the tables it has 63.
    MakeTo(u16),
    /// Full chunks of data blocks are written without a commit.
    WriteEarly,
    Commit,
    /// A pass of the cleaner over two segments.
    Empty(u16, u16),
}

/// What is seen of a log.
#[derive(Clone, Copy)]
pub enum Look {
    /// The acknowledged checkpoint's number.
    Number(u64),
    /// How many segments are clean.
    Clean(u32),
    /// How many blocks no acknowledged checkpoint leads to.
    Unsaved(usize),
    /// Whether a commit failed.
    Halted(bool),
    /// A regular file with so many links, and its size.
    Is(u16, u32, u32),
    /// The root, a directory without a byte.
    Root,
    /// There is no file of this number.
    Lacks(u16),
    /// A block of a file is filled with this byte: 0 where it isn't stored.
    Reads(u16, u32, u8),
    /// So are all of file 2 before this one.
    ReadsTo(u32, u8),
    /// The blocks of file 2 at the edges before this one are as they were filled, and the others
    /// aren't stored.
    IsCut(u32),
    /// Whether a block of file 2 is stored.
    HasBlock(u32, bool),
    /// Whether a leaf of file 2 is stored.
    HasLeaf(u32, bool),
}

/// A step of a test.
#[derive(Clone, Copy)]
pub enum Step {
    Done(Act),
    Refused(Act, LogFault),
    Sees(Look),
    /// The log is left for this, and opened again.
    On(Probe),
}

/// How many sectors the log's cache keeps: what is seen is the same with each.
pub const CAPACITIES: [u32; 3] = [1, 2, DEFAULT_SECTORS];

/// Blocks of file 2 beside the places at which it is cut.
pub const EDGES: [u32; 11] = [0, 5, 111, 112, 113, 239, 240, 241, 300, 368, 16_623];

/// The byte that the block at an edge is filled with.
fn byte_of(index: u32) -> u8 {
    (index % 251) as u8 + 1
}

const ROOT: Header = Header {
    kind: Kind::Directory,
    form: 0,
    links: 2,
    size: 0,
};

fn file_of(links: u32, size: u32) -> Header {
    Header {
        kind: Kind::File,
        form: 0,
        links,
        size,
    }
}

/// A log on a device in memory.
type MemoryLog = Log<InSectors<MemDevice>>;

/// Changes one thing.
fn stage(log: &mut MemoryLog, alloc: Global, act: Act) -> Result<(), LogFault> {
    let Ok(mut changes) = Changes::new(alloc, 1, 1) else {
        return Err(LogFault::Full);
    };
    match act {
        Act::Make(file, size) => {
            let _ = changes.put_header(file.clamp(1, 4_095), file_of(1, size));
        }
        Act::Fill(file, index, byte) => {
            let _ = changes.put_block(file.clamp(1, 4_095), index.min(16_623), &[byte; 512]);
        }
        Act::Cut(file, first) => {
            changes.loss = Loss::Blocks(Cut {
                number: file.min(4_095),
                first: first.min(16_624),
            });
        }
        Act::Hide(file, size) => {
            changes.loss = Loss::Link(LastLink {
                number: file.clamp(1, 4_095),
                kind: Kind::File,
                form: 0,
                size,
            });
        }
        _ => {}
    }
    let totals = log.totals();
    log.stage(&changes, totals)
}

/// Fills the blocks of file 2 before this one.
fn fill_to(log: &mut MemoryLog, alloc: Global, end: u32, byte: u8) -> Result<(), LogFault> {
    for index in 0..end {
        stage(log, alloc, Act::Fill(2, index, byte))?;
    }
    Ok(())
}

/// Fills the blocks of file 2 at the edges.
fn fill_edges(log: &mut MemoryLog, alloc: Global) -> Result<(), LogFault> {
    for index in EDGES {
        stage(log, alloc, Act::Fill(2, index, byte_of(index)))?;
    }
    Ok(())
}

/// Makes files before this one, each with a commit.
fn make_to(log: &mut MemoryLog, alloc: Global, end: u16) -> Result<(), LogFault> {
    for file in 2..end {
        stage(log, alloc, Act::Make(file, 30_720))?;
        for index in 0..60 {
            stage(log, alloc, Act::Fill(file, index, 7))?;
        }
        log.commit()?;
    }
    Ok(())
}

/// A pass of the cleaner over two segments.
fn empty(log: &mut MemoryLog, one: u16, other: u16) -> Result<(), LogFault> {
    if one == other {
        return Err(LogFault::Full);
    }
    log.vacate(&[one, other])
}

fn carry_out(log: &mut MemoryLog, alloc: Global, act: Act) -> Result<(), LogFault> {
    let totals = log.totals();
    match act {
        Act::Remove(file) => log.remove(file % 4_096, totals),
        Act::WriteEarly => log.write_early(),
        Act::Commit => log.commit(),
        Act::FillTo(end, byte) => fill_to(log, alloc, end, byte),
        Act::FillEdges => fill_edges(log, alloc),
        Act::MakeTo(end) => make_to(log, alloc, end),
        Act::Empty(one, other) => empty(log, one, other),
        _ => stage(log, alloc, act),
    }
}

/// Whether a block of a file is filled with this byte: 0 where it isn't stored.
pub fn reads<D: SectorDevice>(log: &mut Log<D>, file: u16, index: u32, byte: u8) -> bool {
    let mut bytes = [255; 512];
    log.block(file % 4_096, index, &mut bytes) == Ok(byte != 0) && bytes == [byte; 512]
}

/// Whether the blocks of file 2 before this one are.
fn reads_to(log: &mut MemoryLog, end: u32, byte: u8) -> bool {
    for index in 0..end {
        if !reads(log, 2, index, byte) {
            return false;
        }
    }
    true
}

/// Whether the blocks of file 2 at the edges before this one are there, and no other.
fn is_cut(log: &mut MemoryLog, first: u32) -> bool {
    for index in EDGES {
        let byte = if index < first { byte_of(index) } else { 0 };
        if !reads(log, 2, index, byte) {
            return false;
        }
    }
    true
}

fn is_seen(log: &mut MemoryLog, look: Look) -> bool {
    match look {
        Look::Number(number) => log.number() == number,
        Look::Clean(segments) => log.clean_segments() == segments,
        Look::Unsaved(blocks) => log.unsaved() == blocks,
        Look::Halted(halted) => {
            log.is_halted() == halted && (log.header(1) == Err(LogFault::Halted)) == halted
        }
        Look::Is(file, links, size) => log.header(file % 4_096) == Ok(Some(file_of(links, size))),
        Look::Root => log.header(1) == Ok(Some(ROOT)),
        Look::Lacks(file) => log.header(file % 4_096) == Ok(None),
        Look::Reads(file, index, byte) => reads(log, file, index, byte),
        Look::ReadsTo(end, byte) => reads_to(log, end, byte),
        Look::IsCut(first) => is_cut(log, first),
        Look::HasBlock(index, stored) => log.has_block(2, index) == Ok(stored),
        Look::HasLeaf(leaf, stored) => log.has_leaf(2, leaf.min(128)) == Ok(stored),
    }
}

/// The log on the heap, where each end drops it by one call. Its cache keeps so many sectors.
pub fn mounted<D: SectorDevice + Drop>(
    alloc: Global,
    capacity: u32,
    device: D,
) -> Result<Box<Log<InSectors<D>>>, Wrong> {
    let device = InSectors::new(device);
    let Ok(log) = Log::open_with(alloc, device, capacity.clamp(1, MOST_SECTORS)) else {
        return Err(Wrong::NotOpened);
    };
    match Box::new(alloc, log) {
        Ok(log) => Ok(log),
        Err(_) => Err(Wrong::NotOpened),
    }
}

/// Carries out a step while no log holds the device.
fn between(
    alloc: Global,
    capacity: u32,
    log: Box<MemoryLog>,
    probe: Probe,
) -> Option<Box<MemoryLog>> {
    let slot = (log.number() % 2) as u32;
    let mut device = Box::into_inner(log).into_device().into_inner();
    if !is_probe_well(&mut device, slot, probe) {
        return None;
    }
    mounted(alloc, capacity, device).ok()
}

/// The log after a step, where it saw what it should.
fn after(alloc: Global, capacity: u32, log: Box<MemoryLog>, step: Step) -> Option<Box<MemoryLog>> {
    let mut log = log;
    let well = match step {
        Step::Done(act) => carry_out(&mut log, alloc, act) == Ok(()),
        Step::Refused(act, fault) => carry_out(&mut log, alloc, act) == Err(fault),
        Step::Sees(look) => is_seen(&mut log, look),
        Step::On(probe) => return between(alloc, capacity, log, probe),
    };
    if well { Some(log) } else { None }
}

/// Opens the log of a device, carries out the steps, and leaves the log. Its cache keeps so many
/// sectors.
pub fn run(
    alloc: Global,
    capacity: u32,
    device: MemDevice,
    steps: &[Step],
) -> Result<MemDevice, Wrong> {
    let mut log = mounted(alloc, capacity, device)?;
    for (place, step) in steps.iter().enumerate() {
        let Some(next) = after(alloc, capacity, log, *step) else {
            return Err(Wrong::Step(place));
        };
        log = next;
    }
    Ok(Box::into_inner(log).into_device().into_inner())
}

/// The device after these steps over an empty volume.
pub fn prepared(alloc: Global, segments: u32, steps: &[Step]) -> Result<MemDevice, Wrong> {
    run(alloc, DEFAULT_SECTORS, new_volume(alloc, segments)?, steps)
}

/// Carries out steps over an empty volume, and then others after a mount, with each capacity.
pub fn check(alloc: Global, segments: u32, before: &[Step], steps: &[Step]) -> Result<(), Wrong> {
    for capacity in CAPACITIES {
        let device = prepared(alloc, segments, before)?;
        run(alloc, capacity, device, steps)?;
    }
    Ok(())
}
