//! Chunks of blocks that are written between two commits.
use crate::devices::Probe::{Live, Stop};
use crate::log_steps::Act::{
    Commit, Cut, Empty, Fill, FillTo, Hide, Make, MakeTo, Remove, WriteEarly,
};
use crate::log_steps::Look::{Clean, Halted, Is, Number, Reads, ReadsTo, Unsaved};
use crate::log_steps::Step::{Done, On, Refused, Sees};
use crate::log_steps::{Step, check, run};
use crate::volume::{Wrong, new_volume};
use lfs_cache::DEFAULT_SECTORS;
use lfs_device::{DeviceCall, Left};
use lfs_store::volume_log::LogFault;
use std::alloc::Global;

const NOTHING: [Step; 0] = [];

/// File 2 has two blocks of sevens.
const TWO_BLOCKS: [Step; 3] = [Done(Make(2, 1_024)), Done(FillTo(2, 7)), Done(Commit)];

/// What the commit of two blocks writes: both, the inode, a block of the map, one of the usage
/// table, the summary, the checkpoint.
const FIRST_COMMIT: u64 = 7;

/// A full chunk: 63 blocks and the summary.
const CHUNK: u64 = 64;

/// The chunk, and the commit behind it: the seven blocks that are left of 70, the inode, a block of
/// the map, one of the usage table, the summary, the checkpoint.
const ALL: u64 = 76;

const LEFTS: [Left; 3] = [Left::Old, Left::New, Left::Bad];

/// Of 70 blocks of nines a chunk is written early, and then all is saved. The device stops within
/// the write before which so many come behind the first commit. The map of that commit is left, or
/// the new one.
fn check_stop(alloc: Global, write: u64, left: Left) -> Result<(), Wrong> {
    let early = if write < CHUNK {
        Refused(WriteEarly, LogFault::Halted)
    } else {
        Done(WriteEarly)
    };
    let commit = if write < ALL {
        Refused(Commit, LogFault::Halted)
    } else {
        Done(Commit)
    };
    // The checkpoint is the last write, and then the only sector that isn't synced.
    let is_after = write == ALL || (write == ALL - 1 && left == Left::New);
    let (number, size, end, byte) = if is_after {
        (3, 35_840, 70, 9)
    } else {
        (2, 1_024, 2, 7)
    };
    let steps = [
        Done(Make(2, 1_024)),
        Done(FillTo(2, 7)),
        Done(Commit),
        Done(Make(2, 35_840)),
        Done(FillTo(70, 9)),
        early,
        commit,
        On(Stop(left)),
        Sees(Number(number)),
        Sees(Unsaved(0)),
        Sees(Is(2, 1, size)),
        Sees(ReadsTo(end, byte)),
        Sees(Reads(2, end, 0)),
    ];
    let mut device = new_volume(alloc, 64)?;
    device.stop_at(FIRST_COMMIT.saturating_add(write));
    run(alloc, DEFAULT_SECTORS, device, &steps)?;
    Ok(())
}

#[test]
fn stops_within_an_early_chunk(rt: HostRuntime) -> Result<(), Wrong> {
    for write in 0..CHUNK {
        check_stop(rt.alloc(), write, LEFTS[(write % 3) as usize])?;
    }
    Ok(())
}

#[test]
fn stops_within_the_commit_behind_a_chunk(rt: HostRuntime) -> Result<(), Wrong> {
    for write in CHUNK..ALL + 1 {
        for left in LEFTS {
            check_stop(rt.alloc(), write, left)?;
        }
    }
    Ok(())
}

/// The write of the chunk fails before which so many come, and none behind it. The log is halted,
/// and a stop leaves what is acknowledged.
fn check_failure(alloc: Global, write: u64, left: Left) -> Result<(), Wrong> {
    let steps = [
        Done(Make(2, 1_024)),
        Done(FillTo(2, 7)),
        Done(Commit),
        Done(Make(2, 35_840)),
        Done(FillTo(70, 9)),
        Refused(WriteEarly, LogFault::Halted),
        Sees(Halted(true)),
        Refused(WriteEarly, LogFault::Halted),
        Refused(Fill(2, 0, 8), LogFault::Halted),
        Refused(Remove(3), LogFault::Halted),
        Refused(Commit, LogFault::Halted),
        Refused(Empty(0, 1), LogFault::Halted),
        On(Stop(left)),
        Sees(Number(2)),
        Sees(Unsaved(0)),
        Sees(Is(2, 1, 1_024)),
        Sees(ReadsTo(2, 7)),
        Sees(Reads(2, 2, 0)),
    ];
    let mut device = new_volume(alloc, 64)?;
    device.fail(DeviceCall::Write, FIRST_COMMIT.saturating_add(write));
    run(alloc, DEFAULT_SECTORS, device, &steps)?;
    Ok(())
}

#[test]
fn an_early_write_that_fails(rt: HostRuntime) -> Result<(), Wrong> {
    for write in 0..CHUNK {
        check_failure(rt.alloc(), write, LEFTS[(write % 3) as usize])?;
    }
    Ok(())
}

#[test]
fn early_blocks_are_unsaved(rt: HostRuntime) -> Result<(), Wrong> {
    let steps = [
        Done(Make(2, 35_840)),
        Done(FillTo(70, 9)),
        // The blocks and the inode.
        Sees(Unsaved(71)),
        Sees(Clean(62)),
        Done(WriteEarly),
        Sees(Number(2)),
        Sees(Unsaved(71)),
        Sees(Clean(61)),
        Sees(ReadsTo(70, 9)),
        // One of them changes, and is in memory again. Eight blocks are no full chunk.
        Done(Fill(2, 0, 8)),
        Sees(Unsaved(71)),
        Done(WriteEarly),
        Sees(Unsaved(71)),
        Sees(Clean(61)),
        Sees(Reads(2, 0, 8)),
        Sees(Reads(2, 1, 9)),
        On(Stop(Left::New)),
        Sees(Number(2)),
        Sees(Unsaved(0)),
        Sees(Clean(62)),
        Sees(Is(2, 1, 1_024)),
        Sees(ReadsTo(2, 7)),
        Sees(Reads(2, 2, 0)),
    ];
    check(rt.alloc(), 64, &TWO_BLOCKS, &steps)
}

#[test]
fn early_blocks_that_are_lost(rt: HostRuntime) -> Result<(), Wrong> {
    let steps = [
        Done(Make(2, 32_256)),
        Done(FillTo(63, 9)),
        Done(WriteEarly),
        Sees(Unsaved(64)),
        Sees(Clean(62)),
        Done(Cut(2, 1)),
        // The inode and a block.
        Sees(Unsaved(2)),
        Done(Hide(2, 32_256)),
        Done(Remove(2)),
        // The segment isn't clean before the next checkpoint. No block of what was staged since the last
        // one is left, and it counts as unsaved still.
        Sees(Unsaved(1)),
        Sees(Clean(62)),
        Done(Commit),
        Sees(Number(2)),
        // What this commit wrote stands in a segment of its own.
        Sees(Clean(62)),
        // The root's inode, a block of the map and one of the usage table.
        On(Live(3)),
    ];
    check(rt.alloc(), 64, &NOTHING, &steps)
}

#[test]
fn early_writes_stop_at_the_reserve(rt: HostRuntime) -> Result<(), Wrong> {
    let steps = [
        Done(MakeTo(48)),
        Sees(Clean(17)),
        Done(Make(2, 66_560)),
        Done(FillTo(130, 9)),
        // The blocks, the inode and a leaf.
        Sees(Unsaved(132)),
        // Two chunks are full, and one of them may be written.
        Done(WriteEarly),
        Sees(Clean(16)),
        Done(WriteEarly),
        Sees(Clean(16)),
        Sees(Unsaved(132)),
        Sees(Number(47)),
        Done(Commit),
        Sees(Number(48)),
        Sees(Unsaved(0)),
        On(Stop(Left::Bad)),
        Sees(Is(2, 1, 66_560)),
        Sees(ReadsTo(130, 9)),
    ];
    run(
        rt.alloc(),
        DEFAULT_SECTORS,
        new_volume(rt.alloc(), 64)?,
        &steps,
    )?;
    Ok(())
}
