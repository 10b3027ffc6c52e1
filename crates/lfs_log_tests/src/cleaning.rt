//! Passes of the cleaner over a device in memory.
use crate::devices::Probe::{Fail, Stop};
use crate::log_steps::Act::{Commit, Empty, Fill, FillTo, Hide, Make};
use crate::log_steps::Look::{Clean, Is, Number, Reads, Root, Unsaved};
use crate::log_steps::Step::{Done, On, Refused, Sees};
use crate::log_steps::{CAPACITIES, Step, check, prepared, run};
use crate::volume::Wrong;
use lfs_device::{DeviceCall, Left};
use lfs_store::volume_log::LogFault;
use std::alloc::Global;

/// Segments 1 to 3 have one block of file 2 each that lives, and segment 0 nothing of it; file 3
/// lives in segment 4. The first commit of each mount begins in a clean segment.
const FIVE_SEGMENTS: [Step; 15] = [
    Done(Make(2, 2_048)),
    Done(FillTo(3, 7)),
    Done(Commit),
    On(Stop(Left::Old)),
    Done(Fill(2, 1, 8)),
    Done(Commit),
    On(Stop(Left::Old)),
    Done(Fill(2, 2, 9)),
    Done(Commit),
    On(Stop(Left::Old)),
    Done(Make(3, 512)),
    Done(Fill(3, 0, 5)),
    Done(Commit),
    Sees(Number(5)),
    Sees(Clean(59)),
];

#[test]
fn a_pass_empties_segments(rt: HostRuntime) -> Result<(), Wrong> {
    let steps = [
        Refused(Empty(1, 9), LogFault::Full),
        Refused(Empty(1, 70), LogFault::Full),
        Done(Fill(2, 3, 4)),
        Refused(Empty(1, 2), LogFault::Full),
        Done(Commit),
        Sees(Clean(58)),
        // The last chunk stands in segment 5, and a pass writes behind it.
        Refused(Empty(1, 5), LogFault::Full),
        Done(Empty(1, 2)),
        Sees(Number(7)),
        Sees(Clean(60)),
        Sees(Unsaved(0)),
        Done(Empty(0, 3)),
        Sees(Clean(62)),
        Sees(Reads(2, 0, 7)),
        Sees(Reads(2, 1, 8)),
        Sees(Reads(2, 2, 9)),
        Sees(Reads(2, 3, 4)),
        Sees(Reads(3, 0, 5)),
        Sees(Root),
        On(Stop(Left::Bad)),
        Sees(Number(8)),
        Sees(Clean(62)),
        Sees(Reads(2, 0, 7)),
        Sees(Reads(2, 3, 4)),
        Sees(Reads(3, 0, 5)),
        Sees(Root),
    ];
    check(rt.alloc(), 64, &FIVE_SEGMENTS, &steps)
}

#[test]
fn a_pass_takes_files_without_links(rt: HostRuntime) -> Result<(), Wrong> {
    let steps = [
        Done(Hide(2, 2_048)),
        Done(Commit),
        Done(Empty(1, 2)),
        Sees(Is(2, 0, 2_048)),
        Sees(Reads(2, 0, 7)),
        Sees(Reads(2, 1, 8)),
        Sees(Reads(2, 2, 9)),
        Sees(Reads(3, 0, 5)),
    ];
    check(rt.alloc(), 64, &FIVE_SEGMENTS, &steps)
}

/// What comes of it where a read fails before which so many come, the mount's too: 0 where the
/// mount fails, 1 where the pass does, and loses nothing, and 2 where neither does.
fn fate_of(alloc: Global, capacity: u32, read: u64) -> Result<u8, Wrong> {
    let fails = [
        On(Fail(DeviceCall::Read, read)),
        Refused(Empty(1, 2), LogFault::Device),
        Sees(Number(5)),
        Sees(Clean(59)),
        Sees(Unsaved(0)),
        Sees(Reads(2, 1, 8)),
        // What is written next is written over what the pass may have left.
        Done(Fill(2, 3, 4)),
        Done(Commit),
        Sees(Clean(58)),
        On(Stop(Left::Bad)),
        Sees(Reads(2, 1, 8)),
        Sees(Reads(2, 3, 4)),
        Done(Empty(1, 2)),
        Sees(Clean(59)),
        Sees(Reads(2, 0, 7)),
        Sees(Reads(2, 1, 8)),
        Sees(Reads(2, 2, 9)),
        Sees(Reads(2, 3, 4)),
        Sees(Root),
    ];
    let device = prepared(alloc, 64, &FIVE_SEGMENTS)?;
    match run(alloc, capacity, device, &fails) {
        Ok(_) => Ok(1),
        Err(Wrong::Step(0)) => Ok(0),
        Err(Wrong::Step(1)) => Ok(2),
        Err(wrong) => Err(wrong),
    }
}

/// The first read behind those of a mount, of 256 at most.
fn first_behind_mount(alloc: Global, capacity: u32) -> Result<u64, Wrong> {
    let mut low = 0u64;
    let mut step = 128u64;
    for _ in 0..8u32 {
        if fate_of(alloc, capacity, low.saturating_add(step))? == 0 {
            low = low.saturating_add(step);
        }
        step /= 2;
    }
    Ok(low.saturating_add(1))
}

#[test]
fn a_failed_read_ends_a_pass(rt: HostRuntime) -> Result<(), Wrong> {
    for capacity in CAPACITIES {
        let first = first_behind_mount(rt.alloc(), capacity)?;
        let mut failed = 0u32;
        for read in 0..12u64 {
            if fate_of(rt.alloc(), capacity, first.saturating_add(read))? == 1 {
                failed = failed.saturating_add(1);
            }
        }
        // Two summaries, two blocks, and the inode, which is looked up and comes in from where it
        // is kept.
        assert!(rt; failed == 5);
    }
    Ok(())
}
