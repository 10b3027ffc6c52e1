//! The log over a device in memory.
use crate::devices::Probe::{Fail, Live, Points, Stop, StopAt, SyncFails, Tear, Writes};
use crate::log_steps::Act::{Commit, Cut, Fill, FillEdges, FillTo, Hide, Make, MakeTo, Remove};
use crate::log_steps::Look::{
    Clean, Halted, HasBlock, HasLeaf, Is, IsCut, Lacks, Number, Reads, ReadsTo, Root, Unsaved,
};
use crate::log_steps::Step::{Done, On, Refused, Sees};
use crate::log_steps::{CAPACITIES, EDGES, Step, check, prepared, run};
use crate::volume::Wrong;
use lfs_device::{DeviceCall, Left, MemDevice};
use lfs_store::volume_log::LogFault;
use std::alloc::Global;

const NOTHING: [Step; 0] = [];

/// File 2 has two blocks of sevens.
const TWO_BLOCKS: [Step; 4] = [
    Done(Make(2, 1_024)),
    Done(Fill(2, 0, 7)),
    Done(Fill(2, 1, 7)),
    Done(Commit),
];

/// File 2 has blocks of sevens beside the ends of the inode, of the first leaves and of the file.
const LONG_FILE: [Step; 9] = [
    Done(Make(2, 8_511_488)),
    Done(Fill(2, 111, 7)),
    Done(Fill(2, 112, 7)),
    Done(Fill(2, 239, 7)),
    Done(Fill(2, 240, 7)),
    Done(Fill(2, 367, 7)),
    Done(Fill(2, 368, 7)),
    Done(Fill(2, 16_623, 7)),
    Done(Commit),
];

const LEFTS: [Left; 3] = [Left::Old, Left::New, Left::Bad];

#[test]
fn a_new_volume_has_its_root(rt: HostRuntime) -> Result<(), Wrong> {
    for (segments, clean) in [(64, 63), (72, 71), (128, 127), (1_024, 1_023)] {
        let steps = [
            Sees(Number(1)),
            Sees(Clean(clean)),
            Sees(Unsaved(0)),
            Sees(Lacks(0)),
            Sees(Reads(0, 0, 0)),
            Sees(Root),
            Sees(Reads(1, 0, 0)),
            Sees(Lacks(2)),
            Sees(Reads(2, 0, 0)),
            Sees(Lacks(4_095)),
            Sees(Reads(4_095, 0, 0)),
        ];
        check(rt.alloc(), segments, &NOTHING, &steps)?;
    }
    Ok(())
}

#[test]
fn a_commit_stays(rt: HostRuntime) -> Result<(), Wrong> {
    for left in LEFTS {
        let steps = [
            Done(Make(2, 512)),
            Done(Fill(2, 0, 7)),
            Sees(Number(1)),
            Sees(Unsaved(2)),
            Done(Commit),
            Sees(Number(2)),
            Sees(Unsaved(0)),
            On(Stop(left)),
            Sees(Number(2)),
            // The root's inode stays in segment 0.
            Sees(Clean(70)),
            Sees(Is(2, 1, 512)),
            Sees(Reads(2, 0, 7)),
            Sees(Reads(2, 1, 0)),
        ];
        check(rt.alloc(), 72, &NOTHING, &steps)?;
    }
    Ok(())
}

#[test]
fn what_is_not_committed_is_gone(rt: HostRuntime) -> Result<(), Wrong> {
    let steps = [
        Done(Fill(2, 0, 9)),
        Done(Make(3, 0)),
        Sees(Reads(2, 0, 9)),
        On(Stop(Left::New)),
        Sees(Lacks(3)),
        Sees(Reads(2, 0, 7)),
    ];
    check(rt.alloc(), 64, &TWO_BLOCKS, &steps)
}

#[test]
fn a_commit_of_one_block_is_short(rt: HostRuntime) -> Result<(), Wrong> {
    for segments in [64, 72] {
        let steps = [
            On(StopAt(u64::MAX)),
            // One sync as the log is opened and two of the commit: the next one fails.
            On(Fail(DeviceCall::Sync, 3)),
            Done(Fill(2, 0, 9)),
            Sees(Unsaved(2)),
            Done(Commit),
            On(SyncFails),
            // The block, the inode, a block of the map, one of the usage table, the summary, the
            // checkpoint.
            On(Writes(6)),
        ];
        check(rt.alloc(), segments, &TWO_BLOCKS, &steps)?;
    }
    Ok(())
}

#[test]
fn a_stop_leaves_the_map_before_or_after(rt: HostRuntime) -> Result<(), Wrong> {
    for case in 0..63usize {
        let (write, way) = (case / 9, case % 9);
        let commit = if write == 6 {
            Done(Commit)
        } else {
            Refused(Commit, LogFault::Halted)
        };
        // The checkpoint is write 5, and then the only sector that isn't synced.
        let is_after = write == 6 || (write == 5 && way % 3 == 1);
        let (number, size, first, second) = if is_after {
            (3, 512, 9, 0)
        } else {
            (2, 1_024, 7, 7)
        };
        let steps = [
            On(StopAt(write as u64)),
            Done(Fill(2, 0, 9)),
            Done(Fill(2, 1, 0)),
            Done(Make(2, 512)),
            commit,
            On(Tear(way)),
            Sees(Number(number)),
            Sees(Is(2, 1, size)),
            Sees(Reads(2, 0, first)),
            Sees(Reads(2, 1, second)),
            Done(Fill(2, 0, 9)),
            Done(Fill(2, 1, 0)),
            Done(Make(2, 512)),
            Done(Commit),
        ];
        check(rt.alloc(), 64, &TWO_BLOCKS, &steps)?;
    }
    Ok(())
}

#[test]
fn a_failed_sync_halts_the_log(rt: HostRuntime) -> Result<(), Wrong> {
    let before = (2, 1_024, 7, 7);
    let after = (3, 512, 9, 0);
    // The sync as the log is opened counts too.
    for (sync, left, (number, size, first, second)) in [
        (1, Left::Old, before),
        (1, Left::New, before),
        (1, Left::Bad, before),
        (2, Left::Old, before),
        (2, Left::New, after),
        (2, Left::Bad, before),
    ] {
        let steps = [
            On(Fail(DeviceCall::Sync, sync)),
            Done(Fill(2, 0, 9)),
            Done(Fill(2, 1, 0)),
            Done(Make(2, 512)),
            Refused(Commit, LogFault::Halted),
            Sees(Halted(true)),
            Refused(Commit, LogFault::Halted),
            On(Stop(left)),
            Sees(Number(number)),
            Sees(Is(2, 1, size)),
            Sees(Reads(2, 0, first)),
            Sees(Reads(2, 1, second)),
        ];
        check(rt.alloc(), 64, &TWO_BLOCKS, &steps)?;
    }
    Ok(())
}

#[test]
fn blocks_under_all_pointers_are_saved(rt: HostRuntime) -> Result<(), Wrong> {
    let steps = [
        Done(Make(2, 8_511_488)),
        Done(Fill(2, 111, 111)),
        Done(Fill(2, 112, 112)),
        Done(Fill(2, 239, 239)),
        Done(Fill(2, 240, 240)),
        Done(Fill(2, 367, 116)),
        Done(Fill(2, 368, 117)),
        Done(Fill(2, 16_623, 57)),
        // The blocks, the inode, the double root and leaves 0, 1, 2 and 128.
        Sees(Unsaved(13)),
        Done(Commit),
        On(Stop(Left::Bad)),
        Sees(Is(2, 1, 8_511_488)),
        Sees(Reads(2, 111, 111)),
        Sees(Reads(2, 112, 112)),
        Sees(Reads(2, 239, 239)),
        Sees(Reads(2, 240, 240)),
        Sees(Reads(2, 367, 116)),
        Sees(Reads(2, 368, 117)),
        Sees(Reads(2, 16_623, 57)),
        Sees(Reads(2, 0, 0)),
        Sees(Reads(2, 110, 0)),
        Sees(Reads(2, 113, 0)),
        Sees(Reads(2, 238, 0)),
        Sees(Reads(2, 241, 0)),
        Sees(Reads(2, 366, 0)),
        Sees(Reads(2, 369, 0)),
        Sees(Reads(2, 16_622, 0)),
        Sees(Reads(2, 16_624, 0)),
    ];
    check(rt.alloc(), 64, &NOTHING, &steps)
}

#[test]
fn a_block_under_pointers_changes(rt: HostRuntime) -> Result<(), Wrong> {
    for capacity in CAPACITIES {
        let mut device = prepared(rt.alloc(), 64, &LONG_FILE)?;
        // What comes into memory: the block, the inode, and the blocks of pointers on the way.
        for (index, unsaved) in [
            (111, 2),
            (112, 3),
            (239, 3),
            (240, 4),
            (368, 4),
            (16_623, 4),
        ] {
            let steps = [
                On(Stop(Left::New)),
                Done(Fill(2, index, 9)),
                Sees(Unsaved(unsaved)),
                Done(Commit),
            ];
            device = run(rt.alloc(), capacity, device, &steps)?;
        }
        let steps = [
            On(Stop(Left::Old)),
            Sees(Reads(2, 111, 9)),
            Sees(Reads(2, 112, 9)),
            Sees(Reads(2, 239, 9)),
            Sees(Reads(2, 240, 9)),
            Sees(Reads(2, 367, 7)),
            Sees(Reads(2, 368, 9)),
            Sees(Reads(2, 16_623, 9)),
        ];
        run(rt.alloc(), capacity, device, &steps)?;
    }
    Ok(())
}

#[test]
fn zeros_are_not_stored(rt: HostRuntime) -> Result<(), Wrong> {
    for capacity in CAPACITIES {
        let mut device = prepared(rt.alloc(), 64, &LONG_FILE)?;
        // The block, how many blocks live then, and whether the inode points to a leaf and to a double
        // root. The two inodes, a block of the map and one of the usage table are among them.
        for (index, blocks, leaf, double) in [
            (111, 15, true, true),
            (239, 14, true, true),
            (16_623, 12, true, true),
            (367, 11, true, true),
            (240, 9, true, true),
            (368, 6, true, false),
            (112, 4, false, false),
        ] {
            let steps = [
                Done(Fill(2, index, 0)),
                Done(Commit),
                On(Stop(Left::New)),
                On(Points(leaf, double)),
                On(Live(blocks)),
                Sees(Reads(2, index, 0)),
            ];
            device = run(rt.alloc(), capacity, device, &steps)?;
        }
    }
    Ok(())
}

#[test]
fn a_file_is_cut(rt: HostRuntime) -> Result<(), Wrong> {
    let alloc = rt.alloc();
    let edges = [
        Done(Make(2, 8_511_488)),
        Done(FillEdges),
        Done(Commit),
        On(Stop(Left::New)),
    ];
    for capacity in CAPACITIES {
        let mut device = prepared(alloc, 64, &edges)?;
        // Where it is cut, how many blocks live after the commit, and how many are in memory before it.
        // The two inodes, a block of the map and one of the usage table are among those that live.
        for (first, blocks, unsaved) in [
            (16_624, 20, 2),
            (368, 16, 2),
            (300, 15, 3),
            (241, 14, 3),
            (240, 11, 1),
            (239, 10, 2),
            (113, 9, 2),
            (112, 7, 1),
            (111, 6, 1),
            (5, 5, 1),
            (0, 4, 1),
            (0, 4, 1),
        ] {
            let steps = [
                Done(Cut(2, first)),
                Sees(Unsaved(unsaved)),
                Sees(Is(2, 1, 8_511_488)),
                Sees(IsCut(first)),
                Done(Commit),
                On(Live(blocks)),
                Sees(Is(2, 1, 8_511_488)),
                Sees(IsCut(first)),
                On(Stop(Left::Old)),
            ];
            device = run(alloc, capacity, device, &steps)?;
        }
    }
    Ok(())
}

#[test]
fn a_file_in_memory_is_cut(rt: HostRuntime) -> Result<(), Wrong> {
    for first in EDGES {
        let steps = [
            Done(Make(2, 8_511_488)),
            Done(FillEdges),
            Done(Cut(3, first)),
            Sees(Is(2, 1, 8_511_488)),
            Sees(IsCut(16_624)),
            Done(Cut(2, first)),
            Sees(Is(2, 1, 8_511_488)),
            Sees(IsCut(first)),
            Done(Commit),
            On(Stop(Left::Bad)),
            Sees(Is(2, 1, 8_511_488)),
            Sees(IsCut(first)),
        ];
        check(rt.alloc(), 64, &NOTHING, &steps)?;
    }
    Ok(())
}

#[test]
fn segments_run_out_without_a_cleaner(rt: HostRuntime) -> Result<(), Wrong> {
    let steps = [
        // Each commit fills a segment. With 16 clean segments one goes on, and leaves 15.
        Done(MakeTo(50)),
        Done(Make(50, 0)),
        Sees(Clean(15)),
        Sees(Unsaved(1)),
        Refused(Commit, LogFault::Full),
        Sees(Number(49)),
        Sees(Unsaved(1)),
        Sees(Halted(false)),
        Sees(Is(50, 1, 0)),
    ];
    check(rt.alloc(), 64, &NOTHING, &steps)
}

#[test]
fn a_commit_takes_eight_segments(rt: HostRuntime) -> Result<(), Wrong> {
    let alloc = rt.alloc();
    for capacity in CAPACITIES {
        let mut device = prepared(alloc, 64, &NOTHING)?;
        for byte in [7, 9] {
            let steps = [
                On(StopAt(u64::MAX)),
                Done(Make(2, 225_280)),
                Done(FillTo(440, byte)),
                // The blocks, the inode, the double root and three leaves.
                Sees(Unsaved(445)),
                Done(Commit),
                // With a block of the map and one of the usage table these are seven chunks of 63
                // blocks and one of 6.
                Sees(Clean(55)),
                On(Stop(Left::New)),
                Sees(Clean(55)),
                Sees(ReadsTo(440, byte)),
                On(Writes(456)),
            ];
            device = run(alloc, capacity, device, &steps)?;
        }
    }
    Ok(())
}

#[test]
fn a_file_without_links_stays_until_it_is_removed(rt: HostRuntime) -> Result<(), Wrong> {
    let steps = [
        Sees(Clean(62)),
        Refused(Hide(3, 0), LogFault::Device),
        Done(Hide(2, 1_024)),
        Refused(Hide(2, 1_024), LogFault::Device),
        Done(Commit),
        // The two blocks still hold their segment.
        Sees(Clean(61)),
        Sees(Number(3)),
        Sees(Is(2, 0, 1_024)),
        Sees(Reads(2, 0, 7)),
        Sees(Reads(2, 1, 7)),
        Done(Remove(2)),
        Sees(Number(3)),
        Sees(Lacks(2)),
        Sees(Reads(2, 0, 0)),
        Sees(Reads(2, 1, 0)),
        Done(Commit),
        // Now it is clean. What the commit wrote stands behind the last one.
        Sees(Clean(62)),
        // The root's inode, a block of the map and one of the usage table.
        On(Live(3)),
    ];
    check(rt.alloc(), 64, &TWO_BLOCKS, &steps)
}

#[test]
fn a_stop_forgets_a_file_without_links(rt: HostRuntime) -> Result<(), Wrong> {
    for left in LEFTS {
        let steps = [
            Done(Hide(2, 1_024)),
            On(Stop(left)),
            Sees(Number(2)),
            Sees(Is(2, 1, 1_024)),
            Sees(Reads(2, 0, 7)),
            Sees(Reads(2, 1, 7)),
            Done(Hide(2, 1_024)),
            Done(Commit),
            On(Stop(left)),
            Sees(Number(3)),
            Sees(Lacks(2)),
            Sees(Reads(2, 0, 0)),
            Sees(Reads(2, 1, 0)),
            Sees(Clean(62)),
        ];
        check(rt.alloc(), 64, &TWO_BLOCKS, &steps)?;
    }
    Ok(())
}

/// A device with the long file, of which a read fails before which so many come.
fn failing(alloc: Global, read: u64) -> Result<MemDevice, Wrong> {
    let mut device = prepared(alloc, 64, &LONG_FILE)?;
    device.fail(DeviceCall::Read, read);
    Ok(device)
}

/// Whether a failed read is one of those of `hide`, which then leaves the link. Where the log isn't
/// opened, it is one before.
fn is_read_as_file_is_hidden(alloc: Global, capacity: u32, read: u64) -> Result<bool, Wrong> {
    let hides = [
        Done(Hide(2, 8_511_488)),
        Sees(Is(2, 0, 8_511_488)),
        Done(Commit),
        On(Live(3)),
    ];
    match run(alloc, capacity, failing(alloc, read)?, &hides) {
        Ok(_) | Err(Wrong::NotOpened) => return Ok(false),
        Err(_) => {}
    }
    let refuses = [
        Refused(Hide(2, 8_511_488), LogFault::Device),
        Sees(Is(2, 1, 8_511_488)),
        Done(Hide(2, 8_511_488)),
        Sees(Is(2, 0, 8_511_488)),
        Done(Commit),
        On(Live(3)),
    ];
    run(alloc, capacity, failing(alloc, read)?, &refuses)?;
    Ok(true)
}

#[test]
fn a_failed_read_leaves_the_link(rt: HostRuntime) -> Result<(), Wrong> {
    for capacity in CAPACITIES {
        let mut failed = 0u32;
        for read in 0..64u64 {
            if is_read_as_file_is_hidden(rt.alloc(), capacity, read)? {
                failed = failed.saturating_add(1);
            }
        }
        // The inode, leaf 0, the double root, and leaves 1, 2 and 128.
        assert!(rt; failed == 6);
    }
    Ok(())
}

#[test]
fn blocks_and_leaves_that_are_stored(rt: HostRuntime) -> Result<(), Wrong> {
    let steps = [
        Sees(HasBlock(0, true)),
        Sees(HasBlock(1, true)),
        Sees(HasBlock(16_623, false)),
        Sees(HasLeaf(0, false)),
        Sees(HasLeaf(1, false)),
        Sees(HasLeaf(128, false)),
        Done(Make(2, 8_511_488)),
        Done(Fill(2, 1, 0)),
        Done(Fill(2, 16_623, 7)),
        Sees(HasBlock(0, true)),
        Sees(HasBlock(1, false)),
        Sees(HasBlock(16_623, true)),
        Sees(HasLeaf(0, false)),
        Sees(HasLeaf(1, false)),
        Sees(HasLeaf(128, true)),
    ];
    check(rt.alloc(), 64, &TWO_BLOCKS, &steps)
}
