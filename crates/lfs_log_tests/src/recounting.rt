//! The totals of a volume as files are written, cut, made and removed: the root's inode is one of
//! its blocks.
use crate::devices::Probe::Stop;
use crate::store_steps::Call::{Create, Forget, GiveUp, Remove, SetLen, WriteBlock};
use crate::store_steps::Count::Space;
use crate::store_steps::Step::{Accepts, Calls, Commits, Counts, On};
use crate::store_steps::check;
use crate::volume::Wrong;
use lfs_device::Left;
use lfs_model::Kind::{Directory, File};

#[test]
fn a_block_counts_where_it_is_stored(rt: HostRuntime) -> Result<(), Wrong> {
    let steps = [
        Calls(Create(2, File)),
        Accepts(Ok(())),
        Counts(Space(0, 2)),
        Calls(WriteBlock(0, 0, 7)),
        Counts(Space(1, 2)),
        Calls(WriteBlock(512, 0, 8)),
        Counts(Space(1, 2)),
        Calls(WriteBlock(512, 0, 0)),
        Counts(Space(0, 2)),
    ];
    check(rt.alloc(), &steps)
}

#[test]
fn blocks_of_pointers_count(rt: HostRuntime) -> Result<(), Wrong> {
    let steps = [
        Calls(Create(2, File)),
        Accepts(Ok(())),
        Calls(WriteBlock(0, 111, 7)),
        Accepts(Ok(())),
        Counts(Space(1, 2)),
        Calls(WriteBlock(57_344, 112, 7)),
        Counts(Space(2, 3)),
        Accepts(Ok(())),
        Calls(WriteBlock(57_856, 240, 7)),
        Counts(Space(3, 5)),
    ];
    check(rt.alloc(), &steps)
}

#[test]
fn a_cut_counts(rt: HostRuntime) -> Result<(), Wrong> {
    let steps = [
        Calls(Create(2, File)),
        Accepts(Ok(())),
        Calls(WriteBlock(0, 112, 7)),
        Accepts(Ok(())),
        // A byte of block 112 stays, and then none.
        Calls(SetLen(57_856, 57_345)),
        Counts(Space(1, 3)),
        Calls(SetLen(57_856, 57_344)),
        Counts(Space(0, 2)),
    ];
    check(rt.alloc(), &steps)
}

#[test]
fn what_is_given_up_is_not_counted(rt: HostRuntime) -> Result<(), Wrong> {
    let steps = [
        Calls(Create(2, File)),
        Accepts(Ok(())),
        Calls(Create(3, Directory)),
        Calls(WriteBlock(0, 0, 7)),
        Counts(Space(1, 3)),
        Calls(GiveUp),
        Counts(Space(0, 2)),
    ];
    check(rt.alloc(), &steps)
}

#[test]
fn a_removed_file_counts_no_more(rt: HostRuntime) -> Result<(), Wrong> {
    let steps = [
        Calls(Create(2, File)),
        Accepts(Ok(())),
        Calls(WriteBlock(0, 240, 7)),
        Accepts(Ok(())),
        Calls(Remove),
        Counts(Space(0, 1)),
        Calls(GiveUp),
        Counts(Space(1, 4)),
        Calls(Forget),
        Counts(Space(0, 1)),
        Calls(GiveUp),
        Counts(Space(0, 1)),
    ];
    check(rt.alloc(), &steps)
}

#[test]
fn a_mount_counts_the_volume(rt: HostRuntime) -> Result<(), Wrong> {
    let steps = [
        Calls(Create(2, File)),
        Accepts(Ok(())),
        Calls(WriteBlock(0, 240, 7)),
        Accepts(Ok(())),
        Commits(Ok(())),
        On(Stop(Left::Old)),
        Counts(Space(1, 4)),
        Calls(GiveUp),
        Counts(Space(1, 4)),
    ];
    check(rt.alloc(), &steps)
}
