//! Drafts that are accepted, given up and refused over an empty volume of 64 segments.
use crate::devices::Probe::{Fail, Stop};
use crate::store_steps::Call::{Create, FilesTo, GiveUp, Save, WriteFile};
use crate::store_steps::Count::{Clean, Number, Space};
use crate::store_steps::Look::{Holds, HoldsTo, Is, Lacks};
use crate::store_steps::Step::{Accepts, Calls, Commits, Counts, On, Sees};
use crate::store_steps::check;
use crate::volume::Wrong;
use lfs_device::{DeviceCall, Left};
use lfs_model::Kind;
use lfs_store::StoreFault;
use lfs_store::volume_log::LogFault;

#[test]
fn an_accepted_draft_stays(rt: HostRuntime) -> Result<(), Wrong> {
    for left in [Left::Old, Left::New, Left::Bad] {
        let steps = [
            Calls(WriteFile(2, 1)),
            Accepts(Ok(())),
            // Nothing is drafted any more: what is given up takes nothing away.
            Calls(GiveUp),
            Counts(Space(1, 2)),
            Sees(Holds(2, 1)),
            Calls(Save(true)),
            Counts(Number(2)),
            // There is nothing more to save.
            Calls(Save(false)),
            On(Stop(left)),
            Calls(Save(false)),
            Counts(Number(2)),
            Sees(Holds(2, 1)),
        ];
        check(rt.alloc(), &steps)?;
    }
    Ok(())
}

#[test]
fn what_is_given_up_is_gone(rt: HostRuntime) -> Result<(), Wrong> {
    let steps = [
        Calls(WriteFile(2, 1)),
        Sees(Holds(2, 1)),
        Calls(GiveUp),
        Calls(Save(false)),
        Sees(Lacks(2)),
        Accepts(Ok(())),
        Commits(Ok(())),
        On(Stop(Left::New)),
        Sees(Lacks(2)),
    ];
    check(rt.alloc(), &steps)
}

#[test]
fn what_is_not_committed_is_gone(rt: HostRuntime) -> Result<(), Wrong> {
    let steps = [
        Calls(WriteFile(2, 1)),
        Accepts(Ok(())),
        On(Stop(Left::New)),
        Sees(Lacks(2)),
    ];
    check(rt.alloc(), &steps)
}

#[test]
fn too_few_clean_segments_are_made_more(rt: HostRuntime) -> Result<(), Wrong> {
    let steps = [
        Calls(FilesTo(50)),
        Counts(Clean(15)),
        Calls(WriteFile(50, 1)),
        Accepts(Ok(())),
        Calls(GiveUp),
        Sees(HoldsTo(51, 1)),
        Calls(Save(true)),
        On(Stop(Left::Old)),
        Sees(HoldsTo(51, 1)),
    ];
    check(rt.alloc(), &steps)
}

// Five files of 100 blocks and their inodes are more than memory has room for.
#[test]
fn early_writes_make_room_in_memory(rt: HostRuntime) -> Result<(), Wrong> {
    for left in [Left::Old, Left::New, Left::Bad] {
        let steps = [
            Calls(WriteFile(2, 100)),
            Accepts(Ok(())),
            Calls(WriteFile(3, 100)),
            Accepts(Ok(())),
            Calls(WriteFile(4, 100)),
            Accepts(Ok(())),
            Calls(WriteFile(5, 100)),
            Accepts(Ok(())),
            Calls(WriteFile(6, 100)),
            Accepts(Ok(())),
            Counts(Number(1)),
            Sees(HoldsTo(7, 100)),
            On(Stop(left)),
            Calls(Save(false)),
            Counts(Number(1)),
            Sees(Lacks(2)),
            Sees(Lacks(6)),
        ];
        check(rt.alloc(), &steps)?;
    }
    Ok(())
}

// With 16 clean segments nothing may be written early.
#[test]
fn a_commit_makes_room_in_memory(rt: HostRuntime) -> Result<(), Wrong> {
    let steps = [
        Calls(FilesTo(49)),
        Counts(Clean(16)),
        Counts(Number(48)),
        Calls(WriteFile(50, 100)),
        Accepts(Ok(())),
        Calls(WriteFile(51, 100)),
        Accepts(Ok(())),
        Calls(WriteFile(52, 100)),
        Accepts(Ok(())),
        Counts(Number(48)),
        Calls(WriteFile(53, 100)),
        Accepts(Ok(())),
        Calls(WriteFile(54, 100)),
        Accepts(Ok(())),
        Sees(Is(54, Kind::File, 1, 51_200)),
        On(Stop(Left::Old)),
        Sees(HoldsTo(49, 1)),
        Sees(Is(50, Kind::File, 1, 51_200)),
        Sees(Is(52, Kind::File, 1, 51_200)),
        Sees(Lacks(54)),
    ];
    check(rt.alloc(), &steps)
}

#[test]
fn a_failed_commit_halts_the_store(rt: HostRuntime) -> Result<(), Wrong> {
    let steps = [
        // The sync as the store is opened counts too.
        On(Fail(DeviceCall::Sync, 1)),
        Calls(WriteFile(2, 1)),
        Accepts(Ok(())),
        Commits(Err(LogFault::Halted)),
        // A halted store can't be read, as a write would; a file without a byte is made unread.
        Calls(Create(3, Kind::File)),
        Counts(Space(1, 3)),
        Accepts(Err(StoreFault::Log(LogFault::Halted))),
        Counts(Space(1, 2)),
        Commits(Err(LogFault::Halted)),
        On(Stop(Left::New)),
        Sees(Lacks(2)),
    ];
    check(rt.alloc(), &steps)
}
