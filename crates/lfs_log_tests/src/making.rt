//! Files made, relinked and removed over an empty volume.
use crate::store_steps::Call::{Create, CreateLink, Remove, SetLinks};
use crate::store_steps::Count::LeastFree;
use crate::store_steps::Look::{Is, Lacks};
use crate::store_steps::Step::{Accepts, Calls, Commits, Counts, Sees};
use crate::store_steps::check;
use crate::volume::Wrong;
use lfs_model::Kind::{Directory, File, Link};

#[test]
fn files_are_made(rt: HostRuntime) -> Result<(), Wrong> {
    let steps = [
        Counts(LeastFree(2)),
        Calls(Create(2, File)),
        Calls(Create(3, Directory)),
        Calls(CreateLink(4, 9)),
        Accepts(Ok(())),
        Sees(Is(2, File, 1, 0)),
        Sees(Is(3, Directory, 2, 0)),
        Sees(Is(4, Link, 1, 9)),
        Counts(LeastFree(5)),
    ];
    check(rt.alloc(), &steps)
}

#[test]
fn links_change(rt: HostRuntime) -> Result<(), Wrong> {
    let steps = [
        Calls(Create(2, File)),
        Accepts(Ok(())),
        Calls(SetLinks(0, 3)),
        Accepts(Ok(())),
        Sees(Is(2, File, 3, 0)),
        Calls(SetLinks(0, 0)),
        Accepts(Ok(())),
        Sees(Is(2, File, 0, 0)),
        Commits(Ok(())),
        Sees(Is(2, File, 0, 0)),
    ];
    check(rt.alloc(), &steps)
}

#[test]
fn a_removed_file_is_gone(rt: HostRuntime) -> Result<(), Wrong> {
    let steps = [
        Calls(Create(2, File)),
        Accepts(Ok(())),
        Calls(Remove),
        Sees(Lacks(2)),
        Accepts(Ok(())),
        Sees(Lacks(2)),
        Counts(LeastFree(2)),
    ];
    check(rt.alloc(), &steps)
}
