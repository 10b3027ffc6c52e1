//! Bytes written to a file and cut off it, over an empty volume.
use crate::store_steps::Call::{SetLen, Write};
use crate::store_steps::Look::{Byte, Is};
use crate::store_steps::Step::{Accepts, Calls, Sees};
use crate::store_steps::check;
use crate::volume::Wrong;
use lfs_model::Kind::File;

#[test]
fn bytes_over_block_edges(rt: HostRuntime) -> Result<(), Wrong> {
    let steps = [
        Calls(Write(0, 500, 600, 7)),
        Accepts(Ok(())),
        Calls(Write(1_100, 510, 4, 8)),
        Accepts(Ok(())),
        Sees(Byte(499, Some(0))),
        Sees(Byte(509, Some(7))),
        Sees(Byte(510, Some(8))),
        Sees(Byte(513, Some(8))),
        Sees(Byte(1_099, Some(7))),
        Sees(Byte(1_100, Some(0))),
        Sees(Is(2, File, 1, 1_100)),
    ];
    check(rt.alloc(), &steps)
}

#[test]
fn a_gap_is_not_stored(rt: HostRuntime) -> Result<(), Wrong> {
    let steps = [
        Calls(Write(0, 0, 10, 7)),
        Accepts(Ok(())),
        Calls(Write(10, 2_048, 512, 8)),
        Accepts(Ok(())),
        Sees(Byte(9, Some(7))),
        Sees(Byte(10, Some(0))),
        Sees(Byte(512, None)),
        Sees(Byte(2_047, None)),
        Sees(Byte(2_048, Some(8))),
        Sees(Byte(2_559, Some(8))),
        Sees(Is(2, File, 1, 2_560)),
    ];
    check(rt.alloc(), &steps)
}

#[test]
fn a_cut_within_a_block(rt: HostRuntime) -> Result<(), Wrong> {
    let steps = [
        Calls(Write(0, 0, 1_200, 7)),
        Accepts(Ok(())),
        Calls(SetLen(1_200, 600)),
        Sees(Byte(0, Some(7))),
        Sees(Byte(511, Some(7))),
        Sees(Byte(512, Some(7))),
        Sees(Byte(599, Some(7))),
        Sees(Byte(600, Some(0))),
        Sees(Byte(1_024, None)),
        Sees(Is(2, File, 1, 600)),
    ];
    check(rt.alloc(), &steps)
}

#[test]
fn a_cut_at_an_edge(rt: HostRuntime) -> Result<(), Wrong> {
    let steps = [
        Calls(Write(0, 0, 1_200, 7)),
        Accepts(Ok(())),
        Calls(SetLen(1_200, 512)),
        Sees(Byte(0, Some(7))),
        Sees(Byte(511, Some(7))),
        Sees(Byte(512, None)),
        Sees(Byte(1_023, None)),
        Sees(Byte(1_024, None)),
        Sees(Byte(2_000, None)),
        Sees(Is(2, File, 1, 512)),
    ];
    check(rt.alloc(), &steps)
}
