//! Blocks that are counted over an empty volume of 64 segments.
use crate::store_steps::Call::{Create, SetLen, WriteBlock};
use crate::store_steps::Count::Measured;
use crate::store_steps::Step::{Accepts, Calls, Counts};
use crate::store_steps::check;
use crate::volume::Wrong;
use lfs_model::Kind::File;

#[test]
fn a_file_in_the_draft(rt: HostRuntime) -> Result<(), Wrong> {
    let steps = [
        Counts(Measured(0, 16_624, 0, 0)),
        Calls(Create(2, File)),
        Calls(WriteBlock(0, 16_623, 7)),
        Calls(WriteBlock(8_511_488, 0, 7)),
        Calls(WriteBlock(8_511_488, 111, 7)),
        Calls(WriteBlock(8_511_488, 112, 7)),
        Calls(WriteBlock(8_511_488, 240, 7)),
        // The inode, the single leaf, the first and the last leaf below the double root, and that
        // root.
        Counts(Measured(0, 16_624, 5, 5)),
        // With a block in the range: the inode, the single leaf and the double root.
        Counts(Measured(111, 240, 2, 3)),
        Calls(WriteBlock(8_511_488, 112, 0)),
        Counts(Measured(111, 240, 1, 2)),
    ];
    check(rt.alloc(), &steps)
}

#[test]
fn a_file_in_the_log(rt: HostRuntime) -> Result<(), Wrong> {
    let steps = [
        // A file is there before it has blocks below leaves.
        Calls(Create(2, File)),
        Accepts(Ok(())),
        Calls(SetLen(0, 8_511_488)),
        Calls(WriteBlock(8_511_488, 0, 7)),
        Calls(WriteBlock(8_511_488, 112, 7)),
        Calls(WriteBlock(8_511_488, 239, 7)),
        Calls(WriteBlock(8_511_488, 240, 7)),
        Accepts(Ok(())),
        Counts(Measured(0, 16_624, 4, 4)),
        // Its blocks go from 239 on.
        Calls(SetLen(8_511_488, 122_368)),
        Counts(Measured(0, 240, 2, 2)),
    ];
    check(rt.alloc(), &steps)
}
