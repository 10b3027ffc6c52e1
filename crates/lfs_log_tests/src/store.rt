//! Reads of a draft over an empty volume, and changes in it that take the place of others.
use crate::store_steps::Call::{Create, Remove, SetLen, SetLinks, Write, WriteBlock, WriteFile};
use crate::store_steps::Look::{Byte, Bytes, Is, Lacks, Reads};
use crate::store_steps::Step::{Accepts, Calls, Sees};
use crate::store_steps::{FILE_2, check, file_of};
use crate::volume::Wrong;
use lfs_model::Kind::File;
use lfs_store::Draft;
use std::alloc::{AllocError, Global};

/// A draft in which file 2 is longer by a later change, and a block of it has other bytes.
fn redrafted(alloc: Global) -> Result<Draft, AllocError> {
    let mut draft = Draft::new(alloc, 4, 4)?;
    draft.put_header(FILE_2, file_of(1, 512))?;
    draft.put_block(FILE_2, 0, &[7; 512])?;
    draft.put_block(FILE_2, 1, &[0; 512])?;
    draft.put_block(FILE_2, 0, &[8; 512])?;
    draft.put_header(FILE_2, file_of(1, 1_024))?;
    Ok(draft)
}

/// Whether a draft has one header and two blocks, those of the later changes.
fn has_later(draft: &Draft) -> bool {
    let mut bytes = [255; 512];
    draft.changes.headers.len() == 1
        && draft.header(FILE_2) == Some(Some(file_of(1, 1_024)))
        && draft.changes.blocks.len() == 2
        && draft.block(FILE_2, 0, &mut bytes) == Some(true)
        && bytes == [8; 512]
}

#[test]
fn a_later_change_takes_the_place(rt: HostRuntime) -> Result<(), AllocError> {
    let draft = redrafted(rt.alloc())?;
    assert!(rt; has_later(&draft));
    Ok(())
}

#[test]
fn reads_see_the_draft(rt: HostRuntime) -> Result<(), Wrong> {
    let steps = [
        Calls(Create(2, File)),
        Calls(WriteBlock(0, 0, 7)),
        Calls(WriteBlock(512, 1, 0)),
        Calls(WriteBlock(1_024, 0, 8)),
        Sees(Is(2, File, 1, 1_024)),
        Sees(Reads(0, 8)),
        Sees(Reads(1, 0)),
        Sees(Bytes(510, [8, 8, 0, 0])),
        Accepts(Ok(())),
        Sees(Is(2, File, 1, 1_024)),
        Sees(Reads(0, 8)),
        Sees(Reads(1, 0)),
    ];
    check(rt.alloc(), &steps)
}

#[test]
fn reads_see_what_is_lost(rt: HostRuntime) -> Result<(), Wrong> {
    let steps = [
        Calls(WriteFile(2, 2)),
        Accepts(Ok(())),
        Calls(SetLen(1_024, 512)),
        Sees(Is(2, File, 1, 512)),
        Sees(Reads(0, 7)),
        Sees(Reads(1, 0)),
        // A write into a block that was lost is laid over zeros.
        Calls(Write(512, 1_023, 1, 9)),
        Sees(Is(2, File, 1, 1_024)),
        Sees(Byte(1_022, Some(0))),
        Sees(Byte(1_023, Some(9))),
        Calls(SetLinks(1_024, 0)),
        Sees(Is(2, File, 0, 1_024)),
        Sees(Reads(0, 7)),
        Sees(Reads(1, 7)),
        Calls(Remove),
        Sees(Lacks(2)),
        Sees(Reads(0, 0)),
        Sees(Reads(1, 0)),
    ];
    check(rt.alloc(), &steps)
}
