//! A recorder over the volume: lines in numbered files, of which the oldest goes where there is no
//! space.
ghost use Rattle.pansuyog.specs.Serving.{BeginsRecorder, KeepsAllElse, KeepsRest, SavesLines, WritesLine};

use crate::handle::Handle;
use lfs_record::names::DAY_LEN;
use pansuyog_calls::access::Access;
use pansuyog_calls::recording;
use std::alloc::Global;

/// Begins to record: a file goes on until it has so many bytes, and so many files are kept at most, or
/// as many as there is space for where that is 0.
#[unsafe(no_mangle)]
pub extern "C" fn pansuyog_record_begin(
    alloc: Global,
    volume: &mut Handle,
    bytes: u32,
    files: u32,
) -> i32
    ensures begins { BeginsRecorder volume.old.value volume.new.value bytes files result }
    ensures rest { KeepsAllElse volume.old.value volume.new.value }
{
    let volume = volume.volume();
    recording::begin(
        alloc,
        &mut volume.fs,
        Access::ReadWrite,
        &mut volume.recorder,
        bytes,
        files,
    )
}

/// Writes a line of a day, as `2026-11-29`, and a newline by one write.
#[unsafe(no_mangle)]
pub extern "C" fn pansuyog_record_line(
    alloc: Global,
    volume: &mut Handle,
    day: &[u8; DAY_LEN],
    line: &[u8],
) -> i32
    ensures writes { WritesLine volume.old.value volume.new.value day.now line.now result }
    ensures rest { KeepsAllElse volume.old.value volume.new.value }
{
    let volume = volume.volume();
    recording::line(
        alloc,
        &mut volume.fs,
        Access::ReadWrite,
        &mut volume.recorder,
        day,
        line,
    )
}

/// Saves all lines so far: once the orders that wait behind `0` are carried out, no stop takes them
/// away.
#[unsafe(no_mangle)]
pub extern "C" fn pansuyog_record_save(volume: &mut Handle) -> i32
    ensures saves { SavesLines volume.old.value volume.new.value result }
    ensures rest { KeepsRest volume.old.value volume.new.value }
{
    let volume = volume.volume();
    recording::save(&mut volume.fs, Access::ReadWrite, &volume.recorder)
}
