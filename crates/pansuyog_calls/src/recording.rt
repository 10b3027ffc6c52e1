//! A recorder over a mounted volume: lines in numbered files, of which the oldest goes where there is
//! no space.
ghost use Rattle.std.specs.Prelude.{◌≡◌};
ghost use Rattle.lfs_volume.specs.Found.{by_volume};
ghost use Rattle.lfs_fs.specs.Seen.{seen};
ghost use Rattle.lfs_record.specs.Recording.{Closes};
ghost use Rattle.pansuyog_calls.specs.Recording.{Begins, BeginsIn, SavesBy, SavesIn, WritesBy, WritesIn, present_of};

use crate::access::Access;
use crate::codes::{INVAL, NOT_MOUNTED, READ_ONLY, code_of, done};
use lfs_device::SectorDevice;
use lfs_fs::{Fs, FsError, InVolume};
use lfs_record::names::DAY_LEN;
use lfs_record::{Present, Recorder};
use std::alloc::Global;

// The file that a recorder has open, if there is one.
fn present_of(recorder: Option<Recorder>) -> Option<Present>
    ensures { result ≡ present_of recorder }
{
    match recorder {
        Some(recorder) => recorder.present,
        None => None,
    }
}

// Closes what a recorder has open.
fn close_present<D: SectorDevice>(
    fs: &mut Fs<InVolume<D>>,
    recorder: Option<Recorder>,
) -> Result<(), FsError>
    ensures { Closes (by_volume D.state) (seen fs.old) (seen fs.new) (present_of recorder) result }
{
    match present_of(recorder) {
        Some(present) => fs.close(present.handle),
        None => Ok(()),
    }
}

// Begins a recorder, in the place of one that was there.
fn begin_on<D: SectorDevice>(
    alloc: Global,
    fs: &mut Fs<InVolume<D>>,
    recorder: &mut Option<Recorder>,
    bytes: u32,
    files: u32,
) -> i32
    ensures { Begins (by_volume D.state) fs.old fs.new recorder.old recorder.new bytes files result }
{
    let _closed = close_present(fs, recorder.take());
    match Recorder::begin(alloc, fs, bytes, files) {
        Ok(begun) => {
            *recorder = Some(begun);
            0
        }
        Err(fault) => code_of(fault),
    }
}

/// Begins to record: a file goes on until it has so many bytes, and so many files are kept at most, or
/// as many as there is space for where that is 0. What a recorder before has open is closed.
pub fn begin<D: SectorDevice>(
    alloc: Global,
    fs: &mut Option<Fs<InVolume<D>>>,
    access: Access,
    recorder: &mut Option<Recorder>,
    bytes: u32,
    files: u32,
) -> i32
    ensures { BeginsIn (by_volume D.state) access fs.old fs.new recorder.old recorder.new
        bytes files result }
{
    match (fs, access) {
        (Some(fs), Access::ReadWrite) => begin_on(alloc, fs, recorder, bytes, files),
        (Some(_), Access::ReadOnly) => READ_ONLY,
        (None, _) => NOT_MOUNTED,
    }
}

// Writes a line, where a recorder has begun.
fn line_on<D: SectorDevice>(
    alloc: Global,
    fs: &mut Fs<InVolume<D>>,
    recorder: &mut Option<Recorder>,
    day: &[u8; DAY_LEN],
    line: &[u8],
) -> i32
    ensures { WritesBy (by_volume D.state) recorder.old recorder.new day.now line.now result
        fs.old fs.new }
{
    match recorder {
        Some(recorder) => done(recorder.line(alloc, fs, day, line)),
        None => INVAL,
    }
}

/// Writes a line of a day and a newline by one write. `INVAL` where no recorder has begun.
pub fn line<D: SectorDevice>(
    alloc: Global,
    fs: &mut Option<Fs<InVolume<D>>>,
    access: Access,
    recorder: &mut Option<Recorder>,
    day: &[u8; DAY_LEN],
    line: &[u8],
) -> i32
    ensures { WritesIn (by_volume D.state) access fs.old fs.new recorder.old recorder.new
        day.now line.now result }
{
    match (fs, access) {
        (Some(fs), Access::ReadWrite) => line_on(alloc, fs, recorder, day, line),
        (Some(_), Access::ReadOnly) => READ_ONLY,
        (None, _) => NOT_MOUNTED,
    }
}

// Saves all lines so far, where a recorder has begun.
fn save_on<D: SectorDevice>(fs: &mut Fs<InVolume<D>>, recorder: &Option<Recorder>) -> i32
    ensures { SavesBy (by_volume D.state) recorder.now result fs.old fs.new }
{
    match recorder {
        Some(recorder) => done(recorder.save(fs)),
        None => INVAL,
    }
}

/// Saves all lines so far: behind `0` no stop takes them away. `INVAL` where no recorder has begun.
pub fn save<D: SectorDevice>(
    fs: &mut Option<Fs<InVolume<D>>>,
    access: Access,
    recorder: &Option<Recorder>,
) -> i32
    ensures { SavesIn (by_volume D.state) access fs.old fs.new recorder.now result }
{
    match (fs, access) {
        (Some(fs), Access::ReadWrite) => save_on(fs, recorder),
        (Some(_), Access::ReadOnly) => READ_ONLY,
        (None, _) => NOT_MOUNTED,
    }
}
