//! Calls on open files (POSIX.1-2017: open, close, pread, pwrite, ftruncate).
ghost use Rattle.std.specs.Prelude.{◌-◌, ◌^◌, length, min};
ghost use Rattle.lfs_volume.specs.Found.{by_volume};
ghost use Rattle.lfs_model.specs.Call.{Open, Create, Close, Pread, Pwrite, Truncate};
ghost use Rattle.pansuyog_calls.specs.Serving.{Answers, ServesBytes, ServesCall, ServesChange, TellsBytes};

use crate::access::Access;
use crate::bytes::put;
use crate::codes::{NOT_MOUNTED, READ_ONLY, code_of, counted, done};
use lfs_device::SectorDevice;
use lfs_fs::{Fs, InVolume};

/// Opens the file of a path: a handle on it.
pub fn open<D: SectorDevice>(fs: &mut Option<Fs<InVolume<D>>>, path: &[u8]) -> i32
    ensures serves { ServesCall (by_volume D.state) fs.old fs.new (Open path.now) result }
{
    match fs {
        Some(fs) => counted(fs.open(path)),
        None => NOT_MOUNTED,
    }
}

/// Makes an empty file: a handle on it.
pub fn create<D: SectorDevice>(fs: &mut Option<Fs<InVolume<D>>>, access: Access, path: &[u8]) -> i32
    ensures serves { ServesChange (by_volume D.state) access fs.old fs.new (Create path.now) result }
{
    match (fs, access) {
        (Some(fs), Access::ReadWrite) => counted(fs.create(path)),
        (Some(_), Access::ReadOnly) => READ_ONLY,
        (None, _) => NOT_MOUNTED,
    }
}

/// Gives up the handle of a file.
pub fn close<D: SectorDevice>(fs: &mut Option<Fs<InVolume<D>>>, file: u32) -> i32
    ensures serves { ServesCall (by_volume D.state) fs.old fs.new (Close file) result }
{
    match fs {
        Some(fs) => done(fs.close(file)),
        None => NOT_MOUNTED,
    }
}

/// Reads a file into C's memory.
fn read<D: SectorDevice>(fs: &mut Fs<InVolume<D>>, file: u32, offset: u64, out: &mut [u8]) -> i32
    ensures { Answers (by_volume D.state) fs.old fs.new
        (Pread file offset (min (length out.old) (2 ^ 32 - 1)))
        (TellsBytes result out.old out.new) }
{
    let len = u32::try_from(out.len()).unwrap_or(u32::MAX);
    match fs.pread(file, offset, len) {
        Ok(bytes) => put(bytes.as_slice(), out),
        Err(fault) => code_of(fault),
    }
}

/// Reads the bytes of a file from an offset on: their number.
pub fn pread<D: SectorDevice>(
    fs: &mut Option<Fs<InVolume<D>>>,
    file: u32,
    offset: u64,
    out: &mut [u8],
) -> i32
    ensures serves { ServesBytes (by_volume D.state) fs.old fs.new
        (Pread file offset (min (length out.old) (2 ^ 32 - 1))) result out.old out.new }
{
    match fs {
        Some(fs) => read(fs, file, offset, out),
        None => NOT_MOUNTED,
    }
}

/// Writes bytes into a file at an offset, all or none: their number.
pub fn pwrite<D: SectorDevice>(
    fs: &mut Option<Fs<InVolume<D>>>,
    access: Access,
    file: u32,
    offset: u64,
    bytes: &[u8],
) -> i32
    ensures serves { ServesChange (by_volume D.state) access fs.old fs.new
        (Pwrite file offset bytes.now)
        result }
{
    match (fs, access) {
        (Some(fs), Access::ReadWrite) => counted(fs.pwrite(file, offset, bytes)),
        (Some(_), Access::ReadOnly) => READ_ONLY,
        (None, _) => NOT_MOUNTED,
    }
}

/// Cuts a file to a length, or makes it longer with zeros.
pub fn truncate<D: SectorDevice>(
    fs: &mut Option<Fs<InVolume<D>>>,
    access: Access,
    file: u32,
    len: u64,
) -> i32
    ensures serves { ServesChange (by_volume D.state) access fs.old fs.new (Truncate file len)
        result }
{
    match (fs, access) {
        (Some(fs), Access::ReadWrite) => done(fs.truncate(file, len)),
        (Some(_), Access::ReadOnly) => READ_ONLY,
        (None, _) => NOT_MOUNTED,
    }
}
