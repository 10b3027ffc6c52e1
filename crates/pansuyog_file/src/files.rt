//! Calls on open files (POSIX.1-2017: open, close, pread, pwrite, ftruncate).
ghost use Rattle.std.specs.Prelude.{◌-◌, ◌^◌, length, min};
ghost use Rattle.lfs_model.specs.Call.{Open, Create, Close, Pread, Pwrite, Truncate};
ghost use Rattle.pansuyog_file.specs.Serving.{KeepsRest, ServesBytes, ServesCall, ServesChange};

use crate::handle::Handle;
use pansuyog_calls::files;

/// Opens the file of a path: a handle on it.
#[unsafe(no_mangle)]
pub extern "C" fn pansuyog_file_open(volume: &mut Handle, path: &[u8]) -> i32
    ensures serves { ServesCall volume.old.value volume.new.value (Open path.now) result }
    ensures rest { KeepsRest volume.old.value volume.new.value }
{
    files::open(&mut volume.volume().inner.fs, path)
}

/// Makes an empty file: a handle on it.
#[unsafe(no_mangle)]
pub extern "C" fn pansuyog_file_create(volume: &mut Handle, path: &[u8]) -> i32
    ensures serves { ServesChange volume.old.value volume.new.value (Create path.now) result }
    ensures rest { KeepsRest volume.old.value volume.new.value }
{
    let volume = &mut volume.volume().inner;
    files::create(&mut volume.fs, volume.access, path)
}

/// Gives up the handle of a file.
#[unsafe(no_mangle)]
pub extern "C" fn pansuyog_file_close(volume: &mut Handle, file: u32) -> i32
    ensures serves { ServesCall volume.old.value volume.new.value (Close file) result }
    ensures rest { KeepsRest volume.old.value volume.new.value }
{
    files::close(&mut volume.volume().inner.fs, file)
}

/// Reads the bytes of a file from an offset on: their number.
#[unsafe(no_mangle)]
pub extern "C" fn pansuyog_file_pread(
    volume: &mut Handle,
    file: u32,
    offset: u64,
    out: &mut [u8],
) -> i32
    ensures serves { ServesBytes volume.old.value volume.new.value
        (Pread file offset (min (length out.old) (2 ^ 32 - 1))) result out.old out.new }
    ensures rest { KeepsRest volume.old.value volume.new.value }
{
    files::pread(&mut volume.volume().inner.fs, file, offset, out)
}

/// Writes bytes into a file at an offset, all or none: their number.
#[unsafe(no_mangle)]
pub extern "C" fn pansuyog_file_pwrite(
    volume: &mut Handle,
    file: u32,
    offset: u64,
    bytes: &[u8],
) -> i32
    ensures serves { ServesChange volume.old.value volume.new.value (Pwrite file offset bytes.now)
        result }
    ensures rest { KeepsRest volume.old.value volume.new.value }
{
    let volume = &mut volume.volume().inner;
    files::pwrite(&mut volume.fs, volume.access, file, offset, bytes)
}

/// Cuts a file to a length, or makes it longer with zeros.
#[unsafe(no_mangle)]
pub extern "C" fn pansuyog_file_truncate(volume: &mut Handle, file: u32, len: u64) -> i32
    ensures serves { ServesChange volume.old.value volume.new.value (Truncate file len) result }
    ensures rest { KeepsRest volume.old.value volume.new.value }
{
    let volume = &mut volume.volume().inner;
    files::truncate(&mut volume.fs, volume.access, file, len)
}
