//! Calls on open files (POSIX.1-2017: open, close, pread, pwrite, ftruncate).
ghost use Rattle.std.specs.Prelude.{◌-◌, ◌^◌, length, min};
ghost use Rattle.lfs_model.specs.Call.{Open, Create, Close, Pread, Pwrite, Truncate};
ghost use Rattle.pansuyog.specs.Serving.{KeepsRest, ServesBytes, ServesCall};

use crate::handle::Handle;
use pansuyog_calls::access::Access;
use pansuyog_calls::files;

/// Opens the file of a path: a handle on it.
#[unsafe(no_mangle)]
pub extern "C" fn pansuyog_open(volume: &mut Handle, path: &[u8]) -> i32
    ensures serves { ServesCall volume.old.value volume.new.value (Open path.now) result }
    ensures rest { KeepsRest volume.old.value volume.new.value }
{
    files::open(&mut volume.volume().fs, path)
}

/// Makes an empty file: a handle on it.
#[unsafe(no_mangle)]
pub extern "C" fn pansuyog_create(volume: &mut Handle, path: &[u8]) -> i32
    ensures serves { ServesCall volume.old.value volume.new.value (Create path.now) result }
    ensures rest { KeepsRest volume.old.value volume.new.value }
{
    files::create(&mut volume.volume().fs, Access::ReadWrite, path)
}

/// Gives up the handle of a file.
#[unsafe(no_mangle)]
pub extern "C" fn pansuyog_close(volume: &mut Handle, file: u32) -> i32
    ensures serves { ServesCall volume.old.value volume.new.value (Close file) result }
    ensures rest { KeepsRest volume.old.value volume.new.value }
{
    files::close(&mut volume.volume().fs, file)
}

/// Reads the bytes of a file from an offset on: their number.
#[unsafe(no_mangle)]
pub extern "C" fn pansuyog_pread(volume: &mut Handle, file: u32, offset: u64, out: &mut [u8]) -> i32
    ensures serves { ServesBytes volume.old.value volume.new.value
        (Pread file offset (min (length out.old) (2 ^ 32 - 1))) result out.old out.new }
    ensures rest { KeepsRest volume.old.value volume.new.value }
{
    files::pread(&mut volume.volume().fs, file, offset, out)
}

/// Writes bytes into a file at an offset, all or none: their number.
#[unsafe(no_mangle)]
pub extern "C" fn pansuyog_pwrite(volume: &mut Handle, file: u32, offset: u64, bytes: &[u8]) -> i32
    ensures serves { ServesCall volume.old.value volume.new.value (Pwrite file offset bytes.now)
        result }
    ensures rest { KeepsRest volume.old.value volume.new.value }
{
    files::pwrite(
        &mut volume.volume().fs,
        Access::ReadWrite,
        file,
        offset,
        bytes,
    )
}

/// Cuts a file to a length, or makes it longer with zeros.
#[unsafe(no_mangle)]
pub extern "C" fn pansuyog_truncate(volume: &mut Handle, file: u32, len: u64) -> i32
    ensures serves { ServesCall volume.old.value volume.new.value (Truncate file len) result }
    ensures rest { KeepsRest volume.old.value volume.new.value }
{
    files::truncate(&mut volume.volume().fs, Access::ReadWrite, file, len)
}
