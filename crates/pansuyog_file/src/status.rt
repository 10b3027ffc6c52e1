//! What is told of an object and of the volume (POSIX.1-2017: stat, lstat, readlink).
ghost use Rattle.lfs_model.specs.Call.{StatOf, LstatOf, Readlink};
ghost use Rattle.pansuyog_file.specs.Serving.{KeepsRest, ServesBytes, ServesSpace, ServesStat};

use crate::handle::Handle;
use pansuyog_calls::rows::{Space, Stat};
use pansuyog_calls::status;

/// What is told of the object of a path.
#[unsafe(no_mangle)]
pub extern "C" fn pansuyog_file_stat(volume: &mut Handle, path: &[u8], out: &mut Stat) -> i32
    ensures serves { ServesStat volume.old.value volume.new.value (StatOf path.now) result
        out.old out.new }
    ensures rest { KeepsRest volume.old.value volume.new.value }
{
    status::stat(&mut volume.volume().inner.fs, path, out)
}

/// The same, where the last piece of the path may be a link that isn't followed.
#[unsafe(no_mangle)]
pub extern "C" fn pansuyog_file_lstat(volume: &mut Handle, path: &[u8], out: &mut Stat) -> i32
    ensures serves { ServesStat volume.old.value volume.new.value (LstatOf path.now) result
        out.old out.new }
    ensures rest { KeepsRest volume.old.value volume.new.value }
{
    status::lstat(&mut volume.volume().inner.fs, path, out)
}

/// The text of the link of a path, as much as there is room for: its whole length.
#[unsafe(no_mangle)]
pub extern "C" fn pansuyog_file_readlink(volume: &mut Handle, path: &[u8], out: &mut [u8]) -> i32
    ensures serves { ServesBytes volume.old.value volume.new.value (Readlink path.now) result
        out.old out.new }
    ensures rest { KeepsRest volume.old.value volume.new.value }
{
    status::readlink(&mut volume.volume().inner.fs, path, out)
}

/// What the tree needs, and the most that it may need.
#[unsafe(no_mangle)]
pub extern "C" fn pansuyog_file_space(volume: &mut Handle, out: &mut Space) -> i32
    ensures serves { ServesSpace volume.old.value volume.new.value result out.old out.new }
    ensures rest { KeepsRest volume.old.value volume.new.value }
{
    status::space(&mut volume.volume().inner.fs, out)
}
