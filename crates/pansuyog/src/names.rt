//! Calls that change names (POSIX.1-2017: mkdir, link, symlink, unlink, rmdir, rename), and the one
//! by which a directory takes longer ones.
ghost use Rattle.lfs_model.specs.Call.{Mkdir, LinkTo, Symlink, Unlink, Rmdir, Rename, Widen};
ghost use Rattle.pansuyog.specs.Serving.{KeepsRest, ServesCall};

use crate::handle::Handle;
use pansuyog_calls::access::Access;
use pansuyog_calls::names;

/// Makes an empty directory.
#[unsafe(no_mangle)]
pub extern "C" fn pansuyog_mkdir(volume: &mut Handle, path: &[u8]) -> i32
    ensures serves { ServesCall volume.old.value volume.new.value (Mkdir path.now) result }
    ensures rest { KeepsRest volume.old.value volume.new.value }
{
    names::mkdir(&mut volume.volume().fs, Access::ReadWrite, path)
}

/// Gives an object a further name.
#[unsafe(no_mangle)]
pub extern "C" fn pansuyog_link(volume: &mut Handle, from: &[u8], to: &[u8]) -> i32
    ensures serves { ServesCall volume.old.value volume.new.value (LinkTo from.now to.now) result }
    ensures rest { KeepsRest volume.old.value volume.new.value }
{
    names::link(&mut volume.volume().fs, Access::ReadWrite, from, to)
}

/// Makes a symbolic link with a text.
#[unsafe(no_mangle)]
pub extern "C" fn pansuyog_symlink(volume: &mut Handle, text: &[u8], path: &[u8]) -> i32
    ensures serves { ServesCall volume.old.value volume.new.value (Symlink text.now path.now) result }
    ensures rest { KeepsRest volume.old.value volume.new.value }
{
    names::symlink(&mut volume.volume().fs, Access::ReadWrite, text, path)
}

/// Takes the name of a file or a link away.
#[unsafe(no_mangle)]
pub extern "C" fn pansuyog_unlink(volume: &mut Handle, path: &[u8]) -> i32
    ensures serves { ServesCall volume.old.value volume.new.value (Unlink path.now) result }
    ensures rest { KeepsRest volume.old.value volume.new.value }
{
    names::unlink(&mut volume.volume().fs, Access::ReadWrite, path)
}

/// Takes an empty directory away.
#[unsafe(no_mangle)]
pub extern "C" fn pansuyog_rmdir(volume: &mut Handle, path: &[u8]) -> i32
    ensures serves { ServesCall volume.old.value volume.new.value (Rmdir path.now) result }
    ensures rest { KeepsRest volume.old.value volume.new.value }
{
    names::rmdir(&mut volume.volume().fs, Access::ReadWrite, path)
}

/// Gives an object another name, in one change.
#[unsafe(no_mangle)]
pub extern "C" fn pansuyog_rename(volume: &mut Handle, from: &[u8], to: &[u8]) -> i32
    ensures serves { ServesCall volume.old.value volume.new.value (Rename from.now to.now) result }
    ensures rest { KeepsRest volume.old.value volume.new.value }
{
    names::rename(&mut volume.volume().fs, Access::ReadWrite, from, to)
}

/// Gives a directory the form that takes names of up to 123 bytes.
#[unsafe(no_mangle)]
pub extern "C" fn pansuyog_widen(volume: &mut Handle, path: &[u8]) -> i32
    ensures serves { ServesCall volume.old.value volume.new.value (Widen path.now) result }
    ensures rest { KeepsRest volume.old.value volume.new.value }
{
    names::widen(&mut volume.volume().fs, Access::ReadWrite, path)
}
