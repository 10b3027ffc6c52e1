//! Calls that change names (POSIX.1-2017: mkdir, link, symlink, unlink, rmdir, rename), and the one
//! by which a directory takes longer ones.
ghost use Rattle.lfs_model.specs.Call.{Mkdir, LinkTo, Symlink, Unlink, Rmdir, Rename, Widen};
ghost use Rattle.pansuyog_file.specs.Serving.{KeepsRest, ServesChange};

use crate::handle::Handle;
use pansuyog_calls::names;

/// Makes an empty directory.
#[unsafe(no_mangle)]
pub extern "C" fn pansuyog_file_mkdir(volume: &mut Handle, path: &[u8]) -> i32
    ensures serves { ServesChange volume.old.value volume.new.value (Mkdir path.now) result }
    ensures rest { KeepsRest volume.old.value volume.new.value }
{
    let volume = &mut volume.volume().inner;
    names::mkdir(&mut volume.fs, volume.access, path)
}

/// Gives an object a further name.
#[unsafe(no_mangle)]
pub extern "C" fn pansuyog_file_link(volume: &mut Handle, from: &[u8], to: &[u8]) -> i32
    ensures serves { ServesChange volume.old.value volume.new.value (LinkTo from.now to.now) result }
    ensures rest { KeepsRest volume.old.value volume.new.value }
{
    let volume = &mut volume.volume().inner;
    names::link(&mut volume.fs, volume.access, from, to)
}

/// Makes a symbolic link with a text.
#[unsafe(no_mangle)]
pub extern "C" fn pansuyog_file_symlink(volume: &mut Handle, text: &[u8], path: &[u8]) -> i32
    ensures serves { ServesChange volume.old.value volume.new.value (Symlink text.now path.now) result }
    ensures rest { KeepsRest volume.old.value volume.new.value }
{
    let volume = &mut volume.volume().inner;
    names::symlink(&mut volume.fs, volume.access, text, path)
}

/// Takes the name of a file or a link away.
#[unsafe(no_mangle)]
pub extern "C" fn pansuyog_file_unlink(volume: &mut Handle, path: &[u8]) -> i32
    ensures serves { ServesChange volume.old.value volume.new.value (Unlink path.now) result }
    ensures rest { KeepsRest volume.old.value volume.new.value }
{
    let volume = &mut volume.volume().inner;
    names::unlink(&mut volume.fs, volume.access, path)
}

/// Takes an empty directory away.
#[unsafe(no_mangle)]
pub extern "C" fn pansuyog_file_rmdir(volume: &mut Handle, path: &[u8]) -> i32
    ensures serves { ServesChange volume.old.value volume.new.value (Rmdir path.now) result }
    ensures rest { KeepsRest volume.old.value volume.new.value }
{
    let volume = &mut volume.volume().inner;
    names::rmdir(&mut volume.fs, volume.access, path)
}

/// Gives an object another name, in one change.
#[unsafe(no_mangle)]
pub extern "C" fn pansuyog_file_rename(volume: &mut Handle, from: &[u8], to: &[u8]) -> i32
    ensures serves { ServesChange volume.old.value volume.new.value (Rename from.now to.now) result }
    ensures rest { KeepsRest volume.old.value volume.new.value }
{
    let volume = &mut volume.volume().inner;
    names::rename(&mut volume.fs, volume.access, from, to)
}

/// Gives a directory the form that takes names of up to 123 bytes.
#[unsafe(no_mangle)]
pub extern "C" fn pansuyog_file_widen(volume: &mut Handle, path: &[u8]) -> i32
    ensures serves { ServesChange volume.old.value volume.new.value (Widen path.now) result }
    ensures rest { KeepsRest volume.old.value volume.new.value }
{
    let volume = &mut volume.volume().inner;
    names::widen(&mut volume.fs, volume.access, path)
}
