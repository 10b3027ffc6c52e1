//! Calls that change names (POSIX.1-2017: mkdir, link, symlink, unlink, rmdir, rename), and the one
//! by which a directory takes longer ones.
ghost use Rattle.lfs_model.specs.Call.{Mkdir, LinkTo, Symlink, Unlink, Rmdir, Rename, Widen};
ghost use Rattle.lfs_volume.specs.Found.{by_volume};
ghost use Rattle.pansuyog_calls.specs.Serving.{ServesChange};

use crate::access::Access;
use crate::codes::{NOT_MOUNTED, READ_ONLY, done};
use lfs_device::SectorDevice;
use lfs_fs::{Fs, InVolume};

/// Makes an empty directory.
pub fn mkdir<D: SectorDevice>(fs: &mut Option<Fs<InVolume<D>>>, access: Access, path: &[u8]) -> i32
    ensures serves { ServesChange (by_volume D.state) access fs.old fs.new (Mkdir path.now) result }
{
    match (fs, access) {
        (Some(fs), Access::ReadWrite) => done(fs.mkdir(path)),
        (Some(_), Access::ReadOnly) => READ_ONLY,
        (None, _) => NOT_MOUNTED,
    }
}

/// Gives an object a further name.
pub fn link<D: SectorDevice>(
    fs: &mut Option<Fs<InVolume<D>>>,
    access: Access,
    from: &[u8],
    to: &[u8],
) -> i32
    ensures serves { ServesChange (by_volume D.state) access fs.old fs.new (LinkTo from.now to.now)
        result }
{
    match (fs, access) {
        (Some(fs), Access::ReadWrite) => done(fs.link(from, to)),
        (Some(_), Access::ReadOnly) => READ_ONLY,
        (None, _) => NOT_MOUNTED,
    }
}

/// Makes a symbolic link with a text.
pub fn symlink<D: SectorDevice>(
    fs: &mut Option<Fs<InVolume<D>>>,
    access: Access,
    text: &[u8],
    path: &[u8],
) -> i32
    ensures serves { ServesChange (by_volume D.state) access fs.old fs.new
        (Symlink text.now path.now) result }
{
    match (fs, access) {
        (Some(fs), Access::ReadWrite) => done(fs.symlink(text, path)),
        (Some(_), Access::ReadOnly) => READ_ONLY,
        (None, _) => NOT_MOUNTED,
    }
}

/// Takes the name of a file or a link away.
pub fn unlink<D: SectorDevice>(fs: &mut Option<Fs<InVolume<D>>>, access: Access, path: &[u8]) -> i32
    ensures serves { ServesChange (by_volume D.state) access fs.old fs.new (Unlink path.now) result }
{
    match (fs, access) {
        (Some(fs), Access::ReadWrite) => done(fs.unlink(path)),
        (Some(_), Access::ReadOnly) => READ_ONLY,
        (None, _) => NOT_MOUNTED,
    }
}

/// Takes an empty directory away.
pub fn rmdir<D: SectorDevice>(fs: &mut Option<Fs<InVolume<D>>>, access: Access, path: &[u8]) -> i32
    ensures serves { ServesChange (by_volume D.state) access fs.old fs.new (Rmdir path.now) result }
{
    match (fs, access) {
        (Some(fs), Access::ReadWrite) => done(fs.rmdir(path)),
        (Some(_), Access::ReadOnly) => READ_ONLY,
        (None, _) => NOT_MOUNTED,
    }
}

/// Gives an object another name, in one change.
pub fn rename<D: SectorDevice>(
    fs: &mut Option<Fs<InVolume<D>>>,
    access: Access,
    from: &[u8],
    to: &[u8],
) -> i32
    ensures serves { ServesChange (by_volume D.state) access fs.old fs.new (Rename from.now to.now)
        result }
{
    match (fs, access) {
        (Some(fs), Access::ReadWrite) => done(fs.rename(from, to)),
        (Some(_), Access::ReadOnly) => READ_ONLY,
        (None, _) => NOT_MOUNTED,
    }
}

/// Gives a directory the form that takes names of up to 123 bytes.
pub fn widen<D: SectorDevice>(fs: &mut Option<Fs<InVolume<D>>>, access: Access, path: &[u8]) -> i32
    ensures serves { ServesChange (by_volume D.state) access fs.old fs.new (Widen path.now) result }
{
    match (fs, access) {
        (Some(fs), Access::ReadWrite) => done(fs.widen(path)),
        (Some(_), Access::ReadOnly) => READ_ONLY,
        (None, _) => NOT_MOUNTED,
    }
}
