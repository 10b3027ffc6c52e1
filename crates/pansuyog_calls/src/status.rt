//! What is told of an object and of the volume (POSIX.1-2017: stat, lstat, readlink).
ghost use Rattle.lfs_model.specs.Call as call;
ghost use Rattle.lfs_volume.specs.Found.{by_volume};
ghost use Rattle.lfs_model.specs.Call.{StatOf, LstatOf, Readlink, Status};
ghost use Rattle.std.specs.Prelude.{◌≡◌};
ghost use Rattle.lfs_fs.specs.Answers.{status_of};
ghost use Rattle.lfs_fs.specs.Seen.{answer_by};
ghost use Rattle.pansuyog_calls.specs.Codes.{code_of_kind};
ghost use Rattle.pansuyog_calls.specs.Serving.{Answers, ServesBytes, TellsBytes};
ghost use Rattle.pansuyog_calls.specs.Telling.{IsStat, ServesSpace, ServesStat, TellsSpace, TellsStat};

use crate::bytes::put;
use crate::codes::{NOT_MOUNTED, code_of};
use crate::rows::{Space, Stat};
use lfs_device::SectorDevice;
use lfs_fs::{Fs, FsError, InVolume};
use lfs_model::Kind;

/// The number of a kind.
pub(crate) fn kind_in_c(kind: Kind) -> u32
    ensures { result ≡ code_of_kind kind }
{
    match kind {
        Kind::File => 1,
        Kind::Directory => 2,
        Kind::Link => 3,
    }
}

/// What is told of an object, as C has it.
fn in_c(stat: lfs_fs::Stat) -> Stat
    ensures { IsStat stat result }
{
    Stat {
        size: stat.size,
        number: stat.number,
        kind: kind_in_c(stat.kind),
        links: stat.links,
    }
}

/// Tells C of an object by what a call found of it.
fn tell(found: Result<lfs_fs::Stat, FsError>, out: &mut Stat) -> i32
    ensures { TellsStat result out.old out.new
        (answer_by (λ stat. Status (status_of stat)) found) }
{
    match found {
        Ok(stat) => {
            *out = in_c(stat);
            0
        }
        Err(fault) => code_of(fault),
    }
}

/// What is told of the object of a path.
pub fn stat<D: SectorDevice>(fs: &mut Option<Fs<InVolume<D>>>, path: &[u8], out: &mut Stat) -> i32
    ensures serves { ServesStat (by_volume D.state) fs.old fs.new (StatOf path.now) result
        out.old out.new }
{
    match fs {
        Some(fs) => tell(fs.stat(path), out),
        None => NOT_MOUNTED,
    }
}

/// The same, where the last piece of the path may be a link that isn't followed.
pub fn lstat<D: SectorDevice>(fs: &mut Option<Fs<InVolume<D>>>, path: &[u8], out: &mut Stat) -> i32
    ensures serves { ServesStat (by_volume D.state) fs.old fs.new (LstatOf path.now) result
        out.old out.new }
{
    match fs {
        Some(fs) => tell(fs.lstat(path), out),
        None => NOT_MOUNTED,
    }
}

/// Reads the text of a link into C's memory.
fn read_link<D: SectorDevice>(fs: &mut Fs<InVolume<D>>, path: &[u8], out: &mut [u8]) -> i32
    ensures { Answers (by_volume D.state) fs.old fs.new (Readlink path.now)
        (TellsBytes result out.old out.new) }
{
    match fs.readlink(path) {
        Ok(text) => put(text.as_slice(), out),
        Err(fault) => code_of(fault),
    }
}

/// The text of the link of a path, as much as there is room for: its whole length.
pub fn readlink<D: SectorDevice>(
    fs: &mut Option<Fs<InVolume<D>>>,
    path: &[u8],
    out: &mut [u8],
) -> i32
    ensures serves { ServesBytes (by_volume D.state) fs.old fs.new (Readlink path.now) result
        out.old out.new }
{
    match fs {
        Some(fs) => read_link(fs, path, out),
        None => NOT_MOUNTED,
    }
}

/// Tells C what the tree needs.
fn measure<D: SectorDevice>(fs: &mut Fs<InVolume<D>>, out: &mut Space) -> i32
    ensures { Answers (by_volume D.state) fs.old fs.new call.Space
        (TellsSpace result out.old out.new) }
{
    match fs.space() {
        Ok(space) => {
            *out = Space {
                data_blocks: space.data_blocks,
                meta_blocks: space.meta_blocks,
                need: space.need,
                limit: space.limit,
            };
            0
        }
        Err(fault) => code_of(fault),
    }
}

/// What the tree needs, and the most that it may need.
pub fn space<D: SectorDevice>(fs: &mut Option<Fs<InVolume<D>>>, out: &mut Space) -> i32
    ensures serves { ServesSpace (by_volume D.state) fs.old fs.new result out.old out.new }
{
    match fs {
        Some(fs) => measure(fs, out),
        None => NOT_MOUNTED,
    }
}
