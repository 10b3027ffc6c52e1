//! The listing of a directory, by one name a call (POSIX.1-2017: readdir).
ghost use Rattle.std.specs.Prelude.{◌≡◌, Some, slice_get};
ghost use Rattle.lfs_volume.specs.Found.{by_volume};
ghost use Rattle.lfs_model.specs.Call.{Readdir};
ghost use Rattle.pansuyog_calls.specs.Codes.{code_of_kind};
ghost use Rattle.pansuyog_calls.specs.Serving.{Answers};
ghost use Rattle.pansuyog_calls.specs.Telling.{ServesListing, TellsEntry, TellsListing};

use crate::bytes::put;
use crate::codes::{NOT_MOUNTED, code_of};
use crate::rows::Entry;
use crate::status::kind_in_c;
use lfs_device::SectorDevice;
use lfs_fs::{Fs, InVolume};

/// Lists a directory: how many names it has.
fn list_names<D: SectorDevice>(
    fs: &mut Fs<InVolume<D>>,
    path: &[u8],
    listing: &mut Vec<lfs_fs::Entry>,
) -> i32
    ensures { Answers (by_volume D.state) fs.old fs.new (Readdir path.now)
        (TellsListing result listing.old.items listing.new.items) }
{
    match fs.readdir(path) {
        Ok(entries) => {
            let count = i32::try_from(entries.len()).unwrap_or(i32::MAX);
            *listing = entries;
            count
        }
        Err(fault) => code_of(fault),
    }
}

/// Lists the directory of a path: how many names it has. They are kept until the next is listed.
pub fn list<D: SectorDevice>(
    fs: &mut Option<Fs<InVolume<D>>>,
    path: &[u8],
    listing: &mut Vec<lfs_fs::Entry>,
) -> i32
    ensures serves { ServesListing (by_volume D.state) fs.old fs.new (Readdir path.now) result
        listing.old listing.new }
{
    match fs {
        Some(fs) => list_names(fs, path, listing),
        None => NOT_MOUNTED,
    }
}

/// Tells C of one name that was listed.
fn tell(row: &lfs_fs::Entry, out: &mut Entry, name: &mut [u8]) -> i32
    ensures { TellsEntry (Some row.now) result out.old out.new name.old name.new }
{
    *out = Entry {
        number: row.number,
        kind: kind_in_c(row.kind),
    };
    put(row.name.as_slice(), name)
}

/// The name at a place of those that were listed, from 0 on: its length, with what it names. 0 where
/// there is none.
pub fn entry(listing: &Vec<lfs_fs::Entry>, place: usize, out: &mut Entry, name: &mut [u8]) -> i32
    ensures { TellsEntry (slice_get listing.now.items place) result
        out.old out.new name.old name.new }
{
    if place >= listing.len() {
        return 0;
    }
    tell(&listing[place], out, name)
}
