//! The listing of a directory, by one name a call (POSIX.1-2017: readdir).
ghost use Rattle.std.specs.Prelude.{◌≡◌, slice_get};
ghost use Rattle.lfs_model.specs.Call.{Readdir};
ghost use Rattle.pansuyog_calls.specs.Telling.{TellsEntry};
ghost use Rattle.pansuyog.specs.Serving.{IsUnchanged, ServesListing};

use crate::handle::Handle;
use pansuyog_calls::listing;
use pansuyog_calls::rows::Entry;

/// Lists the directory of a path: how many names it has. They are kept until the next is listed.
#[unsafe(no_mangle)]
pub extern "C" fn pansuyog_list(volume: &mut Handle, path: &[u8]) -> i32
    ensures serves { ServesListing volume.old.value volume.new.value (Readdir path.now) result }
    ensures rest { volume.new.value.source ≡ volume.old.value.source }
    ensures recorder { volume.new.value.recorder ≡ volume.old.value.recorder }
{
    let volume = volume.volume();
    listing::list(&mut volume.fs, path, &mut volume.listing)
}

/// The name at a place of those that were listed last, from 0 on: its length, with what it names. 0
/// where there is none.
#[unsafe(no_mangle)]
pub extern "C" fn pansuyog_entry(
    volume: &mut Handle,
    place: usize,
    out: &mut Entry,
    name: &mut [u8],
) -> i32
    ensures told { TellsEntry (slice_get volume.old.value.listing.items place) result
        out.old out.new name.old name.new }
    ensures same { IsUnchanged volume.old.value volume.new.value }
{
    listing::entry(&volume.volume().listing, place, out, name)
}
