//! A volume is begun, given a file, and given up.
ghost use Rattle.std.specs.Prelude.{◌≡◌, None};
ghost use Rattle.pansuyog_calls.specs.Volumes.{KeepsListingAndAccess};
ghost use Rattle.pansuyog_file.specs.Beginning.{Begins};
ghost use Rattle.pansuyog_file.specs.Sources.{Opens};
ghost use Rattle.pansuyog_file.specs.Serving.{IsUnchanged};

use crate::handle::{Handle, Volume};
use crate::lent::Lent;
use crate::place::Place;
use pansuyog_calls::access::Access;
use pansuyog_calls::codes::{INVAL, NO_MEMORY};
use pansuyog_calls::volume::VolumeIn;
use pansuyog_calls::{making, taking};
use pansuyog_heap::Loose;
use std::alloc::Global;

/// A volume that holds nothing, whose address is put into C's memory.
#[unsafe(no_mangle)]
pub extern "C" fn pansuyog_file_new(alloc: Global, at: &mut Place) -> i32
    ensures { Begins at.old at.new result }
{
    let inner = VolumeIn {
        fs: None,
        device: None,
        listing: Vec::new(alloc),
        access: Access::ReadWrite,
        recorder: None,
    };
    match Box::new(alloc, Volume { inner }) {
        Ok(volume) => {
            *at = Place::of(Loose::of(volume));
            0
        }
        Err(_) => NO_MEMORY,
    }
}

/// Takes a file that C lends as the device of a volume, where none is mounted, and locks it. Flag 1
/// says that the volume is only read. A file that isn't taken is closed, and nothing changes.
#[unsafe(no_mangle)]
pub extern "C" fn pansuyog_file_take(
    alloc: Global,
    volume: &mut Handle,
    lent: Lent,
    flags: u32,
) -> i32
    ensures { Opens flags volume.old.value volume.new.value result }
{
    let file = lent.into_file();
    let access = match flags {
        0 => Access::ReadWrite,
        1 => Access::ReadOnly,
        _ => return INVAL,
    };
    taking::take(alloc, &mut volume.volume().inner, file, access)
}

/// The system's number (`errno`) of the newest call of the file that failed, or 0.
#[unsafe(no_mangle)]
pub extern "C" fn pansuyog_file_errno(volume: &mut Handle) -> i32
    ensures { IsUnchanged volume.old.value volume.new.value }
{
    taking::last_error(&volume.volume().inner)
}

/// Gives the volume up: nothing is mounted, and the file is closed.
#[unsafe(no_mangle)]
pub extern "C" fn pansuyog_file_abandon(volume: &mut Handle)
    ensures unmounted { volume.new.value.inner.fs ≡ None }
    ensures nothing { volume.new.value.inner.device ≡ None }
    ensures rest { KeepsListingAndAccess volume.old.value.inner volume.new.value.inner }
{
    making::abandon(&mut volume.volume().inner);
}

/// Gives the memory of a volume back, with all that it holds.
#[unsafe(no_mangle)]
pub extern "C" fn pansuyog_file_free(volume: Handle) {
    drop(volume.into_loose().into_box());
}
