//! A volume is begun, given the sectors of a device, and given up.
ghost use Rattle.std.specs.Prelude.{◌≡◌, ◌≤◌, ◌+◌, ◌⊎◌, ℕ, pos, None, length, replicate};
ghost use Rattle.lfs_queue.specs.Images.{cells_of};
ghost use Rattle.pansuyog_calls.specs.Codes.{no_memory};
ghost use Rattle.pansuyog.specs.Beginning.{Begins};
ghost use Rattle.pansuyog.specs.Sources.{AreGiven, Gives, HoldsCells, sectors_in};
ghost use Rattle.pansuyog.specs.Serving.{KeepsListing};
ghost use Rattle.pansuyog.specs.declared.handle.Source.TheVariants as source_of;

use crate::handle::{Handle, Source, Volume};
use crate::place::Place;
use lfs_queue::Image;
use pansuyog_calls::codes::{INVAL, NO_MEMORY};
use pansuyog_heap::Loose;
use std::alloc::Global;

/// A volume that holds nothing, whose address is put into C's memory.
#[unsafe(no_mangle)]
pub extern "C" fn pansuyog_new(alloc: Global, at: &mut Place) -> i32
    ensures { Begins at.old at.new result }
{
    let volume = Volume {
        fs: None,
        source: Source::Nothing,
        listing: Vec::new(alloc),
        recorder: None,
    };
    match Box::new(alloc, volume) {
        Ok(volume) => {
            *at = Place::of(Loose::of(volume));
            0
        }
        Err(_) => NO_MEMORY,
    }
}

/// Gives up what a volume holds.
fn clear(volume: &mut Volume)
    ensures unmounted { volume.new.fs ≡ None }
    ensures nothing { volume.new.source ≡ source_of.Nothing }
    ensures listing { KeepsListing volume.old volume.new }
    ensures recorder { volume.new.recorder ≡ None }
{
    volume.fs = None;
    volume.source = Source::Nothing;
    volume.recorder = None;
}

/// Begins the reading of a device of so many sectors, none of which is given yet. What was held is
/// gone.
#[unsafe(no_mangle)]
pub extern "C" fn pansuyog_begin(alloc: Global, volume: &mut Handle, sectors: u32) -> i32
    ensures unmounted { volume.new.value.fs ≡ None }
    ensures begun { ((result ≡ pos 0)
        × HoldsCells volume.new.value.source (replicate sectors None))
        ⊎ ((result ≡ no_memory) × (volume.new.value.source ≡ source_of.Nothing)) }
    ensures listing { KeepsListing volume.old.value volume.new.value }
    ensures recorder { volume.new.value.recorder ≡ None }
{
    let volume = volume.volume();
    clear(volume);
    match Image::new(alloc, sectors) {
        Ok(image) => {
            volume.source = Source::Image(image);
            0
        }
        Err(_) => NO_MEMORY,
    }
}

/// Gives sectors of a device, from one on.
fn give_all(image: &mut Image, first: u32, sectors: &[[u8; 512]])
    requires { first + length sectors.now ≤ length (cells_of image.old) }
    ensures { AreGiven first (length sectors.now) sectors.now
        (cells_of image.old) (cells_of image.new) }
{
    let mut sector = first;
    for bytes in sectors {
        image.give(sector, bytes);
        sector += 1;
    }
}

/// Gives sectors of a device, where they are all within it.
fn give(image: &mut Image, first: u32, bytes: &[u8]) -> i32
    ensures { Gives (source_of.Image image.old) (source_of.Image image.new) first
        (sectors_in bytes.now) result }
{
    let (sectors, _) = bytes.as_chunks::<512>();
    if first as usize + sectors.len() > image.sectors() as usize {
        return INVAL;
    }
    give_all(image, first, sectors);
    0
}

/// The device holds these bytes from this sector on. Bytes behind the last whole sector are left.
#[unsafe(no_mangle)]
pub extern "C" fn pansuyog_give(volume: &mut Handle, first: u32, bytes: &[u8]) -> i32
    ensures given { Gives volume.old.value.source volume.new.value.source first
        (sectors_in bytes.now) result }
    ensures fs { volume.new.value.fs ≡ volume.old.value.fs }
    ensures listing { KeepsListing volume.old.value volume.new.value }
    ensures recorder { volume.new.value.recorder ≡ volume.old.value.recorder }
{
    match &mut volume.volume().source {
        Source::Image(image) => give(image, first, bytes),
        Source::Nothing => INVAL,
        Source::Device(_) => INVAL,
    }
}

/// Gives the volume up: nothing is mounted, and no order waits. So where the device failed.
#[unsafe(no_mangle)]
pub extern "C" fn pansuyog_abandon(volume: &mut Handle)
    ensures unmounted { volume.new.value.fs ≡ None }
    ensures nothing { volume.new.value.source ≡ source_of.Nothing }
    ensures listing { KeepsListing volume.old.value volume.new.value }
    ensures recorder { volume.new.value.recorder ≡ None }
{
    clear(volume.volume());
}

/// Gives the memory of a volume back, with all that it holds.
#[unsafe(no_mangle)]
pub extern "C" fn pansuyog_free(volume: Handle) {
    drop(volume.into_loose().into_box());
}
