//! Where C keeps the address of a volume.
ghost use Rattle.std.specs.Prelude.{◌≡◌, Option, Some};
ghost use Rattle.std.specs.Coded.{coded_option};
ghost use Rattle.std.specs.contracts.impls.GlobalAllocator.TheImpl.{ghosts};
ghost use Rattle.pansuyog_file.specs.Standing.{stands_at};
ghost use Rattle.pansuyog_file.specs.contracts.handle.Volume.{the_row};
ghost use Rattle.pansuyog_file.specs.declared.handle.Volume.{Volume};

use crate::handle::Volume;
use pansuyog_heap::Loose;
use std::alloc::Global;
use std::marker::Model;

/// C's memory for a volume's address: nothing is there yet, or what a handle is.
#[repr(C)]
#[derive(Drop)]
pub struct Place {
    at: *mut u8,
    alloc: Global,
    ghost volume: { Option Volume } by { coded_option the_row.coded },
}

impl Model for Place {
    ghost also_owns = { λ p. stands_at (ghosts.dealloc_token p.alloc) p.at p.volume };
}

impl Place {
    /// A volume stands here.
    pub fn of(volume: Loose<Volume, Global>) -> Place
        ensures { result.volume ≡ Some volume.value }
    {
        let Loose { at, alloc } = volume;
        Place {
            at: at as *mut u8,
            alloc,
        }
    }
}
