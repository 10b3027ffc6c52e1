//! What C holds of a volume.
ghost use Rattle.std.specs.Prelude.{◌≡◌};
ghost use Rattle.std_alloc.specs.Box.Ownership.{box_owns};
ghost use Rattle.std.specs.contracts.impls.GlobalAllocator.TheImpl.{ghosts};
ghost use Rattle.pansuyog.specs.contracts.handle.Volume.{the_row};
ghost use Rattle.pansuyog.specs.declared.handle.Volume.{Volume};

use lfs_fs::{Entry, Fs, InVolume};
use lfs_queue::{Image, QueueDevice};
use lfs_record::Recorder;
use pansuyog_heap::Loose;
use std::alloc::Global;
use std::marker::Model;

/// What a volume is to be mounted from.
#[derive(Drop)]
pub enum Source {
    /// Nothing was given, or the volume that was mounted from it holds it.
    Nothing,
    /// The sectors of a device, which are being given.
    Image(Image),
    /// A device on which no volume is mounted. Orders may wait.
    Device(QueueDevice),
}

/// A volume as C has it: mounted or not, with the names that were listed last.
#[derive(Drop)]
pub struct Volume {
    pub fs: Option<Fs<InVolume<QueueDevice>>>,
    pub source: Source,
    pub listing: Vec<Entry>,
    /// A recorder over the mounted volume, once one has begun.
    pub recorder: Option<Recorder>,
}

/// A volume by its address, as C passes it. It can't be dropped: what takes one has to free it.
#[repr(C)]
pub struct Handle {
    at: *mut u8,
    alloc: Global,
    ghost value: { Volume } by { the_row.coded },
}

impl Model for Handle {
    ghost also_owns = { λ h. box_owns (ghosts.dealloc_token h.alloc) the_row h.at h.value };
}

impl Handle {
    ghost use types.Logic.{sem};
    ghost use Rattle.pansuyog.specs.Lending.{LendsVolume};

    /// The volume itself.
    pub fn volume(&mut self) -> &mut Volume
        ensures* writes_back { sem 𝓛 (LendsVolume self.entry result) }
        ensures value { result.now ≡ self.old.value }
    {
        unsafe { &mut *(self.at as *mut Volume) }
    }

    /// The volume as it lies on the heap, to be freed.
    pub fn into_loose(self) -> Loose<Volume, Global>
        ensures { result.value ≡ self.value }
    {
        let Handle { at, alloc } = self;
        Loose {
            at: at as *mut Volume,
            alloc,
        }
    }
}
