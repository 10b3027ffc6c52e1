// The sector of a device at which one of the volume stands, and how many the volume has.
ghost use Rattle.std.specs.Prelude.{◌≡◌, ◌<◌, ◌≤◌, ◌^◌};
ghost use Rattle.lfs_places.specs.Places.{least_size, place_of, volume_size};

use crate::Places;
use crate::limits::{FIRST_SEGMENT, SECOND_SLOT};
use lfs_model::limits::CHECKPOINT_SLOTS;

impl Places {
    /// Where a sector of the volume stands.
    pub fn place(self, sector: u32) -> u32
        requires { place_of self sector < 2 ^ 32 }
        ensures { result ≡ place_of self sector }
    {
        match self {
            Places::Old => sector,
            Places::New => match sector {
                0 => 0,
                1 => SECOND_SLOT,
                _ => FIRST_SEGMENT + (sector - CHECKPOINT_SLOTS),
            },
        }
    }

    /// How many sectors a volume has on a device of so many.
    pub fn volume_sectors(self, sectors: u32) -> u32
        requires { least_size self ≤ sectors }
        ensures { result ≡ volume_size self sectors }
    {
        match self {
            Places::Old => sectors,
            Places::New => CHECKPOINT_SLOTS + (sectors - FIRST_SEGMENT),
        }
    }
}
