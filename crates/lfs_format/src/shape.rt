//! What volumes may be made.
ghost use Rattle.std.specs.Prelude.{◌≡◌, ◌<◌, ◌↔◌, ℕ, IsTrue};
ghost use Rattle.lfs_model.specs.Checkpoint.{IsSegmentCount};
ghost use Rattle.lfs_model.specs.Reach.{segment_start};
ghost use Rattle.lfs_places.specs.Places.{volume_size};
ghost use Rattle.lfs_format.specs.Making.{places_by};
ghost use Rattle.lfs_format.specs.Shape.{IsShape, unit_power_of};

use lfs_layout::{is_segment_count, is_version, most_unit_power};
use lfs_model::limits::{CHECKPOINT_SLOTS, LAST_VERSION, SEGMENT_SECTORS};
use lfs_places::Places;
use lfs_places::limits::FIRST_SEGMENT;

/// What a new volume is to have.
#[derive(Clone, Copy, Debug, PartialEq, Eq)]
pub struct Shape {
    /// How many segments: a multiple of 8 in 64..=1,024.
    pub segments: u32,
    /// The version of its layout: 1 to 3.
    pub version: u32,
    /// How many sectors a segment has: 64.
    pub segment_sectors: u32,
    /// How many sectors a unit has: 1, or in version 3 a power of 2 in 1..=64.
    pub unit: u32,
}

impl Shape {
    /// Whether there are volumes of this shape.
    pub fn is_fit(&self) -> bool
        ensures { IsTrue result ↔ IsShape self.now }
    {
        is_segment_count(self.segments)
            && is_version(self.version)
            && self.segment_sectors == SEGMENT_SECTORS
            && self.unit_power() <= most_unit_power(self.version)
            && 1 << self.unit_power() == self.unit
    }

    /// How many sectors a volume of this shape takes: `format_with` refuses a device with fewer as
    /// `TooSmall`. 0 where there are no volumes of this shape.
    pub fn sectors(&self) -> u32
        ensures fits { IsShape self.now → (size : ℕ) → size < result
            ↔ (volume_size (places_by self.now.version) size < segment_start self.now.segments) }
        ensures none { (IsShape self.now → ⊥) → result ≡ 0 }
    {
        if !self.is_fit() {
            return 0;
        }
        least_sectors(self.version, self.segments)
    }

    /// The logarithm to base 2 of how many sectors a unit has; 0 where that is no power of 2 in
    /// 1..=64.
    pub(crate) fn unit_power(&self) -> u8
        ensures { result ≡ unit_power_of self.now.unit }
    {
        match self.unit {
            2 => 1,
            4 => 2,
            8 => 3,
            16 => 4,
            32 => 5,
            64 => 6,
            _ => 0,
        }
    }
}

/// The places by which a volume of this version stands.
pub(crate) fn places_by(version: u32) -> Places
    ensures { result ≡ places_by version }
{
    if version == LAST_VERSION {
        Places::New
    } else {
        Places::Old
    }
}

/// How many sectors a device has at least that has room for a volume of this version and of so many
/// segments.
pub(crate) fn least_sectors(version: u32, segments: u32) -> u32
    requires { IsSegmentCount segments }
    ensures { (size : ℕ) → size < result
        ↔ (volume_size (places_by version) size < segment_start segments) }
{
    let front = match places_by(version) {
        Places::Old => CHECKPOINT_SLOTS,
        Places::New => FIRST_SEGMENT,
    };
    front + SEGMENT_SECTORS * segments
}
