//! What is known of one segment, and where a block of the usage table stands.
use std::marker::Model;

/// What is known of a segment.
#[derive(Clone, Copy, Debug, PartialEq, Eq)]
pub struct SegmentState {
    /// How many sectors of it are in use, summaries with them, at most 64; 0 for a clean segment.
    pub used: u16,
    /// How many of its blocks the next checkpoint reaches.
    pub live: u16,
    /// The number of the checkpoint for which it was written last, at most 2^32 - 1.
    pub age: u32,
    /// How many of its blocks are those of files without a name.
    pub held: u16,
    /// How many of its sectors were in use as the acknowledged checkpoint was written. None of
    /// them is written before the next one.
    pub kept: u16,
}

impl Model for SegmentState {
    ghost use Rattle.lfs_segments.specs.Table.{SegmentNumbers};

    ghost Value = { SegmentNumbers };

    ghost view = { λ s. record { used = s.used; live = s.live; held = s.held; age = s.age; kept = s.kept } };

    ghost inverse = { λ s. record { used = s.used; live = s.live; held = s.held; age = s.age; kept = s.kept } };
}

/// Where a block of the usage table stands.
#[derive(Clone, Copy, Debug, Default, PartialEq, Eq)]
pub struct UsageBlock {
    /// Its address; 0 for none, 1 for a block that is to be written.
    pub address: u32,
    /// Whether it differs from what the device has.
    pub stale: bool,
}

impl Model for UsageBlock {
    ghost use Rattle.lfs_segments.specs.Table.{PlaceInSegment};

    ghost Value = { PlaceInSegment };

    ghost view = { λ b. record { address = b.address; stale = b.stale } };

    ghost inverse = { λ b. record { address = b.address; stale = b.stale } };
}
