//! The limit of devices, in one place and by name.
use lfs_model::limits::{LEAST_SEGMENTS, SEGMENT_SECTORS};
use lfs_places::limits::FIRST_SEGMENT;

/// The sectors that a device has at least whose volume stands by the new places.
pub const LEAST_NEW: u32 = FIRST_SEGMENT + SEGMENT_SECTORS * LEAST_SEGMENTS;
