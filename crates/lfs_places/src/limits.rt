//! Where the parts of a volume stand by the new places, each in one place and by name.

/// The sector of a device at which the second slot stands: the first stands at 0.
pub const SECOND_SLOT: u32 = 128;

/// The sector of a device at which the segments begin.
pub const FIRST_SEGMENT: u32 = 256;
