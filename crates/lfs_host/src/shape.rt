//! What a new volume is to have: its segments, the version of its layout, and its units.
ghost use Rattle.std.specs.Prelude.{IfSome, IfNone};
ghost use Rattle.lfs_host.specs.Sizes.{IsLeastCount, HoldsNone};

use crate::fault::Fault;
use crate::printing::{put, put_counts};
use lfs_fs::Shape;
use lfs_layout::{Checkpoint, is_segment_count};
use lfs_model::limits::{
    CHECKPOINT_SLOTS, LAST_VERSION, LEAST_SEGMENTS, MOST_SEGMENTS, MOST_UNIT_POWER, SECTOR_LEN,
    SEGMENT_SECTORS,
};
use lfs_places::limits::FIRST_SEGMENT;
use std::io::Write;

const SECTOR_BYTES: u64 = SECTOR_LEN as u64;

/// The bytes of a segment.
const SEGMENT_BYTES: u64 = SECTOR_BYTES * SEGMENT_SECTORS as u64;

/// A volume has a multiple of so many segments.
const STEP: u32 = 8;

/// The most bytes that the segments of a volume may have.
const MOST_BYTES: u64 = SEGMENT_BYTES * MOST_SEGMENTS as u64;

/// The most bytes that a unit of a volume may have.
const LARGEST_UNIT: u64 = SECTOR_BYTES << MOST_UNIT_POWER;

/// How many sectors a unit has where nothing is known of the device: those of 4 KiB.
pub const USUAL_UNIT: u32 = 8;

/// How much a volume is to hold.
#[derive(Clone, Copy, PartialEq, Eq)]
pub enum Extent {
    Segments(u32),
    /// The segments for so many bytes.
    Size(u64),
    /// As many segments as a block device has room for, if the version takes them.
    Most,
}

/// Why there is no volume that is as it is wanted.
#[derive(Clone, Copy)]
pub enum ShapeFault {
    /// No volume has so many segments.
    Segments,
    /// None has so many bytes.
    Size,
    /// Only a block device tells of a most.
    Most,
    /// No unit has so many bytes.
    Unit,
    /// The unit of the block device is larger than any of a volume.
    DeviceUnit,
}

/// What a volume is to have that is made.
#[derive(Clone, Copy)]
pub struct Wanted {
    pub extent: Extent,
    /// Of its layout.
    pub version: u32,
    /// The bytes of a unit, where they are given. In versions 1 and 2 a unit is a sector.
    pub unit: Option<u64>,
}

// The least number of segments of a volume that holds so many bytes.
fn count_for(bytes: u64) -> Option<u32>
    ensures found { IfSome result (IsLeastCount bytes) }
    ensures none { IfNone result (HoldsNone bytes) }
{
    if bytes == 0 || bytes > MOST_BYTES {
        return None;
    }
    let steps = bytes.div_ceil(SEGMENT_BYTES * STEP as u64) as u32;
    Some((steps * STEP).max(LEAST_SEGMENTS))
}

/// The sectors of a unit of so many bytes, if a volume may have it.
pub fn unit_of(bytes: u64) -> Option<u32> {
    if bytes < SECTOR_BYTES || bytes > LARGEST_UNIT || !bytes.is_power_of_two() {
        return None;
    }
    Some((bytes / SECTOR_BYTES) as u32)
}

/// The bytes of a volume of this shape.
pub fn volume_bytes(shape: &Shape) -> u64 {
    SECTOR_BYTES * u64::from(shape.sectors())
}

/// The bytes of a unit of it.
pub fn unit_bytes(shape: &Shape) -> u64 {
    SECTOR_BYTES * u64::from(shape.unit)
}

/// The shape of a volume that has this checkpoint, whose unit is one that a volume may have.
pub fn shape_of(checkpoint: &Checkpoint) -> Shape {
    Shape {
        segments: checkpoint.segments,
        version: checkpoint.version,
        segment_sectors: SEGMENT_SECTORS,
        unit: 1 << checkpoint.unit_power.min(MOST_UNIT_POWER),
    }
}

/// Writes the line that tells the version of a volume, its units and its size.
pub fn put_shape<W: Write>(output: &mut W, shape: &Shape) -> Result<(), Fault> {
    let counts = [
        (b"volume: format ".as_slice(), u64::from(shape.version)),
        (b", unit ", unit_bytes(shape)),
        (b" bytes, size ", volume_bytes(shape)),
    ];
    put_counts(output, &counts)?;
    put(output, b" bytes\n")
}

// The sectors before the first segment of a volume of this version.
fn front_of(version: u32) -> u32 {
    if version == LAST_VERSION {
        FIRST_SEGMENT
    } else {
        CHECKPOINT_SLOTS
    }
}

// The most segments of a volume of this version on a device of so many sectors, 0 where it has room
// for none.
fn most_on(version: u32, sectors: u32) -> u32 {
    let fit = sectors.saturating_sub(front_of(version)) / SEGMENT_SECTORS;
    if fit < LEAST_SEGMENTS {
        0
    } else {
        (fit / STEP * STEP).min(MOST_SEGMENTS)
    }
}

/// The segments of a volume on a block device, or the bytes that fit where it is too small.
#[derive(Clone, Copy)]
pub enum Fit {
    Segments(u32),
    TooSmall(u64),
}

impl Wanted {
    /// Whether it is the bytes that are given, and not the segments.
    pub fn is_by_size(self) -> bool {
        !matches!(self.extent, Extent::Segments(_))
    }

    // How many segments it has, where no device tells.
    fn segments(self) -> Result<u32, ShapeFault> {
        match self.extent {
            Extent::Segments(segments) if is_segment_count(segments) => Ok(segments),
            Extent::Segments(_) => Err(ShapeFault::Segments),
            Extent::Size(bytes) => match count_for(bytes) {
                Some(segments) => Ok(segments),
                None => Err(ShapeFault::Size),
            },
            Extent::Most => Err(ShapeFault::Most),
        }
    }

    // How many sectors its units have, with those of a device where none are given.
    fn unit(self, of_device: u32) -> Result<u32, ShapeFault> {
        if self.version != LAST_VERSION {
            return Ok(1);
        }
        match self.unit {
            None => Ok(of_device),
            Some(bytes) => match unit_of(bytes) {
                Some(unit) => Ok(unit),
                None => Err(ShapeFault::Unit),
            },
        }
    }

    /// The shape with so many segments, and with the unit of a device where none is given.
    pub fn with_segments(self, segments: u32, of_device: u32) -> Result<Shape, ShapeFault> {
        Ok(Shape {
            segments,
            version: self.version,
            segment_sectors: SEGMENT_SECTORS,
            unit: self.unit(of_device)?,
        })
    }

    /// The shape in a regular file, or in memory.
    pub fn shape(self) -> Result<Shape, ShapeFault> {
        let segments = self.segments()?;
        self.with_segments(segments, USUAL_UNIT)
    }

    /// Looks whether there are such volumes at all, on some device.
    pub fn check(self) -> Result<(), ShapeFault> {
        match self.extent {
            Extent::Most => self.with_segments(MOST_SEGMENTS, USUAL_UNIT)?,
            _ => self.shape()?,
        };
        Ok(())
    }

    /// How many segments it has on a block device of so many sectors.
    pub fn segments_on(self, sectors: u32) -> Result<Fit, ShapeFault> {
        let most = most_on(self.version, sectors);
        let wanted = match self.extent {
            Extent::Most => most.max(LEAST_SEGMENTS),
            _ => self.segments()?,
        };
        if wanted > most {
            return Ok(Fit::TooSmall(SEGMENT_BYTES * u64::from(most)));
        }
        Ok(Fit::Segments(wanted))
    }
}
