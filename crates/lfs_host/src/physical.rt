//! The unit that the system tells of a block device, and what people are told of it.
use crate::fault::Refusal;
use crate::mounts::{text_of, word_of};
use crate::shape::{ShapeFault, USUAL_UNIT, Wanted, unit_of};
use lfs_fs::FsError;
use lfs_model::limits::{LAST_VERSION, MOST_UNIT_POWER, SECTOR_LEN};
use lfs_words::read_u64;
use std::alloc::{AllocError, Global};
use std::fmt;
use std::fmt::{Display, Formatter};
use std::fs::{File, Metadata};
use std::io::Write;
use std::os::unix::fs::MetadataExt;
use std::rt::Files;

const SECTOR_BYTES: u32 = SECTOR_LEN as u32;

/// The most bytes that a unit of a volume may have.
const LARGEST_UNIT: u64 = (SECTOR_BYTES << MOST_UNIT_POWER) as u64;

/// The physical unit of a device that tells of none of its own.
const SECTOR_UNIT: u64 = SECTOR_LEN as u64;

/// What is said of the unit that a block device tells, and of the one that the volume gets.
#[derive(Clone, Copy)]
struct Told<'a> {
    image: &'a str,
    /// The bytes of the device's, where the system tells them.
    physical: Option<u64>,
    /// The sectors of the volume's.
    unit: u32,
}

impl Told<'_> {
    // The bytes of the volume's unit.
    fn bytes(self) -> u64 {
        u64::from(self.unit) * SECTOR_UNIT
    }
}

impl Display for Told<'_> {
    fn fmt<W: fmt::Write>(&self, f: &mut Formatter<W>) -> fmt::Result {
        let (image, bytes) = (self.image, self.bytes());
        match self.physical {
            Some(SECTOR_UNIT) => write!(
                f,
                "lfs: {image}: it tells a physical unit of 512 bytes, so the unit that a stop may \
                 spoil isn't known; the volume has units of {bytes} bytes, and docs/MEDIA.md tells \
                 what --unit 16K and --unit 32K cost"
            ),
            Some(physical) => write!(
                f,
                "lfs: {image}: it tells a physical unit of {physical} bytes; the volume has units \
                 of {bytes} bytes"
            ),
            None => write!(
                f,
                "lfs: {image}: the system tells no physical unit of it; the volume has units of \
                 {bytes} bytes, and docs/MEDIA.md tells what --unit 16K and --unit 32K cost"
            ),
        }
    }
}

// The number that a file of the system has as its only line.
fn number_in<R: Files<File = File>>(rt: &R, alloc: Global, path: &str) -> Option<u64> {
    let text = text_of(rt, alloc, path)?;
    read_u64(text.trim_end().as_bytes())
}

// The bytes of the physical unit of a block device (ABI/stable/sysfs-block). A partition has the
// disk's, whose folder is the one that has its own. None where the system doesn't tell.
fn physical_unit<R: Files<File = File>>(
    rt: &R,
    alloc: Global,
    metadata: &Metadata,
) -> Result<Option<u64>, AllocError> {
    let device = word_of(alloc, metadata.rdev())?;
    let own = format!(in alloc; "/sys/dev/block/{device}/queue/physical_block_size")?;
    if let Some(bytes) = number_in(rt, alloc, own.as_str()) {
        return Ok(Some(bytes));
    }
    let of_disk = format!(in alloc; "/sys/dev/block/{device}/../queue/physical_block_size")?;
    Ok(number_in(rt, alloc, of_disk.as_str()))
}

// The sectors of a volume's unit on a device that tells this physical unit.
fn unit_by(physical: Option<u64>) -> Result<u32, ShapeFault> {
    match physical {
        Some(bytes) if bytes > LARGEST_UNIT => Err(ShapeFault::DeviceUnit),
        Some(bytes) => match unit_of(bytes) {
            Some(unit) => Ok(unit.max(USUAL_UNIT)),
            None => Ok(USUAL_UNIT),
        },
        None => Ok(USUAL_UNIT),
    }
}

/// The sectors of a unit that a volume gets on a block device where none are given. What the system
/// tells of the device goes to `errors`. Where a unit is given, or the version has none, it isn't
/// asked.
pub fn unit_on<R: Files<File = File>, E: Write>(
    rt: &R,
    alloc: Global,
    image: &str,
    metadata: &Metadata,
    wanted: Wanted,
    errors: &mut E,
) -> Result<u32, Refusal> {
    if wanted.version != LAST_VERSION || wanted.unit.is_some() {
        return Ok(USUAL_UNIT);
    }
    let Ok(physical) = physical_unit(rt, alloc, metadata) else {
        return Err(Refusal::Call(FsError::NoMemory));
    };
    let unit = unit_by(physical)?;
    let _ = errors.writeln(Told {
        image,
        physical,
        unit,
    });
    Ok(unit)
}
