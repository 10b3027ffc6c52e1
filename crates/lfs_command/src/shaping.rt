//! What a new volume is to have, by the words of a command line.
use crate::amounts::read_bytes;
use lfs_grammar::{ExtentWord, ShapeWords};
use lfs_host::fault::Fault;
use lfs_host::shape::{Extent, Wanted};
use lfs_model::limits::LAST_VERSION;
use lfs_words::read_u32;

/// The size of as many segments as fit.
const MOST: &str = "max";

// How much a volume is to hold.
fn read_extent(word: ExtentWord<'_>) -> Result<Extent, Fault> {
    match word {
        ExtentWord::Segments(word) => match read_u32(word.as_bytes()) {
            Some(segments) => Ok(Extent::Segments(segments)),
            None => Err(Fault::Segments),
        },
        ExtentWord::Size(MOST) => Ok(Extent::Most),
        ExtentWord::Size(word) => match read_bytes(word.as_bytes()) {
            Some(bytes) => Ok(Extent::Size(bytes)),
            None => Err(Fault::Size),
        },
    }
}

// The version of the layout. Where none is given, the words say it by how they give the extent.
fn version_of(words: ShapeWords<'_>) -> Result<u32, Fault> {
    match (words.extent, words.version) {
        (ExtentWord::Segments(_), Some(version)) => Ok(version),
        (ExtentWord::Segments(_), None) => Ok(1),
        (ExtentWord::Size(_), None | Some(LAST_VERSION)) => Ok(LAST_VERSION),
        (ExtentWord::Size(_), Some(_)) => Err(Fault::SizedFormat),
    }
}

/// The bytes of a unit, where they are given.
pub fn read_unit(word: Option<&str>) -> Result<Option<u64>, Fault> {
    let Some(word) = word else {
        return Ok(None);
    };
    match read_bytes(word.as_bytes()) {
        Some(bytes) => Ok(Some(bytes)),
        None => Err(Fault::UnitSize),
    }
}

/// Reads what a volume is to have, but for its units.
pub fn read_wanted(words: ShapeWords<'_>) -> Result<Wanted, Fault> {
    Ok(Wanted {
        extent: read_extent(words.extent)?,
        version: version_of(words)?,
        unit: None,
    })
}

/// Reads what a volume is to have that is made in an image. A unit goes with the last version alone.
pub fn read_shape(words: ShapeWords<'_>) -> Result<Wanted, Fault> {
    let wanted = read_wanted(words)?;
    if words.unit.is_some() && wanted.version != LAST_VERSION {
        return Err(Fault::UnitOfFormat);
    }
    let unit = read_unit(words.unit)?;
    Ok(Wanted { unit, ..wanted })
}
