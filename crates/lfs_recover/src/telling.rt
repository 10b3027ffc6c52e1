//! What is told of a recovery, a line for each thing.
use lfs_host::fault::Fault;
use lfs_host::printing::{put, put_count, put_word};
use lfs_model::limits::BLOCK_POINTERS;
use lfs_places::Places;
use lfs_salvage::{Flaw, Gap, Place, device_sector};
use std::io::Write;

/// Writes a sector of a volume as people are told of it: as the sector of the device at which it
/// stands.
pub fn put_sector<W: Write>(
    output: &mut W,
    places: Places,
    label: &[u8],
    sector: u32,
) -> Result<(), Fault> {
    put_count(output, label, device_sector(places, sector))
}

/// Writes the path of an object, that of the root as a slash.
pub fn put_path<W: Write>(output: &mut W, path: &[u8]) -> Result<(), Fault> {
    if path.is_empty() {
        put(output, b"/")
    } else {
        put_word(output, path)
    }
}

/// Writes a line of a word and a path.
pub fn tell_path<W: Write>(output: &mut W, word: &[u8], path: &[u8]) -> Result<(), Fault> {
    put(output, word)?;
    put_path(output, path)?;
    put(output, b"\n")
}

/// Writes that what has a path was put to another one.
pub fn tell_moved<W: Write>(output: &mut W, path: &[u8], place: &[u8]) -> Result<(), Fault> {
    put(output, b"moved ")?;
    put_path(output, path)?;
    put(output, b" ")?;
    put_path(output, place)?;
    put(output, b"\n")
}

/// Writes that an entry leads to no inode. The sector is 0 where no sector is known for it.
pub fn tell_lost<W: Write>(
    output: &mut W,
    places: Places,
    path: &[u8],
    sector: u32,
) -> Result<(), Fault> {
    put(output, b"lost ")?;
    put_path(output, path)?;
    if sector != 0 {
        put_sector(output, places, b" sector ", sector)?;
    }
    put(output, b"\n")
}

/// Writes that the log was gone through, and which commit it has whole, or else in part.
pub fn tell_scan<W: Write>(output: &mut W, commit: u64, is_whole: bool) -> Result<(), Fault> {
    put_count(output, b"scan commit ", commit)?;
    if is_whole {
        put(output, b"\n")
    } else {
        put(output, b" in part\n")
    }
}

/// Writes that the inodes of a block of the map can't be found.
pub fn tell_map<W: Write>(
    output: &mut W,
    places: Places,
    block: u32,
    sector: u32,
) -> Result<(), Fault> {
    let pointers = u64::from(BLOCK_POINTERS);
    let first = u64::from(block) * pointers;
    put_count(output, b"lost numbers ", first)?;
    put_count(output, b" to ", first + pointers - 1)?;
    put_sector(output, places, b" sector ", sector)?;
    put(output, b"\n")
}

// Writes which blocks are missing.
fn tell_gap<W: Write>(output: &mut W, places: Places, gap: Gap) -> Result<(), Fault> {
    let first = u64::from(gap.first);
    if gap.count > 1 {
        put_count(output, b"  blocks ", first)?;
        let last = first + u64::from(gap.count) - 1;
        put_count(output, b" to ", last)?;
    } else {
        put_count(output, b"  block ", first)?;
    }
    put_sector(output, places, b" sector ", gap.sector)?;
    put(output, b"\n")
}

// Writes what is amiss with blocks.
fn tell_flaw<W: Write>(output: &mut W, places: Places, flaw: Flaw) -> Result<(), Fault> {
    match flaw {
        Flaw::Gap(gap) => tell_gap(output, places, gap),
        Flaw::PastEnd(sector) => {
            put_sector(output, places, b"  past the end sector ", sector)?;
            put(output, b"\n")
        }
    }
}

/// Writes that the object of a path is there in part, or has more than its own, and where.
pub fn tell_part<W: Write>(
    output: &mut W,
    places: Places,
    path: &[u8],
    flaws: &[Flaw],
) -> Result<(), Fault> {
    tell_path(output, b"part ", path)?;
    for flaw in flaws {
        tell_flaw(output, places, *flaw)?;
    }
    Ok(())
}

/// Writes which slots of a directory can't be read.
pub fn tell_strays<W: Write>(
    output: &mut W,
    places: Places,
    strays: &[Place],
) -> Result<(), Fault> {
    for stray in strays {
        put_count(output, b"  slot ", u64::from(stray.slot))?;
        put_sector(output, places, b" sector ", stray.sector)?;
        put(output, b"\n")?;
    }
    Ok(())
}
