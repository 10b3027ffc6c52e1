//! What `check -v` says behind the line of `check`.
use crate::telling::{put_path, put_sector};
use lfs_host::fault::Fault;
use lfs_host::printing::{put, put_count};
use lfs_places::Places;
use lfs_salvage::{Damage, Part, device_sector};
use std::io::Write;

// Writes a part of an object or of the volume.
fn put_part<W: Write>(output: &mut W, part: Part) -> Result<(), Fault> {
    match part {
        Part::UsageBlock(block) => put_count(output, b"usage block ", u64::from(block)),
        Part::MapBlock(block) => put_count(output, b"block of the map ", u64::from(block)),
        Part::Segment(segment) => put_count(output, b"segment ", u64::from(segment)),
        Part::Inode => put(output, b"inode"),
        Part::Leaf(0) => put(output, b"single leaf"),
        Part::Leaf(leaf) => put_count(
            output,
            b"leaf of the double root ",
            u64::from(leaf).saturating_sub(1),
        ),
        Part::Double => put(output, b"double root"),
        Part::Block(block) => put_count(output, b"block ", u64::from(block)),
        Part::Slot(slot) => put_count(output, b"slot ", u64::from(slot)),
        Part::All => put(output, b"the whole volume"),
    }
}

// Writes what a damage is of: a part of the volume, an object, or a part of one.
fn put_place<W: Write>(output: &mut W, damage: Damage) -> Result<(), Fault> {
    if damage.number == 0 {
        return put_part(output, damage.part);
    }
    put_count(output, b"inode ", u64::from(damage.number))?;
    if damage.part == Part::Inode {
        return Ok(());
    }
    put(output, b", ")?;
    put_part(output, damage.part)
}

/// Writes where a volume is damaged. The path is that of the object.
pub fn put_damage<W: Write>(
    output: &mut W,
    places: Places,
    damage: Damage,
    path: Option<&[u8]>,
) -> Result<(), Fault> {
    put_count(output, b"stage ", u64::from(damage.stage))?;
    put(output, b": first at ")?;
    put_place(output, damage)?;
    if damage.sector != 0 {
        put_sector(output, places, b", sector ", damage.sector)?;
    }
    if let Some(path) = path {
        put(output, b", path ")?;
        put_path(output, path)?;
    }
    put(output, b"\n")
}

/// Writes that a slot holds no checkpoint, and its sector where that hasn't the slot's number.
pub fn put_slot<W: Write>(output: &mut W, places: Places, slot: u32) -> Result<(), Fault> {
    put_count(output, b"note: slot ", u64::from(slot))?;
    if device_sector(places, slot) != u64::from(slot) {
        put_sector(output, places, b", sector ", slot)?;
        put(output, b",")?;
    }
    put(output, b" holds no checkpoint: a newer state may be lost\n")
}

/// Writes that a directory has a file that was put and isn't whole.
pub fn put_unfinished<W: Write>(output: &mut W, path: &[u8]) -> Result<(), Fault> {
    put(output, b"note: a put was stopped in ")?;
    put_path(output, path)?;
    put(output, b": it has an unfinished .lfs-put\n")
}
