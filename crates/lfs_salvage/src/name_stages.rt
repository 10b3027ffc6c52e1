//! Stages 10 to 13: directories, texts of links, names, and counts of links.
ghost use Rattle.lfs_salvage.specs.Telling.{TellsNothing};

use crate::blocks::{BLOCK_LEN, Blocks, Flaw, MOST_STEPS, Piece};
use crate::damage::{Checked, Part, Stage};
use crate::directory::{Entry, list};
use crate::readings::Readings;
use crate::survey::Survey;
use crate::walk::{NUMBERS, ROOT, Walk};
use lfs_device::SectorDevice;
use lfs_layout::Inode;
use lfs_model::Kind;
use std::alloc::{AllocError, Global};
use std::collections::BTreeSet;

/// What names say, by number.
#[derive(Drop)]
pub struct Names {
    /// How many entries give the number.
    counts: Vec<u32>,
    /// How many directories a directory has entries of.
    below: Vec<u32>,
    /// Whether a directory stands at the number.
    directories: Vec<bool>,
    /// The entries that give directories: the directory that has the entry, and the one that it
    /// gives.
    ways: Vec<(u32, u32)>,
}

fn add_one(counts: &mut [u32], number: u32) {
    if let Some(count) = counts.get_mut(number as usize) {
        *count = count.saturating_add(1);
    }
}

fn at(counts: &[u32], number: u32) -> u32 {
    match counts.get(number as usize) {
        Some(count) => *count,
        None => 0,
    }
}

impl Names {
    /// No entry was seen.
    ///
    /// # Errors
    ///
    /// Where memory runs out.
    pub fn new(alloc: Global, inodes: &[Inode]) -> Result<Names, AllocError> {
        let mut directories = Vec::from_elem(alloc, false, NUMBERS as usize)?;
        for inode in inodes {
            if let Some(place) = directories.get_mut(inode.number as usize) {
                *place = inode.kind == Kind::Directory;
            }
        }
        Ok(Names {
            counts: Vec::from_elem(alloc, 0, NUMBERS as usize)?,
            below: Vec::from_elem(alloc, 0, NUMBERS as usize)?,
            directories,
            ways: Vec::new(alloc),
        })
    }

    // A directory has an entry that gives a number.
    fn note(&mut self, directory: u32, number: u32) -> Result<(), AllocError> {
        add_one(&mut self.counts, number);
        if self.directories.get(number as usize).copied() == Some(true) {
            add_one(&mut self.below, directory);
            self.ways.push((directory, number))?;
        }
        Ok(())
    }
}

// Looks at an entry: whether its number is there, and its name is new.
fn take_entry(
    alloc: Global,
    survey: &Survey,
    seen: &mut BTreeSet<Vec<u8>>,
    entry: &Entry,
) -> Result<bool, AllocError> {
    let name = entry.name.as_slice().to_vec(alloc)?;
    let is_new = seen.insert(name)?;
    Ok(is_new && survey.address(entry.number) != 0)
}

// Looks at the entries of a directory.
fn take_entries(
    alloc: Global,
    survey: &Survey,
    names: &mut Names,
    directory: u32,
    entries: &[Entry],
) -> Checked {
    let mut seen = BTreeSet::new(alloc);
    for entry in entries {
        if !take_entry(alloc, survey, &mut seen, entry)? {
            let slot = Part::Slot(entry.place.slot);
            return Err(Stage(10).fails_of(directory, slot, entry.place.sector));
        }
        names.note(directory, entry.number)?;
    }
    Ok(())
}

// Looks at a directory. Of holes its slots can't be read.
fn take_directory<D: SectorDevice>(
    alloc: Global,
    device: &mut D,
    survey: &Survey,
    readings: &mut Readings,
    names: &mut Names,
    inode: &Inode,
) -> Checked
    ensures { TellsNothing (D.state device.old) (D.state device.new) }
{
    let listing = list(alloc, device, readings, inode)?;
    if let Some(place) = listing.strays.first() {
        let slot = Part::Slot(place.slot);
        return Err(Stage(10).fails_of(inode.number, slot, place.sector));
    }
    if let Some(Flaw::Gap(gap)) = listing.flaws.first() {
        return Err(Stage(10).fails_of(inode.number, Part::Block(gap.first), gap.sector));
    }
    if listing.len(inode.form) != inode.size as usize {
        return Err(Stage(10).fails_of(inode.number, Part::Inode, 0));
    }
    take_entries(
        alloc,
        survey,
        names,
        inode.number,
        listing.entries.as_slice(),
    )
}

/// Directories.
pub fn slot_stage<D: SectorDevice>(
    alloc: Global,
    device: &mut D,
    survey: &Survey,
    inodes: &[Inode],
    readings: &mut Readings,
    names: &mut Names,
) -> Checked
    ensures { TellsNothing (D.state device.old) (D.state device.new) }
{
    for inode in inodes {
        if inode.kind == Kind::Directory {
            take_directory(alloc, device, survey, readings, names, inode)?;
        }
    }
    Ok(())
}

// How many bytes of a link's block are in its text.
fn text_len(inode: &Inode, block: u32) -> usize {
    let start = BLOCK_LEN.saturating_mul(block);
    inode.size.saturating_sub(start) as usize
}

// Looks at the text of a link.
fn take_text<D: SectorDevice>(device: &mut D, readings: &mut Readings, inode: &Inode) -> Checked
    ensures { TellsNothing (D.state device.old) (D.state device.new) }
{
    let mut blocks = Blocks::new(readings, *inode);
    for _ in 0..MOST_STEPS {
        match blocks.step(device, readings) {
            Some(Piece::Block(block, sector, bytes)) => {
                let mut text = bytes.iter().take(text_len(inode, block));
                if text.any(|byte| *byte == 0) {
                    return Err(Stage(11).fails_of(inode.number, Part::Block(block), sector));
                }
            }
            Some(_) => return Err(Stage(11).fails_of(inode.number, Part::Inode, 0)),
            None => break,
        }
    }
    Ok(())
}

/// Texts of links.
pub fn text_stage<D: SectorDevice>(
    device: &mut D,
    inodes: &[Inode],
    readings: &mut Readings,
) -> Checked
    ensures { TellsNothing (D.state device.old) (D.state device.new) }
{
    for inode in inodes {
        if inode.kind == Kind::Link {
            take_text(device, readings, inode)?;
        }
    }
    Ok(())
}

// Whether an object has as many names as one of its kind may have.
fn is_named(names: &Names, inode: &Inode) -> bool {
    let count = at(&names.counts, inode.number);
    if inode.number == ROOT {
        count == 0
    } else if inode.kind == Kind::Directory {
        count == 1
    } else {
        count >= 1
    }
}

// Meets the directories that entries of one directory give.
fn meet_below(walk: &mut Walk, names: &Names, directory: u32) -> Result<(), AllocError> {
    for (above, number) in &names.ways {
        if *above == directory && walk.meet(*number) {
            walk.push(*number)?;
        }
    }
    Ok(())
}

// Comes to all directories that the root leads to.
fn walk_down(alloc: Global, names: &Names) -> Result<Walk, AllocError> {
    let mut walk = Walk::from_root(alloc)?;
    for _ in 0..NUMBERS {
        let Some(number) = walk.next_directory() else {
            break;
        };
        meet_below(&mut walk, names, number)?;
    }
    Ok(walk)
}

// Stops at the first object that has too few names, or too many, or that the root doesn't lead to.
fn find_misnamed(inodes: &[Inode], names: &Names, walk: &Walk) -> Checked {
    for inode in inodes {
        let is_cut = inode.kind == Kind::Directory && !walk.has_met(inode.number);
        if is_cut || !is_named(names, inode) {
            return Err(Stage(12).fails_of(inode.number, Part::Inode, 0));
        }
    }
    Ok(())
}

/// Names.
pub fn name_stage(alloc: Global, inodes: &[Inode], names: &Names) -> Checked {
    let walk = walk_down(alloc, names)?;
    find_misnamed(inodes, names, &walk)
}

/// Counts of links.
pub fn link_stage(inodes: &[Inode], names: &Names) -> Checked {
    for inode in inodes {
        let links = match inode.kind {
            Kind::Directory => at(&names.below, inode.number).saturating_add(2),
            Kind::File | Kind::Link => at(&names.counts, inode.number),
        };
        if links != inode.links {
            return Err(Stage(13).fails_of(inode.number, Part::Inode, 0));
        }
    }
    Ok(())
}
