//! Directories that are to be gone through, and a mark for each number that was met.
ghost use Rattle.std.specs.Prelude.{ℕ, IsTrue};
ghost use Rattle.lfs_salvage.specs.Met.{HasMet};
ghost use Rattle.lfs_salvage.specs.Telling.{TellsNothing};

use crate::addresses::{Addresses, Object};
use crate::directory::list;
use crate::readings::Readings;
use lfs_device::SectorDevice;
use lfs_model::limits::FILE_NUMBERS;
use lfs_model::{FileNumber, Kind};
use std::alloc::{AllocError, Global};

/// Numbers are below this.
pub const NUMBERS: u32 = FILE_NUMBERS as u32;

/// The number of the root.
pub const ROOT: u32 = FileNumber::ROOT.value as u32;

/// A walk, which comes to each number once: so no way leads round.
#[derive(Drop)]
pub struct Walk {
    met: Vec<bool>,
    directories: Vec<u32>,
    next: usize,
}

impl Walk {
    /// No number was met yet.
    ///
    /// # Errors
    ///
    /// Where memory runs out.
    pub fn new(alloc: Global) -> Result<Walk, AllocError> {
        Ok(Walk {
            met: Vec::from_elem(alloc, false, NUMBERS as usize)?,
            directories: Vec::new(alloc),
            next: 0,
        })
    }

    /// The root was met, and is to be gone through.
    ///
    /// # Errors
    ///
    /// Where memory runs out.
    pub fn from_root(alloc: Global) -> Result<Walk, AllocError> {
        let mut walk = Walk::new(alloc)?;
        walk.meet(ROOT);
        walk.push(ROOT)?;
        Ok(walk)
    }

    /// Whether a number was met.
    pub fn has_met(&self, number: u32) -> bool {
        match self.met.get(number as usize) {
            Some(met) => *met,
            None => true,
        }
    }

    /// Meets a number: whether it is for the first time.
    pub fn meet(&mut self, number: u32) -> bool
        ensures first { IsTrue result → ¬ (HasMet self.old number) }
        ensures met { IsTrue result → HasMet self.new number }
        ensures kept { (other : ℕ) → HasMet self.old other → HasMet self.new other }
    {
        match self.met.get_mut(number as usize) {
            Some(met) => {
                let first = !*met;
                *met = true;
                first
            }
            None => false,
        }
    }

    /// A directory is to be gone through.
    ///
    /// # Errors
    ///
    /// Where memory runs out.
    pub fn push(&mut self, number: u32) -> Result<(), AllocError> {
        self.directories.push(number)?;
        Ok(())
    }

    /// The next directory that is to be gone through.
    pub fn next_directory(&mut self) -> Option<u32> {
        let number = self.directories.get(self.next).copied()?;
        self.next = self.next.saturating_add(1);
        Some(number)
    }
}

// Marks the numbers that a directory names.
fn mark_names<D: SectorDevice>(
    alloc: Global,
    device: &mut D,
    readings: &mut Readings,
    object: Object,
    named: &mut [bool],
) -> Result<(), AllocError>
    ensures { TellsNothing (D.state device.old) (D.state device.new) }
{
    let Object::There(inode) = object else {
        return Ok(());
    };
    if inode.kind != Kind::Directory {
        return Ok(());
    }
    let listing = list(alloc, device, readings, &inode)?;
    for entry in &listing.entries {
        if entry.number != inode.number
            && let Some(mark) = named.get_mut(entry.number as usize)
        {
            *mark = true;
        }
    }
    Ok(())
}

/// For each number, whether a directory that the walk didn't meet names it.
///
/// # Errors
///
/// Where memory runs out.
pub fn named_by<D: SectorDevice>(
    alloc: Global,
    device: &mut D,
    readings: &mut Readings,
    addresses: &Addresses,
    walk: &Walk,
) -> Result<Vec<bool>, AllocError>
    ensures { TellsNothing (D.state device.old) (D.state device.new) }
{
    let mut named = Vec::from_elem(alloc, false, NUMBERS as usize)?;
    for number in 0..NUMBERS {
        if !walk.has_met(number) {
            let object = addresses.object(device, number);
            mark_names(alloc, device, readings, object, &mut named)?;
        }
    }
    Ok(named)
}
