//! The entries of a directory, as far as they can be read.
ghost use Rattle.lfs_salvage.specs.Telling.{TellsNothing};

use crate::blocks::{BLOCK_LEN, Blocks, Flaw, MOST_STEPS, Piece};
use crate::readings::Readings;
use lfs_device::SectorDevice;
use lfs_layout::{Inode, SlotView, nth_slot, slot_len};
use std::alloc::{AllocError, Global};

/// A slot of a directory, and the sector that has it.
#[derive(Clone, Copy)]
pub struct Place {
    pub slot: u32,
    pub sector: u32,
}

/// An entry of a directory.
#[derive(Drop)]
pub struct Entry {
    pub number: u32,
    pub name: Vec<u8>,
    pub place: Place,
}

/// What is found of a directory.
#[derive(Drop)]
pub struct Listing {
    pub entries: Vec<Entry>,
    /// What is amiss with its blocks.
    pub flaws: Vec<Flaw>,
    /// Slots that can be read and aren't well-formed.
    pub strays: Vec<Place>,
}

impl Listing {
    /// How many bytes the slots have that were found, in a directory of this form.
    pub fn len(&self, form: u8) -> usize {
        let slots = self.entries.len().saturating_add(self.strays.len());
        slots.saturating_mul(slot_len(form) as usize)
    }
}

// Takes in a slot of a directory of this form, which is one of a block.
fn take_slot(
    alloc: Global,
    listing: &mut Listing,
    form: u8,
    bytes: &[u8; 512],
    nth: u32,
    place: Place,
) -> Result<(), AllocError> {
    let len = slot_len(form);
    if len.saturating_mul(nth.saturating_add(1)) > BLOCK_LEN {
        return Ok(());
    }
    match SlotView::decode(form, nth_slot(bytes, form, nth as usize)) {
        Some(view) => listing.entries.push(Entry {
            number: view.number(),
            name: view.name().to_vec(alloc)?,
            place,
        })?,
        None => listing.strays.push(place)?,
    }
    Ok(())
}

// Takes in the slots of a block, of which a directory's last one may have fewer.
fn take_block(
    alloc: Global,
    listing: &mut Listing,
    inode: &Inode,
    block: u32,
    sector: u32,
    bytes: &[u8; 512],
) -> Result<(), AllocError> {
    let len = slot_len(inode.form);
    let first = (BLOCK_LEN / len).saturating_mul(block);
    let here = inode
        .size
        .saturating_sub(BLOCK_LEN.saturating_mul(block))
        .min(BLOCK_LEN);
    for nth in 0..here / len {
        let slot = first.saturating_add(nth);
        take_slot(
            alloc,
            listing,
            inode.form,
            bytes,
            nth,
            Place { slot, sector },
        )?;
    }
    Ok(())
}

/// What is found of a directory, whose blocks get a new reader.
///
/// # Errors
///
/// Where memory runs out.
pub fn list<D: SectorDevice>(
    alloc: Global,
    device: &mut D,
    readings: &mut Readings,
    inode: &Inode,
) -> Result<Listing, AllocError>
    ensures { TellsNothing (D.state device.old) (D.state device.new) }
{
    let mut listing = Listing {
        entries: Vec::new(alloc),
        flaws: Vec::new(alloc),
        strays: Vec::new(alloc),
    };
    let mut blocks = Blocks::new(readings, *inode);
    for _ in 0..MOST_STEPS {
        match blocks.step(device, readings) {
            Some(Piece::Nothing) => {}
            Some(Piece::Block(block, sector, bytes)) => {
                take_block(alloc, &mut listing, inode, block, sector, &bytes)?;
            }
            Some(Piece::Flaw(flaw)) => listing.flaws.push(flaw)?,
            None => break,
        }
    }
    Ok(listing)
}
