//! Where the inodes of objects stand.
ghost use Rattle.lfs_salvage.specs.Telling.{TellsNothing};

use crate::readings::read_sector;
use lfs_device::SectorDevice;
use lfs_layout::{Checkpoint, Inode, InodeView, PointerView, is_zero};
use std::alloc::{AllocError, Global};

/// What a number leads to.
#[derive(Clone, Copy)]
pub enum Object {
    /// The map has no inode of this number, or its block of the map is missing.
    Absent,
    /// The sector of its inode can't be read, or holds no inode of this number.
    Lost(u32),
    There(Inode),
}

/// The sectors of all inodes, by the numbers of their objects, and what of the map is missing.
#[derive(Drop)]
pub struct Addresses {
    inodes: Vec<u32>,
    /// Blocks of the map that can't be read or are all zero, as no stored one is, each with its
    /// sector.
    gaps: Vec<(u32, u32)>,
}

impl Addresses {
    fn new(alloc: Global) -> Addresses {
        Addresses {
            inodes: Vec::new(alloc),
            gaps: Vec::new(alloc),
        }
    }

    // The next block of the map comes in.
    fn take<D: SectorDevice>(
        &mut self,
        device: &mut D,
        block: u32,
        sector: u32,
    ) -> Result<(), AllocError>
        ensures { TellsNothing (D.state device.old) (D.state device.new) }
    {
        let mut addresses = [0; 128];
        if sector != 0 {
            match read_sector(device, sector) {
                Some(bytes) if !is_zero(&bytes) => addresses = PointerView::new(&bytes).to_array(),
                _ => self.gaps.push((block, sector))?,
            }
        }
        self.inodes.extend_from_slice(&addresses)?;
        Ok(())
    }

    /// The blocks of the map that are missing, each with its sector.
    pub fn gaps(&self) -> &[(u32, u32)] {
        self.gaps.as_slice()
    }

    /// The sector of the inode of a number; 0 where there is none.
    pub fn get(&self, number: u32) -> u32 {
        match self.inodes.get(number as usize) {
            Some(sector) if number != 0 => *sector,
            _ => 0,
        }
    }

    /// What a number leads to.
    pub fn object<D: SectorDevice>(&self, device: &mut D, number: u32) -> Object
        ensures { TellsNothing (D.state device.old) (D.state device.new) }
    {
        let sector = self.get(number);
        if sector == 0 {
            return Object::Absent;
        }
        let Some(bytes) = read_sector(device, sector) else {
            return Object::Lost(sector);
        };
        match InodeView::decode(&bytes) {
            Some(inode) if inode.number() == number => Object::There(inode.to_inode()),
            _ => Object::Lost(sector),
        }
    }
}

/// Reads the inode map of a checkpoint.
///
/// # Errors
///
/// Where memory runs out.
pub fn read_addresses<D: SectorDevice>(
    alloc: Global,
    device: &mut D,
    checkpoint: &Checkpoint,
) -> Result<Addresses, AllocError>
    ensures { TellsNothing (D.state device.old) (D.state device.new) }
{
    let mut addresses = Addresses::new(alloc);
    let mut block: u32 = 0;
    for sector in &checkpoint.map {
        addresses.take(device, block, *sector)?;
        block = block.saturating_add(1);
    }
    Ok(addresses)
}
