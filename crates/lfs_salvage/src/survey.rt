//! What the check of a volume has learned so far.
ghost use Rattle.lfs_salvage.specs.Telling.{TellsNothing};

use crate::readings::{first_sector, read_sector};
use lfs_device::SectorDevice;
use lfs_layout::{BlockName, Checkpoint, SegmentUsage};
use lfs_model::limits::CHECKPOINT_SLOTS;
use std::alloc::{AllocError, Global};

/// A volume whose stages are gone through, one after another.
#[derive(Drop)]
pub struct Survey {
    pub checkpoint: Checkpoint,
    /// The name under which each sector was reached.
    reached: Vec<Option<BlockName>>,
    /// The name that a summary gives each sector.
    labels: Vec<Option<BlockName>>,
    pub usage: Vec<SegmentUsage>,
    /// The sectors of inodes, by number.
    pub addresses: Vec<u32>,
}

impl Survey {
    /// Nothing was learned but the checkpoint.
    ///
    /// # Errors
    ///
    /// Where memory runs out.
    pub fn new(alloc: Global, checkpoint: &Checkpoint) -> Result<Survey, AllocError> {
        let sectors = first_sector(checkpoint.segments) as usize;
        Ok(Survey {
            checkpoint: *checkpoint,
            reached: Vec::from_elem(alloc, None, sectors)?,
            labels: Vec::from_elem(alloc, None, sectors)?,
            usage: Vec::new(alloc),
            addresses: Vec::new(alloc),
        })
    }

    /// How many sectors there are, those of the checkpoint with them.
    pub fn sectors(&self) -> u32 {
        u32::try_from(self.reached.len()).unwrap_or(u32::MAX)
    }

    /// The sector of the inode of a number; 0 where the map has none.
    pub fn address(&self, number: u32) -> u32 {
        self.addresses.get(number as usize).copied().unwrap_or(0)
    }

    /// A sector that is reached under a name, if it is in a segment and wasn't reached before: its
    /// bytes, where they can be read.
    pub fn take<D: SectorDevice>(
        &mut self,
        device: &mut D,
        sector: u32,
        name: BlockName,
    ) -> Option<[u8; 512]>
        ensures { TellsNothing (D.state device.old) (D.state device.new) }
    {
        if sector < CHECKPOINT_SLOTS {
            return None;
        }
        let place = self.reached.get_mut(sector as usize)?;
        if place.is_some() {
            return None;
        }
        *place = Some(name);
        read_sector(device, sector)
    }

    /// The name under which a sector was reached.
    pub fn reached(&self, sector: u32) -> Option<BlockName> {
        match self.reached.get(sector as usize) {
            Some(name) => *name,
            None => None,
        }
    }

    /// A summary gives a sector this name.
    pub fn label(&mut self, sector: u32, name: BlockName) {
        if let Some(place) = self.labels.get_mut(sector as usize) {
            *place = Some(name);
        }
    }

    /// The name that a summary gives a sector.
    pub fn labelled(&self, sector: u32) -> Option<BlockName> {
        match self.labels.get(sector as usize) {
            Some(name) => *name,
            None => None,
        }
    }
}
