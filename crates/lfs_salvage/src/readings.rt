//! Sectors, each of which is read a few times at most.
ghost use Rattle.std.specs.Prelude.{◌≡◌, ◌≤◌, ◌+◌, ℕ, Some, None, IsTrue, IsSome, IfSome, IfNone};
ghost use Rattle.lfs_model.specs.Device.{Carries, cell_at};
ghost use Rattle.lfs_salvage.specs.Readings.{readers_of};
ghost use Rattle.lfs_salvage.specs.Telling.{TellsNothing};

use lfs_device::{ReadFault, SectorDevice};
use lfs_model::limits::{CHECKPOINT_SLOTS, SEGMENT_SECTORS};
use std::alloc::{AllocError, Global};

/// How many readers a sector may have. In a whole volume each block has one: damage in one sector
/// adds another.
const MOST_READERS: u8 = 4;

/// The first sector of a segment, and so how many sectors are in front of it.
pub fn first_sector(segment: u32) -> u32 {
    SEGMENT_SECTORS
        .saturating_mul(segment)
        .saturating_add(CHECKPOINT_SLOTS)
}

/// The bytes of a sector. None where the device has no such sector, or can't read it.
pub fn read_sector<D: SectorDevice>(device: &mut D, sector: u32) -> Option<[u8; 512]>
    ensures value { IfSome result (λ bytes. (D.state device.new).keeps_model
        → cell_at (D.state device.old).content sector ≡ Some bytes) }
    ensures none { IfNone result ((D.state device.new).keeps_model
        → (D.state device.new).failures ≡ (D.state device.old).failures
        → cell_at (D.state device.old).content sector ≡ None) }
    ensures content { (D.state device.new).content ≡ (D.state device.old).content }
    ensures carries { Carries (D.state device.old) (D.state device.new) }
    ensures told { TellsNothing (D.state device.old) (D.state device.new) }
{
    if sector >= device.sectors() {
        return None;
    }
    let mut bytes = [0; 512];
    match device.read(sector, &mut bytes) {
        Ok(()) => Some(bytes),
        Err(ReadFault::Unreadable) => None,
        Err(ReadFault::Failed) => None,
    }
}

/// Who read a sector.
#[derive(Clone, Copy)]
struct Readers {
    last: u32,
    count: u8,
}

/// The sectors of a volume, and who read them. A reader is what goes through the blocks of one
/// object once: it reads no sector twice, and a sector has few readers.
#[derive(Drop)]
pub struct Readings {
    sectors: Vec<Readers>,
    reader: u32,
}

impl Readings {
    /// Nobody read a sector of a volume of so many segments.
    ///
    /// # Errors
    ///
    /// Where memory runs out.
    pub fn new(alloc: Global, segments: u32) -> Result<Readings, AllocError> {
        let sectors = first_sector(segments);
        let nobody = Readers { last: 0, count: 0 };
        Ok(Readings {
            sectors: Vec::from_elem(alloc, nobody, sectors as usize)?,
            reader: 0,
        })
    }

    /// The same sectors, which nobody read yet.
    ///
    /// # Errors
    ///
    /// Where memory runs out.
    pub fn anew(&self, alloc: Global) -> Result<Readings, AllocError> {
        let nobody = Readers { last: 0, count: 0 };
        Ok(Readings {
            sectors: Vec::from_elem(alloc, nobody, self.sectors.len())?,
            reader: 0,
        })
    }

    /// The next reader comes.
    pub fn begin(&mut self)
        ensures { (sector : ℕ) → readers_of self.new sector ≡ readers_of self.old sector }
    {
        self.reader = self.reader.saturating_add(1);
    }

    // Whether the reader may read a sector. It may not do so again.
    fn take(&mut self, sector: u32) -> bool
        ensures counted { IsTrue result
            → readers_of self.new sector ≡ readers_of self.old sector + 1 }
        ensures few { IsTrue result → readers_of self.new sector ≤ MOST_READERS }
        ensures kept { (other : ℕ) → readers_of self.old other ≤ readers_of self.new other }
    {
        if sector < CHECKPOINT_SLOTS {
            return false;
        }
        let reader = self.reader;
        let Some(readers) = self.sectors.get_mut(sector as usize) else {
            return false;
        };
        if readers.last == reader || readers.count >= MOST_READERS {
            return false;
        }
        readers.last = reader;
        readers.count += 1;
        true
    }

    /// The bytes of a sector of a segment, for the reader that came last. None where it can't be
    /// read, or was read too often.
    pub fn read<D: SectorDevice>(&mut self, device: &mut D, sector: u32) -> Option<[u8; 512]>
        ensures value { IfSome result (λ bytes. (D.state device.new).keeps_model
            → cell_at (D.state device.old).content sector ≡ Some bytes) }
        ensures counted { IsSome result
            → readers_of self.new sector ≡ readers_of self.old sector + 1 }
        ensures few { IsSome result → readers_of self.new sector ≤ MOST_READERS }
        ensures kept { (other : ℕ) → readers_of self.old other ≤ readers_of self.new other }
        ensures content { (D.state device.new).content ≡ (D.state device.old).content }
        ensures carries { Carries (D.state device.old) (D.state device.new) }
        ensures told { TellsNothing (D.state device.old) (D.state device.new) }
    {
        if !self.take(sector) {
            return None;
        }
        read_sector(device, sector)
    }
}
