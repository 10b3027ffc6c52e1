//! Whether what a look saw beside a writer is of one moment. What a checkpoint used is written again
//! only once a newer one has its segment clean, so the usage table tells.
ghost use Rattle.std.specs.Prelude.{◌≡◌, ◌<◌, ◌⊎◌, ℕ, Some, length, get_or, IsTrue};
ghost use Rattle.lfs_model.specs.Usage.{no_use};
ghost use Rattle.lfs_show.specs.Steady.{StaysUsed};

use lfs_device::SectorDevice;
use lfs_layout::{Checkpoint, SegmentUsage, UsageView, segment_of};
use lfs_model::limits::{BLOCK_SEGMENTS, CHECKPOINT_SLOTS, SEGMENT_SECTORS};
use lfs_places::Places;
use lfs_salvage::{Slots, slot_of};
use std::alloc::{AllocError, Global};

/// How often a moment is read while its slots change.
const MOST_READS: u32 = 20;

/// The age of each segment that was written for this checkpoint or a later one.
const LAST_AGE: u32 = u32::MAX;

/// The fewest sectors of a chunk: a summary and a block.
const LEAST_CHUNK: u32 = 2;

/// Both slots of the checkpoint, as they stand.
#[derive(Clone, Copy, PartialEq, Eq)]
struct SlotBytes {
    first: [u8; 512],
    second: [u8; 512],
}

// The bytes of a sector. None where the device has no such sector, or can't read it.
fn read_sector<D: SectorDevice>(device: &mut D, sector: u32) -> Option<[u8; 512]> {
    let mut bytes = [0; 512];
    if sector >= device.sectors() || device.read(sector, &mut bytes).is_err() {
        return None;
    }
    Some(bytes)
}

fn read_slots<D: SectorDevice>(device: &mut D) -> Option<SlotBytes> {
    Some(SlotBytes {
        first: read_sector(device, 0)?,
        second: read_sector(device, 1)?,
    })
}

// The newest checkpoint of a volume by these places.
fn newest_in(slots: &SlotBytes, places: Places) -> Option<Checkpoint> {
    let slots = Slots {
        first: slot_of(&slots.first, 0),
        second: slot_of(&slots.second, 1),
    };
    slots.by(places).newest()
}

// How many entries of a usage block are of segments.
fn entries_of(segments: u32, block: usize) -> usize {
    (segments as usize)
        .saturating_sub(block.saturating_mul(BLOCK_SEGMENTS as usize))
        .min(BLOCK_SEGMENTS as usize)
}

fn push_rows(
    rows: &mut Vec<SegmentUsage>,
    block: &UsageView<'_>,
    count: usize,
) -> Result<(), AllocError> {
    for entry in 0..BLOCK_SEGMENTS as usize {
        if entry < count {
            rows.push(block.get(entry))?;
        }
    }
    Ok(())
}

// Reads the entries of a usage block. False where there is none at the address.
fn read_block<D: SectorDevice>(
    device: &mut D,
    rows: &mut Vec<SegmentUsage>,
    address: u32,
    count: usize,
) -> Result<bool, AllocError> {
    let Some(bytes) = read_sector(device, address) else {
        return Ok(false);
    };
    let Some(block) = UsageView::decode(&bytes, count) else {
        return Ok(false);
    };
    push_rows(rows, &block, count)?;
    Ok(true)
}

// Reads the usage table. None where a block of it isn't there.
fn read_rows<D: SectorDevice>(
    alloc: Global,
    device: &mut D,
    checkpoint: &Checkpoint,
) -> Result<Option<Vec<SegmentUsage>>, AllocError> {
    let mut rows = Vec::new(alloc);
    for (block, address) in checkpoint.usage.iter().enumerate() {
        let count = entries_of(checkpoint.segments, block);
        if count > 0 && !read_block(device, &mut rows, *address, count)? {
            return Ok(None);
        }
    }
    Ok(Some(rows))
}

/// The used part of a segment.
#[derive(Clone, Copy)]
struct Part {
    segment: u32,
    used: u16,
}

/// The newest checkpoint, and what its usage table says of each segment.
#[derive(Drop)]
struct Moment {
    slots: SlotBytes,
    checkpoint: Checkpoint,
    rows: Vec<SegmentUsage>,
}

impl Moment {
    // Reads a moment of a volume by these places, which is one if the slots are still the same behind
    // it. None where no checkpoint or no usage table is found.
    fn read<D: SectorDevice>(
        alloc: Global,
        device: &mut D,
        places: Places,
    ) -> Result<Option<Moment>, AllocError> {
        let Some(slots) = read_slots(device) else {
            return Ok(None);
        };
        let Some(checkpoint) = newest_in(&slots, places) else {
            return Ok(None);
        };
        match read_rows(alloc, device, &checkpoint)? {
            Some(rows) => Ok(Some(Moment {
                slots,
                checkpoint,
                rows,
            })),
            None => Ok(None),
        }
    }

    // Whether the slots are the same still.
    fn is_current<D: SectorDevice>(&self, device: &mut D) -> bool {
        match read_slots(device) {
            Some(slots) => slots == self.slots,
            None => false,
        }
    }

    // The used part of the segment in which a usage block stands, if that has the segment's own
    // entry, with the number of this checkpoint, and a further chunk fits there.
    fn open_part_at(&self, block: usize, address: u32) -> Option<Part> {
        if address < CHECKPOINT_SLOTS {
            return None;
        }
        let segment = segment_of(address);
        let row = self.rows.get(segment as usize)?;
        let is_own = (segment / BLOCK_SEGMENTS) as usize == block;
        let is_new = u64::from(row.age) == self.checkpoint.number;
        let takes_more = u32::from(row.used) + LEAST_CHUNK <= SEGMENT_SECTORS;
        if is_own && is_new && takes_more {
            Some(Part {
                segment,
                used: row.used,
            })
        } else {
            None
        }
    }

    // The used part of the segment behind which the next chunk may be written.
    fn open_part(&self) -> Option<Part> {
        for (block, address) in self.checkpoint.usage.iter().enumerate() {
            if let Some(part) = self.open_part_at(block, *address) {
                return Some(part);
            }
        }
        None
    }
}

// The bytes of the used part of a segment, none of no part. None where a sector can't be read.
fn read_part<D: SectorDevice>(
    alloc: Global,
    device: &mut D,
    part: Option<Part>,
) -> Result<Option<Vec<u8>>, AllocError> {
    let mut bytes = Vec::new(alloc);
    let Some(Part { segment, used }) = part else {
        return Ok(Some(bytes));
    };
    let first = SEGMENT_SECTORS
        .saturating_mul(segment)
        .saturating_add(CHECKPOINT_SLOTS);
    for place in 0..u32::from(used) {
        let Some(sector) = read_sector(device, first.saturating_add(place)) else {
            return Ok(None);
        };
        bytes.extend_from_slice(&sector)?;
    }
    Ok(Some(bytes))
}

/// What an image showed before a look.
#[derive(Drop)]
pub struct Sight {
    /// The places of its volume.
    places: Places,
    moment: Moment,
    /// The used part behind which the next chunk may be written.
    part: Option<Part>,
    bytes: Vec<u8>,
}

impl Sight {
    fn try_take<D: SectorDevice>(
        alloc: Global,
        device: &mut D,
        places: Places,
    ) -> Result<Option<Sight>, AllocError> {
        let Some(moment) = Moment::read(alloc, device, places)? else {
            return Ok(None);
        };
        let part = moment.open_part();
        let Some(bytes) = read_part(alloc, device, part)? else {
            return Ok(None);
        };
        if !moment.is_current(device) {
            return Ok(None);
        }
        Ok(Some(Sight {
            places,
            moment,
            part,
            bytes,
        }))
    }

    /// Reads what there is to know of the present moment of a volume by these places. None where no
    /// moment is seen. A checkpoint of a version that stands by other places counts as none, for the
    /// places may have been found while a slot was written.
    ///
    /// # Errors
    ///
    /// Where memory runs out.
    pub fn take<D: SectorDevice>(
        alloc: Global,
        device: &mut D,
        places: Places,
    ) -> Result<Option<Sight>, AllocError> {
        for _ in 0..MOST_READS {
            if let Some(sight) = Sight::try_take(alloc, device, places)? {
                return Ok(Some(sight));
            }
        }
        Ok(None)
    }

    /// The number of its checkpoint.
    pub fn number(&self) -> u64 {
        self.moment.checkpoint.number
    }

    // The segment whose used part has the same bytes still, behind which more was written.
    fn appended(&self, now: &Moment, bytes: &[u8]) -> Option<usize> {
        let Part { segment, used } = self.part?;
        let segment = segment as usize;
        let row = now.rows.get(segment)?;
        if row.used >= used && bytes == self.bytes.as_slice() {
            Some(segment)
        } else {
            None
        }
    }

    fn judge(&self, now: &Moment, bytes: &[u8]) -> bool {
        if now.checkpoint == self.moment.checkpoint {
            return true;
        }
        let (own, appended) = (self.moment.rows.as_slice(), self.appended(now, bytes));
        self.moment.checkpoint.number < now.checkpoint.number
            && are_still_used(own, now.rows.as_slice(), appended)
    }

    fn try_judge<D: SectorDevice>(
        &self,
        alloc: Global,
        device: &mut D,
    ) -> Result<Option<bool>, AllocError> {
        let Some(now) = Moment::read(alloc, device, self.places)? else {
            return Ok(None);
        };
        let Some(bytes) = read_part(alloc, device, self.part)? else {
            return Ok(None);
        };
        if !now.is_current(device) {
            return Ok(None);
        }
        Ok(Some(self.judge(&now, bytes.as_slice())))
    }

    /// Whether nothing that its checkpoint reaches was written since. Where no moment is seen, that
    /// isn't known.
    ///
    /// # Errors
    ///
    /// Where memory runs out.
    pub fn still_stands<D: SectorDevice>(
        &self,
        alloc: Global,
        device: &mut D,
    ) -> Result<bool, AllocError> {
        for _ in 0..MOST_READS {
            if let Some(stands) = self.try_judge(alloc, device)? {
                return Ok(stands);
            }
        }
        Ok(false)
    }
}

// Whether a segment that was used wasn't clean in between.
fn is_still_used(own: SegmentUsage, now: SegmentUsage) -> bool
    ensures { IsTrue result → StaysUsed own now }
{
    own.used == 0 || now.used != 0 && now.age == own.age && own.age < LAST_AGE
}

/// Whether each segment that one usage table shows as used is used with the same age in a later one.
/// The segment that was only appended to counts too.
pub fn are_still_used(own: &[SegmentUsage], now: &[SegmentUsage], appended: Option<usize>) -> bool
    ensures { IsTrue result → (s : ℕ) → s < length own.now → (appended ≡ Some s)
        ⊎ StaysUsed (get_or own.now s no_use) (get_or now.now s no_use) }
{
    if own.len() != now.len() {
        return false;
    }
    for segment in 0..own.len() {
        if appended != Some(segment) && !is_still_used(own[segment], now[segment]) {
            return false;
        }
    }
    true
}
