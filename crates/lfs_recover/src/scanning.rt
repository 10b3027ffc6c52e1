//! The checkpoint of a volume whose slots are both lost, by what its log names.
//!
//! Each commit ends with the blocks of usage that changed, and one of these has the number of the
//! commit as the age of the segment that was written. So the greatest age is that of the newest
//! commit. The ages and the used parts of its segments then give the order in which the blocks of
//! the map and of usage were written, of which the last ones count.
ghost use Rattle.std.specs.Prelude.{◌≡◌, ◌≤◌, IfOk, length};
ghost use Rattle.lfs_salvage.specs.Telling.{TellsNothing};

use lfs_device::SectorDevice;
use lfs_layout::{BlockName, Checkpoint, SegmentUsage, SummaryView, UsageView};
use lfs_model::BlockKind;
use lfs_model::limits::{
    BLOCK_FILES, BLOCK_SEGMENTS, CHECKPOINT_SLOTS, LAST_SECTOR_VERSION, LAST_VERSION,
    LEAST_SEGMENTS, MAP_BLOCKS, MOST_SEGMENTS, SEGMENT_SECTORS, USAGE_BLOCKS,
};
use lfs_places::Places;
use lfs_salvage::{ByPlaces, Damage, Part, find_damage, first_sector, read_sector};
use std::alloc::{AllocError, Global};
use std::mem;

/// How many commits are tried, from the newest on.
const MOST_COMMITS: u32 = 16;

/// The stage that counts the live blocks of each segment.
const LIVE_STAGE: u8 = 9;

/// A segment of which no block of usage tells: all of it is looked at, and all else is newer.
const UNKNOWN: SegmentUsage = SegmentUsage {
    used: SEGMENT_SECTORS as u16,
    live: 1,
    age: 0,
};

/// A block of the inode map or of usage that a summary names.
#[derive(Clone, Copy)]
struct Found {
    kind: BlockKind,
    index: u32,
    segment: u32,
    /// Its sector within the segment.
    place: u32,
    /// The ages that it tells, if it is one of usage.
    ages: Ages,
}

/// The ages that a block of usage tells; 0 where there is none.
#[derive(Clone, Copy)]
struct Ages {
    greatest: u32,
    /// That of the segment in which it stands.
    own: u32,
}

const NO_AGES: Ages = Ages {
    greatest: 0,
    own: 0,
};

impl Found {
    fn sector(self) -> u32 {
        first_sector(self.segment).saturating_add(self.place)
    }

    fn is_of(self, kind: BlockKind, index: u32) -> bool {
        self.kind == kind && self.index == index
    }
}

/// What the summaries of a volume name.
#[derive(Drop)]
struct Log {
    segments: u32,
    found: Vec<Found>,
}

/// What is known of a segment at some commit.
#[derive(Clone, Copy)]
struct Segment {
    usage: SegmentUsage,
    /// The least age that a block of usage in it tells of it. In the segment in which a commit began
    /// that is the number of an earlier one.
    least: u32,
}

/// A checkpoint that the log has.
#[derive(Clone, Copy)]
pub struct Scanned {
    pub checkpoint: Checkpoint,
    /// No stage of the check fails.
    pub is_whole: bool,
}

impl Scanned {
    fn whole(checkpoint: Checkpoint) -> Scanned {
        Scanned {
            checkpoint,
            is_whole: true,
        }
    }

    fn in_part(checkpoint: Checkpoint) -> Scanned {
        Scanned {
            checkpoint,
            is_whole: false,
        }
    }
}

/// What the stages say of a checkpoint.
#[derive(Clone, Copy)]
enum Settled {
    /// They hold of this one.
    Whole(Checkpoint),
    Damaged(Damage),
}

// How many entries a block of usage has in a volume of so many segments.
fn entries_of(segments: u32, index: u32) -> u32 {
    let before = BLOCK_SEGMENTS.saturating_mul(index);
    segments.saturating_sub(before).min(BLOCK_SEGMENTS)
}

fn greatest_age(view: &UsageView<'_>) -> u32 {
    let mut age = 0;
    for entry in 0..BLOCK_SEGMENTS as usize {
        age = view.get(entry).age.max(age);
    }
    age
}

// What a block of usage tells of a segment.
fn age_in(view: &UsageView<'_>, index: u32, segment: u32) -> u32 {
    if segment / BLOCK_SEGMENTS == index {
        view.get((segment % BLOCK_SEGMENTS) as usize).age
    } else {
        0
    }
}

// Whether an index was seen before. It is marked then.
fn is_again(seen: &mut [bool], index: u32) -> bool {
    match seen.get_mut(index as usize) {
        Some(mark) => mem::replace(mark, true),
        None => false,
    }
}

// How many entries of a summary are of blocks that were written. A commit writes each block of usage
// once, so where an index comes again, that and what is behind it is padding up to a unit's end.
fn without_padding(view: &SummaryView<'_>) -> usize
    ensures { result ≤ length view.now }
{
    let mut seen = [false; USAGE_BLOCKS as usize];
    for entry in 0..view.len() {
        let name = view.get(entry);
        if name.kind == BlockKind::Usage && is_again(&mut seen, name.index) {
            return entry;
        }
    }
    view.len()
}

impl Log {
    // The ages that a block of usage tells, if it is well-formed.
    fn ages_of<D: SectorDevice>(&self, device: &mut D, found: Found) -> Option<Ages>
        ensures { TellsNothing (D.state device.old) (D.state device.new) }
    {
        let bytes = read_sector(device, found.sector())?;
        let entries = entries_of(self.segments, found.index);
        let view = UsageView::decode(&bytes, entries as usize)?;
        Some(Ages {
            greatest: greatest_age(&view),
            own: age_in(&view, found.index, found.segment),
        })
    }

    // A block that a summary names comes in, if it is one of the map or of usage.
    fn take<D: SectorDevice>(
        &mut self,
        device: &mut D,
        name: BlockName,
        segment: u32,
        place: u32,
    ) -> Result<(), AllocError>
        ensures { TellsNothing (D.state device.old) (D.state device.new) }
    {
        let mut found = Found {
            kind: name.kind,
            index: name.index,
            segment,
            place,
            ages: NO_AGES,
        };
        let is_kept = match name.kind {
            BlockKind::Map => true,
            BlockKind::Usage => match self.ages_of(device, found) {
                Some(ages) => {
                    found.ages = ages;
                    true
                }
                None => false,
            },
            _ => false,
        };
        if is_kept {
            self.found.push(found)?;
        }
        Ok(())
    }

    // The blocks of the chunk at a place of a segment come in: the place behind it. None where there
    // is no chunk.
    fn take_chunk<D: SectorDevice>(
        &mut self,
        device: &mut D,
        segment: u32,
        place: u32,
    ) -> Result<Option<u32>, AllocError>
        ensures { TellsNothing (D.state device.old) (D.state device.new) }
    {
        let sector = first_sector(segment).saturating_add(place);
        let Some(bytes) = read_sector(device, sector) else {
            return Ok(None);
        };
        let Some(view) = SummaryView::decode(&bytes) else {
            return Ok(None);
        };
        let mut next = place.saturating_add(1);
        for entry in 0..without_padding(&view) {
            if next < SEGMENT_SECTORS {
                self.take(device, view.get(entry), segment, next)?;
            }
            next = next.saturating_add(1);
        }
        let blocks = u32::try_from(view.len()).unwrap_or(SEGMENT_SECTORS);
        Ok(Some(place.saturating_add(1).saturating_add(blocks)))
    }

    // The chunks of a segment come in, as far as there is a row of them.
    fn take_segment<D: SectorDevice>(
        &mut self,
        device: &mut D,
        segment: u32,
    ) -> Result<(), AllocError>
        ensures { TellsNothing (D.state device.old) (D.state device.new) }
    {
        let mut place = 0;
        for _ in 0..SEGMENT_SECTORS {
            if place >= SEGMENT_SECTORS {
                break;
            }
            match self.take_chunk(device, segment, place)? {
                Some(next) => place = next,
                None => break,
            }
        }
        Ok(())
    }

    // The age of the newest commit up to one.
    fn newest(&self, most: u32) -> Option<u32> {
        let mut newest = 0;
        for found in &self.found {
            let age = found.ages.greatest;
            if age <= most {
                newest = age.max(newest);
            }
        }
        if newest == 0 { None } else { Some(newest) }
    }

    // The block of usage of this index with the greatest age up to one.
    fn usage(&self, index: u32, most: u32) -> Option<Found> {
        let mut best: Option<Found> = None;
        for found in &self.found {
            let least = best.map_or(0, |it: Found| it.ages.greatest);
            let age = found.ages.greatest;
            if found.is_of(BlockKind::Usage, index) && least <= age && age <= most {
                best = Some(*found);
            }
        }
        best
    }
}

// Reads what the log names of a volume of so many segments.
fn read_log<D: SectorDevice>(
    alloc: Global,
    device: &mut D,
    segments: u32,
) -> Result<Log, AllocError>
    ensures { TellsNothing (D.state device.old) (D.state device.new) }
{
    let mut log = Log {
        segments,
        found: Vec::new(alloc),
    };
    for segment in 0..segments {
        log.take_segment(device, segment)?;
    }
    Ok(log)
}

// The bytes of a block that was found, or of none.
fn bytes_of<D: SectorDevice>(device: &mut D, found: Option<Found>) -> Option<[u8; 512]>
    ensures { TellsNothing (D.state device.old) (D.state device.new) }
{
    read_sector(device, found?.sector())
}

// Adds what a block of usage tells of its segments, if there is one that is well-formed.
fn add_entries(
    table: &mut Vec<Segment>,
    bytes: Option<[u8; 512]>,
    entries: u32,
) -> Result<(), AllocError> {
    let view = match &bytes {
        Some(bytes) => UsageView::decode(bytes, entries as usize),
        None => None,
    };
    for entry in 0..entries.min(BLOCK_SEGMENTS) as usize {
        let usage = view
            .as_ref()
            .map_or(UNKNOWN, |it: &UsageView<'_>| it.get(entry));
        table.push(Segment {
            usage,
            least: u32::MAX,
        })?;
    }
    Ok(())
}

// The least age that is told of each segment in itself comes to be known.
fn set_least(table: &mut [Segment], log: &Log) {
    for found in &log.found {
        if let Some(segment) = table.get_mut(found.segment as usize) {
            if found.ages.own > 0 && found.place < u32::from(segment.usage.used) {
                segment.least = segment.least.min(found.ages.own);
            }
        }
    }
}

// What is known of the segments at a commit.
fn read_table<D: SectorDevice>(
    alloc: Global,
    device: &mut D,
    log: &Log,
    commit: u32,
) -> Result<Vec<Segment>, AllocError>
    ensures { TellsNothing (D.state device.old) (D.state device.new) }
{
    let mut table = Vec::new(alloc);
    for index in 0..USAGE_BLOCKS {
        let bytes = bytes_of(device, log.usage(index, commit));
        add_entries(&mut table, bytes, entries_of(log.segments, index))?;
    }
    set_least(table.as_mut_slice(), log);
    Ok(table)
}

// The place of a block in the order of writing. None where it isn't in the used part of its segment.
fn rank_of(table: &[Segment], found: Found) -> Option<u128> {
    let segment = table.get(found.segment as usize)?;
    if found.place >= u32::from(segment.usage.used) {
        return None;
    }
    let segments = u128::from(segment.usage.age) << 64 | u128::from(segment.least) << 32;
    Some(segments | u128::from(found.place))
}

// The sector of the last block of a kind and of an index, whose greatest age is this at least; 0
// where there is none.
fn last_of(log: &Log, table: &[Segment], kind: BlockKind, index: u32, least: u32) -> u32 {
    let mut last: u128 = 0;
    let mut sector = 0;
    for found in &log.found {
        if found.is_of(kind, index) && found.ages.greatest >= least {
            match rank_of(table, *found) {
                Some(rank) if rank >= last => {
                    last = rank;
                    sector = found.sector();
                }
                _ => {}
            }
        }
    }
    sector
}

fn map_of(log: &Log, table: &[Segment]) -> [u32; 32] {
    let mut map = [0; 32];
    let mut index: u32 = 0;
    for sector in &mut map {
        *sector = last_of(log, table, BlockKind::Map, index, 0);
        index = index.saturating_add(1);
    }
    map
}

fn usage_of(log: &Log, table: &[Segment], commit: u32) -> [u32; 16] {
    let mut usage = [0; 16];
    let mut index: u32 = 0;
    for sector in &mut usage {
        if let Some(found) = log.usage(index, commit) {
            let least = found.ages.greatest;
            *sector = last_of(log, table, BlockKind::Usage, index, least);
        }
        index = index.saturating_add(1);
    }
    usage
}

// Version 2 has all that a volume of version 1 has.
fn version_at(places: Places) -> u32 {
    match places {
        Places::Old => LAST_SECTOR_VERSION,
        Places::New => LAST_VERSION,
    }
}

// The checkpoint of a commit, as far as the log tells it.
fn checkpoint_of(places: Places, log: &Log, table: &[Segment], commit: u32) -> Checkpoint {
    Checkpoint {
        number: u64::from(commit),
        segments: log.segments,
        version: version_at(places),
        unit_power: 0,
        map: map_of(log, table),
        usage: usage_of(log, table, commit),
    }
}

// The block of the map that a checkpoint may have though the commit had none: that of the damage, or
// the last one where segments have other numbers of live blocks. 0, which each commit has, where
// that isn't so.
fn doubtful(checkpoint: &Checkpoint, damage: Damage) -> usize {
    match damage.part {
        Part::MapBlock(index) => index as usize,
        _ if damage.number > 0 => (damage.number / BLOCK_FILES) as usize,
        _ if damage.stage == LIVE_STAGE => checkpoint
            .map
            .iter()
            .rposition(|sector| *sector != 0)
            .unwrap_or(0),
        _ => 0,
    }
}

// Where a checkpoint is damaged, or else a checkpoint of which all stages hold: this one, or one
// with fewer blocks of the map. A commit stores none that has no inode, and then the log still names
// the one before.
fn settle<D: SectorDevice>(
    alloc: Global,
    device: &mut D,
    checkpoint: &Checkpoint,
) -> Result<Settled, AllocError>
    ensures { TellsNothing (D.state device.old) (D.state device.new) }
{
    let Some(first) = find_damage(alloc, device, checkpoint)? else {
        return Ok(Settled::Whole(*checkpoint));
    };
    let mut tried = *checkpoint;
    let mut damage = first;
    for _ in 0..MAP_BLOCKS {
        let index = doubtful(&tried, damage);
        match tried.map.get_mut(index) {
            Some(sector) if index > 0 && *sector != 0 => *sector = 0,
            _ => break,
        }
        match find_damage(alloc, device, &tried)? {
            Some(other) => damage = other,
            None => return Ok(Settled::Whole(tried)),
        }
    }
    Ok(Settled::Damaged(first))
}

// Whether a damage is in a segment that a commit wrote, so that the commit may be unfinished.
fn is_own(table: &[Segment], commit: u32, damage: Damage) -> bool {
    let segment = match damage.part {
        Part::Segment(segment) => segment,
        _ => damage.sector.saturating_sub(CHECKPOINT_SLOTS) / SEGMENT_SECTORS,
    };
    match table.get(segment as usize) {
        Some(segment) => segment.usage.age == commit,
        None => false,
    }
}

// The newest checkpoint that the log has whole. One that is damaged elsewhere than in what its commit
// wrote comes before older ones; and where there is none, the newest.
fn newest_of<D: SectorDevice>(
    alloc: Global,
    device: &mut D,
    places: Places,
    log: &Log,
) -> Result<Option<Scanned>, AllocError>
    ensures { TellsNothing (D.state device.old) (D.state device.new) }
{
    let mut first: Option<Scanned> = None;
    let mut most = u32::MAX;
    for _ in 0..MOST_COMMITS {
        let Some(commit) = log.newest(most) else {
            break;
        };
        let table = read_table(alloc, device, log, commit)?;
        let checkpoint = checkpoint_of(places, log, table.as_slice(), commit);
        let damage = match settle(alloc, device, &checkpoint)? {
            Settled::Whole(checkpoint) => return Ok(Some(Scanned::whole(checkpoint))),
            Settled::Damaged(damage) => damage,
        };
        if !is_own(table.as_slice(), commit, damage) {
            return Ok(Some(Scanned::in_part(checkpoint)));
        }
        first = first.or(Some(Scanned::in_part(checkpoint)));
        most = commit.saturating_sub(1);
    }
    Ok(first)
}

// How many segments a device has room for, as a volume may have them.
fn segments_on(sectors: u32) -> Option<u32> {
    let segments = sectors.saturating_sub(CHECKPOINT_SLOTS) / SEGMENT_SECTORS;
    let segments = segments.min(MOST_SEGMENTS) / 8 * 8;
    if segments < LEAST_SEGMENTS {
        None
    } else {
        Some(segments)
    }
}

// The checkpoint that the log of a volume has which stands by these places.
fn scan_at<D: SectorDevice>(
    alloc: Global,
    device: &mut D,
    places: Places,
) -> Result<Option<Scanned>, AllocError>
    ensures { TellsNothing (D.state device.old) (D.state device.new) }
{
    let Some(segments) = segments_on(device.sectors()) else {
        return Ok(None);
    };
    let log = read_log(alloc, device, segments)?;
    newest_of(alloc, device, places, &log)
}

fn is_whole(scanned: &Option<Scanned>) -> bool {
    scanned.as_ref().is_some_and(|it: &Scanned| it.is_whole)
}

/// Looks for a checkpoint in the log of a volume, whatever its slots hold. Where they hold none, the
/// volume may stand by other places too.
pub fn scan<D: SectorDevice + Drop>(
    alloc: Global,
    mut volume: ByPlaces<D>,
) -> Result<(ByPlaces<D>, Option<Scanned>), AllocError>
    ensures { IfOk result (λ found. length (D.state found.0.device).told
        ≡ length (D.state volume.device).told) }
{
    let places = volume.places();
    let first = scan_at(alloc, &mut volume, places)?;
    if is_whole(&first) {
        return Ok((volume, first));
    }
    let mut old = volume.by_old();
    let second = scan_at(alloc, &mut old, Places::Old)?;
    if is_whole(&second) || first.is_none() {
        return Ok((old, second));
    }
    Ok((ByPlaces::find(old.into_inner()), first))
}
