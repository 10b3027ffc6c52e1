//! Stages 8, 9, 14 and 15: labels, live counts, space and clean segments.
use crate::damage::{Checked, Part, Stage, Stop};
use crate::readings::first_sector;
use crate::survey::Survey;
use lfs_layout::{BlockName, SegmentUsage};
use lfs_model::BlockKind;
use lfs_model::limits::{
    CHECKPOINT_SLOTS, LEAST_NEED, NEED_OF_META, NEED_OF_SEGMENT, SEGMENT_SECTORS,
};

/// One segment in so many is to be clean.
const CLEAN_PART: u32 = 8;

// The segment that a sector is in, and the sector's place in it.
fn segment_of(sector: u32) -> (u32, u32) {
    let place = sector.saturating_sub(CHECKPOINT_SLOTS);
    (place / SEGMENT_SECTORS, place % SEGMENT_SECTORS)
}

fn usage_of(survey: &Survey, segment: u32) -> SegmentUsage {
    match survey.usage.get(segment as usize) {
        Some(usage) => *usage,
        None => SegmentUsage {
            used: 0,
            live: 0,
            age: 0,
        },
    }
}

// What fails at a sector that was reached under a name.
fn mislabelled(name: BlockName, sector: u32) -> Stop {
    let part = match name.kind {
        BlockKind::Data => Part::Block(name.index),
        BlockKind::Leaf => Part::Leaf(name.index),
        BlockKind::Double => Part::Double,
        BlockKind::Inode => Part::Inode,
        BlockKind::Map => Part::MapBlock(name.index),
        BlockKind::Usage => Part::UsageBlock(name.index),
    };
    Stage(8).fails_of(u32::from(name.file), part, sector)
}

/// Labels.
pub fn label_stage(survey: &Survey) -> Checked {
    for sector in CHECKPOINT_SLOTS..survey.sectors() {
        if let Some(name) = survey.reached(sector) {
            let (segment, place) = segment_of(sector);
            let used = u32::from(usage_of(survey, segment).used);
            if place >= used || survey.labelled(sector) != Some(name) {
                return Err(mislabelled(name, sector));
            }
        }
    }
    Ok(())
}

// How many sectors of a segment were reached.
fn live_in(survey: &Survey, segment: u32) -> u32 {
    let first = first_sector(segment);
    let mut live: u32 = 0;
    for place in 0..SEGMENT_SECTORS {
        let reached = survey.reached(first.saturating_add(place)).is_some();
        live = live.saturating_add(u32::from(reached));
    }
    live
}

/// Live counts.
pub fn live_stage(survey: &Survey) -> Checked {
    for segment in 0..survey.checkpoint.segments {
        if live_in(survey, segment) != u32::from(usage_of(survey, segment).live) {
            return Err(Stage(9).fails(Part::Segment(segment), 0));
        }
    }
    Ok(())
}

// What a block adds to the need of a tree.
fn need_of(name: Option<BlockName>) -> u64 {
    match name {
        Some(name) => match name.kind {
            BlockKind::Data => 1,
            BlockKind::Leaf | BlockKind::Double | BlockKind::Inode => NEED_OF_META,
            BlockKind::Map | BlockKind::Usage => 0,
        },
        None => 0,
    }
}

/// Space.
pub fn need_stage(survey: &Survey) -> Checked {
    let mut need = LEAST_NEED;
    for sector in 0..survey.sectors() {
        need = need.saturating_add(need_of(survey.reached(sector)));
    }
    if need > NEED_OF_SEGMENT.saturating_mul(u64::from(survey.checkpoint.segments)) {
        return Err(Stage(14).fails(Part::All, 0));
    }
    Ok(())
}

/// Clean segments.
pub fn clean_stage(survey: &Survey) -> Checked {
    let clean = survey.usage.iter().filter(|usage| usage.used == 0).count();
    if clean.saturating_mul(CLEAN_PART as usize) < survey.usage.len() {
        return Err(Stage(15).fails(Part::All, 0));
    }
    Ok(())
}
