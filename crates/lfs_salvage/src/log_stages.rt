//! Stages 1 to 3: usage blocks, summaries and the inode map.
ghost use Rattle.lfs_salvage.specs.Telling.{TellsNothing};

use crate::damage::{Checked, Part, Stage};
use crate::readings::{first_sector, read_sector};
use crate::survey::Survey;
use crate::walk::ROOT;
use lfs_device::SectorDevice;
use lfs_layout::{BlockName, PointerView, SummaryView, UsageView, is_zero};
use lfs_model::BlockKind;
use lfs_model::limits::{BLOCK_SEGMENTS, SEGMENT_SECTORS};

/// A table of the volume.
#[derive(Clone, Copy)]
enum Table {
    Usage,
    Map,
}

/// A block of a table: its place there, and its sector, 0 where there is none.
#[derive(Clone, Copy)]
struct TableBlock {
    index: u32,
    sector: u32,
}

// The name of a block of the inode map or of usage.
fn name_of(kind: BlockKind, index: u32) -> BlockName {
    BlockName {
        file: 0,
        kind,
        index,
    }
}

// Takes in the first entries of a usage block.
fn take_entries(survey: &mut Survey, view: &UsageView<'_>, count: usize) -> Checked {
    for place in 0..count.min(BLOCK_SEGMENTS as usize) {
        survey.usage.push(view.get(place))?;
    }
    Ok(())
}

// Whether the used parts of the segments, as far as they are known, are whole units.
fn are_whole(survey: &Survey) -> bool {
    let power = u32::from(survey.checkpoint.unit_power);
    let mut used = survey.usage.iter().map(|entry| entry.used);
    used.all(|used| used.trailing_zeros() >= power)
}

// Looks at a usage block.
fn take_usage<D: SectorDevice>(device: &mut D, survey: &mut Survey, block: TableBlock) -> Checked
    ensures { TellsNothing (D.state device.old) (D.state device.new) }
{
    let TableBlock { index, sector } = block;
    let part = Part::UsageBlock(index);
    let segments = survey.checkpoint.segments;
    let before = BLOCK_SEGMENTS.saturating_mul(index);
    if (sector != 0) != (before < segments) {
        return Err(Stage(1).fails(part, sector));
    }
    if sector == 0 {
        return Ok(());
    }
    let name = name_of(BlockKind::Usage, index);
    let Some(bytes) = survey.take(device, sector, name) else {
        return Err(Stage(1).fails(part, sector));
    };
    let count = segments.saturating_sub(before).min(BLOCK_SEGMENTS) as usize;
    let Some(view) = UsageView::decode(&bytes, count) else {
        return Err(Stage(1).fails(part, sector));
    };
    take_entries(survey, &view, count)?;
    if !are_whole(survey) {
        return Err(Stage(1).fails(part, sector));
    }
    Ok(())
}

// Looks at a block of the inode map.
fn take_map<D: SectorDevice>(device: &mut D, survey: &mut Survey, block: TableBlock) -> Checked
    ensures { TellsNothing (D.state device.old) (D.state device.new) }
{
    let TableBlock { index, sector } = block;
    if sector == 0 {
        survey.addresses.extend_from_slice(&[0; 128])?;
        return Ok(());
    }
    let part = Part::MapBlock(index);
    let name = name_of(BlockKind::Map, index);
    let Some(bytes) = survey.take(device, sector, name) else {
        return Err(Stage(3).fails(part, sector));
    };
    let addresses = PointerView::new(&bytes).to_array();
    if is_zero(&bytes) || index == 0 && addresses[0] != 0 {
        return Err(Stage(3).fails(part, sector));
    }
    survey.addresses.extend_from_slice(&addresses)?;
    Ok(())
}

// Looks at the blocks of a table, in order.
fn take_table<D: SectorDevice>(
    device: &mut D,
    survey: &mut Survey,
    table: Table,
    sectors: &[u32],
) -> Checked
    ensures { TellsNothing (D.state device.old) (D.state device.new) }
{
    let mut index: u32 = 0;
    for sector in sectors {
        let block = TableBlock {
            index,
            sector: *sector,
        };
        match table {
            Table::Usage => take_usage(device, survey, block)?,
            Table::Map => take_map(device, survey, block)?,
        }
        index = index.saturating_add(1);
    }
    Ok(())
}

/// Usage blocks.
pub fn usage_stage<D: SectorDevice>(device: &mut D, survey: &mut Survey) -> Checked
    ensures { TellsNothing (D.state device.old) (D.state device.new) }
{
    let usage = survey.checkpoint.usage;
    take_table(device, survey, Table::Usage, &usage)
}

// Takes in the names that a summary gives the sectors behind it: how many sectors the chunk has. None
// where there is no summary.
fn take_summary<D: SectorDevice>(device: &mut D, survey: &mut Survey, sector: u32) -> Option<u32>
    ensures { TellsNothing (D.state device.old) (D.state device.new) }
{
    let bytes = read_sector(device, sector)?;
    let view = SummaryView::decode(&bytes)?;
    let mut next = sector.saturating_add(1);
    for place in 0..view.len() {
        survey.label(next, view.get(place));
        next = next.saturating_add(1);
    }
    Some(next.saturating_sub(sector))
}

// Looks at the chunks of a segment whose used part has so many sectors.
fn take_segment<D: SectorDevice>(
    device: &mut D,
    survey: &mut Survey,
    segment: u32,
    used: u32,
) -> Checked
    ensures { TellsNothing (D.state device.old) (D.state device.new) }
{
    let first = first_sector(segment);
    let mut at = 0;
    for _ in 0..SEGMENT_SECTORS {
        if at >= used {
            break;
        }
        let sector = first.saturating_add(at);
        match take_summary(device, survey, sector) {
            Some(count) if count <= used.saturating_sub(at) => at = at.saturating_add(count),
            _ => return Err(Stage(2).fails(Part::Segment(segment), sector)),
        }
    }
    Ok(())
}

/// Summaries.
pub fn summary_stage<D: SectorDevice>(device: &mut D, survey: &mut Survey) -> Checked
    ensures { TellsNothing (D.state device.old) (D.state device.new) }
{
    for segment in 0..survey.checkpoint.segments {
        let used = match survey.usage.get(segment as usize) {
            Some(entry) => u32::from(entry.used),
            None => 0,
        };
        take_segment(device, survey, segment, used)?;
    }
    Ok(())
}

/// The inode map.
pub fn map_stage<D: SectorDevice>(device: &mut D, survey: &mut Survey) -> Checked
    ensures { TellsNothing (D.state device.old) (D.state device.new) }
{
    let map = survey.checkpoint.map;
    take_table(device, survey, Table::Map, &map)?;
    if survey.address(ROOT) == 0 {
        return Err(Stage(3).fails_of(ROOT, Part::Inode, 0));
    }
    Ok(())
}
