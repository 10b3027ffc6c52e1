ghost use Rattle.std.specs.Prelude.{◌<◌, ◌≤◌, ◌+◌, ◌*◌};
ghost use Rattle.lfs_memory.specs.segments.Chunk.{IsOpenChunk};

use crate::helpers::{Row, all_well, name};
use lfs_device::{InSectors, MemDevice, NoMemory, SectorDevice};
use lfs_layout::{SegmentUsage, SummaryView, UsageView, is_placed};
use lfs_memory::segments::{ChunkWriter, Usage};
use lfs_model::BlockKind;
use rand_core::Rng;
use rand_pcg::Pcg32;
use std::alloc::Global;

/// Places so many data blocks, and tells how many got the address that they should.
fn fill(chunk: &mut ChunkWriter, usage: &mut Usage, count: u32) -> u32
    requires { IsOpenChunk chunk.old usage.old }
    ensures { IsOpenChunk chunk.new usage.new }
{
    let mut right = 0u32;
    for index in 0..count {
        let name = name(7, BlockKind::Data, index);
        if chunk.is_full() || !is_placed(name) {
            return right;
        }
        let next = usage.state(chunk.segment()).used;
        let first = 2 + 64 * chunk.segment() + u32::from(next);
        if chunk.place(usage, name, true) == first {
            right = right.saturating_add(1);
        }
    }
    right
}

/// The first sector behind the chunk.
fn end_of(chunk: &ChunkWriter, usage: &Usage) -> u32
    requires { IsOpenChunk chunk.now usage.now }
    ensures { chunk.now.segment * 64 + chunk.now.start + 2 < result }
{
    2 + 64 * chunk.segment() + u32::from(usage.state(chunk.segment()).used)
}

/// A device in memory whose units are sectors.
type MemorySectors = InSectors<MemDevice>;

/// What the summary at a place of a segment names, if it is one: how many blocks, and the last
/// one's index.
fn named(device: &mut MemorySectors, segment: u32, place: u32) -> Option<(usize, u32)>
    requires segment { segment < 1024 }
    requires place { place < 64 }
{
    let mut sector = [0; 512];
    let address = 2 + 64 * segment + place;
    if address >= device.sectors() || device.read(address, &mut sector).is_err() {
        return None;
    }
    let summary = SummaryView::decode(&sector)?;
    let last = summary.len().checked_sub(1)?;
    Some((summary.len(), summary.get(last).index))
}

/// Fills a chunk and seals it: how many places were right, and what its summary names then, which
/// is the first of its segment.
fn write_chunk(
    device: &mut MemorySectors,
    usage: &mut Usage,
    count: u32,
) -> Option<(u32, u32, usize, u32)> {
    let mut chunk = ChunkWriter::new();
    let segment = chunk.begin(usage, 5)?;
    let right = fill(&mut chunk, usage, count);
    if chunk.is_empty() || end_of(&chunk, usage) > device.sectors() {
        return None;
    }
    chunk.seal(device, usage).ok()?;
    let (blocks, last) = named(device, chunk.segment(), 0)?;
    Some((segment, right, blocks, last))
}

/// How many blocks a chunk gets, and the index of the last one.
#[derive(Clone, Copy)]
struct Chunk(u32, u32);

impl Row<(MemorySectors, Usage)> for Chunk {
    /// Whether a chunk comes to the first segment, one to the last where that alone is clean, and
    /// then none, where there is no room behind that.
    fn is_well(self, (device, usage): &mut (MemorySectors, Usage)) -> bool {
        let Chunk(count, last) = self;
        let blocks = count as usize;
        if write_chunk(device, usage, count) != Some((0, count, blocks, last)) {
            return false;
        }
        for _ in 0..1_024 {
            if usage.clean() > 1 {
                let _ = usage.take_clean(1);
            }
        }
        let end = usage.segments().saturating_sub(1);
        write_chunk(device, usage, count) == Some((end, count, blocks, last))
            && usage.clean() == 0
            && (count < 62 || write_chunk(device, usage, count).is_none())
    }
}

/// A device for so many segments, and a table where all are clean.
fn volume(alloc: Global, segments: u32) -> Result<(MemorySectors, Usage), NoMemory>
    requires { segments ≤ 1024 }
{
    let device = MemDevice::new(alloc, 2 + 64 * segments)?;
    Ok((InSectors::new(device), Usage::new(alloc, segments, 0)?))
}

#[test]
fn chunks_in_the_first_segment_and_the_last(rt: HostRuntime) {
    for segments in [64, 72, 1_024] {
        for chunk in [Chunk(1, 0), Chunk(62, 61), Chunk(63, 62)] {
            all_well(&rt, volume(rt.alloc(), segments), &[chunk]);
        }
    }
}

/// How many blocks the first chunk of a writer has and how many the second, whether the first ones
/// leave before the second begins, the segment that this comes to, and its start there.
#[derive(Clone, Copy)]
struct Pair(u32, u32, bool, u32, u32);

impl Row<(MemorySectors, Usage)> for Pair {
    /// Whether the second chunk comes there, and its summary names so many blocks.
    fn is_well(self, context: &mut (MemorySectors, Usage)) -> bool {
        let (device, usage) = context;
        write_pair(device, usage, self) == Some((self.3, self.1))
    }
}

/// Writes both: the segment of the second, and how many blocks its summary names.
fn write_pair(device: &mut MemorySectors, usage: &mut Usage, pair: Pair) -> Option<(u32, u32)> {
    let Pair(first, second, leaves, _, start) = pair;
    let mut chunk = ChunkWriter::new();
    write_next(&mut chunk, device, usage, first)?;
    if leaves {
        for _ in 0..first {
            change(usage, chunk.segment(), false, true);
        }
    }
    write_next(&mut chunk, device, usage, second)?;
    if start >= 64 {
        return None;
    }
    let (blocks, _) = named(device, chunk.segment(), start)?;
    Some((chunk.segment(), u32::try_from(blocks).ok()?))
}

/// Begins a chunk, fills it and seals it, if all its blocks find places.
fn write_next(
    chunk: &mut ChunkWriter,
    device: &mut MemorySectors,
    usage: &mut Usage,
    count: u32,
) -> Option<()> {
    if !chunk.is_empty() {
        return None;
    }
    chunk.begin(usage, 5)?;
    if fill(chunk, usage, count) != count || chunk.is_empty() {
        return None;
    }
    if end_of(chunk, usage) > device.sectors() {
        return None;
    }
    chunk.seal(device, usage).ok()
}

/// A chunk begins behind the last one where its segment has room for a summary and a block and
/// something lives there, else in a clean segment.
#[test]
fn chunks_behind_others(rt: HostRuntime) {
    let rows = [
        Pair(1, 1, false, 0, 2),
        Pair(3, 5, false, 0, 4),
        Pair(61, 1, false, 0, 62),
        Pair(62, 1, false, 1, 0),
        Pair(63, 7, false, 1, 0),
        Pair(3, 5, true, 1, 0),
    ];
    for row in rows {
        all_well(&rt, volume(rt.alloc(), 64), &[row]);
    }
}

/// What is known of a segment beside the table: used, live, held, kept.
type Plain = (u16, u16, u16, u16);

/// A block comes to a segment or leaves it, where one may.
pub(crate) fn change(usage: &mut Usage, segment: u32, comes: bool, lives: bool) -> bool {
    if segment >= usage.segments() {
        return false;
    }
    let state = usage.state(segment);
    if comes {
        if state.used == 0 || state.used >= 64 {
            return false;
        }
        usage.note(segment, lives);
        return true;
    }
    if lives {
        if state.live == 0 {
            return false;
        }
        usage.lift(segment, true);
        return true;
    }
    if state.held == 0 {
        return false;
    }
    usage.lift(segment, false);
    true
}

/// The same beside it.
fn changed(kept: Plain, comes: bool, lives: bool) -> Option<Plain> {
    let (used, live, held, until) = kept;
    if comes {
        if used == 0 || used >= 64 {
            return None;
        }
        return Some(if lives {
            (used + 1, live.checked_add(1)?, held, until)
        } else {
            (used + 1, live, held.checked_add(1)?, until)
        });
    }
    Some(if lives {
        (used, live.checked_sub(1)?, held, until)
    } else {
        (used, live, held.checked_sub(1)?, until)
    })
}

/// So many blocks that live in a segment hold it from now on, where it has them.
fn hide(usage: &mut Usage, segment: u32, count: u16) -> bool {
    if segment >= usage.segments() || usage.state(segment).live < count {
        return false;
    }
    usage.hide(segment, count);
    true
}

/// The same beside it.
fn hidden(kept: Plain, count: u16) -> Option<Plain> {
    let (used, live, held, until) = kept;
    Some((
        used,
        live.checked_sub(count)?,
        held.checked_add(count)?,
        until,
    ))
}

fn released(kept: Plain) -> Plain {
    let (used, live, held, _) = kept;
    if live == 0 && held == 0 {
        (0, 0, 0, 0)
    } else {
        (used, live, held, used)
    }
}

/// A block comes or leaves, or two hold their segment from now on; whether both agree on it.
fn move_blocks(usage: &mut Usage, place: &mut Plain, segment: u32, what: u32) -> bool {
    let comes = what >= 8;
    let lives = what % 2 == 0;
    let (next, done) = if what == 3 {
        (hidden(*place, 2), hide(usage, segment, 2))
    } else {
        let next = changed(*place, comes, lives);
        (next, change(usage, segment, comes, lives))
    };
    *place = next.unwrap_or(*place);
    done == next.is_some()
}

/// One step on both, chosen by a number; whether they agree on it.
fn step_both(usage: &mut Usage, kept: &mut [Plain], dice: u32) -> bool {
    let segment = dice / 16 % 64;
    match dice % 16 {
        0 => {
            usage.release();
            for place in kept.iter_mut() {
                *place = released(*place);
            }
            true
        }
        1 | 2 => {
            let first = kept.iter().position(|place| place.0 == 0);
            let taken = usage.take_clean(dice);
            if let Some(segment) = first {
                kept[segment] = (1, 0, 0, 0);
            }
            taken.map(|segment| segment as usize) == first
        }
        what => match kept.get_mut(segment as usize) {
            Some(place) => move_blocks(usage, place, segment, what),
            None => false,
        },
    }
}

/// Whether both know the same.
fn agree(usage: &Usage, kept: &[Plain]) -> bool {
    let mut clean = 0u32;
    for (segment, place) in kept.iter().enumerate() {
        let Ok(segment) = u32::try_from(segment) else {
            return false;
        };
        if segment >= usage.segments() {
            return false;
        }
        let state = usage.state(segment);
        if (state.used, state.live, state.held, state.kept) != *place {
            return false;
        }
        if place.0 == 0 {
            clean = clean.saturating_add(1);
        }
    }
    usage.clean() == clean
}

/// The number that random steps begin with.
#[derive(Clone, Copy)]
struct Seed(u32);

impl Row<Usage> for Seed {
    /// Whether the table and a plain list agree after each of 4,000 steps.
    fn is_well(self, usage: &mut Usage) -> bool {
        let mut kept = [(0, 0, 0, 0); 64];
        let mut generator = Pcg32::new(u64::from(self.0), 1);
        for _ in 0..4_000 {
            if !step_both(usage, &mut kept, generator.next_u32()) || !agree(usage, &kept) {
                return false;
            }
        }
        true
    }
}

#[test]
fn a_random_sequence_beside_a_plain_list(rt: HostRuntime) {
    all_well(&rt, Usage::new(rt.alloc(), 64, 0), &[Seed(1)]);
}

/// What is done with segment 71, and what is seen.
#[derive(Clone, Copy)]
enum Step {
    /// The first 72 segments are taken for checkpoint 9.
    Take,
    /// A block is placed, and lives or holds the segment.
    Place(bool),
    /// What usage block 1 says: used, live, age.
    Says(u16, u16, u32),
}

fn says(usage: &Usage) -> Option<SegmentUsage> {
    let count = usage.segments().checked_sub(64)? as usize;
    let bytes = usage.spelled(1);
    Some(UsageView::decode(bytes, count)?.get(7))
}

impl Row<Usage> for Step {
    fn is_well(self, usage: &mut Usage) -> bool {
        match self {
            Step::Take => {
                for _ in 0..72 {
                    let _ = usage.take_clean(9);
                }
                true
            }
            Step::Place(lives) => change(usage, 71, true, lives),
            Step::Says(used, live, age) => says(usage) == Some(SegmentUsage { used, live, age }),
        }
    }
}

#[test]
fn a_usage_block_counts_what_lives(rt: HostRuntime) {
    // Nothing lives in a segment with a summary alone, nor in one that is only held.
    let steps = [
        Step::Take,
        Step::Says(0, 0, 0),
        Step::Place(true),
        Step::Place(false),
        Step::Place(true),
        Step::Says(4, 2, 9),
    ];
    let held = [Step::Take, Step::Place(false), Step::Says(0, 0, 0)];
    for segments in [72, 1_024] {
        all_well(&rt, Usage::new(rt.alloc(), segments, 0), &steps);
        all_well(&rt, Usage::new(rt.alloc(), segments, 0), &held);
    }
}
