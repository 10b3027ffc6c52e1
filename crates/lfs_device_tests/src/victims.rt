ghost use Rattle.std.specs.Prelude.{◌≤◌};

use crate::helpers::{Row, all_well};
use crate::segments::change;
use lfs_layout::SegmentUsage;
use lfs_memory::segments::victims::{victims, wanted};
use lfs_memory::segments::{Usage, before};

/// Numbers from one up to another, without that.
type Run = (u16, u16);

/// The number of a checkpoint behind that for which the segments were written.
const NOW: u64 = 2;

/// What segments have, or which of them are chosen.
#[derive(Clone, Copy)]
enum Step<'a> {
    /// The segments of a run have so many blocks that live there, and so many that hold them.
    Fill(Run, u16, u16),
    /// So many blocks live in the segments of a run, which were written for the checkpoint of this
    /// number.
    Age(Run, u16, u32),
    /// A chunk begins in a clean segment: in this one.
    Begins(u32),
    /// With so many inodes and blocks of pointers, and at most so many victims: those of these
    /// runs.
    Takes(u32, u32, &'a [Run]),
    /// The same, where the acknowledged checkpoint has this number.
    TakesAt(u64, u32, u32, &'a [Run]),
    /// The same, where so many segments are wanted.
    TakesFor(u32, u32, u32, &'a [Run]),
    /// With so many there are none.
    TakesNone(u32, u32),
    /// Whether a segment of so many blocks, written for the checkpoint of this number, is better to
    /// clean than another, where the acknowledged one has this number.
    Before((u16, u32), (u16, u32), u64, bool),
}

/// A segment is in use, with so many blocks: whether there is such a segment.
fn fill(usage: &mut Usage, segment: u32, live: u16, held: u16) -> bool {
    if segment >= usage.segments() || live > 63 || held > 63 {
        return false;
    }
    let blocks = live + held;
    if blocks == 0 {
        let saved = SegmentUsage {
            used: 2,
            live: 1,
            age: 1,
        };
        usage.load(segment, saved);
        return change(usage, segment, false, true);
    }
    if blocks > 63 {
        return false;
    }
    let saved = SegmentUsage {
        used: blocks + 1,
        live: blocks,
        age: 1,
    };
    usage.load(segment, saved);
    if segment >= usage.segments() || usage.state(segment).live < held {
        return false;
    }
    usage.hide(segment, held);
    true
}

/// So many blocks live in a segment, which was written for the checkpoint of this number: whether
/// there is such a segment.
fn age_segment(usage: &mut Usage, segment: u32, live: u16, age: u32) -> bool {
    if segment >= usage.segments() || live == 0 || live > 63 {
        return false;
    }
    let saved = SegmentUsage {
        used: live + 1,
        live,
        age,
    };
    usage.load(segment, saved);
    true
}

/// Whether these are the victims.
fn takes(usage: &Usage, meta: u32, most: u32, want: u32, now: u64, runs: &[Run]) -> bool
    requires most { most ≤ 129 }
    requires least { 1 ≤ want }
{
    match victims(usage, meta, most, want, now) {
        Some(list) => are(list.as_slice(), runs),
        None => false,
    }
}

/// The number at a place of runs, one after the other.
fn number_at(runs: &[Run], place: usize) -> Option<u16> {
    let mut left = place;
    for (from, to) in runs {
        let count = usize::from(to.saturating_sub(*from));
        if left < count {
            return from.checked_add(left as u16);
        }
        left -= count;
    }
    None
}

/// Whether a list is that of the runs.
fn are(list: &[u16], runs: &[Run]) -> bool {
    for (place, number) in list.iter().enumerate() {
        if number_at(runs, place) != Some(*number) {
            return false;
        }
    }
    number_at(runs, list.len()).is_none()
}

impl Row<Usage> for Step<'_> {
    fn is_well(self, usage: &mut Usage) -> bool {
        match self {
            Step::Fill((from, to), live, held) => {
                for segment in from..to {
                    if !fill(usage, u32::from(segment), live, held) {
                        return false;
                    }
                }
                true
            }
            Step::Age((from, to), live, age) => {
                for segment in from..to {
                    if !age_segment(usage, u32::from(segment), live, age) {
                        return false;
                    }
                }
                true
            }
            Step::Begins(segment) => usage.take_clean(1) == Some(segment),
            Step::Takes(meta, most, runs) if most <= 129 => {
                let want = wanted(usage);
                takes(usage, meta, most, want, NOW, runs)
            }
            Step::TakesAt(now, meta, most, runs) if most <= 129 => {
                let want = wanted(usage);
                takes(usage, meta, most, want, now, runs)
            }
            Step::TakesFor(want, meta, most, runs) if most <= 129 && want >= 1 => {
                takes(usage, meta, most, want, NOW, runs)
            }
            Step::TakesNone(meta, most) if most <= 129 => {
                victims(usage, meta, most, 1, NOW).is_none()
            }
            Step::Before(a, b, now, want) if a.0 <= 63 && b.0 <= 63 => before(a, b, now) == want,
            _ => false,
        }
    }
}

#[test]
fn segments_of_as_many_blocks(rt: HostRuntime) {
    // k segments of b blocks each gain k less what k * b + meta + 48 fill at 63 each. No segment is
    // clean, so 16 are wanted, and nine gain most.
    let rows = [
        // No segment of a new volume is in use.
        Step::TakesNone(0, 129),
        // 63 * k + 48 is more than 63 * (k - 1) for each k.
        Step::Fill((0, 64), 63, 0),
        Step::TakesNone(0, 129),
        // Without blocks it is 48 + meta: 63 fill one segment, and nine gain eight.
        Step::Fill((0, 64), 0, 0),
        Step::Takes(0, 9, &[(0, 9)]),
        Step::Takes(15, 9, &[(0, 9)]),
        // 64 fill two. Three gain one, and two gain none.
        Step::Takes(16, 3, &[(0, 3)]),
        Step::TakesNone(16, 2),
        Step::TakesNone(4_294_967_295, 129),
        // A list has two segments at least.
        Step::TakesNone(0, 0),
        Step::TakesNone(0, 1),
        Step::Takes(0, 2, &[(0, 2)]),
        // 9 + 10 + 48 is 67, and fills two. 9 + 8 * 10 + 48 is 137, and fills three of nine.
        Step::Fill((0, 64), 10, 0),
        Step::Fill((40, 41), 9, 0),
        Step::TakesNone(0, 2),
        Step::Takes(0, 9, &[(40, 41), (0, 8)]),
    ];
    all_well(&rt, Usage::new(rt.alloc(), 64, 0), &rows);
}

#[test]
fn blocks_that_hold_a_segment_count(rt: HostRuntime) {
    // By live blocks alone 5 and 6 would come first, and gain: 0 + 10 + 48 is 58 of 63.
    let rows = [
        Step::Fill((0, 72), 63, 0),
        Step::Fill((5, 6), 0, 30),
        Step::Fill((6, 7), 10, 10),
        Step::Fill((7, 8), 25, 0),
        // 20 + 25 + 48 is 93 of 63, and 20 + 25 + 30 + 48 is 123 of 126.
        Step::TakesNone(0, 2),
        Step::Takes(0, 10, &[(6, 8), (5, 6)]),
        Step::Takes(3, 3, &[(6, 8), (5, 6)]),
        // Each further segment is full, and asks for as many as it gives.
        Step::TakesNone(4, 72),
    ];
    all_well(&rt, Usage::new(rt.alloc(), 72, 0), &rows);
}

#[test]
fn as_many_victims_as_a_list_holds(rt: HostRuntime) {
    // 62 * k + meta + 48 is at most 63 * (k - 1) from k of meta + 111 on.
    let rows = [
        Step::Fill((0, 1_024), 62, 0),
        Step::TakesNone(0, 110),
        Step::Takes(0, 129, &[(0, 111)]),
        Step::TakesNone(18, 128),
        Step::Takes(18, 129, &[(0, 129)]),
        Step::TakesNone(19, 129),
    ];
    all_well(&rt, Usage::new(rt.alloc(), 1_024, 0), &rows);
}

#[test]
fn a_tree_with_the_greatest_need(rt: HostRuntime) {
    // One segment less than a quarter is clean, and all blocks with six times meta and 672 are 47
    // for each segment: 3,008 of 64.
    let data = [
        // 33 * 48 + 16 * 47 is 2,336. 47 * k + 48 is at most 63 * (k - 1) from 7 on.
        Step::Fill((0, 33), 48, 0),
        Step::Fill((33, 49), 47, 0),
        Step::TakesNone(0, 6),
        Step::Takes(0, 9, &[(33, 40)]),
        // 12 * 7 + 37 * 8 is 380, and 326 * 6 is 1,956. 7 * k + 374 is at most 63 * (k - 1) from 8
        // on: 430 of eight fill seven, and so do 437 of nine.
        Step::Fill((0, 12), 7, 0),
        Step::Fill((12, 49), 8, 0),
        Step::TakesNone(326, 7),
        Step::Takes(326, 8, &[(0, 8)]),
        Step::Takes(326, 9, &[(0, 9)]),
    ];
    all_well(&rt, Usage::new(rt.alloc(), 64, 0), &data);
    // 672 * 9 + 97 * 8 is 6,824, and 6,772 * 6 is 40,632: 48,128 for 1,024. 9 * k + 6,723 is at
    // most 63 * (k - 1) from 126 on.
    let meta = [
        Step::Fill((0, 672), 9, 0),
        Step::Fill((672, 769), 8, 0),
        Step::TakesNone(6_772, 125),
        Step::Takes(6_772, 126, &[(672, 769), (0, 29)]),
        // 97 * 8 + 31 * 9 + 6,820 is 7,875, which fills 125 of 128. 129 fill 126, and gain no more.
        Step::Takes(6_772, 129, &[(672, 769), (0, 31)]),
    ];
    all_well(&rt, Usage::new(rt.alloc(), 1_024, 0), &meta);
}

#[test]
fn as_many_as_are_missing_to_a_quarter(rt: HostRuntime) {
    let rows = [
        // Of 64 segments 24 are clean: four are wanted. 48 fill one segment, so five gain them.
        Step::Fill((0, 40), 0, 0),
        Step::Takes(0, 9, &[(0, 5)]),
        // Where only four may be taken, three are gained.
        Step::Takes(0, 4, &[(0, 4)]),
        // 10 are clean: six are missing to 16.
        Step::Fill((40, 54), 0, 0),
        Step::Takes(0, 9, &[(0, 7)]),
        // With 10 blocks each seven fill two segments, and eight and nine fill three.
        Step::Fill((0, 54), 10, 0),
        Step::Takes(0, 8, &[(0, 7)]),
        Step::Takes(0, 9, &[(0, 9)]),
        // Where one is wanted three gain it: 10 * 3 + 48 is 78, and fills two. Where two are, four
        // do: 88 fills two.
        Step::TakesFor(1, 0, 9, &[(0, 3)]),
        Step::TakesFor(2, 0, 9, &[(0, 4)]),
        // More than can be gained: nine gain most.
        Step::TakesFor(60, 0, 9, &[(0, 9)]),
    ];
    all_well(&rt, Usage::new(rt.alloc(), 64, 0), &rows);
}

#[test]
fn the_segment_of_the_last_chunk_is_no_victim(rt: HostRuntime) {
    let rows = [
        Step::Begins(0),
        Step::Fill((1, 10), 0, 0),
        Step::Takes(0, 9, &[(1, 6)]),
        // It may be taken where a chunk began elsewhere since.
        Step::Begins(10),
        Step::Takes(0, 9, &[(0, 5)]),
    ];
    all_well(&rt, Usage::new(rt.alloc(), 64, 0), &rows);
}

#[test]
fn victims_by_benefit_and_cost(rt: HostRuntime) {
    let rows = [
        // 23 * 80 of 103 is more than 53 * 5 of 73: the old ones go first, though they have more
        // blocks. 8 * 40 + 48 is 368, which fills six of eight. Nine fill seven.
        Step::Age((0, 8), 10, 95),
        Step::Age((8, 20), 40, 20),
        Step::TakesAt(100, 0, 9, &[(8, 16)]),
        // As the younger ones get older, they are worth more. 6 * 10 + 48 is 108 and fills two.
        Step::TakesAt(1_000, 0, 9, &[(0, 6)]),
        // An age past the checkpoint counts as none: all are worth nothing, and go by their numbers.
        Step::TakesAt(20, 0, 9, &[(0, 6)]),
    ];
    all_well(&rt, Usage::new(rt.alloc(), 64, 0), &rows);
    let rows = [
        // 1 * 99 of 125 is more than 53 * 1 of 73. But nine with 62 blocks gain nothing, so those
        // with the least blocks are taken.
        Step::Age((0, 12), 62, 1),
        Step::Age((12, 20), 10, 99),
        Step::TakesAt(100, 0, 9, &[(12, 18)]),
    ];
    all_well(&rt, Usage::new(rt.alloc(), 64, 0), &rows);
}

#[test]
fn quotients_of_benefit_and_cost(rt: HostRuntime) {
    let rows = [
        // 1,840 * 73 is 134,320, and 265 * 103 is 27,295.
        Step::Before((40, 20), (10, 95), 100, true),
        Step::Before((10, 95), (40, 20), 100, false),
        // Of an age past the checkpoint, and without room, both are worth nothing.
        Step::Before((10, 200), (63, 0), 100, false),
        Step::Before((63, 0), (10, 200), 100, false),
        Step::Before((20, 50), (20, 60), 100, true),
        Step::Before((20, 60), (20, 50), 100, false),
        // Products that 64 bits don't hold.
        Step::Before((0, 0), (1, 0), 18_446_744_073_709_551_615, true),
        Step::Before((1, 0), (0, 0), 18_446_744_073_709_551_615, false),
    ];
    all_well(&rt, Usage::new(rt.alloc(), 64, 0), &rows);
}
