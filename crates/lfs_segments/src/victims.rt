//! Which segments a pass of the cleaner empties: those that are worth most by benefit and cost, or
//! those with the least blocks.
ghost use Rattle.std.specs.Prelude.{◌≡◌, ◌<◌, ◌≤◌, ◌+◌, ◌-◌, ◌/◌, ℕ, List, Some, None, length, take, max, suc, IfSome, IfNone, IsTrue, IsFalse, IsSome};
ghost use Rattle.lfs_segments.specs.Table.{FitsTable, UsageTable};
ghost use Rattle.lfs_segments.specs.Victims.{AreVictims, IsChosen, MayBeVictim, IsPressed, pass_limit, wanted_gain};
ghost use Rattle.lfs_segments.specs.Choosing.{Exhausts, IsAhead, IsBehind, IsCandidate, IsChoiceBy, IsKnown, Leads};

use crate::candidate::{Candidate, Preference};
use crate::order::precedes;
use crate::usage::Usage;
use arrayvec::ArrayVec;
use lfs_model::limits::{CHUNK_BLOCKS, MOST_SEGMENTS, TABLE_BLOCKS};

/// How many blocks a segment takes beside the summary of its chunk.
const BLOCKS: u64 = CHUNK_BLOCKS as u64;

/// How many segments a pass has at most: of an eighth of all, one more gains.
pub const MOST_VICTIMS: u32 = MOST_SEGMENTS / 8 + 1;

/// How many segments a pass is to gain at least, where it can.
const LEAST_GAIN: u32 = 4;

/// Segments that can be emptied into fewer than they are. The blocks of a segment are those that
/// live there and those that hold it. With them go so many inodes and blocks of pointers, and the
/// blocks of the inode map and of the usage table. The segment of the last chunk is never taken.
///
/// Those go first whose cleaning is worth most by benefit and cost, where the acknowledged
/// checkpoint has number `now`: of such lists, of at most so many segments, the shortest that gains
/// as many segments as are wanted, or else the one that gains most. Where none of them gains, the
/// same of the lists in which those with the least blocks go first. There is none where no list of
/// so few segments in use gains.
pub fn victims(
    usage: &Usage,
    meta: u32,
    most: u32,
    wanted: u32,
    now: u64,
) -> Option<ArrayVec<u16, 129>>
    requires most { most ≤ MOST_VICTIMS }
    requires least { 1 ≤ wanted }
    ensures some { IfSome result (λ v. AreVictims usage.now meta most v.items) }
    ensures choice { IfSome result (λ v. IsChosen usage.now meta most wanted now v.items) }
    ensures none { IfNone result ((vs : List ℕ) → AreVictims usage.now meta most vs → ⊥) }
    ensures found { IsPressed usage.now meta → most ≡ pass_limit usage.now → IsSome result }
{
    if let Some(chosen) = choose(usage, meta, most, wanted, Preference::Benefit(now)) {
        return Some(chosen);
    }
    choose(usage, meta, most, wanted, Preference::Load)
}

/// Of the first segments of an order, those by which so many segments are gained as are wanted, the
/// fewest, or else those that gain most.
fn choose(
    usage: &Usage,
    meta: u32,
    most: u32,
    wanted: u32,
    preference: Preference,
) -> Option<ArrayVec<u16, 129>>
    requires most { most ≤ MOST_VICTIMS }
    requires least { 1 ≤ wanted }
    ensures some { IfSome result (λ v. IsChoiceBy usage.now meta most wanted preference v.items) }
    ensures none { IfNone result (Exhausts usage.now meta most preference) }
{
    let _count = usage.segments();
    let mut chosen = ArrayVec::new();
    let mut blocks = 0;
    let mut last = None;
    let mut best = 0;
    let mut count = 0;
    for others in 0..most {
        let Some(next) = next_candidate(usage, preference, last) else {
            return shortened(chosen, count);
        };
        chosen.push(next.segment);
        blocks += u32::from(next.load);
        let gain = gain(blocks, meta, others + 1);
        if gain >= wanted {
            return Some(chosen);
        }
        if gain > best {
            best = gain;
            count = others + 1;
        }
        last = Some(next);
    }
    shortened(chosen, count)
}

/// The first ones of the list, if any are to be taken.
fn shortened(mut chosen: ArrayVec<u16, 129>, count: u32) -> Option<ArrayVec<u16, 129>>
    ensures some { IfSome result (λ v. (0 < count) × (v.items ≡ take count chosen.items)) }
    ensures none { IfNone result (count ≡ 0) }
{
    if count == 0 {
        return None;
    }
    chosen.truncate(count as usize);
    Some(chosen)
}

/// How many segments a pass is to gain that makes a quarter clean: those that are missing to it, and
/// four at least.
pub fn wanted(usage: &Usage) -> u32
    ensures value { result ≡ wanted_gain usage.now }
    ensures some { 1 ≤ result }
{
    let missing = (usage.segments() / 4).saturating_sub(usage.clean());
    missing.max(LEAST_GAIN)
}

/// By how many segments so many are more than their blocks fill, with those of the tables.
fn gain(blocks: u32, meta: u32, segments: u32) -> u32
    ensures { result ≡ segments - (blocks + meta + TABLE_BLOCKS + (CHUNK_BLOCKS - 1)) / CHUNK_BLOCKS }
{
    let filled = (u64::from(blocks) + u64::from(meta) + u64::from(TABLE_BLOCKS) + BLOCKS - 1)
        / BLOCKS;
    segments.saturating_sub(filled as u32)
}

/// The segment that comes next behind the last one, or the first of all.
fn next_candidate(
    usage: &Usage,
    preference: Preference,
    last: Option<Candidate>,
) -> Option<Candidate>
    requires { IsKnown usage.now last }
    ensures leads { Leads usage.now preference last (length usage.now.segments) result }
{
    let mut next = None;
    for segment in 0..usage.segments() {
        if let Some(found) = candidate(usage, segment) {
            next = nearer(preference, last, next, found);
        }
    }
    next
}

/// The segment, if it may be cleaned: it is in use, and the last chunk doesn't stand there.
fn candidate(usage: &Usage, segment: u32) -> Option<Candidate>
    requires { segment < length usage.now.segments }
    ensures some { IfSome result (λ c. (c.segment ≡ segment) × IsCandidate usage.now c) }
    ensures none { IfNone result (MayBeVictim usage.now segment → ⊥) }
{
    let state = usage.state(segment);
    if state.used == 0 || usage.last() == Some(segment) {
        return None;
    }
    Some(Candidate {
        load: state.live + state.held,
        age: state.age,
        segment: segment as u16,
    })
}

/// What is found, if it comes behind the last one and before the next; the next else.
fn nearer(
    preference: Preference,
    last: Option<Candidate>,
    next: Option<Candidate>,
    found: Candidate,
) -> Option<Candidate>
    ensures { (t : UsageTable) → IsKnown t last → IsCandidate t found
        → Leads t preference last found.segment next
        → Leads t preference last (suc found.segment) result }
{
    if is_ahead(preference, next, found) && is_behind(preference, last, found) {
        Some(found)
    } else {
        next
    }
}

/// Whether a segment comes behind the last one, if there is one.
fn is_behind(preference: Preference, last: Option<Candidate>, found: Candidate) -> bool
    ensures yes { IsTrue result → (t : UsageTable) → IsKnown t last → IsCandidate t found
        → IsBehind t preference last found.segment }
    ensures no { IsFalse result → (t : UsageTable) → IsKnown t last → IsCandidate t found
        → IsBehind t preference last found.segment → ⊥ }
{
    match last {
        Some(last) => precedes(preference, last, found),
        None => true,
    }
}

/// Whether a segment comes before the next one, if there is one.
fn is_ahead(preference: Preference, next: Option<Candidate>, found: Candidate) -> bool
    ensures yes { IsTrue result → (t : UsageTable) → IsKnown t next → IsCandidate t found
        → IsAhead t preference next found.segment }
    ensures no { IsFalse result → (t : UsageTable) → IsKnown t next → IsCandidate t found
        → IsAhead t preference next found.segment → ⊥ }
{
    match next {
        Some(next) => precedes(preference, found, next),
        None => true,
    }
}
