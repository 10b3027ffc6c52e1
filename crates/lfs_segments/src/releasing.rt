//! What becomes of the numbers of a segment as a checkpoint is acknowledged, and the segments to
//! which something happens then, so that a commit looks at these alone.
ghost use Rattle.std.specs.Prelude.{◌≡◌, ◌<◌, ◌≤◌, List, length, get_or, slice_set, IsTrue, IsFalse};
ghost use Rattle.lfs_segments.specs.Table.{SegmentNumbers, FitsSegment, no_segment};
ghost use Rattle.lfs_segments.specs.Steps as steps;
ghost use Rattle.lfs_segments.specs.Settled.{ListsUnsettled, is_settled};

use crate::state::SegmentState;
use lfs_model::limits::MOST_SEGMENTS;

/// How many segments are listed at most.
pub(crate) const ROOM: usize = 64;

/// The segments whose numbers change as a checkpoint is acknowledged, in the order in which they
/// came to it. A list without room may lack some of them.
#[derive(Clone, Copy)]
pub struct Unsettled {
    segments: [u16; ROOM],
    count: usize,
}

impl Unsettled {
    /// A list of none.
    pub fn new() -> Unsettled
        ensures count { result.count ≡ 0 }
        ensures size { length result.segments ≡ ROOM }
    {
        Unsettled {
            segments: [0; ROOM],
            count: 0,
        }
    }

    /// How many are listed.
    pub fn len(&self) -> usize
        ensures { result ≡ self.now.count }
    {
        self.count
    }

    /// Whether there is no room for a further one.
    pub fn is_full(&self) -> bool
        ensures yes { IsTrue result → ROOM ≤ self.now.count }
        ensures no { IsFalse result → self.now.count < ROOM }
    {
        self.count >= ROOM
    }

    /// The segment at a place of the list.
    pub fn get(&self, at: usize) -> u32
        requires low { at < self.now.count }
        requires few { self.now.count ≤ ROOM }
        ensures { result ≡ get_or self.now.segments at 0 }
    {
        u32::from(self.segments[at])
    }

    /// A segment has other numbers from now on. It comes to the list, if these are to change and
    /// the former ones weren't.
    pub fn note(&mut self, segment: u32, was: SegmentState, is: SegmentState)
        requires low { segment < MOST_SEGMENTS }
        requires was { FitsSegment was }
        requires is { FitsSegment is }
        ensures { (segments : List SegmentNumbers) → segment < length segments
            → get_or segments segment no_segment ≡ was → ListsUnsettled self.old segments
            → ListsUnsettled self.new (slice_set segments segment is) }
    {
        if is_settled(is) || !is_settled(was) || self.is_full() {
            return;
        }
        self.segments[self.count] = segment as u16;
        self.count += 1;
    }
}

/// Whether the numbers stay as they are when a checkpoint is acknowledged.
fn is_settled(state: SegmentState) -> bool
    requires { FitsSegment state }
    ensures { result ≡ is_settled state }
{
    let after = released(state);
    after.used == state.used && after.kept == state.kept
}

/// The numbers after a checkpoint is acknowledged.
pub fn released(state: SegmentState) -> SegmentState
    requires { FitsSegment state }
    ensures value { result ≡ steps.released state }
    ensures fits { FitsSegment result }
{
    let empty = state.live == 0 && state.held == 0;
    let left = if empty { 0 } else { state.used };
    SegmentState {
        used: left,
        kept: left,
        ..state
    }
}
