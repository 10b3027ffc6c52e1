//! What is known of each segment, after the segment usage table of the Sprite LFS paper (1992,
//! section 3.6).
ghost use Rattle.std.specs.Prelude.{◌≡◌, ◌≢◌, ◌<◌, ◌≤◌, ◌+◌, ◌-◌, ◌*◌, ◌/◌, ◌^◌, ◌==◌, ℕ, suc, true, false, cond, not, length, get_or, replicate, slice_set, IfOk, IfSome, IfNone, IsTrue, IsFalse, None, Some};
ghost use Rattle.lfs_segments.specs.Steps.{Notes, Pads, Lifts, TakesAway, HidesBlocks, TakesSegment, GoesOn, PutsPlace, Releases, SpellsBlock, changed, loaded, staled};
ghost use Rattle.lfs_model.specs.Usage.{IsUse};
ghost use Rattle.lfs_segments.specs.Table.{no_segment, no_place, used_of, live_of, held_of, clean_in, FitsSegment, FitsTable};
ghost use Rattle.lfs_segments.specs.Chunk.{TakesChunk};
ghost use Rattle.lfs_segments.specs.Early.{AreUntaken, early_of, taken_of, early_in, taken_in};
ghost use Rattle.lfs_segments.specs.Settled.{ListsUnsettled};

use crate::releasing::{ROOM, Unsettled, released};
use crate::spelled::SpelledBlocks;
use crate::state::{SegmentState, UsageBlock};
use lfs_layout::SegmentUsage;
use lfs_model::limits::{
    BLOCK_SEGMENTS, MOST_SEGMENTS, MOST_UNIT_POWER, SEGMENT_SECTORS, USAGE_BLOCKS,
};
use std::alloc::{AllocError, Global};
use std::marker::Model;

const CLEAN: SegmentState = SegmentState {
    used: 0,
    live: 0,
    held: 0,
    age: 0,
    kept: 0,
};

const NO_BLOCK: UsageBlock = UsageBlock {
    address: 0,
    stale: false,
};

/// What is known of each segment of a volume, and of the blocks of its usage table.
/// All of its memory is taken as it is made.
#[derive(Drop)]
pub struct Usage {
    states: Vec<SegmentState>,
    blocks: Vec<UsageBlock>,
    clean: u32,
    early: u32,
    taken: u32,
    /// The segment in which the last chunk begun stands.
    last: Option<u32>,
    /// The logarithm to base 2 of how many sectors a unit has.
    unit_power: u8,
    /// The segments whose numbers change as the next checkpoint is acknowledged.
    unsettled: Unsettled,
    /// The blocks of the table as they are written.
    spelled: SpelledBlocks,
}

impl Model for Usage {
    ghost use Rattle.std.specs.Prelude.{◌≡◌};
    ghost use Rattle.lfs_segments.specs.Table.{UsageTable, FitsTable};
    ghost use Rattle.lfs_segments.specs.Early.{AreTotals};
    ghost use Rattle.lfs_segments.specs.Spelling.{AreSpelled};

    ghost Value = { UsageTable };

    ghost view = { λ u. record { segments = u.states.items; blocks = u.blocks.items; last = u.last; unit = u.unit_power } };

    ghost use Rattle.lfs_segments.specs.Settled.{ListsUnsettled};

    ghost invariant = { λ u. FitsTable (record { segments = u.states.items; blocks = u.blocks.items; last = u.last; unit = u.unit_power }) × AreTotals u.states.items u.clean u.early u.taken × ListsUnsettled u.unsettled u.states.items × AreSpelled u.spelled.blocks.items u.states.items };
}

impl Usage {
    /// So many clean segments, and usage blocks that have no address, on a volume whose units have 2
    /// to `unit_power` sectors.
    pub fn new(alloc: Global, segments: u32, unit_power: u8) -> Result<Usage, AllocError>
        requires few { segments ≤ MOST_SEGMENTS }
        requires unit { unit_power ≤ MOST_UNIT_POWER }
        ensures clean { IfOk result (λ u. u.segments ≡ replicate segments no_segment) }
        ensures blocks { IfOk result (λ u. u.blocks ≡ replicate USAGE_BLOCKS no_place) }
        ensures last { IfOk result (λ u. u.last ≡ None) }
        ensures unit { IfOk result (λ u. u.unit ≡ unit_power) }
    {
        let states = Vec::from_elem(alloc, CLEAN, segments as usize)?;
        let blocks = Vec::from_elem(alloc, NO_BLOCK, USAGE_BLOCKS as usize)?;
        let spelled = SpelledBlocks::new(alloc)?;
        Ok(Usage {
            states,
            blocks,
            clean: segments,
            early: 0,
            taken: 0,
            last: None,
            unit_power,
            unsettled: Unsettled::new(),
            spelled,
        })
    }

    /// The table becomes what another one of as many segments is. No memory is asked for.
    pub fn copy_from(&mut self, other: &Usage)
        requires { length self.old.segments ≡ length other.now.segments }
        ensures { self.new ≡ other.now }
    {
        self.states.copy_from_slice(other.states.as_slice());
        self.blocks.copy_from_slice(other.blocks.as_slice());
        self.clean = other.clean;
        self.early = other.early;
        self.taken = other.taken;
        self.last = other.last;
        self.unit_power = other.unit_power;
        self.unsettled = other.unsettled;
        self.spelled.copy_from(&other.spelled);
    }

    /// How many segments there are.
    pub fn segments(&self) -> u32
        ensures value { result ≡ length self.now.segments }
        ensures few { result ≤ MOST_SEGMENTS }
        ensures table { FitsTable self.now }
    {
        self.states.len() as u32
    }

    /// The logarithm to base 2 of how many sectors a unit has.
    pub fn unit_power(&self) -> u8
        ensures value { result ≡ self.now.unit }
        ensures few { result ≤ MOST_UNIT_POWER }
    {
        self.unit_power
    }

    /// How many sectors a unit has.
    pub fn unit_sectors(&self) -> u16
        ensures value { result ≡ 2 ^ self.now.unit }
        ensures some { 0 < result }
    {
        1 << self.unit_power
    }

    /// How many segments are clean.
    pub fn clean(&self) -> u32
        ensures { result ≡ clean_in self.now.segments }
    {
        self.clean
    }

    /// How many blocks of files stand where no acknowledged checkpoint reaches: they were written
    /// between commits, and live there or hold their segment.
    pub fn early(&self) -> u32
        ensures value { result ≡ early_in self.now.segments }
        ensures most { result ≤ SEGMENT_SECTORS * MOST_SEGMENTS }
    {
        self.early
    }

    /// Whether no sector was taken since the acknowledged checkpoint.
    pub fn is_untaken(&self) -> bool
        ensures yes { IsTrue result → AreUntaken self.now }
        ensures no { IsFalse result → 0 < taken_in self.now.segments }
    {
        self.taken == 0
    }

    /// What is known of a segment.
    pub fn state(&self, segment: u32) -> SegmentState
        requires { segment < length self.now.segments }
        ensures value { result ≡ get_or self.now.segments segment no_segment }
        ensures fits { FitsSegment result }
        ensures table { FitsTable self.now }
    {
        self.states[segment as usize]
    }

    /// Takes a clean segment, if there is one: its first sector is in use from then on, for a
    /// summary, and it has this age.
    pub fn take_clean(&mut self, age: u32) -> Option<u32>
        ensures taken { IfSome result (λ s. TakesSegment self.old self.new s age) }
        ensures fits { IfSome result (λ s. s < MOST_SEGMENTS) }
        ensures none { IfNone result ((s : ℕ) → s < length self.old.segments
            → used_of self.old s ≢ 0) }
        ensures same { IfNone result (self.new ≡ self.old) }
    {
        let segment = first_clean(self.states.as_slice())? as u32;
        self.take(segment, age);
        Some(segment)
    }

    /// The last chunk begins in a clean segment, whose first sector is in use from then on.
    fn take(&mut self, segment: u32, age: u32)
        requires inside { segment < length self.old.segments }
        requires clean { used_of self.old segment ≡ 0 }
        ensures { TakesSegment self.old self.new segment age }
    {
        let state = SegmentState {
            used: 1,
            live: 0,
            held: 0,
            age,
            kept: 0,
        };
        self.put(segment, state);
        self.set_last(segment);
    }

    /// The last chunk begun stands in this segment from now on.
    fn set_last(&mut self, segment: u32)
        ensures { self.new ≡ record self.old { last = Some segment } }
    {
        self.last = Some(segment);
    }

    /// The next chunk begins in a clean segment, wherever the last one stands.
    pub fn end_last(&mut self)
        ensures { self.new ≡ record self.old { last = None } }
    {
        self.last = None;
    }

    /// The segment in which the last chunk begun stands.
    pub fn last(&self) -> Option<u32>
        ensures { result ≡ self.now.last }
    {
        self.last
    }

    /// One sector more of a segment is in use, for a summary, and the segment has this age.
    pub fn go_on(&mut self, segment: u32, age: u32)
        requires { TakesChunk self.old segment }
        ensures { GoesOn self.old self.new segment age }
    {
        let state = continued(self.state(segment), age);
        self.change(segment, state);
    }

    /// The numbers of a segment become others.
    fn put(&mut self, segment: u32, state: SegmentState)
        requires inside { segment < length self.old.segments }
        requires fits { FitsSegment state }
        ensures put { self.new ≡ record self.old
            { segments = slice_set self.old.segments segment state } }
        ensures table { FitsTable self.old }
    {
        let was = self.state(segment);
        self.clean = exchanged(self.clean, one_if_clean(was), one_if_clean(state));
        self.early = exchanged(self.early, early_blocks(was), early_blocks(state));
        self.taken = exchanged(self.taken, taken_sectors(was), taken_sectors(state));
        self.states[segment as usize] = state;
        self.unsettled.note(segment, was, state);
        self.spelled.put(segment, state);
    }

    /// The numbers of a segment become others, so that its usage block differs from what the device
    /// has.
    fn change(&mut self, segment: u32, state: SegmentState)
        requires inside { segment < length self.old.segments }
        requires fits { FitsSegment state }
        ensures set { self.new ≡ changed self.old segment state }
        ensures table { FitsTable self.old }
    {
        self.put(segment, state);
        self.make_stale(segment / BLOCK_SEGMENTS);
    }

    /// One sector more of a segment is in use, for a block that lives there, or one of a file
    /// without a name that holds it.
    pub fn note(&mut self, segment: u32, lives: bool)
        requires inside { segment < length self.old.segments }
        requires begun { 0 < used_of self.old segment }
        requires room { used_of self.old segment < SEGMENT_SECTORS }
        ensures { Notes self.old self.new segment lives }
    {
        let state = noted(self.state(segment), lives);
        self.change(segment, state);
    }

    /// A sector more of a segment is in use, for no block.
    pub fn pad(&mut self, segment: u32)
        requires inside { segment < length self.old.segments }
        requires begun { 0 < used_of self.old segment }
        requires room { used_of self.old segment < SEGMENT_SECTORS }
        ensures { Pads self.old self.new segment }
    {
        let state = padded(self.state(segment));
        self.change(segment, state);
    }

    /// A block that lives in a segment, or holds it, is there no more.
    pub fn lift(&mut self, segment: u32, lives: bool)
        requires inside { segment < length self.old.segments }
        requires live { lives ≡ true → 0 < live_of self.old segment }
        requires held { lives ≡ false → 0 < held_of self.old segment }
        ensures { Lifts self.old self.new segment lives }
    {
        let state = lifted(self.state(segment), lives);
        self.change(segment, state);
    }

    /// So many blocks that live in a segment, or hold it, are there no more.
    pub fn take_away(&mut self, segment: u32, count: u16, lives: bool)
        requires inside { segment < length self.old.segments }
        requires live { lives ≡ true → count ≤ live_of self.old segment }
        requires held { lives ≡ false → count ≤ held_of self.old segment }
        ensures { TakesAway self.old self.new segment count lives }
    {
        let state = taken_away(self.state(segment), count, lives);
        self.change(segment, state);
    }

    /// So many blocks that live in a segment hold it from now on: they are those of files that lost
    /// their last name.
    pub fn hide(&mut self, segment: u32, count: u16)
        requires inside { segment < length self.old.segments }
        requires live { count ≤ live_of self.old segment }
        ensures { HidesBlocks self.old self.new segment count }
    {
        let state = hidden(self.state(segment), count);
        self.change(segment, state);
    }

    /// A segment has these numbers on the device.
    pub fn load(&mut self, segment: u32, saved: SegmentUsage)
        requires inside { segment < length self.old.segments }
        requires fits { IsUse saved }
        ensures { self.new ≡ record self.old
            { segments = slice_set self.old.segments segment (loaded saved) } }
    {
        let SegmentUsage { used, live, age } = saved;
        let state = SegmentState {
            used,
            live,
            held: 0,
            age,
            kept: used,
        };
        self.put(segment, state);
    }

    /// Once a checkpoint is acknowledged: a segment where nothing lives and that nothing holds is
    /// clean, and what is in use is kept until the next one.
    pub fn release(&mut self)
        ensures { Releases self.old self.new }
    {
        self.release_numbers();
        self.unsettled = Unsettled::new();
    }

    /// The numbers of all segments become those after a checkpoint is acknowledged.
    fn release_numbers(&mut self)
        ensures { Releases self.old self.new }
    {
        let unsettled = self.unsettled;
        if unsettled.is_full() {
            self.release_all();
            return;
        }
        self.release_listed(&unsettled);
    }

    /// The same, by a look at each segment.
    fn release_all(&mut self)
        ensures { Releases self.old self.new }
    {
        for segment in 0..self.segments() {
            let state = released(self.state(segment));
            self.put(segment, state);
        }
    }

    /// The same, where the list has all segments whose numbers change.
    fn release_listed(&mut self, list: &Unsettled)
        requires listed { ListsUnsettled list.now self.old.segments }
        requires all { list.now.count < ROOM }
        ensures { Releases self.old self.new }
    {
        for at in 0..list.len() {
            let segment = list.get(at);
            let state = released(self.state(segment));
            self.put(segment, state);
        }
    }

    /// The usage block of this index, as a checkpoint has it: a segment where nothing lives has
    /// used 0 and age 0.
    pub fn spelled(&self, index: u32) -> &[u8; 512]
        requires { index < USAGE_BLOCKS }
        ensures { SpellsBlock self.now index result.now }
    {
        self.spelled.get(index)
    }

    fn make_stale(&mut self, index: u32)
        requires { index < USAGE_BLOCKS }
        ensures { self.new ≡ record self.old
            { blocks = slice_set self.old.blocks index (staled self.old index) } }
    {
        let mut block = self.block(index);
        block.stale = true;
        self.blocks[index as usize] = block;
    }

    /// Where a usage block stands, and whether it differs from what the device has.
    pub fn block(&self, index: u32) -> UsageBlock
        requires { index < USAGE_BLOCKS }
        ensures { result ≡ get_or self.now.blocks index no_place }
    {
        self.blocks[index as usize]
    }

    /// A usage block stands at the address, and differs from what the device has, or doesn't.
    pub fn set_block(&mut self, index: u32, address: u32, stale: bool)
        requires { index < USAGE_BLOCKS }
        ensures { PutsPlace self.old self.new index address stale }
    {
        self.blocks[index as usize] = UsageBlock { address, stale };
    }
}

/// A sector more in use, for no block.
fn padded(mut state: SegmentState) -> SegmentState
    requires room { state.used < SEGMENT_SECTORS }
    requires fits { FitsSegment state }
    ensures used { result.used ≡ suc state.used }
    ensures live { result.live ≡ state.live }
    ensures held { result.held ≡ state.held }
    ensures age { result.age ≡ state.age }
    ensures kept { result.kept ≡ state.kept }
{
    state.used += 1;
    state
}

fn noted(state: SegmentState, lives: bool) -> SegmentState
    requires room { state.used < SEGMENT_SECTORS }
    requires fits { FitsSegment state }
    ensures used { result.used ≡ suc state.used }
    ensures live { result.live ≡ cond lives 1 0 + state.live }
    ensures held { result.held ≡ cond (not lives) 1 0 + state.held }
    ensures age { result.age ≡ state.age }
    ensures kept { result.kept ≡ state.kept }
{
    let mut state = padded(state);
    if lives {
        state.live += 1;
    } else {
        state.held += 1;
    }
    state
}

fn continued(state: SegmentState, age: u32) -> SegmentState
    requires room { state.used ≤ SEGMENT_SECTORS - 2 }
    requires fits { FitsSegment state }
    ensures used { result.used ≡ suc state.used }
    ensures live { result.live ≡ state.live }
    ensures held { result.held ≡ state.held }
    ensures age { result.age ≡ age }
    ensures kept { result.kept ≡ state.kept }
{
    SegmentState {
        used: state.used + 1,
        age,
        ..state
    }
}

fn lifted(mut state: SegmentState, lives: bool) -> SegmentState
    requires live { lives ≡ true → 0 < state.live }
    requires held { lives ≡ false → 0 < state.held }
    ensures used { result.used ≡ state.used }
    ensures live { cond lives 1 0 + result.live ≡ state.live }
    ensures held { cond (not lives) 1 0 + result.held ≡ state.held }
    ensures age { result.age ≡ state.age }
    ensures kept { result.kept ≡ state.kept }
{
    if lives {
        state.live -= 1;
    } else {
        state.held -= 1;
    }
    state
}

fn taken_away(mut state: SegmentState, count: u16, lives: bool) -> SegmentState
    requires live { lives ≡ true → count ≤ state.live }
    requires held { lives ≡ false → count ≤ state.held }
    ensures used { result.used ≡ state.used }
    ensures live { result.live ≡ state.live - cond lives count 0 }
    ensures held { result.held ≡ state.held - cond (not lives) count 0 }
    ensures age { result.age ≡ state.age }
    ensures kept { result.kept ≡ state.kept }
{
    if lives {
        state.live -= count;
    } else {
        state.held -= count;
    }
    state
}

fn hidden(mut state: SegmentState, count: u16) -> SegmentState
    requires live { count ≤ state.live }
    requires fits { FitsSegment state }
    ensures used { result.used ≡ state.used }
    ensures live { result.live + count ≡ state.live }
    ensures held { result.held ≡ state.held + count }
    ensures age { result.age ≡ state.age }
    ensures kept { result.kept ≡ state.kept }
{
    state.live -= count;
    state.held += count;
    state
}

fn one_if_clean(state: SegmentState) -> u32
    ensures value { result ≡ cond (state.used == 0) 1 0 }
    ensures most { result ≤ 1 }
{
    if state.used == 0 { 1 } else { 0 }
}

/// The blocks of a segment that no acknowledged checkpoint reaches.
fn early_blocks(state: SegmentState) -> u32
    requires { FitsSegment state }
    ensures value { result ≡ early_of state }
    ensures most { result ≤ SEGMENT_SECTORS }
{
    if state.kept == 0 {
        u32::from(state.live) + u32::from(state.held)
    } else {
        0
    }
}

/// The sectors of a segment that were taken since the acknowledged checkpoint.
fn taken_sectors(state: SegmentState) -> u32
    requires { FitsSegment state }
    ensures value { result ≡ taken_of state }
    ensures most { result ≤ SEGMENT_SECTORS }
{
    u32::from(state.used) - u32::from(state.kept)
}

/// A sum after one of its terms, this one, became another.
fn exchanged(sum: u32, was: u32, is: u32) -> u32
    requires inside { was ≤ sum }
    requires few { sum + is < 2 ^ 32 }
    ensures { result + was ≡ sum + is }
{
    sum + is - was
}

/// The first segment that is clean.
fn first_clean(states: &[SegmentState]) -> Option<usize>
    ensures inside { IfSome result (λ s. s < length states.now) }
    ensures clean { IfSome result (λ s. (get_or states.now s no_segment).used ≡ 0) }
    ensures none { IfNone result ((s : ℕ) → s < length states.now
        → (get_or states.now s no_segment).used ≢ 0) }
{
    for (segment, state) in states.iter().enumerate() {
        if state.used == 0 {
            return Some(segment);
        }
    }
    None
}
