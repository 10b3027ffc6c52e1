//! Chunks: a summary and the blocks behind it, in a clean segment or behind other chunks.
ghost use Rattle.std.specs.Prelude.{◌≡◌, ◌≢◌, ◌<◌, ◌≤◌, ◌+◌, ◌-◌, ◌*◌, ◌/◌, ◌++◌, [], ◌∷◌, ℕ, Some, true, None, length, IfSome, IfNone, OnOk, OnErr};
ghost use Rattle.lfs_model.specs.Device.{put, MayWriteUnit, CrashWritesUnit};
ghost use Rattle.lfs_model.specs.Entry.{entries_in};
ghost use Rattle.lfs_model.specs.Summary.{IsPlaced, summary_sector};
ghost use Rattle.lfs_segments.specs.Table.{used_of, clean_in, stale_of};
ghost use Rattle.lfs_segments.specs.Steps.{Begins, GoesOn, Notes, Pads, TakesSegment};
ghost use Rattle.lfs_segments.specs.Once.{EachOnce, WritesNothing, WritesTo};
ghost use Rattle.lfs_segments.specs.Chunk.{IsOpenChunk, AsksOneWrite, IsUnkeptBy, StaysInPlace, TakesChunk, entries_of, due_in, summary_at, usage_name};

use crate::usage::Usage;
use arrayvec::ArrayVec;
use lfs_device::{DeviceFault, SectorDevice};
use lfs_layout::{BlockName, encode_summary};
use lfs_model::BlockKind;
use lfs_model::limits::{
    BLOCK_SEGMENTS, CHECKPOINT_SLOTS, CHUNK_BLOCKS, MOST_SEGMENTS, SEGMENT_SECTORS, USAGE_BLOCKS,
};
use std::marker::Model;

/// The last place in a segment at which a chunk may begin: a block has room behind its summary.
const LAST_START: u16 = SEGMENT_SECTORS as u16 - 2;

/// The chunk that is being filled, if there is one: its segment, the place of its summary there,
/// and the names of the blocks that have a place in it.
#[derive(Drop)]
pub struct ChunkWriter {
    segment: u32,
    start: u32,
    names: ArrayVec<BlockName, 63>,
}

impl Model for ChunkWriter {
    ghost use Rattle.std.specs.Prelude.{◌<◌, ◌≤◌, ◌-◌};
    ghost use Rattle.lfs_model.specs.declared.limits.TheConstants.{MOST_SEGMENTS, SEGMENT_SECTORS};
    ghost use Rattle.lfs_segments.specs.Chunk.{Chunk, IsChunk};

    ghost Value = { Chunk };

    ghost view = { λ c. record { segment = c.segment; start = c.start; names = c.names.items } };

    ghost invariant = { λ c. (c.segment < MOST_SEGMENTS) × (c.start ≤ SEGMENT_SECTORS - 2) × IsChunk c.names.items };
}

impl ChunkWriter {
    /// No chunk, and none that was written: the first one begins in a clean segment.
    pub fn new() -> ChunkWriter
        ensures { result.names ≡ [] }
    {
        ChunkWriter {
            segment: 0,
            start: 0,
            names: ArrayVec::new(),
        }
    }

    /// How many blocks have a place in the chunk.
    pub fn len(&self) -> usize
        ensures value { result ≡ length self.now.names }
        ensures most { result ≤ CHUNK_BLOCKS }
    {
        self.names.len()
    }

    /// Whether no block has a place.
    pub fn is_empty(&self) -> bool
        ensures yes { result ≡ true → self.now.names ≡ [] }
        ensures no { result ≢ true → 0 < length self.now.names }
    {
        self.names.len() == 0
    }

    /// The segment that the chunk is written to.
    pub fn segment(&self) -> u32
        ensures value { result ≡ self.now.segment }
        ensures fits { result < MOST_SEGMENTS }
    {
        self.segment
    }

    /// The address of its summary.
    fn address(&self) -> u32
        ensures value { result ≡ summary_at self.now }
        ensures inside { result < CHECKPOINT_SLOTS + SEGMENT_SECTORS * MOST_SEGMENTS }
    {
        CHECKPOINT_SLOTS + SEGMENT_SECTORS * self.segment + self.start
    }

    /// Whether no block more has room in the segment behind the chunk.
    pub fn is_full(&self) -> bool
        ensures yes { result ≡ true → self.now.start + length self.now.names ≡ CHUNK_BLOCKS }
        ensures no { result ≢ true → self.now.start + length self.now.names ≢ CHUNK_BLOCKS }
        ensures some { result ≡ true → 0 < length self.now.names }
    {
        self.start as usize + self.names.len() == CHUNK_BLOCKS
    }

    /// Begins a chunk: behind the last one where there is room, else in a clean segment, which is
    /// taken, if there is one.
    pub fn begin(&mut self, usage: &mut Usage, age: u32) -> Option<u32>
        requires { self.old.names ≡ [] }
        ensures begun { IfSome result (λ s. Begins usage.old usage.new s age) }
        ensures goes_on { (s : ℕ) → usage.old.last ≡ Some s → TakesChunk usage.old s
            → (result ≡ Some s) × GoesOn usage.old usage.new s age }
        ensures first { usage.old.last ≡ None
            → IfSome result (λ s. TakesSegment usage.old usage.new s age) }
        ensures segment { IfSome result (λ s. self.new.segment ≡ s) }
        ensures names { self.new.names ≡ [] }
        ensures opened { IfSome result (λ s. IsOpenChunk self.new usage.new) }
        ensures behind { IfSome result (λ s. self.new.start ≡ used_of usage.old s) }
        ensures once { IfSome result (λ s. WritesNothing usage.old usage.new self.old self.new) }
        ensures none { IfNone result ((s : ℕ) → s < length usage.old.segments
            → used_of usage.old s ≢ 0) }
        ensures same { IfNone result (usage.new ≡ usage.old) }
        ensures taken { IfSome result (λ s. 1 + clean_in usage.new.segments
            ≤ due_in self.old usage.old + clean_in usage.old.segments) }
    {
        if let Some(segment) = last_with_room(usage) {
            self.segment = segment;
            self.start = u32::from(usage.state(segment).used);
            usage.go_on(segment, age);
            return Some(segment);
        }
        let segment = usage.take_clean(age)?;
        self.segment = segment;
        self.start = 0;
        Some(segment)
    }

    /// The address of the next block of the chunk, which is named so, and lives there or holds the
    /// segment: the first sector behind the used part.
    pub fn place(&mut self, usage: &mut Usage, name: BlockName, lives: bool) -> u32
        requires opened { IsOpenChunk self.old usage.old }
        requires room { self.old.start + length self.old.names < CHUNK_BLOCKS }
        requires placed { IsPlaced name.kind name.file name.index }
        ensures address { result ≡ CHECKPOINT_SLOTS + SEGMENT_SECTORS * self.old.segment
            + used_of usage.old self.old.segment }
        ensures names { self.new.names ≡ self.old.names ++ name ∷ [] }
        ensures place { StaysInPlace self.old self.new }
        ensures noted { Notes usage.old usage.new self.old.segment lives }
        ensures opened { IsOpenChunk self.new usage.new }
        ensures once { WritesTo usage.old usage.new self.old self.new result }
    {
        self.names.push(name);
        usage.note(self.segment, lives);
        self.address() + self.names.len() as u32
    }

    /// Names a block more behind the last one, to whose sector no address leads: the usage block
    /// of the segment, which stands elsewhere.
    pub fn pad(&mut self, usage: &mut Usage)
        requires opened { IsOpenChunk self.old usage.old }
        requires some { 0 < length self.old.names }
        requires room { self.old.start + length self.old.names < CHUNK_BLOCKS }
        ensures names { self.new.names ≡ self.old.names ++ usage_name (self.old.segment
            / BLOCK_SEGMENTS) ∷ [] }
        ensures place { StaysInPlace self.old self.new }
        ensures padded { Pads usage.old usage.new self.old.segment }
        ensures stale { (j : ℕ) → stale_of usage.new j ≡ stale_of usage.old j }
        ensures opened { IsOpenChunk self.new usage.new }
        ensures once { WritesNothing usage.old usage.new self.old self.new }
    {
        self.names.push(named(self.segment / BLOCK_SEGMENTS));
        usage.pad(self.segment);
    }

    /// Writes the summary of the chunk, and ends it.
    ///
    /// # Errors
    ///
    /// The device's fault: the chunk is as it was.
    pub fn seal<D: SectorDevice>(
        &mut self,
        device: &mut D,
        usage: &Usage,
    ) -> Result<(), DeviceFault>
        requires opened { IsOpenChunk self.old usage.now }
        requires some { 0 < length self.old.names }
        requires inside { summary_at self.old < (D.state device.old).size }
        ensures entries { entries_in (summary_sector self.old.names) ≡ Some (entries_of self.old) }
        ensures written { OnOk result ((D.state device.new).keeps_model
            → (D.state device.new).content ≡ put (D.state device.old).content
            (summary_at self.old) (summary_sector self.old.names)) }
        ensures failed_write { OnErr result ((D.state device.new).keeps_model
            → MayWriteUnit (D.state device.old).unit (summary_at self.old)
            (summary_sector self.old.names) (D.state device.old).content (D.state device.new).content) }
        ensures crash { CrashWritesUnit (summary_at self.old)
            (summary_sector self.old.names) (D.state device.old) (D.state device.new) }
        ensures ended { OnOk result (self.new.names ≡ []) }
        ensures kept { OnErr result (self.new ≡ self.old) }
        ensures place { StaysInPlace self.old self.new }
        ensures once { OnOk result (WritesTo usage.now usage.now self.old self.new
            (summary_at self.old)) }
        ensures asks { AsksOneWrite (D.state device.old) (D.state device.new) result }
    {
        let summary = encode_summary(self.names.as_slice());
        write(device, usage, self.address(), &summary, false)?;
        self.names.clear();
        Ok(())
    }
}

/// The name of a usage block.
fn named(index: u32) -> BlockName
    requires { index < USAGE_BLOCKS }
    ensures value { result ≡ usage_name index }
    ensures placed { IsPlaced result.kind result.file result.index }
{
    BlockName {
        file: 0,
        kind: BlockKind::Usage,
        index,
    }
}

/// The segment of the last chunk, if the next may begin behind it: there is room for a summary and a
/// block, and something lives there or holds it.
fn last_with_room(usage: &Usage) -> Option<u32>
    ensures some { IfSome result (λ s. (usage.now.last ≡ Some s) × TakesChunk usage.now s) }
    ensures none { IfNone result ((s : ℕ) → usage.now.last ≡ Some s → TakesChunk usage.now s → ⊥) }
    ensures fits { IfSome result (λ s. s < MOST_SEGMENTS) }
{
    let segment = usage.last()?;
    if segment >= usage.segments() {
        return None;
    }
    let state = usage.state(segment);
    if state.used <= LAST_START && (state.live != 0 || state.held != 0) {
        Some(segment)
    } else {
        None
    }
}

/// Writes a block or a summary to a sector that wasn't in use as the acknowledged checkpoint was
/// written, and to no other. `again` tells whether it is likely to be read soon, and is worth
/// keeping in front of the device.
///
/// # Errors
///
/// The device's fault.
pub fn write<D: SectorDevice>(
    device: &mut D,
    usage: &Usage,
    address: u32,
    bytes: &[u8; 512],
    again: bool,
) -> Result<(), DeviceFault>
    requires free { IsUnkeptBy usage.now address }
    requires above { CHECKPOINT_SLOTS ≤ address }
    requires inside { address < (D.state device.old).size }
    ensures written { OnOk result ((D.state device.new).keeps_model
        → (D.state device.new).content ≡ put (D.state device.old).content address bytes.now) }
    ensures failed_write { OnErr result ((D.state device.new).keeps_model
        → MayWriteUnit (D.state device.old).unit address bytes.now
        (D.state device.old).content (D.state device.new).content) }
    ensures crash { CrashWritesUnit address bytes.now (D.state device.old) (D.state device.new) }
    ensures asks { AsksOneWrite (D.state device.old) (D.state device.new) result }
{
    if again {
        device.write(address, bytes)
    } else {
        device.write_around(address, bytes)
    }
}

/// No sector is written twice since its segment was taken: a law of the steps of `begin`, `place`
/// and `seal`, whichever of them come in turn.
pub fn writes_each_sector_once()
    ensures { EachOnce }
{}
