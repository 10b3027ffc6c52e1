//! A batch of changes in memory, whole or not at all: first everything that may fail, then what
//! calls no device.
ghost use Rattle.std.specs.Prelude.{◌≡◌, ◌<◌, ◌≤◌, ◌+◌, length, OnOk, OnErr, IsErrOf, IsTrue, IsFalse};
ghost use Rattle.lfs_memory.specs.Memory.{IsMemory};
ghost use Rattle.lfs_memory.specs.Present.{FailsFromDevice};
ghost use Rattle.lfs_memory.specs.Lifting.{Prepares};
ghost use Rattle.lfs_memory.specs.Preparing.{LacksRoom};
ghost use Rattle.lfs_memory.specs.Batch.{room_for, room_for_edits};
ghost use Rattle.lfs_memory.specs.Staging.{Loses, IsLossExcused, TakesBatch, RefusesBatch, IsBatchExcused, EndsStaging, StagesTight, RefusesTight, RemovesTight, PreparesTight};

use crate::applying::apply_batch;
use crate::batch::{BlockEdit, HeaderEdit, Loss};
use crate::changes::{Changes, ways_to};
use crate::changing::tighten;
use crate::counting::SegmentCounts;
use crate::cutting::cut_file;
use crate::hiding::hide_file;
use crate::lifting::LiftFault;
use crate::memory::LogMemory;
use crate::preparing::prepare_batch;
use crate::removing::remove_file;
use lfs_cache::CachedDevice;
use lfs_device::{DeviceFault, SectorDevice};
use lfs_files::LogFault;
use lfs_model::limits::FILE_NUMBERS;

/// Whether memory has room for a batch.
pub fn has_room(memory: &LogMemory, changes: &Changes) -> bool
    requires memory { IsMemory memory.now }
    ensures few { length memory.now.dirty.blocks ≤ memory.now.dirty.capacity.limit }
    ensures room { IsTrue result → length memory.now.dirty.blocks + room_for changes.now
        ≤ memory.now.dirty.capacity.limit }
    ensures lacks { IsFalse result → LacksRoom memory.now (room_for changes.now) }
{
    let present = memory.dirty.len();
    let most = memory.dirty.capacity();
    let headers = changes.headers.len();
    let blocks = changes.blocks.len();
    if headers > most || blocks > most {
        return false;
    }
    let more = 2 * headers + ways_to(&changes.blocks) + blocks + 4;
    present + more <= most
}

/// What a file loses goes.
fn lose<D: SectorDevice>(
    device: &mut CachedDevice<D>,
    memory: &mut LogMemory,
    loss: Loss,
    counts: &mut SegmentCounts,
) -> Result<(), LiftFault>
    requires memory { IsMemory memory.old }
    ensures done { OnOk result (Loses (D.state device.old) (D.state device.new) memory.old
        memory.new loss) }
    ensures prepares { OnErr result (Prepares (D.state device.old) (D.state device.new) memory.old
        memory.new 3) }
    ensures full { IsErrOf result LiftFault.Full
        → memory.new.dirty.capacity.limit ≤ length memory.new.dirty.blocks }
    ensures failed { IsErrOf result LiftFault.Device
        → IsLossExcused (D.state device.old) (D.state device.new) memory.old loss }
    ensures no_failure { OnOk result ((D.state device.new).failures
        ≡ (D.state device.old).failures) }
{
    match loss {
        Loss::Nothing => Ok(()),
        Loss::FirstVersion => Ok(()),
        Loss::Blocks(cut) => cut_file(device, memory, cut.number, cut.first, counts),
        Loss::Link(link) => hide_file(
            device,
            memory,
            link.number,
            link.kind,
            link.form,
            link.size,
            counts,
        ),
        Loss::File(removal) => match remove_file(device, memory, removal.number, counts) {
            Ok(()) => Ok(()),
            Err(_) => Err(LiftFault::Device),
        },
    }
}

/// What a file loses goes, and then headers and blocks change, whole or not at all. What goes is
/// counted in `counts`.
///
/// # Errors
///
/// Where a block can't be read, or isn't counted at its address.
fn stage_with_room<D: SectorDevice>(
    device: &mut CachedDevice<D>,
    memory: &mut LogMemory,
    loss: Loss,
    headers: &[HeaderEdit],
    blocks: &[BlockEdit],
    counts: &mut SegmentCounts,
) -> Result<(), DeviceFault>
    requires memory { IsMemory memory.old }
    requires room { length memory.old.dirty.blocks + room_for_edits headers.now blocks.now
        ≤ memory.old.dirty.capacity.limit }
    ensures done { OnOk result (TakesBatch (D.state device.old) (D.state device.new) memory.old
        memory.new loss headers.now blocks.now) }
    ensures refused { OnErr result
        (RefusesBatch (D.state device.old) (D.state device.new) memory.old
        memory.new loss headers.now blocks.now) }
    ensures failed { OnErr result (IsBatchExcused (D.state device.old) (D.state device.new)
        memory.old loss headers.now blocks.now) }
    ensures no_failure { OnOk result ((D.state device.new).failures
        ≡ (D.state device.old).failures) }
{
    match prepare_batch(device, memory, headers, blocks) {
        Ok(()) => {}
        Err(_) => return Err(DeviceFault),
    }
    match lose(device, memory, loss, counts) {
        Ok(()) => {}
        Err(_) => return Err(DeviceFault),
    }
    apply_batch(memory, headers, blocks)
}

/// Changes files in memory, whole or not at all. What a file loses is counted in `counts`. Blocks
/// of pointers in memory may lead nowhere then.
///
/// # Errors
///
/// `Full` where memory has no room for the batch, `Device` where a block can't be read.
fn stage_if_room<D: SectorDevice>(
    device: &mut CachedDevice<D>,
    memory: &mut LogMemory,
    changes: &Changes,
    counts: &mut SegmentCounts,
) -> Result<(), LogFault>
    requires memory { IsMemory memory.old }
    ensures done { OnOk result (TakesBatch (D.state device.old) (D.state device.new) memory.old
        memory.new changes.now.loss changes.now.headers.items changes.now.blocks.items) }
    ensures refused { OnErr result
        (RefusesBatch (D.state device.old) (D.state device.new) memory.old
        memory.new changes.now.loss changes.now.headers.items changes.now.blocks.items) }
    ensures ends { EndsStaging (D.state device.old) (D.state device.new) memory.old changes.now
        result }
{
    if !has_room(memory, changes) {
        return Err(LogFault::Full);
    }
    let headers = changes.headers.as_slice();
    let blocks = changes.blocks.as_slice();
    match stage_with_room(device, memory, changes.loss, headers, blocks, counts) {
        Ok(()) => Ok(()),
        Err(_) => Err(LogFault::Device),
    }
}

/// As `stage_if_room`, and then the blocks of pointers in memory that lead nowhere leave it.
///
/// # Errors
///
/// As those of `stage_if_room`.
pub fn stage<D: SectorDevice>(
    device: &mut CachedDevice<D>,
    memory: &mut LogMemory,
    changes: &Changes,
    counts: &mut SegmentCounts,
) -> Result<(), LogFault>
    requires memory { IsMemory memory.old }
    ensures done { OnOk result (StagesTight (D.state device.old) (D.state device.new) memory.old
        memory.new changes.now) }
    ensures refused { OnErr result (RefusesTight (D.state device.old) (D.state device.new)
        memory.old memory.new changes.now) }
    ensures ends { EndsStaging (D.state device.old) (D.state device.new) memory.old changes.now
        result }
    ensures few { length memory.new.dirty.blocks ≤ memory.new.dirty.capacity.limit }
{
    let staged = stage_if_room(device, memory, changes, counts);
    tighten(memory);
    let _few = memory.dirty.len();
    staged
}

/// A file is removed, and then the blocks of pointers in memory that lead nowhere leave it.
///
/// # Errors
///
/// As those of `remove_file`.
pub fn remove_tight<D: SectorDevice>(
    device: &mut CachedDevice<D>,
    memory: &mut LogMemory,
    number: u16,
    counts: &mut SegmentCounts,
) -> Result<(), DeviceFault>
    requires memory { IsMemory memory.old }
    requires number { number < FILE_NUMBERS }
    ensures done { OnOk result (RemovesTight (D.state device.old) (D.state device.new) memory.old
        memory.new number) }
    ensures kept { OnErr result (PreparesTight (D.state device.old) (D.state device.new) memory.old
        memory.new) }
    ensures failed { OnErr result (FailsFromDevice (D.state device.old)
        (D.state device.new) memory.old) }
    ensures no_failure { OnOk result ((D.state device.new).failures
        ≡ (D.state device.old).failures) }
{
    let removed = remove_file(device, memory, number, counts);
    tighten(memory);
    removed
}
