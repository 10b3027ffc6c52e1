//! A file goes with all its blocks.
ghost use Rattle.std.specs.Prelude.{◌≡◌, ◌<◌, ◌≤◌, ◌/◌, OnOk, OnErr, IsTrue, IsFalse};
ghost use Rattle.lfs_inodes.specs.MapValue.{is_hidden_in};
ghost use Rattle.lfs_memory.specs.Memory.{IsMemory};
ghost use Rattle.lfs_memory.specs.Present.{FailsFromDevice};
ghost use Rattle.lfs_memory.specs.Lifting.{Prepares};
ghost use Rattle.lfs_memory.specs.Removing.{AreCovered, AreUncovered, TakesCounts, counted_in, counts_in, DropsFile, RemovesFile};

use crate::counting::{SegmentCounts, count_file};
use crate::lifting::lift_map_of;
use crate::memory::LogMemory;
use lfs_cache::CachedDevice;
use lfs_device::{DeviceFault, SectorDevice};
use lfs_model::limits::FILE_NUMBERS;
use lfs_segments::Usage;

/// Whether each segment has so many blocks, of those that live there or of those that hold it.
pub(crate) fn are_covered(usage: &Usage, counts: &SegmentCounts, lives: bool) -> bool
    ensures yes { IsTrue result → AreCovered usage.now lives counts.now }
    ensures no { IsFalse result → AreUncovered usage.now lives counts.now }
{
    for segment in 0..counts.segments() {
        if counts.count(segment) > counted(usage, segment, lives) {
            return false;
        }
    }
    true
}

/// How many blocks live in a segment, or hold it; none past the last segment.
fn counted(usage: &Usage, segment: u32, lives: bool) -> u16
    ensures { result ≡ counted_in usage.now lives segment }
{
    if segment >= usage.segments() {
        return 0;
    }
    let state = usage.state(segment);
    if lives { state.live } else { state.held }
}

/// Takes so many blocks from each segment.
pub(crate) fn take_counts(usage: &mut Usage, counts: &SegmentCounts, lives: bool)
    requires { AreCovered usage.old lives counts.now }
    ensures { TakesCounts usage.old usage.new lives (counts_in counts.now) }
{
    for segment in 0..usage.segments() {
        let count = counts.count(segment);
        if count != 0 {
            usage.take_away(segment, count, lives);
        }
    }
}

/// The blocks of a file, so many in each segment, leave memory and the tables.
fn drop_file(memory: &mut LogMemory, number: u16, lives: bool, counts: &SegmentCounts)
    requires number { number < FILE_NUMBERS }
    requires covered { AreCovered memory.old.usage lives counts.now }
    ensures { DropsFile memory.old memory.new number lives counts.now }
{
    take_counts(&mut memory.usage, counts, lives);
    memory.dirty.forget(number);
    memory.map.set_address(number, 0);
    memory.map.set_hidden(number, false);
}

/// Removes a file with all its blocks, whether it has a name or not. Its blocks are counted in
/// `counts`.
///
/// # Errors
///
/// Where its blocks can't be counted; the inode map's block may be one that will be written then.
pub fn remove_file<D: SectorDevice>(
    device: &mut CachedDevice<D>,
    memory: &mut LogMemory,
    number: u16,
    counts: &mut SegmentCounts,
) -> Result<(), DeviceFault>
    requires memory { IsMemory memory.old }
    requires number { number < FILE_NUMBERS }
    ensures removed { OnOk result (RemovesFile (D.state device.old) (D.state device.new) memory.old
        memory.new number) }
    ensures prepares { OnErr result (Prepares (D.state device.old) (D.state device.new) memory.old
        memory.new 0) }
    ensures failed { OnErr result (FailsFromDevice (D.state device.old)
        (D.state device.new) memory.old) }
    ensures no_failure { OnOk result ((D.state device.new).failures
        ≡ (D.state device.old).failures) }
{
    lift_map_of(memory, number)?;
    count_file(device, memory, number, counts)?;
    let lives = !memory.map.is_hidden(number);
    if !are_covered(&memory.usage, counts, lives) {
        return Err(DeviceFault);
    }
    drop_file(memory, number, lives, counts);
    Ok(())
}
