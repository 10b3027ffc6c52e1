//! A file loses its last link, and stays for as long as it is open.
ghost use Rattle.std.specs.Prelude.{◌≡◌, ◌<◌, ◌≤◌, true, length, OnOk, OnErr, IsErrOf};
ghost use Rattle.lfs_model.specs.Entry.{Inode};
ghost use Rattle.lfs_memory.specs.Numbers.{IsFileNumber};
ghost use Rattle.lfs_memory.specs.Memory.{IsMemory};
ghost use Rattle.lfs_memory.specs.Lifting.{IsInMemory, Prepares};
ghost use Rattle.lfs_memory.specs.Removing.{AreCovered, counts_in};
ghost use Rattle.lfs_memory.specs.Hiding.{HidesCounts, LosesLinks, Hides, IsLinkExcused};

use crate::changing::change_header;
use crate::counting::{SegmentCounts, count_file};
use crate::lifting::{LiftFault, lift_inode};
use crate::memory::LogMemory;
use crate::removing::are_covered;
use lfs_cache::CachedDevice;
use lfs_device::SectorDevice;
use lfs_model::Kind;
use lfs_segments::Usage;

/// So many blocks of each segment live there no more, and hold it.
fn hide_counts(usage: &mut Usage, counts: &SegmentCounts)
    requires { AreCovered usage.old true counts.now }
    ensures { HidesCounts usage.old usage.new (counts_in counts.now) }
{
    for segment in 0..usage.segments() {
        let count = counts.count(segment);
        if count != 0 {
            usage.hide(segment, count);
        }
    }
}

/// A file whose inode is in memory has no link. So many blocks of each segment are its own.
fn drop_links(
    memory: &mut LogMemory,
    number: u16,
    kind: Kind,
    form: u8,
    size: u32,
    counts: &SegmentCounts,
)
    requires number { IsFileNumber number }
    requires there { IsInMemory memory.old (Inode number) }
    requires covered { AreCovered memory.old.usage true counts.now }
    ensures { LosesLinks memory.old memory.new number kind form size counts.now }
{
    hide_counts(&mut memory.usage, counts);
    memory.map.set_hidden(number, true);
    change_header(memory, number, kind, form, 0, size);
}

/// A file that has a name loses its last link: its inode is of this kind, form and size without
/// links. The next checkpoint doesn't lead to it. Its blocks, which are counted in `counts`, live no
/// more and hold their segments.
///
/// # Errors
///
/// Where its inode doesn't come into memory, or its blocks can't be counted, as those of a file
/// that isn't there or has lost its last link before. The inode may be in memory then, and the
/// inode map's block one that will be written.
pub fn hide_file<D: SectorDevice>(
    device: &mut CachedDevice<D>,
    memory: &mut LogMemory,
    number: u16,
    kind: Kind,
    form: u8,
    size: u32,
    counts: &mut SegmentCounts,
) -> Result<(), LiftFault>
    requires memory { IsMemory memory.old }
    requires number { IsFileNumber number }
    ensures hides { OnOk result (Hides (D.state device.old) (D.state device.new) memory.old
        memory.new number kind form size) }
    ensures no_failure { OnOk result ((D.state device.new).failures
        ≡ (D.state device.old).failures) }
    ensures prepares { OnErr result (Prepares (D.state device.old) (D.state device.new) memory.old
        memory.new 1) }
    ensures full { IsErrOf result LiftFault.Full
        → memory.new.dirty.capacity.limit ≤ length memory.new.dirty.blocks }
    ensures failed { IsErrOf result LiftFault.Device
        → IsLinkExcused (D.state device.old) (D.state device.new) memory.old number }
{
    if memory.map.is_hidden(number) {
        return Err(LiftFault::Device);
    }
    match lift_inode(device, memory, number) {
        Ok(true) => {}
        Ok(false) => return Err(LiftFault::Device),
        Err(fault) => return Err(fault),
    }
    match count_file(device, memory, number, counts) {
        Ok(()) => {}
        Err(_) => return Err(LiftFault::Device),
    }
    if !are_covered(&memory.usage, counts, true) {
        return Err(LiftFault::Device);
    }
    drop_links(memory, number, kind, form, size, counts);
    Ok(())
}
