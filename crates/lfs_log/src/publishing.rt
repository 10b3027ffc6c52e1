//! The end of a commit: the checkpoint that leads to all that was written.
ghost use Rattle.std.specs.Prelude.{◌≡◌, ◌<◌, ◌≤◌, ◌+◌, ◌^◌, ◌-◌, ℕ, get_or, length, OnOk, OnErr};
ghost use Rattle.lfs_model.specs.Checkpoint.{most_unit_power};
ghost use Rattle.lfs_model.specs.Device.{Only};
ghost use Rattle.lfs_memory.specs.segments.Table.{address_of};
ghost use Rattle.lfs_memory.specs.Memory.{IsMemory, HoldsVolume};
ghost use Rattle.lfs_log.specs.Keeping.{OnlyTable};
ghost use Rattle.lfs_log.specs.Versions.{number_of};
ghost use Rattle.lfs_log.specs.Publishing.{IsAllOut, IsNext, LeavesEither, Publishes, PublishFails, Syncs};

use crate::layout_version::LayoutVersion;
use lfs_device::{DeviceFault, SectorDevice};
use lfs_layout::{Checkpoint, most_unit_power};
use lfs_memory::LogMemory;
use lfs_memory::segments::Usage;
use lfs_model::limits::USAGE_BLOCKS;
use lfs_verify::root::replace;

const BLOCKS: usize = USAGE_BLOCKS as usize;

/// The addresses of the blocks of the usage table.
fn usage_blocks(usage: &Usage) -> [u32; BLOCKS]
    ensures { (j : ℕ) → j < USAGE_BLOCKS → get_or result j 0 ≡ address_of usage.now j }
{
    let mut blocks = [0; BLOCKS];
    for index in 0..USAGE_BLOCKS {
        blocks[index as usize] = usage.block(index).address;
    }
    blocks
}

/// The unit that a checkpoint of this version tells: the volume's own, if its version has such.
fn told_unit(usage: &Usage, version: LayoutVersion) -> u8
    ensures fits { result ≤ most_unit_power (number_of version) }
    ensures own { usage.now.unit ≤ most_unit_power (number_of version)
        → result ≡ usage.now.unit }
{
    usage.unit_power().min(most_unit_power(version.number()))
}

/// The checkpoint after the one of this number, in this version.
fn next_checkpoint(memory: &LogMemory, version: LayoutVersion, number: u64) -> Checkpoint
    requires memory { IsMemory memory.now }
    requires number { number < 2 ^ 64 - 1 }
    ensures { IsNext memory.now (number_of version) number result }
{
    Checkpoint::new(
        number + 1,
        memory.usage.segments(),
        version.number(),
        told_unit(&memory.usage, version),
        memory.map.block_addresses(),
        usage_blocks(&memory.usage),
    )
}

/// Makes all that was written durable.
fn make_durable<D: SectorDevice>(device: &mut D) -> Result<(), DeviceFault>
    ensures looks { Syncs (D.state device.old) (D.state device.new) }
    ensures durable { OnOk result ((D.state device.new).keeps_model
        → Only (D.state device.new).content (D.state device.new)) }
    ensures no_failure { OnOk result ((D.state device.new).failures
        ≡ (D.state device.old).failures) }
    ensures failed_order { OnErr result
        ((D.state device.old).failed_orders < (D.state device.new).failed_orders) }
{
    device.sync()?;
    Ok(())
}

/// Once all blocks are out: syncs, writes the checkpoint that leads to them, after the acknowledged
/// one of this number, and takes the segments where nothing lives as clean. A stop at any moment
/// leaves what was acknowledged or all that is out, and after `Ok` the latter alone.
///
/// # Errors
///
/// The device's fault: a stop leaves the one or the other.
pub fn publish<D: SectorDevice>(
    device: &mut D,
    memory: &mut LogMemory,
    version: LayoutVersion,
    number: u64,
) -> Result<(), DeviceFault>
    requires number { number < 2 ^ 64 - 1 }
    requires out { IsAllOut memory.old }
    requires memory { IsMemory memory.old }
    requires size { HoldsVolume (D.state device.old) memory.old }
    ensures done { OnOk result (Publishes (D.state device.old) (D.state device.new) memory.old
        memory.new (number_of version) number) }
    ensures stopped { OnErr result (PublishFails (D.state device.old) (D.state device.new)
        memory.old (number_of version) number) }
    ensures moment { LeavesEither (D.state device.old) (D.state device.new) memory.old
        (number_of version) number }
    ensures only { OnlyTable memory.old memory.new }
    ensures told { length (D.state device.new).told ≤ length (D.state device.old).told + 3 }
{
    make_durable(device)?;
    let next = next_checkpoint(memory, version, number);
    replace(device, &next)?;
    memory.usage.release();
    Ok(())
}
