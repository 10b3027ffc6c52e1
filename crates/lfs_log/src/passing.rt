//! A pass of the cleaner: all that lives in some segments goes to others, and is saved. After the
//! cleaner of the Sprite LFS paper (1992, section 3.3).
ghost use Rattle.std.specs.Prelude.{◌≡◌, ◌<◌, ◌-◌, ◌^◌, [], length, IsErrOf};
ghost use Rattle.lfs_model.specs.Members.{AreApart};
ghost use Rattle.lfs_memory.specs.Memory.{HoldsVolume, IsMemory};
ghost use Rattle.lfs_log.specs.Cleaning.{MayClean};
ghost use Rattle.lfs_log.specs.Held.{IsPassMemory};
ghost use Rattle.lfs_log.specs.Passing.{BeginsPass, EndsPass};
ghost use Rattle.lfs_log.specs.Versions.{number_of};

use crate::cleaning::most_of;
use crate::committing::save_open;
use crate::early::age_after;
use crate::groups::KeyList;
use crate::layout_version::LayoutVersion;
use crate::vacating::vacate;
use lfs_cache::CachedDevice;
use lfs_device::SectorDevice;
use lfs_memory::segments::ChunkWriter;
use lfs_memory::{LogFault, LogMemory};
use std::mem::swap;

/// The memory of a pass gets the log's tables, and has no block and no chunk.
fn begin_pass(memory: &LogMemory, pass: &mut LogMemory)
    requires { length pass.old.usage.segments ≡ length memory.now.usage.segments }
    ensures { BeginsPass memory.now pass.old pass.new }
{
    pass.map.copy_from(&memory.map);
    pass.usage.copy_from(&memory.usage);
    pass.dirty.clear();
    pass.chunk = ChunkWriter::new();
}

/// Empties segments: all that lives in them goes to others, in memory of the pass, and is saved as
/// by a commit. The log's memory stays as it is.
///
/// # Errors
///
/// `Full` where the blocks of files that stand there, with the inodes and blocks of pointers above
/// them and the 48 of the tables, fill as many segments. `Device` where a call of the device failed
/// that reads. With both the log holds what it held. `Halted` where one failed that writes.
pub fn empty_segments<D: SectorDevice>(
    device: &mut CachedDevice<D>,
    memory: &LogMemory,
    pass: &mut LogMemory,
    keys: &mut KeyList,
    victims: &[u16],
    version: LayoutVersion,
    number: u64,
) -> Result<(), LogFault>
    requires number { number < 2 ^ 64 - 1 }
    requires apart { AreApart victims.now }
    requires may { MayClean memory.now victims.now }
    requires closed { memory.now.chunk.names ≡ [] }
    requires prepared { IsPassMemory memory.now pass.old keys.old }
    requires memory { IsMemory memory.now }
    requires size { HoldsVolume (D.state device.old) memory.now }
    ensures ends { EndsPass (D.state device.old) (D.state device.new) memory.now pass.new
        victims.now (number_of version) number result }
    ensures prepared { (IsErrOf result LogFault.Halted → ⊥)
        → IsPassMemory memory.now pass.new keys.new }
{
    begin_pass(memory, pass);
    let most = most_of(victims.len());
    match vacate(device, pass, keys, victims, most, age_after(number)) {
        Ok(()) => {}
        Err(fault) => return Err(fault),
    }
    match save_open(device, pass, version, number) {
        Ok(()) => Ok(()),
        Err(_) => Err(LogFault::Halted),
    }
}

/// The tables that a pass made are the log's from now on.
pub fn take_tables(memory: &mut LogMemory, pass: &mut LogMemory)
    ensures memory { memory.new ≡ record memory.old { map = pass.old.map; usage = pass.old.usage } }
    ensures pass { pass.new ≡ record pass.old { map = memory.old.map; usage = memory.old.usage } }
{
    swap(&mut memory.map, &mut pass.map);
    swap(&mut memory.usage, &mut pass.usage);
}
