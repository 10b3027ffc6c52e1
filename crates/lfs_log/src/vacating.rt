//! All that lives in some segments goes to others, in memory of a pass.
ghost use Rattle.std.specs.Prelude.{◌≡◌, ◌≤◌, ◌+◌, ◌*◌, [], length, OnOk};
ghost use Rattle.lfs_model.specs.declared.limits.TheConstants.{SEGMENT_SECTORS};
ghost use Rattle.lfs_memory.specs.Memory.{HoldsVolume, IsMemory, room_of};
ghost use Rattle.lfs_log.specs.Brought.{AreAllOut, OutNumber};
ghost use Rattle.lfs_log.specs.Cleaning.{AreCleanable, AreEmptied};
ghost use Rattle.lfs_log.specs.Moving.{Anywhere, EndsMoving};

use crate::cleaning::are_emptied;
use crate::collecting::collect_keys;
use crate::groups::KeyList;
use crate::moving::{MOST_MOVING, move_blocks};
use crate::relocating::are_in_order;
use lfs_cache::CachedDevice;
use lfs_device::SectorDevice;
use lfs_memory::{LogFault, LogMemory};

/// Moves all that lives in these segments to others. Blocks of the tables come into memory. So many
/// blocks of files may come there in all, and the list of keys serves for which ones.
///
/// # Errors
///
/// `Full` where more blocks were to come, `Device` where a call of the device failed that reads, or
/// a segment isn't empty afterwards, `Halted` where one failed that writes.
pub fn vacate<D: SectorDevice>(
    device: &mut CachedDevice<D>,
    pass: &mut LogMemory,
    keys: &mut KeyList,
    victims: &[u16],
    most: u32,
    age: u32,
) -> Result<(), LogFault>
    requires victims { AreCleanable pass.old.usage victims.now }
    requires closed { pass.old.chunk.names ≡ [] }
    requires nothing { pass.old.dirty.blocks ≡ [] }
    requires limit { MOST_MOVING ≤ pass.old.dirty.capacity.limit }
    requires spare { most ≤ room_of pass.old }
    requires keys { SEGMENT_SECTORS * length victims.now ≤ keys.old.room }
    requires memory { IsMemory pass.old }
    requires size { HoldsVolume (D.state device.old) pass.old }
    ensures ends { EndsMoving (D.state device.old) (D.state device.new) pass.old pass.new most 0
        Anywhere (AreAllOut victims.now) (λ M. OutNumber victims.now most M) result }
    ensures emptied { OnOk result (AreEmptied pass.new.usage victims.now) }
    ensures nothing { OnOk result (pass.new.dirty.blocks ≡ []) }
    ensures keys { keys.old.room ≤ keys.new.room }
{
    keys.clear();
    match collect_keys(device, pass, victims, keys) {
        Ok(()) => are_in_order(pass),
        Err(_) => {
            are_in_order(pass);
            return Err(LogFault::Device);
        }
    }
    keys.sort();
    move_blocks(device, pass, victims, keys, most, age)?;
    if !are_emptied(&pass.usage, victims) {
        return Err(LogFault::Device);
    }
    Ok(())
}
