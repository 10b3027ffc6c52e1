// Where the volume stands that a device holds.
ghost use Rattle.std.specs.Prelude.{◌≡◌, ◌<◌, ◌≤◌, ◌+◌, ◌↔◌, ◌||◌, false, length, Some, None, IfOk, OnOk, OnErr, IsErrOf};
ghost use Rattle.lfs_model.specs.Device.{AllLeft, BearsAll, Carries, Elapses, IsUntouched, LeavesOnly};
ghost use Rattle.lfs_model.specs.declared.limits.TheConstants.{LEAST_SECTORS};
ghost use Rattle.lfs_places.specs.Places.{least_size};
ghost use Rattle.lfs_volume.specs.Finding.{found_places, holds_older};

use crate::FindFault;
use crate::limits::LEAST_NEW;
use lfs_device::{DeviceFault, ReadFault, SectorDevice};
use lfs_layout::Checkpoint;
use lfs_model::limits::{LAST_VERSION, LEAST_SECTORS};
use lfs_places::Places;
use lfs_places::limits::SECOND_SLOT;

/// Whether the sector at this place spells a checkpoint of a version before the last whose number
/// has this parity. One that can't be read spells none.
fn holds_older<D: SectorDevice>(
    device: &mut D,
    place: u32,
    parity: u64,
) -> Result<bool, DeviceFault>
    requires { place < (D.state device.old).size }
    ensures holds { IfOk result (λ older. (D.state device.new).keeps_model
        → older ≡ holds_older (D.state device.old).content place parity) }
    ensures failed { OnErr result ((D.state device.old).failures < (D.state device.new).failures) }
    ensures borne { OnErr result (BearsAll (D.state device.old)) }
    ensures no_failure { OnOk result
        ((D.state device.new).failures ≡ (D.state device.old).failures) }
    ensures untouched { IsUntouched (D.state device.old) (D.state device.new) }
    ensures carries { Carries (D.state device.old) (D.state device.new) }
    ensures time { Elapses (D.state device.old) (D.state device.new) }
    ensures told { (D.state device.new).told ≡ (D.state device.old).told }
{
    let mut bytes = [0; 512];
    match device.read(place, &mut bytes) {
        Ok(()) => {}
        Err(ReadFault::Unreadable) => return Ok(false),
        Err(ReadFault::Failed) => return Err(DeviceFault),
    }
    let Some(checkpoint) = Checkpoint::decode(&bytes) else {
        return Ok(false);
    };
    if checkpoint.number % 2 != parity {
        return Ok(false);
    }
    Ok(checkpoint.version != LAST_VERSION)
}

/// Whether a slot by the old places holds a checkpoint of a version before the last.
fn holds_old<D: SectorDevice>(device: &mut D) -> Result<bool, DeviceFault>
    requires { 1 < (D.state device.old).size }
    ensures holds { IfOk result (λ older. (D.state device.new).keeps_model
        → older ≡ (holds_older (D.state device.old).content 0 0
        || holds_older (D.state device.old).content 1 1)) }
    ensures failed { OnErr result ((D.state device.old).failures < (D.state device.new).failures) }
    ensures borne { OnErr result (BearsAll (D.state device.old)) }
    ensures no_failure { OnOk result
        ((D.state device.new).failures ≡ (D.state device.old).failures) }
    ensures untouched { IsUntouched (D.state device.old) (D.state device.new) }
    ensures any_moment { LeavesOnly (D.state device.old) (D.state device.new)
        (D.state device.old).may_leave }
    ensures carries { Carries (D.state device.old) (D.state device.new) }
    ensures told { (D.state device.new).told ≡ (D.state device.old).told }
{
    if holds_older(device, 0, 0)? {
        return Ok(true);
    }
    holds_older(device, 1, 1)
}

/// Where the volume stands that the device holds. A slot that can't be read holds no checkpoint, and
/// of slots no more are read than needed. By the new places the device is synced then, so that no
/// stop brings back what was at the places of an older volume.
///
/// # Errors
///
/// `TooSmall` where the device has fewer sectors than any volume: nothing is read. `NoCheckpoint`
/// where no volume may stand there, and `Device` where a call of the device failed.
pub fn find_places<D: SectorDevice>(device: &mut D) -> Result<Places, FindFault>
    ensures found { IfOk result (λ places. (D.state device.new).keeps_model
        → found_places (D.state device.old).size (D.state device.old).content ≡ Some places) }
    ensures none { IsErrOf result FindFault.NoCheckpoint → (D.state device.new).keeps_model
        → found_places (D.state device.old).size (D.state device.old).content ≡ None }
    ensures enough { IsErrOf result FindFault.NoCheckpoint
        → LEAST_SECTORS ≤ (D.state device.old).size }
    ensures too_small { IsErrOf result FindFault.TooSmall
        ↔ (D.state device.old).size < LEAST_SECTORS }
    ensures nothing_read { IsErrOf result FindFault.TooSmall → device.new ≡ device.old }
    ensures apart { IfOk result (λ places. places ≡ Places.New → (D.state device.new).keeps_model
        → AllLeft (D.state device.new) (λ c. holds_older c 1 1 ≡ false)) }
    ensures size { IfOk result (λ places. least_size places ≤ (D.state device.old).size) }
    ensures failed { IsErrOf result FindFault.Device
        → (D.state device.old).failures < (D.state device.new).failures }
    ensures borne { IsErrOf result FindFault.Device → BearsAll (D.state device.old) }
    ensures no_failure { OnOk result
        ((D.state device.new).failures ≡ (D.state device.old).failures) }
    ensures no_failure_none { IsErrOf result FindFault.NoCheckpoint
        → (D.state device.new).failures ≡ (D.state device.old).failures }
    ensures untouched { IsUntouched (D.state device.old) (D.state device.new) }
    ensures any_moment { LeavesOnly (D.state device.old) (D.state device.new)
        (D.state device.old).may_leave }
    ensures carries { Carries (D.state device.old) (D.state device.new) }
    ensures told { length (D.state device.new).told ≤ length (D.state device.old).told + 1 }
{
    let size = device.sectors();
    if size < LEAST_SECTORS {
        return Err(FindFault::TooSmall);
    }
    let Ok(old) = holds_old(device) else {
        return Err(FindFault::Device);
    };
    if old {
        return Ok(Places::Old);
    }
    if size < LEAST_NEW {
        return Err(FindFault::NoCheckpoint);
    }
    let Ok(older) = holds_older(device, SECOND_SLOT, 1) else {
        return Err(FindFault::Device);
    };
    if older {
        return Err(FindFault::NoCheckpoint);
    }
    let Ok(()) = device.sync() else {
        return Err(FindFault::Device);
    };
    Ok(Places::New)
}
