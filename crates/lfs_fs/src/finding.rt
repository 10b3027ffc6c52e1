//! The volume of a device, wherever it stands on it.
ghost use Rattle.std.specs.Prelude.{IfOk, IfErr, MatchResult};
ghost use Rattle.lfs_model.specs.Device.{Carries};
ghost use Rattle.lfs_store.specs.log.Mounting.{HasWholeUnits};
ghost use Rattle.lfs_volume.specs.Found.{by_volume};
ghost use Rattle.lfs_volume.specs.Standing.{in_volume};
ghost use Rattle.lfs_fs.specs.Finding.{IsFoundOn, IsNotFound};

use lfs_device::SectorDevice;
use lfs_store::MountFault;
use lfs_volume::{FindFault, InVolume};

/// The device as the volume sees it that stands on it, wherever it does: a mount takes it. Of the
/// device no more than three sectors are read.
///
/// # Errors
///
/// With the device: `TooSmall` below 4,098 sectors, `NoCheckpoint` where no volume may stand there,
/// `Device` where a read failed.
pub fn find_volume<D: SectorDevice>(device: D) -> Result<InVolume<D>, (MountFault, D)>
    ensures found { IfOk result (IsFoundOn D.state device) }
    ensures whole { IfOk result (λ v. HasWholeUnits (by_volume D.state v)) }
    ensures refused { IfErr result (λ e. IsNotFound (in_volume D.state device device)
        (in_volume D.state device e.1) e.0) }
    ensures carries { MatchResult result (λ v. Carries (D.state device) (D.state v.device))
        (λ e. Carries (D.state device) (D.state e.1)) }
{
    match InVolume::find(device) {
        Ok(device) => Ok(device),
        Err((FindFault::TooSmall, device)) => Err((MountFault::TooSmall, device)),
        Err((FindFault::NoCheckpoint, device)) => Err((MountFault::NoCheckpoint, device)),
        Err((FindFault::Device, device)) => Err((MountFault::Device, device)),
    }
}
