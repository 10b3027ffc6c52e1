//! A whole volume: the walk over its log, then the stages of its tree, and then whether enough of
//! its segments are clean.
ghost use Rattle.std.specs.Prelude.{◌≡◌, Err, OnOk, IfOk, IfErr};
ghost use Rattle.lfs_model.specs.Device.{Only};
ghost use Rattle.lfs_verify.specs.Faults.{IsBelowAll};
ghost use Rattle.lfs_verify.specs.Loading.{IsLoaded};
ghost use Rattle.lfs_verify.specs.Take.{SyncsOnce};
ghost use Rattle.lfs_tree.specs.Checking.{HasTree, IsRefusedVolume, IsTreeFault};

use crate::check::check_tree;
use lfs_cache::CachedDevice;
use lfs_device::SectorDevice;
use lfs_verify::verify::{FEW_CLEAN, verify_log};
use lfs_verify::{MountFault, Tables};
use std::alloc::Global;

/// The tables of the volume that the newest checkpoint of a device leads to, where its log and its
/// tree are as they should be. It writes nothing, and all that the device holds is durable after
/// `Ok`.
///
/// # Errors
///
/// `NoMemory` where memory is refused, `Device` where a call of the device failed; else the device
/// holds no volume: it is too small, holds no checkpoint, or the first of the stages 1 to 15 that
/// fails is named: 10 to 14 are those of the tree, and with 15 too few segments are clean.
pub fn verify_tree<D: SectorDevice>(
    alloc: Global,
    device: &mut CachedDevice<D>,
) -> Result<Tables, MountFault>
    ensures loaded { IfOk result (λ t. IsLoaded t (D.state device.new).size) }
    ensures found { IfOk result (λ t. (D.state device.new).keeps_model
        → HasTree (D.state device.old).content t) }
    ensures durable { OnOk result ((D.state device.new).keeps_model
        → Only (D.state device.old).content (D.state device.new)) }
    ensures reason { IfErr result (IsRefusedVolume (D.state device.old) (D.state device.new)) }
    ensures cause { IfErr result (λ e. (e ≡ MountFault.NoMemory → ⊥)
        → IsTreeFault (D.state device.old) (D.state device.new) e) }
    ensures below_all { IsBelowAll (D.state device.old)
        → (result ≡ Err MountFault.TooSmall) × (device.new ≡ device.old) }
    ensures no_failure { OnOk result
        ((D.state device.new).failures ≡ (D.state device.old).failures) }
    ensures looks { SyncsOnce (D.state device.old) (D.state device.new) }
{
    let found = verify_log(alloc, device)?;
    check_tree(alloc, device, &found.tables)?;
    if !found.enough_clean {
        return Err(MountFault::Damaged(FEW_CLEAN));
    }
    Ok(found.tables)
}
