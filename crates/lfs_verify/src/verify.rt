//! The newest checkpoint of a device, the walk from it, and the tables to which it leads.
ghost use Rattle.std.specs.Prelude.{◌≡◌, ◌≤◌, ◌+◌, ◌*◌, Some, Err, OnOk, IfOk, IfErr};
ghost use Rattle.lfs_model.specs.Checkpoint.{FitsCheckpoint};
ghost use Rattle.lfs_model.specs.Content.{newest};
ghost use Rattle.lfs_model.specs.Device.{Only};
ghost use Rattle.lfs_verify.specs.Faults.{IsBelowAll, IsOpenFault};
ghost use Rattle.lfs_verify.specs.Keeping.{OnlyLooks};
ghost use Rattle.lfs_verify.specs.Loading.{HasTables, IsLoaded};
ghost use Rattle.lfs_verify.specs.Take.{SyncsOnce};
ghost use Rattle.lfs_verify.specs.Verified.{HoldsCounted, IsFound, IsRefusedLog, IsRefusedWalk, LacksLogMap, StandsWhereEnough};

use crate::fault::{MountFault, WalkFault};
use crate::tables::{Tables, load_tables};
use crate::totals::BlockTotals;
use crate::usage_stage::segments_of;
use crate::walk::walk;
use lfs_cache::CachedDevice;
use lfs_device::SectorDevice;
use lfs_layout::Checkpoint;
use lfs_model::limits::LEAST_SECTORS;
use lfs_root::{RootFault, newest};
use std::alloc::Global;

/// The code of damage of a volume with too few clean segments, which is told where all other stages
/// hold.
pub const FEW_CLEAN: u8 = 15;

/// What a walk over a log finds: the tables of the log map that the device holds.
#[derive(Drop)]
pub struct FoundLog {
    pub tables: Tables,
    /// Whether enough segments are clean.
    pub enough_clean: bool,
}

/// The newest checkpoint, where the device has all of its segments.
fn find_checkpoint<D: SectorDevice>(device: &mut CachedDevice<D>) -> Result<Checkpoint, MountFault>
    ensures fits { IfOk result FitsCheckpoint }
    ensures size { IfOk result (λ k. 2 + 64 * k.segments ≤ (D.state device.new).size) }
    ensures found { IfOk result (λ k. (D.state device.new).keeps_model
        → newest (D.state device.old).content ≡ Some k) }
    ensures durable { OnOk result ((D.state device.new).keeps_model
        → Only (D.state device.old).content (D.state device.new)) }
    ensures reason { IfErr result (IsRefusedWalk (D.state device.old) (D.state device.new)) }
    ensures below_all { IsBelowAll (D.state device.old)
        → (result ≡ Err MountFault.TooSmall) × (device.new ≡ device.old) }
    ensures no_failure { OnOk result
        ((D.state device.new).failures ≡ (D.state device.old).failures) }
    ensures looks { SyncsOnce (D.state device.old) (D.state device.new) }
{
    if device.sectors() < LEAST_SECTORS {
        return Err(MountFault::TooSmall);
    }
    let checkpoint = match newest(device) {
        Ok(checkpoint) => checkpoint,
        Err(RootFault::Missing) => return Err(MountFault::NoCheckpoint),
        Err(RootFault::Device) => return Err(MountFault::Device),
    };
    if device.sectors() < 2 + 64 * segments_of(&checkpoint) {
        return Err(MountFault::TooSmall);
    }
    Ok(checkpoint)
}

/// Whether enough segments are clean, and the totals of the volume to which the newest checkpoint
/// leads, where it is a log map.
fn check<D: SectorDevice>(
    alloc: Global,
    device: &mut CachedDevice<D>,
    checkpoint: &Checkpoint,
) -> Result<(bool, BlockTotals), MountFault>
    requires fits { FitsCheckpoint checkpoint.now }
    requires inside { 2 + 64 * checkpoint.now.segments ≤ (D.state device.old).size }
    ensures holds { IfOk result (λ r. (D.state device.new).keeps_model
        → HoldsCounted (D.state device.old).content checkpoint.now r.0 r.1) }
    ensures reason { IfErr result (λ e. ((D.state device.new).keeps_model
        → newest (D.state device.old).content ≡ Some checkpoint.now)
        → IsRefusedWalk (D.state device.old) (D.state device.new) e) }
    ensures keeps { OnlyLooks (D.state device.old) (D.state device.new) result }
{
    match walk(alloc, device, checkpoint) {
        Ok(found) => Ok(found),
        Err(WalkFault::NoMemory) => Err(MountFault::NoMemory),
        Err(WalkFault::Damaged(stage)) => Err(MountFault::Damaged(stage)),
        Err(WalkFault::Device) => Err(MountFault::Device),
    }
}

/// The tables of the log that the newest checkpoint of a device leads to, how many blocks its files
/// have, and whether enough of its segments are clean. All that the checkpoint leads to was walked
/// over, but for the tree of its files. It writes nothing, and all that the device holds is durable
/// after `Ok`.
///
/// # Errors
///
/// `NoMemory` where memory is refused, `Device` where a call of the device failed; else the device
/// holds no log map: it is too small, holds no checkpoint, or the first of the stages 1 to 9 that
/// fails is named.
pub fn verify_log<D: SectorDevice>(
    alloc: Global,
    device: &mut CachedDevice<D>,
) -> Result<FoundLog, MountFault>
    ensures loaded { IfOk result (λ f. IsLoaded f.tables (D.state device.new).size) }
    ensures found { IfOk result (λ f. (D.state device.new).keeps_model
        → IsFound (D.state device.old).content f) }
    ensures durable { OnOk result ((D.state device.new).keeps_model
        → Only (D.state device.old).content (D.state device.new)) }
    ensures reason { IfErr result (IsRefusedWalk (D.state device.old) (D.state device.new)) }
    ensures below_all { IsBelowAll (D.state device.old)
        → (result ≡ Err MountFault.TooSmall) × (device.new ≡ device.old) }
    ensures no_failure { OnOk result ((D.state device.new).failures
        ≡ (D.state device.old).failures) }
    ensures looks { SyncsOnce (D.state device.old) (D.state device.new) }
{
    let checkpoint = find_checkpoint(device)?;
    let walked = check(alloc, device, &checkpoint)?;
    let tables = load_tables(alloc, device, &checkpoint, walked.1)?;
    Ok(FoundLog {
        tables,
        enough_clean: walked.0,
    })
}

/// The tables of the log that the newest checkpoint of a device leads to, where it has enough clean
/// segments, as those of `verify_log`.
///
/// # Errors
///
/// As those of `verify_log`, and `Damaged` with 15 where too few segments are clean: the device
/// stands for no log map.
pub fn verify<D: SectorDevice>(
    alloc: Global,
    device: &mut CachedDevice<D>,
) -> Result<Tables, MountFault>
    ensures loaded { IfOk result (λ t. IsLoaded t (D.state device.new).size) }
    ensures found { IfOk result (λ t. (D.state device.new).keeps_model
        → HasTables (D.state device.old).content t) }
    ensures durable { OnOk result ((D.state device.new).keeps_model
        → Only (D.state device.old).content (D.state device.new)) }
    ensures reason { IfErr result (IsRefusedLog (D.state device.old) (D.state device.new)) }
    ensures cause { IfErr result (λ e. (e ≡ MountFault.NoMemory → ⊥)
        → IsOpenFault (D.state device.old) (D.state device.new) e) }
    ensures below_all { IsBelowAll (D.state device.old)
        → (result ≡ Err MountFault.TooSmall) × (device.new ≡ device.old) }
    ensures no_failure { OnOk result
        ((D.state device.new).failures ≡ (D.state device.old).failures) }
    ensures looks { SyncsOnce (D.state device.old) (D.state device.new) }
{
    let found = verify_log(alloc, device)?;
    if !found.enough_clean {
        return Err(MountFault::Damaged(FEW_CLEAN));
    }
    Ok(found.tables)
}

/// A content that was verified stands for no log map where it hasn't enough clean segments.
pub fn stands_for_none()
    ensures { LacksLogMap }
{}

/// A content that was verified, with enough clean segments, stands for the log map that its newest
/// checkpoint leads to.
pub fn stands_log()
    ensures { StandsWhereEnough }
{}
