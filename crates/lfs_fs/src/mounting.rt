//! A volume mounted, and its device taken back.
ghost use Rattle.std.specs.Prelude.{◌≡◌, ◌≤◌, ◌+◌, length, Err, IfOk, IfErr, MatchResult};
ghost use Rattle.lfs_model.specs.Device.{Only, IsUntouched, Carries, LeavesOnly};
ghost use Rattle.lfs_store.specs.log.Mounting.{HasWholeUnits};
ghost use Rattle.lfs_store.specs.log.verify.Faults.{IsBelowAll};
ghost use Rattle.lfs_fs.specs.Available.{MountIsAvailable};
ghost use Rattle.lfs_fs.specs.Mounting.{MountsFs, FindsState, IsMountFault, IsRefused};
ghost use Rattle.lfs_fs.specs.Seen.{seen};

use crate::fs::Fs;
use crate::handles::Handles;
use lfs_cache::{CachedDevice, DEFAULT_SECTORS};
use lfs_device::{SectorDevice, TendedDevice};
use lfs_store::volume_log::memory::segments::Usage;
use lfs_store::{MountFault, Store};
use lfs_tree::{LEAST_SECTORS, verify_tree};
use std::alloc::Global;

/// The device behind a cache, where it isn't smaller than any volume.
///
/// # Errors
///
/// With the device: `TooSmall` below 4,098 sectors, `NoMemory` where memory is refused.
fn cached<D: SectorDevice>(alloc: Global, device: D) -> Result<CachedDevice<D>, (MountFault, D)>
    ensures same { MatchResult result (λ cache. cache ≡ device) (λ e. e.1 ≡ device) }
    ensures cause { IfErr result (λ e. (e.0 ≡ MountFault.NoMemory → ⊥)
        → IsMountFault (D.state device) (D.state device) e.0) }
    ensures reason { IfErr result (λ e. IsRefused (D.state device)
        (D.state device) e.0) }
    ensures below_all { IsBelowAll (D.state device)
        → result ≡ Err (record { 0 = MountFault.TooSmall; 1 = device }) }
{
    if device.sectors() < LEAST_SECTORS {
        return Err((MountFault::TooSmall, device));
    }
    match CachedDevice::new(alloc, device, DEFAULT_SECTORS) {
        Ok(device) => Ok(device),
        Err(refused) => Err((MountFault::NoMemory, refused.1)),
    }
}

impl<D: SectorDevice> Fs<D> {
    /// Mounts the device's volume, without open handles, once its log and its tree were walked
    /// over. It writes nothing, and syncs once at most. The units of the device lie within those of
    /// its volume: `find_volume` gives any device as such a one.
    ///
    /// # Errors
    ///
    /// With the device: `TooSmall` below 4,098 sectors, `NoCheckpoint`, `TooSmall` where the volume
    /// has more sectors than the device, `Damaged` with the first of the stages 1 to 15 that fails,
    /// where what the checkpoint leads to is no tree or too few segments are clean; `NoMemory` and
    /// `Device` for their causes. A volume on a device that keeps the device model, and bears two
    /// orders more, is refused for memory alone.
    pub fn mount(alloc: Global, device: D) -> Result<Fs<D>, (MountFault, D)>
        requires { HasWholeUnits (D.state device) }
        ensures mounts { IfOk result (λ fs. MountsFs D.SectorDevice.state device fs) }
        ensures only { IfOk result (λ fs. FindsState D.SectorDevice.state device fs) }
        ensures durable { IfOk result (λ fs. (D.state (seen fs).log.device).keeps_model
            → Only (D.state device).content (D.state (seen fs).log.device)) }
        ensures no_failure { IfOk result (λ fs. (D.state (seen fs).log.device).failures
            ≡ (D.state device).failures) }
        ensures cause { IfErr result (λ e. (e.0 ≡ MountFault.NoMemory → ⊥)
            → IsMountFault (D.state device) (D.state e.1) e.0) }
        ensures reason { IfErr result (λ e. IsRefused (D.state device)
            (D.state e.1) e.0) }
        ensures below_all { IsBelowAll (D.state device)
            → result ≡ Err (record { 0 = MountFault.TooSmall; 1 = device }) }
        ensures untouched { MatchResult result
            (λ fs. IsUntouched (D.state device)
            (D.state (seen fs).log.device))
            (λ e. IsUntouched (D.state device) (D.state e.1)) }
        ensures carries { MatchResult result
            (λ fs. Carries (D.state device) (D.state (seen fs).log.device))
            (λ e. Carries (D.state device) (D.state e.1)) }
        ensures any_moment { MatchResult result
            (λ fs. LeavesOnly (D.state device) (D.state (seen fs).log.device)
            (D.state device).may_leave)
            (λ e. LeavesOnly (D.state device) (D.state e.1)
            (D.state device).may_leave) }
        ensures told { MatchResult result
            (λ fs. length (D.state (seen fs).log.device).told ≤ length (D.state device).told + 1)
            (λ e. length (D.state e.1).told ≤ length (D.state device).told + 1) }
        ensures available { IfErr result (λ e. MountIsAvailable
            (D.state device) (D.state e.1) e.0) }
    {
        let mut device = match cached(alloc, device) {
            Ok(device) => device,
            Err(fault) => return Err(fault),
        };
        let tables = match verify_tree(alloc, &mut device) {
            Ok(tables) => tables,
            Err(fault) => return Err((fault, device.into_inner())),
        };
        match Store::with_tables(alloc, device, tables) {
            Ok(store) => Ok(Fs {
                alloc,
                store,
                handles: Handles::new(),
            }),
            Err(fault) => Err(fault),
        }
    }

    /// The device as it is, to look at.
    pub fn device(&self) -> &D
        ensures { result.now ≡ (seen self.now).log.device }
    {
        self.store.device()
    }

    /// The acknowledged checkpoint's number.
    pub fn checkpoint(&self) -> u64
        ensures { result ≡ (seen self.now).log.number }
    {
        self.store.number()
    }

    /// How many blocks live in each segment, and hold it.
    pub fn usage(&self) -> &Usage
        ensures { result.now ≡ (seen self.now).log.usage }
    {
        self.store.usage()
    }

    /// The device as it is. What wasn't saved is gone.
    pub fn into_device(self) -> D
        ensures { result ≡ (seen self).log.device }
    {
        self.store.into_device()
    }
}

impl<D: TendedDevice> Fs<D> {
    ghost use Rattle.lfs_fs.specs.Volume.{IsStill};

    /// Tends to the device, of which the volume sees nothing.
    pub fn tend(&mut self)
        ensures tended { D.tends (seen self.old).log.device (seen self.new).log.device }
        ensures still { IsStill D.SectorDevice.state (seen self.old) (seen self.new) }
        ensures no_failure { (D.SectorDevice.state (seen self.new).log.device).failures
            ≡ (D.SectorDevice.state (seen self.old).log.device).failures }
    {
        self.store.tend();
    }
}
