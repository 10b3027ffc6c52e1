// A device as the volume sees it that stands on it.
ghost use Rattle.std.specs.Prelude.{◌≡◌, ◌<◌, ◌≤◌, ◌+◌, ◌↔◌, length, Some, None, IfOk, IfErr, OnOk, MatchResult};
ghost use Rattle.lfs_model.specs.Checkpoint.{CheckpointValue, unit_sectors};
ghost use Rattle.lfs_model.specs.Content.{newest};
ghost use Rattle.lfs_model.specs.Device.{BearsAll, Carries, IsUntouched, LeavesOnly, LieWithin};
ghost use Rattle.lfs_model.specs.UnitLaws.{unit_by};
ghost use Rattle.lfs_model.specs.declared.limits.TheConstants.{LEAST_SECTORS};
ghost use Rattle.lfs_volume.specs.Finding.{found_places};
ghost use Rattle.lfs_volume.specs.Found.{IsFound, by_volume, device_after};

use crate::FindFault;
use crate::finding::find_places;
use lfs_device::{DeviceFault, ReadFault, SectorDevice, TendedDevice};
use lfs_places::Places;
use std::marker::Model;
use std::snapshot::Snapshot;

/// A device as the volume sees it that was found on it: by the places of the volume, and of its
/// units, which are sectors where it holds none. Where the units of the device don't lie within
/// those, it doesn't keep the device model, and nothing is said of stops. Contracts see the places,
/// the device, and the device as it was when the volume was found.
#[derive(Drop)]
pub struct InVolume<D: SectorDevice> {
    places: Places,
    device: D,
    held: Snapshot<D>,
}

impl<D: SectorDevice> Model for InVolume<D> {
    ghost use Rattle.lfs_volume.specs.Found.{Found, IsFound, found_at};

    ghost Value = { Found D };

    ghost view = { λ v. record { places = v.places; device = v.device; held = v.held.value } };

    ghost invariant = { λ v. IsFound D.SectorDevice.state (found_at v.places v.device v.held.value) };
}

impl<D: SectorDevice> InVolume<D> {
    /// The device as the volume sees it that it holds. A slot that can't be read holds no
    /// checkpoint. By the new places the device is synced, and else it is read alone.
    ///
    /// # Errors
    ///
    /// The device, and with it `TooSmall` where it has fewer sectors than any volume: nothing was
    /// read then. `NoCheckpoint` where no volume may stand there, and `Device` where a call failed.
    pub fn find(mut device: D) -> Result<InVolume<D>, (FindFault, D)>
        ensures held { IfOk result (λ v. v.held ≡ v.device) }
        ensures found { IfOk result (λ v. (D.state v.device).keeps_model
            → found_places (D.state device).size (D.state device).content ≡ Some v.places) }
        ensures none { IfErr result (λ e. e.0 ≡ FindFault.NoCheckpoint → (D.state e.1).keeps_model
            → found_places (D.state device).size (D.state device).content ≡ None) }
        ensures enough { IfErr result (λ e. e.0 ≡ FindFault.NoCheckpoint
            → LEAST_SECTORS ≤ (D.state device).size) }
        ensures large_enough { OnOk result (LEAST_SECTORS ≤ (D.state device).size) }
        ensures too_small { IfErr result (λ e. e.0 ≡ FindFault.TooSmall
            ↔ (D.state device).size < LEAST_SECTORS) }
        ensures given_back { IfErr result (λ e. e.0 ≡ FindFault.TooSmall → e.1 ≡ device) }
        ensures failed { IfErr result (λ e. e.0 ≡ FindFault.Device
            → (D.state device).failures < (D.state e.1).failures) }
        ensures borne { IfErr result (λ e. e.0 ≡ FindFault.Device → BearsAll (D.state device)) }
        ensures no_failure { IfOk result
            (λ v. (D.state v.device).failures ≡ (D.state device).failures) }
        ensures no_failure_none { IfErr result (λ e. e.0 ≡ FindFault.NoCheckpoint
            → (D.state e.1).failures ≡ (D.state device).failures) }
        ensures untouched { IsUntouched (D.state device) (D.state (device_after result)) }
        ensures any_moment { LeavesOnly (D.state device) (D.state (device_after result))
            (D.state device).may_leave }
        ensures carries { Carries (D.state device) (D.state (device_after result)) }
        ensures told { length (D.state (device_after result)).told
            ≤ length (D.state device).told + 1 }
        ensures whole { IfOk result (λ v. (k : CheckpointValue)
            → newest (by_volume D.state v).content ≡ Some k
            → LieWithin (by_volume D.state v).unit (unit_by (unit_sectors k))) }
    {
        match find_places(&mut device) {
            Ok(places) => {
                let held = Snapshot::of(&device);
                Ok(InVolume {
                    places,
                    device,
                    held,
                })
            }
            Err(fault) => Err((fault, device)),
        }
    }

    /// The device, to look at.
    pub fn device(&self) -> &D
        ensures { result.now ≡ self.now.device }
    {
        &self.device
    }

    /// The places of the volume, as they were found.
    pub fn places(&self) -> Places
        ensures places { result ≡ self.now.places }
        ensures found { IsFound D.state self.now }
    {
        self.places
    }

    /// The device.
    pub fn into_inner(self) -> D
        ensures device { result ≡ self.device }
        ensures found { IsFound D.state self }
    {
        let InVolume {
            places: _,
            device,
            held: _,
        } = self;
        device
    }
}

impl<D: SectorDevice> SectorDevice for InVolume<D> {
    ghost use Rattle.lfs_volume.specs.Found.{by_volume};
    ghost use Rattle.lfs_volume.specs.Lawful.{volume_lawful};

    ghost state = { by_volume D.state };

    ghost lawful = { volume_lawful D.state D.lawful };

    fn sectors(&self) -> u32 {
        self.places.volume_sectors(self.device.sectors())
    }

    fn read(&mut self, sector: u32, out: &mut [u8; 512]) -> Result<(), ReadFault> {
        let place = self.places.place(sector);
        self.device.read(place, out)
    }

    fn write(&mut self, sector: u32, bytes: &[u8; 512]) -> Result<(), DeviceFault> {
        let place = self.places.place(sector);
        self.device.write(place, bytes)
    }

    fn write_around(&mut self, sector: u32, bytes: &[u8; 512]) -> Result<(), DeviceFault> {
        let place = self.places.place(sector);
        self.device.write_around(place, bytes)
    }

    fn sync(&mut self) -> Result<(), DeviceFault> {
        self.device.sync()
    }
}

impl<D: TendedDevice> TendedDevice for InVolume<D> {
    ghost use Rattle.std.specs.Prelude.{◌≡◌};

    ghost tends = { λ old new. (new.places ≡ old.places) × (new.held ≡ old.held)
        × D.tends old.device new.device };

    fn tend(&mut self) {
        self.device.tend();
    }
}
