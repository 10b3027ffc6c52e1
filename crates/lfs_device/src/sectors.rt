// A device whose units are sectors, by its own word or by its user's.
ghost use Rattle.std.specs.Prelude.{◌≡◌};
ghost use Rattle.lfs_model.specs.Device.{AreSectors};

use crate::{DeviceFault, ReadFault, SectorDevice, TendedDevice};
use std::marker::Model;

/// A device whose units are sectors: a write spoils no other sector than its own.
pub trait SectorUnits: SectorDevice {
    ghost units: { (d : Self) → AreSectors (Self.state d).unit };
}

/// A device whose units are taken to be sectors. Contracts see it as its device, by `in_sectors`:
/// where its units are larger, it doesn't keep the device model, and nothing is said of stops.
#[derive(Drop)]
pub struct InSectors<D: SectorDevice> {
    device: D,
}

impl<D: SectorDevice> Model for InSectors<D> {
    ghost Value = { D };

    ghost coded = { D.code };

    ghost view = { λ d. d.device };
}

impl<D: SectorDevice> InSectors<D> {
    pub fn new(device: D) -> InSectors<D>
        ensures { result ≡ device }
    {
        InSectors { device }
    }

    /// The device, to look at.
    pub fn device(&self) -> &D
        ensures { result.now ≡ self.now }
    {
        &self.device
    }

    pub fn into_inner(self) -> D
        ensures { result ≡ self }
    {
        let InSectors { device } = self;
        device
    }
}

impl<D: SectorDevice> SectorDevice for InSectors<D> {
    ghost use Rattle.lfs_model.specs.Device.{in_sectors};
    ghost use Rattle.lfs_model.proofs.UnitStates.{sectors_lawful};

    ghost state = { in_sectors D.state };

    ghost lawful = { λ d. sectors_lawful (D.state d) (D.lawful d) };

    fn sectors(&self) -> u32 {
        self.device.sectors()
    }

    fn read(&mut self, sector: u32, out: &mut [u8; 512]) -> Result<(), ReadFault> {
        self.device.read(sector, out)
    }

    fn write(&mut self, sector: u32, bytes: &[u8; 512]) -> Result<(), DeviceFault> {
        self.device.write(sector, bytes)
    }

    fn write_around(&mut self, sector: u32, bytes: &[u8; 512]) -> Result<(), DeviceFault> {
        self.device.write_around(sector, bytes)
    }

    fn sync(&mut self) -> Result<(), DeviceFault> {
        self.device.sync()
    }
}

impl<D: SectorDevice> SectorUnits for InSectors<D> {
    ghost units = { λ d j k same. same };
}

impl<D: TendedDevice> TendedDevice for InSectors<D> {
    ghost tends = { λ old new. D.tends old new };

    fn tend(&mut self) {
        self.device.tend();
    }
}
