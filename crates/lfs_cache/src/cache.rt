// A device in front of which sectors are kept.
ghost use Rattle.std.specs.Prelude.{◌≡◌, ◌<◌, ◌≤◌, MatchResult};

use crate::sectors::Sectors;
use lfs_device::{DeviceFault, NoMemory, ReadFault, SectorDevice, SectorUnits, TendedDevice};
use std::alloc::Global;
use std::marker::Model;

/// How many sectors a cache may be asked to keep.
pub const MOST_SECTORS: u32 = 65_536;

/// How many sectors the cache of a mounted volume keeps, where no other number is asked for.
pub const DEFAULT_SECTORS: u32 = 256;

/// A device in front of which some sectors are kept: the last that were lent or written. Contracts
/// see it as its device, of which what is kept changes no answer.
#[derive(Drop)]
pub struct CachedDevice<D: SectorDevice> {
    sectors: Sectors<D>,
}

impl<D: SectorDevice> Model for CachedDevice<D> {
    ghost use Rattle.lfs_cache.specs.Kept.{Agrees};

    ghost Value = { D };

    ghost coded = { D.code };

    ghost view = { λ c. c.sectors.device };

    ghost invariant = { λ c. Agrees c.sectors.kept (D.SectorDevice.state c.sectors.device) };
}

impl<D: SectorDevice> CachedDevice<D> {
    ghost use Rattle.std.specs.Borrow.{sem};
    ghost use Rattle.std.specs.Io.BufRead.{Rests};
    ghost use Rattle.lfs_cache.specs.Kept.{Lends};
    ghost use Rattle.lfs_cache.specs.contracts.cache.CachedDevice.{the_row};

    /// A device in front of which up to so many sectors are kept. Each takes its memory as it comes.
    ///
    /// # Errors
    ///
    /// Where memory is refused, with the device.
    pub fn new(alloc: Global, device: D, capacity: u32) -> Result<CachedDevice<D>, (NoMemory, D)>
        requires some { 1 ≤ capacity }
        requires most { capacity ≤ MOST_SECTORS }
        ensures { MatchResult result (λ cache. cache ≡ device) (λ refused. refused.1 ≡ device) }
    {
        match Sectors::new(alloc, device, capacity) {
            Ok(sectors) => Ok(CachedDevice { sectors }),
            Err(refused) => Err(refused),
        }
    }

    /// The device, without what was kept of it.
    pub fn into_inner(self) -> D
        ensures { result ≡ self }
    {
        self.sectors.into_device()
    }

    /// The device, to look at.
    pub fn device(&self) -> &D
        ensures { result.now ≡ self.now }
    {
        &self.sectors.device
    }

    /// Lends a sector from where it is kept. One that isn't kept is read, and kept unless memory is
    /// refused.
    ///
    /// # Errors
    ///
    /// As those of `read`.
    pub fn read_ref(&mut self, sector: u32) -> Result<&[u8; 512], ReadFault>
        requires { sector < (D.state self.old).size }
        ensures* lends { sem 𝓛 (Rests (the_row D.row D.SectorDevice) self.entry
            (λ n. Lends (D.state self.old) (D.state n) sector result)) }
    {
        self.sectors.fetch(sector)?;
        Ok(self.sectors.look(sector))
    }
}

impl<D: SectorDevice> SectorDevice for CachedDevice<D> {
    ghost state = { λ c. D.state c };

    ghost lawful = { λ c. D.lawful c };

    fn sectors(&self) -> u32 {
        self.sectors.device.sectors()
    }

    fn read(&mut self, sector: u32, out: &mut [u8; 512]) -> Result<(), ReadFault> {
        self.sectors.read(sector, out)
    }

    fn write(&mut self, sector: u32, bytes: &[u8; 512]) -> Result<(), DeviceFault> {
        self.sectors.write(sector, bytes)
    }

    fn write_around(&mut self, sector: u32, bytes: &[u8; 512]) -> Result<(), DeviceFault> {
        self.sectors.write_around(sector, bytes)
    }

    fn sync(&mut self) -> Result<(), DeviceFault> {
        self.sectors.sync()
    }
}

impl<D: SectorUnits> SectorUnits for CachedDevice<D> {
    ghost units = { λ c. D.units c };
}

impl<D: TendedDevice> TendedDevice for CachedDevice<D> {
    ghost tends = { λ old new. D.tends old new };

    fn tend(&mut self) {
        self.sectors.tend();
    }
}
