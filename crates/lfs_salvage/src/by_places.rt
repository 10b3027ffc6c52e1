// An image as the volume sees it that stands on it, however damaged it is.
ghost use Rattle.std.specs.Prelude.{◌≡◌, ◌≤◌, ◌||◌, Some};
ghost use Rattle.lfs_model.specs.Device.{Carries};
ghost use Rattle.lfs_places.specs.Places.{least_size, place_of};
ghost use Rattle.lfs_salvage.specs.Telling.{TellsNothing};
ghost use Rattle.lfs_volume.specs.Finding.{found_places, holds_older};

use crate::readings::read_sector;
use crate::slots::{Slot, slot_of};
use lfs_device::{DeviceFault, ReadFault, SectorDevice};
use lfs_model::limits::{CHECKPOINT_SLOTS, LAST_VERSION};
use lfs_places::Places;
use lfs_places::limits::{FIRST_SEGMENT, SECOND_SLOT};
use std::marker::Model;

/// The sector of the device at which a sector of the volume stands, also where the device has none:
/// people are told of this one.
pub fn device_sector(places: Places, sector: u32) -> u64
    ensures { result ≡ place_of places sector }
{
    match places {
        Places::Old => u64::from(sector),
        Places::New => match sector {
            0 => 0,
            1 => u64::from(SECOND_SLOT),
            _ => u64::from(FIRST_SEGMENT) + u64::from(sector - CHECKPOINT_SLOTS),
        },
    }
}

// Whether the sector at this place holds a checkpoint of a version before the last that is of this
// slot.
fn holds_older<D: SectorDevice>(device: &mut D, place: u32, slot: u32) -> bool
    ensures holds { (D.state device.new).keeps_model
        → (D.state device.new).failures ≡ (D.state device.old).failures
        → result ≡ holds_older (D.state device.old).content place slot }
    ensures content { (D.state device.new).content ≡ (D.state device.old).content }
    ensures carries { Carries (D.state device.old) (D.state device.new) }
    ensures told { TellsNothing (D.state device.old) (D.state device.new) }
{
    let Some(bytes) = read_sector(device, place) else {
        return false;
    };
    match slot_of(&bytes, slot) {
        Slot::Whole(checkpoint) => checkpoint.version != LAST_VERSION,
        Slot::Empty | Slot::Other => false,
    }
}

// Whether a slot by the old places holds a checkpoint of a version before the last.
fn holds_old<D: SectorDevice>(device: &mut D) -> bool
    ensures holds { (D.state device.new).keeps_model
        → (D.state device.new).failures ≡ (D.state device.old).failures
        → result ≡ (holds_older (D.state device.old).content 0 0
        || holds_older (D.state device.old).content 1 1) }
    ensures carries { Carries (D.state device.old) (D.state device.new) }
    ensures told { TellsNothing (D.state device.old) (D.state device.new) }
{
    if holds_older(device, 0, 0) {
        return true;
    }
    holds_older(device, 1, 1)
}

// The places by which a device is gone through.
fn places_on<D: SectorDevice>(device: &mut D) -> Places
    ensures found { (D.state device.new).keeps_model
        → (D.state device.new).failures ≡ (D.state device.old).failures → (places : Places)
        → found_places (D.state device.old).size (D.state device.old).content ≡ Some places
        → result ≡ places }
    ensures size { least_size result ≤ (D.state device.old).size }
    ensures carries { Carries (D.state device.old) (D.state device.new) }
    ensures told { TellsNothing (D.state device.old) (D.state device.new) }
{
    if holds_old(device) || device.sectors() < FIRST_SEGMENT {
        Places::Old
    } else {
        Places::New
    }
}

/// A device as the volume sees it that stands on it, or stood there before it was damaged. Contracts
/// see the places of the volume, and the device.
#[derive(Drop)]
pub struct ByPlaces<D: SectorDevice> {
    places: Places,
    device: D,
}

impl<D: SectorDevice> Model for ByPlaces<D> {
    ghost use Rattle.std.specs.Prelude.{◌≤◌};
    ghost use Rattle.lfs_places.specs.Places.{least_size};
    ghost use Rattle.lfs_salvage.specs.AtPlaces.{AtPlaces};

    ghost Value = { AtPlaces D };

    ghost view = { λ v. record { places = v.places; device = v.device } };

    ghost invariant = { λ v. least_size v.places ≤ (D.SectorDevice.state v.device).size };
}

impl<D: SectorDevice> ByPlaces<D> {
    /// By the old places goes a device with a checkpoint of an older version of the layout in a slot
    /// there, and each other one by the new places, where it is large enough for them. A slot that
    /// can't be read holds no checkpoint. So a mount finds the volume by the same places, if it does.
    pub fn find(mut device: D) -> ByPlaces<D>
        ensures found { (D.state result.device).keeps_model
            → (D.state result.device).failures ≡ (D.state device).failures → (places : Places)
            → found_places (D.state device).size (D.state device).content ≡ Some places
            → result.places ≡ places }
        ensures carries { Carries (D.state device) (D.state result.device) }
        ensures told { TellsNothing (D.state device) (D.state result.device) }
    {
        let places = places_on(&mut device);
        ByPlaces { places, device }
    }

    /// The places of the volume.
    pub fn places(&self) -> Places
        ensures { result ≡ self.now.places }
    {
        self.places
    }

    /// The same device by the old places, at which a device of any size may have a volume.
    pub fn by_old(self) -> ByPlaces<D>
        ensures places { result.places ≡ Places.Old }
        ensures device { result.device ≡ self.device }
    {
        let ByPlaces { places: _, device } = self;
        ByPlaces {
            places: Places::Old,
            device,
        }
    }

    /// The device.
    pub fn into_inner(self) -> D
        ensures { result ≡ self.device }
    {
        let ByPlaces { places: _, device } = self;
        device
    }
}

impl<D: SectorDevice> SectorDevice for ByPlaces<D> {
    ghost use Rattle.lfs_places.specs.Lawful.{placed_lawful};
    ghost use Rattle.lfs_salvage.specs.AtPlaces.{by_places};

    ghost state = { by_places D.state };

    ghost lawful = { λ v. placed_lawful v.places (D.state v.device) (D.lawful v.device) };

    fn sectors(&self) -> u32 {
        self.places.volume_sectors(self.device.sectors())
    }

    fn read(&mut self, sector: u32, out: &mut [u8; 512]) -> Result<(), ReadFault> {
        let place = self.places.place(sector);
        self.device.read(place, out)
    }

    fn write(&mut self, sector: u32, bytes: &[u8; 512]) -> Result<(), DeviceFault> {
        let place = self.places.place(sector);
        self.device.write(place, bytes)
    }

    fn write_around(&mut self, sector: u32, bytes: &[u8; 512]) -> Result<(), DeviceFault> {
        let place = self.places.place(sector);
        self.device.write_around(place, bytes)
    }

    fn sync(&mut self) -> Result<(), DeviceFault> {
        self.device.sync()
    }
}
