//! The two slots of the checkpoint.
ghost use Rattle.std.specs.Prelude.{
  ◌≡◌,
  ◌+◌,
  ◌<◌,
  ◌≤◌,
  ◌↔◌,
  ◌⊎◌,
  ◌^◌,
  IsFalse,
  IsTrue,
  IsSome,
  IfSome,
  None,
  Some,
};
ghost use Rattle.lfs_model.specs.Checkpoint.{FitsCheckpoint, checkpoint_in, is_last, layout_version, rank};
ghost use Rattle.lfs_model.specs.Content.{newer, with_parity};
ghost use Rattle.lfs_model.specs.Device.{Carries};
ghost use Rattle.lfs_salvage.specs.Slots.{AreFit, IsFit, IsFound, held_in, number_in, rank_in, standing, stands};
ghost use Rattle.lfs_salvage.specs.Telling.{TellsNothing};

use crate::readings::read_sector;
use lfs_device::SectorDevice;
use lfs_layout::{Checkpoint, is_zero};
use lfs_model::limits::LAST_VERSION;
use lfs_places::Places;

/// What a slot holds.
#[derive(Clone, Copy)]
pub enum Slot {
    Whole(Checkpoint),
    /// All of its bytes are 0, as before the first checkpoint in it.
    Empty,
    /// It can't be read, or holds no checkpoint.
    Other,
}

/// What is added to the number of a checkpoint of an older version, before which none of the last
/// counts.
const OLDER: u128 = 1 << 64;

// Whether it is of the last version of the layout.
fn is_of_last(checkpoint: &Checkpoint) -> bool
    ensures { result ≡ is_last (layout_version checkpoint.now) }
{
    checkpoint.version == LAST_VERSION
}

// The rank of a checkpoint: of two that with the greater one counts.
fn rank(checkpoint: &Checkpoint) -> u128
    ensures rank { result ≡ rank checkpoint.now }
    ensures few { result < 2 ^ 65 }
{
    if is_of_last(checkpoint) {
        u128::from(checkpoint.number)
    } else {
        OLDER + u128::from(checkpoint.number)
    }
}

// Whether volumes of its version stand by these places.
fn stands(places: Places, checkpoint: &Checkpoint) -> bool
    ensures { result ≡ stands places (is_last (layout_version checkpoint.now)) }
{
    match places {
        Places::Old => !is_of_last(checkpoint),
        Places::New => is_of_last(checkpoint),
    }
}

impl Slot {
    fn checkpoint(&self) -> Option<Checkpoint>
        ensures found { 0 < number_in self.now → IsSome result }
        ensures number { IfSome result (λ c. c.number ≡ number_in self.now) }
        ensures held { result ≡ held_in self.now }
    {
        match self {
            Slot::Whole(checkpoint) => Some(*checkpoint),
            Slot::Empty | Slot::Other => None,
        }
    }

    // The number of its checkpoint, 0 where it holds none.
    fn number(&self) -> u64
        ensures { result ≡ number_in self.now }
    {
        match self {
            Slot::Whole(checkpoint) => checkpoint.number,
            Slot::Empty | Slot::Other => 0,
        }
    }

    // 0 where it holds no checkpoint, and else above the rank of that by 1.
    fn rank(&self) -> u128
        ensures { result ≡ rank_in self.now }
    {
        match self {
            Slot::Whole(checkpoint) => rank(checkpoint) + 1,
            Slot::Empty | Slot::Other => 0,
        }
    }

    // The same, by places at which a checkpoint of some versions is none.
    fn by(&self, places: Places) -> Slot
        ensures held { held_in result ≡ standing places (held_in self.now) }
        ensures fit { IsFit self.now → IsFit result }
    {
        match self {
            Slot::Whole(checkpoint) if !stands(places, checkpoint) => Slot::Other,
            slot => *slot,
        }
    }

    // Whether it holds no checkpoint, though the other slot holds one. Zeros beside the first one
    // never held any.
    fn is_lost_beside(&self, other: &Slot) -> bool
        ensures lost { number_in self.now ≡ 0 → 1 < number_in other.now → IsTrue result }
        ensures held { 0 < number_in self.now → IsFalse result }
        ensures beside { number_in other.now ≡ 0 → IsFalse result }
    {
        let least = match self {
            Slot::Empty => 2,
            Slot::Whole(_) | Slot::Other => 1,
        };
        self.number() == 0 && other.number() >= least
    }
}

/// What both slots hold.
#[derive(Clone, Copy)]
pub struct Slots {
    pub first: Slot,
    pub second: Slot,
}

/// What a slot holds that has these bytes. A checkpoint stands in the slot that its number says.
pub fn slot_of(bytes: &[u8; 512], sector: u32) -> Slot
    ensures held { held_in result ≡ with_parity sector (checkpoint_in bytes.now) }
    ensures fit { IsFit result }
{
    let Some(checkpoint) = Checkpoint::decode(bytes) else {
        if is_zero(bytes) {
            return Slot::Empty;
        }
        return Slot::Other;
    };
    if checkpoint.number % 2 != u64::from(sector) {
        return Slot::Other;
    }
    Slot::Whole(checkpoint)
}

fn read_slot<D: SectorDevice>(device: &mut D, sector: u32) -> Slot
    ensures found { IsFound (D.state device.old) (D.state device.new) sector (held_in result) }
    ensures fit { IsFit result }
    ensures content { (D.state device.new).content ≡ (D.state device.old).content }
    ensures carries { Carries (D.state device.old) (D.state device.new) }
    ensures told { TellsNothing (D.state device.old) (D.state device.new) }
{
    match read_sector(device, sector) {
        Some(bytes) => slot_of(&bytes, sector),
        None => Slot::Other,
    }
}

/// Reads both slots. One that holds a checkpoint is `Whole` of it, unless the device failed.
pub fn read_slots<D: SectorDevice>(device: &mut D) -> Slots
    ensures first { IsFound (D.state device.old) (D.state device.new) 0 (held_in result.first) }
    ensures second { IsFound (D.state device.old) (D.state device.new) 1 (held_in result.second) }
    ensures fit { AreFit result }
    ensures told { TellsNothing (D.state device.old) (D.state device.new) }
{
    Slots {
        first: read_slot(device, 0),
        second: read_slot(device, 1),
    }
}

impl Slots {
    // Whether the checkpoint of the first slot is the newest.
    fn is_first_newest(&self) -> bool
        ensures { IsTrue result ↔ rank_in self.now.second ≤ rank_in self.now.first }
    {
        self.second.rank() <= self.first.rank()
    }

    /// The same, by the places of a volume: by the old ones a checkpoint of the last version of the
    /// layout is none, and by the new ones only such a one is a checkpoint.
    pub fn by(&self, places: Places) -> Slots
        ensures first { held_in result.first ≡ standing places (held_in self.now.first) }
        ensures second { held_in result.second ≡ standing places (held_in self.now.second) }
        ensures fit { AreFit self.now → AreFit result }
    {
        Slots {
            first: self.first.by(places),
            second: self.second.by(places),
        }
    }

    /// The newest checkpoint, with which a mount begins: one of an older version counts before one
    /// of the last, and else the greater number.
    pub fn newest(&self) -> Option<Checkpoint>
        ensures newest { result ≡ newer (held_in self.now.first) (held_in self.now.second) }
        ensures fit { AreFit self.now → IfSome result FitsCheckpoint }
        ensures first { 0 < number_in self.now.first → IsSome result }
        ensures second { 0 < number_in self.now.second → IsSome result }
        ensures greatest { IfSome result (λ c. (rank_in self.now.first ≤ rank c + 1)
            × (rank_in self.now.second ≤ rank c + 1)) }
    {
        if self.is_first_newest() {
            self.first.checkpoint()
        } else {
            self.second.checkpoint()
        }
    }

    /// The other slot, and what it holds.
    pub fn other(&self) -> (u32, Slot)
        ensures { (rank_in result.1 ≤ rank_in self.now.first)
            × (rank_in result.1 ≤ rank_in self.now.second)
            × ((result.1 ≡ self.now.first) ⊎ (result.1 ≡ self.now.second)) }
    {
        if self.is_first_newest() {
            (1, self.second)
        } else {
            (0, self.first)
        }
    }

    /// The slot that holds no checkpoint, and may have held a newer one than the other does.
    pub fn lost(&self) -> Option<u32>
        ensures first { number_in self.now.first ≡ 0 → 1 < number_in self.now.second
            → result ≡ Some 0 }
        ensures second { number_in self.now.second ≡ 0 → 1 < number_in self.now.first
            → result ≡ Some 1 }
        ensures neither { 0 < number_in self.now.first → 0 < number_in self.now.second
            → result ≡ None }
    {
        if self.first.is_lost_beside(&self.second) {
            Some(0)
        } else if self.second.is_lost_beside(&self.first) {
            Some(1)
        } else {
            None
        }
    }

    /// The checkpoint before the newest.
    pub fn older(&self) -> Option<Checkpoint>
        ensures found { 0 < number_in self.now.first → 0 < number_in self.now.second
            → IsSome result }
        ensures least { IfSome result (λ c. (rank c < rank_in self.now.first)
            × (rank c < rank_in self.now.second)) }
    {
        self.other().1.checkpoint()
    }
}
