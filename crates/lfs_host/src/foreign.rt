//! Why a device isn't mounted, as far as the slots tell more than the mount's fault.
ghost use Rattle.std.specs.Prelude.{◌≡◌};

use crate::fault::Refusal;
use lfs_device::SectorDevice;
use lfs_fs::MountFault;
use lfs_layout::Checkpoint;
use lfs_places::limits::SECOND_SLOT;

/// The sectors at which a slot may stand, by the old places or by the new ones.
const SLOT_SECTORS: [u32; 3] = [0, 1, SECOND_SLOT];

/// With this each checkpoint begins.
const MAGIC: &[u8] = b"SLFSCKP1";

/// What a slot of the checkpoint shows.
#[derive(Clone, Copy)]
enum Slot {
    /// It doesn't begin as a checkpoint does, or can't be read.
    Other,
    /// It begins as a checkpoint does, and is none.
    Begun,
    /// A checkpoint of a volume of so many segments.
    Whole(u32),
}

fn slot_of<D: SectorDevice>(device: &mut D, sector: u32) -> Slot
    ensures { (D.state device.new).told ≡ (D.state device.old).told }
{
    let mut bytes = [0; 512];
    if sector >= device.sectors() || device.read(sector, &mut bytes).is_err() {
        return Slot::Other;
    }
    match Checkpoint::decode(&bytes) {
        Some(checkpoint) => Slot::Whole(checkpoint.segments),
        None if bytes.starts_with(MAGIC) => Slot::Begun,
        None => Slot::Other,
    }
}

// The same, where a slot has a checkpoint.
fn of_whole(fault: MountFault, segments: u32) -> Refusal {
    match fault {
        MountFault::TooSmall => Refusal::Cut(segments),
        fault => Refusal::from(fault),
    }
}

/// The refusal of a device that isn't mounted for this fault.
pub fn explained<D: SectorDevice>(fault: MountFault, device: &mut D) -> Refusal
    ensures { (D.state device.new).told ≡ (D.state device.old).told }
{
    match fault {
        MountFault::NoCheckpoint => of_slots(fault, device),
        MountFault::TooSmall => of_slots(fault, device),
        fault => Refusal::from(fault),
    }
}

// The same, by what the slots of the checkpoint show.
fn of_slots<D: SectorDevice>(fault: MountFault, device: &mut D) -> Refusal
    ensures { (D.state device.new).told ≡ (D.state device.old).told }
{
    let mut is_foreign = true;
    for sector in SLOT_SECTORS {
        match slot_of(device, sector) {
            Slot::Other => {}
            Slot::Begun => is_foreign = false,
            Slot::Whole(segments) => return of_whole(fault, segments),
        }
    }
    if is_foreign {
        Refusal::Foreign(fault)
    } else {
        Refusal::from(fault)
    }
}

/// Whether a checkpoint stands at a sector at which a slot may stand.
pub fn holds_checkpoint<D: SectorDevice>(device: &mut D) -> bool
    ensures { (D.state device.new).told ≡ (D.state device.old).told }
{
    for sector in SLOT_SECTORS {
        if let Slot::Whole(_) = slot_of(device, sector) {
            return true;
        }
    }
    false
}
