//! The command that copies what a damaged volume still holds.
ghost use Rattle.lfs_salvage.specs.Telling.{TellsNothing};

use crate::rescue::Rescue;
use crate::scanning::{Scanned, scan};
use crate::telling::{tell_map, tell_scan};
use crate::wording::put_slot;
use lfs_device::{SectorDevice, World};
use lfs_fs::MountFault;
use lfs_host::fault::{Ending, Fault, ImageFault, Refusal};
use lfs_host::foreign::explained;
use lfs_host::host;
use lfs_host::image::{Beside, Patience, open_to_look};
use lfs_host::printing::{flush, print, put_count, refuse};
use lfs_layout::Checkpoint;
use lfs_places::Places;
use lfs_salvage::{ByPlaces, Slots, read_slots};
use std::alloc::{AllocError, Global};
use std::fs::File;
use std::io::Write;
use std::rt::Files;
use std::time::Clock;

/// What a recovery is to do.
#[derive(Clone, Copy)]
pub struct Recovery<'a> {
    /// The folder of the host that is made.
    pub folder: &'a str,
    /// It begins with the checkpoint before the newest.
    pub older: bool,
    /// It begins with what the log has of a checkpoint.
    pub scans: bool,
}

/// What a recovery begins with.
#[derive(Clone, Copy)]
struct Start {
    /// The places of the volume.
    places: Places,
    checkpoint: Checkpoint,
    /// The slot whose checkpoint may be lost, and be a newer one.
    lost: Option<u32>,
    /// The checkpoint as the log has it, where it isn't that of a slot.
    scanned: Option<Scanned>,
}

/// Which checkpoint isn't there.
#[derive(Clone, Copy)]
enum Lack {
    Newest,
    Older,
}

// What a recovery begins with. By the older checkpoint the newest is there.
fn chosen(slots: &Slots, places: Places, older: bool) -> Result<Start, Lack> {
    let Some(newest) = slots.newest() else {
        return Err(Lack::Newest);
    };
    let lost = slots.lost();
    if !older {
        return Ok(Start {
            places,
            checkpoint: newest,
            lost,
            scanned: None,
        });
    }
    match slots.older() {
        Some(checkpoint) => Ok(Start {
            places,
            checkpoint,
            lost,
            scanned: None,
        }),
        None => Err(Lack::Older),
    }
}

// The refusal of a device whose volume lacks a checkpoint.
fn refusal_of<D: SectorDevice>(lack: Lack, device: &mut D) -> Refusal
    ensures { TellsNothing (D.state device.old) (D.state device.new) }
{
    match lack {
        Lack::Newest => explained(MountFault::NoCheckpoint, device),
        Lack::Older => Refusal::NoOlder,
    }
}

// What a recovery begins with that goes by the log.
fn start_of(places: Places, scanned: Option<Scanned>) -> Result<Start, Lack> {
    let Some(found) = scanned else {
        return Err(Lack::Newest);
    };
    Ok(Start {
        places,
        checkpoint: found.checkpoint,
        lost: None,
        scanned: Some(found),
    })
}

// Tells what of the checkpoint and of the map is missing: whether anything is.
fn tell_start<W: Write>(start: &Start, gaps: &[(u32, u32)], output: &mut W) -> Result<bool, Fault> {
    if let Some(slot) = start.lost {
        put_slot(output, start.places, slot)?;
    }
    if let Some(found) = start.scanned {
        tell_scan(output, found.checkpoint.number, found.is_whole)?;
    }
    for (block, sector) in gaps {
        tell_map(output, start.places, *block, *sector)?;
    }
    Ok(start.lost.is_some() || start.scanned.is_some() || !gaps.is_empty())
}

// Brings out all, and tells how much that is.
fn take_all<D: SectorDevice, R: Files<File = File>, W: Write>(
    rt: &R,
    alloc: Global,
    device: &mut D,
    start: &Start,
    rescue: &mut Rescue<'_>,
    output: &mut W,
) -> Result<Ending, Fault>
    ensures { TellsNothing (D.state device.old) (D.state device.new) }
{
    rescue.is_lacking = tell_start(start, rescue.gaps(), output)?;
    rescue.take_all(rt, alloc, device, output)?;
    put_count(output, b"ok ", rescue.whole)?;
    put_count(output, b" files whole, ", rescue.in_part)?;
    print(output, " in part\n")?;
    if rescue.is_lacking {
        Ok(Ending::InPart)
    } else {
        Ok(Ending::Done)
    }
}

// Brings out what the checkpoint leads to.
fn recover_from<D: SectorDevice, R: Files<File = File>, W: Write>(
    rt: &R,
    alloc: Global,
    device: &mut D,
    start: &Start,
    folder: &str,
    output: &mut W,
) -> Result<Ending, Fault>
    ensures { TellsNothing (D.state device.old) (D.state device.new) }
{
    let mut rescue = Rescue::new(alloc, device, start.places, &start.checkpoint, folder)?;
    if let Err(fault) = host::make_folder(rt, folder) {
        return Err(Fault::of_host(alloc, folder, fault));
    }
    match take_all(rt, alloc, device, start, &mut rescue, output) {
        Ok(ending) => Ok(ending),
        Err(fault) => {
            flush(output)?;
            Err(fault)
        }
    }
}

/// A volume, and what its recovery begins with.
type Begun<D> = (ByPlaces<D>, Result<Start, Lack>);

fn begin_by_slots<D: SectorDevice>(mut volume: ByPlaces<D>, older: bool) -> Begun<D> {
    let places = volume.places();
    let slots = read_slots(&mut volume).by(places);
    (volume, chosen(&slots, places, older))
}

fn begin_by_log<D: SectorDevice + Drop>(
    alloc: Global,
    volume: ByPlaces<D>,
) -> Result<Begun<D>, AllocError> {
    let (volume, scanned) = scan(alloc, volume)?;
    let start = start_of(volume.places(), scanned);
    Ok((volume, start))
}

/// Copies what the volume of an image still holds into a new folder of the host. It writes nothing
/// to the image, mounts nothing, and goes round what can't be read.
pub fn recover<Here: World, R: Files<File = File> + Clock, W: Write>(
    rt: &R,
    alloc: Global,
    image: &str,
    recovery: Recovery<'_>,
    output: &mut W,
) -> Result<Ending, Fault> {
    let (device, beside) = match open_to_look::<Here, R>(rt, alloc, image, Patience::Second) {
        Ok(opened) => opened,
        Err(refusal) => return refuse(output, refusal),
    };
    if beside == Beside::Writer {
        return refuse(output, Refusal::Image(ImageFault::InUse));
    }
    let volume = ByPlaces::find(device);
    let (mut volume, start) = if recovery.scans {
        begin_by_log(alloc, volume)?
    } else {
        begin_by_slots(volume, recovery.older)
    };
    match start {
        Ok(start) => recover_from(rt, alloc, &mut volume, &start, recovery.folder, output),
        Err(lack) => refuse(output, refusal_of(lack, &mut volume.into_inner())),
    }
}
