//! What is said in words behind a check: where the volume is damaged.
ghost use Rattle.lfs_salvage.specs.Telling.{TellsNothing};

use crate::wording::{put_damage, put_slot, put_unfinished};
use lfs_device::{SectorDevice, World};
use lfs_fs::FsError;
use lfs_host::fault::{Ending, Fault, Refusal};
use lfs_host::image::{Beside, Patience, open_to_look};
use lfs_host::printing::flush;
use lfs_host::shape::{put_shape, shape_of};
use lfs_layout::Checkpoint;
use lfs_places::Places;
use lfs_put::UNFINISHED;
use lfs_salvage::{ByPlaces, Damage, find_damage, read_addresses, read_paths, read_slots};
use std::alloc::{AllocError, Global};
use std::fs::File;
use std::io::Write;
use std::rt::Files;
use std::time::Clock;

// Where the volume is damaged, if the stage that fails here has the code that the mount answered.
fn damage_of<D: SectorDevice>(
    alloc: Global,
    device: &mut D,
    checkpoint: &Checkpoint,
    code: u8,
) -> Result<Option<Damage>, AllocError>
    ensures { TellsNothing (D.state device.old) (D.state device.new) }
{
    if code == 0 {
        return Ok(None);
    }
    match find_damage(alloc, device, checkpoint)? {
        Some(damage) if damage.stage == code => Ok(Some(damage)),
        _ => Ok(None),
    }
}

// Says where a volume is damaged, and what unfinished files it has.
fn put_findings<D: SectorDevice, W: Write>(
    alloc: Global,
    device: &mut D,
    places: Places,
    checkpoint: &Checkpoint,
    code: u8,
    output: &mut W,
) -> Result<(), Fault>
    ensures { TellsNothing (D.state device.old) (D.state device.new) }
{
    let damage = damage_of(alloc, device, checkpoint, code)?;
    let addresses = read_addresses(alloc, device, checkpoint)?;
    let paths = read_paths(alloc, device, &addresses, checkpoint.segments, UNFINISHED)?;
    if let Some(damage) = damage {
        match paths.path_of(alloc, damage.number)? {
            Some(path) => put_damage(output, places, damage, Some(path.as_slice()))?,
            None => put_damage(output, places, damage, None)?,
        }
    }
    for directory in paths.holders() {
        if let Some(path) = paths.path_of(alloc, *directory)? {
            put_unfinished(output, path.as_slice())?;
        }
    }
    Ok(())
}

// Says what there is to say of a volume by these places whose mount answered this code, or 0.
fn explain_volume<D: SectorDevice, W: Write>(
    alloc: Global,
    device: &mut D,
    places: Places,
    code: u8,
    output: &mut W,
) -> Result<(), Fault>
    ensures { TellsNothing (D.state device.old) (D.state device.new) }
{
    let slots = read_slots(device).by(places);
    let Some(checkpoint) = slots.newest() else {
        return Ok(());
    };
    put_shape(output, &shape_of(&checkpoint))?;
    if let Some(slot) = slots.lost() {
        put_slot(output, places, slot)?;
    }
    put_findings(alloc, device, places, &checkpoint, code, output)?;
    flush(output)
}

// The code that a check answered, 0 where the volume was mounted. None where there is nothing to say.
fn code_of(ending: Ending) -> Option<u8> {
    match ending {
        Ending::Done => Some(0),
        Ending::Refused(Refusal::Damaged(code)) => Some(code),
        _ => None,
    }
}

/// Says in words, behind the line of a check of an image that ended so, where its volume is damaged,
/// which slot holds no checkpoint, and where a file is that was put and isn't whole. Beside a writer
/// it says nothing more. The ending stays the check's.
pub fn explain<Here: World, R: Files<File = File> + Clock, W: Write>(
    rt: &R,
    alloc: Global,
    image: &str,
    checked: Ending,
    patience: Patience,
    output: &mut W,
) -> Result<Ending, Fault> {
    let Some(code) = code_of(checked) else {
        return Ok(checked);
    };
    match open_to_look::<Here, R>(rt, alloc, image, patience) {
        Ok((device, Beside::Nobody)) => {
            let mut volume = ByPlaces::find(device);
            let places = volume.places();
            explain_volume(alloc, &mut volume, places, code, output)?;
            Ok(checked)
        }
        Err(Refusal::Call(FsError::NoMemory)) => Err(Fault::Memory(AllocError)),
        Ok((_, Beside::Writer)) | Err(_) => Ok(checked),
    }
}
