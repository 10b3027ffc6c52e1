//! Looks at the volume of an image, which another program may write meanwhile. What is said of it
//! is of one moment.
use crate::looking::{Asked, Look, Looked, end_look, look_at, read_paths};
use crate::steadiness::Sight;
use crate::unfinished::Unfinished;
use lfs_device::{FileDeviceIn, SectorDevice, World};
use lfs_fs::{Fs, InVolume, find_volume};
use lfs_host::fault::{Ending, Fault, ImageFault, Refusal};
use lfs_host::image;
use lfs_host::image::{Beside, Patience};
use lfs_host::printing::{flush, put};
use std::alloc::{AllocError, Global};
use std::fs::File;
use std::io::Write;
use std::rt::Files;
use std::time::Clock;

/// How often an image is looked at whose writer leaves no moment to be seen.
const MOST_LOOKS: u32 = 20;

const UNSTEADY: Refusal = Refusal::Image(ImageFault::Unsteady);

// Looks by a mounted volume, which has to have the checkpoint of this number.
fn look_by<D: SectorDevice, R: Files<File = File>, W: Write>(
    rt: &R,
    alloc: Global,
    fs: &mut Fs<D>,
    number: Option<u64>,
    asked: Asked<'_>,
    product: &mut Unfinished<'_>,
    output: &mut W,
) -> Result<Looked, Fault> {
    match number {
        Some(number) if fs.checkpoint() != number => Ok(Looked::Refused(UNSTEADY)),
        _ => look_at(rt, alloc, fs, asked, product, output),
    }
}

// Mounts the volume of a device, and looks.
fn look_on<Here: World, R: Files<File = File>, W: Write>(
    rt: &R,
    alloc: Global,
    device: FileDeviceIn<Here>,
    number: Option<u64>,
    asked: Asked<'_>,
    product: &mut Unfinished<'_>,
    output: &mut W,
) -> Result<Looked, Fault> {
    match image::mount(alloc, device) {
        Ok(mut fs) => {
            let looked = look_by(rt, alloc, &mut fs, number, asked, product, output);
            // Who gives the device back has dropped the rest of the volume.
            drop(fs.into_device());
            looked
        }
        Err(refusal) => Ok(Looked::Refused(refusal)),
    }
}

// Looks, and keeps what there is to print in memory.
fn look_and_keep<Here: World, R: Files<File = File>>(
    rt: &R,
    alloc: Global,
    device: FileDeviceIn<Here>,
    number: Option<u64>,
    asked: Asked<'_>,
    product: &mut Unfinished<'_>,
    kept: &mut Vec<u8>,
) -> Result<Looked, Fault> {
    match look_on(rt, alloc, device, number, asked, product, kept) {
        Ok(looked) => Ok(looked),
        Err(fault) => {
            product.discard(rt, alloc);
            // What is kept can't be written where memory is refused.
            match fault {
                Fault::Output => Err(Fault::Memory(AllocError)),
                fault => Err(fault),
            }
        }
    }
}

// Ends a look that counts: what it made gets its name, and what was kept is printed.
fn conclude<R: Files<File = File>, W: Write>(
    rt: &R,
    alloc: Global,
    looked: Looked,
    product: &mut Unfinished<'_>,
    kept: &[u8],
    output: &mut W,
) -> Result<Looked, Fault> {
    match looked {
        Looked::Done | Looked::Partial => product.finish(rt, alloc)?,
        Looked::Broken(..) => {}
        Looked::Refused(_) | Looked::RefusedAt(..) => {
            product.discard(rt, alloc);
            return Ok(looked);
        }
    }
    put(output, kept)?;
    flush(output)?;
    Ok(looked)
}

// Looks where nobody writes, and prints what is made on the host only once it is there.
fn look_alone<Here: World, R: Files<File = File>, W: Write>(
    rt: &R,
    alloc: Global,
    device: FileDeviceIn<Here>,
    asked: Asked<'_>,
    output: &mut W,
) -> Result<Looked, Fault> {
    let mut product = Unfinished::of(alloc, asked.look)?;
    if !asked.look.makes_something() {
        return look_on(rt, alloc, device, None, asked, &mut product, output);
    }
    let mut kept = Vec::new(alloc);
    let looked = look_and_keep(rt, alloc, device, None, asked, &mut product, &mut kept)?;
    conclude(rt, alloc, looked, &mut product, kept.as_slice(), output)
}

// Looks once by the checkpoint of a sight, and keeps what there is to print until the look counts.
// None where it isn't known to be of one moment.
fn look_and_judge<Here: World, R: Files<File = File>, W: Write>(
    rt: &R,
    alloc: Global,
    watched: &mut InVolume<FileDeviceIn<Here>>,
    sight: &Sight,
    device: FileDeviceIn<Here>,
    asked: Asked<'_>,
    product: &mut Unfinished<'_>,
    kept: &mut Vec<u8>,
    output: &mut W,
) -> Result<Option<Looked>, Fault> {
    let number = Some(sight.number());
    let looked = look_and_keep(rt, alloc, device, number, asked, product, kept)?;
    let stands = sight.still_stands(alloc, watched);
    if looked.is_doubtful() || !matches!(stands, Ok(true)) {
        product.discard(rt, alloc);
        stands?;
        return Ok(None);
    }
    let looked = conclude(rt, alloc, looked, product, kept.as_slice(), output)?;
    Ok(Some(looked))
}

// The same, with nothing made or kept yet.
fn look_by_sight<Here: World, R: Files<File = File>, W: Write>(
    rt: &R,
    alloc: Global,
    watched: &mut InVolume<FileDeviceIn<Here>>,
    sight: &Sight,
    device: FileDeviceIn<Here>,
    asked: Asked<'_>,
    output: &mut W,
) -> Result<Option<Looked>, Fault> {
    let mut product = Unfinished::of(alloc, asked.look)?;
    let mut kept = Vec::new(alloc);
    look_and_judge(
        rt,
        alloc,
        watched,
        sight,
        device,
        asked,
        &mut product,
        &mut kept,
        output,
    )
}

// Looks once beside a writer. None where that isn't known to be of one moment.
fn look_beside<Here: World, R: Files<File = File>, W: Write>(
    rt: &R,
    alloc: Global,
    mut watched: FileDeviceIn<Here>,
    device: FileDeviceIn<Here>,
    asked: Asked<'_>,
    output: &mut W,
) -> Result<Option<Looked>, Fault> {
    // So the mount finds little to sync, which leaves little time for a newer checkpoint.
    let _ = watched.sync();
    let Ok(mut watched) = find_volume(watched) else {
        return Ok(None);
    };
    let places = watched.places();
    match Sight::take(alloc, &mut watched, places)? {
        Some(sight) => look_by_sight(rt, alloc, &mut watched, &sight, device, asked, output),
        None => Ok(None),
    }
}

// The devices of a file, one for a look and one to watch it.
fn devices_of<Here: World>(
    alloc: Global,
    file: File,
) -> Result<(FileDeviceIn<Here>, FileDeviceIn<Here>), Refusal> {
    let watched = image::device_of_copy(alloc, &file)?;
    Ok((image::device_of(alloc, file)?, watched))
}

// Looks once at an open image. None where that isn't known to be of one moment.
fn look_at_file<Here: World, R: Files<File = File>, W: Write>(
    rt: &R,
    alloc: Global,
    file: File,
    beside: Beside,
    asked: Asked<'_>,
    output: &mut W,
) -> Result<Option<Looked>, Fault> {
    match (devices_of::<Here>(alloc, file), beside) {
        (Ok((device, _)), Beside::Nobody) => {
            Ok(Some(look_alone(rt, alloc, device, asked, output)?))
        }
        (Ok((device, watched)), Beside::Writer) => {
            look_beside(rt, alloc, watched, device, asked, output)
        }
        (Err(refusal), _) => Ok(Some(Looked::Refused(refusal))),
    }
}

// Looks until that is of one moment. Where nothing writes the image, the first look is.
fn look_steadily<Here: World, R: Files<File = File> + Clock, W: Write>(
    rt: &R,
    alloc: Global,
    image: &str,
    asked: Asked<'_>,
    patience: Patience,
    output: &mut W,
) -> Result<Looked, Fault> {
    for _ in 0..MOST_LOOKS {
        let (file, beside) = match image::open_file_to_look(rt, image, patience) {
            Ok(opened) => opened,
            Err(fault) => return Ok(Looked::Refused(Refusal::Image(fault))),
        };
        let looked = look_at_file::<Here, R, W>(rt, alloc, file, beside, asked, output)?;
        if let Some(looked) = looked {
            return Ok(looked);
        }
    }
    Ok(Looked::Refused(UNSTEADY))
}

/// Looks at the volume of an image, by the words of its paths. Their spelling comes before the image.
/// Where another program writes it, what is printed or made is of one moment all the same.
pub fn look<Here: World, R: Files<File = File> + Clock, W: Write>(
    rt: &R,
    alloc: Global,
    image: &str,
    look: Look<'_>,
    words: &[&str],
    patience: Patience,
    output: &mut W,
) -> Result<Ending, Fault> {
    let paths = read_paths(alloc, words)?;
    let asked = Asked {
        look,
        paths: paths.as_slice(),
    };
    let looked = look_steadily::<Here, R, W>(rt, alloc, image, asked, patience, output)?;
    end_look(looked, output)
}
