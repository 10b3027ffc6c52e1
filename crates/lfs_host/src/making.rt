//! The command that makes a volume.
use crate::fault::{Ending, Fault, ImageFault, Refusal};
use crate::image::Making;
use crate::printing::{print, refuse};
use crate::{image, mounts};
use lfs_device::World;
use std::alloc::Global;
use std::fs::File;
use std::io::{Read, Write};
use std::rt::Files;
use std::time::Clock;

// Refuses a block device that is mounted. What it holds would be lost under who reads it.
fn refuse_mounted<R: Files<File = File>, W: Write>(
    rt: &R,
    alloc: Global,
    image: &str,
    output: &mut W,
) -> Result<(), Fault> {
    let Some(folder) = mounts::folder_of(rt, alloc, image)? else {
        return Ok(());
    };
    refuse(output, Refusal::Image(ImageFault::InUse))?;
    Err(Fault::Mounted {
        image: image.to_string(alloc)?,
        folder,
    })
}

/// Makes a volume in an image. A question before it goes to `errors`, as what the system tells of a
/// block device, and `input` has the answer.
pub fn mkfs<Here: World, R: Files<File = File> + Clock, I: Read, W: Write, E: Write>(
    rt: &R,
    alloc: Global,
    image: &str,
    making: Making,
    input: &mut I,
    output: &mut W,
    errors: &mut E,
) -> Result<Ending, Fault> {
    if making.force && making.wanted.check().is_ok() {
        refuse_mounted(rt, alloc, image, output)?;
    }
    match image::make::<Here, R, I, E>(rt, alloc, image, making, input, errors) {
        Ok(()) => {
            print(output, "ok\n")?;
            Ok(Ending::Done)
        }
        Err(refusal) => refuse(output, refusal),
    }
}
