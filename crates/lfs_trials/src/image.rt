//! Volumes in files.
use crate::device::{make_volume, sectors_of};
use crate::order::new_volume;
use anyhow::{Context, Result};
use lfs_device::FileDevice;
use std::fs::File;
use std::rt::Files;

/// Makes a file with an empty volume, as words tell both.
pub fn make_image<R: Files<File = File> + AllocGlobal>(rt: &R, words: &str) -> Result<()> {
    let (volume, path) = words.rsplit_once(' ').context("a volume and a path")?;
    let volume = new_volume(volume)?;
    let file = File::create_new(rt, path)?;
    file.set_len(512 * u64::from(sectors_of(volume)))?;
    let device = FileDevice::new(rt.alloc(), file).ok();
    make_volume(&mut device.context("no memory for a device")?, volume)
}
