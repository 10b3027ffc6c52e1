//! Volumes of 64 segments in memory.
use lfs_device::MemDevice;
use lfs_script::fs::{Fs, InVolume, find_volume, format};
use lfs_script::{ScriptEnd, run};
use std::alloc::Global;
use std::io::Read;
use std::test::Fail;

const SEGMENTS: u32 = 64;

/// A device with an empty volume.
pub fn new_device(alloc: Global) -> Result<MemDevice, Fail> {
    let mut device = MemDevice::new(alloc, 2 + 64 * SEGMENTS)?;
    format(&mut device, SEGMENTS)?;
    Ok(device)
}

/// An empty volume, on the heap, where each end of a function drops it by one call.
pub fn new_volume(alloc: Global) -> Result<Box<Fs<InVolume<MemDevice>>>, Fail> {
    let Ok(found) = find_volume(new_device(alloc)?) else {
        return Err(Fail::from("not found"));
    };
    match Fs::mount(alloc, found) {
        Ok(fs) => Ok(Box::new(alloc, fs)?),
        Err(_) => Err(Fail::from("not mounted")),
    }
}

/// How a run over this reader ends on a new volume, and what it writes.
pub fn answered<R: Read>(alloc: Global, reader: &mut R) -> Result<(ScriptEnd, Vec<u8>), Fail> {
    let mut fs = new_volume(alloc)?;
    let mut output = Vec::new(alloc);
    let end = run(alloc, reader, &mut output, &mut fs);
    Ok((end, output))
}
