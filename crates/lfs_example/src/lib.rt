//! The log of a recorder: on a volume in memory, whose power goes, and on one in a file.
#![tactic(auto)]

use anyhow::{Error, Result};
use lfs_device::{FileDevice, FileFault, Left, MemDevice, SectorDevice};
use lfs_fs::{Fs, FsError, InVolume, find_volume, format};
use std::alloc::Global;
use std::fs::File;
use std::rt::Files;

const SEGMENTS: u32 = 64;

/// Two for the checkpoints, and 64 for each segment.
const SECTORS: u32 = 2 + 64 * SEGMENTS;

/// Puts a record behind those of `/log`. After `Ok` no stop takes it away.
fn append<D: SectorDevice>(fs: &mut Fs<D>, record: &[u8]) -> Result<(), FsError> {
    let handle = match fs.create(b"/log") {
        Err(FsError::Exist) => fs.open(b"/log")?,
        created => created?,
    };
    let end = fs.stat(b"/log")?.size;
    fs.pwrite(handle, end, record)?;
    fs.fsync(handle)?;
    fs.close(handle)
}

/// The first bytes of `/log`, as many as one call reads.
fn records<D: SectorDevice>(fs: &mut Fs<D>) -> Result<Vec<u8>, FsError> {
    let handle = fs.open(b"/log")?;
    let bytes = fs.pread(handle, 0, 65_536)?;
    fs.close(handle)?;
    Ok(bytes)
}

/// Two records, and an `unlink` that isn't synced.
fn two_records<D: SectorDevice>(fs: &mut Fs<D>) -> Result<(), FsError> {
    append(fs, b"one\n")?;
    append(fs, b"two\n")?;
    fs.unlink(b"/log")
}

fn refused(fault: FsError) -> Error {
    Error::msg(fault.name())
}

/// The volume that a device holds.
fn mounted<D: SectorDevice + Drop>(alloc: Global, device: D) -> Result<Fs<InVolume<D>>> {
    let found = find_volume(device).map_err(|(fault, _)| Error::msg(fault.name()))?;
    Fs::mount(alloc, found).map_err(|(fault, _)| Error::msg(fault.name()))
}

/// Makes an empty volume.
fn make<D: SectorDevice>(device: &mut D) -> Result<()> {
    format(device, SEGMENTS).map_err(|fault| Error::msg(fault.name()))
}

/// The power goes behind two records: what is left of them.
pub fn in_memory(alloc: Global) -> Result<Vec<u8>> {
    let mut device = MemDevice::new(alloc, SECTORS).map_err(|_| Error::msg("NoMemory"))?;
    make(&mut device)?;
    let mut fs = mounted(alloc, device)?;
    two_records(&mut fs).map_err(refused)?;
    // Each sector holds what it did at the last sync.
    let mut device = fs.into_device().into_inner();
    device.crash(Left::Old);
    let mut fs = mounted(alloc, device)?;
    records(&mut fs).map_err(refused)
}

/// A new file of the length of a volume.
fn new_file<R: Files<File = File>>(rt: &R, path: &str) -> Result<File> {
    let mut options = File::options();
    let file = options.read(true).write(true).create(true).open(rt, path)?;
    file.set_len(512 * u64::from(SECTORS))?;
    Ok(file)
}

/// A file as a device.
fn over(alloc: Global, file: File) -> Result<FileDevice> {
    match FileDevice::new(alloc, file) {
        Ok(device) => Ok(device),
        Err(FileFault::NoMemory) => Err(Error::msg("NoMemory")),
        Err(FileFault::Failed) => Err(Error::msg("Device")),
    }
}

/// One record on a volume in a file: what a second mount finds.
pub fn in_a_file<R: Files<File = File>>(rt: &R, alloc: Global, path: &str) -> Result<Vec<u8>> {
    let file = new_file(rt, path)?;
    let mut device = over(alloc, file)?;
    make(&mut device)?;
    let mut fs = mounted(alloc, device)?;
    append(&mut fs, b"three\n").map_err(refused)?;
    let mut fs = mounted(alloc, fs.into_device().into_inner())?;
    records(&mut fs).map_err(refused)
}
