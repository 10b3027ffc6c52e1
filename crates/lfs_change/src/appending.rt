//! The command that writes behind the end of a file.
use crate::putting::{STANDARD_INPUT, end_put};
use lfs_device::SectorDevice;
use lfs_fs::{Fs, FsError};
use lfs_host::fault::{Ending, Fault};
use lfs_host::host;
use lfs_host::host::HostFault;
use lfs_model::limits::LONGEST_TRANSFER;
use lfs_put::PutFault;
use std::alloc::{AllocError, Global};
use std::fs::File;
use std::io::{Read, Write};
use std::rt::Files;

/// The most bytes that are read and written at once.
const MOST_BYTES: usize = LONGEST_TRANSFER as usize;

/// A file that is appended to.
#[derive(Clone, Copy)]
struct Appended {
    handle: u32,
    /// Its size before, none where it wasn't there.
    size: Option<u64>,
}

// Opens the file of a path, which is made where nothing is there.
fn open_or_make<D: SectorDevice>(fs: &mut Fs<D>, path: &[u8]) -> Result<Appended, FsError> {
    match fs.open(path) {
        Ok(handle) => {
            let size = Some(fs.stat(path)?.size);
            Ok(Appended { handle, size })
        }
        Err(FsError::NoEntry) => {
            let handle = fs.create(path)?;
            Ok(Appended { handle, size: None })
        }
        Err(refusal) => Err(refusal),
    }
}

// Writes all bytes of a reader behind an offset of an open file: their number.
fn write_behind<D: SectorDevice, I: Read>(
    fs: &mut Fs<D>,
    handle: u32,
    begin: u64,
    input: &mut I,
    buffer: &mut [u8],
) -> Result<u64, PutFault> {
    let mut count: u64 = 0;
    for _ in 0..u64::MAX {
        let Ok(read) = input.read(buffer) else {
            return Err(PutFault::Input);
        };
        if read == 0 {
            return Ok(count);
        }
        fs.pwrite(handle, begin.saturating_add(count), &buffer[..read])?;
        count = count.saturating_add(read as u64);
    }
    Err(PutFault::Input)
}

// Makes a file what it was before, as far as the volume lets it.
fn give_up<D: SectorDevice>(fs: &mut Fs<D>, path: &[u8], file: Appended) {
    match file.size {
        Some(size) => {
            let _ = fs.truncate(file.handle, size);
        }
        None => {
            let _ = fs.unlink(path);
        }
    }
    let _ = fs.sync();
}

// Writes all bytes of a reader behind the end of the file of a path, synced: their number. Where
// that is refused the file is as it was.
fn append<D: SectorDevice, I: Read>(
    alloc: Global,
    fs: &mut Fs<D>,
    path: &[u8],
    input: &mut I,
) -> Result<u64, PutFault> {
    let Ok(mut buffer) = vec![in alloc; 0; MOST_BYTES] else {
        return Err(PutFault::Memory(AllocError));
    };
    let file = open_or_make(fs, path)?;
    let begin = file.size.unwrap_or(0);
    match write_behind(fs, file.handle, begin, input, buffer.as_mut_slice()) {
        Ok(count) => {
            fs.sync()?;
            Ok(count)
        }
        Err(fault) => {
            give_up(fs, path, file);
            Err(fault)
        }
    }
}

/// Writes the bytes of a file of the host, or of standard input where its name is `-`, behind the end
/// of the file of a path.
pub fn append_from<D: SectorDevice, R: Files<File = File>, I: Read, W: Write>(
    rt: &R,
    alloc: Global,
    fs: &mut Fs<D>,
    path: &[u8],
    name: &str,
    input: &mut I,
    output: &mut W,
) -> Result<Ending, Fault> {
    if name == STANDARD_INPUT {
        let done = append(alloc, fs, path, input);
        return end_put(fs, path, done, output);
    }
    let mut file = match host::open_file(rt, name) {
        Ok(file) => file,
        Err(fault) => return Err(Fault::of_host(alloc, name, fault)),
    };
    match append(alloc, fs, path, &mut file) {
        Err(PutFault::Input) => Err(Fault::of_host(alloc, name, HostFault::Unread)),
        done => end_put(fs, path, done, output),
    }
}
