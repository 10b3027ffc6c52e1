//! The bytes of a file, out of a volume.
ghost use Rattle.std.specs.Prelude.{◌≡◌, ◌⊎◌};
ghost use Rattle.lfs_fs.specs.Seen.{seen};
ghost use Rattle.lfs_put.specs.Getting.{CopiesOut, GetsFile, SendsPart};

use lfs_device::SectorDevice;
use lfs_fs::{Fs, FsError};
use lfs_model::limits::{LARGEST_FILE, LONGEST_TRANSFER};
use std::io::Write;
use thiserror::Error;

/// How many of the longest reads the longest file takes.
const PARTS: u32 = LARGEST_FILE / LONGEST_TRANSFER + 1;

/// Why a writer isn't given all bytes of a file.
#[derive(Debug, Drop, Error)]
pub enum GetFault {
    /// A call is refused before the writer was given a byte.
    #[error("the volume refuses it")]
    Call(FsError),
    /// A call is refused behind bytes that the writer was given.
    #[error("the volume refuses the rest of it")]
    CutShort(FsError),
    #[error("its bytes can't be written")]
    Output,
}

// A refusal of a call behind so many bytes.
fn refused(offset: u64, fault: FsError) -> GetFault
    ensures { ((result ≡ GetFault.Call fault) × (offset ≡ 0)) ⊎ (result ≡ GetFault.CutShort fault) }
{
    if offset == 0 {
        GetFault::Call(fault)
    } else {
        GetFault::CutShort(fault)
    }
}

// Gives a writer the bytes of an open file from an offset on, at most as many as one read takes:
// their number.
fn send_part<D: SectorDevice, W: Write>(
    fs: &mut Fs<D>,
    handle: u32,
    offset: u64,
    output: &mut W,
) -> Result<usize, GetFault>
    ensures { SendsPart D.SectorDevice.state (seen fs.old) (seen fs.new) handle offset
        (W.contents output.old) (W.contents output.new) result }
{
    let bytes = match fs.pread(handle, offset, LONGEST_TRANSFER) {
        Ok(bytes) => bytes,
        Err(fault) => return Err(refused(offset, fault)),
    };
    match output.write_all(bytes.as_slice()) {
        Ok(()) => Ok(bytes.len()),
        Err(_) => Err(GetFault::Output),
    }
}

// Gives a writer all bytes of an open file: their number.
fn copy_out<D: SectorDevice, W: Write>(
    fs: &mut Fs<D>,
    handle: u32,
    output: &mut W,
) -> Result<u64, GetFault>
    ensures { CopiesOut D.SectorDevice.state (seen fs.old) (seen fs.new) handle
        (W.contents output.old) (W.contents output.new) result }
{
    let mut offset: u64 = 0;
    for part in 0..PARTS {
        let count = send_part(fs, handle, offset, output)?;
        if count > LONGEST_TRANSFER as usize {
            // No volume answers more than it is asked for.
            return Err(GetFault::CutShort(FsError::Device));
        }
        offset += count as u64;
        if count < LONGEST_TRANSFER as usize {
            return Ok(offset);
        }
    }
    // No volume has a longer file.
    Err(GetFault::CutShort(FsError::Device))
}

/// Gives a writer all bytes of the file of a path, in order, and answers their number.
///
/// # Errors
///
/// What `open`, `pread` and `close` refuse: `Call` where the writer was given nothing, else
/// `CutShort`, with all bytes of the reads before. `Output` where the writer fails.
pub fn get<D: SectorDevice, W: Write>(
    fs: &mut Fs<D>,
    path: &[u8],
    output: &mut W,
) -> Result<u64, GetFault>
    ensures { GetsFile D.SectorDevice.state (seen fs.old) (seen fs.new) path.now
        (W.contents output.old) (W.contents output.new) result }
{
    let handle = match fs.open(path) {
        Ok(handle) => handle,
        Err(fault) => return Err(GetFault::Call(fault)),
    };
    let copied = copy_out(fs, handle, output);
    let closed = fs.close(handle);
    let count = copied?;
    match closed {
        Ok(()) => Ok(count),
        Err(fault) => Err(refused(count, fault)),
    }
}
