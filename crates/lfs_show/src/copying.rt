//! Files of a volume, copied to the host.
use crate::looking::Looked;
use crate::sparse::SparseFile;
use crate::unfinished::Unfinished;
use lfs_device::SectorDevice;
use lfs_fs::{Fs, FsError};
use lfs_host::fault::{Fault, Refusal};
use lfs_host::host;
use lfs_host::host::HostFault;
use lfs_host::printing::print_copied;
use lfs_put::{GetFault, get};
use std::alloc::Global;
use std::fs;
use std::fs::File;
use std::io::Write;
use std::rt::Files;

/// Why something of a volume isn't copied to the host.
#[derive(Clone, Copy)]
pub enum CopyFault {
    /// The volume refuses a call.
    Call(FsError),
    Host(HostFault),
}

impl From<GetFault> for CopyFault {
    fn from(fault: GetFault) -> CopyFault {
        match fault {
            GetFault::Call(refusal) => CopyFault::Call(refusal),
            GetFault::CutShort(refusal) => CopyFault::Call(refusal),
            GetFault::Output => CopyFault::Host(HostFault::Unwritten),
        }
    }
}

// Copies the file of a path into an open file of the host, which is empty.
fn fill<D: SectorDevice>(fs: &mut Fs<D>, path: &[u8], file: File) -> Result<u64, CopyFault> {
    let mut sparse = SparseFile::new(file);
    let count = get(fs, path, &mut sparse)?;
    match sparse.finish() {
        Ok(()) => Ok(count),
        Err(fault) => Err(CopyFault::Host(fault)),
    }
}

/// Makes a new file of the host of all bytes of the file of a path: their number. Where that fails
/// nothing is left of it.
pub fn copy_file<D: SectorDevice, R: Files<File = File>>(
    rt: &R,
    fs: &mut Fs<D>,
    path: &[u8],
    name: &str,
) -> Result<u64, CopyFault> {
    let file = host::make_file(rt, name).map_err(CopyFault::Host)?;
    match fill(fs, path, file) {
        Ok(count) => Ok(count),
        Err(fault) => {
            let _ = fs::remove_file(rt, name);
            Err(fault)
        }
    }
}

// Looks whether a file can be opened, before one of the host is made for it.
fn try_open<D: SectorDevice>(fs: &mut Fs<D>, path: &[u8]) -> Result<(), FsError> {
    let handle = fs.open(path)?;
    fs.close(handle)
}

// Ends a copy: prints the number of bytes, or tells what it failed for.
fn end_copy<W: Write>(
    alloc: Global,
    copied: Result<u64, CopyFault>,
    product: &mut Unfinished<'_>,
    output: &mut W,
) -> Result<Looked, Fault> {
    match copied {
        Ok(count) => {
            product.note_made();
            print_copied(output, count)?;
            Ok(Looked::Done)
        }
        Err(CopyFault::Call(refusal)) => Ok(Looked::Refused(Refusal::Call(refusal))),
        Err(CopyFault::Host(fault)) => Err(product.fault_of(alloc, fault)),
    }
}

/// Makes a new file of the host of all bytes of the file of a path, under its other name, and prints
/// their number. What the volume refuses comes first.
pub fn get_file<D: SectorDevice, R: Files<File = File>, W: Write>(
    rt: &R,
    alloc: Global,
    fs: &mut Fs<D>,
    path: &[u8],
    product: &mut Unfinished<'_>,
    output: &mut W,
) -> Result<Looked, Fault> {
    if let Err(refusal) = try_open(fs, path) {
        return Ok(Looked::Refused(Refusal::Call(refusal)));
    }
    product.check_name(rt, alloc)?;
    let copied = copy_file(rt, fs, path, product.other());
    end_copy(alloc, copied, product, output)
}
