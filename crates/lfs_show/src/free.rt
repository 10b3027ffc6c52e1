//! How much of a volume is used and how much is free, for people.
use crate::looking::Looked;
use crate::objects::Object;
use lfs_device::SectorDevice;
use lfs_fs::{Fs, FsError, TreeRow};
use lfs_host::fault::{Fault, Refusal};
use lfs_host::printing::{flush, put, put_count, put_counts};
use lfs_host::shape::volume_bytes;
use lfs_model::Kind;
use lfs_model::limits::{FILE_NUMBERS, LEAST_NEED, NEED_OF_META, SECTOR_LEN};
use lfs_put::largest_new_file;
use std::alloc::{AllocError, Global};
use std::io::Write;
use std::mem;

/// How many numbers objects have, with 0, which is nobody's.
const NUMBERS: usize = FILE_NUMBERS as usize;

/// The bytes of a block.
const BLOCK_BYTES: u64 = SECTOR_LEN as u64;

/// The need of a volume that has nothing but its root.
const EMPTY_NEED: u64 = LEAST_NEED + NEED_OF_META;

/// How much of a volume is used and free.
#[derive(Clone, Copy)]
struct Free {
    /// The bytes of the volume.
    size: u64,
    segments: u32,
    files: u64,
    /// The bytes of all files.
    bytes: u64,
    /// The bytes that the tree may need above those of an empty volume, and those that it needs.
    total: u64,
    used: u64,
    /// The bytes of the largest new file.
    largest: u64,
}

// Whether a number comes for the first time. It is marked then.
fn is_first(seen: &mut [bool; NUMBERS], number: u32) -> bool {
    match seen.get_mut(number as usize) {
        Some(mark) => !mem::replace(mark, true),
        None => false,
    }
}

// How many files there are, and how many bytes they have.
fn count_files(rows: &[TreeRow]) -> (u64, u64) {
    let mut seen = [false; NUMBERS];
    let mut files: u64 = 0;
    let mut bytes: u64 = 0;
    for row in rows {
        if row.kind == Kind::File && is_first(&mut seen, row.number) {
            files = files.saturating_add(1);
            bytes = bytes.saturating_add(row.size);
        }
    }
    (files, bytes)
}

/// The bytes of so many blocks that are needed, above those of an empty volume.
pub fn bytes_above_empty(need: u64) -> u64 {
    need.saturating_sub(EMPTY_NEED).saturating_mul(BLOCK_BYTES)
}

fn free_of<D: SectorDevice>(fs: &mut Fs<D>) -> Result<Free, FsError> {
    let shape = fs.shape()?;
    let space = fs.space()?;
    let rows = fs.tree()?;
    let (files, bytes) = count_files(rows.as_slice());
    let largest = largest_new_file(fs)?;
    Ok(Free {
        size: volume_bytes(&shape),
        segments: shape.segments,
        files,
        bytes,
        total: bytes_above_empty(space.limit),
        used: bytes_above_empty(space.need),
        largest,
    })
}

// How many hundredths of the total are used, rounded up.
fn percent(free: &Free) -> u64 {
    free.used.saturating_mul(100).div_ceil(free.total.max(1))
}

fn put_numbers<W: Write>(free: &Free, output: &mut W) -> Result<(), Fault> {
    let counts = [
        (b"size ".as_slice(), free.size),
        (b" bytes, segments ", u64::from(free.segments)),
        (b"\nfiles ", free.files),
        (b", bytes ", free.bytes),
        (b"\ntotal ", free.total),
        (b" bytes\nused ", free.used),
        (b" bytes, ", percent(free)),
        (b" %\nfree ", free.total.saturating_sub(free.used)),
    ];
    put_counts(output, &counts)?;
    put(output, b" bytes\n")?;
    put_largest(output, free.largest)?;
    flush(output)
}

// The same as an object.
fn object_of(alloc: Global, free: &Free) -> Result<Object, AllocError> {
    let mut object = Object::new(alloc)?;
    object.numbers(&[
        ("size", free.size),
        ("segments", u64::from(free.segments)),
        ("files", free.files),
        ("bytes", free.bytes),
        ("total", free.total),
        ("used", free.used),
        ("free", free.total.saturating_sub(free.used)),
        ("largest_new_file", free.largest),
    ])?;
    Ok(object)
}

// The greatest unit that so many bytes fill, and its letter.
fn unit_of(bytes: u64) -> (u64, &'static [u8]) {
    if bytes < 1 << 10 {
        (1, b"")
    } else if bytes < 1 << 20 {
        (1 << 10, b"K")
    } else if bytes < 1 << 30 {
        (1 << 20, b"M")
    } else {
        (1 << 30, b"G")
    }
}

// How many tenths of a unit so many bytes are, rounded up.
fn tenths_of(bytes: u64, unit: u64) -> u64 {
    bytes.saturating_mul(10).div_ceil(unit.max(1))
}

// Writes so many bytes behind a text, rounded up to tenths of the greatest unit that they fill.
fn put_rounded<W: Write>(output: &mut W, text: &[u8], bytes: u64) -> Result<(), Fault> {
    let (unit, letter) = unit_of(bytes);
    let tenths = tenths_of(bytes, unit);
    put_count(output, text, tenths / 10)?;
    if unit > 1 {
        put_count(output, b".", tenths % 10)?;
    }
    put(output, letter)
}

// The same as `put_numbers`, in bytes that are rounded.
fn put_rounded_numbers<W: Write>(free: &Free, output: &mut W) -> Result<(), Fault> {
    put_rounded(output, b"size ", free.size)?;
    put_count(output, b", segments ", u64::from(free.segments))?;
    put_count(output, b"\nfiles ", free.files)?;
    put_rounded(output, b", bytes ", free.bytes)?;
    put_rounded(output, b"\ntotal ", free.total)?;
    put_rounded(output, b"\nused ", free.used)?;
    put_count(output, b", ", percent(free))?;
    put_rounded(output, b" %\nfree ", free.total.saturating_sub(free.used))?;
    put_rounded(output, b"\none new file takes up to ", free.largest)?;
    put(output, b"\n")?;
    flush(output)
}

/// Writes the line that tells how large a new file may be.
pub fn put_largest<W: Write>(output: &mut W, bytes: u64) -> Result<(), Fault> {
    put_count(output, b"one new file takes up to ", bytes)?;
    put(output, b" bytes\n")
}

/// The refusal of a change, with the bytes that are free where it is for a lack of space.
pub fn refusal_of<D: SectorDevice>(fs: &mut Fs<D>, fault: FsError) -> Refusal {
    if fault != FsError::NoSpace {
        return Refusal::Call(fault);
    }
    match largest_new_file(fs) {
        Ok(free) => Refusal::Full(free),
        Err(_) => Refusal::Call(fault),
    }
}

/// Prints how much of a volume is used and free, in bytes that are rounded or not.
pub fn put_free<D: SectorDevice, W: Write>(
    fs: &mut Fs<D>,
    human: bool,
    output: &mut W,
) -> Result<Looked, Fault> {
    match free_of(fs) {
        Ok(free) => {
            if human {
                put_rounded_numbers(&free, output)?;
            } else {
                put_numbers(&free, output)?;
            }
            Ok(Looked::Done)
        }
        Err(fault) => Ok(Looked::Refused(Refusal::Call(fault))),
    }
}

/// Prints how much of a volume is used and free as an object of JSON.
pub fn put_free_object<D: SectorDevice, W: Write>(
    alloc: Global,
    fs: &mut Fs<D>,
    output: &mut W,
) -> Result<Looked, Fault> {
    match free_of(fs) {
        Ok(free) => {
            object_of(alloc, &free)?.put(output)?;
            flush(output)?;
            Ok(Looked::Done)
        }
        Err(fault) => Ok(Looked::Refused(Refusal::Call(fault))),
    }
}
