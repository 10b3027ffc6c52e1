//! What a volume is, for people: its space, and what lives in its segments.
use crate::free::put_largest;
use crate::looking::Looked;
use crate::objects::Object;
use lfs_device::SectorDevice;
use lfs_fs::{Fs, FsError, Shape, Space};
use lfs_host::fault::{Fault, Refusal};
use lfs_host::printing::{flush, print, put, put_counts};
use lfs_host::shape::{unit_bytes, volume_bytes};
use lfs_put::largest_new_file;
use std::alloc::{AllocError, Global};
use std::io::Write;

/// How many segments a line of the picture has.
const ROW: u32 = 64;

/// How many live blocks more give the next sign.
const STEP: u16 = 7;

const SIGNS: &[u8] = b".123456789";

// The sign of a segment with so many live blocks.
fn sign(live: u16) -> u8 {
    let steps = live.div_ceil(STEP);
    match SIGNS.get(usize::from(steps)) {
        Some(sign) => *sign,
        None => b'9',
    }
}

// Writes a sign for each segment.
fn put_picture<D: SectorDevice, W: Write>(fs: &Fs<D>, output: &mut W) -> Result<(), Fault> {
    let usage = fs.usage();
    for segment in 0..usage.segments() {
        if segment % ROW == 0 {
            put(output, b"\n")?;
        }
        put(output, &[sign(usage.state(segment).live)])?;
    }
    print(output, "\n")
}

/// What a mounted volume tells of itself.
#[derive(Clone, Copy)]
struct Description {
    shape: Shape,
    space: Space,
    /// The bytes of the largest new file.
    largest: u64,
}

// Writes what there is to say in numbers.
fn put_numbers<D: SectorDevice, W: Write>(
    fs: &Fs<D>,
    description: &Description,
    output: &mut W,
) -> Result<(), Fault> {
    let space = &description.space;
    let usage = fs.usage();
    let shape = &description.shape;
    let counts = [
        (b"checkpoint ".as_slice(), fs.checkpoint()),
        (b"\nformat ", u64::from(shape.version)),
        (b"\nunit ", unit_bytes(shape)),
        (b" bytes\nsize ", volume_bytes(shape)),
        (b" bytes\nsegments ", u64::from(shape.segments)),
        (b"\nclean ", u64::from(usage.clean())),
        (b"\ndata blocks ", space.data_blocks),
        (b"\nmeta blocks ", space.meta_blocks),
        (b"\nneed ", space.need),
        (b"\nlimit ", space.limit),
    ];
    put_counts(output, &counts)?;
    put(output, b"\n")?;
    put_largest(output, description.largest)?;
    put(output, b"live blocks of each segment:")
}

// Adds the live blocks of each segment.
fn list_live<D: SectorDevice>(fs: &Fs<D>, object: &mut Object) -> Result<(), AllocError> {
    let usage = fs.usage();
    object.begin_list("live_blocks")?;
    for segment in 0..usage.segments() {
        object.item(u64::from(usage.state(segment).live))?;
    }
    object.end_list()
}

// The same as an object.
fn object_of<D: SectorDevice>(
    alloc: Global,
    fs: &Fs<D>,
    description: &Description,
) -> Result<Object, AllocError> {
    let space = &description.space;
    let shape = &description.shape;
    let mut object = Object::new(alloc)?;
    object.numbers(&[
        ("checkpoint", fs.checkpoint()),
        ("version", u64::from(shape.version)),
        ("unit_bytes", unit_bytes(shape)),
        ("size", volume_bytes(shape)),
        ("segments", u64::from(shape.segments)),
        ("clean", u64::from(fs.usage().clean())),
        ("data_blocks", space.data_blocks),
        ("meta_blocks", space.meta_blocks),
        ("need", space.need),
        ("limit", space.limit),
        ("largest_new_file", description.largest),
    ])?;
    list_live(fs, &mut object)?;
    Ok(object)
}

fn description_of<D: SectorDevice>(fs: &mut Fs<D>) -> Result<Description, FsError> {
    let shape = fs.shape()?;
    let space = fs.space()?;
    let largest = largest_new_file(fs)?;
    Ok(Description {
        shape,
        space,
        largest,
    })
}

/// Describes a mounted volume.
pub fn describe<D: SectorDevice, W: Write>(
    fs: &mut Fs<D>,
    output: &mut W,
) -> Result<Looked, Fault> {
    match description_of(fs) {
        Ok(description) => {
            put_numbers(fs, &description, output)?;
            put_picture(fs, output)?;
            Ok(Looked::Done)
        }
        Err(refusal) => Ok(Looked::Refused(Refusal::Call(refusal))),
    }
}

/// Describes a mounted volume by an object of JSON.
pub fn describe_object<D: SectorDevice, W: Write>(
    alloc: Global,
    fs: &mut Fs<D>,
    output: &mut W,
) -> Result<Looked, Fault> {
    match description_of(fs) {
        Ok(description) => {
            object_of(alloc, fs, &description)?.put(output)?;
            flush(output)?;
            Ok(Looked::Done)
        }
        Err(refusal) => Ok(Looked::Refused(Refusal::Call(refusal))),
    }
}
