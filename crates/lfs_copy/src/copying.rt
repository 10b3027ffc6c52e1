//! The tree of a volume, written into another one.
ghost use Rattle.lfs_fs.specs.Seen.{seen};
ghost use Rattle.lfs_copy.specs.Paths.{AreFirsts};
ghost use Rattle.lfs_copy.specs.Copying.{CopiesBytes, CopiesFile, CopiesLink, CopiesName, CopiesNames, CopiesObject, CopiesOpen, CopiesPart, CopiesTree, MakesTree, ToldAs, Widens};

use crate::fault::{Copied, CopyFault};
use crate::fitting::{NARROW_VERSION, Plan, make_plan};
use crate::looking::{look_at_new, look_at_old};
use crate::paths::path_of;
use lfs_device::SectorDevice;
use lfs_fs::{Fs, FsError, TreeRow};
use lfs_model::Kind;
use lfs_model::limits::{LARGEST_FILE, LONGEST_TRANSFER};
use std::alloc::Global;

/// How many of the longest reads the longest file takes.
const PARTS: u32 = LARGEST_FILE / LONGEST_TRANSFER + 1;

// Copies the bytes of an open file from an offset on, at most as many as one read takes: their
// number.
fn copy_part<D: SectorDevice, E: SectorDevice>(
    from: &mut Fs<D>,
    to: &mut Fs<E>,
    source: u32,
    target: u32,
    offset: u64,
) -> Result<usize, CopyFault>
    ensures { CopiesPart D.SectorDevice.state E.SectorDevice.state (seen from.old) (seen from.new)
        (seen to.old) (seen to.new) source target offset result }
{
    let bytes = match from.pread(source, offset, LONGEST_TRANSFER) {
        Ok(bytes) => bytes,
        Err(fault) => return Err(CopyFault::Old(fault)),
    };
    match to.pwrite(target, offset, bytes.as_slice()) {
        Ok(_) => Ok(bytes.len()),
        Err(fault) => Err(CopyFault::New(fault)),
    }
}

// Copies all bytes of an open file: their number. Blocks of zeros are holes in either volume.
fn copy_bytes<D: SectorDevice, E: SectorDevice>(
    from: &mut Fs<D>,
    to: &mut Fs<E>,
    source: u32,
    target: u32,
) -> Result<u64, CopyFault>
    ensures { CopiesBytes D.SectorDevice.state E.SectorDevice.state (seen from.old) (seen from.new)
        (seen to.old) (seen to.new) source target result }
{
    let mut offset: u64 = 0;
    for part in 0..PARTS {
        let count = copy_part(from, to, source, target, offset)?;
        if count > LONGEST_TRANSFER as usize {
            // No volume answers more than it is asked for.
            return Err(CopyFault::NoTree);
        }
        offset += count as u64;
        if count < LONGEST_TRANSFER as usize {
            return Ok(offset);
        }
    }
    // No volume has a longer file.
    Err(CopyFault::NoTree)
}

// Makes the file of a path of the bytes of an open one: their number.
fn copy_open<D: SectorDevice, E: SectorDevice>(
    from: &mut Fs<D>,
    to: &mut Fs<E>,
    source: u32,
    path: &[u8],
) -> Result<u64, CopyFault>
    ensures { CopiesOpen D.SectorDevice.state E.SectorDevice.state (seen from.old) (seen from.new)
        (seen to.old) (seen to.new) source path.now result }
{
    let target = match to.create(path) {
        Ok(target) => target,
        Err(fault) => return Err(CopyFault::New(fault)),
    };
    let copied = copy_bytes(from, to, source, target);
    let closed = to.close(target);
    let bytes = copied?;
    match closed {
        Ok(()) => Ok(bytes),
        Err(fault) => Err(CopyFault::New(fault)),
    }
}

// Copies the file of a path: how many bytes it has.
fn copy_file<D: SectorDevice, E: SectorDevice>(
    from: &mut Fs<D>,
    to: &mut Fs<E>,
    path: &[u8],
) -> Result<u64, CopyFault>
    ensures { CopiesFile D.SectorDevice.state E.SectorDevice.state (seen from.old) (seen from.new)
        (seen to.old) (seen to.new) path.now result }
{
    let source = match from.open(path) {
        Ok(source) => source,
        Err(fault) => return Err(CopyFault::Old(fault)),
    };
    let copied = copy_open(from, to, source, path);
    let closed = from.close(source);
    let bytes = copied?;
    match closed {
        Ok(()) => Ok(bytes),
        Err(fault) => Err(CopyFault::Old(fault)),
    }
}

// Tells of a call of the new volume: no bytes of a file were copied.
fn without_bytes(done: Result<(), FsError>) -> Result<u64, CopyFault>
    ensures { ToldAs done result }
{
    match done {
        Ok(()) => Ok(0),
        Err(fault) => Err(CopyFault::New(fault)),
    }
}

// Makes what a row gives, at its path: how many bytes of a file were copied.
fn copy_object<D: SectorDevice, E: SectorDevice>(
    from: &mut Fs<D>,
    to: &mut Fs<E>,
    row: &TreeRow,
    path: &[u8],
) -> Result<u64, CopyFault>
    ensures { CopiesObject D.SectorDevice.state E.SectorDevice.state (seen from.old)
        (seen from.new) (seen to.old) (seen to.new) row.now path.now result }
{
    match row.kind {
        Kind::Directory => without_bytes(to.mkdir(path)),
        Kind::Link => without_bytes(to.symlink(row.head.as_slice(), path)),
        Kind::File => copy_file(from, to, path),
    }
}

// Makes a further name at a path, of what a row of the same number gives.
fn copy_link<D: SectorDevice, E: SectorDevice>(
    alloc: Global,
    from: &mut Fs<D>,
    to: &mut Fs<E>,
    plan: &Plan,
    first: usize,
    row: &TreeRow,
    path: &[u8],
) -> Result<u64, CopyFault>
    ensures { CopiesLink D.SectorDevice.state E.SectorDevice.state (seen from.old) (seen from.new)
        (seen to.old) (seen to.new) plan.now.rows.items first row.now path.now result }
{
    let rows = plan.rows.as_slice();
    match rows.get(first) {
        Some(other) if other.number == row.number => {
            let place = path_of(alloc, rows, plan.firsts.as_slice(), other)?;
            without_bytes(to.link(place.as_slice(), path))
        }
        _ => Err(CopyFault::NoTree),
    }
}

// Makes the name of the row of a place: a further one of what an earlier row gives, or else with
// what the row gives.
fn copy_name<D: SectorDevice, E: SectorDevice>(
    alloc: Global,
    from: &mut Fs<D>,
    to: &mut Fs<E>,
    plan: &Plan,
    index: usize,
    row: &TreeRow,
) -> Result<u64, CopyFault>
    requires { AreFirsts plan.now.rows.items plan.now.firsts.items }
    ensures { CopiesName D.SectorDevice.state E.SectorDevice.state (seen from.old) (seen from.new)
        (seen to.old) (seen to.new) plan.now.rows.items index row.now result }
{
    let path = path_of(alloc, plan.rows.as_slice(), plan.firsts.as_slice(), row)?;
    let Some(first) = plan.firsts.as_slice().get(row.number as usize) else {
        return Err(CopyFault::NoTree);
    };
    if *first < index {
        copy_link(alloc, from, to, plan, *first, row, path.as_slice())
    } else {
        copy_object(from, to, row, path.as_slice())
    }
}

// Makes all names: how many bytes the files have.
fn copy_names<D: SectorDevice, E: SectorDevice>(
    alloc: Global,
    from: &mut Fs<D>,
    to: &mut Fs<E>,
    plan: &Plan,
) -> Result<u64, CopyFault>
    requires { AreFirsts plan.now.rows.items plan.now.firsts.items }
    ensures { CopiesNames D.SectorDevice.state E.SectorDevice.state (seen from.old) (seen from.new)
        (seen to.old) (seen to.new) plan.now.rows.items result }
{
    let mut bytes: u64 = 0;
    for index in 0..plan.rows.len() {
        let count = copy_name(alloc, from, to, plan, index, &plan.rows[index])?;
        let Some(sum) = bytes.checked_add(count) else {
            // No volume has so many bytes.
            return Err(CopyFault::NoTree);
        };
        bytes = sum;
    }
    Ok(bytes)
}

// Lets the root have long names, where the version of the layout has them.
fn widen_root<E: SectorDevice>(to: &mut Fs<E>, version: u32) -> Result<(), FsError>
    ensures { Widens E.SectorDevice.state (seen to.old) (seen to.new) version result }
{
    if version == NARROW_VERSION {
        return Ok(());
    }
    to.widen(b"/")
}

// Makes a tree in a volume of this version, and saves it.
fn make_tree<D: SectorDevice, E: SectorDevice>(
    alloc: Global,
    from: &mut Fs<D>,
    to: &mut Fs<E>,
    plan: &Plan,
    version: u32,
) -> Result<Copied, CopyFault>
    requires { AreFirsts plan.now.rows.items plan.now.firsts.items }
    ensures { MakesTree D.SectorDevice.state E.SectorDevice.state (seen from.old) (seen from.new)
        (seen to.old) (seen to.new) plan.now.rows.items version result }
{
    match widen_root(to, version) {
        Ok(()) => {}
        Err(fault) => return Err(CopyFault::New(fault)),
    }
    let bytes = copy_names(alloc, from, to, plan)?;
    let names = plan.rows.len() as u64;
    match to.sync() {
        Ok(()) => Ok(Copied { names, bytes }),
        Err(fault) => Err(CopyFault::New(fault)),
    }
}

/// Writes the tree of a volume into another one, which is empty: all names, several names of one
/// object, symbolic links, and the bytes of all files. Whole blocks of zeros take no room there.
/// What doesn't fit is told before anything is changed. One sync at the end saves all.
///
/// # Errors
///
/// `NotEmpty` of the new volume; `TooLong` of a name, `TooLarge` of the tree; what a call of either
/// volume refuses, `NoTree` and `Memory`. Then a part of the tree may stand in the new volume.
pub fn copy_tree<D: SectorDevice, E: SectorDevice>(
    alloc: Global,
    from: &mut Fs<D>,
    to: &mut Fs<E>,
) -> Result<Copied, CopyFault>
    ensures { CopiesTree D.SectorDevice.state E.SectorDevice.state (seen from.old) (seen from.new)
        (seen to.old) (seen to.new) result }
{
    let target = look_at_new(to)?;
    let told = match look_at_old(from) {
        Ok(told) => told,
        Err(fault) => return Err(CopyFault::Old(fault)),
    };
    let plan = make_plan(alloc, told, target)?;
    make_tree(alloc, from, to, &plan, target.version)
}
