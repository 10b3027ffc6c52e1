//! New volumes over devices in memory.
ghost use Rattle.std.specs.Prelude.{◌≡◌, ◌<◌, ◌≤◌, ◌+◌, ◌*◌};
ghost use Rattle.lfs_model.specs.Tree.{slot_len};

use lfs_device::{InSectors, MemDevice};
use lfs_fs::path::WalkFault;
use lfs_fs::path::dirs::add;
use lfs_fs::store::{Header, Store};
use lfs_fs::{Fs, InVolume, find_volume, format_version};
use lfs_layout::is_name;
use lfs_model::{FileNumber, Kind};
use std::alloc::Global;
use std::test::Fail;

/// The sectors of a volume of 64 segments.
pub const SECTORS: u32 = 4_098;

/// The files of a volume on a device in memory.
pub type MemoryStore = Store<InSectors<MemDevice>>;

/// A device that holds an empty volume of so many segments, in this version.
pub fn formatted_version(alloc: Global, segments: u32, version: u32) -> Result<MemDevice, Fail>
    requires { segments ≤ 1024 }
{
    let mut device = MemDevice::new(alloc, 2 + 64 * segments)?;
    format_version(&mut device, segments, version)?;
    Ok(device)
}

/// A device that holds an empty volume of version 1 and of so many segments.
pub fn formatted(alloc: Global, segments: u32) -> Result<MemDevice, Fail>
    requires { segments ≤ 1024 }
{
    formatted_version(alloc, segments, 1)
}

/// The volume of a device, on the heap, where each end of a test drops it by one call.
pub fn mounted(alloc: Global, device: MemDevice) -> Result<Box<Fs<InVolume<MemDevice>>>, Fail> {
    let found = match find_volume(device) {
        Ok(found) => found,
        Err((fault, _)) => return Err(Fail::from(fault)),
    };
    match Fs::mount(alloc, found) {
        Ok(fs) => Ok(Box::new(alloc, fs)?),
        Err((fault, _)) => Err(Fail::from(fault)),
    }
}

/// The device that a volume is handed back with.
pub fn device_of(fs: Box<Fs<InVolume<MemDevice>>>) -> MemDevice {
    Box::into_inner(fs).into_device().into_inner()
}

/// The header of a root of this form and of so many slots, to which one can be added.
pub fn root(form: u8, slots: u16) -> Header
    requires { slots < 1024 }
    ensures { result.size + slot_len result.form ≤ 1024 * slot_len result.form }
{
    let slots = u32::from(slots);
    match form {
        0 => directory(0, 64 * slots),
        _ => directory(1, 128 * slots),
    }
}

/// The header of a directory of this form and of so many bytes.
fn directory(form: u8, size: u32) -> Header
    ensures form { result.form ≡ form }
    ensures size { result.size ≡ size }
{
    Header {
        kind: Kind::Directory,
        form,
        links: 2,
        size,
    }
}

/// The file of this number.
pub fn file(number: u16) -> Result<FileNumber, Fail> {
    match FileNumber::new(number) {
        Some(number) => Ok(number),
        None => Err(Fail::from("no number")),
    }
}

/// The plain number of what a walk came to.
pub fn plain(found: Result<FileNumber, WalkFault>) -> Result<u16, WalkFault> {
    match found {
        Ok(number) => Ok(number.value),
        Err(fault) => Err(fault),
    }
}

/// Adds a name behind those of a root of this form and of so many slots.
pub fn add_name(store: &mut MemoryStore, form: u8, slots: u16, name: &[u8]) -> Result<(), Fail>
    requires { slots < 1024 }
{
    let header = root(form, slots);
    if !is_name(header.form, name) {
        return Err(Fail::from("no name"));
    }
    add(store, FileNumber::ROOT, header, file(2 + slots)?, name)?;
    Ok(())
}

/// Adds names of one letter, at most nine, for the files from 2 on.
fn add_names(store: &mut MemoryStore, form: u8, letters: &[u8]) -> Result<(), Fail> {
    for (slots, letter) in (0..9u8).zip(letters) {
        add_name(store, form, u16::from(slots), &[*letter])?;
    }
    Ok(())
}

/// The files of a new volume of 64 segments, where names of one letter are drafted in a root of this
/// form.
pub fn store_with(alloc: Global, form: u8, letters: &[u8]) -> Result<Box<MemoryStore>, Fail> {
    match Store::open(alloc, InSectors::new(formatted(alloc, 64)?)) {
        Ok(store) => {
            let mut store = Box::new(alloc, store)?;
            add_names(&mut store, form, letters)?;
            Ok(store)
        }
        Err((fault, _)) => Err(Fail::from(fault)),
    }
}
