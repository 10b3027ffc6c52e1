//! Image files and block devices, in any world.
use crate::asking::may_empty;
use crate::cause::Cause;
use crate::fault::{Ending, Fault, ImageFault, Refusal};
use crate::foreign::{explained, holds_checkpoint};
use crate::new_image::make_new;
use crate::physical::unit_on;
use crate::shape::{Fit, Wanted, volume_bytes};
use lfs_device::{FileDeviceIn, FileFault, SectorDevice, World};
use lfs_fs::{FormatFault, Fs, FsError, InVolume, MountFault, Shape, find_volume, format_with};
use lfs_model::limits::{LAST_VERSION, SECTOR_LEN};
use std::alloc::Global;
use std::fs::{File, Metadata, OpenOptions, TryLockError};
use std::io::{ErrorKind, Read, Write};
use std::os::fd::{AsRawFd, RawFd};
use std::os::unix::fs::{FileExt, FileTypeExt, MetadataExt};
use std::rt::Files;
use std::thread::sleep;
use std::time::{Clock, Duration};
use std::{fs, io};

const SECTOR_BYTES: u64 = SECTOR_LEN as u64;

/// Standard input, output and error.
const STANDARD_STREAMS: usize = 3;

const LAST_STREAM: RawFd = 2;

/// A writer waits about a second for a lock, which a look may hold.
const LOCK_TRIES: u32 = 1000;

const LOCK_PAUSE_MILLIS: u64 = 1;

/// How a volume is made.
#[derive(Clone, Copy)]
pub struct Making {
    pub wanted: Wanted,
    /// Also on a block device.
    pub force: bool,
    /// A file that has bytes is asked about before it is emptied, where the segments are given.
    pub asks: bool,
    /// With room for each sector.
    pub reserve: bool,
}

/// What is made in a file or on a block device that is ready for it.
#[derive(Clone, Copy)]
pub struct NewVolume {
    pub shape: Shape,
    /// With room for each sector.
    pub reserve: bool,
}

impl Making {
    // The volume that is made in a regular file.
    fn in_file(self) -> Result<NewVolume, Refusal> {
        Ok(NewVolume {
            shape: self.wanted.shape()?,
            reserve: self.reserve,
        })
    }
}

/// What holds an image.
#[derive(Clone, Copy, PartialEq, Eq)]
enum Medium {
    /// A regular file.
    File,
    /// A block device.
    Blocks,
}

fn medium_of(metadata: &Metadata) -> Result<Medium, ImageFault> {
    let kind = metadata.file_type();
    if kind.is_file() {
        Ok(Medium::File)
    } else if kind.is_block_device() {
        Ok(Medium::Blocks)
    } else if kind.is_dir() {
        Err(ImageFault::Folder)
    } else {
        Err(ImageFault::NoBlocks)
    }
}

// What stands under a name. It is asked before the name is opened, since opening a pipe waits for
// its other end.
fn look_up<R: Files<File = File>>(rt: &R, image: &str) -> Result<Medium, ImageFault> {
    medium_of(&fs::metadata(rt, image)?)
}

/// Whether a file has no descriptor of a standard stream.
pub fn is_apart(file: &File) -> bool {
    file.as_raw_fd() > LAST_STREAM
}

/// Opens a file, at no descriptor of a standard stream. Where such a stream is closed, the system
/// gives its descriptor to the next file: that file is held until another one is open, and closed
/// then.
pub fn open_apart<R: Files<File = File>>(
    rt: &R,
    how: &OpenOptions,
    path: &str,
) -> io::Result<File> {
    let mut held = [const { None }; STANDARD_STREAMS];
    for place in &mut held {
        let file = how.open(rt, path)?;
        if is_apart(&file) {
            return Ok(file);
        }
        *place = Some(file);
    }
    how.open(rt, path)
}

/// How long a look waits for the end of a program that writes the image.
#[derive(Clone, Copy)]
pub enum Patience {
    /// It looks beside it.
    Impatient,
    /// As long as a writer waits for a look.
    Second,
    /// Until that has ended.
    Endless,
}

impl Patience {
    // How often it tries to keep writers out.
    fn tries(self) -> u64 {
        match self {
            Patience::Impatient => 1,
            Patience::Second => u64::from(LOCK_TRIES),
            Patience::Endless => u64::MAX,
        }
    }
}

/// Who has an image beside a program that looks at it.
#[derive(Clone, Copy, PartialEq, Eq)]
pub enum Beside {
    /// Nobody writes it: a lock keeps writers out. In a file system without locks nobody knows.
    Nobody,
    /// Another program holds the lock of writers.
    Writer,
}

// Keeps writers out, once there is none.
fn lock_to_look<R: Clock>(rt: &R, file: &File, patience: Patience) -> Beside {
    for _ in 0..patience.tries() {
        match file.try_lock_shared() {
            Err(TryLockError::WouldBlock) => pause(rt),
            _ => return Beside::Nobody,
        }
    }
    Beside::Writer
}

// Waits before a lock is tried again.
fn pause<R: Clock>(rt: &R) {
    sleep(rt, Duration::from_millis(LOCK_PAUSE_MILLIS));
}

// Refuses an image that another program has for longer than a look takes. A file system without
// locks refuses nothing.
fn lock<R: Clock>(rt: &R, file: &File) -> Result<(), ImageFault> {
    for _ in 0..LOCK_TRIES {
        match file.try_lock() {
            Err(TryLockError::WouldBlock) => pause(rt),
            _ => return Ok(()),
        }
    }
    Err(ImageFault::InUse)
}

/// An open file as a device.
pub fn device_of<Here: World>(alloc: Global, file: File) -> Result<FileDeviceIn<Here>, Refusal> {
    match FileDeviceIn::new(alloc, file) {
        Ok(device) => Ok(device),
        Err(FileFault::NoMemory) => Err(Refusal::Call(FsError::NoMemory)),
        Err(FileFault::Failed) => Err(Refusal::Image(ImageFault::System)),
    }
}

/// The file of an image that is only looked at, and who has it beside. It is opened for reading.
pub fn open_file_to_look<R: Files<File = File> + Clock>(
    rt: &R,
    image: &str,
    patience: Patience,
) -> Result<(File, Beside), ImageFault> {
    look_up(rt, image)?;
    let mut how = File::options();
    how.read(true);
    let file = open_apart(rt, &how, image)?;
    let beside = lock_to_look(rt, &file, patience);
    Ok((file, beside))
}

/// The same as a device.
pub fn open_to_look<Here: World, R: Files<File = File> + Clock>(
    rt: &R,
    alloc: Global,
    image: &str,
    patience: Patience,
) -> Result<(FileDeviceIn<Here>, Beside), Refusal> {
    let (file, beside) = open_file_to_look(rt, image, patience)?;
    Ok((device_of(alloc, file)?, beside))
}

/// How an image is opened that is written.
pub fn to_write() -> OpenOptions {
    let mut how = File::options();
    how.read(true).write(true);
    how
}

/// Opens a file so, and locks it.
pub fn open_locked<R: Files<File = File> + Clock>(
    rt: &R,
    how: &OpenOptions,
    path: &str,
) -> Result<File, ImageFault> {
    let file = open_apart(rt, how, path)?;
    lock(rt, &file)?;
    Ok(file)
}

/// The device of an image that is written. It is locked until the device is dropped.
pub fn open_to_write<Here: World, R: Files<File = File> + Clock>(
    rt: &R,
    alloc: Global,
    image: &str,
) -> Result<FileDeviceIn<Here>, Refusal> {
    look_up(rt, image)?;
    device_of(alloc, open_locked(rt, &to_write(), image)?)
}

// Refuses a medium on which no volume is made. A block device wants to be forced.
fn check_medium(metadata: &Metadata, force: bool) -> Result<Medium, ImageFault> {
    let medium = medium_of(metadata)?;
    if medium == Medium::Blocks && !force {
        return Err(ImageFault::Unforced);
    }
    Ok(medium)
}

// As `check_medium`, of what stands under a name: whether something does.
fn check_name<R: Files<File = File>>(rt: &R, image: &str, force: bool) -> Result<bool, ImageFault> {
    match fs::metadata(rt, image) {
        Ok(metadata) => {
            check_medium(&metadata, force)?;
            Ok(true)
        }
        Err(error) => {
            if error.kind() == ErrorKind::NotFound && !image.is_empty() {
                Ok(false)
            } else {
                Err(ImageFault::from(error))
            }
        }
    }
}

fn set_length(file: &File, len: u64) -> Result<(), ImageFault> {
    match file.set_len(len) {
        Ok(()) => Ok(()),
        Err(error) => Err(ImageFault::Length(Cause::of(&error))),
    }
}

// Makes all of a file's bytes zeros, so many of them. That it may be so long is tried before it is
// emptied.
fn clear(file: &File, old: u64, len: u64) -> Result<(), ImageFault> {
    if old < len {
        set_length(file, len)?;
    }
    set_length(file, 0)?;
    set_length(file, len)
}

/// Makes all bytes of a regular file of this length zeros, as many as a volume has of this shape.
pub fn empty(file: &File, old: u64, shape: Shape) -> Result<(), ImageFault> {
    clear(file, old, volume_bytes(&shape))
}

fn no_room(error: &io::Error) -> ImageFault {
    ImageFault::Room(Cause::of(error))
}

// Writes each sector, so that there is room for it: a file that only has a length has none.
fn reserve(file: &File, shape: Shape) -> Result<(), ImageFault> {
    for sector in 0..u64::from(shape.sectors()) {
        if let Err(error) = file.write_all_at(&[0; SECTOR_LEN], SECTOR_BYTES * sector) {
            return Err(no_room(&error));
        }
    }
    match file.sync_all() {
        Ok(()) => Ok(()),
        Err(error) => Err(no_room(&error)),
    }
}

// The metadata of a file that is open.
fn metadata_of(file: &File) -> Result<Metadata, ImageFault> {
    match file.metadata() {
        Ok(metadata) => Ok(metadata),
        Err(_) => Err(ImageFault::System),
    }
}

/// Whether these are of one file.
pub fn are_same(one: &Metadata, other: &Metadata) -> bool {
    one.dev() == other.dev() && one.ino() == other.ino()
}

// Whether these are of one block device.
fn are_one_device(one: &Metadata, other: &Metadata) -> bool {
    let are_devices = one.file_type().is_block_device() && other.file_type().is_block_device();
    are_devices && one.rdev() == other.rdev()
}

/// Whether two names have one file or one block device.
pub fn are_one<R: Files<File = File>>(rt: &R, one: &str, other: &str) -> bool {
    match (fs::metadata(rt, one), fs::metadata(rt, other)) {
        (Ok(one), Ok(other)) => are_same(&one, &other) || are_one_device(&one, &other),
        _ => false,
    }
}

// Refuses a locked file whose name has another one by now.
fn check_named<R: Files<File = File>>(
    rt: &R,
    image: &str,
    metadata: &Metadata,
) -> Result<(), ImageFault> {
    match fs::metadata(rt, image) {
        Ok(named) if are_same(&named, metadata) => Ok(()),
        _ => Err(ImageFault::Taken),
    }
}

// An open file by a descriptor of its own.
fn copy_of(file: &File) -> Result<File, ImageFault> {
    Ok(file.try_clone()?)
}

/// The device of an open file, by a descriptor of its own.
pub fn device_of_copy<Here: World>(
    alloc: Global,
    file: &File,
) -> Result<FileDeviceIn<Here>, Refusal> {
    device_of(alloc, copy_of(file)?)
}

fn format_device<Here: World>(
    device: &mut FileDeviceIn<Here>,
    shape: Shape,
) -> Result<(), Refusal> {
    match format_with(device, shape) {
        Ok(()) => Ok(()),
        Err(fault) => Err(caused(Refusal::Format(fault), device)),
    }
}

/// Makes a volume in a file that is ready for it, or in a block device, with room for each sector
/// where that is asked for.
pub fn fill<Here: World>(alloc: Global, file: &File, volume: NewVolume) -> Result<(), Refusal> {
    if volume.reserve {
        reserve(file, volume.shape)?;
    }
    let mut device = device_of_copy::<Here>(alloc, file)?;
    format_device(&mut device, volume.shape)
}

// Refuses a file of so many bytes, unless it is agreed that a volume is made over it.
fn agree<Here: World, I: Read, E: Write>(
    alloc: Global,
    image: &str,
    file: &File,
    len: u64,
    input: &mut I,
    errors: &mut E,
) -> Result<(), Refusal> {
    if may_empty::<Here, I, E>(alloc, image, file, len, input, errors)? {
        Ok(())
    } else {
        Err(Refusal::Image(ImageFault::Declined))
    }
}

// Refuses a regular file of so many bytes that aren't to go.
fn check_filled<Here: World, I: Read, E: Write>(
    alloc: Global,
    image: &str,
    file: &File,
    len: u64,
    making: Making,
    input: &mut I,
    errors: &mut E,
) -> Result<(), Refusal> {
    if len == 0 || making.force {
        return Ok(());
    }
    if making.wanted.is_by_size() {
        return Err(Refusal::Image(ImageFault::Filled));
    }
    if making.asks {
        agree::<Here, I, E>(alloc, image, file, len, input, errors)?;
    }
    Ok(())
}

// Empties a locked regular file, and makes a volume in it.
fn make_in_file<Here: World, R: Files<File = File>, I: Read, E: Write>(
    rt: &R,
    alloc: Global,
    image: &str,
    file: &File,
    metadata: &Metadata,
    making: Making,
    input: &mut I,
    errors: &mut E,
) -> Result<(), Refusal> {
    let volume = making.in_file()?;
    check_filled::<Here, I, E>(alloc, image, file, metadata.len(), making, input, errors)?;
    check_named(rt, image, metadata)?;
    empty(file, metadata.len(), volume.shape)?;
    fill::<Here>(alloc, file, volume)
}

// How many segments a volume has on an open block device.
fn segments_on<Here: World>(alloc: Global, file: &File, wanted: Wanted) -> Result<u32, Refusal> {
    let device = device_of_copy::<Here>(alloc, file)?;
    match wanted.segments_on(device.sectors())? {
        Fit::Segments(segments) => Ok(segments),
        Fit::TooSmall(bytes) if wanted.version == LAST_VERSION => Err(Refusal::TooSmall(bytes)),
        Fit::TooSmall(_) => Err(Refusal::Format(FormatFault::TooSmall)),
    }
}

// Makes a volume on a locked block device. What the system tells of its unit goes to `errors`.
fn make_on_device<Here: World, R: Files<File = File>, E: Write>(
    rt: &R,
    alloc: Global,
    image: &str,
    file: &File,
    metadata: &Metadata,
    making: Making,
    errors: &mut E,
) -> Result<(), Refusal> {
    let segments = segments_on::<Here>(alloc, file, making.wanted)?;
    let unit = unit_on(rt, alloc, image, metadata, making.wanted, errors)?;
    let volume = NewVolume {
        shape: making.wanted.with_segments(segments, unit)?,
        reserve: making.reserve,
    };
    fill::<Here>(alloc, file, volume)
}

// Makes a volume in a locked file. It is looked at again: the name may have had another file before.
fn make_at<Here: World, R: Files<File = File>, I: Read, E: Write>(
    rt: &R,
    alloc: Global,
    image: &str,
    file: &File,
    making: Making,
    input: &mut I,
    errors: &mut E,
) -> Result<(), Refusal> {
    let metadata = metadata_of(file)?;
    match check_medium(&metadata, making.force)? {
        Medium::File => make_in_file::<Here, R, I, E>(
            rt, alloc, image, file, &metadata, making, input, errors,
        ),
        Medium::Blocks => {
            make_on_device::<Here, R, E>(rt, alloc, image, file, &metadata, making, errors)
        }
    }
}

// Makes a volume over what has the name.
fn make_over<Here: World, R: Files<File = File> + Clock, I: Read, E: Write>(
    rt: &R,
    alloc: Global,
    image: &str,
    making: Making,
    input: &mut I,
    errors: &mut E,
) -> Result<(), Refusal> {
    let file = open_locked(rt, &to_write(), image)?;
    make_at::<Here, R, I, E>(rt, alloc, image, &file, making, input, errors)
}

// Whether a checkpoint stands on the block device of this name, as far as it can be read.
fn has_volume<Here: World, R: Files<File = File> + Clock>(
    rt: &R,
    alloc: Global,
    image: &str,
) -> bool {
    match open_to_look::<Here, R>(rt, alloc, image, Patience::Impatient) {
        Ok((mut device, _)) => holds_checkpoint(&mut device),
        Err(_) => false,
    }
}

// The refusal of a name under which no volume is made. Where the size is given, that of a block
// device without force tells whether a volume is on it.
fn refusal_of_name<Here: World, R: Files<File = File> + Clock>(
    rt: &R,
    alloc: Global,
    image: &str,
    making: Making,
    fault: ImageFault,
) -> Refusal {
    match fault {
        ImageFault::Unforced
            if making.wanted.is_by_size() && has_volume::<Here, R>(rt, alloc, image) => {
            Refusal::Image(ImageFault::Volume)
        }
        fault => Refusal::Image(fault),
    }
}

/// Makes a volume. A new file gets its name once the volume is whole and synced, and nothing is left
/// of it where it is refused. A file that is there is emptied under its lock, and gets the volume's
/// length. Where it has bytes and the size is given, that takes force. Where the segments are given
/// and it is asked for, a line of `input` has to agree to a question, which goes to `errors`. A
/// block device keeps its length, which has to be enough, and is formatted only by force. What no
/// volume has is refused with no file touched.
pub fn make<Here: World, R: Files<File = File> + Clock, I: Read, E: Write>(
    rt: &R,
    alloc: Global,
    image: &str,
    making: Making,
    input: &mut I,
    errors: &mut E,
) -> Result<(), Refusal> {
    making.wanted.check()?;
    match check_name(rt, image, making.force) {
        Ok(true) => make_over::<Here, R, I, E>(rt, alloc, image, making, input, errors),
        Ok(false) => make_new::<Here, R>(rt, alloc, image, making.in_file()?),
        Err(fault) => Err(refusal_of_name::<Here, R>(rt, alloc, image, making, fault)),
    }
}

// The same refusal, with why the system refused a call of this device, where it is for that.
fn caused<Here: World>(refusal: Refusal, device: &FileDeviceIn<Here>) -> Refusal {
    refusal.caused_by(Cause::of_number(device.last_error()))
}

/// The same for the ending of a command.
pub fn end_caused<Here: World>(
    ending: Result<Ending, Fault>,
    device: &FileDeviceIn<Here>,
) -> Result<Ending, Fault> {
    match ending {
        Ok(Ending::Refused(refusal)) => Ok(Ending::Refused(caused(refusal, device))),
        Ok(Ending::RefusedAt(refusal, at)) => { Ok(Ending::RefusedAt(caused(refusal, device), at)) }
        ending => ending,
    }
}

/// The refusal of an image whose device isn't mounted for this fault.
pub fn unmounted<Here: World>(fault: MountFault, device: &mut FileDeviceIn<Here>) -> Refusal {
    let refusal = explained(fault, device);
    caused(refusal, device)
}

/// Mounts the volume of a device.
pub fn mount<Here: World>(
    alloc: Global,
    device: FileDeviceIn<Here>,
) -> Result<Fs<InVolume<FileDeviceIn<Here>>>, Refusal> {
    let found = match find_volume(device) {
        Ok(found) => found,
        Err((fault, mut device)) => return Err(unmounted(fault, &mut device)),
    };
    match Fs::mount(alloc, found) {
        Ok(fs) => Ok(fs),
        Err((fault, refused)) => {
            let mut device = refused.into_inner();
            Err(unmounted(fault, &mut device))
        }
    }
}

/// Mounts the volume of an image that is written. It is locked until the volume is dropped.
pub fn mount_to_write<Here: World, R: Files<File = File> + Clock>(
    rt: &R,
    alloc: Global,
    image: &str,
) -> Result<Fs<InVolume<FileDeviceIn<Here>>>, Refusal> {
    mount(alloc, open_to_write(rt, alloc, image)?)
}
