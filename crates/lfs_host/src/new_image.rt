//! A volume in a new file, which gets its name once it is whole.
use crate::cause::Cause;
use crate::fault::{ImageFault, Refusal};
use crate::image::{NewVolume, are_same, empty, fill, open_locked, to_write};
use lfs_device::World;
use lfs_fs::FsError;
use std::alloc::{AllocError, Global};
use std::fs::{File, TryLockError};
use std::io::ErrorKind;
use std::os::unix::fs::MetadataExt;
use std::rt::Files;
use std::time::Clock;
use std::{fs, io};

/// Behind the name of an image that isn't whole yet. A stop may leave such a file, which the next
/// making of that image begins anew.
const UNMADE: &str = ".lfs-make";

/// As many symbolic links are followed by the system, one behind another (path_resolution(7)).
const MOST_LINKS: usize = 40;

/// The names of a new image.
#[derive(Drop)]
struct Names {
    /// Under which it is to stand.
    image: String,
    /// Under which it stands until it is whole.
    unmade: String,
}

// What a symbolic link with this name leads to by this text.
fn target_of(alloc: Global, link: &str, text: &str) -> Result<String, AllocError> {
    match link.rfind('/') {
        Some(slash) if !text.starts_with('/') => format!(in alloc; "{}/{text}", &link[..slash]),
        _ => text.to_string(alloc),
    }
}

// Where symbolic links lead from a name, of which the last one leads to nothing.
fn resolved<R: Files<File = File>>(
    rt: &R,
    alloc: Global,
    image: &str,
) -> Result<String, AllocError> {
    let mut name = image.to_string(alloc)?;
    for _ in 0..MOST_LINKS {
        match rt.read_link(alloc, name.as_str()) {
            Ok(text) => name = target_of(alloc, name.as_str(), text.as_str())?,
            Err(_) => return Ok(name),
        }
    }
    Ok(name)
}

fn names_of<R: Files<File = File>>(
    rt: &R,
    alloc: Global,
    image: &str,
) -> Result<Names, AllocError> {
    let image = resolved(rt, alloc, image)?;
    let unmade = format!(in alloc; "{}{UNMADE}", image.as_str())?;
    Ok(Names { image, unmade })
}

// Makes way for an unmade image. A stop may have left such a name beside the image's own, and
// then the name goes alone. What a stop can't have left is refused.
fn make_way<R: Files<File = File>>(rt: &R, unmade: &str) -> Result<(), ImageFault> {
    match fs::symlink_metadata(rt, unmade) {
        Ok(metadata) if !metadata.is_file() => Err(ImageFault::Aside),
        Ok(metadata) if metadata.nlink() > 1 => Ok(fs::remove_file(rt, unmade)?),
        Err(error) if error.kind() != ErrorKind::NotFound => Err(ImageFault::from(error)),
        _ => Ok(()),
    }
}

// Whether a file has this name and no other one.
fn has_name_alone<R: Files<File = File>>(rt: &R, file: &File, name: &str) -> bool {
    match (file.metadata(), fs::symlink_metadata(rt, name)) {
        (Ok(own), Ok(named)) => own.nlink() <= 1 && are_same(&own, &named),
        _ => false,
    }
}

// Opens and locks an unmade image, which is made where there is none.
fn open_unmade<R: Files<File = File> + Clock>(rt: &R, unmade: &str) -> Result<File, ImageFault> {
    make_way(rt, unmade)?;
    let file = open_locked(rt, to_write().create(true), unmade)?;
    if has_name_alone(rt, &file, unmade) {
        Ok(file)
    } else {
        Err(ImageFault::InUse)
    }
}

// The fault of a name that isn't given.
fn ungiven(error: io::Error) -> ImageFault {
    if error.kind() == ErrorKind::AlreadyExists {
        ImageFault::Taken
    } else {
        ImageFault::from(error)
    }
}

// Whether a new file is still empty, and nobody else has it.
fn is_ours(file: &File) -> bool {
    let is_free = !matches!(file.try_lock(), Err(TryLockError::WouldBlock));
    match file.metadata() {
        Ok(metadata) => is_free && metadata.len() == 0,
        Err(_) => false,
    }
}

// Gives an unmade image the name of a new file, which it replaces.
fn replace<R: Files<File = File>>(rt: &R, held: &File, names: &Names) -> Result<(), ImageFault> {
    if !is_ours(held) {
        return Err(ImageFault::Taken);
    }
    match fs::rename(rt, names.unmade.as_str(), names.image.as_str()) {
        Ok(()) => Ok(()),
        Err(error) => {
            let _ = fs::remove_file(rt, names.image.as_str());
            Err(ImageFault::from(error))
        }
    }
}

// Gives an unmade image its name where the file system has no files of two names.
fn rename<R: Files<File = File>>(rt: &R, names: &Names) -> Result<(), ImageFault> {
    match File::create_new(rt, names.image.as_str()) {
        Ok(held) => replace(rt, &held, names),
        Err(error) => Err(ungiven(error)),
    }
}

// Gives an unmade image its name, which nothing may have yet.
fn give_name<R: Files<File = File>>(rt: &R, names: &Names) -> Result<(), ImageFault> {
    match fs::hard_link(rt, names.unmade.as_str(), names.image.as_str()) {
        Ok(()) => {
            let _ = fs::remove_file(rt, names.unmade.as_str());
            Ok(())
        }
        Err(error) if error.kind() == ErrorKind::AlreadyExists => Err(ImageFault::Taken),
        Err(_) => rename(rt, names),
    }
}

// The folder that a file of this name is in.
fn folder_of(image: &str) -> &str {
    match image.rfind('/') {
        Some(0) => "/",
        Some(slash) => &image[..slash],
        None => ".",
    }
}

// Syncs the folder of a new file, so that its name stays. Not every folder can be read, and not
// every file system syncs one.
fn sync_folder<R: Files<File = File>>(rt: &R, image: &str) -> Result<(), ImageFault> {
    let Ok(folder) = File::open(rt, folder_of(image)) else {
        return Ok(());
    };
    match folder.sync_all() {
        Err(error) if error.kind() != ErrorKind::InvalidInput => {
            Err(ImageFault::Unnamed(Cause::of(&error)))
        }
        _ => Ok(()),
    }
}

// Gives an unmade image its name for good, or not at all.
fn keep_name<R: Files<File = File>>(rt: &R, names: &Names) -> Result<(), ImageFault> {
    give_name(rt, names)?;
    let synced = sync_folder(rt, names.image.as_str());
    if synced.is_err() {
        let _ = fs::remove_file(rt, names.image.as_str());
    }
    synced
}

// Makes a volume in a locked file, and gives it its name.
fn make_named<Here: World, R: Files<File = File>>(
    rt: &R,
    alloc: Global,
    file: &File,
    names: &Names,
    volume: NewVolume,
) -> Result<(), Refusal> {
    empty(file, 0, volume.shape)?;
    fill::<Here>(alloc, file, volume)?;
    Ok(keep_name(rt, names)?)
}

// The same in an unmade image, of which nothing is left where that is refused.
fn make_between<Here: World, R: Files<File = File> + Clock>(
    rt: &R,
    alloc: Global,
    names: &Names,
    volume: NewVolume,
) -> Result<(), Refusal> {
    let file = open_unmade(rt, names.unmade.as_str())?;
    let made = make_named::<Here, R>(rt, alloc, &file, names, volume);
    if made.is_err() {
        let _ = fs::remove_file(rt, names.unmade.as_str());
    }
    made
}

/// Makes a volume in a new file, of which nothing is left where that is refused. It gets its name
/// once the volume is whole and synced: after any stop the name has the volume or nothing. Until
/// then it stands as `.lfs-make` behind its name, which one program has at a time. Where a symbolic
/// link has the name, what it leads to is made.
pub fn make_new<Here: World, R: Files<File = File> + Clock>(
    rt: &R,
    alloc: Global,
    image: &str,
    volume: NewVolume,
) -> Result<(), Refusal> {
    match names_of(rt, alloc, image) {
        Ok(names) => make_between::<Here, R>(rt, alloc, &names, volume),
        Err(AllocError) => Err(Refusal::Call(FsError::NoMemory)),
    }
}
