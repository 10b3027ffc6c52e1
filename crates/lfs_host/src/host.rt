//! Files, folders and links of the host, beside the image.
use crate::image::{is_apart, open_apart};
use std::alloc::{AllocError, Global};
use std::fmt::{Display, Formatter};
use std::fs::File;
use std::io::ErrorKind;
use std::os::unix::fs::symlink;
use std::rt::Files;
use std::{fmt, fs, io};

/// Why a file, a folder or a link of the host isn't read or made.
#[derive(Clone, Copy, Debug, PartialEq, Eq)]
pub enum HostFault {
    /// Nothing has this name, or there is no folder to have it.
    Missing,
    /// The system's permissions forbid it.
    Denied,
    /// It stands in a file system that isn't written.
    ReadOnly,
    /// It is a folder.
    Folder,
    /// Something has this name already.
    There,
    /// The host has no such names.
    Name,
    /// There is no room for it.
    Full,
    /// The system refuses to read it.
    Unread,
    /// The system refuses to make or to write it.
    Unwritten,
}

impl HostFault {
    /// By the kind of a fault of the system, which is another one where nothing more is told.
    pub fn of(kind: ErrorKind, other: HostFault) -> HostFault {
        match kind {
            ErrorKind::NotFound => HostFault::Missing,
            ErrorKind::PermissionDenied => HostFault::Denied,
            ErrorKind::ReadOnlyFilesystem => HostFault::ReadOnly,
            ErrorKind::IsADirectory => HostFault::Folder,
            ErrorKind::AlreadyExists => HostFault::There,
            ErrorKind::InvalidInput => HostFault::Name,
            ErrorKind::InvalidFilename => HostFault::Name,
            ErrorKind::StorageFull => HostFault::Full,
            _ => other,
        }
    }

    /// Whether the host can't have the name, or not beside one that it has.
    pub fn is_of_name(self) -> bool {
        self == HostFault::Name || self == HostFault::There
    }

    fn text(self) -> &'static str {
        match self {
            HostFault::Missing => "there is no such file or folder",
            HostFault::Denied => "permission denied",
            HostFault::ReadOnly => "it is on a file system that is read-only",
            HostFault::Folder => "it is a folder",
            HostFault::There => "it is there already; nothing was written over",
            HostFault::Name => "the host can't have such a name",
            HostFault::Full => "there is no room for it",
            HostFault::Unread => "it can't be read",
            HostFault::Unwritten => "it can't be written",
        }
    }
}

impl Display for HostFault {
    fn fmt<W: fmt::Write>(&self, f: &mut Formatter<W>) -> fmt::Result {
        f.write_str(self.text())
    }
}

/// What became of something that was to be made or written.
pub fn made<T: Drop>(done: io::Result<T>) -> Result<T, HostFault> {
    match done {
        Ok(made) => Ok(made),
        Err(error) => Err(HostFault::of(error.kind(), HostFault::Unwritten)),
    }
}

fn is_folder(file: &File) -> bool {
    match file.metadata() {
        Ok(metadata) => metadata.is_dir(),
        Err(_) => false,
    }
}

/// Opens a file to read it, at no descriptor of a standard stream.
pub fn open_file<R: Files<File = File>>(rt: &R, path: &str) -> Result<File, HostFault> {
    let mut how = File::options();
    how.read(true);
    match open_apart(rt, &how, path) {
        Ok(file) if is_folder(&file) => Err(HostFault::Folder),
        Ok(file) => Ok(file),
        Err(error) => Err(HostFault::of(error.kind(), HostFault::Unread)),
    }
}

/// Makes a file where nothing has the name, at no descriptor of a standard stream. A copy of a
/// descriptor never takes the place of one.
pub fn make_file<R: Files<File = File>>(rt: &R, path: &str) -> Result<File, HostFault> {
    let file = made(File::create_new(rt, path))?;
    if is_apart(&file) {
        Ok(file)
    } else {
        made(file.try_clone())
    }
}

/// Makes a folder where nothing has the name.
pub fn make_folder<R: Files<File = File>>(rt: &R, path: &str) -> Result<(), HostFault> {
    made(fs::create_dir(rt, path))
}

/// Makes a symbolic link of a text where nothing has the name.
pub fn make_link<R: Files<File = File>>(rt: &R, text: &str, path: &str) -> Result<(), HostFault> {
    made(symlink(rt, text, path))
}
