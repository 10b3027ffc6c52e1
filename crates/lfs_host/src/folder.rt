//! Folders of the host, and what is in them.
use crate::fault::Fault;
use crate::host::HostFault;
use std::alloc::{AllocGlobal, Global};
use std::fs::File;
use std::io::ErrorKind;
use std::rt::Files;
use std::{fs, io};

/// The names in a folder, in the order of their bytes.
#[derive(Drop)]
pub struct Names {
    pub names: Vec<String>,
    /// Some aren't UTF-8, and aren't among them.
    pub is_partial: bool,
}

/// What a name of the host has.
#[derive(Clone, Copy, PartialEq, Eq)]
pub enum Found {
    File,
    Folder,
    /// A symbolic link.
    Link,
    Other,
}

// The fault of a folder, or of what is in it.
fn unread(alloc: Global, path: &str, error: &io::Error) -> Fault {
    Fault::of_host(alloc, path, HostFault::of(error.kind(), HostFault::Unread))
}

/// The names in a folder.
pub fn names_in<R: Files<File = File> + AllocGlobal + Clone + Drop>(
    rt: &R,
    alloc: Global,
    folder: &str,
) -> Result<Names, Fault> {
    let entries = match fs::read_dir(rt, folder) {
        Ok(entries) => entries,
        Err(error) => return Err(unread(alloc, folder, &error)),
    };
    let mut names = Vec::new(alloc);
    let mut is_partial = false;
    for entry in entries {
        match entry {
            Ok(entry) => names.push(entry.file_name().to_string(alloc)?)?,
            Err(error) if error.kind() == ErrorKind::InvalidFilename => is_partial = true,
            Err(error) => return Err(unread(alloc, folder, &error)),
        }
    }
    names.sort()?;
    Ok(Names { names, is_partial })
}

/// What a name has. A link isn't followed.
pub fn found_at<R: Files<File = File>>(rt: &R, alloc: Global, path: &str) -> Result<Found, Fault> {
    let kind = match fs::symlink_metadata(rt, path) {
        Ok(metadata) => metadata.file_type(),
        Err(error) => return Err(unread(alloc, path, &error)),
    };
    if kind.is_symlink() {
        Ok(Found::Link)
    } else if kind.is_dir() {
        Ok(Found::Folder)
    } else if kind.is_file() {
        Ok(Found::File)
    } else {
        Ok(Found::Other)
    }
}

/// The text of a symbolic link. None where it isn't UTF-8.
pub fn text_of_link<R: Files<File = File> + AllocGlobal>(
    rt: &R,
    alloc: Global,
    path: &str,
) -> Result<Option<String>, Fault> {
    match fs::read_link(rt, path) {
        Ok(text) => Ok(Some(text.into_string())),
        Err(error) if error.kind() == ErrorKind::InvalidFilename => Ok(None),
        Err(error) => Err(unread(alloc, path, &error)),
    }
}
