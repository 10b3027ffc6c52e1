//! What a look makes on the host. It stands under another name until the look is done, so that
//! nothing half is ever under its own.
use crate::looking::Look;
use lfs_host::fault::Fault;
use lfs_host::host;
use lfs_host::host::{HostFault, made};
use std::alloc::{AllocError, Global};
use std::fs;
use std::fs::File;
use std::io::ErrorKind;
use std::rt::Files;

/// What the other name of a file ends with, and that of a folder.
const OF_FILE: &str = ".lfs-get";

const OF_FOLDER: &str = ".lfs-export";

/// A file or a folder that is to have a name, or nothing.
#[derive(Drop)]
pub struct Unfinished<'a> {
    name: &'a str,
    other: String,
    is_folder: bool,
    /// It stands under its other name.
    is_made: bool,
}

// The name beside another one that ends so.
fn beside(alloc: Global, name: &str, end: &str) -> Result<String, AllocError> {
    let name = name.trim_end_matches('/');
    format!(in alloc; "{name}{end}")
}

// Refuses a name that something has.
fn check_free<R: Files<File = File>>(rt: &R, name: &str) -> Result<(), HostFault> {
    match made(fs::symlink_metadata(rt, name)) {
        Ok(_) => Err(HostFault::There),
        Err(HostFault::Missing) => Ok(()),
        Err(fault) => Err(fault),
    }
}

// Gives a file another name that nothing has. Not every file system has links.
fn rename_file<R: Files<File = File>>(rt: &R, from: &str, to: &str) -> Result<(), HostFault> {
    match fs::hard_link(rt, from, to) {
        Ok(()) => {
            let _ = fs::remove_file(rt, from);
            Ok(())
        }
        Err(error) if error.kind() == ErrorKind::AlreadyExists => Err(HostFault::There),
        Err(_) => rename(rt, from, to),
    }
}

// The same of a file or a folder. An empty folder that comes to be there just then is replaced.
fn rename<R: Files<File = File>>(rt: &R, from: &str, to: &str) -> Result<(), HostFault> {
    check_free(rt, to)?;
    made(fs::rename(rt, from, to))
}

impl<'a> Unfinished<'a> {
    fn new(
        alloc: Global,
        name: &'a str,
        end: &str,
        is_folder: bool,
    ) -> Result<Unfinished<'a>, AllocError> {
        Ok(Unfinished {
            name,
            other: beside(alloc, name, end)?,
            is_folder,
            is_made: false,
        })
    }

    /// What a look is to make, of which nothing is there yet.
    pub fn of(alloc: Global, look: Look<'a>) -> Result<Unfinished<'a>, AllocError> {
        match look {
            Look::Get(name) => Unfinished::new(alloc, name, OF_FILE, false),
            Look::Export(name) => Unfinished::new(alloc, name, OF_FOLDER, true),
            _ => Unfinished::new(alloc, "", "", false),
        }
    }

    /// Its other name.
    pub fn other(&self) -> &str {
        self.other.as_str()
    }

    /// Refuses a name that something has.
    pub fn check_name<R: Files<File = File>>(&self, rt: &R, alloc: Global) -> Result<(), Fault> {
        check_free(rt, self.name).map_err(|fault| Fault::of_host(alloc, self.name, fault))
    }

    /// The fault of what can't be made. Something may have the other name.
    pub fn fault_of(&self, alloc: Global, fault: HostFault) -> Fault {
        match fault {
            HostFault::There => Fault::of_host(alloc, self.other.as_str(), fault),
            fault => Fault::of_host(alloc, self.name, fault),
        }
    }

    /// It stands under its other name from now on.
    pub fn note_made(&mut self) {
        self.is_made = true;
    }

    /// Makes the folder, under its other name.
    pub fn make_folder<R: Files<File = File>>(
        &mut self,
        rt: &R,
        alloc: Global,
    ) -> Result<(), Fault> {
        match host::make_folder(rt, self.other.as_str()) {
            Ok(()) => {
                self.note_made();
                Ok(())
            }
            Err(fault) => Err(self.fault_of(alloc, fault)),
        }
    }

    fn rename<R: Files<File = File>>(&self, rt: &R) -> Result<(), HostFault> {
        if self.is_folder {
            rename(rt, self.other.as_str(), self.name)
        } else {
            rename_file(rt, self.other.as_str(), self.name)
        }
    }

    /// Gives what was made its name. Where that fails nothing is left of it.
    pub fn finish<R: Files<File = File>>(&mut self, rt: &R, alloc: Global) -> Result<(), Fault> {
        if !self.is_made {
            return Ok(());
        }
        match self.rename(rt) {
            Ok(()) => {
                self.is_made = false;
                Ok(())
            }
            Err(fault) => {
                self.discard(rt, alloc);
                Err(Fault::of_host(alloc, self.name, fault))
            }
        }
    }

    /// Removes what was made.
    pub fn discard<R: Files<File = File>>(&mut self, rt: &R, alloc: Global) {
        if !self.is_made {
            return;
        }
        self.is_made = false;
        if self.is_folder {
            let _ = rt.remove_dir_all(alloc, self.other.as_str());
        } else {
            let _ = fs::remove_file(rt, self.other.as_str());
        }
    }
}
