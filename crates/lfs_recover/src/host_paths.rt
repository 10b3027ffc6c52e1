//! Where objects of a volume are put on the host.
use lfs_layout::Inode;
use lfs_model::limits::{FILE_NUMBERS, LONGEST_PATH};
use std::alloc::{AllocError, Global};
use std::str;

/// The folder of objects without a name, and of those whose name the host can't have.
pub const LOST: &[u8] = b"/lost+found";

/// Paths below the folder that is made, by the numbers of the objects that stand there. The root's
/// is empty, and so is that of an object that stands nowhere.
#[derive(Drop)]
pub struct HostPaths {
    paths: Vec<Vec<u8>>,
}

impl HostPaths {
    /// Nothing stands anywhere.
    ///
    /// # Errors
    ///
    /// Where memory runs out.
    pub fn new(alloc: Global) -> Result<HostPaths, AllocError> {
        let mut paths = Vec::new(alloc);
        for _ in 0..FILE_NUMBERS {
            paths.push(Vec::new(alloc))?;
        }
        Ok(HostPaths { paths })
    }

    /// The path of an object.
    pub fn get(&self, number: u32) -> &[u8] {
        match self.paths.get(number as usize) {
            Some(path) => path.as_slice(),
            None => b"",
        }
    }

    /// An object stands at a path.
    pub fn set(&mut self, inode: &Inode, path: Vec<u8>) {
        if let Some(place) = self.paths.get_mut(inode.number as usize) {
            *place = path;
        }
    }
}

/// The path of an entry of the directory at a path.
///
/// # Errors
///
/// Where memory runs out.
pub fn below(alloc: Global, above: &[u8], name: &[u8]) -> Result<Vec<u8>, AllocError> {
    let mut path = above.to_vec(alloc)?;
    path.push(b'/')?;
    path.extend_from_slice(name)?;
    Ok(path)
}

/// The path of an object by its number alone, and so many tildes behind it.
///
/// # Errors
///
/// Where memory runs out.
pub fn by_number(alloc: Global, number: u32, tildes: u32) -> Result<Vec<u8>, AllocError> {
    let name = format!(in alloc; "{number}")?;
    let mut path = below(alloc, LOST, name.as_bytes())?;
    for _ in 0..tildes {
        path.push(b'~')?;
    }
    Ok(path)
}

/// What a path is called on the host. None where that isn't UTF-8, and where the path is too long.
///
/// # Errors
///
/// Where memory runs out.
pub fn on_host(alloc: Global, folder: &str, path: &[u8]) -> Result<Option<String>, AllocError> {
    if path.len() > LONGEST_PATH {
        return Ok(None);
    }
    match str::from_utf8(path) {
        Ok(path) => Ok(Some(format!(in alloc; "{folder}{path}")?)),
        Err(_) => Ok(None),
    }
}
