//! What listings tell of the names of a directory.
use lfs_model::Kind;

/// An entry of a directory (POSIX.1-2017, readdir: d_name, d_ino).
#[derive(Debug, Drop)]
pub struct ListedEntry {
    /// 1 to 59 bytes in a directory of form 0, else 1 to 123.
    pub name: Vec<u8>,
    pub number: u32,
    pub kind: Kind,
}

/// What is told of an entry of a directory, with the beginning of what it gives.
#[derive(Debug, Drop)]
pub struct TreeRow {
    /// The number of the directory that has the entry.
    pub directory: u32,
    pub name: Vec<u8>,
    pub kind: Kind,
    pub number: u32,
    pub links: u32,
    /// In bytes.
    pub size: u64,
    /// The first bytes of a file, at most 16; the text of a link.
    pub head: Vec<u8>,
}
