//! What a volume tells of itself.
use lfs_model::Kind;

/// What the tree needs of the volume, in blocks.
#[derive(Clone, Copy, Debug, PartialEq, Eq)]
pub struct Space {
    /// Blocks of 512 bytes, of all files, links and directories, that have a nonzero byte.
    pub data_blocks: u64,
    /// Inodes and pointer blocks.
    pub meta_blocks: u64,
    /// `data_blocks + 7 * meta_blocks + 720`.
    pub need: u64,
    /// The most that the need may be: 47 for each segment.
    pub limit: u64,
}

/// What is told of an object (POSIX.1-2017, stat: st_ino, the file type, st_nlink, st_size).
#[derive(Clone, Copy, Debug, PartialEq, Eq)]
pub struct Stat {
    pub number: u32,
    pub kind: Kind,
    pub links: u32,
    /// In bytes.
    pub size: u64,
}
