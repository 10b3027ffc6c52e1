//! The formats of a volume, its tree of files and the calls on it, as definitions that contracts
//! cite. No code runs here but that of `FileNumber`.
#![tactic(auto)]

pub mod laws;
pub mod limits;
pub mod log;
mod number;
pub mod objects;
pub mod stands;
pub mod units;

pub use number::FileNumber;

/// What an object is.
#[derive(Clone, Copy, Debug, PartialEq, Eq)]
pub enum Kind {
    File,
    Directory,
    Link,
}

/// What a block of a chunk is.
#[derive(Clone, Copy, Debug, PartialEq, Eq)]
pub enum BlockKind {
    Data,
    Leaf,
    Double,
    Inode,
    Map,
    Usage,
}

/// A call that a device of sectors is given.
#[derive(Clone, Copy, Debug, PartialEq, Eq)]
pub enum Order {
    /// These bytes into this sector.
    Write(u32, [u8; 512]),
    /// All that was written becomes durable.
    Sync,
}
