//! What C is told of objects, names and volumes, as it has them.

/// What is told of an object, as C has it.
#[repr(C)]
#[derive(Drop)]
pub struct Stat {
    /// In bytes.
    pub size: u64,
    pub number: u32,
    /// 1 a file, 2 a directory, 3 a symbolic link.
    pub kind: u32,
    pub links: u32,
}

/// What the tree needs of the volume, in blocks, as C has it.
#[repr(C)]
#[derive(Drop)]
pub struct Space {
    /// Blocks of 512 bytes that have a nonzero byte.
    pub data_blocks: u64,
    /// Inodes and pointer blocks.
    pub meta_blocks: u64,
    /// What the tree needs.
    pub need: u64,
    /// The most that it may need.
    pub limit: u64,
}

/// What a volume was made with, and the version of its layout, as C has it.
#[repr(C)]
#[derive(Drop)]
pub struct Shape {
    pub segments: u32,
    pub version: u32,
    /// How many sectors a segment has.
    pub segment_sectors: u32,
    /// How many sectors a unit has.
    pub unit: u32,
}

/// What a name of a directory gives, as C has it.
#[repr(C)]
#[derive(Drop)]
pub struct Entry {
    pub number: u32,
    /// 1 a file, 2 a directory, 3 a symbolic link.
    pub kind: u32,
}
