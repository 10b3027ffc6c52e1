//! The order of the walk: the step that takes the first block of each kind.

use lfs_model::limits::{BLOCK_POINTERS, FILE_BLOCKS, FILE_NUMBERS, TABLE_BLOCKS, USAGE_BLOCKS};

/// The numbers of files.
pub const FILES: u32 = FILE_NUMBERS as u32;

/// The first block of the inode map, behind the usage blocks.
pub const FIRST_MAP: u32 = USAGE_BLOCKS;

/// The first inode.
pub const FIRST_INODE: u32 = TABLE_BLOCKS;

/// The single leaf of the first file, which its double root follows.
pub const FIRST_ROOT: u32 = FIRST_INODE + FILES;

/// The first leaf under a double root.
pub const FIRST_LEAF: u32 = FIRST_ROOT + 2 * FILES;

/// The first block of data.
pub const FIRST_DATA: u32 = FIRST_LEAF + BLOCK_POINTERS * FILES;

/// The steps of the whole walk.
pub const ALL_STEPS: u32 = FIRST_DATA + FILE_BLOCKS * FILES;
