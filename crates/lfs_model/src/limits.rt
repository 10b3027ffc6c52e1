//! The limits of a volume, and the sizes of its parts, each in one place and by name.

// Sectors and segments.

/// The bytes of a sector, and so of a block.
pub const SECTOR_LEN: usize = 512;

/// The sectors that hold a checkpoint each, in front of all segments.
pub const CHECKPOINT_SLOTS: u32 = 2;

/// The number of the checkpoint from which on nothing is changed.
pub const LAST_CHECKPOINT: u64 = 1 << 62;

/// The sectors of a segment.
pub const SEGMENT_SECTORS: u32 = 64;

/// The blocks that a chunk has at most, behind its summary.
pub const CHUNK_BLOCKS: usize = 63;

/// The blocks that a chunk has at most while it takes further ones: with one more it is written.
pub const OPEN_CHUNK_BLOCKS: usize = 62;

/// The segments that a volume has at least.
pub const LEAST_SEGMENTS: u32 = 64;

/// The segments that a volume has at most.
pub const MOST_SEGMENTS: u32 = 1_024;

/// The sectors that a volume has at least.
pub const LEAST_SECTORS: u32 = 4_098;

// Versions of the layout: those in use are 1 to `LAST_VERSION`.

/// The last version whose units are sectors.
pub const LAST_SECTOR_VERSION: u32 = 2;

/// The last version: it has units, and a checksum in each checkpoint.
pub const LAST_VERSION: u32 = 3;

/// The logarithm to base 2 of how many sectors a unit has at most, in the last version.
pub const MOST_UNIT_POWER: u8 = 6;

// Files.

/// The numbers of files, with 0, which no file has.
pub const FILE_NUMBERS: u16 = 4_096;

/// The greatest number of a file.
pub const LAST_NUMBER: u16 = 4_095;

/// The blocks that a file has at most.
pub const FILE_BLOCKS: u32 = 16_624;

/// The place of the last block that a file may have.
pub const LAST_BLOCK: u32 = 16_623;

/// The bytes that a file has at most.
pub const LARGEST_FILE: u32 = 8_511_488;

/// The blocks that an inode points to itself.
pub const DIRECT_BLOCKS: u32 = 112;

/// The pointers in a block of pointers.
pub const BLOCK_POINTERS: u32 = 128;

/// The place of the first block under the double root.
pub const FIRST_DOUBLE: u32 = 240;

/// The blocks of pointers that lead to blocks of a file: the single one, and those under the double
/// root.
pub const FILE_LEAVES: u32 = 129;

/// The place of the last of them.
pub const LAST_LEAF: u32 = 128;

// The tables of a volume.

/// The blocks of the inode map.
pub const MAP_BLOCKS: u32 = 32;

/// The files in a block of the inode map.
pub const BLOCK_FILES: u32 = 128;

/// The blocks that the usage table has at most.
pub const USAGE_BLOCKS: u32 = 16;

/// The blocks of both tables.
pub const TABLE_BLOCKS: u32 = 48;

/// The segments in a block of the usage table.
pub const BLOCK_SEGMENTS: u32 = 64;

// Names, links and handles.

/// The bytes that a path has at most, and the text of a link.
pub const LONGEST_PATH: usize = 1_023;

/// The bytes of an entry in a directory of the first form.
pub const NARROW_SLOT: u32 = 64;

/// The bytes of an entry in a directory of the second form.
pub const WIDE_SLOT: u32 = 128;

/// The bytes that a name has at most in a directory of the first form.
pub const LONGEST_NARROW_NAME: usize = 59;

/// The bytes that a name has at most in a directory of the second form.
pub const LONGEST_WIDE_NAME: usize = 123;

/// The entries that a directory has at most.
pub const MOST_ENTRIES: u32 = 1_024;

/// The links that a file, a link or a directory has at most.
pub const MOST_LINKS: u32 = 1_000;

/// The symbolic links that a walk follows at most.
pub const MOST_FOLLOWED: u32 = 40;

/// The handles that are open at most.
pub const MOST_HANDLES: u32 = 64;

/// The bytes that one read or write of a file moves at most.
pub const LONGEST_TRANSFER: u32 = 65_536;

/// The bytes that a line of a script has at most.
pub const LONGEST_LINE: usize = 140_000;

// Space.

/// The blocks that a segment may hold of what the need counts.
pub const NEED_OF_SEGMENT: u64 = 47;

/// What the need counts for an inode or a block of pointers.
pub const NEED_OF_META: u64 = 7;

/// The need of an empty volume, but for its root.
pub const LEAST_NEED: u64 = 720;

/// The blocks that wait in memory for a commit at most.
pub const MOST_UNSAVED: u32 = 456;

/// The blocks that a change of one header asks for at most.
pub const ASKED_BY_HEADER: u32 = 6;

/// The blocks that one transfer to a file asks for at most.
pub const ASKED_BY_TRANSFER: u32 = 144;

/// The blocks that a rewrite of a full directory asks for at most.
pub const ASKED_BY_DIRECTORY: u32 = 274;
