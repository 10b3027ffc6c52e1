//! A recorder over a mounted volume: lines in numbered files of its root.
use crate::names::DAY_LEN;
use lfs_model::limits::LARGEST_FILE;

/// The most bytes of a line, without the newline that ends it.
pub const LONGEST_LINE: usize = 65_535;

/// A new file begins behind so many bytes at the latest: one line more is within the largest file.
pub const MOST_BYTES: u32 = LARGEST_FILE - 65_536;

/// The file that lines are written to.
#[derive(Clone, Copy)]
pub struct Present {
    /// It is open.
    pub handle: u32,
    /// The day of its name.
    pub day: [u8; DAY_LEN],
    /// Its bytes.
    pub end: u64,
}

/// What a recorder keeps of itself between two lines.
#[derive(Clone, Copy)]
pub struct Recorder {
    /// A file goes on until it has so many bytes.
    pub bytes: u32,
    /// So many files are kept at most; 0 where as many as there is space for.
    pub files: u32,
    /// The number of the newest file; 0 where there is none.
    pub number: u32,
    /// The newest file, where lines may go on in it.
    pub present: Option<Present>,
}
