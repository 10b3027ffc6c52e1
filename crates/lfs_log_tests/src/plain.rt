//! What a log should hold in a random run: a plain map in memory.
ghost use Rattle.std.specs.Prelude.{◌<◌, ◌≤◌};

use crate::log_steps::reads;
use lfs_device::SectorDevice;
use lfs_store::volume_log::{Header, Log};

/// The index of a block that the plain map has: beside the ends of the inode, of its leaves and of
/// the file.
pub fn edge(place: usize) -> u32
    ensures { result ≤ 16623 }
{
    match place {
        0 => 0,
        1 => 5,
        2 => 111,
        3 => 112,
        4 => 113,
        5 => 239,
        6 => 240,
        7 => 241,
        8 => 367,
        9 => 368,
        _ => 16_623,
    }
}

/// The number of a file of the plain map. The root has number 1.
pub fn number_of(file: usize) -> u16
    requires { file < 6 }
    ensures some { 1 ≤ result }
    ensures few { result ≤ 4095 }
{
    2 + file as u16
}

#[derive(Clone, Copy)]
pub struct PlainFile {
    pub header: Option<Header>,
    /// What each of the blocks is filled with: 0 where it isn't stored.
    pub bytes: [u8; 11],
}

pub const NO_FILE: PlainFile = PlainFile {
    header: None,
    bytes: [0; 11],
};

impl PlainFile {
    /// The least size with all its blocks.
    pub fn least_size(&self) -> u32
        ensures { result ≤ 8511488 }
    {
        for back in 0..11usize {
            let place = 10 - back;
            if self.bytes[place] != 0 {
                return 512 * (edge(place) + 1);
            }
        }
        0
    }

    /// Its blocks from this one on go.
    pub fn cut(&mut self, first: u32) {
        for place in 0..11usize {
            if edge(place) >= first {
                self.bytes[place] = 0;
            }
        }
    }

    /// Whether it is there and has links.
    pub fn has_links(&self) -> bool {
        match self.header {
            Some(header) => header.links != 0,
            None => false,
        }
    }

    /// How many blocks are stored from one place to before another.
    fn stored(&self, from: usize, to: usize) -> u32 {
        let mut blocks = 0u32;
        for place in 0..11usize {
            if from <= place && place < to && self.bytes[place] != 0 {
                blocks = blocks.saturating_add(1);
            }
        }
        blocks
    }

    /// How many blocks hold it: its inode, its data, and its blocks of pointers.
    fn blocks(&self) -> u32 {
        let mut blocks = self.stored(0, 11).saturating_add(1);
        // The leaves, and the double root.
        for (from, to) in [(3, 6), (6, 9), (9, 10), (10, 11), (6, 11)] {
            blocks = blocks.saturating_add(self.stored(from, to).min(1));
        }
        blocks
    }
}

#[derive(Clone, Copy)]
pub struct PlainMap {
    pub files: [PlainFile; 6],
}

impl PlainMap {
    /// Without its files of no links.
    pub fn shown(&self) -> PlainMap {
        let mut files = [NO_FILE; 6];
        for file in 0..6usize {
            if self.files[file].has_links() {
                files[file] = self.files[file];
            }
        }
        PlainMap { files }
    }

    /// How many blocks its files have.
    pub fn blocks(&self) -> u32 {
        let mut blocks = 0u32;
        for file in self.files {
            if file.header.is_some() {
                blocks = blocks.saturating_add(file.blocks());
            }
        }
        blocks
    }

    /// The least number that no file has.
    pub fn least_free(&self) -> u16 {
        for file in 0..6usize {
            if self.files[file].header.is_none() {
                return number_of(file);
            }
        }
        8
    }

    /// Whether it is what a log holds.
    pub fn is_held<D: SectorDevice>(&self, log: &mut Log<D>) -> bool {
        for file in 0..6usize {
            if !is_file(log, number_of(file), &self.files[file]) {
                return false;
            }
        }
        true
    }
}

/// Whether a file of the log is the plain one.
fn is_file<D: SectorDevice>(log: &mut Log<D>, number: u16, plain: &PlainFile) -> bool {
    if log.header(number % 4_096) != Ok(plain.header) {
        return false;
    }
    for place in 0..11usize {
        if !reads(log, number, edge(place), plain.bytes[place]) {
            return false;
        }
    }
    true
}
