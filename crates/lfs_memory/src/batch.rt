//! Changes of files that are asked for together.
ghost use Rattle.std.specs.Prelude.{◌≡◌, ◌≤◌, length};
ghost use Rattle.lfs_model.specs.declared.limits.TheConstants.{FILE_BLOCKS, LAST_BLOCK, LAST_NUMBER, SECTOR_LEN};

use lfs_files::Header;
use lfs_model::Kind;

/// The header of a file, which is made where it isn't there.
#[derive(Clone, Copy)]
pub struct HeaderEdit {
    pub number: u16,
    pub header: Header,
    ghost some: { 1 ≤ number },
    ghost few: { number ≤ LAST_NUMBER },
}

/// A data block of a file. One of zeros alone isn't stored.
#[derive(Clone, Copy)]
pub struct BlockEdit {
    pub number: u16,
    pub index: u32,
    pub bytes: [u8; 512],
    ghost some: { 1 ≤ number },
    ghost few: { number ≤ LAST_NUMBER },
    ghost low: { index ≤ LAST_BLOCK },
    ghost long: { length bytes ≡ SECTOR_LEN },
}

/// A file loses its blocks from this one on. Its header stays.
#[derive(Clone, Copy)]
pub struct Cut {
    pub number: u16,
    pub first: u32,
    ghost few: { number ≤ LAST_NUMBER },
    ghost low: { first ≤ FILE_BLOCKS },
}

/// A file that has a name loses it, and is in memory alone from then on.
#[derive(Clone, Copy)]
pub struct LastLink {
    pub number: u16,
    pub kind: Kind,
    /// As that of its header.
    pub form: u8,
    /// In bytes.
    pub size: u32,
    ghost some: { 1 ≤ number },
    ghost few: { number ≤ LAST_NUMBER },
}

/// A file goes with all its blocks.
#[derive(Clone, Copy)]
pub struct Removal {
    pub number: u16,
    ghost few: { number ≤ LAST_NUMBER },
}

/// What goes in a batch, before headers and blocks change.
#[derive(Clone, Copy)]
pub enum Loss {
    Nothing,
    Blocks(Cut),
    Link(LastLink),
    File(Removal),
    /// The volume has the second version of the layout in the place of the first.
    FirstVersion,
}
