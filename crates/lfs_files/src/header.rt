//! What an inode says of a file.
ghost use Rattle.std.specs.Prelude.{◌≡◌};

use lfs_model::Kind;

/// The form of all files and links, and of the directories of the first version of the layout.
pub const FIRST_FORM: u8 = 0;

/// What an inode says of its file, besides where its blocks are.
#[derive(Clone, Copy, Debug, PartialEq, Eq)]
pub struct Header {
    pub kind: Kind,
    /// That of a directory's slots: `FIRST_FORM` or 1. All else has the first.
    pub form: u8,
    pub links: u32,
    /// In bytes.
    pub size: u32,
}
