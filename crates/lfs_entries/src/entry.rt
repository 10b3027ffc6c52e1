//! What names of directories give.
ghost use Rattle.std.specs.Prelude.{◌≡◌, ◌≢◌, IsFalse, IsTrue};
ghost use Rattle.lfs_files.specs.Headers.{relinked};
ghost use Rattle.lfs_entries.specs.Entries.{is_directory as holds_names};

use lfs_files::Header;
use lfs_model::{FileNumber, Kind};

/// An object that a name gives.
#[derive(Clone, Copy)]
pub struct Object {
    /// How many slots stand before that of the name.
    pub place: u32,
    pub number: FileNumber,
    pub header: Header,
}

/// A name's directory, and what the name gives there.
#[derive(Clone, Copy)]
pub struct Entry {
    /// The directory's header.
    pub holder: Header,
    pub object: Object,
}

/// The header of an object that has other links.
pub fn with_links(header: Header, links: u32) -> Header
    ensures { result ≡ relinked header links }
{
    Header {
        kind: header.kind,
        form: header.form,
        links,
        size: header.size,
    }
}

/// Whether an object of this kind is a directory.
pub fn is_directory(kind: Kind) -> bool
    ensures value { result ≡ holds_names kind }
    ensures yes { IsTrue result → kind ≡ Kind.Directory }
    ensures no { IsFalse result → kind ≢ Kind.Directory }
{
    match kind {
        Kind::Directory => true,
        Kind::File | Kind::Link => false,
    }
}
