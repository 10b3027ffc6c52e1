// The answer of a call.
use lfs_fs::{Entry, Space, Stat, TreeRow};

/// What a call gives where it isn't refused.
#[derive(Drop)]
pub enum Answer {
    Done,
    Handle(u32),
    Count(u32),
    Bytes(Vec<u8>),
    /// A link's text.
    Text(Vec<u8>),
    Stat(Stat),
    Entries(Vec<Entry>),
    Space(Space),
    /// The version of the volume's layout.
    Version(u32),
    Tree(Vec<TreeRow>),
}
