//! The last piece of a path, which isn't walked.

/// The last piece of a path.
#[derive(Clone, Copy)]
pub struct Last<'a> {
    pub name: &'a [u8],
    /// Whether a slash follows.
    pub slash: bool,
}
