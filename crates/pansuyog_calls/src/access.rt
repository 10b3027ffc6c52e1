//! What calls may do to a volume.

/// Which calls are made.
#[derive(Clone, Copy)]
pub enum Access {
    /// All of them.
    ReadWrite,
    /// Those that don't write. Any other is refused.
    ReadOnly,
}
