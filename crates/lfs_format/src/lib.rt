//! The making of an empty volume, which takes no memory.
#![tactic(auto)]

mod fault;
mod image;
mod making;
mod shape;

pub use fault::FormatFault;
pub use making::{format, format_version, format_with};
pub use shape::Shape;
