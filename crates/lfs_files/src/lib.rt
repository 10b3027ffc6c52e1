//! The border between a volume's log and its names: files by number, with the changes of the
//! present call.
#![tactic(auto)]

mod fault;
mod files;
mod header;

pub use fault::{LogFault, StoreFault};
pub use files::Files;
pub use header::{FIRST_FORM, Header};
