//! The lines of a script, and the call that each is.
#![tactic(auto)]

mod call;
mod command;

pub use call::{Call, parse};
pub use command::Command;
