//! Why a line of a script is bad, for people, and a reader that keeps the line.
#![tactic(auto)]

mod bad_line;
mod remembering;

pub use bad_line::put_bad_line;
pub use remembering::LineKeeper;
