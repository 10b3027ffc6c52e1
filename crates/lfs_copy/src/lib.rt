//! The tree of a volume, written into another volume: a list of calls of each.
#![tactic(auto)]

mod copying;
mod fault;
mod fitting;
mod looking;
mod ordering;
mod paths;

pub use copying::copy_tree;
pub use fault::{Copied, CopyFault};
