//! The tree of a volume's log map, checked stage by stage. It only reads.
#![tactic(auto)]

mod check;
mod directories;
pub mod fault;
pub mod headers;
pub mod links;
mod marks;
pub mod reached;
mod reading;
pub mod slot_stage;
mod slots;
pub mod tables;
pub mod texts;
mod volume;

pub use check::check_tree;
pub use fault::CheckFault;
pub use lfs_model::limits::LEAST_SECTORS;
pub use volume::verify_tree;
