//! Paths: their text, and the walk of them over any tree of directories, files and symbolic links.
#![tactic(auto)]

mod chain;
pub mod last;
pub mod laws;
mod link;
mod passing;
mod seen;
mod split;
pub mod text;
pub mod tree;
mod walk_fault;
mod walking;

pub use chain::Chain;
pub use last::Last;
pub use lfs_dirs as dirs;
pub use seen::header_of;
pub use tree::{Place, parent, resolve};
pub use walk_fault::WalkFault;
