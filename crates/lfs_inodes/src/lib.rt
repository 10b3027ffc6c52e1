//! Inodes and blocks of files in memory, and the pointers that lead to them on a device.
#![tactic(auto)]

mod header;
mod index;
mod key;
pub mod laws;
mod map;
mod pointers;
mod present;
mod table;

pub use header::header_of;
pub use key::{BlockKey, DIRECT, FIRST, IN_MEMORY, POINTERS};
pub use map::InodeMap;
pub use pointers::{Pointers, locate, owner_points};
pub use present::{
    first_of_leaf, first_pointer, leaf_pointers, locate_behind, locate_present, present_pointers,
};
pub use table::DirtyTable;
