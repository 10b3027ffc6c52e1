//! What a log holds in memory: inodes and blocks of files, how they come there, are read, and
//! change.
#![tactic(auto)]

pub mod applying;
pub mod batch;
pub mod changes;
pub mod changing;
pub mod counting;
pub mod cutting;
pub mod hiding;
pub mod lifting;
pub mod memory;
pub mod pointers;
pub mod preparing;
pub mod present;
pub mod removing;
pub mod staging;

pub use batch::{BlockEdit, Cut, HeaderEdit, LastLink, Loss, Removal};
pub use changes::Changes;
pub use lfs_files::{Header, LogFault};
pub use lfs_inodes as inodes;
pub use lfs_segments as segments;
pub use memory::LogMemory;
pub use pointers::PointerRun;
