//! The walk over a whole volume, which finds out whether its content stands for a log map. It only
//! reads.
#![tactic(auto)]

pub mod blocks;
pub mod clean;
pub mod counts;
mod fault;
pub mod inode_stage;
pub mod inodes;
pub mod labels;
pub mod map_stage;
pub mod mark_laws;
pub mod marks;
pub mod order;
pub mod reading;
pub mod rows;
pub mod tables;
pub mod totals;
pub mod usage_stage;
pub mod values;
pub mod verify;
pub mod walk;

pub use fault::{MountFault, WalkFault};
pub use lfs_root as root;
pub use tables::Tables;
pub use totals::BlockTotals;
pub use verify::FoundLog;
