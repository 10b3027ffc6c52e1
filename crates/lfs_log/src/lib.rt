//! The log of a volume: what memory holds is saved in segments, and survives any stop.
#![tactic(auto)]

pub mod cleaning;
pub mod collecting;
pub mod committing;
pub mod early;
pub mod groups;
mod layout_version;
mod log;
pub mod mapping;
pub mod moving;
pub mod opening;
pub mod passing;
pub mod placing;
pub mod publishing;
pub mod relocating;
pub mod settling;
pub mod thresholds;
pub mod vacating;

pub use layout_version::LayoutVersion;
pub use lfs_memory as memory;
pub use lfs_memory::{
    BlockEdit, Changes, Cut, Header, HeaderEdit, LastLink, LogFault, Loss, Removal,
};
pub use lfs_verify as verify;
pub use lfs_verify::{BlockTotals, MountFault};
pub use log::Log;
