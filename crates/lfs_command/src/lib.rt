//! The commands of the program `lfs`.
#![tactic(auto)]

mod amounts;
mod asked;
mod commands;
mod copying;
mod shaping;
mod simulation;
mod terminals;

pub use commands::{command, command_at};
pub use lfs_device as device;
pub use lfs_put::{PutFault, UNFINISHED, put};
pub use lfs_script as script;
pub use terminals::Terminals;
