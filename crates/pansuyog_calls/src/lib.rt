//! The calls of C on a volume over any device. Each answers by a number, and is done once it answers.
#![tactic(auto)]

pub mod access;
mod bytes;
pub mod codes;
pub mod files;
pub mod laws;
pub mod listing;
pub mod making;
pub mod names;
pub mod recording;
pub mod rows;
pub mod saving;
pub mod shapes;
pub mod status;
pub mod taking;
pub mod volume;
