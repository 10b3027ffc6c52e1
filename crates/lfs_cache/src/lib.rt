//! A cache of sectors in front of a device.
#![tactic(auto)]

mod cache;
mod kept;
mod row;
mod sectors;

pub use cache::{CachedDevice, DEFAULT_SECTORS, MOST_SECTORS};
