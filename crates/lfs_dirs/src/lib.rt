//! Directories: the names that the slots of a file of kind Directory give, searched, listed and
//! changed in place.
#![tactic(auto)]

mod adding;
mod entry;
pub mod laws;
mod listing;
mod repointing;
mod searching;
mod slots;
mod taking;
mod widening;

pub use adding::add;
pub use entry::Entry;
pub use listing::{ListFault, inspect, list};
pub use repointing::repoint;
pub use searching::{Found, find};
pub use slots::{longest_name, slots_in_block, slots_of};
pub use taking::take;
pub use widening::widen;
