//! Volumes for C: a library that calls no device. The caller reads the sectors of a device and
//! gives them, and carries out the writes and syncs that wait.
#![tactic(auto)]

mod files;
mod handle;
pub mod laws;
mod listing;
mod making;
mod names;
mod orders;
mod place;
mod recording;
pub mod rooms;
mod saving;
mod shapes;
mod source;
mod status;
