//! A recorder: lines in numbered files of a volume, of which the oldest goes where there is no space.
#![tactic(auto)]

mod beginning;
mod files;
pub mod laws;
pub mod names;
mod recorder;
mod recording;

pub use recorder::{LONGEST_LINE, MOST_BYTES, Present, Recorder};
