//! The segments of a volume: what lives in each, and chunks of blocks that are written to clean
//! ones.
#![tactic(auto)]

mod benefit;
mod candidate;
mod chunk;
mod order;
mod releasing;
mod spelled;
mod state;
mod usage;
pub mod victims;

pub use benefit::before;
pub use chunk::{ChunkWriter, write, writes_each_sector_once};
pub use state::{SegmentState, UsageBlock};
pub use usage::Usage;
