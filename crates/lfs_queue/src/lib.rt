//! A device whose writes and syncs wait for a caller to carry them out.
#![tactic(auto)]

mod carrying;
mod image;
pub mod kept;
pub mod numbers;
mod order;
mod queue;
pub mod stops;
pub mod units;

pub use carrying::{are_within, carry};
pub use image::Image;
pub use queue::QueueDevice;
