//! The two places of a volume on a device.
#![tactic(auto)]

pub mod laws;
pub mod limits;
mod place;

/// Where the sectors of a volume stand on a device.
#[derive(Clone, Copy, Debug, PartialEq, Eq)]
pub enum Places {
    /// Each stands at the sector of its own number.
    Old,
    /// The two slots stand 64 KiB apart, and the segments behind them from 128 KiB on.
    New,
}
