//! Where a volume stands on a device, by what the device holds, and what it has of the device.
#![tactic(auto)]

mod finding;
mod in_volume;
pub mod laws;
pub mod limits;

pub use finding::find_places;
pub use in_volume::InVolume;

/// Why no volume is found.
#[derive(Clone, Copy, Debug, PartialEq, Eq)]
pub enum FindFault {
    /// The device has fewer sectors than any volume.
    TooSmall,
    /// No slot holds a checkpoint that counts.
    NoCheckpoint,
    /// A call of the device failed.
    Device,
}
