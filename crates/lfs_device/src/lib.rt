//! Devices of 512-byte sectors.
#![tactic(auto)]

mod bench;
mod device;
mod file;
mod host;
mod memory;
mod rows;
mod sector_file;
mod sectors;
mod tended;
mod told;
mod units;
mod unsent;
mod unsynced;
mod world;

pub use bench::DeviceCall;
pub use device::{DeviceFault, ReadFault, SectorDevice};
pub use file::{FileDevice, FileDeviceIn, FileFault};
pub use memory::{MemDevice, NoMemory};
pub use rows::Left;
pub use sectors::{InSectors, SectorUnits};
pub use tended::TendedDevice;
pub use world::{ThisWorld, World};
