//! The calls of a volume.
#![tactic(auto)]

pub mod available;
mod cleaning;
mod closing;
mod error;
mod finding;
mod finishing;
mod fs;
mod handles;
mod hard_links;
pub mod laws;
mod linking;
mod listing;
mod mounting;
mod naming;
mod places;
mod reading;
mod renaming;
mod rows;
mod saving;
mod unlinking;
mod upgrading;
mod writing;

pub use error::FsError;
pub use finding::find_volume;
pub use fs::Fs;
pub use lfs_entries::{ListedEntry as Entry, TreeRow};
pub use lfs_format::{FormatFault, Shape, format, format_version, format_with};
pub use lfs_path as path;
pub use lfs_store as store;
pub use lfs_store::MountFault;
pub use lfs_volume::InVolume;
pub use rows::{Space, Stat};
