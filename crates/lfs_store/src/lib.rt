//! The files of a volume with one call's changes before they are staged: a draft, reads that see
//! it, and its staging whole.
#![tactic(auto)]

mod accepting;
mod draft;
pub mod drafting;
mod files;
mod losing;
mod making;
mod measuring;
pub mod pieces;
mod reading;
mod recounting;
mod shrinking;
mod store;
pub mod totals;
mod volume;
mod writing;

pub use draft::Draft;
pub use lfs_cleaner::volume_log;
pub use lfs_cleaner::volume_log::{BlockTotals, Header, Log, LogFault, MountFault};
pub use lfs_files::{Files, StoreFault};
pub use store::Store;
pub use totals::Measure;
