//! The cleaner of a log: it empties segments with few blocks, so that they are clean.
//! After the Sprite LFS paper (1992, section 3.3).
#![tactic(auto)]

pub mod ahead;
pub mod making;
pub mod once;
pub mod passing;

pub use ahead::clean_before_change;
pub use lfs_log as volume_log;
pub use lfs_log::{Log, LogFault};
pub use making::{has_quarter, make_clean};
pub use once::clean_once;
pub use passing::{pass, pass_for};
