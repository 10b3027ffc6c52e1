//! The script language of the file system: lines in, replies out.
#![tactic(auto)]

mod answer;
pub mod laws;
mod line;
mod noted;
mod recorded;
mod script;
mod session;
mod source;
mod strict;
mod transcript;
mod witness;

pub use lfs_fs as fs;
pub use lfs_lines::{Call, Command, parse};
pub use lfs_replies::{Answer, put_reply};
pub use lfs_streams::{
    CountedWrite, CountedWriter, CountsReads, CountsWrites, ReadCount, WriteCount,
};
pub use lfs_words::{
    Stopped, WordFault, put_escaped, put_hex, put_number, read_escaped, read_hex, read_u8,
    read_u32, read_u64,
};
pub use noted::{UseEnd, use_and_stop_noted, use_each_noted, use_volume_noted};
pub use recorded::Recorded;
pub use script::{ScriptEnd, StrictEnd, run, run_noted, run_strict};
pub use session::{StoppedScript, use_and_stop, use_each, use_volume};
pub use strict::use_volume_strict;
pub use witness::{Glances, Witness};
