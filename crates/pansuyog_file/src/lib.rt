//! Volumes for C, in a file or a block device that C opens. A call is done once it returns.
#![tactic(auto)]

mod files;
mod handle;
mod lent;
mod listing;
mod making;
mod names;
mod place;
mod recording;
mod saving;
mod shapes;
mod source;
mod status;
