//! Reads, writes and flushes that are counted, for clauses alone.
#![tactic(auto)]

mod counted;
mod reads;
mod tally;
mod writes;

pub use counted::{CountedWrite, CountedWriter};
pub use reads::{CountsReads, ReadCount};
pub use writes::{CountsWrites, WriteCount};
