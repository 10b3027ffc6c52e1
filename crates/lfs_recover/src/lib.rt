//! What a damaged volume still holds, copied to the host, and where it is damaged, told in words.
#![tactic(auto)]

mod contents;
mod explaining;
mod host_paths;
mod recovering;
mod rescue;
mod scanning;
mod telling;
mod wording;

pub use explaining::explain;
pub use recovering::{Recovery, recover};
