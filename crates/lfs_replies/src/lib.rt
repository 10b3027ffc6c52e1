//! What calls answer, and the replies of a script that tell it.
#![tactic(auto)]

mod answer;
mod piece;
mod reply;

pub use answer::Answer;
pub use reply::{put_bad, put_reply};
