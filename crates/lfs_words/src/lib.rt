//! How bytes and numbers are spelled as the words of a script, and how a line is cut into words.
#![tactic(auto)]

mod escape;
mod hexadecimal;
mod number;
mod sink;
mod word;

pub use escape::{put_escaped, read_escaped};
pub use hexadecimal::{put_hex, read_hex};
pub use number::{put_number, read_u8, read_u32, read_u64};
pub use sink::{Stopped, put};
pub use word::{WordFault, Words};
