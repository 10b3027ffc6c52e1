//! The checksum CRC-32C (Castagnoli) as RFC 3720 has it, sections 12.1 and B.4, by a table of 256
//! entries. It is proved to be what the division of the RFC gives bit by bit.
#![tactic(auto)]

mod crc;
pub mod laws;
mod table;

pub use crc::crc32c;
