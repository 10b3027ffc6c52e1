//! The fields of a sector, each at its place.
ghost use Rattle.std.specs.Prelude.{◌≡◌, ◌≤◌, ◌+◌, ◌*◌, ◌↔◌, length, IsTrue};
ghost use Rattle.lfs_model.specs.Fields.{le16, le32, le64, words, zeros, part, read16, read32, read64, numbers, Are32};

use crate::zero::{LANES, is_zero_from};
use byteorder::{ByteOrder, LittleEndian};
use lfs_model::limits::SECTOR_LEN;

/// The number in the 2 bytes at a place.
pub fn number16_at(sector: &[u8; 512], at: usize) -> u16
    requires { at + 2 ≤ SECTOR_LEN }
    ensures read { result ≡ read16 at sector.now }
    ensures spelled { le16 result ≡ part at 2 sector.now }
{
    LittleEndian::read_u16(&sector[at..at + 2])
}

/// The number in the 4 bytes at a place.
pub fn number32_at(sector: &[u8; 512], at: usize) -> u32
    requires { at + 4 ≤ SECTOR_LEN }
    ensures read { result ≡ read32 at sector.now }
    ensures spelled { le32 result ≡ part at 4 sector.now }
{
    LittleEndian::read_u32(&sector[at..at + 4])
}

/// The number in the 8 bytes at a place.
pub fn number64_at(sector: &[u8; 512], at: usize) -> u64
    requires { at + 8 ≤ SECTOR_LEN }
    ensures read { result ≡ read64 at sector.now }
    ensures spelled { le64 result ≡ part at 8 sector.now }
{
    LittleEndian::read_u64(&sector[at..at + 8])
}

/// `N` numbers of 4 bytes each, the first at a place.
pub fn words_at<const N: usize>(sector: &[u8; 512], at: usize) -> [u32; N]
    requires { at + 4 * N ≤ SECTOR_LEN }
    ensures read { result ≡ numbers N at sector.now }
    ensures spelled { words result ≡ part at (4 * N) sector.now }
    ensures length { length result ≡ N }
    ensures fits { Are32 result }
{
    let mut numbers = [0; N];
    LittleEndian::read_u32_into(&sector[at..at + 4 * N], &mut numbers);
    numbers
}

/// Whether this text stands at a place.
pub fn is_text_at(sector: &[u8; 512], at: usize, text: &[u8]) -> bool
    requires { at + length text.now ≤ SECTOR_LEN }
    ensures { IsTrue result ↔ part at (length text.now) sector.now ≡ text.now }
{
    &sector[at..at + text.len()] == text
}

/// Whether the `len` bytes from a place on are 0: those of whole lanes, and then the others.
pub fn is_zero_at(sector: &[u8; 512], at: usize, len: usize) -> bool
    requires { at + len ≤ SECTOR_LEN }
    ensures { IsTrue result ↔ part at len sector.now ≡ zeros len }
{
    let steps = len / LANES;
    for step in 0..steps {
        if !is_zero_from(sector, at + LANES * step) {
            return false;
        }
    }
    let rest = at + LANES * steps;
    sector[rest..at + len].iter().all(|b| *b == 0)
}

/// Tells a caller's proof that its numbers have 32 bits.
#[tactic(auto, unfolding(lfs_model::specs::Fields::Are32))]
pub fn fits_32(numbers: &[u32])
    ensures { Are32 numbers.now }
{}
