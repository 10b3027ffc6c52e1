// Numbers as words: decimal, without leading zeros.
ghost use Rattle.std.specs.Prelude.{◌≡◌, ◌≢◌, ◌↔◌, ◌<◌, ◌^◌, ℕ, None, IsTrue, IfSome, decimal};
ghost use Rattle.lfs_words.specs.Bytes.{Puts};
ghost use Rattle.lfs_words.specs.Words.{IsBare};

use crate::sink::{Stopped, put};
use itoa::Buffer;
use lfs_streams::CountsWrites;
use std::io::Write;

// Whether the word has no sign and no leading zero, both of which `parse` takes.
fn is_bare(word: &[u8]) -> bool
    ensures { IsTrue result ↔ IsBare word.now }
{
    match word.first() {
        None => false,
        Some(b'+') => false,
        Some(b'0') => word.len() == 1,
        Some(_) => true,
    }
}

/// The number that the word spells, if it is below 2^64.
pub fn read_u64(word: &[u8]) -> Option<u64>
    ensures found { IfSome result (λ n. decimal n ≡ word.now) }
    ensures none { result ≡ None → (n : ℕ) → n < 2 ^ 64 → decimal n ≢ word.now }
{
    if !is_bare(word) {
        return None;
    }
    let Ok(text) = str::from_utf8(word) else {
        return None;
    };
    text.parse().ok()
}

/// The number that the word spells, if it is below 2^32.
pub fn read_u32(word: &[u8]) -> Option<u32>
    ensures found { IfSome result (λ n. decimal n ≡ word.now) }
    ensures none { result ≡ None → (n : ℕ) → n < 2 ^ 32 → decimal n ≢ word.now }
{
    let Some(number) = read_u64(word) else {
        return None;
    };
    u32::try_from(number).ok()
}

/// The number that the word spells, if it is below 256.
pub fn read_u8(word: &[u8]) -> Option<u8>
    ensures found { IfSome result (λ n. decimal n ≡ word.now) }
    ensures none { result ≡ None → (n : ℕ) → n < 256 → decimal n ≢ word.now }
{
    let Some(number) = read_u64(word) else {
        return None;
    };
    u8::try_from(number).ok()
}

/// Writes the number's word. It takes no memory.
pub fn put_number<W: Write, C: CountsWrites<W>>(
    writer: &mut W,
    counter: &mut C,
    number: u64,
) -> Result<(), Stopped>
    ensures { Puts (W.contents writer.old) (W.contents writer.new)
        (C.failures counter.old) (C.failures counter.new) (decimal number) result }
{
    let mut digits = Buffer::new();
    put(writer, counter, digits.format(number).as_bytes())
}
