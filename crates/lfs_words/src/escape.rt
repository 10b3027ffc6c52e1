// Bytes as escaped words.
ghost use Rattle.std.specs.Prelude.{◌≡◌, ◌≢◌, ◌<◌, ◌≤◌, ◌∷◌, ◌++◌, [], List, ℕ, None, Err, false, IsTrue, IfOk, IfSome, length, take};
ghost use Rattle.hex.specs.Hex.{IsBytes, encode_lower};
ghost use Rattle.lfs_words.specs.Bytes.{Puts};
ghost use Rattle.lfs_model.specs.Script as script;
ghost use Rattle.lfs_words.specs.Reading.{IsRead};
ghost use Rattle.lfs_words.specs.Words.{escaped_byte, escaped_bytes, is_plain};

use crate::sink::{Stopped, put};
use crate::word::WordFault;
use lfs_streams::CountsWrites;
use std::alloc::Global;
use std::io::Write;

// Whether the byte stands for itself.
fn is_plain(byte: u8) -> bool
    ensures { result ≡ is_plain byte }
{
    33 <= byte && byte <= 126 && byte != b'\\'
}

// The two lower case digits of a byte.
fn digits_of(byte: u8) -> [u8; 2]
    ensures { result ≡ encode_lower (byte ∷ []) }
{
    let mut digits = [0; 2];
    hex::encode_to_slice([byte].as_slice(), &mut digits).unwrap();
    digits
}

// The byte of two lower case digits.
fn byte_of(digits: &[u8]) -> Option<u8>
    ensures found { IfSome result (λ b. encode_lower (b ∷ []) ≡ digits.now) }
    ensures none { result ≡ None → (b : ℕ) → b < 256 → encode_lower (b ∷ []) ≢ digits.now }
{
    let mut byte = [0; 1];
    let Ok(()) = hex::decode_to_slice(digits, &mut byte) else {
        return None;
    };
    // Upper case digits are decoded too, and differ here.
    if digits_of(byte[0]).as_slice() == digits {
        Some(byte[0])
    } else {
        None
    }
}

// The byte behind a backslash, which has its digits in the next two places.
fn escaped(word: &[u8]) -> Option<u8>
    ensures found { IfSome result (λ b. (3 ≤ length word.now) × (take 3 word.now ≡ escaped_byte b)
        × (is_plain b ≡ false)) }
    ensures none { result ≡ None → (b : ℕ) (rest : List ℕ) → b < 256 → is_plain b ≡ false
        → escaped_byte b ++ rest ≢ word.now }
{
    if word.len() < 3 || word[0] != b'\\' {
        return None;
    }
    let Some(byte) = byte_of(&word[1..3]) else {
        return None;
    };
    if is_plain(byte) { None } else { Some(byte) }
}

// The first byte that is spelt, and the length of its spelling.
fn first_byte(word: &[u8]) -> Option<(u8, usize)>
    ensures found { IfSome result (λ r. (0 < r.1) × (r.1 ≤ length word.now)
        × (take r.1 word.now ≡ escaped_byte r.0)) }
    ensures none { result ≡ None → (b : ℕ) (rest : List ℕ) → b < 256
        → escaped_byte b ++ rest ≢ word.now }
{
    if word.is_empty() {
        return None;
    }
    if is_plain(word[0]) {
        return Some((word[0], 1));
    }
    let Some(byte) = escaped(word) else {
        return None;
    };
    Some((byte, 3))
}

// Whether the word is spelt byte for byte.
fn is_spelt(word: &[u8]) -> bool
    ensures yes { IsTrue result → (bytes : List ℕ) × IsBytes bytes
        × (escaped_bytes bytes ≡ word.now) }
    ensures no { result ≡ false → (bytes : List ℕ) → IsBytes bytes
        → escaped_bytes bytes ≢ word.now }
{
    let mut at = 0;
    while at < word.len() {
        let Some((_, n)) = first_byte(&word[at..]) else {
            return false;
        };
        at += n;
    }
    true
}

// Why memory's refusal leaves a word unread.
fn refused(word: &[u8]) -> WordFault
    ensures spelling { result ≡ WordFault.Spelling → (bytes : List ℕ) → IsBytes bytes
        → escaped_bytes bytes ≢ word.now }
    ensures memory { result ≡ WordFault.Memory
        → (bytes : List ℕ) × IsBytes bytes × (escaped_bytes bytes ≡ word.now) }
{
    if is_spelt(word) {
        WordFault::Memory
    } else {
        WordFault::Spelling
    }
}

// The bytes that the word spells byte for byte.
fn unescape(alloc: Global, word: &[u8]) -> Result<Vec<u8>, WordFault>
    ensures ok { IfOk result (λ bytes. IsBytes bytes.items
        × (escaped_bytes bytes.items ≡ word.now)) }
    ensures spelling { result ≡ Err WordFault.Spelling → (bytes : List ℕ) → IsBytes bytes
        → escaped_bytes bytes ≢ word.now }
    ensures memory { result ≡ Err WordFault.Memory
        → (bytes : List ℕ) × IsBytes bytes × (escaped_bytes bytes ≡ word.now) }
{
    let Ok(mut bytes) = Vec::with_capacity(alloc, word.len()) else {
        return Err(refused(word));
    };
    let mut at = 0;
    while at < word.len() {
        let Some((byte, n)) = first_byte(&word[at..]) else {
            return Err(WordFault::Spelling);
        };
        bytes.push(byte).unwrap();
        at += n;
    }
    Ok(bytes)
}

/// The bytes that the word spells: a printing byte but the backslash for itself, a backslash and
/// two digits for another, a backslash alone for no bytes.
pub fn read_escaped(alloc: Global, word: &[u8]) -> Result<Vec<u8>, WordFault>
    ensures { IsRead script.word word.now result }
{
    if word == b"\\".as_slice() {
        return Ok(Vec::new(alloc));
    }
    if word.is_empty() {
        return Err(WordFault::Spelling);
    }
    unescape(alloc, word)
}

fn put_byte<W: Write, C: CountsWrites<W>>(
    writer: &mut W,
    counter: &mut C,
    byte: u8,
) -> Result<(), Stopped>
    ensures { Puts (W.contents writer.old) (W.contents writer.new)
        (C.failures counter.old) (C.failures counter.new) (script.word_byte byte) result }
{
    if is_plain(byte) {
        return put(writer, counter, &[byte]);
    }
    let [high, low] = digits_of(byte);
    put(writer, counter, &[b'\\', high, low])
}

/// Writes the word of the bytes. It takes no memory.
pub fn put_escaped<W: Write, C: CountsWrites<W>>(
    writer: &mut W,
    counter: &mut C,
    bytes: &[u8],
) -> Result<(), Stopped>
    ensures { Puts (W.contents writer.old) (W.contents writer.new)
        (C.failures counter.old) (C.failures counter.new) (script.word bytes.now) result }
{
    if bytes.is_empty() {
        return put(writer, counter, b"\\");
    }
    for byte in bytes {
        put_byte(writer, counter, *byte)?;
    }
    Ok(())
}
