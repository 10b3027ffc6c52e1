// Bytes as words of hexadecimal digits.
ghost use Rattle.std.specs.Prelude.{◌≡◌, ◌≤◌, length};
ghost use Rattle.std.specs.List.{list_all};
ghost use Rattle.hex.specs.Hex.{IsBytes, encode_lower};
ghost use Rattle.lfs_model.specs.Script as script;
ghost use Rattle.lfs_words.specs.Bytes.{Puts};
ghost use Rattle.lfs_words.specs.Reading.{IsRead};
ghost use Rattle.lfs_words.specs.Words.{is_lower_digit, is_pairs};

use crate::sink::{Stopped, put};
use crate::word::WordFault;
use lfs_streams::CountsWrites;
use std::alloc::Global;
use std::io::Write;

fn is_lower_digit(byte: u8) -> bool
    ensures { result ≡ is_lower_digit byte }
{
    matches!(byte, b'0'..=b'9' | b'a'..=b'f')
}

fn are_lower_digits(word: &[u8]) -> bool
    ensures { result ≡ list_all is_lower_digit word.now }
{
    word.iter().all(|c| is_lower_digit(*c))
}

// Whether these are pairs of lower case digits, at least one.
fn is_pairs(word: &[u8]) -> bool
    ensures { result ≡ is_pairs word.now }
{
    !word.is_empty() && word.len() % 2 == 0 && are_lower_digits(word)
}

/// The bytes that the word spells: lower case digits, or a dash for no bytes.
pub fn read_hex(alloc: Global, word: &[u8]) -> Result<Vec<u8>, WordFault>
    ensures { IsRead script.hex word.now result }
{
    if word == b"-".as_slice() {
        return Ok(Vec::new(alloc));
    }
    if !is_pairs(word) {
        return Err(WordFault::Spelling);
    }
    match hex::decode(alloc, word) {
        Ok(bytes) => Ok(bytes),
        Err(_) => Err(WordFault::Memory),
    }
}

// Says that each number of the slice is a byte.
fn bytes_fit(bytes: &[u8])
    ensures { IsBytes bytes.now }
{}

/// The bytes whose digits are written at once.
const PIECE: usize = 256;

// Writes the digits of a piece.
fn put_digits<W: Write, C: CountsWrites<W>>(
    writer: &mut W,
    counter: &mut C,
    piece: &[u8],
) -> Result<(), Stopped>
    requires { length piece.now ≤ PIECE }
    ensures { Puts (W.contents writer.old) (W.contents writer.new)
        (C.failures counter.old) (C.failures counter.new) (encode_lower piece.now) result }
{
    let mut room = [0; 512];
    let digits = &mut room[..2 * piece.len()];
    hex::encode_to_slice(piece, digits).unwrap();
    put(writer, counter, digits)
}

/// Writes the word of the bytes. It takes no memory.
pub fn put_hex<W: Write, C: CountsWrites<W>>(
    writer: &mut W,
    counter: &mut C,
    bytes: &[u8],
) -> Result<(), Stopped>
    ensures { Puts (W.contents writer.old) (W.contents writer.new)
        (C.failures counter.old) (C.failures counter.new) (script.hex bytes.now) result }
{
    if bytes.is_empty() {
        return put(writer, counter, b"-");
    }
    bytes_fit(bytes);
    let mut at = 0;
    while at < bytes.len() {
        let n = (bytes.len() - at).min(PIECE);
        put_digits(writer, counter, &bytes[at..at + n])?;
        at += n;
    }
    Ok(())
}
