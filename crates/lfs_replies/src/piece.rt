// Texts of several pieces.
ghost use Rattle.std.specs.Prelude.{◌≡◌, flat_map};
ghost use Rattle.lfs_words.specs.Bytes.{Puts};
ghost use Rattle.lfs_replies.specs.Pieces.{piece_text};

use lfs_streams::CountsWrites;
use lfs_words::{Stopped, put, put_escaped, put_hex, put_number};
use std::io::Write;

/// A piece of a text.
#[derive(Clone, Copy)]
pub enum Piece<'a> {
    /// The bytes as they are.
    Text(&'a [u8]),
    Number(u64),
    /// The bytes as a word of digits.
    Hex(&'a [u8]),
    /// The bytes as an escaped word.
    Escaped(&'a [u8]),
}

fn put_piece<W: Write, C: CountsWrites<W>>(
    writer: &mut W,
    counter: &mut C,
    piece: Piece<'_>,
) -> Result<(), Stopped>
    ensures { Puts (W.contents writer.old) (W.contents writer.new)
        (C.failures counter.old) (C.failures counter.new) (piece_text piece.entry) result }
{
    match piece {
        Piece::Text(text) => put(writer, counter, text),
        Piece::Number(number) => put_number(writer, counter, number),
        Piece::Hex(bytes) => put_hex(writer, counter, bytes),
        Piece::Escaped(bytes) => put_escaped(writer, counter, bytes),
    }
}

/// Writes the pieces one after the other. After an error a beginning of them went out.
pub fn put_all<W: Write, C: CountsWrites<W>>(
    writer: &mut W,
    counter: &mut C,
    pieces: &[Piece<'_>],
) -> Result<(), Stopped>
    ensures { Puts (W.contents writer.old) (W.contents writer.new)
        (C.failures counter.old) (C.failures counter.new)
        (flat_map piece_text pieces.now) result }
{
    for piece in pieces {
        put_piece(writer, counter, *piece)?;
    }
    Ok(())
}
