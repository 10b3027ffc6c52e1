// The reply to a line.
ghost use Rattle.std.specs.Prelude.{◌≡◌, [], ◌∷◌, ◌++◌, length, decimal, flat_map};
ghost use Rattle.lfs_words.specs.Bytes.{Puts};
ghost use Rattle.lfs_replies.specs.Pieces.{piece_text};
ghost use Rattle.lfs_model.specs.Script.{bad, entry_line, head_text, kind_name, ok, reply, row_line};
ghost use Rattle.lfs_fs.specs.Answers.{entry_of, row_of};
ghost use Rattle.lfs_replies.specs.Answers.{answer_of, result_of};

use crate::answer::Answer;
use crate::piece::{Piece, put_all};
use lfs_fs::{Entry, FsError, Space, Stat, TreeRow};
use lfs_model::Kind;
use lfs_streams::CountsWrites;
use lfs_words::Stopped;
use std::io::Write;

const SPACE: Piece<'static> = Piece::Text(b" ");

const END: Piece<'static> = Piece::Text(b"\n");

fn kind_name(kind: Kind) -> &'static [u8]
    ensures { result.now ≡ kind_name kind }
{
    match kind {
        Kind::File => b"file",
        Kind::Directory => b"dir",
        Kind::Link => b"link",
    }
}

// What is shown of an object's beginning.
fn head_of(row: &TreeRow) -> Piece<'_>
    ensures { piece_text result ≡ head_text row.now.kind row.now.head.items }
{
    match row.kind {
        Kind::File => Piece::Hex(row.head.as_slice()),
        Kind::Directory => Piece::Text(b"-"),
        Kind::Link => Piece::Escaped(row.head.as_slice()),
    }
}

fn put_row<W: Write, C: CountsWrites<W>>(
    writer: &mut W,
    counter: &mut C,
    row: &TreeRow,
) -> Result<(), Stopped>
    ensures { Puts (W.contents writer.old) (W.contents writer.new)
        (C.failures counter.old) (C.failures counter.new)
        (row_line (row_of row.now)) result }
{
    put_all(
        writer,
        counter,
        &[
            Piece::Number(u64::from(row.directory)),
            SPACE,
            Piece::Escaped(row.name.as_slice()),
            SPACE,
            Piece::Text(kind_name(row.kind)),
            SPACE,
            Piece::Number(u64::from(row.number)),
            SPACE,
            Piece::Number(u64::from(row.links)),
            SPACE,
            Piece::Number(row.size),
            SPACE,
            head_of(row),
            END,
        ],
    )
}

fn put_tree<W: Write, C: CountsWrites<W>>(
    writer: &mut W,
    counter: &mut C,
    rows: &[TreeRow],
) -> Result<(), Stopped>
    ensures { Puts (W.contents writer.old) (W.contents writer.new)
        (C.failures counter.old) (C.failures counter.new)
        (ok (decimal (length rows.now) ∷ []) ++ flat_map (λ row. row_line (row_of row)) rows.now)
        result }
{
    put_number_line(writer, counter, rows.len() as u64)?;
    for row in rows {
        put_row(writer, counter, row)?;
    }
    Ok(())
}

fn put_entry<W: Write, C: CountsWrites<W>>(
    writer: &mut W,
    counter: &mut C,
    entry: &Entry,
) -> Result<(), Stopped>
    ensures { Puts (W.contents writer.old) (W.contents writer.new)
        (C.failures counter.old) (C.failures counter.new)
        (entry_line (entry_of entry.now)) result }
{
    put_all(
        writer,
        counter,
        &[
            Piece::Escaped(entry.name.as_slice()),
            SPACE,
            Piece::Number(u64::from(entry.number)),
            SPACE,
            Piece::Text(kind_name(entry.kind)),
            END,
        ],
    )
}

fn put_entries<W: Write, C: CountsWrites<W>>(
    writer: &mut W,
    counter: &mut C,
    entries: &[Entry],
) -> Result<(), Stopped>
    ensures { Puts (W.contents writer.old) (W.contents writer.new)
        (C.failures counter.old) (C.failures counter.new)
        (ok (decimal (length entries.now) ∷ []) ++ flat_map (λ entry. entry_line (entry_of entry))
        entries.now) result }
{
    put_number_line(writer, counter, entries.len() as u64)?;
    for entry in entries {
        put_entry(writer, counter, entry)?;
    }
    Ok(())
}

fn put_number_line<W: Write, C: CountsWrites<W>>(
    writer: &mut W,
    counter: &mut C,
    number: u64,
) -> Result<(), Stopped>
    ensures { Puts (W.contents writer.old) (W.contents writer.new)
        (C.failures counter.old) (C.failures counter.new)
        (ok (decimal number ∷ [])) result }
{
    put_all(
        writer,
        counter,
        &[Piece::Text(b"ok "), Piece::Number(number), END],
    )
}

fn put_stat<W: Write, C: CountsWrites<W>>(
    writer: &mut W,
    counter: &mut C,
    stat: Stat,
) -> Result<(), Stopped>
    ensures { Puts (W.contents writer.old) (W.contents writer.new)
        (C.failures counter.old) (C.failures counter.new)
        (ok (decimal stat.number ∷ kind_name stat.kind ∷ decimal stat.links ∷ decimal stat.size ∷
        [])) result }
{
    put_all(
        writer,
        counter,
        &[
            Piece::Text(b"ok "),
            Piece::Number(u64::from(stat.number)),
            SPACE,
            Piece::Text(kind_name(stat.kind)),
            SPACE,
            Piece::Number(u64::from(stat.links)),
            SPACE,
            Piece::Number(stat.size),
            END,
        ],
    )
}

fn put_space<W: Write, C: CountsWrites<W>>(
    writer: &mut W,
    counter: &mut C,
    space: Space,
) -> Result<(), Stopped>
    ensures { Puts (W.contents writer.old) (W.contents writer.new)
        (C.failures counter.old) (C.failures counter.new)
        (ok (decimal space.data_blocks ∷ decimal space.meta_blocks ∷ decimal space.need ∷ decimal
        space.limit ∷ [])) result }
{
    put_all(
        writer,
        counter,
        &[
            Piece::Text(b"ok "),
            Piece::Number(space.data_blocks),
            SPACE,
            Piece::Number(space.meta_blocks),
            SPACE,
            Piece::Number(space.need),
            SPACE,
            Piece::Number(space.limit),
            END,
        ],
    )
}

/// Writes the reply to a bad line of this number.
pub fn put_bad<W: Write, C: CountsWrites<W>>(
    writer: &mut W,
    counter: &mut C,
    line: u64,
) -> Result<(), Stopped>
    ensures { Puts (W.contents writer.old) (W.contents writer.new)
        (C.failures counter.old) (C.failures counter.new) (bad line) result }
{
    put_all(
        writer,
        counter,
        &[Piece::Text(b"bad "), Piece::Number(line), END],
    )
}

// Writes the reply to a call that isn't refused.
fn put_answer<W: Write, C: CountsWrites<W>>(
    writer: &mut W,
    counter: &mut C,
    answer: &Answer,
) -> Result<(), Stopped>
    ensures { Puts (W.contents writer.old) (W.contents writer.new)
        (C.failures counter.old) (C.failures counter.new)
        (reply (answer_of answer.now)) result }
{
    match answer {
        Answer::Done => put_all(writer, counter, &[Piece::Text(b"ok"), END]),
        Answer::Handle(handle) => put_number_line(writer, counter, u64::from(*handle)),
        Answer::Count(count) => put_number_line(writer, counter, u64::from(*count)),
        Answer::Bytes(bytes) => put_all(
            writer,
            counter,
            &[Piece::Text(b"ok "), Piece::Hex(bytes.as_slice()), END],
        ),
        Answer::Text(text) => put_all(
            writer,
            counter,
            &[Piece::Text(b"ok "), Piece::Escaped(text.as_slice()), END],
        ),
        Answer::Stat(stat) => put_stat(writer, counter, *stat),
        Answer::Entries(entries) => put_entries(writer, counter, entries.as_slice()),
        Answer::Space(space) => put_space(writer, counter, *space),
        Answer::Version(version) => put_number_line(writer, counter, u64::from(*version)),
        Answer::Tree(rows) => put_tree(writer, counter, rows.as_slice()),
    }
}

/// Writes the reply, piece by piece. It takes no memory. After an error a beginning of it went out.
pub fn put_reply<W: Write, C: CountsWrites<W>>(
    writer: &mut W,
    counter: &mut C,
    answer: &Result<Answer, FsError>,
) -> Result<(), Stopped>
    ensures { Puts (W.contents writer.old) (W.contents writer.new)
        (C.failures counter.old) (C.failures counter.new)
        (reply (result_of answer.now)) result }
{
    match answer {
        Ok(answer) => put_answer(writer, counter, answer),
        Err(refusal) => put_all(
            writer,
            counter,
            &[
                Piece::Text(b"err "),
                Piece::Text(refusal.name().as_bytes()),
                END,
            ],
        ),
    }
}
