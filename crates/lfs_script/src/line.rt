// Lines of a reader.
ghost use Rattle.std.specs.Prelude.{◌≡◌, ◌≢◌, ◌⊎◌, ◌<◌, ◌≤◌, ◌+◌, ◌∷◌, ◌++◌, [], All, Ok, length, vec_capacity, vec_len, OnErr, slice_range};
ghost use Rattle.std.specs.Io.KnownBytes.{Consumes, IsAtEnd, Keeps, prepend_known};
ghost use Rattle.lfs_script.specs.Bytes.{ahead};
ghost use Rattle.lfs_script.specs.Heard.{HearsEnd, UsesHeard};
ghost use Rattle.lfs_script.specs.LineEnd.{consumed_by_line, OnTooLong};

use crate::source::{ReadError, Source};
use crate::witness::Witness;
use lfs_device::SectorDevice;
use lfs_model::limits::LONGEST_LINE;
use lfs_streams::CountsReads;
use std::io::{Read, Write};

/// How a line ended.
#[derive(Clone, Copy, PartialEq, Eq)]
pub enum LineEnd {
    Newline,
    /// The input ended.
    Input,
    /// This byte came after the longest line.
    TooLong(u8),
}

/// Reads a line into the buffer, which has the room. The writer is flushed before each read of the
/// reader.
pub fn next_line<R: Read, W: Write, D: SectorDevice, S: Witness<D, W>, C: CountsReads<R>>(
    source: &mut Source,
    reader: &mut R,
    counter: &mut C,
    writer: &mut W,
    witness: &mut S,
    line: &mut Vec<u8>,
) -> Result<LineEnd, ReadError>
    requires { LONGEST_LINE ≤ vec_capacity line.old }
    ensures room { LONGEST_LINE ≤ vec_capacity line.new }
    ensures len { vec_len line.new ≤ LONGEST_LINE }
    ensures bytes { Consumes (prepend_known
        (slice_range source.old.chunk.items source.old.start source.old.end)
        (R.remaining reader.old)) (prepend_known
        (slice_range source.new.chunk.items source.new.start source.new.end)
        (R.remaining reader.new)) (line.new.items ++ consumed_by_line result) }
    ensures plain { All (λ b. b ≢ 10) line.new.items }
    ensures long { OnTooLong result (λ b. (b ≢ 10) × (vec_len line.new ≡ LONGEST_LINE)) }
    ensures end { result ≡ Ok LineEnd.Input
        → IsAtEnd (prepend_known (slice_range source.new.chunk.items source.new.start
        source.new.end) (R.remaining reader.new)) }
    ensures err { OnErr result (slice_range source.new.chunk.items source.new.start source.new.end
        ≡ []) }
    ensures kept { Keeps (W.contents writer.old) (W.contents writer.new) }
    ensures ahead { ahead source.old.start source.old.end source.old.budget
        ≤ length (line.new.items ++ consumed_by_line result)
        + ahead source.new.start source.new.end source.new.budget }
    ensures counted { C.failures counter.old ≤ C.failures counter.new }
    ensures cause { OnErr result ((C.failures counter.old < C.failures counter.new)
        ⊎ (ahead source.new.start source.new.end source.new.budget ≡ 0)) }
    ensures heard { UsesHeard (S.heard witness.old) (S.heard witness.new)
        (slice_range source.old.chunk.items source.old.start source.old.end)
        (slice_range source.new.chunk.items source.new.start source.new.end)
        (line.new.items ++ consumed_by_line result) }
    ensures heard_end { result ≡ Ok LineEnd.Input → HearsEnd (S.heard witness.new)
        (slice_range source.new.chunk.items source.new.start source.new.end) }
    ensures unseen { S.glances witness.new ≡ S.glances witness.old }
{
    line.clear();
    loop {
        match source.next::<R, W, D, S, C>(reader, counter, writer, witness)? {
            None => return Ok(LineEnd::Input),
            Some(b'\n') => return Ok(LineEnd::Newline),
            Some(byte) => {
                if line.len() >= LONGEST_LINE {
                    return Ok(LineEnd::TooLong(byte));
                }
                line.push(byte).unwrap();
            }
        }
    }
}
