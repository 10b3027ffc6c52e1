// A writer whose bytes are known, whatever is known of the one behind it.
ghost use Rattle.std.specs.Prelude.{◌≡◌, []};
ghost use Rattle.lfs_script.specs.Recorded.{taken_by, writer_of};

use crate::transcript::Transcript;
use lfs_streams::CountedWrite;
use std::io::{Result, Write};

/// A writer, with all the bytes that it took since it was put here. Only clauses see them, and they
/// take no memory. Each write and each flush is one of the writer.
#[derive(Drop)]
pub struct Recorded<W> {
    writer: W,
    transcript: Transcript,
}

impl<W: CountedWrite> Recorded<W> {
    /// Nothing is recorded of what it took before.
    pub fn new(writer: W) -> Recorded<W>
        ensures none { taken_by result ≡ [] }
        ensures same { writer_of result ≡ writer }
    {
        Recorded {
            writer,
            transcript: Transcript::new(),
        }
    }
}

impl<W: CountedWrite> Write for Recorded<W> {
    ghost use Rattle.std.specs.Prelude.{◌≡◌, Some, suc};
    ghost use Rattle.std.specs.Io.{WritesAtMost};
    ghost use Rattle.std.specs.Io.KnownBytes.{Keeps, WriteAppends};
    ghost use Rattle.lfs_script.specs.Recorded.{taken_by, writer_of};
    ghost use Rattle.lfs_streams.specs.Counts.{CountsWrite};

    ghost contents = { λ r. Some (taken_by r) };

    fn write(&mut self, buf: &[u8]) -> Result<usize>
        ensures bound { WritesAtMost result buf.now }
        ensures bytes { WriteAppends (Some (taken_by self.old)) (Some (taken_by self.new)) result
            buf.now }
        ensures passed_on { WriteAppends (W.contents (writer_of self.old))
            (W.contents (writer_of self.new)) result buf.now }
        ensures counted { CountsWrite (W.failures (writer_of self.old))
            (W.failures (writer_of self.new)) result }
        ensures unflushed { W.flushes (writer_of self.new) ≡ W.flushes (writer_of self.old) }
    {
        let count = self.writer.write_counted(buf)?;
        self.transcript.append(&buf[..count]);
        Ok(count)
    }

    fn flush(&mut self) -> Result<()>
        ensures bytes { Keeps (Some (taken_by self.old)) (Some (taken_by self.new)) }
        ensures passed_on { Keeps (W.contents (writer_of self.old))
            (W.contents (writer_of self.new)) }
        ensures flushed { W.flushes (writer_of self.new)
            ≡ suc (W.flushes (writer_of self.old)) }
        ensures unfailed { W.failures (writer_of self.new) ≡ W.failures (writer_of self.old) }
    {
        self.writer.flush_counted()
    }
}
