// Writers whose failures and flushes are counted.
ghost use Rattle.std.specs.Prelude.{◌≡◌, ℕ, suc};
ghost use Rattle.std.specs.Io.{WritesAtMost};
ghost use Rattle.std.specs.Io.KnownBytes.{Keeps, WriteAppends};
ghost use Rattle.lfs_streams.specs.Counted.{counted_writer, failures_of, flushes_of};
ghost use Rattle.lfs_streams.specs.Counts.{CountsWrite};

use crate::tally::Tally;
use std::io::{Result, Write};

/// A writer that counts its writes that failed or took nothing, and its flushes. std tells neither,
/// so whoever writes by it can't make one up.
pub trait CountedWrite: Write {
    // How many of its writes failed, or took nothing.
    ghost failures: { Self → ℕ };
    // How many times it was flushed, whatever that answered.
    ghost flushes: { Self → ℕ };

    /// Writes once, as the writer does, and counts it where the write fails or takes nothing.
    fn write_counted(&mut self, bytes: &[u8]) -> Result<usize>
        ensures bound { WritesAtMost result bytes.now }
        ensures bytes { WriteAppends (Self.contents self.old) (Self.contents self.new) result
            bytes.now }
        ensures counted { CountsWrite (failures self.old) (failures self.new) result }
        ensures unflushed { flushes self.new ≡ flushes self.old };

    /// Flushes, as the writer does, and counts it.
    fn flush_counted(&mut self) -> Result<()>
        ensures bytes { Keeps (Self.contents self.old) (Self.contents self.new) }
        ensures flushed { flushes self.new ≡ suc (flushes self.old) }
        ensures unfailed { failures self.new ≡ failures self.old };
}

/// Any writer as one that counts since it was put here. The counts take no memory.
#[derive(Drop)]
pub struct CountedWriter<W> {
    writer: W,
    failures: Tally,
    flushes: Tally,
}

impl<W: Write> CountedWriter<W> {
    /// Nothing is counted of what was asked of it before.
    pub fn new(writer: W) -> CountedWriter<W>
        ensures same { counted_writer result ≡ writer }
        ensures failures { failures_of result ≡ 0 }
        ensures flushes { flushes_of result ≡ 0 }
    {
        CountedWriter {
            writer,
            failures: Tally::new(),
            flushes: Tally::new(),
        }
    }
}

impl<W: Write> Write for CountedWriter<W> {
    ghost use Rattle.std.specs.Prelude.{◌≡◌, suc};
    ghost use Rattle.std.specs.Io.{WritesAtMost};
    ghost use Rattle.std.specs.Io.KnownBytes.{Keeps, WriteAppends};
    ghost use Rattle.lfs_streams.specs.Counted.{counted_writer, failures_of, flushes_of};
    ghost use Rattle.lfs_streams.specs.Counts.{CountsWrite};

    ghost contents = { λ c. W.contents (counted_writer c) };

    fn write(&mut self, buf: &[u8]) -> Result<usize>
        ensures bound { WritesAtMost result buf.now }
        ensures bytes { WriteAppends (W.contents (counted_writer self.old))
            (W.contents (counted_writer self.new)) result buf.now }
        ensures counted { CountsWrite (failures_of self.old) (failures_of self.new) result }
        ensures unflushed { flushes_of self.new ≡ flushes_of self.old }
    {
        match self.writer.write(buf) {
            Ok(0) => {
                self.failures.count();
                Ok(0)
            }
            Ok(count) => Ok(count),
            Err(error) => {
                self.failures.count();
                Err(error)
            }
        }
    }

    fn flush(&mut self) -> Result<()>
        ensures bytes { Keeps (W.contents (counted_writer self.old))
            (W.contents (counted_writer self.new)) }
        ensures flushed { flushes_of self.new ≡ suc (flushes_of self.old) }
        ensures unfailed { failures_of self.new ≡ failures_of self.old }
    {
        self.flushes.count();
        self.writer.flush()
    }
}

impl<W: Write> CountedWrite for CountedWriter<W> {
    ghost use Rattle.lfs_streams.specs.Counted.{failures_of, flushes_of};

    ghost failures = { failures_of };

    ghost flushes = { flushes_of };

    fn write_counted(&mut self, bytes: &[u8]) -> Result<usize> {
        self.write(bytes)
    }

    fn flush_counted(&mut self) -> Result<()> {
        self.flush()
    }
}
