// Writes that are counted where they fail or take nothing.
ghost use Rattle.std.specs.Prelude.{◌≡◌, ℕ};
ghost use Rattle.std.specs.Io.{WritesAtMost};
ghost use Rattle.std.specs.Io.KnownBytes.{WriteAppends};
ghost use Rattle.lfs_streams.specs.Counts.{CountsWrite};

use crate::tally::Tally;
use std::io::{Result, Write};

/// It makes the writes of a writer, and counts those that fail or take nothing. std tells neither,
/// so whoever writes by it can't make one up.
pub trait CountsWrites<W: Write> {
    // How many writes failed, or took nothing.
    ghost failures: { Self → ℕ };

    /// Writes once, and counts it where the write fails or takes nothing.
    fn write(&mut self, writer: &mut W, bytes: &[u8]) -> Result<usize>
        ensures bound { WritesAtMost result bytes.now }
        ensures bytes { WriteAppends (W.contents writer.old) (W.contents writer.new) result
            bytes.now }
        ensures counted { CountsWrite (failures self.old) (failures self.new) result };
}

/// A count of writes that failed or took nothing. It takes no memory.
#[derive(Drop)]
pub struct WriteCount {
    failures: Tally,
}

// It takes no memory.
const _: () = prove!(size_of::<WriteCount>() == 0);

impl WriteCount {
    ghost use Rattle.lfs_streams.specs.Counted.{failed_writes};

    /// No write failed yet.
    pub fn new() -> WriteCount
        ensures { failed_writes result ≡ 0 }
    {
        WriteCount {
            failures: Tally::new(),
        }
    }
}

impl<W: Write> CountsWrites<W> for WriteCount {
    ghost use Rattle.lfs_streams.specs.Counted.{failed_writes};

    ghost failures = { failed_writes };

    fn write(&mut self, writer: &mut W, bytes: &[u8]) -> Result<usize> {
        match writer.write(bytes) {
            Ok(0) => {
                self.failures.count();
                Ok(0)
            }
            Ok(count) => Ok(count),
            Err(error) => {
                self.failures.count();
                Err(error)
            }
        }
    }
}
