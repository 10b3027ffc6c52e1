// Reads that are counted where they fail.
ghost use Rattle.std.specs.Prelude.{◌≡◌, ℕ};
ghost use Rattle.std.specs.Io.{ReadsAtMost};
ghost use Rattle.std.specs.Io.KnownBytes.{ReadConsumes};
ghost use Rattle.lfs_streams.specs.Counts.{CountsFailure};

use crate::tally::Tally;
use std::io::{Read, Result};

/// It makes the reads of a reader, and counts those that fail. std tells no failure, so whoever
/// reads by it can't make one up.
pub trait CountsReads<R: Read> {
    // How many reads failed.
    ghost failures: { Self → ℕ };

    /// Reads the reader once, and counts it where the read fails.
    fn read(&mut self, reader: &mut R, chunk: &mut [u8]) -> Result<usize>
        ensures bound { ReadsAtMost result chunk.new }
        ensures bytes { ReadConsumes (R.remaining reader.old) (R.remaining reader.new) result
            chunk.new }
        ensures counted { CountsFailure (failures self.old) (failures self.new) result };
}

/// A count of reads that failed. It takes no memory.
#[derive(Drop)]
pub struct ReadCount {
    failures: Tally,
}

// It takes no memory.
const _: () = prove!(size_of::<ReadCount>() == 0);

impl ReadCount {
    ghost use Rattle.lfs_streams.specs.Counted.{failed_reads};

    /// No read failed yet.
    pub fn new() -> ReadCount
        ensures { failed_reads result ≡ 0 }
    {
        ReadCount {
            failures: Tally::new(),
        }
    }
}

impl<R: Read> CountsReads<R> for ReadCount {
    ghost use Rattle.lfs_streams.specs.Counted.{failed_reads};

    ghost failures = { failed_reads };

    fn read(&mut self, reader: &mut R, chunk: &mut [u8]) -> Result<usize> {
        match reader.read(chunk) {
            Ok(count) => Ok(count),
            Err(error) => {
                self.failures.count();
                Err(error)
            }
        }
    }
}
