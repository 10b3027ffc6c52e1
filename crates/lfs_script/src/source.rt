// Bytes of a reader, one at a time.
ghost use Rattle.std.specs.Prelude.{◌≡◌, ◌⊎◌, ◌+◌, ◌*◌, ◌^◌, ◌-◌, ◌<◌, ◌≤◌, [], None, length, take, OnErr, IfOk, vec_len, slice_range};
ghost use Rattle.std.specs.Io.KnownBytes.{Consumes, IsAtEnd, Keeps, prepend_known};
ghost use Rattle.lfs_script.specs.Bytes.{TakesByte, ahead, taken};
ghost use Rattle.lfs_script.specs.Heard.{HearsByte, HearsRead};

use crate::witness::Witness;
use lfs_device::SectorDevice;
use lfs_streams::CountsReads;
use std::alloc::{AllocError, Global};
use std::io::{Read, Write};

const CHUNK: usize = 4096;

/// The reader failed, or gave 2^64 - 1 bytes with no end.
#[derive(Clone, Copy, PartialEq, Eq)]
pub struct ReadError;

/// What was read and not yet taken.
#[derive(Drop)]
pub struct Source {
    chunk: Vec<u8>,
    start: usize,
    end: usize,
    budget: u64,
    ghost order: { start ≤ end },
    ghost within: { end ≤ vec_len chunk },
    // There is a chunk as long as a byte may be read.
    ghost some: { budget ≤ 2 ^ 64 * vec_len chunk },
}

// Reads once over the chunk.
fn read_chunk<R: Read, W: Write, D: SectorDevice, S: Witness<D, W>, C: CountsReads<R>>(
    witness: &mut S,
    reader: &mut R,
    counter: &mut C,
    chunk: &mut Vec<u8>,
) -> Result<usize, ReadError>
    requires { 0 < vec_len chunk.old }
    ensures len { vec_len chunk.new ≡ vec_len chunk.old }
    ensures within { IfOk result (λ n. n ≤ vec_len chunk.new) }
    ensures bytes { IfOk result (λ n. Consumes (R.remaining reader.old) (R.remaining reader.new)
        (take n chunk.new.items)) }
    ensures end { IfOk result (λ n. n ≡ 0 → IsAtEnd (R.remaining reader.new)) }
    ensures err { OnErr result (Keeps (R.remaining reader.old) (R.remaining reader.new)) }
    ensures counted { C.failures counter.old ≤ C.failures counter.new }
    ensures cause { OnErr result (C.failures counter.old < C.failures counter.new) }
    ensures heard { HearsRead (S.heard witness.old) (S.heard witness.new) result chunk.new.items }
    ensures unseen { S.glances witness.new ≡ S.glances witness.old }
{
    match witness.read(reader, counter, chunk.as_mut_slice()) {
        Ok(n) => Ok(n),
        Err(_) => Err(ReadError),
    }
}

impl Source {
    pub fn new(alloc: Global) -> Result<Source, AllocError>
        ensures empty { IfOk result (λ s. slice_range s.chunk.items s.start s.end ≡ []) }
        ensures ahead { IfOk result (λ s. ahead s.start s.end s.budget ≡ 2 ^ 64 - 1) }
    {
        let chunk = vec![in alloc; 0; CHUNK]?;
        Ok(Source {
            chunk,
            start: 0,
            end: 0,
            budget: u64::MAX,
        })
    }

    /// Takes the next byte; `None` is the end of the input. After an error nothing that was read is
    /// left over. The writer is flushed before the reader is asked.
    pub fn next<R: Read, W: Write, D: SectorDevice, S: Witness<D, W>, C: CountsReads<R>>(
        &mut self,
        reader: &mut R,
        counter: &mut C,
        writer: &mut W,
        witness: &mut S,
    ) -> Result<Option<u8>, ReadError>
        ensures takes { TakesByte (prepend_known
            (slice_range self.old.chunk.items self.old.start self.old.end) (R.remaining reader.old))
            (R.remaining reader.new)
            (slice_range self.new.chunk.items self.new.start self.new.end) result }
        ensures kept { Keeps (W.contents writer.old) (W.contents writer.new) }
        ensures ahead { ahead self.old.start self.old.end self.old.budget
            ≤ length (taken result) + ahead self.new.start self.new.end self.new.budget }
        ensures counted { C.failures counter.old ≤ C.failures counter.new }
        ensures cause { OnErr result ((C.failures counter.old < C.failures counter.new)
            ⊎ (ahead self.new.start self.new.end self.new.budget ≡ 0)) }
        ensures hears { HearsByte (S.heard witness.old) (S.heard witness.new)
            (slice_range self.old.chunk.items self.old.start self.old.end)
            (slice_range self.new.chunk.items self.new.start self.new.end) result }
        ensures unseen { S.glances witness.new ≡ S.glances witness.old }
    {
        if self.start == self.end {
            return self.refill::<R, W, D, S, C>(reader, counter, writer, witness);
        }
        let byte = self.chunk[self.start];
        self.start += 1;
        Ok(Some(byte))
    }

    // The same, where nothing is left.
    fn refill<R: Read, W: Write, D: SectorDevice, S: Witness<D, W>, C: CountsReads<R>>(
        &mut self,
        reader: &mut R,
        counter: &mut C,
        writer: &mut W,
        witness: &mut S,
    ) -> Result<Option<u8>, ReadError>
        requires { self.old.start ≡ self.old.end }
        ensures takes { TakesByte (R.remaining reader.old) (R.remaining reader.new)
            (slice_range self.new.chunk.items self.new.start self.new.end) result }
        ensures kept { Keeps (W.contents writer.old) (W.contents writer.new) }
        ensures ahead { self.old.budget
            ≤ length (taken result) + ahead self.new.start self.new.end self.new.budget }
        ensures counted { C.failures counter.old ≤ C.failures counter.new }
        ensures cause { OnErr result ((C.failures counter.old < C.failures counter.new)
            ⊎ (ahead self.new.start self.new.end self.new.budget ≡ 0)) }
        ensures hears { HearsByte (S.heard witness.old) (S.heard witness.new) []
            (slice_range self.new.chunk.items self.new.start self.new.end) result }
        ensures unseen { S.glances witness.new ≡ S.glances witness.old }
    {
        self.start = 0;
        self.end = 0;
        if self.budget < CHUNK as u64 {
            self.chunk.truncate(self.budget as usize);
        }
        if self.chunk.is_empty() {
            return Err(ReadError);
        }
        // What it can't send now a later write or flush has to tell.
        let _ = writer.flush();
        let n = read_chunk::<R, W, D, S, C>(witness, reader, counter, &mut self.chunk)?;
        if n == 0 {
            return Ok(None);
        }
        let byte = self.chunk[0];
        self.start = 1;
        self.end = n;
        self.budget = self.budget.saturating_sub(n as u64);
        Ok(Some(byte))
    }
}
