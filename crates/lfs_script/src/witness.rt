// Glances at a device and a writer, and what reads gave, which only clauses see.
ghost use Rattle.std.specs.Prelude.{◌≡◌, List};
ghost use Rattle.std.specs.Io.{ReadsAtMost};
ghost use Rattle.std.specs.Io.KnownBytes.{ReadConsumes};
ghost use Rattle.lfs_script.specs.Heard.{Heard, HearsRead};
ghost use Rattle.lfs_script.specs.Noted.{Glance, GlancesAt};
ghost use Rattle.lfs_streams.specs.Counts.{CountsFailure};

use crate::transcript::Transcript;
use lfs_device::SectorDevice;
use lfs_streams::CountsReads;
use std::io::{Read, Result, Write};
use std::mem;
use std::snapshot::Snapshot;

/// It is shown a device together with a writer, and makes the reads of a reader.
pub trait Witness<D: SectorDevice, W: Write> {
    // The device's clock and what the writer held, glance by glance.
    ghost glances: { Self → List Glance };
    // What its reads gave, and whether the last of them met the end of the input.
    ghost heard: { Self → Heard };

    /// Glances at both as they are.
    fn glance(&mut self, device: &D, writer: &W)
        ensures glances { GlancesAt (D.state device.now).moment (W.contents writer.now)
            (glances self.old) (glances self.new) }
        ensures unheard { heard self.new ≡ heard self.old };

    /// Reads the reader once, by the counter. So it fails only where one more read of it failed.
    fn read<R: Read, C: CountsReads<R>>(
        &mut self,
        reader: &mut R,
        counter: &mut C,
        chunk: &mut [u8],
    ) -> Result<usize>
        ensures bound { ReadsAtMost result chunk.new }
        ensures bytes { ReadConsumes (R.remaining reader.old) (R.remaining reader.new) result
            chunk.new }
        ensures counted { CountsFailure (C.failures counter.old) (C.failures counter.new) result }
        ensures heard { HearsRead (heard self.old) (heard self.new) result chunk.new }
        ensures unseen { glances self.new ≡ glances self.old };
}

/// The glances so far. The list is never kept: a `Snapshot` of it takes no memory.
#[derive(Drop)]
pub(crate) enum Seen<D, W> {
    Start,
    Then(Snapshot<D>, Snapshot<W>, Snapshot<Seen<D, W>>),
}

/// A witness that takes no memory.
#[derive(Drop)]
pub struct Glances<D, W> {
    seen: Snapshot<Seen<D, W>>,
    transcript: Transcript,
    ended: Snapshot<bool>,
}

impl<D: SectorDevice, W: Write> Glances<D, W> {
    ghost use Rattle.lfs_script.specs.Heard.{nothing_heard};
    ghost use Rattle.lfs_script.specs.HeardBy.{heard_by};

    /// Nothing was seen or heard yet.
    pub fn new() -> Glances<D, W>
        ensures { heard_by result ≡ nothing_heard }
    {
        Glances {
            seen: Snapshot::of(&Seen::Start),
            transcript: Transcript::new(),
            ended: Snapshot::of(&false),
        }
    }
}

impl<D: SectorDevice, W: Write> Witness<D, W> for Glances<D, W> {
    ghost use Rattle.lfs_script.specs.HeardBy.{heard_by};
    ghost use Rattle.lfs_script.specs.Seen.{glances_in};

    ghost glances = { λ l. glances_in D.SectorDevice.state W.contents l.seen.value };

    ghost heard = { heard_by };

    fn glance(&mut self, device: &D, writer: &W) {
        let before = mem::replace(&mut self.seen, Snapshot::of(&Seen::Start));
        self.seen = Snapshot::of(&Seen::Then(Snapshot::of(device), Snapshot::of(writer), before));
    }

    fn read<R: Read, C: CountsReads<R>>(
        &mut self,
        reader: &mut R,
        counter: &mut C,
        chunk: &mut [u8],
    ) -> Result<usize> {
        match counter.read(reader, chunk) {
            Ok(count) => {
                self.transcript.append(&chunk[..count]);
                self.ended = Snapshot::of(&(count == 0 && !chunk.is_empty()));
                Ok(count)
            }
            Err(error) => Err(error),
        }
    }
}
