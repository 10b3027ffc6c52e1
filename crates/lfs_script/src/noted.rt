// A whole use of a volume before a witness.
ghost use Rattle.std.specs.Prelude.{◌≡◌, IfOk, IfErr, OnOk, OnErr};
ghost use Rattle.lfs_model.specs.Device.{Carries, IsUntouched, Only};
ghost use Rattle.lfs_device.specs.MemoryDevice.{device_state};
ghost use Rattle.lfs_volume.specs.FindingLaws.{StaysApart};
ghost use Rattle.lfs_volume.specs.Standing.{in_volume};
ghost use Rattle.lfs_fs.specs.log.Mounting.{HasWholeUnits};
ghost use Rattle.lfs_script.specs.Heard.{HearsTo};
ghost use Rattle.lfs_script.specs.Saved.{SessionSaved};
ghost use Rattle.lfs_script.specs.Series.{FromAny, texts_of};
ghost use Rattle.lfs_script.specs.SeriesNoted.{StopsAtMountNoted, UsesInTurnNoted};
ghost use Rattle.lfs_script.specs.Session.{SessionNoted};
ghost use Rattle.lfs_script.specs.Strict.{ReadsTo, WritesTo};
ghost use Rattle.lfs_script.specs.Unused.{IsUnused};

use crate::script::{StrictEnd, run_noted};
use crate::session::StoppedScript;
use crate::witness::Witness;
use lfs_device::{Left, MemDevice, SectorDevice};
use lfs_fs::{Fs, InVolume, MountFault, find_volume};
use lfs_streams::{CountsReads, CountsWrites, ReadCount, WriteCount};
use std::alloc::Global;
use std::io::{Read, Write};

/// How a use of a volume ended.
#[derive(Clone, Copy, Debug, PartialEq, Eq)]
pub struct UseEnd {
    pub script: StrictEnd,
    /// Whether all that was done is saved, as `Fs::is_saved` says it.
    pub is_saved: bool,
}

/// As `use_volume` or `use_volume_strict`, before a witness: a stop at any moment since a reply
/// went out leaves every call that was acknowledged by then. It tells whether all is saved at the
/// end. What the witness heard is the script in hindsight, as in `run_noted`.
pub fn use_volume_noted<
    R: Read,
    W: Write,
    D: SectorDevice,
    S: Witness<D, W>,
    C: CountsReads<R>,
    K: CountsWrites<W>,
>(
    alloc: Global,
    strict: bool,
    reader: &mut R,
    reads: &mut C,
    writer: &mut W,
    writes: &mut K,
    witness: &mut S,
    device: D,
) -> (Result<UseEnd, MountFault>, D)
    requires { HasWholeUnits (D.state device) }
    ensures ran { IfOk result.0 (λ end. SessionNoted strict end.script (R.remaining reader.old)
        (R.remaining reader.new) (W.contents writer.old) (W.contents writer.new)
        (D.state device) (D.state result.1) (S.glances witness.old) (S.glances witness.new)) }
    ensures saved { IfOk result.0 (λ end. SessionSaved end.is_saved strict end.script
        (R.remaining reader.old) (R.remaining reader.new) (W.contents writer.old)
        (W.contents writer.new) (D.state device) (D.state result.1)
        (S.glances witness.old)
        (S.glances witness.new)) }
    ensures reads { IfOk result.0 (λ end. ReadsTo end.script (C.failures reads.old)
        (C.failures reads.new) (R.remaining reader.old) (R.remaining reader.new)) }
    ensures writes { IfOk result.0 (λ end. WritesTo end.script (K.failures writes.old)
        (K.failures writes.new)) }
    ensures heard { IfOk result.0 (λ end. HearsTo (S.heard witness.old) (S.heard witness.new)
        (λ r r'. SessionSaved end.is_saved strict end.script r r' (W.contents writer.old)
        (W.contents writer.new) (D.state device) (D.state result.1)
        (S.glances witness.old) (S.glances witness.new)
        × ReadsTo end.script (C.failures reads.old) (C.failures reads.new) r r')) }
    ensures refused { IfErr result.0 (IsUnused reader.old reader.new writer.old writer.new
        (D.state device) (D.state result.1)) }
    ensures untouched { OnErr result.0 (IsUntouched (D.state device) (D.state result.1)) }
    ensures unseen { OnErr result.0 (witness.new ≡ witness.old) }
    ensures uncounted { OnErr result.0 ((reads.new ≡ reads.old) × (writes.new ≡ writes.old)) }
    ensures carries { Carries (D.state device) (D.state result.1) }
{
    match Fs::mount(alloc, device) {
        Ok(fs) => {
            let mut fs = fs;
            let script = run_noted(
                alloc, strict, reader, reads, writer, writes, witness, &mut fs,
            );
            let is_saved = fs.is_saved();
            (Ok(UseEnd { script, is_saved }), fs.into_device())
        }
        Err((fault, device)) => (Err(fault), device),
    }
}

/// As `use_volume_noted` on a device in memory, as its volume sees it. It stops then: `left` is what
/// it leaves of each sector that wasn't synced.
pub fn use_and_stop_noted<
    R: Read,
    W: Write,
    S: Witness<InVolume<MemDevice>, W>,
    C: CountsReads<R>,
    K: CountsWrites<W>,
>(
    alloc: Global,
    strict: bool,
    reader: &mut R,
    reads: &mut C,
    writer: &mut W,
    writes: &mut K,
    witness: &mut S,
    device: MemDevice,
    left: Left,
) -> (Result<StrictEnd, MountFault>, MemDevice)
    ensures ran { IfOk result.0 (λ end. SessionNoted strict end (R.remaining reader.old)
        (R.remaining reader.new) (W.contents writer.old) (W.contents writer.new)
        (in_volume device_state device device) (in_volume device_state device result.1)
        (S.glances witness.old) (S.glances witness.new)) }
    ensures reads { IfOk result.0 (λ end. ReadsTo end (C.failures reads.old)
        (C.failures reads.new) (R.remaining reader.old) (R.remaining reader.new)) }
    ensures writes { IfOk result.0 (λ end. WritesTo end (K.failures writes.old)
        (K.failures writes.new)) }
    ensures heard { IfOk result.0 (λ end. HearsTo (S.heard witness.old) (S.heard witness.new)
        (λ r r'. SessionNoted strict end r r' (W.contents writer.old) (W.contents writer.new)
        (in_volume device_state device device) (in_volume device_state device result.1)
        (S.glances witness.old) (S.glances witness.new)
        × ReadsTo end (C.failures reads.old) (C.failures reads.new) r r')) }
    ensures refused { IfErr result.0 (IsUnused reader.old reader.new writer.old writer.new
        (in_volume device_state device device) (in_volume device_state device result.1)) }
    ensures unseen { OnErr result.0 (witness.new ≡ witness.old) }
    ensures uncounted { OnErr result.0 ((reads.new ≡ reads.old) × (writes.new ≡ writes.old)) }
    ensures alone { Only (device_state result.1).content (device_state result.1) }
    ensures apart { OnOk result.0 (StaysApart (device_state device) (device_state result.1)) }
    ensures carries { Carries (in_volume device_state device device)
        (in_volume device_state device result.1) }
{
    match find_volume(device) {
        Ok(found) => {
            let (end, used) = use_volume_noted(
                alloc, strict, reader, reads, writer, writes, witness, found,
            );
            let mut stopped = used.into_inner();
            stopped.crash(left);
            match end {
                Ok(end) => (Ok(end.script), stopped),
                Err(fault) => (Err(fault), stopped),
            }
        }
        Err((fault, device)) => {
            let mut stopped = device;
            stopped.crash(left);
            (Err(fault), stopped)
        }
    }
}

/// As `use_each`, before a witness: in each use a stop at any moment since a reply went out leaves
/// every call of it that was acknowledged by then, and the next begins with what the last stop left.
pub fn use_each_noted<W: Write, S: Witness<InVolume<MemDevice>, W>>(
    alloc: Global,
    strict: bool,
    scripts: &[StoppedScript],
    writer: &mut W,
    witness: &mut S,
    device: MemDevice,
) -> (Result<(), MountFault>, MemDevice)
    ensures ran { OnOk result.0 (FromAny (in_volume device_state device)
        (W.contents writer.old) device (λ before.
        UsesInTurnNoted (in_volume device_state device) strict (texts_of scripts.now) before
        (W.contents writer.new) result.1 (S.glances witness.old) (S.glances witness.new))) }
    ensures stopped { IfErr result.0 (λ fault. FromAny (in_volume device_state device)
        (W.contents writer.old) device (λ before.
        StopsAtMountNoted (in_volume device_state device) strict (texts_of scripts.now) fault before
        (W.contents writer.new) result.1 (S.glances witness.old) (S.glances witness.new))) }
{
    let mut current = device;
    for script in scripts {
        let mut reader = script.script.as_slice();
        match use_and_stop_noted(
            alloc,
            strict,
            &mut reader,
            &mut ReadCount::new(),
            writer,
            &mut WriteCount::new(),
            witness,
            current,
            script.left,
        ) {
            (Ok(_), next) => current = next,
            (Err(fault), last) => return (Err(fault), last),
        }
    }
    (Ok(()), current)
}
