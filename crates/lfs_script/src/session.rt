// Whole uses of a volume.
ghost use Rattle.std.specs.Prelude.{IfOk, IfErr, OnOk, OnErr};
ghost use Rattle.lfs_model.specs.Device.{Carries, IsUntouched, Only};
ghost use Rattle.lfs_device.specs.MemoryDevice.{device_state};
ghost use Rattle.lfs_volume.specs.FindingLaws.{StaysApart};
ghost use Rattle.lfs_volume.specs.Standing.{in_volume};
ghost use Rattle.lfs_fs.specs.log.Mounting.{HasWholeUnits};
ghost use Rattle.lfs_script.specs.Series.{FromAny, StopsAtMount, UsesInTurn, texts_of};
ghost use Rattle.lfs_script.specs.Session.{Session};
ghost use Rattle.lfs_script.specs.Unused.{IsUnused};

use crate::script::{ScriptEnd, run};
use lfs_device::{Left, MemDevice, SectorDevice};
use lfs_fs::{Fs, MountFault, find_volume};
use std::alloc::Global;
use std::io::{Read, Write};

/// Mounts what a stop may have left, runs a script on it, and gives the device back. What wasn't
/// saved is gone. The units of the device lie within those of its volume: `find_volume` gives any
/// device as such a one.
pub fn use_volume<R: Read, W: Write, D: SectorDevice>(
    alloc: Global,
    reader: &mut R,
    writer: &mut W,
    device: D,
) -> (Result<ScriptEnd, MountFault>, D)
    requires { HasWholeUnits (D.state device) }
    ensures ran { IfOk result.0 (λ end. Session end (R.remaining reader.old)
        (R.remaining reader.new) (W.contents writer.old) (W.contents writer.new)
        (D.state device) (D.state result.1)) }
    ensures refused { IfErr result.0 (IsUnused reader.old reader.new writer.old writer.new
        (D.state device) (D.state result.1)) }
    ensures untouched { OnErr result.0 (IsUntouched (D.state device) (D.state result.1)) }
    ensures carries { Carries (D.state device) (D.state result.1) }
{
    match Fs::mount(alloc, device) {
        Ok(fs) => {
            let mut fs = fs;
            let end = run(alloc, reader, writer, &mut fs);
            (Ok(end), fs.into_device())
        }
        Err((fault, device)) => (Err(fault), device),
    }
}

/// As `use_volume` on a device in memory, as its volume sees it. It stops then: `left` is what it
/// leaves of each sector that wasn't synced.
pub fn use_and_stop<R: Read, W: Write>(
    alloc: Global,
    reader: &mut R,
    writer: &mut W,
    device: MemDevice,
    left: Left,
) -> (Result<ScriptEnd, MountFault>, MemDevice)
    ensures ran { IfOk result.0 (λ end. Session end (R.remaining reader.old)
        (R.remaining reader.new) (W.contents writer.old) (W.contents writer.new)
        (in_volume device_state device device) (in_volume device_state device result.1)) }
    ensures refused { IfErr result.0 (IsUnused reader.old reader.new writer.old writer.new
        (in_volume device_state device device) (in_volume device_state device result.1)) }
    ensures alone { Only (device_state result.1).content (device_state result.1) }
    ensures apart { OnOk result.0 (StaysApart (device_state device) (device_state result.1)) }
    ensures carries { Carries (in_volume device_state device device)
        (in_volume device_state device result.1) }
{
    match find_volume(device) {
        Ok(found) => {
            let (end, used) = use_volume(alloc, reader, writer, found);
            let mut stopped = used.into_inner();
            stopped.crash(left);
            (end, stopped)
        }
        Err((fault, device)) => {
            let mut stopped = device;
            stopped.crash(left);
            (Err(fault), stopped)
        }
    }
}

/// A script, and what the stop at its end leaves of each sector that wasn't synced.
#[derive(Drop)]
pub struct StoppedScript {
    pub script: Vec<u8>,
    pub left: Left,
}

/// Uses a volume by each of the scripts in turn, on what the stop before it left: a volume at the
/// places and of the units of the first. The first mount that fails is the last.
pub fn use_each<W: Write>(
    alloc: Global,
    scripts: &[StoppedScript],
    writer: &mut W,
    device: MemDevice,
) -> (Result<(), MountFault>, MemDevice)
    ensures ran { OnOk result.0 (FromAny (in_volume device_state device)
        (W.contents writer.old) device (λ before.
        UsesInTurn (in_volume device_state device) (texts_of scripts.now) before
        (W.contents writer.new) result.1)) }
    ensures stopped { IfErr result.0 (λ fault. FromAny (in_volume device_state device)
        (W.contents writer.old) device (λ before.
        StopsAtMount (in_volume device_state device) (texts_of scripts.now) fault before
        (W.contents writer.new) result.1)) }
{
    let mut current = device;
    for script in scripts {
        let mut reader = script.script.as_slice();
        match use_and_stop(alloc, &mut reader, writer, current, script.left) {
            (Ok(_), next) => current = next,
            (Err(fault), last) => return (Err(fault), last),
        }
    }
    (Ok(()), current)
}
