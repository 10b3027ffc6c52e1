// A whole use of a volume by a script that ends at the first refusal.
ghost use Rattle.std.specs.Prelude.{IfOk, IfErr, OnErr};
ghost use Rattle.lfs_model.specs.Device.{Carries, IsUntouched};
ghost use Rattle.lfs_fs.specs.log.Mounting.{HasWholeUnits};
ghost use Rattle.lfs_script.specs.Strict.{StrictSession};
ghost use Rattle.lfs_script.specs.Unused.{IsUnused};

use crate::script::{StrictEnd, run_strict};
use lfs_device::SectorDevice;
use lfs_fs::{Fs, MountFault};
use std::alloc::Global;
use std::io::{Read, Write};

/// As `use_volume`, by a strict run of the script.
pub fn use_volume_strict<R: Read, W: Write, D: SectorDevice>(
    alloc: Global,
    reader: &mut R,
    writer: &mut W,
    device: D,
) -> (Result<StrictEnd, MountFault>, D)
    requires { HasWholeUnits (D.state device) }
    ensures ran { IfOk result.0 (λ end. StrictSession end (R.remaining reader.old)
        (R.remaining reader.new) (W.contents writer.old) (W.contents writer.new)
        (D.state device) (D.state result.1)) }
    ensures refused { IfErr result.0 (IsUnused reader.old reader.new writer.old writer.new
        (D.state device) (D.state result.1)) }
    ensures untouched { OnErr result.0 (IsUntouched (D.state device) (D.state result.1)) }
    ensures carries { Carries (D.state device) (D.state result.1) }
{
    match Fs::mount(alloc, device) {
        Ok(fs) => {
            let mut fs = fs;
            let end = run_strict(alloc, reader, writer, &mut fs);
            (Ok(end), fs.into_device())
        }
        Err((fault, device)) => (Err(fault), device),
    }
}
