//! A directory drafted anew, with room for longer names.
ghost use Rattle.std.specs.Prelude.{IfErr, OnOk};
ghost use Rattle.lfs_path.specs.dirs.Widening.{CountsWidened, Widens};
ghost use Rattle.lfs_entries.specs.Telling.{DraftsOnly, FailsWhere};
ghost use Rattle.lfs_entries.specs.Widening.{MayWiden};

use crate::fault::EntryFault;
use crate::sizes::is_too_large;
use lfs_files::{Files, Header, LogFault};
use lfs_model::FileNumber;
use lfs_path::dirs::widen;
use std::alloc::Global;

/// Drafts a directory of this header in the form whose names have up to 123 bytes: it keeps its
/// names and the numbers that they give.
///
/// # Errors
///
/// `NoMemory`; `Log` where the log gives no answer: `Halted` once a write of the log failed,
/// `Device` where a call of the device failed, or the directory isn't as one of a volume. What the
/// draft holds then is of no use.
pub fn draft_wide<F: Files>(
    alloc: Global,
    files: &mut F,
    number: FileNumber,
    header: Header,
) -> Result<(), EntryFault>
    ensures only { DraftsOnly (F.state files.old) (F.state files.new) result }
    ensures done { OnOk result (Widens (F.state files.old) (F.state files.new) number.value
        header) }
    ensures counted { OnOk result (CountsWidened (F.state files.old) (F.state files.new)
        number.value header) }
    ensures failed { IfErr result (FailsWhere (F.state files.old) (F.state files.new)
        (MayWiden number.value header)) }
{
    if is_too_large(header) {
        // No directory of a volume is.
        return Err(EntryFault::Log(LogFault::Device));
    }
    widen(alloc, files, number, header)?;
    Ok(())
}
