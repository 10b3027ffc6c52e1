//! The rules of entries that are to go, or to get a further name.
ghost use Rattle.std.specs.Prelude.{IfOk, IfErr};
ghost use Rattle.lfs_entries.specs.OldEntries.{HasEmpty, HasEntry, RefusesEmpty, RefusesOld};
ghost use Rattle.lfs_entries.specs.Telling.{AsksOnly};

use crate::entry::{Entry, is_directory};
use crate::fault::EntryFault;
use crate::finding::find_object;
use lfs_files::{Files, LogFault};
use lfs_model::FileNumber;
use lfs_path::Last;
use lfs_path::text::is_dots;

/// The least links of a directory that has a directory: 2, and one for it.
const LEAST_LINKS: u32 = 3;

/// The rule of an old entry of a directory, which it gives, as unlink takes one, and link its
/// first.
///
/// # Errors
///
/// In this order: `Perm` for dot and dot-dot; `NameTooLong`; `NoEntry`; `Perm` for a directory;
/// `NotDir` where a slash follows the name of what is none. `Log` where the log gives no answer.
pub fn check_old_entry<F: Files>(
    files: &mut F,
    directory: FileNumber,
    last: Last<'_>,
) -> Result<Entry, EntryFault>
    ensures only { AsksOnly (F.state files.old) (F.state files.new) result }
    ensures has { IfOk result (HasEntry (F.state files.old) (F.state files.new)
        directory.value last.entry.name.now last.entry.slash) }
    ensures refused { IfErr result (RefusesOld (F.state files.old) (F.state files.new)
        directory.value last.entry.name.now last.entry.slash) }
{
    if is_dots(last.name) {
        return Err(EntryFault::Perm);
    }
    let (holder, found) = find_object(files, directory, last.name)?;
    let Some(object) = found else {
        return Err(EntryFault::NoEntry);
    };
    if is_directory(object.header.kind) {
        return Err(EntryFault::Perm);
    }
    if last.slash {
        return Err(EntryFault::NotDir);
    }
    Ok(Entry { holder, object })
}

/// The rule of a directory that is to go, as rmdir takes one, which it gives.
///
/// # Errors
///
/// In this order: `Inval` for dot and dot-dot; `NameTooLong`; `NoEntry`; `NotDir`; `NotEmpty`.
/// `Log` where the log gives no answer; `Device` also where the directory that has it has fewer
/// links than one of a volume.
pub fn check_empty<F: Files>(
    files: &mut F,
    directory: FileNumber,
    name: &[u8],
) -> Result<Entry, EntryFault>
    ensures only { AsksOnly (F.state files.old) (F.state files.new) result }
    ensures has { IfOk result (HasEmpty (F.state files.old) (F.state files.new)
        directory.value name.now) }
    ensures refused { IfErr result (RefusesEmpty (F.state files.old) (F.state files.new)
        directory.value name.now) }
{
    if is_dots(name) {
        return Err(EntryFault::Inval);
    }
    let (holder, found) = find_object(files, directory, name)?;
    let Some(object) = found else {
        return Err(EntryFault::NoEntry);
    };
    if !is_directory(object.header.kind) {
        return Err(EntryFault::NotDir);
    }
    if object.header.size > 0 {
        return Err(EntryFault::NotEmpty);
    }
    // No volume has so few links to a directory that has one.
    if holder.links < LEAST_LINKS {
        return Err(EntryFault::Log(LogFault::Device));
    }
    Ok(Entry { holder, object })
}
