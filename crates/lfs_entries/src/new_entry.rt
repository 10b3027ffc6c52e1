//! The rule of a new entry of a directory.
ghost use Rattle.std.specs.Prelude.{◌≡◌, ◌&&◌, not, IfOk, IfErr};
ghost use Rattle.lfs_entries.specs.NewEntries.{RefusesEntry, TakesEntry};
ghost use Rattle.lfs_entries.specs.Telling.{AsksOnly};

use crate::fault::EntryFault;
use crate::finding::find_entry;
use crate::sizes::is_full;
use lfs_files::{Files, Header};
use lfs_layout::is_name;
use lfs_model::FileNumber;
use lfs_path::Last;
use lfs_path::text::is_dots;

/// The rule of a new entry of a directory, whose header it gives. A slash may follow the name of a
/// directory that is to be made.
///
/// # Errors
///
/// In this order: `Exist` for dot and dot-dot; `NameTooLong`; `Inval` for what is no name; `Exist`
/// where the directory has the name; `NoEntry` where a slash follows it; `DirFull`. `Log` where the
/// log gives no answer.
pub fn check_new_entry<F: Files>(
    files: &mut F,
    directory: FileNumber,
    last: Last<'_>,
    is_mkdir: bool,
) -> Result<Header, EntryFault>
    ensures only { AsksOnly (F.state files.old) (F.state files.new) result }
    ensures taken { IfOk result (TakesEntry (F.state files.old) (F.state files.new)
        directory.value last.entry.name.now last.entry.slash is_mkdir) }
    ensures refused { IfErr result (RefusesEntry (F.state files.old) (F.state files.new)
        directory.value last.entry.name.now last.entry.slash is_mkdir) }
{
    if is_dots(last.name) {
        return Err(EntryFault::Exist);
    }
    let (header, found) = find_entry(files, directory, last.name)?;
    // The pieces of a path without a zero byte are names.
    if !is_name(header.form, last.name) {
        return Err(EntryFault::Inval);
    }
    if found.is_some() {
        return Err(EntryFault::Exist);
    }
    if refuses_slash(last.slash, is_mkdir) {
        return Err(EntryFault::NoEntry);
    }
    if is_full(header) {
        return Err(EntryFault::DirFull);
    }
    Ok(header)
}

/// Whether a slash behind a new name refuses it: it may follow that of a directory.
fn refuses_slash(slash: bool, is_mkdir: bool) -> bool
    ensures { result ≡ (slash && not is_mkdir) }
{
    slash && !is_mkdir
}
