//! The rules of what an object may replace, and of a directory that gets it.
ghost use Rattle.std.specs.Prelude.{IfErr, OnOk};
ghost use Rattle.lfs_entries.specs.Replacing.{FitsReplaced, TakesMoved, FitsTarget, RefusesReplaced, RefusesFull, RefusesTarget};

use crate::entry::is_directory;
use crate::fault::EntryFault;
use crate::moving::{Source, Target};
use crate::sizes::is_full;
use lfs_files::Header;
use lfs_model::Kind;
use lfs_model::limits::MOST_LINKS;

/// The rule of what an object replaces under its new name, or of a new entry.
pub fn check_target(source: Source<'_>, target: Target<'_>) -> Result<(), EntryFault>
    ensures taken { OnOk result (FitsTarget source.entry target.entry) }
    ensures refused { IfErr result (RefusesTarget source.entry target.entry) }
{
    match target.replaced {
        Some(object) => check_replaced(source.object.header.kind, object.header),
        None => {
            if source.directory.value == target.directory.value {
                return Ok(());
            }
            check_full(source.object.header.kind, target.holder)
        }
    }
}

/// The rule of what an object of this kind replaces.
fn check_replaced(kind: Kind, replaced: Header) -> Result<(), EntryFault>
    ensures taken { OnOk result (FitsReplaced kind replaced) }
    ensures refused { IfErr result (RefusesReplaced kind replaced) }
{
    if is_directory(replaced.kind) {
        if !is_directory(kind) {
            return Err(EntryFault::IsDir);
        }
        if replaced.size > 0 {
            return Err(EntryFault::NotEmpty);
        }
        return Ok(());
    }
    if is_directory(kind) {
        return Err(EntryFault::NotDir);
    }
    Ok(())
}

/// The rule of a directory that gets an object of this kind.
fn check_full(kind: Kind, holder: Header) -> Result<(), EntryFault>
    ensures taken { OnOk result (TakesMoved kind holder) }
    ensures refused { IfErr result (RefusesFull kind holder) }
{
    if is_full(holder) {
        return Err(EntryFault::DirFull);
    }
    if is_directory(kind) {
        if holder.links >= MOST_LINKS {
            return Err(EntryFault::TooManyLinks);
        }
    }
    Ok(())
}
