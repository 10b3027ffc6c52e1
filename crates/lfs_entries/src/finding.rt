//! A name looked up in a directory.
ghost use Rattle.std.specs.Prelude.{◌≤◌, length, IfOk, IfErr};
ghost use Rattle.lfs_model.specs.Tree.{name_len};
ghost use Rattle.lfs_path.specs.dirs.Finding.{value_of};
ghost use Rattle.lfs_entries.specs.Finding.{FindsName, FindsNumber, RefusesFind};
ghost use Rattle.lfs_entries.specs.Sizes.{IsSmall};
ghost use Rattle.lfs_entries.specs.Telling.{AsksOnly};

use crate::entry::Object;
use crate::fault::EntryFault;
use crate::sizes::is_too_large;
use lfs_files::{Files, Header, LogFault};
use lfs_model::FileNumber;
use lfs_path::dirs::{Found, find, longest_name};
use lfs_path::header_of;

/// The header of a directory, and what a name gives in it. How long the name may be, the
/// directory's form says.
///
/// # Errors
///
/// `NameTooLong`. `Log` where the log gives no answer: `Halted` once a write of the log failed,
/// `Device` where a call of the device failed, or the directory is none.
pub fn find_entry<F: Files>(
    files: &mut F,
    directory: FileNumber,
    name: &[u8],
) -> Result<(Header, Option<Found>), EntryFault>
    ensures only { AsksOnly (F.state files.old) (F.state files.new) result }
    ensures found { IfOk result (λ r. FindsNumber (F.state files.old) (F.state files.new)
        directory.value name.now r.0 (value_of r.1)) }
    ensures short { IfOk result (λ r. length name.now ≤ name_len r.0.form) }
    ensures refused { IfErr result (RefusesFind (F.state files.old) (F.state files.new)
        directory.value name.now) }
{
    let header = header_of(files, directory)?;
    let longest = longest_name(header.form);
    if name.len() > longest {
        return Err(EntryFault::NameTooLong);
    }
    let found = find(files, directory, header, name)?;
    Ok((header, found))
}

/// The same, where the name gives an object of which its inode tells.
///
/// # Errors
///
/// As those of `find_entry`; `Device` also where the directory has more bytes than one of a volume, or
/// the name gives no object.
pub fn find_object<F: Files>(
    files: &mut F,
    directory: FileNumber,
    name: &[u8],
) -> Result<(Header, Option<Object>), EntryFault>
    ensures only { AsksOnly (F.state files.old) (F.state files.new) result }
    ensures found { IfOk result (λ r. FindsName (F.state files.old) (F.state files.new)
        directory.value name.now r.0 r.1) }
    ensures size { IfOk result (λ r. IsSmall r.0) }
    ensures short { IfOk result (λ r. length name.now ≤ name_len r.0.form) }
    ensures refused { IfErr result (RefusesFind (F.state files.old) (F.state files.new)
        directory.value name.now) }
{
    let (holder, found) = find_entry(files, directory, name)?;
    // No volume has such a directory.
    if is_too_large(holder) {
        return Err(EntryFault::Log(LogFault::Device));
    }
    let Some(found) = found else {
        return Ok((holder, None));
    };
    let header = header_of(files, found.number)?;
    let object = Object {
        place: found.place,
        number: found.number,
        header,
    };
    Ok((holder, Some(object)))
}
