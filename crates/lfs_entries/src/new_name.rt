//! New names drafted: of new objects, and of such that have one.
ghost use Rattle.std.specs.Prelude.{◌≡◌, ◌<◌, ◌+◌, true, IfErr, OnOk, if◌then◌else◌};
ghost use Rattle.lfs_model.specs.Slot.{IsName};
ghost use Rattle.lfs_model.specs.Tree.{name_len};
ghost use Rattle.lfs_path.specs.dirs.Growing.{GrowsDirectory};
ghost use Rattle.lfs_entries.specs.NewNames.{CountsEntry, CountsName, DraftsEntry, DraftsName};
ghost use Rattle.lfs_entries.specs.NewObjects.{IsGood, makes_directory, new_kind};
ghost use Rattle.lfs_entries.specs.Sizes.{TakesOneMore};
ghost use Rattle.lfs_entries.specs.Telling.{DraftsOnly, FailsAt};

use crate::drafting::relink_where;
use crate::fault::EntryFault;
use crate::new_object::{NewObject, draft_object};
use lfs_files::{Files, Header};
use lfs_model::FileNumber;
use lfs_model::limits::MOST_LINKS;
use lfs_path::dirs::add;

/// Drafts an object that isn't there, and its name in a directory, which gets a link for a
/// directory.
///
/// # Errors
///
/// `NoMemory`; `Log` where the log gives no answer. What the draft holds then is of no use.
pub fn draft_entry<F: Files>(
    files: &mut F,
    directory: FileNumber,
    holder: Header,
    number: FileNumber,
    object: NewObject<'_>,
    name: &[u8],
) -> Result<(), EntryFault>
    requires room { TakesOneMore holder }
    requires linked { makes_directory (new_kind object) ≡ true → holder.links < MOST_LINKS }
    requires text { IsGood (new_kind object) }
    requires name { IsName (name_len holder.form) name.now }
    ensures only { DraftsOnly (F.state files.old) (F.state files.new) result }
    ensures done { OnOk result (DraftsEntry (F.state files.old) (F.state files.new)
        directory.value holder number.value (new_kind object.entry) name.now) }
    ensures small { OnOk result (GrowsDirectory (F.state files.old) (F.state files.new) 4 4) }
    ensures counted { OnOk result (CountsEntry (F.state files.old) (F.state files.new)
        directory.value holder number.value (new_kind object.entry)) }
    ensures failed { IfErr result (FailsAt (F.state files.old) (F.state files.new)) }
{
    draft_object(files, number, object)?;
    let gains = is_new_directory(object);
    let links = links_beside(gains, holder.links);
    let linked = relink_where(files, gains, directory, holder, links)?;
    add(files, directory, linked, number, name)?;
    Ok(())
}

/// Drafts one link more of an object of this header, and then its name in a directory.
///
/// # Errors
///
/// As those of `draft_entry`.
pub fn draft_name<F: Files>(
    files: &mut F,
    directory: FileNumber,
    holder: Header,
    number: FileNumber,
    header: Header,
    name: &[u8],
) -> Result<(), EntryFault>
    requires room { TakesOneMore holder }
    requires linked { header.links < MOST_LINKS }
    requires name { IsName (name_len holder.form) name.now }
    ensures only { DraftsOnly (F.state files.old) (F.state files.new) result }
    ensures done { OnOk result (DraftsName (F.state files.old) (F.state files.new)
        directory.value holder number.value header name.now) }
    ensures small { OnOk result (GrowsDirectory (F.state files.old) (F.state files.new) 2 2) }
    ensures counted { OnOk result (CountsName (F.state files.old) (F.state files.new)
        number.value header) }
    ensures failed { IfErr result (FailsAt (F.state files.old) (F.state files.new)) }
{
    files.set_links(number, header, header.links + 1)?;
    add(files, directory, holder, number, name)?;
    Ok(())
}

/// Whether a new object is a directory.
fn is_new_directory(object: NewObject<'_>) -> bool
    ensures { result ≡ makes_directory (new_kind object.entry) }
{
    match object {
        NewObject::Directory(_) => true,
        NewObject::File | NewObject::Link(_) => false,
    }
}

/// The links of a directory that may get a directory more.
pub fn links_beside(gains: bool, links: u32) -> u32
    requires { gains ≡ true → links < MOST_LINKS }
    ensures { result ≡ (if gains then links + 1 else links) }
{
    if gains { links + 1 } else { links }
}
