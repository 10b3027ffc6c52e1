//! Objects drafted before they have a name.
ghost use Rattle.std.specs.Prelude.{◌≡◌, None, IfErr, OnOk};
ghost use Rattle.lfs_model.specs.PathText.{text_refusal};
ghost use Rattle.lfs_path.specs.dirs.Growing.{GrowsDirectory};
ghost use Rattle.lfs_entries.specs.NewObjects.{CountsObject, DraftsObject, IsGood, makes_directory, new_kind, new_link};
ghost use Rattle.lfs_entries.specs.Telling.{DraftsOnly, FailsAt};

use crate::fault::EntryFault;
use lfs_files::{FIRST_FORM, Files, Header};
use lfs_model::{FileNumber, Kind};

/// What a new object is.
#[derive(Clone, Copy)]
pub enum NewObject<'a> {
    /// A file without a byte.
    File,
    /// A directory of this form, without an entry.
    Directory(u8),
    /// A symbolic link with this text.
    Link(&'a [u8]),
}

/// Drafts an object without a name.
///
/// # Errors
///
/// `NoMemory`; `Log` where the log gives no answer. What the draft holds then is of no use.
pub fn draft_object<F: Files>(
    files: &mut F,
    number: FileNumber,
    object: NewObject<'_>,
) -> Result<(), EntryFault>
    requires text { IsGood (new_kind object) }
    ensures only { DraftsOnly (F.state files.old) (F.state files.new) result }
    ensures done { OnOk result (DraftsObject (F.state files.old) (F.state files.new)
        number.value (new_kind object.entry)) }
    ensures small { OnOk result (GrowsDirectory (F.state files.old) (F.state files.new) 2 2) }
    ensures counted { OnOk result (CountsObject (F.state files.old) (F.state files.new)
        number.value) }
    ensures failed { IfErr result (FailsAt (F.state files.old) (F.state files.new)) }
{
    match object {
        NewObject::File => {
            files.create(number, Kind::File, FIRST_FORM)?;
            Ok(())
        }
        NewObject::Directory(form) => {
            files.create(number, Kind::Directory, form)?;
            Ok(())
        }
        NewObject::Link(text) => draft_link(files, number, text),
    }
}

/// Drafts a link with its text, without a name.
fn draft_link<F: Files>(files: &mut F, number: FileNumber, text: &[u8]) -> Result<(), EntryFault>
    requires good { text_refusal text.now ≡ None }
    ensures only { DraftsOnly (F.state files.old) (F.state files.new) result }
    ensures done { OnOk result (DraftsObject (F.state files.old) (F.state files.new)
        number.value (new_link text.now)) }
    ensures small { OnOk result (GrowsDirectory (F.state files.old) (F.state files.new) 2 2) }
    ensures counted { OnOk result (CountsObject (F.state files.old) (F.state files.new)
        number.value) }
    ensures failed { IfErr result (FailsAt (F.state files.old) (F.state files.new)) }
{
    let size = text.len() as u32;
    files.create_link(number, size)?;
    let header = Header {
        kind: Kind::Link,
        form: FIRST_FORM,
        links: 1,
        size,
    };
    files.write_at(number, header, 0, text)?;
    Ok(())
}
