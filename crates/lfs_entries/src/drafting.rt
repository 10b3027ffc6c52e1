//! Names, and links of what has them, drafted.
ghost use Rattle.std.specs.Prelude.{◌≡◌, ◌≤◌, ◌<◌, ◌+◌, true, false, IfOk, IfErr, OnOk};
ghost use Rattle.lfs_model.specs.Slot.{IsName};
ghost use Rattle.lfs_model.specs.Tree.{name_len};
ghost use Rattle.lfs_files.specs.Files.{Redrafts};
ghost use Rattle.lfs_files.specs.Headers.{relinked};
ghost use Rattle.lfs_files.specs.Making.{CountsRelinked};
ghost use Rattle.lfs_path.specs.dirs.Growing.{GrowsDirectory};
ghost use Rattle.lfs_path.specs.dirs.Taking.{CountsDropped, Takes};
ghost use Rattle.lfs_entries.specs.Drafting.{HasNamed, Relinks};
ghost use Rattle.lfs_entries.specs.Sizes.{IsSmall};
ghost use Rattle.lfs_entries.specs.Telling.{DraftsOnly, FailsAt, FailsWhere};

use crate::entry::with_links;
use crate::fault::EntryFault;
use lfs_files::{Files, Header, LogFault};
use lfs_model::FileNumber;
use lfs_path::dirs::take;

/// Drafts a name away that is there, near this place.
///
/// # Errors
///
/// `NoMemory`; `Log` where the log gives no answer. What the draft holds then is of no use.
pub fn take_name<F: Files>(
    files: &mut F,
    directory: FileNumber,
    holder: Header,
    name: &[u8],
    place: u32,
) -> Result<(), EntryFault>
    requires size { IsSmall holder }
    ensures only { DraftsOnly (F.state files.old) (F.state files.new) result }
    ensures done { OnOk result (Takes (F.state files.old) (F.state files.new) directory.value holder
        name.now) }
    ensures counted { OnOk result (CountsDropped (F.state files.old) (F.state files.new)
        directory.value holder) }
    ensures failed { IfErr result (FailsWhere (F.state files.old) (F.state files.new)
        (HasNamed directory.value holder name.now)) }
{
    let found = take(files, directory, holder, name, place)?;
    if !found {
        // The directory has the name.
        return Err(EntryFault::Log(LogFault::Device));
    }
    Ok(())
}

/// Drafts other links of an object of this header, where they change, and gives its header.
///
/// # Errors
///
/// `NoMemory`. What the draft holds then is of no use.
pub fn relink_where<F: Files>(
    files: &mut F,
    changes: bool,
    number: FileNumber,
    header: Header,
    links: u32,
) -> Result<Header, EntryFault>
    requires linked { changes ≡ true → 0 < links }
    requires same { changes ≡ false → links ≡ header.links }
    ensures redrafts { Redrafts (F.state files.old) (F.state files.new) }
    ensures header { IfOk result (λ now. now ≡ relinked header links) }
    ensures done { IfOk result (λ now. Relinks (F.state files.old) (F.state files.new)
        changes number.value header links) }
    ensures small { IfOk result (λ now. GrowsDirectory (F.state files.old) (F.state files.new)
        1 0) }
    ensures failed { IfErr result (λ fault. fault ≡ EntryFault.NoMemory) }
{
    if !changes {
        return Ok(header);
    }
    files.set_links(number, header, links)?;
    Ok(with_links(header, links))
}
