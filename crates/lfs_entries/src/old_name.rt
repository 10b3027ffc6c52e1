//! Names drafted away, with a link of what they give.
ghost use Rattle.std.specs.Prelude.{◌≡◌, ◌≤◌, ◌<◌, ◌-◌, true, IfErr, OnOk, if◌then◌else◌};
ghost use Rattle.lfs_path.specs.dirs.Growing.{GrowsDirectory};
ghost use Rattle.lfs_entries.specs.Entries.{is_directory as holds_names};
ghost use Rattle.lfs_entries.specs.OldNames.{CountsDrop, CountsLoss, DraftsDrop, HasOld, Loses, stays};
ghost use Rattle.lfs_entries.specs.Sizes.{IsSmall};
ghost use Rattle.lfs_entries.specs.Telling.{DraftsOnly, FailsAt, FailsWhere};

use crate::drafting::{relink_where, take_name};
use crate::entry::{Entry, is_directory};
use crate::fault::EntryFault;
use lfs_files::{Files, Header};
use lfs_model::FileNumber;

/// Drafts a name away that is there, and with it a link of its object: without one it goes, unless
/// it is open. A directory goes, and the one that had it has a link less.
///
/// # Errors
///
/// `NoMemory`; `Log` where the log gives no answer. What the draft holds then is of no use.
pub fn drop_entry<F: Files>(
    files: &mut F,
    directory: FileNumber,
    entry: Entry,
    name: &[u8],
    is_open: bool,
) -> Result<(), EntryFault>
    requires size { IsSmall entry.holder }
    requires linked { holds_names entry.object.header.kind ≡ true → 2 ≤ entry.holder.links }
    requires empty { (F.state files.old).empty }
    ensures only { DraftsOnly (F.state files.old) (F.state files.new) result }
    ensures done { OnOk result (DraftsDrop (F.state files.old) (F.state files.new)
        directory.value entry is_open name.now) }
    ensures small { OnOk result (GrowsDirectory (F.state files.old) (F.state files.new) 4 2) }
    ensures counted { OnOk result (CountsDrop (F.state files.old) (F.state files.new)
        directory.value entry) }
    ensures failed { IfErr result (FailsWhere (F.state files.old) (F.state files.new)
        (HasOld directory.value entry name.now)) }
{
    let object = entry.object;
    lose_link(files, object.number, object.header, is_open)?;
    let loses = is_directory(object.header.kind);
    let links = links_without(loses, entry.holder.links);
    let holder = relink_where(files, loses, directory, entry.holder, links)?;
    take_name(files, directory, holder, name, object.place)
}

/// Drafts a link less for an object of this header: without one it goes, unless it is open. A
/// directory goes.
///
/// # Errors
///
/// As those of `drop_entry`.
pub fn lose_link<F: Files>(
    files: &mut F,
    number: FileNumber,
    header: Header,
    is_open: bool,
) -> Result<(), EntryFault>
    requires empty { (F.state files.old).empty }
    ensures only { DraftsOnly (F.state files.old) (F.state files.new) result }
    ensures done { OnOk result (Loses (F.state files.old) (F.state files.new) number.value header
        (stays header is_open)) }
    ensures small { OnOk result (GrowsDirectory (F.state files.old) (F.state files.new) 1 0) }
    ensures counted { OnOk result (CountsLoss (F.state files.old) (F.state files.new)
        number.value header) }
    ensures failed { IfErr result (FailsAt (F.state files.old) (F.state files.new)) }
{
    if keeps_object(header, is_open) {
        files.set_links(number, header, header.links.saturating_sub(1))?;
        return Ok(());
    }
    files.remove(number)?;
    Ok(())
}

/// Whether an object that loses a link stays.
fn keeps_object(header: Header, is_open: bool) -> bool
    ensures { result ≡ stays header is_open }
{
    !is_directory(header.kind) && (header.links > 1 || is_open)
}

/// The links of a directory that may have a directory less.
pub fn links_without(loses: bool, links: u32) -> u32
    ensures { result ≡ (if loses then links - 1 else links) }
{
    if loses {
        links.saturating_sub(1)
    } else {
        links
    }
}
