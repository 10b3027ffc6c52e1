//! A name drafted in another's place.
ghost use Rattle.std.specs.Prelude.{◌≡◌, ◌==◌, None, IfOk, IfErr, OnOk, if◌then◌else◌};
ghost use Rattle.lfs_model.specs.Slot.{IsName};
ghost use Rattle.lfs_model.specs.Tree.{name_len};
ghost use Rattle.lfs_files.specs.Files.{Counts, Redrafts};
ghost use Rattle.lfs_path.specs.dirs.Growing.{GrowsDirectory};
ghost use Rattle.lfs_path.specs.dirs.Repointing.{Repoints};
ghost use Rattle.lfs_path.specs.dirs.Taking.{shrunk};
ghost use Rattle.lfs_entries.specs.Drafting.{HasNamed};
ghost use Rattle.lfs_entries.specs.Moving.{CountsMove, DraftsMove, HasFoundName, HasNames, LosesFound, MayMove, NamesFound, RelinksBoth, first_holder, gains_directory as gains_of, loses_directory as loses_of, second_linked};
ghost use Rattle.lfs_entries.specs.Sizes.{TakesOneMore, IsSmall};
ghost use Rattle.lfs_entries.specs.Telling.{DraftsOnly, FailsAt, FailsWhere};

use crate::drafting::{relink_where, take_name};
use crate::entry::{Object, is_directory};
use crate::fault::EntryFault;
use crate::new_name::links_beside;
use crate::old_name::{links_without, lose_link};
use lfs_files::{Files, Header, LogFault};
use lfs_layout::slot_len;
use lfs_model::FileNumber;
use lfs_path::dirs::{add, repoint};

/// A name of an object, which is to go.
#[derive(Clone, Copy)]
pub struct Source<'a> {
    pub directory: FileNumber,
    /// The directory's header.
    pub holder: Header,
    pub name: &'a [u8],
    pub object: Object,
}

/// A name that is to give it, and what that gives.
#[derive(Clone, Copy)]
pub struct Target<'a> {
    pub directory: FileNumber,
    /// The directory's header.
    pub holder: Header,
    pub name: &'a [u8],
    pub replaced: Option<Object>,
}

/// Drafts another name of an object. What it replaces goes first, since a draft's loss is its first
/// change: without a link it goes, unless it is open.
///
/// # Errors
///
/// `NoMemory`; `Log` where the log gives no answer. What the draft holds then is of no use.
pub fn draft_move<F: Files>(
    files: &mut F,
    source: Source<'_>,
    target: Target<'_>,
    is_open: bool,
) -> Result<(), EntryFault>
    requires may { MayMove source target }
    requires empty { (F.state files.old).empty }
    ensures only { DraftsOnly (F.state files.old) (F.state files.new) result }
    ensures done { OnOk result (DraftsMove (F.state files.old) (F.state files.new)
        source.entry target.entry is_open) }
    ensures small { OnOk result (GrowsDirectory (F.state files.old) (F.state files.new) 6 4) }
    ensures counted { OnOk result (CountsMove (F.state files.old) (F.state files.new)
        source.entry target.entry) }
    ensures failed { IfErr result (FailsWhere (F.state files.old) (F.state files.new)
        (HasNames source.entry target.entry)) }
{
    drop_replaced(files, target.replaced, is_open)?;
    let (from, to) = relink_holders(files, source, target)?;
    take_name(
        files,
        source.directory,
        from,
        source.name,
        source.object.place,
    )?;
    let holder = later_holder(source.directory, target.directory, from, to);
    draft_target(files, target, holder, source.object.number)
}

/// Drafts a link less for what is replaced, if anything is.
fn drop_replaced<F: Files>(
    files: &mut F,
    replaced: Option<Object>,
    is_open: bool,
) -> Result<(), EntryFault>
    requires empty { (F.state files.old).empty }
    ensures only { DraftsOnly (F.state files.old) (F.state files.new) result }
    ensures done { OnOk result (LosesFound (F.state files.old) (F.state files.new) replaced
        is_open) }
    ensures small { OnOk result (GrowsDirectory (F.state files.old) (F.state files.new) 1 0) }
    ensures failed { IfErr result (FailsAt (F.state files.old) (F.state files.new)) }
{
    match replaced {
        None => Ok(()),
        Some(object) => lose_link(files, object.number, object.header, is_open),
    }
}

/// Drafts the links of both directories, and gives their headers.
fn relink_holders<F: Files>(
    files: &mut F,
    source: Source<'_>,
    target: Target<'_>,
) -> Result<(Header, Header), EntryFault>
    requires may { MayMove source target }
    ensures redrafts { Redrafts (F.state files.old) (F.state files.new) }
    ensures first { IfOk result (λ r. r.0 ≡ first_holder source.entry target.entry) }
    ensures second { IfOk result (λ r. r.1 ≡ second_linked source.entry target.entry) }
    ensures done { IfOk result (λ r. RelinksBoth (F.state files.old) (F.state files.new)
        source.entry target.entry) }
    ensures small { IfOk result (λ r. GrowsDirectory (F.state files.old) (F.state files.new) 2 0) }
    ensures failed { IfErr result (λ fault. fault ≡ EntryFault.NoMemory) }
{
    let loses = loses_directory(source, target);
    let fewer = links_without(loses, source.holder.links);
    let from = relink_where(files, loses, source.directory, source.holder, fewer)?;
    let gains = gains_directory(source, target);
    let more = links_beside(gains, target.holder.links);
    let to = relink_where(files, gains, target.directory, target.holder, more)?;
    Ok((from, to))
}

/// Drafts a name that gives this number, in a directory of this header: one more, or in place of
/// one that is there.
fn draft_target<F: Files>(
    files: &mut F,
    target: Target<'_>,
    holder: Header,
    number: FileNumber,
) -> Result<(), EntryFault>
    requires size { IsSmall holder }
    requires room { target.replaced ≡ None → TakesOneMore holder }
    requires name { IsName (name_len holder.form) target.name.now }
    ensures only { DraftsOnly (F.state files.old) (F.state files.new) result }
    ensures done { OnOk result (NamesFound (F.state files.old) (F.state files.new)
        target.entry.replaced target.entry.directory.value holder number.value
        target.entry.name.now) }
    ensures small { OnOk result (GrowsDirectory (F.state files.old) (F.state files.new) 1 2) }
    ensures counted { OnOk result (Counts (F.state files.old) (F.state files.new)) }
    ensures failed { IfErr result (FailsWhere (F.state files.old) (F.state files.new)
        (HasFoundName target.entry.replaced target.entry.directory.value holder
        target.entry.name.now)) }
{
    match target.replaced {
        None => {
            add(files, target.directory, holder, number, target.name)?;
            Ok(())
        }
        Some(object) => {
            repoint_name(
                files,
                target.directory,
                holder,
                number,
                target.name,
                object.place,
            )
        }
    }
}

/// Drafts another number for a name that is there, near this place.
fn repoint_name<F: Files>(
    files: &mut F,
    directory: FileNumber,
    holder: Header,
    number: FileNumber,
    name: &[u8],
    place: u32,
) -> Result<(), EntryFault>
    requires size { IsSmall holder }
    requires name { IsName (name_len holder.form) name.now }
    ensures only { DraftsOnly (F.state files.old) (F.state files.new) result }
    ensures done { OnOk result (Repoints (F.state files.old) (F.state files.new) directory.value
        holder number.value name.now) }
    ensures small { OnOk result (GrowsDirectory (F.state files.old) (F.state files.new) 1 2) }
    ensures counted { OnOk result (Counts (F.state files.old) (F.state files.new)) }
    ensures failed { IfErr result (FailsWhere (F.state files.old) (F.state files.new)
        (HasNamed directory.value holder name.now)) }
{
    let found = repoint(files, directory, holder, name, place, number)?;
    if !found {
        // The directory has the name.
        return Err(EntryFault::Log(LogFault::Device));
    }
    Ok(())
}

/// Whether the first directory has a directory less: one goes to another directory, or takes the
/// place of one.
fn loses_directory(source: Source<'_>, target: Target<'_>) -> bool
    ensures { result ≡ loses_of source.entry target.entry }
{
    is_directory(source.object.header.kind)
        && (source.directory.value != target.directory.value || target.replaced.is_some())
}

/// Whether the second directory has a directory more.
fn gains_directory(source: Source<'_>, target: Target<'_>) -> bool
    ensures { result ≡ gains_of source.entry target.entry }
{
    is_directory(source.object.header.kind)
        && (source.directory.value != target.directory.value && target.replaced.is_none())
}

/// The header of the second directory behind the loss of a name: where it is the first, it is a
/// slot shorter.
fn later_holder(first: FileNumber, second: FileNumber, from: Header, to: Header) -> Header
    ensures { result ≡ (if first.value == second.value then shrunk from else to) }
{
    if first.value == second.value {
        shorter(from)
    } else {
        to
    }
}

/// The header of a directory that has a slot less.
fn shorter(header: Header) -> Header
    ensures { result ≡ shrunk header }
{
    Header {
        kind: header.kind,
        form: header.form,
        links: header.links,
        size: header.size.saturating_sub(slot_len(header.form)),
    }
}
