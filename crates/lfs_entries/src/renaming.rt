//! What refuses an object another name.
ghost use Rattle.std.specs.Prelude.{◌≡◌, ◌≢◌, ◌&&◌, not, true, IfOk, IfErr, IsTrue, IsFalse};
ghost use Rattle.lfs_entries.specs.Entries.{is_directory as holds_names};
ghost use Rattle.lfs_entries.specs.Renaming.{FindsSource, FindsTarget, GivesName, HaveOneForm, IsAbove, IsNotAbove, RefusesNext, RefusesRename, RefusesSource, TakesRename};
ghost use Rattle.lfs_entries.specs.Telling.{AsksOnly};

use crate::entry::{Object, is_directory};
use crate::fault::EntryFault;
use crate::finding::find_object;
use crate::moving::{Source, Target};
use crate::replacing::check_target;
use lfs_files::{Files, LogFault};
use lfs_layout::is_name;
use lfs_model::{FileNumber, Kind};
use lfs_path::{Chain, Last};

/// What is to be moved, and where to: the last pieces of two paths, which stand in a directory, and
/// in that of a chain. Nothing is where both names give one object.
///
/// # Errors
///
/// In this order: of the first `NameTooLong`, `NoEntry`, `NotDir` where a slash follows the name of
/// what is no directory; of the second `NameTooLong`, `NotDir` where a slash follows it and the
/// object is no directory. Then `Inval` where the object is the directory that is to have it, or
/// stands above it; `IsDir` and `NotDir` where one of the two objects is a directory; `NotEmpty`;
/// of another directory that gets a name more `DirFull`, and `TooManyLinks` where it has 1,000
/// links and gets a directory. `Log` where the log gives no answer.
pub fn check_rename<'a, F: Files>(
    files: &mut F,
    directory: FileNumber,
    from: Last<'a>,
    chain: Chain,
    to: Last<'a>,
) -> Result<Option<(Source<'a>, Target<'a>)>, EntryFault>
    ensures only { AsksOnly (F.state files.old) (F.state files.new) result }
    ensures taken { IfOk result (TakesRename (F.state files.old) (F.state files.new)
        directory.value from.entry.name.now from.entry.slash chain to.entry.name.now
        to.entry.slash) }
    ensures refused { IfErr result (RefusesRename (F.state files.old) (F.state files.new)
        directory.value from.entry.name.now from.entry.slash chain to.entry.name.now
        to.entry.slash) }
{
    let source = find_source(files, directory, from)?;
    let target = find_target(files, chain.directory(), to, source.object.header.kind)?;
    // A directory has one form.
    if has_two_forms(source, target) {
        return Err(EntryFault::Log(LogFault::Device));
    }
    if is_object(target.replaced, source.object.number) {
        return Ok(None);
    }
    if stands_in(chain, source.object.number) {
        return Err(EntryFault::Inval);
    }
    check_target(source, target)?;
    Ok(Some((source, target)))
}

/// What is to get another name.
fn find_source<'a, F: Files>(
    files: &mut F,
    directory: FileNumber,
    last: Last<'a>,
) -> Result<Source<'a>, EntryFault>
    ensures only { AsksOnly (F.state files.old) (F.state files.new) result }
    ensures found { IfOk result (FindsSource (F.state files.old) (F.state files.new)
        directory.value last.entry.name.now last.entry.slash) }
    ensures refused { IfErr result (RefusesSource (F.state files.old) (F.state files.new)
        directory.value last.entry.name.now last.entry.slash) }
{
    let (holder, found) = find_object(files, directory, last.name)?;
    let Some(object) = found else {
        return Err(EntryFault::NoEntry);
    };
    if lacks_directory(last.slash, object.header.kind) {
        return Err(EntryFault::NotDir);
    }
    // A directory has two links, and three with another in it.
    if holder.links < 2 {
        return Err(EntryFault::Log(LogFault::Device));
    }
    Ok(Source {
        directory,
        holder,
        name: last.name,
        object,
    })
}

/// What has the name that an object of this kind is to get.
fn find_target<'a, F: Files>(
    files: &mut F,
    directory: FileNumber,
    last: Last<'a>,
    kind: Kind,
) -> Result<Target<'a>, EntryFault>
    ensures only { AsksOnly (F.state files.old) (F.state files.new) result }
    ensures found { IfOk result (FindsTarget (F.state files.old) (F.state files.new)
        directory.value last.entry.name.now last.entry.slash kind) }
    ensures refused { IfErr result (RefusesNext (F.state files.old) (F.state files.new)
        directory.value last.entry.name.now last.entry.slash kind) }
{
    let (holder, replaced) = find_object(files, directory, last.name)?;
    // The pieces of a path without a zero byte are names.
    if !is_name(holder.form, last.name) {
        return Err(EntryFault::Log(LogFault::Device));
    }
    if lacks_directory(last.slash, kind) {
        return Err(EntryFault::NotDir);
    }
    Ok(Target {
        directory,
        holder,
        name: last.name,
        replaced,
    })
}

/// Whether a slash asks for a directory, where none is.
fn lacks_directory(slash: bool, kind: Kind) -> bool
    ensures { result ≡ (slash && not (holds_names kind)) }
{
    slash && !is_directory(kind)
}

/// Whether one directory was read with two forms.
fn has_two_forms(source: Source<'_>, target: Target<'_>) -> bool
    ensures two { IsTrue result → (source.entry.directory.value ≡ target.entry.directory.value)
        × (source.entry.holder.form ≢ target.entry.holder.form) }
    ensures one { IsFalse result → HaveOneForm source.entry target.entry }
{
    if source.directory.value != target.directory.value {
        return false;
    }
    source.holder.form != target.holder.form
}

/// Whether an object of this number was found.
fn is_object(found: Option<Object>, number: FileNumber) -> bool
    ensures { result ≡ GivesName found number.value }
{
    match found {
        Some(object) => object.number.value == number.value,
        None => false,
    }
}

/// Whether an object is the directory of a chain, or stands above it.
fn stands_in(mut chain: Chain, number: FileNumber) -> bool
    ensures above { IsTrue result → IsAbove chain number.value }
    ensures apart { IsFalse result → IsNotAbove chain number.value }
{
    let mut directory = chain.directory();
    while directory.value != number.value {
        chain.ascend();
        let above = chain.directory();
        // Only the root stays where it is.
        if above.value == directory.value {
            return false;
        }
        directory = above;
    }
    true
}
