//! The names of one directory, with what is told of their objects.
ghost use Rattle.std.specs.Prelude.{◌≡◌, ◌++◌, ◌∷◌, [], IfOk, IfErr, OnOk};
ghost use Rattle.lfs_path.specs.dirs.Directory.{names_at};
ghost use Rattle.lfs_path.specs.dirs.Listing.{pair, pairs};
ghost use Rattle.lfs_path.specs.Seeing.{HasObject};
ghost use Rattle.lfs_entries.specs.Rows.{AreThere, AreTold, IsListable, IsListed, IsRow};
ghost use Rattle.lfs_entries.specs.Telling.{AsksOnly, FailsWhere, InEach};

use crate::fault::EntryFault;
use crate::reading::read_head;
use crate::rows::{ListedEntry, TreeRow};
use lfs_files::{Files, Header};
use lfs_model::FileNumber;
use lfs_path::dirs::{Entry, list};
use lfs_path::header_of;
use std::alloc::Global;

/// The names in a directory of this header, with the objects that they give, in the order of the
/// names' bytes.
///
/// # Errors
///
/// `NoMemory`; `Log` where the log gives no answer: `Halted` once a write of the log failed,
/// `Device` where a call of the device failed, or the directory isn't as one of a volume.
pub fn list_entries<F: Files>(
    alloc: Global,
    files: &mut F,
    directory: FileNumber,
    header: Header,
) -> Result<Vec<ListedEntry>, EntryFault>
    ensures only { AsksOnly (F.state files.old) (F.state files.new) result }
    ensures answer { IfOk result (λ told. InEach (F.state files.old) (F.state files.new)
        (λ m. AreTold (IsListed m) (names_at m directory.value header) told.items)) }
    ensures failed { IfErr result (FailsWhere (F.state files.old) (F.state files.new)
        (IsListable directory.value header)) }
{
    let names = list(alloc, files, directory, header)?;
    entries_of(alloc, files, names)
}

/// The same with the beginning of each object.
///
/// # Errors
///
/// As those of `list_entries`.
pub fn list_rows<F: Files>(
    alloc: Global,
    files: &mut F,
    directory: FileNumber,
    header: Header,
) -> Result<Vec<TreeRow>, EntryFault>
    ensures only { AsksOnly (F.state files.old) (F.state files.new) result }
    ensures answer { IfOk result (λ told. InEach (F.state files.old) (F.state files.new)
        (λ m. AreTold (IsRow m directory.value) (names_at m directory.value header) told.items)) }
    ensures failed { IfErr result (FailsWhere (F.state files.old) (F.state files.new)
        (IsListable directory.value header)) }
{
    let names = list(alloc, files, directory, header)?;
    rows_of(alloc, files, directory, names)
}

/// The entries that names give.
fn entries_of<F: Files>(
    alloc: Global,
    files: &mut F,
    names: Vec<Entry>,
) -> Result<Vec<ListedEntry>, EntryFault>
    ensures only { AsksOnly (F.state files.old) (F.state files.new) result }
    ensures answer { IfOk result (λ told. InEach (F.state files.old) (F.state files.new)
        (λ m. AreTold (IsListed m) (pairs names.items) told.items)) }
    ensures failed { IfErr result (FailsWhere (F.state files.old) (F.state files.new)
        (AreThere (pairs names.items))) }
{
    let Ok(mut entries) = Vec::with_capacity(alloc, names.len()) else {
        return Err(EntryFault::NoMemory);
    };
    for name in names {
        push_entry(files, name, &mut entries)?;
    }
    Ok(entries)
}

/// The rows that names of a directory give.
fn rows_of<F: Files>(
    alloc: Global,
    files: &mut F,
    directory: FileNumber,
    names: Vec<Entry>,
) -> Result<Vec<TreeRow>, EntryFault>
    ensures only { AsksOnly (F.state files.old) (F.state files.new) result }
    ensures answer { IfOk result (λ told. InEach (F.state files.old) (F.state files.new)
        (λ m. AreTold (IsRow m directory.value) (pairs names.items) told.items)) }
    ensures failed { IfErr result (FailsWhere (F.state files.old) (F.state files.new)
        (AreThere (pairs names.items))) }
{
    let Ok(mut rows) = Vec::with_capacity(alloc, names.len()) else {
        return Err(EntryFault::NoMemory);
    };
    for name in names {
        push_row(alloc, files, directory, name, &mut rows)?;
    }
    Ok(rows)
}

/// Puts the entry that a name gives behind others.
fn push_entry<F: Files>(
    files: &mut F,
    name: Entry,
    entries: &mut Vec<ListedEntry>,
) -> Result<(), EntryFault>
    ensures only { AsksOnly (F.state files.old) (F.state files.new) result }
    ensures done { OnOk result ((told : ListedEntry)
        × (entries.new.items ≡ entries.old.items ++ told ∷ [])
        × InEach (F.state files.old) (F.state files.new) (λ m. IsListed m (pair name) told)) }
    ensures failed { IfErr result (FailsWhere (F.state files.old) (F.state files.new)
        (HasObject name.number.value)) }
{
    let header = header_of(files, name.number)?;
    let entry = ListedEntry {
        name: name.name,
        number: u32::from(name.number.value),
        kind: header.kind,
    };
    let Ok(()) = entries.push(entry) else {
        return Err(EntryFault::NoMemory);
    };
    Ok(())
}

/// Puts the row that a name of a directory gives behind others.
fn push_row<F: Files>(
    alloc: Global,
    files: &mut F,
    directory: FileNumber,
    name: Entry,
    rows: &mut Vec<TreeRow>,
) -> Result<(), EntryFault>
    ensures only { AsksOnly (F.state files.old) (F.state files.new) result }
    ensures done { OnOk result ((told : TreeRow)
        × (rows.new.items ≡ rows.old.items ++ told ∷ [])
        × InEach (F.state files.old) (F.state files.new)
        (λ m. IsRow m directory.value (pair name) told)) }
    ensures failed { IfErr result (FailsWhere (F.state files.old) (F.state files.new)
        (HasObject name.number.value)) }
{
    let header = header_of(files, name.number)?;
    let head = read_head(alloc, files, name.number, header)?;
    let row = TreeRow {
        directory: u32::from(directory.value),
        name: name.name,
        kind: header.kind,
        number: u32::from(name.number.value),
        links: header.links,
        size: u64::from(header.size),
        head,
    };
    let Ok(()) = rows.push(row) else {
        return Err(EntryFault::NoMemory);
    };
    Ok(())
}
