//! What is read of objects that are there.
ghost use Rattle.std.specs.Prelude.{◌≡◌, ◌≢◌, true, IfOk, IfErr, IsTrue, IsFalse};
ghost use Rattle.lfs_path.specs.Seeing.{HasObject};
ghost use Rattle.lfs_entries.specs.Reading.{ReadsObject, ReadsSized, ReadsText, RefusesText, ShowsHead};
ghost use Rattle.lfs_entries.specs.Telling.{AsksOnly, FailsAt, FailsWhere, InEach};

use crate::fault::EntryFault;
use lfs_files::{Files, Header};
use lfs_model::limits::LONGEST_PATH;
use lfs_model::{FileNumber, Kind};
use lfs_path::header_of;
use std::alloc::Global;

/// The most bytes of a file that the listing of a tree shows.
const LONGEST_HEAD: u32 = 16;

/// The most bytes of a link's text.
const LONGEST_TEXT: u32 = LONGEST_PATH as u32;

/// The bytes of an object from `offset` on, at most `len`; none at or past its end.
///
/// # Errors
///
/// `NoMemory`; `Log` where the log gives no answer: `Halted` once a write of the log failed,
/// `Device` where a call of the device failed, or no object has the number.
pub fn read_object<F: Files>(
    alloc: Global,
    files: &mut F,
    number: FileNumber,
    offset: u64,
    len: u32,
) -> Result<Vec<u8>, EntryFault>
    ensures only { AsksOnly (F.state files.old) (F.state files.new) result }
    ensures answer { IfOk result (λ bytes. ReadsObject (F.state files.old) (F.state files.new)
        number.value offset len bytes.items) }
    ensures failed { IfErr result (FailsWhere (F.state files.old) (F.state files.new)
        (HasObject number.value)) }
{
    let header = header_of(files, number)?;
    read_sized(alloc, files, number, header.size, offset, len)
}

/// The text of a link.
///
/// # Errors
///
/// `Inval` where the object is no link; else as those of `read_object`.
pub fn read_link<F: Files>(
    alloc: Global,
    files: &mut F,
    number: FileNumber,
) -> Result<Vec<u8>, EntryFault>
    ensures only { AsksOnly (F.state files.old) (F.state files.new) result }
    ensures answer { IfOk result (λ text. ReadsText (F.state files.old) (F.state files.new)
        number.value text.items) }
    ensures refused { IfErr result (RefusesText (F.state files.old) (F.state files.new)
        number.value) }
{
    let header = header_of(files, number)?;
    if !is_link(header.kind) {
        return Err(EntryFault::Inval);
    }
    read_sized(alloc, files, number, header.size, 0, LONGEST_TEXT)
}

/// What the listing of a tree shows of an object of this header: the first bytes of a file, the
/// text of a link, nothing of a directory.
///
/// # Errors
///
/// As those of `read_object`, where the object is there.
pub fn read_head<F: Files>(
    alloc: Global,
    files: &mut F,
    number: FileNumber,
    header: Header,
) -> Result<Vec<u8>, EntryFault>
    ensures only { AsksOnly (F.state files.old) (F.state files.new) result }
    ensures answer { IfOk result (λ head. InEach (F.state files.old) (F.state files.new)
        (λ m. ShowsHead m number.value header header.kind head.items)) }
    ensures failed { IfErr result (FailsAt (F.state files.old) (F.state files.new)) }
{
    match header.kind {
        Kind::File => read_sized(alloc, files, number, header.size, 0, LONGEST_HEAD),
        Kind::Directory => Ok(Vec::new(alloc)),
        Kind::Link => read_sized(alloc, files, number, header.size, 0, LONGEST_TEXT),
    }
}

/// The bytes of an object of this size from `offset` on, at most `len`.
fn read_sized<F: Files>(
    alloc: Global,
    files: &mut F,
    number: FileNumber,
    size: u32,
    offset: u64,
    len: u32,
) -> Result<Vec<u8>, EntryFault>
    ensures only { AsksOnly (F.state files.old) (F.state files.new) result }
    ensures answer { IfOk result (λ bytes. InEach (F.state files.old) (F.state files.new)
        (ReadsSized number.value size offset len bytes.items)) }
    ensures failed { IfErr result (FailsAt (F.state files.old) (F.state files.new)) }
{
    let end = u64::from(size);
    let start = offset.min(end);
    let stop = (start + u64::from(len)).min(end);
    let bytes = files.read_at(alloc, number, start as u32, stop as u32)?;
    Ok(bytes)
}

/// Whether an object of this kind is a link.
fn is_link(kind: Kind) -> bool
    ensures yes { IsTrue result → kind ≡ Kind.Link }
    ensures no { IsFalse result → kind ≢ Kind.Link }
{
    match kind {
        Kind::Link => true,
        Kind::File | Kind::Directory => false,
    }
}
