//! Bytes drafted into a file that is there, and another length.
ghost use Rattle.std.specs.Prelude.{◌≡◌, ◌≤◌, ◌<◌, ◌+◌, length, IfErr, OnOk};
ghost use Rattle.lfs_files.specs.Files.{Counts, IsLoneWrite, asked_by_directory};
ghost use Rattle.lfs_path.specs.Seeing.{HasObject};
ghost use Rattle.lfs_path.specs.dirs.Growing.{GrowsDirectory};
ghost use Rattle.lfs_entries.specs.Bytes.{DraftsBytes, DraftsLength};
ghost use Rattle.lfs_entries.specs.Telling.{DraftsOnly, FailsWhere};

use crate::fault::EntryFault;
use lfs_files::Files;
use lfs_model::FileNumber;
use lfs_model::limits::LARGEST_FILE;
use lfs_path::header_of;

/// Drafts bytes laid over a file from a place on. They come alone into the draft.
///
/// # Errors
///
/// `NoMemory`; `Log` where the log gives no answer: `Halted` once a write of the log failed,
/// `Device` where a call of the device failed, or no object has the number. What the draft holds
/// then is of no use.
pub fn draft_bytes<F: Files>(
    files: &mut F,
    number: FileNumber,
    at: u32,
    bytes: &[u8],
) -> Result<(), EntryFault>
    requires alone { IsLoneWrite (F.state files.old) bytes.now }
    requires bytes { 0 < length bytes.now }
    requires end { at + length bytes.now ≤ LARGEST_FILE }
    ensures only { DraftsOnly (F.state files.old) (F.state files.new) result }
    ensures done { OnOk result (DraftsBytes (F.state files.old) (F.state files.new) number.value at
        bytes.now) }
    ensures asked { OnOk result ((F.state files.new).asked ≤ asked_by_directory) }
    ensures counted { OnOk result (Counts (F.state files.old) (F.state files.new)) }
    ensures failed { IfErr result (FailsWhere (F.state files.old) (F.state files.new)
        (HasObject number.value)) }
{
    let header = header_of(files, number)?;
    files.write_at(number, header, at, bytes)?;
    Ok(())
}

/// Drafts a file cut to `len` bytes, or made longer with zeros. The draft was empty.
///
/// # Errors
///
/// As those of `draft_bytes`.
pub fn draft_length<F: Files>(files: &mut F, number: FileNumber, len: u32) -> Result<(), EntryFault>
    requires most { len ≤ LARGEST_FILE }
    requires empty { (F.state files.old).empty }
    ensures only { DraftsOnly (F.state files.old) (F.state files.new) result }
    ensures done { OnOk result (DraftsLength (F.state files.old) (F.state files.new) number.value
        len) }
    ensures small { OnOk result (GrowsDirectory (F.state files.old) (F.state files.new) 1 1) }
    ensures counted { OnOk result (Counts (F.state files.old) (F.state files.new)) }
    ensures failed { IfErr result (FailsWhere (F.state files.old) (F.state files.new)
        (HasObject number.value)) }
{
    let header = header_of(files, number)?;
    files.set_len(number, header, len)?;
    Ok(())
}
