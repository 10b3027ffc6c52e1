//! A name that comes to give another number.
ghost use Rattle.std.specs.Prelude.{◌≡◌, ◌≤◌, ◌*◌, true, IfOk, IfErr, IsErrOf, IsTrue, IsFalse};
ghost use Rattle.lfs_model.specs.Slot.{IsName};
ghost use Rattle.lfs_model.specs.Tree.{name_len, slot_len};
ghost use Rattle.lfs_files.specs.Files.{Counts, Reads, Redrafts};
ghost use Rattle.lfs_dirs.specs.Finding.{IsDirectoryFault};
ghost use Rattle.lfs_dirs.specs.Growing.{GrowsDirectory};
ghost use Rattle.lfs_dirs.specs.Repointing.{Repoints, Lacks};

use crate::searching::search_from;
use lfs_files::{Files, Header, LogFault, StoreFault};
use lfs_layout::{encode_slot, slot_len};
use lfs_model::FileNumber;
use lfs_model::limits::MOST_ENTRIES;

/// Drafts another number for a name of a directory of this header, if it has the name, which is
/// looked for near this place first.
///
/// # Errors
///
/// As those of `find` and of `Files::write_at`.
pub fn repoint<F: Files>(
    files: &mut F,
    directory: FileNumber,
    header: Header,
    name: &[u8],
    place: u32,
    number: FileNumber,
) -> Result<bool, StoreFault>
    requires size { header.size ≤ MOST_ENTRIES * slot_len header.form }
    requires name { IsName (name_len header.form) name.now }
    ensures redrafts { Redrafts (F.state files.old) (F.state files.new) }
    ensures done { IfOk result (λ found. IsTrue found → Repoints (F.state files.old) (F.state
        files.new) directory.value header number.value name.now) }
    ensures small { IfOk result (λ found. IsTrue found
        → GrowsDirectory (F.state files.old) (F.state files.new) 1 2) }
    ensures counted { IfOk result (λ found. IsTrue found
        → Counts (F.state files.old) (F.state files.new)) }
    ensures same { IfOk result (λ found. IsFalse found
        → Reads (F.state files.old) (F.state files.new)) }
    ensures none { IfOk result (λ found. IsFalse found
        → Lacks (F.state files.old) (F.state files.new) directory.value header name.now) }
    ensures failed { IfErr result (λ fault. (fault ≡ StoreFault.NoMemory → ⊥)
        → IsDirectoryFault (F.state files.old) (F.state files.new) directory.value header) }
    ensures halted { IsErrOf result (StoreFault.Log LogFault.Halted)
        → (F.state files.old).halted ≡ true }
    ensures other { IsErrOf result (StoreFault.Log LogFault.Full) → ⊥ }
{
    let found = match search_from(files, directory, header, name, place) {
        Ok(Some(found)) => found,
        Ok(None) => return Ok(false),
        Err(fault) => return Err(StoreFault::Log(fault)),
    };
    let slot = encode_slot(header.form, u32::from(number.value), name);
    let at = slot_len(header.form) * found.place;
    files.write_at(directory, header, at, slot.written())?;
    Ok(true)
}
