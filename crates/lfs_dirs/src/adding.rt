//! A name added to a directory.
ghost use Rattle.std.specs.Prelude.{◌≡◌, ◌≤◌, ◌+◌, ◌*◌, true, IfErr, OnOk, IsErrOf};
ghost use Rattle.lfs_model.specs.Slot.{IsName};
ghost use Rattle.lfs_model.specs.Tree.{name_len, slot_len};
ghost use Rattle.lfs_files.specs.Files.{Counts, IsFault, Redrafts};
ghost use Rattle.lfs_dirs.specs.Adding.{Adds};
ghost use Rattle.lfs_dirs.specs.Growing.{GrowsDirectory};

use lfs_files::{Files, Header, LogFault, StoreFault};
use lfs_layout::encode_slot;
use lfs_model::FileNumber;
use lfs_model::limits::MOST_ENTRIES;

/// Drafts a slot behind those of a directory of this header, which has at most 1,023. Its names
/// aren't looked at: `find` tells whether it has this one.
///
/// # Errors
///
/// As those of `Files::write_at`.
pub fn add<F: Files>(
    files: &mut F,
    directory: FileNumber,
    header: Header,
    number: FileNumber,
    name: &[u8],
) -> Result<(), StoreFault>
    requires room { header.size + slot_len header.form ≤ MOST_ENTRIES * slot_len header.form }
    requires name { IsName (name_len header.form) name.now }
    ensures redrafts { Redrafts (F.state files.old) (F.state files.new) }
    ensures done { OnOk result (Adds (F.state files.old) (F.state files.new)
        directory.value header number.value name.now) }
    ensures small { OnOk result (GrowsDirectory (F.state files.old) (F.state files.new) 1 2) }
    ensures counted { OnOk result (Counts (F.state files.old) (F.state files.new)) }
    ensures failed { IfErr result (λ fault. (fault ≡ StoreFault.NoMemory → ⊥)
        → IsFault (F.state files.old) (F.state files.new)) }
    ensures halted { IsErrOf result (StoreFault.Log LogFault.Halted)
        → (F.state files.old).halted ≡ true }
    ensures other { IsErrOf result (StoreFault.Log LogFault.Full) → ⊥ }
{
    let slot = encode_slot(header.form, u32::from(number.value), name);
    files.write_at(directory, header, header.size, slot.written())
}
