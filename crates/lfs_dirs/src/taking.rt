//! A name taken out of a directory.
ghost use Rattle.std.specs.Prelude.{◌≡◌, ◌<◌, ◌≤◌, ◌*◌, ◌%◌, true, IfOk, IfErr, OnOk, IsErrOf, IsTrue, IsFalse};
ghost use Rattle.lfs_files.specs.Files.{IsFault, Reads, Redrafts};
ghost use Rattle.lfs_dirs.specs.Finding.{IsDirectoryFault};
ghost use Rattle.lfs_dirs.specs.Repointing.{Lacks};
ghost use Rattle.lfs_model.specs.Tree.{slot_len};
ghost use Rattle.lfs_dirs.specs.Directory.{slot_count};
ghost use Rattle.lfs_dirs.specs.Taking.{CountsDropped, DropsSlot, Takes};

use crate::searching::search_from;
use crate::slots::slots_in_block;
use lfs_files::{Files, Header, LogFault, StoreFault};
use lfs_layout::{nth_slot, slot_len};
use lfs_model::FileNumber;
use lfs_model::limits::MOST_ENTRIES;

/// Drafts a directory of this header without a name, if it has the name, which is looked for near
/// this place first. Its last slot comes into the gap. No block is lost, so the draft may lose
/// others.
///
/// # Errors
///
/// As those of `find` and of `Files::write_at`; `Device` also where the size is that of no
/// directory.
pub fn take<F: Files>(
    files: &mut F,
    directory: FileNumber,
    header: Header,
    name: &[u8],
    place: u32,
) -> Result<bool, StoreFault>
    requires size { header.size ≤ MOST_ENTRIES * slot_len header.form }
    ensures redrafts { Redrafts (F.state files.old) (F.state files.new) }
    ensures done { IfOk result (λ found. IsTrue found
        → Takes (F.state files.old) (F.state files.new) directory.value header name.now) }
    ensures counted { IfOk result (λ found. IsTrue found
        → CountsDropped (F.state files.old) (F.state files.new) directory.value header) }
    ensures same { IfOk result (λ found. IsFalse found
        → Reads (F.state files.old) (F.state files.new)) }
    ensures none { IfOk result (λ found. IsFalse found
        → Lacks (F.state files.old) (F.state files.new) directory.value header name.now) }
    ensures failed { IfErr result (λ fault. (fault ≡ StoreFault.NoMemory → ⊥)
        → IsDirectoryFault (F.state files.old) (F.state files.new) directory.value header) }
    ensures halted { IsErrOf result (StoreFault.Log LogFault.Halted)
        → (F.state files.old).halted ≡ true }
    ensures other { IsErrOf result (StoreFault.Log LogFault.Full) → ⊥ }
{
    let found = match search_from(files, directory, header, name, place) {
        Ok(Some(found)) => found,
        Ok(None) => return Ok(false),
        Err(fault) => return Err(StoreFault::Log(fault)),
    };
    if header.size % slot_len(header.form) != 0 {
        return Err(StoreFault::Log(LogFault::Device));
    }
    drop_slot(files, directory, header, found.place)?;
    Ok(true)
}

/// Drops a slot: the last one comes into its place.
fn drop_slot<F: Files>(
    files: &mut F,
    directory: FileNumber,
    header: Header,
    place: u32,
) -> Result<(), StoreFault>
    requires size { header.size ≤ MOST_ENTRIES * slot_len header.form }
    requires even { header.size % slot_len header.form ≡ 0 }
    requires inside { place < slot_count header }
    ensures redrafts { Redrafts (F.state files.old) (F.state files.new) }
    ensures done { OnOk result (DropsSlot (F.state files.old)
        (F.state files.new) directory.value header place) }
    ensures counted { OnOk result
        (CountsDropped (F.state files.old) (F.state files.new) directory.value header) }
    ensures failed { IfErr result (λ fault. (fault ≡ StoreFault.NoMemory → ⊥)
        → IsFault (F.state files.old) (F.state files.new)) }
    ensures halted { IsErrOf result (StoreFault.Log LogFault.Halted)
        → (F.state files.old).halted ≡ true }
    ensures other { IsErrOf result (StoreFault.Log LogFault.Full) → ⊥ }
{
    let slot = slot_len(header.form);
    let size = header.size - slot;
    let last = size / slot;
    if place == last {
        return files.shrink(directory, header, size);
    }
    let mut block = [0; 512];
    match files.block(directory, last / slots_in_block(header.form), &mut block) {
        Ok(_) => {}
        Err(fault) => return Err(StoreFault::Log(fault)),
    }
    let bytes = nth_slot(
        &block,
        header.form,
        (last % slots_in_block(header.form)) as usize,
    );
    files.shrink(directory, header, size)?;
    let shorter = Header {
        kind: header.kind,
        form: header.form,
        links: header.links,
        size,
    };
    files.write_at(directory, shorter, slot * place, bytes)?;
    Ok(())
}
