//! Bytes of a file as it is with the draft.
ghost use Rattle.std.specs.Prelude.{◌≡◌, ◌<◌, ◌≤◌, ◌+◌, ◌%◌, true, IfOk, IfErr, OnOk, OnErr, IsErrOf, IsFalse, length};
ghost use Rattle.lfs_model.specs.Fields.{zeros};
ghost use Rattle.lfs_cleaner.specs.log.LogState.{Reads, IsReadFault};
ghost use Rattle.lfs_store.specs.Keeping.{ReadsLog};
ghost use Rattle.lfs_store.specs.Reading.{ReadsStore, ReadsBlock, ReadsPart, Appends};

use crate::draft::Draft;
use crate::store::Store;
use lfs_cleaner::volume_log::{Log, LogFault};
use lfs_device::SectorDevice;
use lfs_files::StoreFault;
use lfs_model::FileNumber;
use lfs_model::limits::SECTOR_LEN;
use std::alloc::Global;

impl<D: SectorDevice> Store<D> {
    /// The bytes of a file between two places, both at most its size.
    ///
    /// # Errors
    ///
    /// `NoMemory` where memory runs out; else as those of `block`.
    pub(crate) fn read_at(
        &mut self,
        alloc: Global,
        number: FileNumber,
        from: u32,
        to: u32,
    ) -> Result<Vec<u8>, StoreFault>
        requires order { from ≤ to }
        ensures reads { ReadsStore D.SectorDevice.state self.old self.new }
        ensures long { IfOk result (λ bytes. from + length bytes.items ≡ to) }
        ensures answer { IfOk result (λ bytes. ReadsPart D.SectorDevice.state self.old.log
            self.new.log self.old.draft.changes number.value from to bytes.items) }
        ensures failed { IfErr result (λ fault. (fault ≡ StoreFault.NoMemory → ⊥)
            → IsReadFault D.SectorDevice.state self.old.log self.new.log) }
        ensures halted { IsErrOf result (StoreFault.Log LogFault.Halted)
            → self.old.log.halted ≡ true }
        ensures other { IsErrOf result (StoreFault.Log LogFault.Full) → ⊥ }
    {
        read_part(alloc, &mut self.log, &self.draft, number, from, to)
    }
}

/// Whether a block of a file is stored with a draft, and its bytes; zeros where it isn't.
///
/// # Errors
///
/// As those of `Store::header`.
pub fn read_block<D: SectorDevice>(
    log: &mut Log<D>,
    draft: &Draft,
    number: FileNumber,
    index: u32,
    out: &mut [u8; 512],
) -> Result<bool, LogFault>
    ensures reads { ReadsLog D.state log.old log.new result }
    ensures answer { IfOk result
        (ReadsBlock D.state log.old log.new draft.now.changes number.value index out.new) }
    ensures zeros { IfOk result (λ found. IsFalse found → out.new ≡ zeros SECTOR_LEN) }
{
    match draft.block(number, index, out) {
        Some(stored) => Ok(stored),
        None => log.block(number.value, index, out),
    }
}

/// The bytes of a file between two places, both at most its size, as it is with a draft.
fn read_part<D: SectorDevice>(
    alloc: Global,
    log: &mut Log<D>,
    draft: &Draft,
    number: FileNumber,
    from: u32,
    to: u32,
) -> Result<Vec<u8>, StoreFault>
    requires order { from ≤ to }
    ensures reads { Reads D.state log.old log.new }
    ensures long { IfOk result (λ bytes. from + length bytes.items ≡ to) }
    ensures answer { IfOk result (λ bytes.
        ReadsPart D.state log.old log.new draft.now.changes number.value from to bytes.items) }
    ensures failed { IfErr result (λ fault.
        (fault ≡ StoreFault.NoMemory → ⊥) → IsReadFault D.state log.old log.new) }
    ensures halted { IsErrOf result (StoreFault.Log LogFault.Halted) → log.old.halted ≡ true }
    ensures other { IsErrOf result (StoreFault.Log LogFault.Full) → ⊥ }
{
    let Ok(mut bytes) = Vec::with_capacity(alloc, (to - from) as usize) else {
        return Err(StoreFault::NoMemory);
    };
    let mut at = from;
    while at < to {
        let len = (to - at).min(512 - at % 512);
        append(log, draft, number, at, len, &mut bytes)?;
        at += len;
    }
    Ok(bytes)
}

/// Reads bytes of one block of a file, behind those that are there.
fn append<D: SectorDevice>(
    log: &mut Log<D>,
    draft: &Draft,
    number: FileNumber,
    at: u32,
    len: u32,
    bytes: &mut Vec<u8>,
) -> Result<(), StoreFault>
    requires inside { at % SECTOR_LEN + len ≤ SECTOR_LEN }
    ensures reads { Reads D.state log.old log.new }
    ensures done { OnOk result (Appends D.state log.old log.new
        draft.now.changes number.value at len bytes.old.items bytes.new.items) }
    ensures failed { IfErr result (λ fault.
        (fault ≡ StoreFault.NoMemory → ⊥) → IsReadFault D.state log.old log.new) }
    ensures halted { IsErrOf result (StoreFault.Log LogFault.Halted) → log.old.halted ≡ true }
    ensures other { IsErrOf result (StoreFault.Log LogFault.Full) → ⊥ }
{
    let mut block = [0; 512];
    match read_block(log, draft, number, at / 512, &mut block) {
        Ok(_) => {}
        Err(fault) => return Err(StoreFault::Log(fault)),
    }
    let start = (at % 512) as usize;
    match bytes.extend_from_slice(&block[start..start + len as usize]) {
        Ok(()) => Ok(()),
        Err(_) => Err(StoreFault::NoMemory),
    }
}
