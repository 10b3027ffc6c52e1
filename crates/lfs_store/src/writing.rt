//! Bytes written to a file and cut off it, into the draft.
ghost use Rattle.std.specs.Prelude.{◌≡◌, ◌<◌, ◌≤◌, ◌+◌, ◌*◌, ◌%◌, true, length, IfErr, OnOk, IsErrOf, IsTrue};
ghost use Rattle.lfs_cleaner.specs.log.memory.Batch.{IsNoChange, room_for};
ghost use Rattle.lfs_cleaner.specs.log.LogState.{IsReadFault};
ghost use Rattle.lfs_store.specs.Drafting.{PutsHeader};
ghost use Rattle.lfs_files.specs.Files.{asked_by_directory};
ghost use Rattle.lfs_files.specs.Headers.{reformed};
ghost use Rattle.lfs_store.specs.Keeping.{ReadsLog};
ghost use Rattle.lfs_store.specs.Growing.{PlacesBlock, asked_by_transfer};
ghost use Rattle.lfs_store.specs.Pieces.{Covers};
ghost use Rattle.lfs_store.specs.Writing.{ReadsBeneath};

use crate::draft::Draft;
use crate::pieces::{cut_tail, overlay};
use crate::reading::read_block;
use crate::store::Store;
use lfs_cleaner::volume_log::{Cut, Header, Log, LogFault, Loss};
use lfs_device::SectorDevice;
use lfs_files::StoreFault;
use lfs_model::FileNumber;
use lfs_model::limits::{FILE_BLOCKS, LARGEST_FILE, LAST_BLOCK, LONGEST_TRANSFER, SECTOR_LEN};

/// Whether bytes that begin at a place of a file cover its block at an index whole.
fn covers(at: u32, bytes: &[u8], index: u32) -> bool
    requires low { index ≤ LAST_BLOCK }
    requires end { at + length bytes.now ≤ LARGEST_FILE }
    ensures { IsTrue result → Covers at bytes.now index }
{
    at <= 512 * index && 512 * index + 512 <= at + bytes.len() as u32
}

/// What the bytes that lie in one block are laid over: the block as it is, which isn't read where
/// they cover it whole.
fn block_beneath<D: SectorDevice>(
    log: &mut Log<D>,
    draft: &Draft,
    number: FileNumber,
    index: u32,
    at: u32,
    bytes: &[u8],
    out: &mut [u8; 512],
) -> Result<(), LogFault>
    requires low { index ≤ LAST_BLOCK }
    requires end { at + length bytes.now ≤ LARGEST_FILE }
    ensures reads { ReadsLog D.state log.old log.new result }
    ensures done { OnOk result (ReadsBeneath D.state log.old log.new draft.now.changes number.value
        index at bytes.now out.new) }
{
    if covers(at, bytes, index) {
        return Ok(());
    }
    read_block(log, draft, number, index, out)?;
    Ok(())
}

impl<D: SectorDevice> Store<D> {
    ghost use Rattle.lfs_store.specs.Keeping.{DraftsUncounted, RedraftsUncounted};
    ghost use Rattle.lfs_store.specs.Seen.{files_of};
    ghost use Rattle.lfs_files.specs.Files.{Counts, CountsReformed, IsFault, IsLoneWrite, Redrafts, Reforms, SetsLen, Writes};
    ghost use Rattle.lfs_store.specs.Writing.{WritesBlock, DraftsCut, CutsDraft, resized};

    /// Lays bytes over a file of this header, from a place on. Where they end behind its size, it
    /// is as long as that needs.
    ///
    /// # Errors
    ///
    /// `NoMemory` where memory runs out; else as those of `block`. What the draft holds then is of
    /// no use.
    pub(crate) fn write_at(
        &mut self,
        number: FileNumber,
        header: Header,
        at: u32,
        bytes: &[u8],
    ) -> Result<(), StoreFault>
        requires bytes { 0 < length bytes.now }
        requires end { at + length bytes.now ≤ LARGEST_FILE }
        ensures redrafts { Redrafts (files_of D.SectorDevice.state self.old)
            (files_of D.SectorDevice.state self.new) }
        ensures done { OnOk result (Writes (files_of D.SectorDevice.state self.old)
            (files_of D.SectorDevice.state self.new) number.value header at bytes.now) }
        ensures room { OnOk result (IsNoChange self.old.draft.changes
            → length bytes.now ≤ LONGEST_TRANSFER
            → room_for self.new.draft.changes ≤ asked_by_transfer) }
        ensures asked { OnOk result (IsLoneWrite (files_of D.SectorDevice.state self.old) bytes.now
            → (files_of D.SectorDevice.state self.new).asked ≤ asked_by_directory) }
        ensures counted { OnOk result (Counts (files_of D.SectorDevice.state self.old)
            (files_of D.SectorDevice.state self.new)) }
        ensures failed { IfErr result (λ fault. (fault ≡ StoreFault.NoMemory → ⊥)
            → IsFault (files_of D.SectorDevice.state self.old)
            (files_of D.SectorDevice.state self.new)) }
        ensures halted { IsErrOf result (StoreFault.Log LogFault.Halted)
            → self.old.log.halted ≡ true }
        ensures other { IsErrOf result (StoreFault.Log LogFault.Full) → ⊥ }
    {
        let from = at / 512;
        let to = (at + bytes.len() as u32).div_ceil(512);
        let before = match self.measure(number, from, to) {
            Ok(measure) => measure,
            Err(fault) => return Err(StoreFault::Log(fault)),
        };
        self.draft_write(number, header, at, bytes)?;
        match self.recount(number, from, to, before) {
            Ok(()) => Ok(()),
            Err(fault) => Err(StoreFault::Log(fault)),
        }
    }

    /// Lays bytes over a file, into the draft.
    fn draft_write(
        &mut self,
        number: FileNumber,
        header: Header,
        at: u32,
        bytes: &[u8],
    ) -> Result<(), StoreFault>
        requires bytes { 0 < length bytes.now }
        requires end { at + length bytes.now ≤ LARGEST_FILE }
        ensures redrafts { RedraftsUncounted D.SectorDevice.state self.old self.new }
        ensures done { OnOk result (Writes (files_of D.SectorDevice.state self.old)
            (files_of D.SectorDevice.state self.new) number.value header at bytes.now) }
        ensures room { OnOk result (IsNoChange self.old.draft.changes
            → length bytes.now ≤ LONGEST_TRANSFER
            → room_for self.new.draft.changes ≤ asked_by_transfer) }
        ensures asked { OnOk result (IsLoneWrite (files_of D.SectorDevice.state self.old) bytes.now
            → (files_of D.SectorDevice.state self.new).asked ≤ asked_by_directory) }
        ensures failed { IfErr result (λ fault. (fault ≡ StoreFault.NoMemory → ⊥)
            → IsReadFault D.SectorDevice.state self.old.log self.new.log) }
        ensures halted { IsErrOf result (StoreFault.Log LogFault.Halted)
            → self.old.log.halted ≡ true }
        ensures other { IsErrOf result (StoreFault.Log LogFault.Full) → ⊥ }
    {
        let end = at + bytes.len() as u32;
        for index in at / 512..end.div_ceil(512) {
            self.write_block(number, index, at, bytes)?;
        }
        self.resize(number, header, header.size.max(end))
    }

    /// Lays those of the bytes that lie in one block over it.
    fn write_block(
        &mut self,
        number: FileNumber,
        index: u32,
        at: u32,
        bytes: &[u8],
    ) -> Result<(), StoreFault>
        requires low { index ≤ LAST_BLOCK }
        requires end { at + length bytes.now ≤ LARGEST_FILE }
        ensures redrafts { RedraftsUncounted D.SectorDevice.state self.old self.new }
        ensures done { OnOk result (WritesBlock D.SectorDevice.state self.old.log self.new.log
            self.old.draft.changes self.new.draft.changes number.value index at bytes.now) }
        ensures placed { OnOk result (PlacesBlock self.old.draft.changes self.new.draft.changes
            number.value index) }
        ensures failed { IfErr result (λ fault. (fault ≡ StoreFault.NoMemory → ⊥)
            → IsReadFault D.SectorDevice.state self.old.log self.new.log) }
        ensures halted { IsErrOf result (StoreFault.Log LogFault.Halted)
            → self.old.log.halted ≡ true }
        ensures other { IsErrOf result (StoreFault.Log LogFault.Full) → ⊥ }
    {
        let mut block = [0; 512];
        match block_beneath(
            &mut self.log,
            &self.draft,
            number,
            index,
            at,
            bytes,
            &mut block,
        ) {
            Ok(()) => {}
            Err(fault) => return Err(StoreFault::Log(fault)),
        }
        overlay(&mut block, index, at, bytes);
        let Ok(()) = self.draft.put_block(number, index, &block) else {
            return Err(StoreFault::NoMemory);
        };
        Ok(())
    }

    /// Cuts a file of this header, or makes it longer with zeros.
    ///
    /// # Errors
    ///
    /// As those of `write_at`.
    pub(crate) fn set_len(
        &mut self,
        number: FileNumber,
        header: Header,
        len: u32,
    ) -> Result<(), StoreFault>
        requires most { len ≤ LARGEST_FILE }
        requires empty { IsNoChange self.old.draft.changes }
        ensures redrafts { Redrafts (files_of D.SectorDevice.state self.old)
            (files_of D.SectorDevice.state self.new) }
        ensures done { OnOk result (SetsLen (files_of D.SectorDevice.state self.old)
            (files_of D.SectorDevice.state self.new) number.value header len) }
        ensures counted { OnOk result (Counts (files_of D.SectorDevice.state self.old)
            (files_of D.SectorDevice.state self.new)) }
        ensures failed { IfErr result (λ fault. (fault ≡ StoreFault.NoMemory → ⊥)
            → IsFault (files_of D.SectorDevice.state self.old)
            (files_of D.SectorDevice.state self.new)) }
        ensures halted { IsErrOf result (StoreFault.Log LogFault.Halted)
            → self.old.log.halted ≡ true }
        ensures other { IsErrOf result (StoreFault.Log LogFault.Full) → ⊥ }
    {
        let before = match self.measure(number, len / 512, FILE_BLOCKS) {
            Ok(measure) => measure,
            Err(fault) => return Err(StoreFault::Log(fault)),
        };
        self.draft_len(number, header, len)?;
        match self.recount(number, len / 512, FILE_BLOCKS, before) {
            Ok(()) => Ok(()),
            Err(fault) => Err(StoreFault::Log(fault)),
        }
    }

    /// Cuts a file, or makes it longer, in the draft.
    fn draft_len(&mut self, number: FileNumber, header: Header, len: u32) -> Result<(), StoreFault>
        requires most { len ≤ LARGEST_FILE }
        requires empty { IsNoChange self.old.draft.changes }
        ensures redrafts { RedraftsUncounted D.SectorDevice.state self.old self.new }
        ensures done { OnOk result (SetsLen (files_of D.SectorDevice.state self.old)
            (files_of D.SectorDevice.state self.new) number.value header len) }
        ensures failed { IfErr result (λ fault. (fault ≡ StoreFault.NoMemory → ⊥)
            → IsReadFault D.SectorDevice.state self.old.log self.new.log) }
        ensures halted { IsErrOf result (StoreFault.Log LogFault.Halted)
            → self.old.log.halted ≡ true }
        ensures other { IsErrOf result (StoreFault.Log LogFault.Full) → ⊥ }
    {
        if header.size <= len {
            return self.resize(number, header, len);
        }
        self.cut_blocks(number, len)?;
        self.resize(number, header, len)
    }

    /// The blocks of a file end at a length.
    fn cut_blocks(&mut self, number: FileNumber, len: u32) -> Result<(), StoreFault>
        requires most { len ≤ LARGEST_FILE }
        requires empty { IsNoChange self.old.draft.changes }
        ensures redrafts { RedraftsUncounted D.SectorDevice.state self.old self.new }
        ensures done { OnOk result (CutsDraft D.SectorDevice.state self.old.log self.new.log
            self.new.draft.changes number.value len) }
        ensures failed { IfErr result (λ fault. (fault ≡ StoreFault.NoMemory → ⊥)
            → IsReadFault D.SectorDevice.state self.old.log self.new.log) }
        ensures halted { IsErrOf result (StoreFault.Log LogFault.Halted)
            → self.old.log.halted ≡ true }
        ensures other { IsErrOf result (StoreFault.Log LogFault.Full) → ⊥ }
    {
        self.lose_blocks(number, len);
        if len % 512 == 0 {
            return Ok(());
        }
        self.cut_last(number, len)
    }

    /// A file loses its blocks from a length on.
    fn lose_blocks(&mut self, number: FileNumber, len: u32)
        requires most { len ≤ LARGEST_FILE }
        requires empty { IsNoChange self.old.draft.changes }
        ensures keeps { DraftsUncounted self.old self.new }
        ensures draft { DraftsCut self.new.draft.changes number.value len }
    {
        self.draft.changes.loss = Loss::Blocks(Cut {
            number: number.value,
            first: len.div_ceil(512),
        });
    }

    /// Cuts off the tail of the last block of a file that has lost those behind it.
    fn cut_last(&mut self, number: FileNumber, len: u32) -> Result<(), StoreFault>
        requires most { len ≤ LARGEST_FILE }
        requires inside { 0 < len % SECTOR_LEN }
        requires lost { DraftsCut self.old.draft.changes number.value len }
        ensures redrafts { RedraftsUncounted D.SectorDevice.state self.old self.new }
        ensures done { OnOk result (CutsDraft D.SectorDevice.state self.old.log self.new.log
            self.new.draft.changes number.value len) }
        ensures failed { IfErr result (λ fault. (fault ≡ StoreFault.NoMemory → ⊥)
            → IsReadFault D.SectorDevice.state self.old.log self.new.log) }
        ensures halted { IsErrOf result (StoreFault.Log LogFault.Halted)
            → self.old.log.halted ≡ true }
        ensures other { IsErrOf result (StoreFault.Log LogFault.Full) → ⊥ }
    {
        let mut block = [0; 512];
        let stored = match self.block(number, len / 512, &mut block) {
            Ok(stored) => stored,
            Err(fault) => return Err(StoreFault::Log(fault)),
        };
        if !stored {
            return Ok(());
        }
        cut_tail(&mut block, (len % 512) as usize);
        let Ok(()) = self.draft.put_block(number, len / 512, &block) else {
            return Err(StoreFault::NoMemory);
        };
        Ok(())
    }

    /// A file of this header has another size.
    pub(crate) fn resize(
        &mut self,
        number: FileNumber,
        header: Header,
        size: u32,
    ) -> Result<(), StoreFault>
        ensures keeps { DraftsUncounted self.old self.new }
        ensures done { OnOk result (PutsHeader self.old.draft.changes self.new.draft.changes
            number.value (resized header size)) }
        ensures failed { IfErr result (λ fault. fault ≡ StoreFault.NoMemory) }
    {
        self.reform(number, header, header.form, size)
    }

    /// A file of this header has another form and another size. Its blocks stay as they are.
    ///
    /// # Errors
    ///
    /// `NoMemory` where memory runs out. What the draft holds then is of no use.
    pub(crate) fn reform(
        &mut self,
        number: FileNumber,
        header: Header,
        form: u8,
        size: u32,
    ) -> Result<(), StoreFault>
        ensures keeps { DraftsUncounted self.old self.new }
        ensures done { OnOk result (Reforms (files_of D.SectorDevice.state self.old)
            (files_of D.SectorDevice.state self.new) number.value header form size) }
        ensures counted { OnOk result (CountsReformed (files_of D.SectorDevice.state self.old)
            (files_of D.SectorDevice.state self.new) number.value header) }
        ensures puts { OnOk result (PutsHeader self.old.draft.changes self.new.draft.changes
            number.value (reformed header form size)) }
        ensures failed { IfErr result (λ fault. fault ≡ StoreFault.NoMemory) }
    {
        let header = Header {
            kind: header.kind,
            form,
            links: header.links,
            size,
        };
        let Ok(()) = self.draft.put_header(number, header) else {
            return Err(StoreFault::NoMemory);
        };
        Ok(())
    }
}
