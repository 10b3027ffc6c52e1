//! Files by number, with the changes of one call before they are staged.
ghost use Rattle.std.specs.Prelude.{◌≡◌, ◌<◌, ◌≤◌, ◌+◌, ◌*◌, ◌/◌, true, length, IfOk, IfErr, OnOk, OnErr, IsErrOf, IsFalse};
ghost use Rattle.lfs_model.specs.Device.{IsLawful};
ghost use Rattle.lfs_files.specs.Files.{Counts, FilesState, CountsReformed, IsFault, IsLoneWrite, Reads, Redrafts, Reforms, SetsLen, Shrinks, TellsBlock, TellsHeader, TellsPart, Writes, asked_by_directory};
ghost use Rattle.lfs_files.specs.Headers.{first_header};
ghost use Rattle.lfs_files.specs.Making.{CountsMade, CountsRelinked, Makes, Removes, SetsLinks};

use crate::fault::{LogFault, StoreFault};
use crate::header::Header;
use lfs_model::limits::{LARGEST_FILE, LONGEST_PATH, SECTOR_LEN};
use lfs_model::{FileNumber, Kind};
use std::alloc::Global;

/// The files of a volume, and a draft of changes to them, which reads see.
pub trait Files {
    ghost Staged: { Type 0 };

    ghost Draft: { Type 0 };

    ghost state: { Self → FilesState Staged Draft };

    /// What the inode of a file says of it, if the file is there.
    ///
    /// # Errors
    ///
    /// `Halted` once a write of the log failed, `Device` where a call of the device failed.
    fn header(&mut self, number: FileNumber) -> Result<Option<Header>, LogFault>
        ensures reads { Reads (state self.old) (state self.new) }
        ensures answer { IfOk result (TellsHeader (state self.old) (state self.new) number.value) }
        ensures failed { OnErr result (IsFault (state self.old) (state self.new)) }
        ensures halted { IsErrOf result LogFault.Halted → (state self.old).halted ≡ true }
        ensures other { IsErrOf result LogFault.Full → ⊥ };

    /// Whether a block of a file is stored, and its bytes; zeros where it isn't.
    ///
    /// # Errors
    ///
    /// As those of `header`.
    fn block(
        &mut self,
        number: FileNumber,
        index: u32,
        out: &mut [u8; 512],
    ) -> Result<bool, LogFault>
        ensures reads { Reads (state self.old) (state self.new) }
        ensures answer { OnOk result
            (TellsBlock (state self.old) (state self.new) number.value index out.new) }
        ensures failed { OnErr result (IsFault (state self.old) (state self.new)) }
        ensures halted { IsErrOf result LogFault.Halted → (state self.old).halted ≡ true }
        ensures other { IsErrOf result LogFault.Full → ⊥ };

    /// The bytes of a file between two places, both at most its size.
    ///
    /// # Errors
    ///
    /// `NoMemory` where memory runs out; else as those of `header`.
    fn read_at(
        &mut self,
        alloc: Global,
        number: FileNumber,
        from: u32,
        to: u32,
    ) -> Result<Vec<u8>, StoreFault>
        requires order { from ≤ to }
        ensures reads { Reads (state self.old) (state self.new) }
        ensures long { IfOk result (λ bytes. from + length bytes.items ≡ to) }
        ensures answer { IfOk result (λ bytes. TellsPart (state self.old) (state self.new)
            number.value from to bytes.items) }
        ensures failed { IfErr result (λ fault. (fault ≡ StoreFault.NoMemory → ⊥)
            → IsFault (state self.old) (state self.new)) }
        ensures halted { IsErrOf result (StoreFault.Log LogFault.Halted)
            → (state self.old).halted ≡ true }
        ensures other { IsErrOf result (StoreFault.Log LogFault.Full) → ⊥ };

    /// Makes a file of this form that isn't there, without a byte: a regular file or a directory.
    /// It calls the device for nothing.
    ///
    /// # Errors
    ///
    /// `NoMemory` where memory runs out. What the draft holds then is of no use.
    fn create(&mut self, number: FileNumber, kind: Kind, form: u8) -> Result<(), StoreFault>
        ensures redrafts { Redrafts (state self.old) (state self.new) }
        ensures done { OnOk result
            (Makes (state self.old) (state self.new) number.value (first_header kind form 0)) }
        ensures counted { OnOk result
            (CountsMade (state self.old) (state self.new) number.value) }
        ensures failed { IfErr result (λ fault. fault ≡ StoreFault.NoMemory) };

    /// Makes a symbolic link that isn't there, of so many bytes. They are zeros until the text is
    /// written. It calls the device for nothing.
    ///
    /// # Errors
    ///
    /// As those of `create`.
    fn create_link(&mut self, number: FileNumber, size: u32) -> Result<(), StoreFault>
        requires most { size ≤ LONGEST_PATH }
        ensures redrafts { Redrafts (state self.old) (state self.new) }
        ensures done { OnOk result
            (Makes (state self.old) (state self.new) number.value (first_header Kind.Link 0 size)) }
        ensures counted { OnOk result
            (CountsMade (state self.old) (state self.new) number.value) }
        ensures failed { IfErr result (λ fault. fault ≡ StoreFault.NoMemory) };

    /// Gives a file of this header other links. The last is lost in an empty draft. It calls the
    /// device for nothing.
    ///
    /// # Errors
    ///
    /// As those of `create`.
    fn set_links(
        &mut self,
        number: FileNumber,
        header: Header,
        links: u32,
    ) -> Result<(), StoreFault>
        requires last { links ≡ 0 → (state self.old).empty }
        ensures redrafts { Redrafts (state self.old) (state self.new) }
        ensures done { OnOk result
            (SetsLinks (state self.old) (state self.new) number.value header links) }
        ensures counted { OnOk result
            (CountsRelinked (state self.old) (state self.new) number.value header) }
        ensures failed { IfErr result (λ fault. fault ≡ StoreFault.NoMemory) };

    /// A file goes with all its blocks. The draft was empty.
    ///
    /// # Errors
    ///
    /// As those of `header`. What the draft holds then is of no use.
    fn remove(&mut self, number: FileNumber) -> Result<(), LogFault>
        requires empty { (state self.old).empty }
        ensures redrafts { Redrafts (state self.old) (state self.new) }
        ensures done { OnOk result (Removes (state self.old) (state self.new) number.value) }
        ensures counted { OnOk result (Counts (state self.old) (state self.new)) }
        ensures failed { OnErr result (IsFault (state self.old) (state self.new)) }
        ensures halted { IsErrOf result LogFault.Halted → (state self.old).halted ≡ true }
        ensures other { IsErrOf result LogFault.Full → ⊥ };

    /// Lays bytes over a file of this header, from a place on. Where they end behind its size, it
    /// is as long as that needs.
    ///
    /// # Errors
    ///
    /// `NoMemory` where memory runs out; else as those of `block`. What the draft holds then is of
    /// no use.
    fn write_at(
        &mut self,
        number: FileNumber,
        header: Header,
        at: u32,
        bytes: &[u8],
    ) -> Result<(), StoreFault>
        requires bytes { 0 < length bytes.now }
        requires end { at + length bytes.now ≤ LARGEST_FILE }
        ensures redrafts { Redrafts (state self.old) (state self.new) }
        ensures done { OnOk result
            (Writes (state self.old) (state self.new) number.value header at bytes.now) }
        ensures asked { OnOk result (IsLoneWrite (state self.old) bytes.now
            → (state self.new).asked ≤ asked_by_directory) }
        ensures counted { OnOk result (Counts (state self.old) (state self.new)) }
        ensures failed { IfErr result (λ fault. (fault ≡ StoreFault.NoMemory → ⊥)
            → IsFault (state self.old) (state self.new)) }
        ensures halted { IsErrOf result (StoreFault.Log LogFault.Halted)
            → (state self.old).halted ≡ true }
        ensures other { IsErrOf result (StoreFault.Log LogFault.Full) → ⊥ };

    /// Gives a file of this header another form and another size. Its blocks stay as they are, so
    /// its caller writes what they are to be. It calls the device for nothing.
    ///
    /// # Errors
    ///
    /// `NoMemory` where memory runs out. What the draft holds then is of no use.
    fn reform(
        &mut self,
        number: FileNumber,
        header: Header,
        form: u8,
        size: u32,
    ) -> Result<(), StoreFault>
        ensures redrafts { Redrafts (state self.old) (state self.new) }
        ensures done { OnOk result
            (Reforms (state self.old) (state self.new) number.value header form size) }
        ensures counted { OnOk result
            (CountsReformed (state self.old) (state self.new) number.value header) }
        ensures failed { IfErr result (λ fault. fault ≡ StoreFault.NoMemory) };

    /// Cuts a file of this header, or makes it longer with zeros. The draft was empty.
    ///
    /// # Errors
    ///
    /// As those of `write_at`.
    fn set_len(&mut self, number: FileNumber, header: Header, len: u32) -> Result<(), StoreFault>
        requires most { len ≤ LARGEST_FILE }
        requires empty { (state self.old).empty }
        ensures redrafts { Redrafts (state self.old) (state self.new) }
        ensures done { OnOk result (SetsLen (state self.old) (state self.new) number.value header
            len) }
        ensures counted { OnOk result (Counts (state self.old) (state self.new)) }
        ensures failed { IfErr result (λ fault. (fault ≡ StoreFault.NoMemory → ⊥)
            → IsFault (state self.old) (state self.new)) }
        ensures halted { IsErrOf result (StoreFault.Log LogFault.Halted)
            → (state self.old).halted ≡ true }
        ensures other { IsErrOf result (StoreFault.Log LogFault.Full) → ⊥ };

    /// Cuts a file of this header at a length in its last block, which is zeros from there on. No
    /// block is lost, so the draft may lose others.
    ///
    /// # Errors
    ///
    /// As those of `write_at`.
    fn shrink(&mut self, number: FileNumber, header: Header, len: u32) -> Result<(), StoreFault>
        requires less { len < header.size }
        requires last { header.size ≤ SECTOR_LEN * (len / SECTOR_LEN) + SECTOR_LEN }
        requires most { header.size ≤ LARGEST_FILE }
        ensures redrafts { Redrafts (state self.old) (state self.new) }
        ensures done { OnOk result (Shrinks (state self.old) (state self.new) number.value header
            len) }
        ensures counted { OnOk result (Counts (state self.old) (state self.new)) }
        ensures failed { IfErr result (λ fault. (fault ≡ StoreFault.NoMemory → ⊥)
            → IsFault (state self.old) (state self.new)) }
        ensures halted { IsErrOf result (StoreFault.Log LogFault.Halted)
            → (state self.old).halted ≡ true }
        ensures other { IsErrOf result (StoreFault.Log LogFault.Full) → ⊥ };

    ghost lawful: { (f : Self) → IsLawful (state f).device };
}
