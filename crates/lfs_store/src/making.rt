//! Files made in the draft, their links, and files that go.
ghost use Rattle.std.specs.Prelude.{◌≡◌, ◌≤◌, true, IfSome, IfNone, IfErr, OnOk, OnErr, IsErrOf};
ghost use Rattle.lfs_model.specs.Tree.{new_form};
ghost use Rattle.lfs_cleaner.specs.log.memory.Batch.{IsNoChange};
ghost use Rattle.lfs_files.specs.Files.{Counts, IsFault, Redrafts};
ghost use Rattle.lfs_files.specs.Headers.{first_links, first_header};
ghost use Rattle.lfs_files.specs.Making.{CountsMade, CountsRelinked, Makes, Removes, SetsLinks};
ghost use Rattle.lfs_store.specs.Recounting.{CountsUpgraded};
ghost use Rattle.lfs_store.specs.Making.{DraftsUpgrade};

use crate::recounting::recounted;
use crate::store::Store;
use crate::totals::{Measure, NO_BLOCK};
use lfs_cleaner::volume_log::{Header, LastLink, LogFault, Loss, Removal};
use lfs_device::SectorDevice;
use lfs_files::{FIRST_FORM, StoreFault};
use lfs_model::limits::{FILE_BLOCKS, LARGEST_FILE, LONGEST_PATH};
use lfs_model::{FileNumber, Kind};

/// The links of a file that is made.
fn first_links(kind: Kind) -> u32
    ensures { result ≡ first_links kind }
{
    match kind {
        Kind::Directory => 2,
        Kind::File | Kind::Link => 1,
    }
}

impl<D: SectorDevice> Store<D> {
    ghost use Rattle.lfs_cleaner.specs.log.LogState.{IsReadFault, IsVacant, HasAll, IsRemoved, IsKept};
    ghost use Rattle.lfs_store.specs.Accepting.{Forgets};
    ghost use Rattle.lfs_store.specs.Keeping.{DraftsUncounted, OnlyDrafts};
    ghost use Rattle.lfs_store.specs.Recounting.{CountsGone};
    ghost use Rattle.lfs_store.specs.Seen.{files_of};

    /// The least number that no file has in the log.
    pub fn least_free(&self) -> Option<FileNumber>
        ensures some { IfSome result (λ number. IsVacant D.SectorDevice.state self.now.log
            number.value) }
        ensures none { IfNone result (HasAll D.SectorDevice.state self.now.log) }
    {
        let number = self.log.least_free()?;
        Some(FileNumber { value: number })
    }

    /// The form of the directories that are made in the volume.
    pub fn new_form(&self) -> u8
        ensures { result ≡ new_form self.now.log.version }
    {
        if self.log.version() == 1 {
            FIRST_FORM
        } else {
            FIRST_FORM + 1
        }
    }

    /// Makes a file of this form that isn't there, without a byte: a regular file or a directory.
    ///
    /// # Errors
    ///
    /// `NoMemory` where memory runs out. What the draft holds then is of no use.
    pub(crate) fn create(
        &mut self,
        number: FileNumber,
        kind: Kind,
        form: u8,
    ) -> Result<(), StoreFault>
        ensures keeps { OnlyDrafts self.old self.new }
        ensures done { OnOk result (Makes (files_of D.SectorDevice.state self.old)
            (files_of D.SectorDevice.state self.new) number.value (first_header kind form 0)) }
        ensures counted { OnOk result (CountsMade (files_of D.SectorDevice.state self.old)
            (files_of D.SectorDevice.state self.new) number.value) }
        ensures failed { IfErr result (λ fault. fault ≡ StoreFault.NoMemory) }
    {
        self.make(number, kind, form, 0)
    }

    /// Makes a symbolic link that isn't there, of so many bytes. They are zeros until the text is
    /// written.
    ///
    /// # Errors
    ///
    /// As those of `create`.
    pub(crate) fn create_link(&mut self, number: FileNumber, size: u32) -> Result<(), StoreFault>
        requires most { size ≤ LONGEST_PATH }
        ensures keeps { OnlyDrafts self.old self.new }
        ensures done { OnOk result (Makes (files_of D.SectorDevice.state self.old)
            (files_of D.SectorDevice.state self.new) number.value
            (first_header Kind.Link 0 size)) }
        ensures counted { OnOk result (CountsMade (files_of D.SectorDevice.state self.old)
            (files_of D.SectorDevice.state self.new) number.value) }
        ensures failed { IfErr result (λ fault. fault ≡ StoreFault.NoMemory) }
    {
        self.make(number, Kind::Link, FIRST_FORM, size)
    }

    /// Makes a file, and counts its inode.
    fn make(
        &mut self,
        number: FileNumber,
        kind: Kind,
        form: u8,
        size: u32,
    ) -> Result<(), StoreFault>
        requires most { size ≤ LARGEST_FILE }
        ensures keeps { OnlyDrafts self.old self.new }
        ensures done { OnOk result (Makes (files_of D.SectorDevice.state self.old)
            (files_of D.SectorDevice.state self.new) number.value
            (first_header kind form size)) }
        ensures counted { OnOk result (CountsMade (files_of D.SectorDevice.state self.old)
            (files_of D.SectorDevice.state self.new) number.value) }
        ensures failed { IfErr result (λ fault. fault ≡ StoreFault.NoMemory) }
    {
        let header = Header {
            kind,
            form,
            links: first_links(kind),
            size,
        };
        let Ok(()) = self.draft.put_header(number, header) else {
            return Err(StoreFault::NoMemory);
        };
        let made = Measure {
            data_blocks: 0,
            meta_blocks: 1,
        };
        self.drafted = recounted(self.drafted, NO_BLOCK, made);
        Ok(())
    }

    /// Gives a file of this header other links. The last is lost in an empty draft.
    ///
    /// # Errors
    ///
    /// As those of `create`.
    pub(crate) fn set_links(
        &mut self,
        number: FileNumber,
        header: Header,
        links: u32,
    ) -> Result<(), StoreFault>
        requires last { links ≡ 0 → IsNoChange self.old.draft.changes }
        ensures keeps { DraftsUncounted self.old self.new }
        ensures done { OnOk result (SetsLinks (files_of D.SectorDevice.state self.old)
            (files_of D.SectorDevice.state self.new) number.value header links) }
        ensures counted { OnOk result (CountsRelinked (files_of D.SectorDevice.state self.old)
            (files_of D.SectorDevice.state self.new) number.value header) }
        ensures failed { IfErr result (λ fault. fault ≡ StoreFault.NoMemory) }
    {
        if links == 0 {
            self.draft.lose(Loss::Link(LastLink {
                number: number.value,
                kind: header.kind,
                form: header.form,
                size: header.size,
            }));
            return Ok(());
        }
        let header = Header {
            kind: header.kind,
            form: header.form,
            links,
            size: header.size,
        };
        let Ok(()) = self.draft.put_header(number, header) else {
            return Err(StoreFault::NoMemory);
        };
        Ok(())
    }

    /// Drafts that the volume has the second version of the layout. The draft was empty.
    pub fn upgrade(&mut self)
        requires empty { IsNoChange self.old.draft.changes }
        ensures keeps { DraftsUncounted self.old self.new }
        ensures done { DraftsUpgrade self.new.draft }
        ensures counted { CountsUpgraded self.new.draft }
    {
        self.draft.lose(Loss::FirstVersion);
    }

    /// Drafts that a file goes with all its blocks. The draft was empty.
    ///
    /// # Errors
    ///
    /// As those of `header`. What the draft holds then is of no use.
    pub(crate) fn remove(&mut self, number: FileNumber) -> Result<(), LogFault>
        requires empty { IsNoChange self.old.draft.changes }
        ensures redrafts { Redrafts (files_of D.SectorDevice.state self.old)
            (files_of D.SectorDevice.state self.new) }
        ensures done { OnOk result (Removes (files_of D.SectorDevice.state self.old)
            (files_of D.SectorDevice.state self.new) number.value) }
        ensures counted { OnOk result (Counts (files_of D.SectorDevice.state self.old)
            (files_of D.SectorDevice.state self.new)) }
        ensures failed { OnErr result (IsFault (files_of D.SectorDevice.state self.old)
            (files_of D.SectorDevice.state self.new)) }
        ensures halted { IsErrOf result LogFault.Halted → self.old.log.halted ≡ true }
        ensures other { IsErrOf result LogFault.Full → ⊥ }
    {
        let before = self.measure(number, 0, FILE_BLOCKS)?;
        self.lose_file(number);
        self.recount(number, 0, FILE_BLOCKS, before)
    }

    /// A file goes with all its blocks, in the draft.
    fn lose_file(&mut self, number: FileNumber)
        requires empty { IsNoChange self.old.draft.changes }
        ensures keeps { DraftsUncounted self.old self.new }
        ensures done { Removes (files_of D.SectorDevice.state self.old)
            (files_of D.SectorDevice.state self.new) number.value }
    {
        self.draft.lose(Loss::File(Removal {
            number: number.value,
        }));
    }

    /// Removes a file with all its blocks at once, without a draft. It takes no memory.
    ///
    /// # Errors
    ///
    /// With the files as they were: `Device` where a call of the device failed. `Halted` once a
    /// write of the log failed.
    pub fn forget(&mut self, number: FileNumber) -> Result<(), LogFault>
        requires empty { IsNoChange self.old.draft.changes }
        ensures done { OnOk result (IsRemoved D.SectorDevice.state self.old.log self.new.log
            number.value) }
        ensures stores { OnOk result (Forgets D.SectorDevice.state self.old.log self.new.log
            number.value) }
        ensures kept { OnErr result (IsKept D.SectorDevice.state self.old.log self.new.log) }
        ensures draft { self.new.draft ≡ self.old.draft }
        ensures counted { OnOk result (CountsGone D.SectorDevice.state self.old.log self.new.log
            number.value self.old.log.totals self.new.log.totals) }
        ensures drafted { OnOk result (self.new.drafted ≡ self.new.log.totals) }
        ensures same { OnErr result (self.new.log.totals ≡ self.old.log.totals) }
        ensures same_drafted { OnErr result (self.new.drafted ≡ self.old.drafted) }
        ensures failed { OnErr result (IsReadFault D.SectorDevice.state self.old.log self.new.log) }
        ensures halted { IsErrOf result LogFault.Halted → self.old.log.halted ≡ true }
        ensures other { IsErrOf result LogFault.Full → ⊥ }
    {
        let before = self.measure(number, 0, FILE_BLOCKS)?;
        let totals = recounted(self.log.totals(), before, NO_BLOCK);
        self.log.remove(number.value, totals)?;
        self.drafted = totals;
        Ok(())
    }
}
