//! Calls by which an old volume moves over: its version is raised, and its directories take longer
//! names.
ghost use Rattle.std.specs.Prelude.{◌≡◌, ℕ, List, true, false};
ghost use Rattle.lfs_model.specs.Call.{Done, Upgrade, Widen};
ghost use Rattle.lfs_fs.specs.Reading.{ReachesObject};
ghost use Rattle.lfs_fs.specs.Seen.{IsReady, answer_by, seen};
ghost use Rattle.lfs_fs.specs.Upgrading.{ReachesNarrow};
ghost use Rattle.lfs_fs.specs.Volume.{Mounted, Serves};

use crate::error::FsError;
use crate::fs::Fs;
use lfs_device::SectorDevice;
use lfs_entries::{draft_wide, is_directory};
use lfs_files::FIRST_FORM;
use lfs_model::FileNumber;
use lfs_path::header_of;
use lfs_store::Header;

impl<D: SectorDevice> Fs<D> {
    /// Raises the version of the volume's layout from 1 to 2: directories that are made then take
    /// names of up to 123 bytes. Those that are there stay as they are. A later version stays.
    ///
    /// # Errors
    ///
    /// Those alone that every change has: `NoMemory`, `Device`, `Halted`, `Worn`.
    pub fn upgrade(&mut self) -> Result<(), FsError>
        ensures { Serves D.SectorDevice.state (seen self.old) (seen self.new) Upgrade
            (answer_by (λ _. Done) result) }
    {
        self.begin()?;
        if self.store.version() != 1 {
            return self.check_worn();
        }
        self.store.upgrade();
        self.accept()
    }

    /// Gives a directory the form whose names have up to 123 bytes, with its names and the numbers
    /// that they give. Nothing changes where it has that form.
    ///
    /// # Errors
    ///
    /// In this order: those of the path; `NotDir`; `Inval` where the volume's version is 1;
    /// `NoSpace`.
    pub fn widen(&mut self, path: &[u8]) -> Result<(), FsError>
        ensures { Serves D.SectorDevice.state (seen self.old) (seen self.new)
            (Widen path.now)
            (answer_by (λ _. Done) result) }
    {
        let number = self.begin_with(path, true)?;
        self.widen_at(number)
    }

    /// Gives the directory of a number that form, where one stands there.
    fn widen_at(&mut self, number: FileNumber) -> Result<(), FsError>
        requires ready { IsReady self.old }
        ensures { (v : Mounted D) (path : List ℕ)
            → ReachesObject D.SectorDevice.state v self.old path true number.value
            → Serves D.SectorDevice.state v (seen self.new) (Widen path)
            (answer_by (λ _. Done) result) }
    {
        let header = header_of(&mut self.store, number)?;
        if !is_directory(header.kind) {
            return Err(FsError::NotDir);
        }
        if self.store.version() == 1 {
            return Err(FsError::Inval);
        }
        if header.form != FIRST_FORM {
            return self.check_worn();
        }
        self.widen_directory(number, header)
    }

    /// Gives a directory of the first form the second.
    fn widen_directory(&mut self, number: FileNumber, header: Header) -> Result<(), FsError>
        requires ready { IsReady self.old }
        ensures { (v : Mounted D) (path : List ℕ)
            → ReachesNarrow D.SectorDevice.state v self.old path number.value header
            → Serves D.SectorDevice.state v (seen self.new) (Widen path)
            (answer_by (λ _. Done) result) }
    {
        let drafted = draft_wide(self.alloc, &mut self.store, number, header);
        self.finish(drafted)
    }
}
