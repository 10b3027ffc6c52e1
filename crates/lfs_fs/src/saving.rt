//! The calls that save, and whether all is saved.
ghost use Rattle.std.specs.Prelude.{◌≡◌, IsTrue};
ghost use Rattle.lfs_model.specs.Call.{Fsync, Sync, Done};
ghost use Rattle.lfs_fs.specs.Volume.{LeavesAll, Serves};
ghost use Rattle.lfs_fs.specs.Seen.{seen, answer_by};

use crate::error::FsError;
use crate::fs::Fs;
use lfs_device::SectorDevice;

impl<D: SectorDevice> Fs<D> {
    /// Whether all that was done is saved: a stop now takes away nothing but files without a name.
    /// A `sync` would write nothing.
    pub fn is_saved(&self) -> bool
        ensures value { result ≡ (seen self.now).log.saved }
        ensures kept { IsTrue result → LeavesAll D.SectorDevice.state (seen self.now) }
    {
        self.store.is_saved()
    }

    /// Saves the whole volume: after Ok every call before this one survives a stop (POSIX.1-2017,
    /// sync). Where all is saved nothing is written.
    ///
    /// # Errors
    ///
    /// `Halted` where a call of the device failed.
    pub fn sync(&mut self) -> Result<(), FsError>
        ensures { Serves D.SectorDevice.state (seen self.old) (seen self.new) Sync
            (answer_by (λ _. Done) result) }
    {
        self.begin()?;
        self.store.commit()?;
        Ok(())
    }

    /// Saves the whole volume, as `sync` does, with the file of a handle (POSIX.1-2017, fsync).
    ///
    /// # Errors
    ///
    /// `BadHandle` where no such handle is open; else as those of `sync`.
    pub fn fsync(&mut self, handle: u32) -> Result<(), FsError>
        ensures { Serves D.SectorDevice.state (seen self.old) (seen self.new)
            (Fsync handle)
            (answer_by (λ _. Done) result) }
    {
        self.begin()?;
        self.file(handle)?;
        self.sync()
    }
}
