//! The calls that clean, and whether cleaning is due.
ghost use Rattle.std.specs.Prelude.{◌≡◌, ◌≤◌, ◌+◌, length, OnOk, IsTrue, IsFalse};
ghost use Rattle.lfs_model.specs.Call.{Clean, Done};
ghost use Rattle.lfs_store.specs.cleaner.Making.{CleansOnce, HasQuarter, once_orders, clean_orders};
ghost use Rattle.lfs_fs.specs.Volume.{Serves, segments_of};
ghost use Rattle.lfs_fs.specs.Seen.{seen, answer_by};

use crate::error::FsError;
use crate::fs::Fs;
use lfs_device::SectorDevice;

impl<D: SectorDevice> Fs<D> {
    /// Whether fewer than a quarter of the segments is clean, so that `clean` and `clean_once` have
    /// something to do.
    pub fn is_cleaning_due(&self) -> bool
        ensures due { IsTrue result → HasQuarter (seen self.now).log → ⊥ }
        ensures quarter { IsFalse result → HasQuarter (seen self.now).log }
    {
        self.store.is_cleaning_due()
    }

    /// Cleans segments until a quarter of them is clean (the Sprite LFS paper, 1992, section 3.3).
    /// Where fewer are, what isn't saved is saved first; where a quarter is clean, nothing is written.
    /// The tree stays. It takes no memory.
    ///
    /// # Errors
    ///
    /// `Worn` from checkpoint 2^62 on. `Device` where a call of the device failed that reads, `Halted`
    /// where one failed that writes.
    pub fn clean(&mut self) -> Result<(), FsError>
        ensures serves { Serves D.SectorDevice.state (seen self.old) (seen self.new)
            Clean
            (answer_by (λ _. Done) result) }
        ensures enough { OnOk result (HasQuarter (seen self.new).log) }
        ensures told { length (D.state (seen self.new).log.device).told
            ≤ length (D.state (seen self.old).log.device).told
            + clean_orders (segments_of (seen self.old)) }
        ensures quiet { HasQuarter (seen self.old).log → (seen self.new).log ≡ (seen self.old).log }
    {
        self.begin()?;
        self.check_worn()?;
        self.store.clean()?;
        Ok(())
    }

    /// One pass of the cleaner where fewer than a quarter of the segments is clean, and none else.
    /// What isn't saved is saved before it. The tree stays. It takes no memory.
    ///
    /// So a caller chooses when it waits for the cleaner: for no more than a commit and a pass.
    ///
    /// # Errors
    ///
    /// As those of `clean`.
    pub fn clean_once(&mut self) -> Result<(), FsError>
        ensures serves { Serves D.SectorDevice.state (seen self.old) (seen self.new)
            Clean
            (answer_by (λ _. Done) result) }
        ensures once { OnOk result (CleansOnce D.SectorDevice.state (seen self.old).log
            (seen self.new).log) }
        ensures told { length (D.state (seen self.new).log.device).told
            ≤ length (D.state (seen self.old).log.device).told
            + once_orders (segments_of (seen self.old)) }
        ensures quiet { HasQuarter (seen self.old).log → (seen self.new).log ≡ (seen self.old).log }
    {
        self.begin()?;
        self.check_worn()?;
        self.store.has_segment_count();
        self.store.clean_once()?;
        Ok(())
    }
}
