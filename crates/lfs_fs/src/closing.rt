//! The call that gives up a handle.
ghost use Rattle.std.specs.Prelude.{◌≡◌, ◌≤◌, ◌<◌, ℕ, false, Some};
ghost use Rattle.std.specs.FinMap.{find};
ghost use Rattle.std.specs.Ordering.{nat_cmp};
ghost use Rattle.lfs_model.specs.Call.{Close, Done};
ghost use Rattle.lfs_model.specs.Tree.{opened, without};
ghost use Rattle.lfs_store.specs.StoreState.{drafted_of};
ghost use Rattle.lfs_fs.specs.Volume.{Serves};
ghost use Rattle.lfs_fs.specs.Seen.{IsReady, answer_by, seen};

use crate::error::FsError;
use crate::fs::Fs;
use lfs_device::SectorDevice;
use lfs_model::FileNumber;
use lfs_model::limits::MOST_HANDLES;
use lfs_path::header_of;

impl<D: SectorDevice> Fs<D> {
    /// Closes a handle, which is free then. With its last handle a file without a name goes for
    /// good (POSIX.1-2017, close). It takes no memory.
    ///
    /// # Errors
    ///
    /// `BadHandle` where no such handle is open.
    pub fn close(&mut self, handle: u32) -> Result<(), FsError>
        ensures { Serves D.SectorDevice.state (seen self.old) (seen self.new)
            (Close handle)
            (answer_by (λ _. Done) result) }
    {
        self.begin()?;
        let number = self.file(handle)?;
        if self.handles.is_shared(handle, number) {
            self.handles.close(handle);
            return Ok(());
        }
        self.close_last(handle, number)
    }

    /// Closes the last handle of a file.
    fn close_last(&mut self, handle: u32, number: FileNumber) -> Result<(), FsError>
        requires place { handle < MOST_HANDLES }
        requires ready { IsReady self.old }
        requires counted { drafted_of self.old.store ≡ (seen self.old).log.totals }
        ensures { find nat_cmp handle self.old.handles ≡ Some number.value
            → opened (without nat_cmp handle self.old.handles) number.value ≡ 0
            → Serves D.SectorDevice.state (seen self.old) (seen self.new)
            (Close handle)
            (answer_by (λ _. Done) result) }
    {
        let header = header_of(&mut self.store, number)?;
        if header.links > 0 {
            self.handles.close(handle);
            return Ok(());
        }
        match self.store.forget(number) {
            Ok(()) => {
                self.handles.close(handle);
                Ok(())
            }
            Err(fault) => Err(FsError::from(fault)),
        }
    }
}
