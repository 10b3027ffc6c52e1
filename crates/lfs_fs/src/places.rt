//! How a call comes to the object of a path, or to the path's last piece.
ghost use Rattle.std.specs.Prelude.{IfErr, IfOk, Some};
ghost use Rattle.lfs_fs.specs.Naming.{BeginsAt, BeginsNowhere, FindsPlace, LacksPlace};
ghost use Rattle.lfs_fs.specs.Reading.{FindsObject, RefusesPath};
ghost use Rattle.lfs_fs.specs.Seen.{OnlyReads};

use crate::error::FsError;
use crate::fs::Fs;
use lfs_device::SectorDevice;
use lfs_model::FileNumber;
use lfs_path::Last;
use lfs_path::tree::{parent, resolve};

impl<D: SectorDevice> Fs<D> {
    /// Begins a call of a path, and walks it to its object.
    ///
    /// # Errors
    ///
    /// `Halted`; those of the path.
    pub(crate) fn begin_with(&mut self, path: &[u8], follow: bool) -> Result<FileNumber, FsError>
        ensures found { IfOk result (λ number. FindsObject D.SectorDevice.state
            self.old self.new
            path.now follow number.value) }
        ensures refused { IfErr result (RefusesPath D.SectorDevice.state self.old
            self.new path.now
            follow) }
    {
        self.begin()?;
        let number = resolve(self.alloc, &mut self.store, path, follow)?;
        Ok(number)
    }

    /// Begins a call of a path, and comes to its last piece and to the directory that it stands in.
    ///
    /// # Errors
    ///
    /// `Halted`; those of the path; `nameless` where it has no piece.
    pub(crate) fn begin_at<'a>(
        &mut self,
        path: &'a [u8],
        nameless: FsError,
    ) -> Result<(FileNumber, Last<'a>), FsError>
        ensures begun { IfOk result (λ place. BeginsAt D.SectorDevice.state self.old
            self.new
            path.now place.0.value place.1) }
        ensures refused { IfErr result (BeginsNowhere D.SectorDevice.state self.old
            self.new
            path.now nameless) }
    {
        self.begin()?;
        let place = self.reach(path, nameless)?;
        Ok(place)
    }

    /// Comes to the last piece of a path, and to the directory that it stands in.
    ///
    /// # Errors
    ///
    /// Those of the path; `nameless` where it has no piece.
    pub(crate) fn reach<'a>(
        &mut self,
        path: &'a [u8],
        nameless: FsError,
    ) -> Result<(FileNumber, Last<'a>), FsError>
        ensures reads { OnlyReads D.SectorDevice.state self.old self.new }
        ensures found { IfOk result (λ place. FindsPlace D.SectorDevice.state self.old
            self.new
            path.now place.0.value (Some place.1)) }
        ensures refused { IfErr result (LacksPlace D.SectorDevice.state self.old
            self.new path.now
            nameless) }
    {
        let place = parent(self.alloc, &mut self.store, path)?;
        let Some(last) = place.last else {
            return Err(nameless);
        };
        Ok((place.chain.directory(), last))
    }
}
