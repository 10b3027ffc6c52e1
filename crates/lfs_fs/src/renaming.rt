//! The call that gives an object another name.
ghost use Rattle.std.specs.Prelude.{◌≡◌, ℕ, List, IsFalse, IsTrue};
ghost use Rattle.lfs_model.specs.Call.{Done, Rename};
ghost use Rattle.lfs_fs.specs.Naming.{Reaches};
ghost use Rattle.lfs_fs.specs.Renaming.{IsOpen, IsShut, ReachesBoth};
ghost use Rattle.lfs_fs.specs.Seen.{IsReady, answer_by, seen};
ghost use Rattle.lfs_fs.specs.Volume.{Mounted, Serves};

use crate::error::FsError;
use crate::fs::Fs;
use crate::handles::Handles;
use lfs_device::SectorDevice;
use lfs_entries::{Object, check_rename, draft_move};
use lfs_model::FileNumber;
use lfs_path::text::is_dots;
use lfs_path::tree::parent;
use lfs_path::{Chain, Last};

impl<D: SectorDevice> Fs<D> {
    /// Gives an object another name, in any directory; what has that name loses it (POSIX.1-2017,
    /// rename).
    ///
    /// # Errors
    ///
    /// In this order: those of the first path; those of the second; `Busy` where one has no piece;
    /// `Inval` where one ends in dot or dot-dot; of the first `NameTooLong`, `NoEntry`, `NotDir`
    /// where a slash follows the name of what is no directory; of the second `NameTooLong`,
    /// `NotDir` where a slash follows it and the object is no directory. Where both names give one
    /// object nothing is done. Then `Inval` where the object is the directory that is to have it,
    /// or stands above it; `IsDir` and `NotDir` where one of the two objects is a directory;
    /// `NotEmpty`; of another directory that gets a name more `DirFull`, and `TooManyLinks` where
    /// it has 1,000 links and gets a directory; `NoSpace`.
    pub fn rename(&mut self, from: &[u8], to: &[u8]) -> Result<(), FsError>
        ensures { Serves D.SectorDevice.state (seen self.old) (seen self.new)
            (Rename from.now to.now) (answer_by (λ _. Done) result) }
    {
        self.begin()?;
        let place = parent(self.alloc, &mut self.store, from)?;
        self.rename_from(place.chain.directory(), place.last, to)
    }

    /// Renames what the last piece of a path names, which stands in this directory.
    fn rename_from(
        &mut self,
        directory: FileNumber,
        last: Option<Last<'_>>,
        to: &[u8],
    ) -> Result<(), FsError>
        requires ready { IsReady self.old }
        ensures { (v : Mounted D) (from : List ℕ)
            → Reaches D.SectorDevice.state v self.old from directory.value last.entry
            → Serves D.SectorDevice.state v (seen self.new) (Rename from to.now)
            (answer_by (λ _. Done) result) }
    {
        let place = parent(self.alloc, &mut self.store, to)?;
        self.rename_at(directory, last, place.chain, place.last)
    }

    /// Renames it to the last piece of another path, which stands in the directory of this chain.
    fn rename_at(
        &mut self,
        directory: FileNumber,
        from: Option<Last<'_>>,
        chain: Chain,
        to: Option<Last<'_>>,
    ) -> Result<(), FsError>
        requires ready { IsReady self.old }
        ensures { (v : Mounted D) (a b : List ℕ)
            → ReachesBoth D.SectorDevice.state v self.old a directory.value from.entry
            b chain
            to.entry
            → Serves D.SectorDevice.state v (seen self.new) (Rename a b)
            (answer_by (λ _. Done) result) }
    {
        let Some(from) = from else {
            return Err(FsError::Busy);
        };
        let Some(to) = to else {
            return Err(FsError::Busy);
        };
        if is_dots(from.name) {
            return Err(FsError::Inval);
        }
        if is_dots(to.name) {
            return Err(FsError::Inval);
        }
        let found = check_rename(&mut self.store, directory, from, chain, to)?;
        let Some((source, target)) = found else {
            return self.check_worn();
        };
        let is_open = is_open(&self.handles, target.replaced);
        let drafted = draft_move(&mut self.store, source, target, is_open);
        self.finish(drafted)
    }
}

/// Whether a handle is open on what was found.
fn is_open(handles: &Handles, found: Option<Object>) -> bool
    ensures held { IsTrue result → IsOpen handles.now found }
    ensures shut { IsFalse result → IsShut handles.now found }
{
    match found {
        Some(object) => handles.gives(object.number),
        None => false,
    }
}
