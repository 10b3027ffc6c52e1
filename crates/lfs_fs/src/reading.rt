//! Calls that read: bytes of a file, what is told of an object, and of the volume.
ghost use Rattle.std.specs.Prelude.{◌≡◌, true, false, IfOk, IfErr, OnOk, OnErr};
ghost use Rattle.lfs_model.specs.Call as call;
ghost use Rattle.lfs_model.specs.Call.{Data, FormatVersion, LstatOf, Pread, Readlink, StatOf, Status, Text};
ghost use Rattle.lfs_model.specs.Tree.{State};
ghost use Rattle.lfs_fs.specs.Answers.{room_of, status_of};
ghost use Rattle.lfs_fs.specs.Reading.{stat_call};
ghost use Rattle.lfs_fs.specs.Seen.{answer_by, seen};
ghost use Rattle.lfs_fs.specs.Shapes.{IsShapeOf};
ghost use Rattle.lfs_fs.specs.Volume.{Runs, Serves};

use crate::error::FsError;
use crate::fs::Fs;
use crate::rows::{Space, Stat};
use lfs_device::SectorDevice;
use lfs_entries::{read_link, read_object};
use lfs_format::Shape;
use lfs_model::limits::{LONGEST_TRANSFER, SEGMENT_SECTORS};
use lfs_path::header_of;

impl<D: SectorDevice> Fs<D> {
    /// The bytes of a file from `offset` on, at most `len`; none at or past its end (POSIX.1-2017,
    /// pread).
    ///
    /// # Errors
    ///
    /// `BadHandle`; `Inval` where `len` is above 65,536.
    pub fn pread(&mut self, handle: u32, offset: u64, len: u32) -> Result<Vec<u8>, FsError>
        ensures { Serves D.SectorDevice.state (seen self.old) (seen self.new)
            (Pread handle offset len) (answer_by (λ bytes. Data bytes.items) result) }
    {
        self.begin()?;
        let number = self.file(handle)?;
        if len > LONGEST_TRANSFER {
            return Err(FsError::Inval);
        }
        let bytes = read_object(self.alloc, &mut self.store, number, offset, len)?;
        Ok(bytes)
    }

    /// What is told of the object of a path (POSIX.1-2017, stat).
    ///
    /// # Errors
    ///
    /// Those of the path.
    pub fn stat(&mut self, path: &[u8]) -> Result<Stat, FsError>
        ensures { Serves D.SectorDevice.state (seen self.old) (seen self.new)
            (StatOf path.now)
            (answer_by (λ stat. Status (status_of stat)) result) }
    {
        self.status(path, true)
    }

    /// The same, where the last piece of the path may be a link that isn't followed (POSIX.1-2017,
    /// lstat).
    ///
    /// # Errors
    ///
    /// Those of the path.
    pub fn lstat(&mut self, path: &[u8]) -> Result<Stat, FsError>
        ensures { Serves D.SectorDevice.state (seen self.old) (seen self.new)
            (LstatOf path.now)
            (answer_by (λ stat. Status (status_of stat)) result) }
    {
        self.status(path, false)
    }

    /// What is told of the object of a path, whose last link is followed or not.
    fn status(&mut self, path: &[u8], follow: bool) -> Result<Stat, FsError>
        ensures { Serves D.SectorDevice.state (seen self.old) (seen self.new)
            (stat_call follow path.now) (answer_by (λ stat. Status (status_of stat)) result) }
    {
        let number = self.begin_with(path, follow)?;
        let header = header_of(&mut self.store, number)?;
        Ok(Stat {
            number: u32::from(number.value),
            kind: header.kind,
            links: header.links,
            size: u64::from(header.size),
        })
    }

    /// The text of the link of a path (POSIX.1-2017, readlink).
    ///
    /// # Errors
    ///
    /// Those of the path; `Inval` where it gives no link.
    pub fn readlink(&mut self, path: &[u8]) -> Result<Vec<u8>, FsError>
        ensures { Serves D.SectorDevice.state (seen self.old) (seen self.new)
            (Readlink path.now)
            (answer_by (λ text. Text text.items) result) }
    {
        let number = self.begin_with(path, false)?;
        let text = read_link(self.alloc, &mut self.store, number)?;
        Ok(text)
    }

    /// What the tree needs, and the most that it may need.
    ///
    /// # Errors
    ///
    /// `Halted` alone.
    pub fn space(&mut self) -> Result<Space, FsError>
        ensures { Serves D.SectorDevice.state (seen self.old) (seen self.new)
            call.Space
            (answer_by room_of result) }
    {
        self.begin()?;
        Ok(self.space_of(self.store.space()))
    }

    /// The version of the volume's layout: 1 to 3.
    ///
    /// # Errors
    ///
    /// `Halted` alone.
    pub fn version(&mut self) -> Result<u32, FsError>
        ensures { Serves D.SectorDevice.state (seen self.old) (seen self.new)
            call.Version
            (answer_by FormatVersion result) }
    {
        self.begin()?;
        Ok(self.store.version())
    }

    /// The shape of the volume, by which `format_with` makes another one like it.
    ///
    /// # Errors
    ///
    /// `Halted` alone.
    pub fn shape(&self) -> Result<Shape, FsError>
        ensures shape { IfOk result (IsShapeOf (seen self.now)) }
        ensures model { IfOk result (λ shape. (s : State)
            → Runs D.SectorDevice.state (seen self.now) s → s.version ≡ shape.version) }
        ensures running { OnOk result ((seen self.now).log.halted ≡ false) }
        ensures halted { OnErr result ((seen self.now).log.halted ≡ true) }
        ensures fault { IfErr result (λ fault. fault ≡ FsError.Halted) }
    {
        if self.store.is_halted() {
            return Err(FsError::Halted);
        }
        self.store.has_segment_count();
        Ok(Shape {
            segments: self.store.segments(),
            version: self.store.version(),
            segment_sectors: SEGMENT_SECTORS,
            unit: u32::from(self.store.usage().unit_sectors()),
        })
    }
}
