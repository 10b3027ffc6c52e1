// A device over a file. What is proved of its contents holds where the file's answers were those of
// a device of the model.
ghost use Rattle.std.specs.Prelude.{◌^◌, ◌<◌};
ghost use Rattle.lfs_device.specs.File.{file_lawful};
ghost use Rattle.lfs_device.specs.History.{calls_of};
ghost use Rattle.lfs_device.specs.InOrder.{AreInOrder, AreInOrder-prop, in_order_whole};
ghost use Rattle.lfs_device.specs.SectorFile.{events_in};

use crate::host::HostFile;
use crate::sector_file::SectorFile;
use crate::{DeviceFault, ReadFault, SectorDevice, ThisWorld, World};
use lfs_model::limits::SECTOR_LEN;
use std::alloc::{AllocError, Global};
use std::fs::{File, Metadata};
use std::marker::PhantomData;
use std::snapshot::Snapshot;

/// Why a file isn't taken as a device.
#[derive(Clone, Copy, Debug, PartialEq, Eq)]
pub enum FileFault {
    /// There is no memory for the device.
    NoMemory,
    /// A call of the system failed.
    Failed,
}

impl From<AllocError> for FileFault {
    fn from(_: AllocError) -> Self {
        FileFault::NoMemory
    }
}

/// A file of the world `W` as a device, sector after sector. It never answers `Unreadable`.
///
/// Sectors that follow one another make a run of at most 64, which is kept in memory and goes out by
/// one call of the system: a write at an offset. A write of a sector of the run, or of the next one
/// behind it, makes no call, nor does one of the sector before it, for one sector of a run. Another
/// write sends the run first and begins a new one, and a sync sends it before it lets all reach the
/// medium. Where that fails, the write or sync fails and does nothing, and the run stays. A read of
/// a sector of the run gives what is kept, another one reads the file. A run that isn't sent is lost
/// as the device is dropped, as a stop would lose it.
///
/// It keeps the device model as far as each read that succeeded gave what such a device would hold
/// by then: a read of the run does. What it held as it was opened, and what a stop would have left
/// of that, is its fate in `W`. The contract of each call holds in every world, so for whatever the
/// file held.
#[derive(Drop)]
pub struct FileDeviceIn<W: World> {
    file: SectorFile,
    world: PhantomData<W>,
    sectors: u32,
    ghost fits: { sectors < 2 ^ 32 },
    opened: Snapshot<Metadata>,
    last_error: Option<i32>,
    ghost in_order: { AreInOrder sectors (events_in file) } by { AreInOrder-prop sectors (events_in file) },
}

/// A file as a device, in the world that a program names.
pub type FileDevice = FileDeviceIn<ThisWorld>;

impl<W: World> FileDeviceIn<W> {
    ghost use Rattle.std.specs.Prelude.{◌≡◌, ◌≤◌, ◌/◌, ℕ, min, length, Some, None, [], ◌∷◌, IfOk};
    ghost use Rattle.lfs_device.specs.Event.{last_kept};
    ghost use Rattle.lfs_device.specs.FileDevice.{events_of, host_calls_of, run_of, state_of_file};
    ghost use Rattle.lfs_device.specs.HostCall.{Length};
    ghost use Rattle.lfs_device.specs.InOrder.{orders_told};
    ghost use Rattle.lfs_device.specs.Runs.{IsEmpty, IsOf, bytes_of};
    ghost use Rattle.lfs_device.specs.Sent.{AreSentOrKept};
    ghost use Rattle.lfs_device.specs.declared.unsent.TheConstants.{LONGEST_RUN};

    /// The whole sectors of a file or of a block device, as many as there are now, at most
    /// `u32::MAX`. No call was made on them yet. Their length is what seeking to the end says,
    /// since the metadata of a block device have none. The memory for every later call is taken here.
    ///
    /// # Errors
    ///
    /// `NoMemory` where there is none for the run, and `Failed` where the metadata or the length
    /// can't be had.
    pub fn new(alloc: Global, file: File) -> Result<FileDeviceIn<W>, FileFault>
        ensures opened { IfOk result (λ d. (state_of_file d).moment ≡ 0) }
        ensures failures { IfOk result (λ d. (state_of_file d).failures ≡ 0) }
        ensures keeps { IfOk result (λ d. (state_of_file d).keeps_model) }
        ensures made { IfOk result (λ d. (len : ℕ) × (host_calls_of d ≡ Length (Some len) ∷ [])
            × ((state_of_file d).size ≡ min (len / SECTOR_LEN) u32.MAX)) }
        ensures none_kept { IfOk result (λ d. IsEmpty (run_of d)) }
    {
        let mut host = HostFile::new(file);
        let Ok(metadata) = host.metadata() else {
            return Err(FileFault::Failed);
        };
        let Ok(len) = host.len() else {
            return Err(FileFault::Failed);
        };
        Ok(FileDeviceIn {
            file: SectorFile::new(alloc, host)?,
            world: PhantomData,
            sectors: u32::try_from(len / SECTOR_LEN as u64).unwrap_or(u32::MAX),
            opened: Snapshot::of(&metadata),
            last_error: None,
        })
    }

    /// The system's number (`errno`) of the newest call that failed: none where none did, or where
    /// the system gave none, as at the end of the file.
    pub fn last_error(&self) -> Option<i32> {
        self.last_error
    }

    /// What the device was told is what it sent, run by run, and then what it keeps.
    ///
    /// Each write of the system has the run that was kept by then, whole and in its place, be it done
    /// or failed, and each sync comes where nothing is kept. A sector of the run has the bytes of the
    /// last write to it that was taken since a run was sent, and no other sector was written since.
    pub fn orders_are_sent(&self)
        ensures sent { AreSentOrKept (host_calls_of self.now) (run_of self.now)
            (state_of_file self.now).told }
        ensures few { length (run_of self.now).sectors ≤ LONGEST_RUN }
        ensures in_order { AreInOrder self.now.sectors (events_of self.now) }
        ensures told { (state_of_file self.now).told ≡ orders_told (events_of self.now) }
        ensures last { (sector : ℕ) → IsOf (run_of self.now) sector
            → last_kept (events_of self.now) sector ≡ Some (bytes_of (run_of self.now) sector) }
        ensures others { (sector : ℕ) → ¬ (IsOf (run_of self.now) sector)
            → last_kept (events_of self.now) sector ≡ None }
    {}
}

impl<W: World> SectorDevice for FileDeviceIn<W> {
    ghost use Rattle.std.specs.Prelude.{◌≡◌, ◌∷◌, Some, None, is_ok, OnOk, OnErr, IsErrOf};
    ghost use Rattle.lfs_model.specs.Device.{cell_at, put, MayWriteUnit, Carries, Elapses, IsUntouched, CrashWritesUnit, CrashSpreads, MayTell, BearsAll, Only};
    ghost use Rattle.lfs_model.specs.declared.Order.TheVariants as order;
    ghost use Rattle.lfs_device.specs.FileCalls.{ReadsFile, SyncsFile, WritesFile};
    ghost use Rattle.lfs_device.specs.FileDevice.{events_of, run_of, state_of_file};
    ghost use Rattle.lfs_device.specs.Runs.{IsEmpty, IsOf};

    ghost state = { state_of_file };

    ghost lawful = { λ d. file_lawful d.sectors (W.fate d.opened.value d.sectors) (calls_of (events_of d)) d.fits (in_order_whole d.sectors (events_of d) d.in_order) };

    fn sectors(&self) -> u32 {
        self.sectors
    }

    fn read(&mut self, sector: u32, out: &mut [u8; 512]) -> Result<(), ReadFault>
        requires { sector < (state_of_file self.old).size }
        ensures value { OnOk result ((state_of_file self.new).keeps_model
            → cell_at (state_of_file self.old).content sector ≡ Some out.new) }
        ensures unreadable { IsErrOf result ReadFault.Unreadable
            → (state_of_file self.new).keeps_model
            → cell_at (state_of_file self.old).content sector ≡ None }
        ensures failed { IsErrOf result ReadFault.Failed
            → (state_of_file self.old).failures < (state_of_file self.new).failures }
        ensures no_failure { OnOk result
            ((state_of_file self.new).failures ≡ (state_of_file self.old).failures) }
        ensures no_failure_unreadable { IsErrOf result ReadFault.Unreadable
            → (state_of_file self.new).failures ≡ (state_of_file self.old).failures }
        ensures no_order { (state_of_file self.new).failed_orders
            ≡ (state_of_file self.old).failed_orders }
        ensures borne { IsErrOf result ReadFault.Failed → BearsAll (state_of_file self.old) }
        ensures untouched { IsUntouched (state_of_file self.old) (state_of_file self.new) }
        ensures carries { Carries (state_of_file self.old) (state_of_file self.new) }
        ensures time { Elapses (state_of_file self.old) (state_of_file self.new) }
        ensures told { (state_of_file self.new).told ≡ (state_of_file self.old).told }
        ensures never_unreadable { ¬ (IsErrOf result ReadFault.Unreadable) }
        ensures made { ReadsFile sector out.new (is_ok result)
            (events_of self.old) (events_of self.new) }
        ensures from_run { IsOf (run_of self.old) sector → (state_of_file self.old).keeps_model
            → (state_of_file self.new).keeps_model }
    {
        if let Err(error) = self.file.read(sector, out) {
            self.last_error = error.raw_os_error();
            return Err(ReadFault::Failed);
        }
        Ok(())
    }

    fn write(&mut self, sector: u32, bytes: &[u8; 512]) -> Result<(), DeviceFault>
        requires { sector < (state_of_file self.old).size }
        ensures written { OnOk result ((state_of_file self.new).keeps_model
            → (state_of_file self.new).content ≡ put
            (state_of_file self.old).content sector bytes.now) }
        ensures failed_write { OnErr result ((state_of_file self.new).keeps_model
            → MayWriteUnit (state_of_file self.old).unit sector bytes.now
            (state_of_file self.old).content (state_of_file self.new).content) }
        ensures crash { CrashWritesUnit sector bytes.now (state_of_file self.old)
            (state_of_file self.new) }
        ensures failed { OnErr result
            ((state_of_file self.old).failures < (state_of_file self.new).failures) }
        ensures failed_order { OnErr result
            ((state_of_file self.old).failed_orders < (state_of_file self.new).failed_orders) }
        ensures borne { OnErr result (BearsAll (state_of_file self.old)) }
        ensures no_failure { OnOk result
            ((state_of_file self.new).failures ≡ (state_of_file self.old).failures) }
        ensures carries { Carries (state_of_file self.old) (state_of_file self.new) }
        ensures time { Elapses (state_of_file self.old) (state_of_file self.new) }
        ensures told { OnOk result ((state_of_file self.new).told
            ≡ order.Write sector bytes.now ∷ (state_of_file self.old).told) }
        ensures may_tell { OnErr result (MayTell (order.Write sector bytes.now)
            (state_of_file self.old).told (state_of_file self.new).told) }
        ensures spreads { CrashSpreads sector bytes.now (state_of_file self.old)
            (state_of_file self.new) }
        ensures made { WritesFile sector bytes.now (is_ok result)
            (events_of self.old) (events_of self.new) }
    {
        if let Err(error) = self.file.write(sector, bytes) {
            self.last_error = error.raw_os_error();
            return Err(DeviceFault);
        }
        Ok(())
    }

    fn sync(&mut self) -> Result<(), DeviceFault>
        ensures durable { OnOk result ((state_of_file self.new).keeps_model
            → Only (state_of_file self.new).content (state_of_file self.new)) }
        ensures failed { OnErr result
            ((state_of_file self.old).failures < (state_of_file self.new).failures) }
        ensures failed_order { OnErr result
            ((state_of_file self.old).failed_orders < (state_of_file self.new).failed_orders) }
        ensures borne { OnErr result (BearsAll (state_of_file self.old)) }
        ensures no_failure { OnOk result
            ((state_of_file self.new).failures ≡ (state_of_file self.old).failures) }
        ensures untouched { IsUntouched (state_of_file self.old) (state_of_file self.new) }
        ensures carries { Carries (state_of_file self.old) (state_of_file self.new) }
        ensures time { Elapses (state_of_file self.old) (state_of_file self.new) }
        ensures told { OnOk result ((state_of_file self.new).told
            ≡ order.Sync ∷ (state_of_file self.old).told) }
        ensures may_tell { OnErr result (MayTell order.Sync
            (state_of_file self.old).told (state_of_file self.new).told) }
        ensures made { SyncsFile (is_ok result) (events_of self.old) (events_of self.new) }
        ensures sent { OnOk result (IsEmpty (run_of self.new)) }
    {
        if let Err(error) = self.file.sync() {
            self.last_error = error.raw_os_error();
            return Err(DeviceFault);
        }
        Ok(())
    }
}
