//! Calls on the whole volume (POSIX.1-2017: fsync, sync), and those that the volume has besides.
ghost use Rattle.lfs_model.specs.Call.{Fsync, Sync, Clean, Version, Upgrade};
ghost use Rattle.lfs_volume.specs.Found.{by_volume};
ghost use Rattle.pansuyog_calls.specs.Cleaning.{CleansOnceIn, TellsDue};
ghost use Rattle.pansuyog_calls.specs.Serving.{ServesCall, ServesChange};

use crate::access::Access;
use crate::codes::{NOT_MOUNTED, READ_ONLY, counted, done};
use lfs_device::SectorDevice;
use lfs_fs::{Fs, InVolume};

/// Saves the whole volume, with the file of a handle.
pub fn fsync<D: SectorDevice>(fs: &mut Option<Fs<InVolume<D>>>, access: Access, file: u32) -> i32
    ensures serves { ServesChange (by_volume D.state) access fs.old fs.new (Fsync file) result }
{
    match (fs, access) {
        (Some(fs), Access::ReadWrite) => done(fs.fsync(file)),
        (Some(_), Access::ReadOnly) => READ_ONLY,
        (None, _) => NOT_MOUNTED,
    }
}

/// Saves the whole volume: behind `0` every call before survives a stop, once the device did what it
/// was told.
pub fn sync<D: SectorDevice>(fs: &mut Option<Fs<InVolume<D>>>, access: Access) -> i32
    ensures serves { ServesChange (by_volume D.state) access fs.old fs.new Sync result }
{
    match (fs, access) {
        (Some(fs), Access::ReadWrite) => done(fs.sync()),
        (Some(_), Access::ReadOnly) => READ_ONLY,
        (None, _) => NOT_MOUNTED,
    }
}

/// Cleans segments until a quarter of them is clean.
pub fn clean<D: SectorDevice>(fs: &mut Option<Fs<InVolume<D>>>, access: Access) -> i32
    ensures serves { ServesChange (by_volume D.state) access fs.old fs.new Clean result }
{
    match (fs, access) {
        (Some(fs), Access::ReadWrite) => done(fs.clean()),
        (Some(_), Access::ReadOnly) => READ_ONLY,
        (None, _) => NOT_MOUNTED,
    }
}

/// 1 where fewer than a quarter of the segments is clean, so that a cleaning has something to do;
/// else 0.
pub fn is_cleaning_due<D: SectorDevice>(fs: &Option<Fs<InVolume<D>>>) -> i32
    ensures { TellsDue fs.now result }
{
    match fs {
        Some(fs) => i32::from(fs.is_cleaning_due()),
        None => NOT_MOUNTED,
    }
}

/// One pass of the cleaner where that is so, and none else. What isn't saved is saved before it. The
/// device is told at most 520 orders, and 8 more for each segment.
pub fn clean_once<D: SectorDevice>(fs: &mut Option<Fs<InVolume<D>>>, access: Access) -> i32
    ensures serves { ServesChange (by_volume D.state) access fs.old fs.new Clean result }
    ensures once { CleansOnceIn (by_volume D.state) fs.old fs.new result }
{
    match (fs, access) {
        (Some(fs), Access::ReadWrite) => done(fs.clean_once()),
        (Some(_), Access::ReadOnly) => READ_ONLY,
        (None, _) => NOT_MOUNTED,
    }
}

/// The version of the volume's layout: 1 or 2.
pub fn version<D: SectorDevice>(fs: &mut Option<Fs<InVolume<D>>>) -> i32
    ensures serves { ServesCall (by_volume D.state) fs.old fs.new Version result }
{
    match fs {
        Some(fs) => counted(fs.version()),
        None => NOT_MOUNTED,
    }
}

/// Raises the version of the volume's layout to 2.
pub fn upgrade<D: SectorDevice>(fs: &mut Option<Fs<InVolume<D>>>, access: Access) -> i32
    ensures serves { ServesChange (by_volume D.state) access fs.old fs.new Upgrade result }
{
    match (fs, access) {
        (Some(fs), Access::ReadWrite) => done(fs.upgrade()),
        (Some(_), Access::ReadOnly) => READ_ONLY,
        (None, _) => NOT_MOUNTED,
    }
}
