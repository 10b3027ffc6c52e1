//! A volume as C has it.
use crate::access::Access;
use lfs_device::SectorDevice;
use lfs_fs::{Entry, Fs, InVolume};
use lfs_record::Recorder;

/// A volume over a device: mounted or not, with the names that were listed last.
#[derive(Drop)]
pub struct VolumeIn<D: SectorDevice> {
    pub fs: Option<Fs<InVolume<D>>>,
    /// A device on which no volume is mounted.
    pub device: Option<D>,
    pub listing: Vec<Entry>,
    pub access: Access,
    /// A recorder over the mounted volume, once one has begun.
    pub recorder: Option<Recorder>,
}
