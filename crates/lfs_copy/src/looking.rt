//! What is asked of both volumes before anything is copied.
ghost use Rattle.lfs_fs.specs.Seen.{seen};
ghost use Rattle.lfs_copy.specs.Looking.{LooksAtNew, LooksAtOld, Measures};

use crate::fault::CopyFault;
use lfs_device::SectorDevice;
use lfs_fs::{Fs, FsError, TreeRow};

/// What the old volume tells.
#[derive(Drop)]
pub struct Told {
    /// Its tree.
    pub rows: Vec<TreeRow>,
    /// The blocks that the tree needs.
    pub need: u64,
    /// The bytes of its root.
    pub size: u64,
}

/// What the new volume tells, which is empty.
#[derive(Clone, Copy)]
pub struct Target {
    /// Of its layout.
    pub version: u32,
    /// The most blocks that its tree may need.
    pub limit: u64,
}

/// Asks the old volume for its tree, and what that needs.
///
/// # Errors
///
/// Those of `tree`, `space` and `stat`.
pub fn look_at_old<D: SectorDevice>(from: &mut Fs<D>) -> Result<Told, FsError>
    ensures { LooksAtOld D.SectorDevice.state (seen from.old) (seen from.new) result }
{
    let rows = from.tree()?;
    let space = from.space()?;
    let root = from.stat(b"/")?;
    Ok(Told {
        rows,
        need: space.need,
        size: root.size,
    })
}

// Asks the new volume for its version and its limit.
fn measure<E: SectorDevice>(to: &mut Fs<E>) -> Result<Target, FsError>
    ensures { Measures E.SectorDevice.state (seen to.old) (seen to.new) result }
{
    let version = to.version()?;
    let space = to.space()?;
    Ok(Target {
        version,
        limit: space.limit,
    })
}

/// Asks the new volume what it takes. It has to be empty.
///
/// # Errors
///
/// `NotEmpty`; what `readdir`, `version` and `space` refuse.
pub fn look_at_new<E: SectorDevice>(to: &mut Fs<E>) -> Result<Target, CopyFault>
    ensures { LooksAtNew E.SectorDevice.state (seen to.old) (seen to.new) result }
{
    let entries = match to.readdir(b"/") {
        Ok(entries) => entries,
        Err(fault) => return Err(CopyFault::New(fault)),
    };
    if !entries.is_empty() {
        return Err(CopyFault::NotEmpty);
    }
    match measure(to) {
        Ok(target) => Ok(target),
        Err(fault) => Err(CopyFault::New(fault)),
    }
}
