//! A file is taken as the device of a volume.
ghost use Rattle.std.specs.Prelude.{◌≡◌, ◌⊎◌, IfErr};
ghost use Rattle.pansuyog_calls.specs.Codes.{in_use, lock_failed};
ghost use Rattle.pansuyog_calls.specs.Taking.{Takes};

use crate::access::Access;
use crate::codes::{ALREADY_MOUNTED, DEVICE, IN_USE, LOCK_FAILED, NO_MEMORY};
use crate::volume::VolumeIn;
use lfs_device::{FileDeviceIn, FileFault, World};
use std::alloc::Global;
use std::fs::{File, TryLockError};

/// Locks a file, as the program `lfs` does: against all others for who writes, and against those for
/// who reads. The lock goes with the file.
fn lock(file: &File, access: Access) -> Result<(), i32>
    ensures { IfErr result (λ code. (code ≡ in_use) ⊎ (code ≡ lock_failed)) }
{
    let locked = match access {
        Access::ReadWrite => file.try_lock(),
        Access::ReadOnly => file.try_lock_shared(),
    };
    match locked {
        Ok(()) => Ok(()),
        Err(TryLockError::WouldBlock) => Err(IN_USE),
        Err(TryLockError::Error(_)) => Err(LOCK_FAILED),
    }
}

/// Takes a file as the device, where no volume is mounted. What was held before is closed then. A
/// file that isn't taken is closed, and nothing changes.
pub fn take<W: World>(
    alloc: Global,
    volume: &mut VolumeIn<FileDeviceIn<W>>,
    file: File,
    access: Access,
) -> i32
    ensures { Takes access volume.old volume.new result }
{
    if volume.fs.is_some() {
        return ALREADY_MOUNTED;
    }
    match lock(&file, access) {
        Ok(()) => {}
        Err(code) => return code,
    }
    match FileDeviceIn::new(alloc, file) {
        Ok(device) => {
            volume.device = Some(device);
            volume.access = access;
            volume.recorder = None;
            0
        }
        Err(FileFault::NoMemory) => NO_MEMORY,
        Err(FileFault::Failed) => DEVICE,
    }
}

/// The system's number (`errno`) of the newest call of the file that failed, or 0.
pub fn last_error<W: World>(volume: &VolumeIn<FileDeviceIn<W>>) -> i32 {
    let found = match &volume.fs {
        Some(fs) => fs.device().device().last_error(),
        None => match &volume.device {
            Some(device) => device.last_error(),
            None => None,
        },
    };
    found.unwrap_or(0)
}
