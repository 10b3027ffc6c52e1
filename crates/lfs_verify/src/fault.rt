//! Why a walk ends, and why a device isn't mounted.
ghost use Rattle.std.specs.Prelude.{◌≡◌};
ghost use Rattle.lfs_verify.specs.Faults.{mount_fault_name};

use std::alloc::AllocError;

/// Why a walk ends before its last step.
#[derive(Clone, Copy, Debug, PartialEq, Eq)]
pub enum WalkFault {
    /// Memory was refused.
    NoMemory,
    /// The first stage that fails.
    Damaged(u8),
    /// A call of the device failed.
    Device,
}

/// Why a device isn't mounted.
#[derive(Clone, Copy, Debug, PartialEq, Eq)]
pub enum MountFault {
    /// Memory was refused.
    NoMemory,
    /// A device call failed.
    Device,
    /// The device has too few sectors.
    TooSmall,
    /// No slot holds a checkpoint.
    NoCheckpoint,
    /// The first stage that fails of those that a volume has to pass.
    Damaged(u8),
}

impl MountFault {
    /// Its name, without the stage of damage.
    pub fn name(self) -> &'static str
        ensures { result.now ≡ mount_fault_name self }
    {
        match self {
            MountFault::NoMemory => "NoMemory",
            MountFault::Device => "Device",
            MountFault::TooSmall => "TooSmall",
            MountFault::NoCheckpoint => "NoCheckpoint",
            MountFault::Damaged(_) => "Damaged",
        }
    }
}

impl From<AllocError> for MountFault {
    fn from(_: AllocError) -> MountFault
        ensures { result ≡ MountFault.NoMemory }
    {
        MountFault::NoMemory
    }
}
