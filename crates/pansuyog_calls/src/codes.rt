//! The numbers that C is answered: from 0 on for a call that was done, below for one that was
//! refused. They never change.
ghost use Rattle.std.specs.Prelude.{◌≡◌};
ghost use Rattle.lfs_model.specs.Call.{Count, Done, FormatVersion, Handle};
ghost use Rattle.lfs_fs.specs.Refusals.{refusal_of};
ghost use Rattle.lfs_fs.specs.Seen.{answer_by};
ghost use Rattle.pansuyog_calls.specs.Codes.{code_of_answer, code_of_mount_fault, code_of_refusal};

use lfs_fs::{FsError, MountFault};

/// No call of a volume is made: the argument isn't taken, or there is no device.
pub const INVAL: i32 = -6;

/// Memory was refused.
pub const NO_MEMORY: i32 = -18;

/// A device call failed.
pub const DEVICE: i32 = -19;

/// The device has too few sectors.
pub const TOO_SMALL: i32 = -30;

/// No slot of the device holds a checkpoint.
pub const NO_CHECKPOINT: i32 = -31;

/// No volume is mounted.
pub const NOT_MOUNTED: i32 = -40;

/// A volume is mounted already.
pub const ALREADY_MOUNTED: i32 = -41;

/// No order of this number waits.
pub const NO_ORDER: i32 = -42;

/// The volume is only read, and the call may write.
pub const READ_ONLY: i32 = -43;

/// Another program has the file.
pub const IN_USE: i32 = -44;

/// The file can't be locked.
pub const LOCK_FAILED: i32 = -45;

/// The number of a refusal.
pub(crate) fn code_of(fault: FsError) -> i32
    ensures { result ≡ code_of_refusal (refusal_of fault) }
{
    match fault {
        FsError::NoEntry => -1,
        FsError::NotDir => -2,
        FsError::IsDir => -3,
        FsError::Exist => -4,
        FsError::NotEmpty => -5,
        FsError::Inval => INVAL,
        FsError::NameTooLong => -7,
        FsError::Loop => -8,
        FsError::Perm => -9,
        FsError::Busy => -10,
        FsError::BadHandle => -11,
        FsError::TooManyOpen => -12,
        FsError::TooManyLinks => -13,
        FsError::FileTooBig => -14,
        FsError::NoSpace => -15,
        FsError::NoNumber => -16,
        FsError::DirFull => -17,
        FsError::NoMemory => NO_MEMORY,
        FsError::Device => DEVICE,
        FsError::Halted => -20,
        FsError::Stuck => -21,
        FsError::Worn => -22,
    }
}

/// The number of a mount that is refused. Where the volume is damaged it tells the stage.
pub fn code_of_mount(fault: MountFault) -> i32
    ensures { result ≡ code_of_mount_fault fault }
{
    match fault {
        MountFault::NoMemory => NO_MEMORY,
        MountFault::Device => DEVICE,
        MountFault::TooSmall => TOO_SMALL,
        MountFault::NoCheckpoint => NO_CHECKPOINT,
        MountFault::Damaged(stage) => -(100 + i32::from(stage)),
    }
}

/// The number of a call without a value.
pub(crate) fn done(outcome: Result<(), FsError>) -> i32
    ensures { result ≡ code_of_answer (answer_by (λ _. Done) outcome) }
{
    match outcome {
        Ok(()) => 0,
        Err(fault) => code_of(fault),
    }
}

/// The number of a call whose value is a number.
pub(crate) fn counted(outcome: Result<u32, FsError>) -> i32
    ensures handle { result ≡ code_of_answer (answer_by Handle outcome) }
    ensures count { result ≡ code_of_answer (answer_by Count outcome) }
    ensures version { result ≡ code_of_answer (answer_by FormatVersion outcome) }
{
    match outcome {
        Ok(count) => i32::try_from(count).unwrap_or(i32::MAX),
        Err(fault) => code_of(fault),
    }
}
