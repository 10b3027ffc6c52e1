//! Why a call is refused.
ghost use Rattle.std.specs.Prelude.{◌≡◌};
ghost use Rattle.lfs_model.specs.Script.{refusal_name};
ghost use Rattle.lfs_fs.specs.Refusals.{refusal_of};
ghost use Rattle.lfs_fs.specs.Faults.{error_of_entry, error_of_log, error_of_store, error_of_walk};

use lfs_entries::EntryFault;
use lfs_path::WalkFault;
use lfs_store::{LogFault, StoreFault};
use std::alloc::AllocError;

/// Why a call of a mounted volume is refused. After all but `Halted` the tree and the handles are
/// as before.
#[derive(Clone, Copy, Debug, PartialEq, Eq)]
pub enum FsError {
    /// A name isn't there, or a path is empty.
    NoEntry,
    /// A directory is needed here.
    NotDir,
    /// A directory isn't taken here.
    IsDir,
    /// The entry is there already.
    Exist,
    /// The directory has entries.
    NotEmpty,
    /// An argument isn't taken.
    Inval,
    /// A name, path or link text is too long.
    NameTooLong,
    /// More than 40 links were to be followed.
    Loop,
    /// A directory isn't linked or unlinked.
    Perm,
    /// The root can't be removed or renamed.
    Busy,
    /// No such open handle.
    BadHandle,
    /// 64 handles are open.
    TooManyOpen,
    /// The object has 1,000 links.
    TooManyLinks,
    /// Past the greatest file size.
    FileTooBig,
    /// The need of the tree after the call exceeds the limit.
    NoSpace,
    /// All 4,095 numbers are taken.
    NoNumber,
    /// The directory has no room for another entry.
    DirFull,
    /// Memory was refused.
    NoMemory,
    /// A device call failed outside a commit.
    Device,
    /// A write, a sync or a commit failed: the volume answers this until it is mounted again.
    Halted,
    /// Too few segments are clean: no call answers so, for the cleaner makes room.
    Stuck,
    /// The checkpoint's number is 2^62 or above.
    Worn,
}

impl FsError {
    pub fn name(self) -> &'static str
        ensures { result.now ≡ refusal_name (refusal_of self) }
    {
        match self {
            FsError::NoEntry => "NoEntry",
            FsError::NotDir => "NotDir",
            FsError::IsDir => "IsDir",
            FsError::Exist => "Exist",
            FsError::NotEmpty => "NotEmpty",
            FsError::Inval => "Inval",
            FsError::NameTooLong => "NameTooLong",
            FsError::Loop => "Loop",
            FsError::Perm => "Perm",
            FsError::Busy => "Busy",
            FsError::BadHandle => "BadHandle",
            FsError::TooManyOpen => "TooManyOpen",
            FsError::TooManyLinks => "TooManyLinks",
            FsError::FileTooBig => "FileTooBig",
            FsError::NoSpace => "NoSpace",
            FsError::NoNumber => "NoNumber",
            FsError::DirFull => "DirFull",
            FsError::NoMemory => "NoMemory",
            FsError::Device => "Device",
            FsError::Halted => "Halted",
            FsError::Stuck => "Stuck",
            FsError::Worn => "Worn",
        }
    }
}

impl From<AllocError> for FsError {
    fn from(_: AllocError) -> FsError
        ensures { result ≡ FsError.NoMemory }
    {
        FsError::NoMemory
    }
}

impl From<LogFault> for FsError {
    ghost from_gives = { λ fault error. error ≡ error_of_log fault };

    fn from(fault: LogFault) -> FsError
        ensures { result ≡ error_of_log fault }
    {
        match fault {
            LogFault::Device => FsError::Device,
            LogFault::Halted => FsError::Halted,
            // A volume has room always: the device contradicts what it held.
            LogFault::Full => FsError::Device,
        }
    }
}

impl From<StoreFault> for FsError {
    ghost from_gives = { λ fault error. error ≡ error_of_store fault };

    fn from(fault: StoreFault) -> FsError
        ensures { result ≡ error_of_store fault }
    {
        match fault {
            StoreFault::NoMemory => FsError::NoMemory,
            StoreFault::Log(fault) => FsError::from(fault),
        }
    }
}

impl From<WalkFault> for FsError {
    ghost from_gives = { λ fault error. error ≡ error_of_walk fault };

    fn from(fault: WalkFault) -> FsError
        ensures { result ≡ error_of_walk fault }
    {
        match fault {
            WalkFault::NoEntry => FsError::NoEntry,
            WalkFault::NotDir => FsError::NotDir,
            WalkFault::NameTooLong => FsError::NameTooLong,
            WalkFault::Inval => FsError::Inval,
            WalkFault::Loop => FsError::Loop,
            WalkFault::NoMemory => FsError::NoMemory,
            WalkFault::Log(fault) => FsError::from(fault),
        }
    }
}

impl From<EntryFault> for FsError {
    ghost from_gives = { λ fault error. error ≡ error_of_entry fault };

    fn from(fault: EntryFault) -> FsError
        ensures { result ≡ error_of_entry fault }
    {
        match fault {
            EntryFault::NoEntry => FsError::NoEntry,
            EntryFault::NotDir => FsError::NotDir,
            EntryFault::IsDir => FsError::IsDir,
            EntryFault::Exist => FsError::Exist,
            EntryFault::NotEmpty => FsError::NotEmpty,
            EntryFault::Inval => FsError::Inval,
            EntryFault::NameTooLong => FsError::NameTooLong,
            EntryFault::Perm => FsError::Perm,
            EntryFault::TooManyLinks => FsError::TooManyLinks,
            EntryFault::DirFull => FsError::DirFull,
            EntryFault::NoMemory => FsError::NoMemory,
            EntryFault::Log(fault) => FsError::from(fault),
        }
    }
}
