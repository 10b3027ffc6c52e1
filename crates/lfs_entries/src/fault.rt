//! Why what is asked of an entry isn't done.
ghost use Rattle.std.specs.Prelude.{◌≡◌};
ghost use Rattle.lfs_entries.specs.Faults.{fault_of_log, fault_of_store};

use lfs_files::{LogFault, StoreFault};

/// Why what is asked of an entry isn't done.
#[derive(Clone, Copy, Debug, PartialEq, Eq)]
pub enum EntryFault {
    /// A name isn't there.
    NoEntry,
    /// A directory is needed here.
    NotDir,
    /// A directory isn't taken here.
    IsDir,
    /// The entry is there already.
    Exist,
    /// The directory has entries.
    NotEmpty,
    /// An argument isn't taken.
    Inval,
    /// A name is longer than its directory allows.
    NameTooLong,
    /// A directory isn't linked or unlinked.
    Perm,
    /// The object has 1,000 links.
    TooManyLinks,
    /// The directory has no room for another entry.
    DirFull,
    /// Memory was refused.
    NoMemory,
    /// The log gave no answer.
    Log(LogFault),
}

impl From<LogFault> for EntryFault {
    ghost from_gives = { λ fault error. error ≡ fault_of_log fault };

    fn from(fault: LogFault) -> EntryFault
        ensures { result ≡ fault_of_log fault }
    {
        EntryFault::Log(fault)
    }
}

impl From<StoreFault> for EntryFault {
    ghost from_gives = { λ fault error. error ≡ fault_of_store fault };

    fn from(fault: StoreFault) -> EntryFault
        ensures { result ≡ fault_of_store fault }
    {
        match fault {
            StoreFault::NoMemory => EntryFault::NoMemory,
            StoreFault::Log(fault) => EntryFault::Log(fault),
        }
    }
}
