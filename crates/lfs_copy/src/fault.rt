//! What comes of a copy, and why there is none.
ghost use Rattle.std.specs.Prelude.{◌≡◌};

use lfs_fs::FsError;
use std::alloc::AllocError;
use thiserror::Error;

/// What was copied.
#[derive(Clone, Copy, Debug, PartialEq, Eq)]
pub struct Copied {
    /// How many names the tree has.
    pub names: u64,
    /// The bytes of all files, each counted once.
    pub bytes: u64,
}

/// Why a tree isn't copied.
#[derive(Debug, Drop, Error)]
pub enum CopyFault {
    /// The root of the new volume has entries.
    #[error("the new volume isn't empty")]
    NotEmpty,
    /// The name at the end of this path is longer than the new volume takes, or the path is longer
    /// than a call takes.
    #[error("a name or its path is too long")]
    TooLong(Vec<u8>),
    /// The tree needs so many blocks in the new volume, which takes fewer.
    #[error("the new volume is too small")]
    TooLarge { need: u64, limit: u64 },
    /// The old volume refuses a call.
    #[error("the old volume refuses a call")]
    Old(FsError),
    /// The new volume refuses a call.
    #[error("the new volume refuses a call")]
    New(FsError),
    /// The old volume answers what no volume does.
    #[error("the old volume contradicts itself")]
    NoTree,
    #[error(transparent)]
    Memory(AllocError),
}

impl From<AllocError> for CopyFault {
    ghost use Rattle.lfs_copy.specs.declared.fault.CopyFault.TheVariants as why;

    ghost from_gives = { λ refused fault. fault ≡ why.Memory refused };

    fn from(refused: AllocError) -> CopyFault
        ensures { result ≡ CopyFault.Memory refused }
    {
        CopyFault::Memory(refused)
    }
}
