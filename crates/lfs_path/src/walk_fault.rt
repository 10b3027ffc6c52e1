//! Why the walk of a path doesn't end at an object.
ghost use Rattle.std.specs.Prelude.{◌≡◌};

use lfs_files::LogFault;

/// Why the walk of a path doesn't end at an object.
#[derive(Clone, Copy, Debug, PartialEq, Eq)]
pub enum WalkFault {
    /// A name isn't there, or the path is empty.
    NoEntry,
    /// A piece or a slash follows a file.
    NotDir,
    /// A name or the path is too long.
    NameTooLong,
    /// The path has a zero byte.
    Inval,
    /// More than 40 symbolic links would be followed.
    Loop,
    /// Memory was refused.
    NoMemory,
    /// The log gave no answer.
    Log(LogFault),
}
