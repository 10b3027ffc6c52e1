//! Why the system refused a call.
use std::io;

/// Numbers of the system (errno(3)).
const EIO: i32 = 5;

const EFBIG: i32 = 27;

const ENOSPC: i32 = 28;

const EROFS: i32 = 30;

const ENAMETOOLONG: i32 = 36;

const EDQUOT: i32 = 122;

/// Why the system refused a call, as far as people are told.
#[derive(Clone, Copy, PartialEq, Eq)]
pub enum Cause {
    InputOutput,
    FileTooLarge,
    NoSpace,
    ReadOnly,
    NameTooLong,
    Quota,
    /// The system gave another number, or none.
    Untold,
}

impl Cause {
    /// By the system's number (errno(3)), where it gave one.
    pub fn of_number(number: Option<i32>) -> Cause {
        match number {
            Some(EIO) => Cause::InputOutput,
            Some(EFBIG) => Cause::FileTooLarge,
            Some(ENOSPC) => Cause::NoSpace,
            Some(EROFS) => Cause::ReadOnly,
            Some(ENAMETOOLONG) => Cause::NameTooLong,
            Some(EDQUOT) => Cause::Quota,
            _ => Cause::Untold,
        }
    }

    pub fn of(error: &io::Error) -> Cause {
        Cause::of_number(error.raw_os_error())
    }

    /// Whether no read is refused for it.
    pub fn is_of_writes(self) -> bool {
        matches!(
            self,
            Cause::FileTooLarge | Cause::NoSpace | Cause::ReadOnly | Cause::Quota
        )
    }

    /// What people are told, where the system tells why.
    pub fn text(self) -> Option<&'static str> {
        match self {
            Cause::InputOutput => Some("input/output error"),
            Cause::FileTooLarge => Some("the file would be too large"),
            Cause::NoSpace => Some("no space left on the device"),
            Cause::ReadOnly => Some("the file system is read-only"),
            Cause::NameTooLong => Some("the name is too long"),
            Cause::Quota => Some("the disk quota is used up"),
            Cause::Untold => None,
        }
    }
}
