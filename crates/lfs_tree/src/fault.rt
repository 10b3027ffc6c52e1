//! Why a check isn't finished.

/// Why a check isn't finished.
#[derive(Clone, Copy)]
pub enum CheckFault {
    /// Memory was refused.
    NoMemory,
    /// A call of the device failed, or what the log's walk read can't be read any more.
    Device,
}
