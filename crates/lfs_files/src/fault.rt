//! Why calls on files fail.
ghost use Rattle.std.specs.Prelude.{◌≡◌};

/// Why a call of the log isn't done.
#[derive(Clone, Copy, Debug, PartialEq, Eq)]
pub enum LogFault {
    /// A read failed, or gave what no volume holds. Nothing changed.
    Device,
    /// A write of the log failed, in this call or before.
    Halted,
    /// Too few segments are clean, or the changes need more room in memory than there is before the
    /// next commit. Nothing changed.
    Full,
}

/// Why a call that takes memory isn't done.
#[derive(Clone, Copy, Debug, PartialEq, Eq)]
pub enum StoreFault {
    /// Memory was refused.
    NoMemory,
    /// The log gave no answer.
    Log(LogFault),
}
