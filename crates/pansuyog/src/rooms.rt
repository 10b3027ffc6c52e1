//! What room for orders gives the caller, as a law: the contract of a function that does nothing.
ghost use Rattle.pansuyog.specs.Available.{CallsAreAvailable};

/// Where a device has room for more orders than a call may tell it, a volume that runs answers
/// neither that the device failed nor that it is halted.
pub fn calls_are_available()
    ensures { CallsAreAvailable }
{}
