//! What calls in a row come to where their orders are carried out, as laws: each is the contract of
//! a function that does nothing.
ghost use Rattle.pansuyog.specs.InARow.{CallsAreKept, MountsAreSaved};
ghost use Rattle.pansuyog.specs.Sessions.{CarryingTends, RecordsAreSaved};

use lfs_queue::QueueDevice;

/// Calls of a mounted volume in a row, whatever is carried out between them. Once the orders that
/// were told by the answer of one are carried out, a stop leaves every call that was acknowledged by
/// then. From one sync to the next it is enough to carry out the last write to each sector, in any
/// sequence.
pub fn calls_are_kept()
    ensures { CallsAreKept }
{}

/// They may begin behind a mount.
pub fn mounts_are_saved()
    ensures { MountsAreSaved }
{}

/// A recorder that C begins on a volume that is saved: once the orders that were told by a save of its
/// lines are carried out, a stop leaves all lines that C was told are written before, but for whole
/// files that went. At any time between calls orders may be carried out.
pub fn records_are_saved()
    ensures saved { RecordsAreSaved }
    ensures tends { CarryingTends }
{
    pansuyog_calls::laws::records_are_saved::<QueueDevice>();
}
