//! What a stop leaves behind a beginning of the orders, and behind orders in another sequence, as
//! laws: each is the contract of a function that does nothing.
ghost use Rattle.lfs_queue.specs.Stops.{AnySequenceLeaves, DoneLeavesTold, FewerLeaveNoMore, LastIsEnough, MomentsAreBehind, StopsAreBehind, ToldAreDone};

/// What a stop leaves behind a beginning of the orders is what one leaves since a moment at which
/// no more of them were told.
pub fn stops_are_behind()
    ensures now { StopsAreBehind }
    ensures since { MomentsAreBehind }
{}

/// Writes between two syncs leave the same at a stop in any sequence, whatever the units of the
/// device are. Some of them leave no more.
pub fn any_sequence_leaves_the_same()
    ensures same { AnySequenceLeaves }
    ensures fewer { FewerLeaveNoMore }
{}

/// Of two writes to one sector between two syncs the last is enough.
pub fn last_write_is_enough()
    ensures { LastIsEnough }
{}

/// Orders may be carried out in the place of those that were told, if from one sync to the next the
/// last write to each sector is there, in any sequence: a stop at any moment leaves nothing else.
pub fn done_leaves_told()
    ensures leaves { DoneLeavesTold }
    ensures as_told { ToldAreDone }
{}
