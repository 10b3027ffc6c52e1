//! What a stop keeps of calls of a volume whose orders are carried out, as laws: each is the
//! contract of a function that does nothing.
ghost use Rattle.lfs_queue.specs.Kept.{DoneIsOn, DoneMeanwhile, OrdersMayCome, SinceIsDone};

use lfs_device::SectorDevice;

/// What contracts say of a device of orders is so once the orders are done: where a stop since an
/// answer keeps a call, one keeps it that comes when the orders told by that answer are done.
pub fn since_is_done()
    ensures { SinceIsDone }
{}

/// The device that carries them out leaves such contents too, at a stop now.
pub fn done_is_on<D: SectorDevice>(device: &D)
    ensures { DoneIsOn (D.state device.now) }
{}

/// And at any moment while `carry` gives it further orders, up to one that fails.
pub fn done_meanwhile<D: SectorDevice>(old: &D, new: &D)
    ensures { DoneMeanwhile (D.state old.now) (D.state new.now) }
{}

/// Orders may come next as they were told; or writes in any sequence from one sync to the next, and
/// that sync once the last write to each sector is there.
pub fn orders_may_come()
    ensures { OrdersMayCome }
{}
