// What a real device is to do.
ghost use Rattle.std.specs.Prelude.{◌≡◌, ◌+◌};
ghost use Rattle.lfs_queue.specs.Orders.{onto, done_of, count};

use lfs_model::Order;
use std::mem;
use std::snapshot::Snapshot;

/// The orders that were carried out, in batches. The list is never kept: a `Snapshot` of it takes
/// no memory.
#[derive(Drop)]
pub(crate) enum Done {
    Nothing,
    Then(Snapshot<Vec<Order>>, Snapshot<Done>),
}

/// A number for clauses, which has no last value. It is never kept either.
#[derive(Drop)]
pub(crate) enum Count {
    Zero,
    Next(Snapshot<Count>),
}

const _: () = prove!(size_of::<Snapshot<Done>>() == 0);

const _: () = prove!(size_of::<Snapshot<Count>>() == 0);

pub(crate) fn note(orders: &Vec<Order>, done: &mut Snapshot<Done>)
    ensures { done_of done.new.value ≡ onto orders.now.items (done_of done.old.value) }
{
    let before = mem::replace(done, Snapshot::of(&Done::Nothing));
    *done = Snapshot::of(&Done::Then(Snapshot::of(orders), before));
}

pub(crate) fn add_one(number: &mut Snapshot<Count>)
    ensures { count number.new.value ≡ count number.old.value + 1 }
{
    let before = mem::replace(number, Snapshot::of(&Count::Zero));
    *number = Snapshot::of(&Count::Next(before));
}
