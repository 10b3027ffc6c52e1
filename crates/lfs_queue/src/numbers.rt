//! The numbers of orders: the first that a device is told has number 0.
ghost use Rattle.std.specs.Prelude.{◌≡◌, ◌<◌, ℕ, List, [], length, get_or};
ghost use Rattle.lfs_model.specs.Device.{Grows, IsBeginning};
ghost use Rattle.lfs_model.specs.declared.Order.{Order};
ghost use Rattle.lfs_model.specs.declared.Order.TheVariants as order_of;
ghost use Rattle.lfs_queue.specs.Numbered.{HasNumber};
ghost use Rattle.lfs_queue.specs.Orders.{onto};

/// An order keeps its number: what is told later comes behind.
pub fn numbers_stay()
    ensures { (old new : List Order) (number : ℕ) (order : Order) → Grows old new
        → HasNumber old number order → HasNumber new number order }
{}

/// Orders that were taken by their numbers, from 0 on without a gap, are a beginning of what the
/// device was told.
pub fn taken_orders_begin()
    ensures { (told taken : List Order) → ((i : ℕ) → i < length taken
        → HasNumber told i (get_or taken i order_of.Sync)) → IsBeginning (onto taken []) told }
{}
