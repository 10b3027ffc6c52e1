// A device that is given orders.
ghost use Rattle.std.specs.Prelude.{◌≡◌, ◌<◌, ◌∷◌, ℕ, length, get_or, IsTrue, IsFalse, OnOk, OnErr};
ghost use Rattle.lfs_model.specs.Device.{Carries, Elapses, MayTell};
ghost use Rattle.lfs_model.specs.declared.Order.TheVariants as order_of;
ghost use Rattle.lfs_queue.specs.Carrying.{IsWithin, GoesOn, LeftBy, IsCarried, IsCarriedUpTo};

use lfs_device::{DeviceFault, SectorDevice};
use lfs_model::Order;

fn is_within(order: &Order, sectors: u32) -> bool
    ensures yes { IsTrue result → IsWithin sectors order.now }
    ensures no { IsFalse result → IsWithin sectors order.now → ⊥ }
{
    match order {
        Order::Write(sector, _) => *sector < sectors,
        Order::Sync => true,
    }
}

/// Whether each write is to one of so many sectors, as `carry` asks.
pub fn are_within(orders: &[Order], sectors: u32) -> bool
    ensures yes { IsTrue result → (i : ℕ) → i < length orders.now
        → IsWithin sectors (get_or orders.now i order_of.Sync) }
    ensures no { IsFalse result → ((i : ℕ) → i < length orders.now
        → IsWithin sectors (get_or orders.now i order_of.Sync)) → ⊥ }
{
    for order in orders.iter() {
        if !is_within(order, sectors) {
            return false;
        }
    }
    true
}

fn carry_one<D: SectorDevice>(device: &mut D, order: &Order) -> Result<(), DeviceFault>
    requires { IsWithin (D.state device.old).size order.now }
    ensures told { OnOk result ((D.state device.new).told
        ≡ order.now ∷ (D.state device.old).told) }
    ensures may_tell { OnErr result (MayTell order.now
        (D.state device.old).told (D.state device.new).told) }
    ensures goes_on { OnOk result (GoesOn (D.state device.old) (D.state device.new) order.now) }
    ensures failed { OnErr result ((D.state device.old).failures < (D.state device.new).failures) }
    ensures failed_order { OnErr result
        ((D.state device.old).failed_orders < (D.state device.new).failed_orders) }
    ensures no_failure { OnOk result ((D.state device.new).failures
        ≡ (D.state device.old).failures) }
    ensures left { OnErr result (LeftBy (D.state device.old) (D.state device.new) order.now) }
    ensures carries { Carries (D.state device.old) (D.state device.new) }
    ensures time { Elapses (D.state device.old) (D.state device.new) }
{
    match order {
        Order::Write(sector, bytes) => device.write(*sector, bytes),
        Order::Sync => device.sync(),
    }
}

/// Gives a device these orders in turn, up to the first that fails. What a stop leaves at any
/// moment meanwhile is what one behind some beginning of the orders may leave, by any units that
/// those of the device lie within. A device may be longer than the image: then this is said of as
/// many sectors as the image has, which are its first.
///
/// # Errors
///
/// The fault of the order that failed. A stop then leaves what one behind it, or behind the orders
/// before it, may leave. Of each moment before, the same holds as where none fails.
pub fn carry<D: SectorDevice>(device: &mut D, orders: &[Order]) -> Result<(), DeviceFault>
    requires { (i : ℕ) → i < length orders.now
        → IsWithin (D.state device.old).size (get_or orders.now i order_of.Sync) }
    ensures done { OnOk result (IsCarried (D.state device.old) (D.state device.new) orders.now) }
    ensures stopped { OnErr result (IsCarriedUpTo
        (D.state device.old) (D.state device.new) orders.now) }
{
    for order in orders.iter() {
        carry_one(device, order)?;
    }
    Ok(())
}
