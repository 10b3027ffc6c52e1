// A device that holds what it is told, and keeps it for a caller who does it.
ghost use Rattle.std.specs.Prelude.{◌≡◌, ◌<◌, ◌≤◌, ◌^◌, ℕ, List, length, [], ◌∷◌, IfOk, OnOk, OnErr, vec_capacity};
ghost use Rattle.std.specs.List.{AllByRecursion, AllByRecursion-prop};
ghost use Rattle.lfs_model.specs.Device.{IsSector};
ghost use Rattle.lfs_model.proofs.Cells.{sector_prop};
ghost use Rattle.lfs_queue.specs.Numbered.{as_told};
ghost use Rattle.lfs_queue.specs.Orders.{onto, done_of, count, content_after, AreWhole, AreWhole-prop, queue_lawful};
ghost use Rattle.lfs_model.specs.declared.Order.{Order};

use crate::image::Image;
use crate::order::{Count, Done, add_one, note};
use lfs_device::{DeviceFault, NoMemory, ReadFault, SectorDevice, SectorUnits, TendedDevice};
use lfs_model::Order;
use std::alloc::Global;
use std::snapshot::Snapshot;

/// A device that calls nothing. Reads are answered from memory, which holds what a real device held
/// before and all that was written since. Writes and syncs wait, in order, for a caller who has
/// the real device carry them out, and says so by `forget`.
///
/// A stop leaves what it may leave of a device of the model that held the same, whose units are
/// sectors, and to which all orders so far were given. A call fails only where as many orders wait
/// as there is room for, and memory is refused.
#[derive(Drop)]
pub struct QueueDevice {
    cells: Vec<Option<[u8; 512]>>,
    sectors: u32,
    ghost sized: { length cells.items ≡ sectors },
    ghost fits: { sectors < 2 ^ 32 },
    queue: Vec<Order>,
    start: Snapshot<Vec<Option<[u8; 512]>>>,
    ghost started: { length start.value.items ≡ sectors },
    ghost starts: { AllByRecursion IsSector start.value.items } by { AllByRecursion-prop IsSector sector_prop start.value.items },
    done: Snapshot<Done>,
    /// How many orders were carried out, as far as 64 bits tell it.
    carried: u64,
    ghost counted: { carried ≡ as_told (length (done_of done.value)) },
    failed: Snapshot<Count>,
    ghost whole: { AreWhole (onto queue.items (done_of done.value)) } by { AreWhole-prop (onto queue.items (done_of done.value)) },
    ghost agrees: { cells.items ≡ content_after start.value.items (onto queue.items (done_of done.value)) },
}

impl QueueDevice {
    ghost use Rattle.lfs_queue.specs.Images.{cells_of};
    ghost use Rattle.std.specs.Prelude.{◌+◌, ◌-◌, IfSome, IfNone};
    ghost use Rattle.lfs_queue.specs.Numbered.{HasNumber, IsNoneWaiting};
    ghost use Rattle.lfs_queue.specs.Queue.{IsRoomier, queue_state, start_of, due_of, carried_of, told_of, room_of};

    /// A device that holds an image and was told nothing, with room for so many orders. No call of
    /// it fails while fewer were told.
    ///
    /// # Errors
    ///
    /// Where memory is refused.
    pub fn new(alloc: Global, image: Image, room: usize) -> Result<QueueDevice, NoMemory>
        ensures start { IfOk result (λ d. start_of d ≡ cells_of image) }
        ensures told { IfOk result (λ d. told_of d ≡ []) }
        ensures state { IfOk result (λ d. (queue_state d).content ≡ cells_of image) }
        ensures size { IfOk result (λ d. (queue_state d).size ≡ length (cells_of image)) }
        ensures room { IfOk result (λ d. room ≤ room_of d) }
        ensures bears { IfOk result
            (λ d. (orders : ℕ) → orders ≤ room → (queue_state d).bears orders) }
    {
        let queue = Vec::with_capacity(alloc, room)?;
        let Image { cells, sectors } = image;
        Ok(QueueDevice {
            start: Snapshot::of(&cells),
            cells,
            sectors,
            queue,
            done: Snapshot::of(&Done::Nothing),
            carried: 0,
            failed: Snapshot::of(&Count::Zero),
        })
    }

    /// The orders that wait, the oldest first.
    pub fn orders(&self) -> &Vec<Order>
        ensures { result.now.items ≡ due_of self.now }
    {
        &self.queue
    }

    /// The number of the first order that waits, or is to come: how many were carried out before.
    /// From 2^64 - 1 on it is this.
    pub fn carried(&self) -> u64
        ensures { result ≡ as_told (length (carried_of self.now)) }
    {
        self.carried
    }

    /// How many orders it was told. From 2^64 - 1 on it is this.
    #[tactic(auto, using(crate::proofs::Numbering::counted_on))]
    pub fn told(&self) -> u64
        ensures { result ≡ as_told (length (told_of self.now)) }
    {
        self.carried.saturating_add(self.queue.len() as u64)
    }

    /// The order of a number, counted from 0 over all that it was told, if it waits. None is given
    /// by the number 2^64 - 1.
    #[tactic(auto, using(crate::proofs::Numbering::length_onto))]
    pub fn order(&self, number: u64) -> Option<&Order>
        ensures waits { IfSome result (λ order. HasNumber (told_of self.now) number order.now) }
        ensures none { IfNone result (number < 2 ^ 64 - 1
            → IsNoneWaiting (carried_of self.now) (told_of self.now) number) }
    {
        if number == u64::MAX || number < self.carried {
            return None;
        }
        let place = number - self.carried;
        if place >= self.queue.len() as u64 {
            return None;
        }
        Some(&self.queue[place as usize])
    }

    /// Takes memory for so many orders besides those that wait.
    ///
    /// # Errors
    ///
    /// Where memory is refused.
    pub fn reserve(&mut self, orders: usize) -> Result<(), NoMemory>
        ensures same { IsRoomier self.old self.new }
        ensures room { OnOk result (length (due_of self.new) + orders ≤ room_of self.new) }
        ensures bears { OnOk result ((n : ℕ) → n ≤ length (told_of self.new) + orders
            → (queue_state self.new).bears n) }
        ensures full { OnErr result (room_of self.old < length (due_of self.old) + orders) }
    {
        match self.queue.reserve(orders) {
            Ok(()) => Ok(()),
            Err(_) => Err(NoMemory),
        }
    }

    /// All orders were carried out. There is room for as many more as before.
    pub fn forget(&mut self)
        ensures told { told_of self.new ≡ told_of self.old }
        ensures due { due_of self.new ≡ [] }
        ensures carried { carried_of self.new ≡ onto (due_of self.old) (carried_of self.old) }
        ensures start { start_of self.new ≡ start_of self.old }
        ensures size { (queue_state self.new).size ≡ (queue_state self.old).size }
        ensures failures { (queue_state self.new).failures ≡ (queue_state self.old).failures }
        ensures room { room_of self.new ≡ room_of self.old }
    {
        let waiting = self.queue.len() as u64;
        note(&self.queue, &mut self.done);
        self.queue.clear();
        self.carried = self.carried.saturating_add(waiting);
    }
}

/// Puts an order behind those that wait. It fails only where there is no room and memory is refused.
fn put_last(queue: &mut Vec<Order>, order: Order) -> Result<(), DeviceFault>
    ensures told { OnOk result ((told : List Order) → onto queue.new.items told
        ≡ order ∷ onto queue.old.items told) }
    ensures full { OnErr result (queue.new.items ≡ queue.old.items) }
    ensures fails { OnErr result (vec_capacity queue.old ≤ length queue.old.items) }
    ensures room { vec_capacity queue.old ≤ vec_capacity queue.new }
{
    match queue.push(order) {
        Ok(()) => Ok(()),
        Err(_) => Err(DeviceFault),
    }
}

impl SectorDevice for QueueDevice {
    ghost use Rattle.std.specs.Prelude.{Some, None, IsErrOf};
    ghost use Rattle.lfs_model.specs.Device.{cell_at, put, Only, MayWriteUnit, Carries, Elapses, IsUntouched, CrashWritesUnit};
    ghost use Rattle.lfs_queue.specs.Queue.{queue_state, borne_by};

    ghost state = { queue_state };

    ghost lawful = { λ d. queue_lawful (λ k. k) d.sectors d.start.value.items (onto d.queue.items (done_of d.done.value)) (count d.failed.value) (borne_by d) d.fits d.started d.starts d.whole };

    fn sectors(&self) -> u32 {
        self.sectors
    }

    fn read(&mut self, sector: u32, out: &mut [u8; 512]) -> Result<(), ReadFault> {
        match self.cells[sector as usize] {
            Some(bytes) => {
                *out = bytes;
                Ok(())
            }
            None => Err(ReadFault::Unreadable),
        }
    }

    fn write(&mut self, sector: u32, bytes: &[u8; 512]) -> Result<(), DeviceFault> {
        match put_last(&mut self.queue, Order::Write(sector, *bytes)) {
            Ok(()) => {}
            Err(fault) => {
                add_one(&mut self.failed);
                return Err(fault);
            }
        }
        self.cells[sector as usize] = Some(*bytes);
        Ok(())
    }

    fn sync(&mut self) -> Result<(), DeviceFault> {
        match put_last(&mut self.queue, Order::Sync) {
            Ok(()) => Ok(()),
            Err(fault) => {
                add_one(&mut self.failed);
                Err(fault)
            }
        }
    }
}

impl SectorUnits for QueueDevice {
    ghost units = { λ d j k same. same };
}

impl TendedDevice for QueueDevice {
    ghost use Rattle.lfs_queue.specs.Queue.{IsEmptied};

    ghost tends = { IsEmptied };

    /// All orders were carried out.
    fn tend(&mut self) {
        self.forget();
    }
}
