use crate::helpers::{BAD, Row, all_well, filled, put};
use lfs_device::{DeviceCall, MemDevice, NoMemory, ReadFault, SectorDevice, TendedDevice};
use lfs_queue::{Image, QueueDevice, are_within, carry};
use std::alloc::Global;

/// A device whose orders wait, and the one that is to carry them out.
#[derive(Drop)]
struct Pair {
    queue: QueueDevice,
    device: MemDevice,
}

/// Three sectors, of which the first was given.
fn three_sectors(alloc: Global) -> Result<Pair, NoMemory> {
    let mut image = Image::new(alloc, 3)?;
    if 0 < image.sectors() {
        image.give(0, &[9; 512]);
    }
    Ok(Pair {
        queue: QueueDevice::new(alloc, image, 4)?,
        device: MemDevice::new(alloc, 3)?,
    })
}

/// What is done with them, and what is seen.
#[derive(Clone, Copy)]
enum Step {
    /// A sector is filled with a byte.
    Fill(u32, u8),
    Sync,
    /// How many orders wait.
    Waits(usize),
    /// The orders are carried out: whether that succeeds. Then none waits.
    Drain(bool),
    Fail(DeviceCall, u64),
    /// The byte that a sector of the queue, and of the other device, is filled with.
    Reads(u32, Result<u8, ReadFault>, Result<u8, ReadFault>),
}

/// Carries out what waits: whether that succeeds.
fn drain(pair: &mut Pair) -> bool {
    if !are_within(pair.queue.orders().as_slice(), pair.device.sectors()) {
        return false;
    }
    if carry(&mut pair.device, pair.queue.orders().as_slice()).is_err() {
        return false;
    }
    pair.queue.tend();
    true
}

impl Row<Pair> for Step {
    fn is_well(self, pair: &mut Pair) -> bool {
        match self {
            Step::Fill(sector, byte) => return put(&mut pair.queue, sector, &[byte; 512]),
            Step::Sync => return pair.queue.sync().is_ok(),
            Step::Waits(orders) => return pair.queue.orders().len() == orders,
            Step::Drain(succeeds) => return drain(pair) == succeeds,
            Step::Fail(call, nth) => pair.device.fail(call, nth),
            Step::Reads(sector, waits, done) => {
                return filled(&mut pair.queue, sector) == waits
                    && filled(&mut pair.device, sector) == done;
            }
        }
        true
    }
}

#[test]
fn orders_wait_and_are_carried_out(rt: HostRuntime) {
    let steps = [
        Step::Reads(0, Ok(9), Ok(0)),
        Step::Reads(1, BAD, Ok(0)),
        Step::Fill(1, 5),
        Step::Sync,
        Step::Fill(1, 6),
        Step::Waits(3),
        Step::Reads(1, Ok(6), Ok(0)),
        Step::Fail(DeviceCall::Sync, 0),
        Step::Drain(false),
        Step::Reads(1, Ok(6), Ok(5)),
        Step::Drain(true),
        Step::Waits(0),
        Step::Reads(1, Ok(6), Ok(6)),
    ];
    all_well(&rt, three_sectors(rt.alloc()), &steps);
}
