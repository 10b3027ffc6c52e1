//! The writes and syncs that C carries out in the place of a device. Each has a number: the first
//! that the device is told, since its sectors were given, has number 0.
ghost use Rattle.std.specs.Prelude.{◌≡◌, ◌<◌, ◌+◌, Some, None, IfSome, IfNone, length};
ghost use Rattle.lfs_model.specs.declared.Order.TheVariants as order_of;
ghost use Rattle.lfs_queue.specs.Numbered.{HasNumber, as_told};
ghost use Rattle.lfs_queue.specs.Queue.{carried_of, told_of};
ghost use Rattle.pansuyog.specs.Orders.{AreRun, CarriesOut, TellsNumber, TellsOrder, TellsRun, carried_by, device_in, told_by};
ghost use Rattle.pansuyog.specs.Serving.{IsUnchanged, KeepsListing};

use crate::handle::{Handle, Source, Volume};
use lfs_model::Order;
use lfs_queue::QueueDevice;
use pansuyog_calls::codes::{INVAL, NO_ORDER, NOT_MOUNTED};

/// The device of a volume, if it has one.
fn device_of(volume: &Volume) -> Option<&QueueDevice>
    ensures some { IfSome result (λ device. device_in volume.now ≡ Some device.now) }
    ensures none { IfNone result (device_in volume.now ≡ None) }
{
    match &volume.fs {
        Some(fs) => Some(fs.device().device()),
        None => match &volume.source {
            Source::Device(device) => Some(device),
            Source::Image(_) => None,
            Source::Nothing => None,
        },
    }
}

/// How many orders were carried out: the number of the first that waits.
#[unsafe(no_mangle)]
pub extern "C" fn pansuyog_carried(volume: &mut Handle) -> u64
    ensures number { result ≡ as_told (length (carried_by (device_in volume.old.value))) }
    ensures same { IsUnchanged volume.old.value volume.new.value }
{
    match device_of(volume.volume()) {
        Some(device) => device.carried(),
        None => 0,
    }
}

/// How many orders the device was told: the number that the next will have.
#[unsafe(no_mangle)]
pub extern "C" fn pansuyog_told(volume: &mut Handle) -> u64
    ensures number { result ≡ as_told (length (told_by (device_in volume.old.value))) }
    ensures same { IsUnchanged volume.old.value volume.new.value }
{
    match device_of(volume.volume()) {
        Some(device) => device.told(),
        None => 0,
    }
}

/// Tells C of an order.
fn tell(order: &Order, sector: &mut u32, out: &mut [u8]) -> i32
    ensures { TellsOrder order.now result sector.old sector.new out.old out.new }
{
    match order {
        Order::Write(at, bytes) => match out.first_chunk_mut::<512>() {
            Some(room) => {
                *room = *bytes;
                *sector = *at;
                1
            }
            None => INVAL,
        },
        Order::Sync => 0,
    }
}

/// Tells C of the order of a number, if it waits.
fn tell_number(device: &QueueDevice, number: u64, sector: &mut u32, out: &mut [u8]) -> i32
    ensures { TellsNumber (told_of device.now) (carried_of device.now) number result
        sector.old sector.new out.old out.new }
{
    match device.order(number) {
        Some(order) => tell(order, sector, out),
        None => NO_ORDER,
    }
}

/// The order of a number, if it waits: 1 for a write, with its sector and 512 bytes, 0 for a sync.
#[unsafe(no_mangle)]
pub extern "C" fn pansuyog_order(
    volume: &mut Handle,
    number: u64,
    sector: &mut u32,
    out: &mut [u8],
) -> i32
    ensures told { TellsNumber (told_by (device_in volume.old.value))
        (carried_by (device_in volume.old.value)) number result
        sector.old sector.new out.old out.new }
    ensures same { IsUnchanged volume.old.value volume.new.value }
{
    match device_of(volume.volume()) {
        Some(device) => tell_number(device, number, sector, out),
        None => NO_ORDER,
    }
}

/// The bytes of a sector, as C has them.
#[repr(C)]
#[derive(Clone, Copy)]
pub struct Sector {
    pub bytes: [u8; 512],
}

/// The bytes of the order at a place of a run, if it is a write to the sector that follows.
fn write_at(device: &QueueDevice, number: u64, first: u32, place: usize) -> Option<[u8; 512]>
    ensures { IfSome result (λ bytes. HasNumber (told_of device.now) (number + place)
        (order_of.Write (first + place) bytes)) }
{
    let Some(number) = number.checked_add(place as u64) else {
        return None;
    };
    match device.order(number) {
        Some(Order::Write(sector, bytes)) => {
            if *sector >= first && (*sector - first) as usize == place {
                return Some(*bytes);
            }
            None
        }
        Some(Order::Sync) => None,
        None => None,
    }
}

/// Puts the bytes of a run of writes into C's memory, where the first stands already: how many they
/// are.
fn put_run(device: &QueueDevice, number: u64, first: u32, out: &mut [Sector]) -> usize
    requires room { 0 < length out.old }
    requires one { AreRun (told_of device.now) number first 1 out.old }
    ensures some { 0 < result }
    ensures run { AreRun (told_of device.now) number first result out.new }
{
    for place in 1..out.len() {
        match write_at(device, number, first, place) {
            Some(bytes) => out[place] = Sector { bytes },
            None => return place,
        }
    }
    out.len()
}

/// Tells C of the run of writes that begins with a number.
fn tell_run(device: &QueueDevice, number: u64, first: &mut u32, out: &mut [Sector]) -> i32
    ensures { TellsRun (told_of device.now) (carried_of device.now) number result
        first.old first.new out.old out.new }
{
    match device.order(number) {
        Some(Order::Write(sector, bytes)) => {
            if out.is_empty() {
                return INVAL;
            }
            *first = *sector;
            out[0] = Sector { bytes: *bytes };
            i32::try_from(put_run(device, number, *sector, out)).unwrap_or(i32::MAX)
        }
        Some(Order::Sync) => 0,
        None => NO_ORDER,
    }
}

/// How many orders from a number on are writes to sectors that follow one another, as many as there
/// is room for, with the first sector and their bytes. 0 for a sync.
#[unsafe(no_mangle)]
pub extern "C" fn pansuyog_run(
    volume: &mut Handle,
    number: u64,
    first: &mut u32,
    out: &mut [Sector],
) -> i32
    ensures told { TellsRun (told_by (device_in volume.old.value))
        (carried_by (device_in volume.old.value)) number result first.old first.new
        out.old out.new }
    ensures same { IsUnchanged volume.old.value volume.new.value }
{
    match device_of(volume.volume()) {
        Some(device) => tell_run(device, number, first, out),
        None => NO_ORDER,
    }
}

/// All orders that waited were carried out.
#[unsafe(no_mangle)]
pub extern "C" fn pansuyog_done(volume: &mut Handle) -> i32
    ensures done { CarriesOut volume.old.value.fs volume.new.value.fs volume.old.value.source
        volume.new.value.source result }
    ensures listing { KeepsListing volume.old.value volume.new.value }
    ensures recorder { volume.new.value.recorder ≡ volume.old.value.recorder }
{
    let volume = volume.volume();
    match &mut volume.fs {
        Some(fs) => {
            fs.tend();
            0
        }
        None => match &mut volume.source {
            Source::Device(device) => {
                device.forget();
                0
            }
            Source::Image(_) => NOT_MOUNTED,
            Source::Nothing => NOT_MOUNTED,
        },
    }
}
