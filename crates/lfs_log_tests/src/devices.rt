//! What happens to a device between two mounts, and what is looked at there.
ghost use Rattle.std.specs.Prelude.{◌<◌};

use lfs_device::{DeviceCall, Left, MemDevice, SectorDevice};
use lfs_layout::word;

/// A step while no log holds the device.
#[derive(Clone, Copy)]
pub enum Probe {
    /// A stop leaves this of each sector that wasn't synced.
    Stop(Left),
    /// A stop leaves these sectors in one of nine ways: the first three leave all alike.
    Tear(usize),
    /// The call of this kind fails before which so many come.
    Fail(DeviceCall, u64),
    /// The device stops within the write before which so many come; writes are counted from here
    /// on.
    StopAt(u64),
    /// So many writes were begun since then.
    Writes(u64),
    /// A sync fails.
    SyncFails,
    /// So many blocks live by the acknowledged checkpoint, after a stop that leaves what was
    /// written.
    Live(u32),
    /// By the same checkpoint the inode of file 2 points to a leaf, and to a double root, or to
    /// none.
    Points(bool, bool),
}

/// A sector, or zeros where it can't be read.
fn sector(device: &mut MemDevice, address: u32) -> [u8; 512] {
    let mut bytes = [0; 512];
    if address < device.sectors() {
        let _ = device.read(address, &mut bytes);
    }
    bytes
}

/// How many blocks live by the usage block at this address.
fn live_in(device: &mut MemDevice, address: u32) -> u32 {
    let usage = sector(device, address);
    let mut live = 0u32;
    for segment in 0..64usize {
        live = live.saturating_add(word(&usage, 2 * segment) / 65_536);
    }
    live
}

/// How many blocks live by the checkpoint in this slot.
pub fn live(device: &mut MemDevice, slot: u32) -> u32 {
    let checkpoint = sector(device, slot);
    let mut live = 0u32;
    for index in 0..16usize {
        let address = word(&checkpoint, 40 + index);
        if address != 0 {
            live = live.saturating_add(live_in(device, address));
        }
    }
    live
}

/// Whether the inode of file 2 points to a leaf, and to a double root, by the checkpoint in this
/// slot.
fn points(device: &mut MemDevice, slot: u32) -> (bool, bool) {
    let checkpoint = sector(device, slot);
    let map = sector(device, word(&checkpoint, 8));
    let inode = sector(device, word(&map, 2));
    (word(&inode, 120) != 0, word(&inode, 121) != 0)
}

/// One of the ways in which a stop leaves eight sectors.
fn lefts(way: usize) -> [Left; 8] {
    let kinds = [Left::Old, Left::New, Left::Bad];
    let mut lefts = [Left::Old; 8];
    for sector in 0..8usize {
        lefts[sector] = kinds[(way % 9 + sector * (way % 9 / 3)) % 3];
    }
    lefts
}

/// Carries out a step: whether it saw what it should. The acknowledged checkpoint is in this slot.
pub fn is_probe_well(device: &mut MemDevice, slot: u32, probe: Probe) -> bool {
    match probe {
        Probe::Stop(left) => device.crash(left),
        Probe::Tear(way) => device.crash_each(&lefts(way)),
        Probe::Fail(call, nth) => device.fail(call, nth),
        Probe::StopAt(write) => device.stop_at(write),
        Probe::Writes(count) => return device.writes() == count,
        Probe::SyncFails => return device.sync().is_err(),
        Probe::Live(count) => {
            device.fail(DeviceCall::Read, u64::MAX);
            device.crash(Left::New);
            return live(device, slot) == count;
        }
        Probe::Points(leaf, double) => return points(device, slot) == (leaf, double),
    }
    true
}
