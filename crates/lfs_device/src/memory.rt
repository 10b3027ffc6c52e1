// A device in memory, whose stops and faults are chosen.
ghost use Rattle.std.specs.Prelude.{◌≡◌, ◌<◌, ◌≤◌, ◌^◌, length, replicate, List, [], IfOk, Some, None, false, vec_capacity};
ghost use Rattle.lfs_model.specs.Device.{Cell, Only, Carries, Elapses};
ghost use Rattle.lfs_device.specs.Memory.{AreWhole-prop, AreAllWhole-prop, memory_lawful};
ghost use Rattle.lfs_device.specs.Rows.{AreSectorRows, states_of};
ghost use Rattle.lfs_device.specs.Told.{orders_of};
ghost use Rattle.lfs_device.specs.Unsynced.{IsUnsyncedList, IsUnsyncedList-prop};
ghost use Rattle.std.specs.List.{AllByRecursion};

use crate::bench::{Bench, DeviceCall};
use crate::rows::{Count, Left, Past, Row, add_one, choose_rows, note, stands};
use crate::told::{Told, tell_sync, tell_write};
use crate::units::{Units, spoil};
use crate::unsynced::{let_go, list_sector, settle};
use crate::{DeviceFault, ReadFault, SectorDevice};
use std::alloc::{AllocError, Global};
use std::num::NonZeroU32;
use std::snapshot::Snapshot;

/// There is no memory for the device.
#[derive(Clone, Copy, Debug, PartialEq, Eq)]
pub struct NoMemory;

impl From<AllocError> for NoMemory {
    fn from(_: AllocError) -> Self {
        NoMemory
    }
}

/// A device in memory, which always keeps the device model. No method but `new` and `with_unit`
/// takes memory.
///
/// By its contract a stop may leave all that the model allows. Of a sector that was written several
/// times since the last sync, that is the bytes of any of these writes, done or failed, and each
/// sector of its unit may be unreadable. `crash` and `crash_each` leave what it held at that sync,
/// the bytes of the last of these writes, or its whole unit unreadable. The bytes of the earlier
/// writes aren't kept.
#[derive(Drop)]
pub struct MemDevice {
    rows: Vec<Row>,
    /// The sectors that were written since the last sync, each once.
    unsynced: Vec<u32>,
    sectors: u32,
    units: Units,
    ghost sized: { sectors ≡ length rows.items },
    ghost fits: { length rows.items < 2 ^ 32 },
    ghost whole: { AreSectorRows rows.items } by { AreWhole-prop rows.items },
    ghost listed: { IsUnsyncedList unsynced.items rows.items } by { IsUnsyncedList-prop unsynced.items rows.items },
    ghost room: { length rows.items ≤ vec_capacity unsynced },
    bench: Bench,
    past: Snapshot<Past>,
    ghost were_whole: { AllByRecursion AreSectorRows (states_of past.value) } by { AreAllWhole-prop (states_of past.value) },
    failed: Snapshot<Count>,
    /// How many of the calls that failed were writes and syncs.
    failed_orders: Snapshot<Count>,
    told: Snapshot<Told>,
}

impl MemDevice {
    ghost use Rattle.lfs_model.specs.declared.limits.TheConstants.{SECTOR_LEN};
    ghost use Rattle.std.specs.Int.NonZero.{non_zero_u32_get};
    ghost use Rattle.lfs_model.specs.Device.{AreSectors, lose};
    ghost use Rattle.lfs_device.specs.Bench.{no_faults, with_fault};
    ghost use Rattle.lfs_device.specs.MemoryDevice.{IsStopped, device_state, bench_of, with_bench};
    ghost use Rattle.lfs_device.specs.Units.{unit_from};

    /// A device of this many sectors, all zeros and synced, each of which is a unit by itself. The
    /// memory for every later call is taken here.
    pub fn new(alloc: Global, sectors: u32) -> Result<MemDevice, NoMemory>
        ensures size { IfOk result (λ d. (device_state d).size ≡ sectors) }
        ensures zeros { IfOk result
            (λ d. (device_state d).content ≡ replicate sectors (Some (replicate SECTOR_LEN 0))) }
        ensures durable { IfOk result (λ d. Only (device_state d).content (device_state d)) }
        ensures units { IfOk result (λ d. AreSectors (device_state d).unit) }
        ensures unit { IfOk result (λ d. (device_state d).unit ≡ (λ k. k)) }
        ensures told { IfOk result (λ d. (device_state d).told ≡ []) }
        ensures bench { IfOk result (λ d. bench_of d ≡ no_faults) }
        ensures keeps { IfOk result (λ d. (device_state d).keeps_model) }
    {
        MemDevice::with_unit(alloc, sectors, NonZeroU32::MIN, 0)
    }

    /// As `new`, for a device whose units have this many sectors. The first of them begins at the
    /// sector `first`, and each sector below that is a unit by itself. The last may be cut off.
    pub fn with_unit(
        alloc: Global,
        sectors: u32,
        unit: NonZeroU32,
        first: u32,
    ) -> Result<MemDevice, NoMemory>
        ensures size { IfOk result (λ d. (device_state d).size ≡ sectors) }
        ensures zeros { IfOk result
            (λ d. (device_state d).content ≡ replicate sectors (Some (replicate SECTOR_LEN 0))) }
        ensures durable { IfOk result (λ d. Only (device_state d).content (device_state d)) }
        ensures unit { IfOk result
            (λ d. (device_state d).unit ≡ unit_from (non_zero_u32_get unit) first) }
        ensures told { IfOk result (λ d. (device_state d).told ≡ []) }
        ensures bench { IfOk result (λ d. bench_of d ≡ no_faults) }
        ensures keeps { IfOk result (λ d. (device_state d).keeps_model) }
    {
        let zeros = Some([0; 512]);
        Ok(MemDevice {
            rows: Vec::from_elem(alloc, stands(zeros), sectors as usize)?,
            unsynced: Vec::with_capacity(alloc, sectors as usize)?,
            sectors,
            units: Units {
                sectors: unit,
                first,
            },
            bench: Bench::new(),
            past: Snapshot::of(&Past::Start),
            failed: Snapshot::of(&Count::Zero),
            failed_orders: Snapshot::of(&Count::Zero),
            told: Snapshot::of(&Told::Nothing),
        })
    }

    /// Write call `write`, counted from 0 from now on, fails, and so does every later call, until
    /// `crash`.
    pub fn stop_at(&mut self, write: u64)
        ensures { self.new ≡ with_bench
            (record (bench_of self.old) { writes = 0; stop = Some write }) self.old }
    {
        self.bench.writes = 0;
        self.bench.stop = Some(write);
    }

    /// The `nth` call of that kind from now on, counted from 0, fails. A later `fail` of the same
    /// kind takes its place.
    pub fn fail(&mut self, call: DeviceCall, nth: u64)
        ensures { self.new ≡ with_bench (with_fault call nth (bench_of self.old)) self.old }
    {
        match call {
            DeviceCall::Read => self.bench.read_fault = Some(nth),
            DeviceCall::Write => self.bench.write_fault = Some(nth),
            DeviceCall::Sync => self.bench.sync_fault = Some(nth),
        }
    }

    /// The write calls begun since `stop_at`, or since `new`. It rises no further once it is
    /// `u64::MAX`.
    pub fn writes(&self) -> u64
        ensures { result ≡ (bench_of self.now).writes }
    {
        self.bench.writes
    }

    fn stop(&mut self, choices: &[Left], rest: Left)
        ensures { IsStopped choices.now rest self.old self.new }
    {
        note(&self.rows, &mut self.past);
        choose_rows(&mut self.rows, choices, rest);
        spoil(&mut self.rows, &self.unsynced, self.units);
        self.unsynced.clear();
        self.bench.stop = None;
        self.bench.stopped = false;
    }

    /// Stops the device, which leaves this of each unsynced sector. Where that is `Bad`, each other
    /// sector of its unit is unreadable too. It goes on from what was left.
    pub fn crash(&mut self, left: Left)
        ensures { IsStopped [] left self.old self.new }
    {
        self.stop(&[], left);
    }

    /// As `crash`, with a choice for each unsynced sector in order of number. Those past the list
    /// are as at the last sync.
    pub fn crash_each(&mut self, left: &[Left])
        ensures { IsStopped left.now Left.Old self.old self.new }
    {
        self.stop(left, Left::Old);
    }

    /// Makes a sector alone unreadable, durably, as no device of the model does.
    pub fn set_unreadable(&mut self, sector: u32)
        requires { sector < (device_state self.old).size }
        ensures lost { (device_state self.new).content ≡ lose
            (device_state self.old).content sector }
        ensures durable { (c : List Cell) → (device_state self.new).may_leave c → (d : List Cell)
            × (device_state self.old).may_leave d × (c ≡ lose d sector) }
        ensures same_failures { (device_state self.new).failures
            ≡ (device_state self.old).failures }
        ensures carries { Carries (device_state self.old) (device_state self.new) }
        ensures time { Elapses (device_state self.old) (device_state self.new) }
        ensures bench { bench_of self.new ≡ bench_of self.old }
        ensures keeps { (device_state self.new).keeps_model }
    {
        note(&self.rows, &mut self.past);
        let_go(sector, &mut self.unsynced);
        self.rows[sector as usize] = stands(None);
    }
}

impl SectorDevice for MemDevice {
    ghost use Rattle.std.specs.Prelude.{◌∷◌, ◌↔◌, OnOk, OnErr, IsErr, IsErrOf, IsTrue};
    ghost use Rattle.lfs_model.specs.Device.{cell_at, put, MayWriteUnit, IsUntouched, CrashWritesUnit, CrashSpreads, MayTell, BearsAll};
    ghost use Rattle.lfs_model.specs.declared.Order.TheVariants as order;
    ghost use Rattle.lfs_device.specs.Bench.{fails_at, after_call};
    ghost use Rattle.lfs_device.specs.MemoryDevice.{device_state, rows_of, bench_of};
    ghost use Rattle.lfs_device.specs.Units.{unit_of};

    ghost state = { device_state };

    ghost lawful = { λ d. memory_lawful (unit_of d.units) d.rows.items (states_of d.past.value) d.failed.value d.failed_orders.value (orders_of d.told.value) d.bench d.fits d.whole d.were_whole };

    fn sectors(&self) -> u32 {
        self.sectors
    }

    fn read(&mut self, sector: u32, out: &mut [u8; 512]) -> Result<(), ReadFault>
        requires { sector < (device_state self.old).size }
        ensures value { OnOk result ((device_state self.new).keeps_model
            → cell_at (device_state self.old).content sector ≡ Some out.new) }
        ensures unreadable { IsErrOf result ReadFault.Unreadable
            → (device_state self.new).keeps_model
            → cell_at (device_state self.old).content sector ≡ None }
        ensures failed { IsErrOf result ReadFault.Failed
            → (device_state self.old).failures < (device_state self.new).failures }
        ensures no_failure { OnOk result
            ((device_state self.new).failures ≡ (device_state self.old).failures) }
        ensures no_failure_unreadable { IsErrOf result ReadFault.Unreadable
            → (device_state self.new).failures ≡ (device_state self.old).failures }
        ensures no_order { (device_state self.new).failed_orders
            ≡ (device_state self.old).failed_orders }
        ensures borne { IsErrOf result ReadFault.Failed → BearsAll (device_state self.old) }
        ensures untouched { IsUntouched (device_state self.old) (device_state self.new) }
        ensures carries { Carries (device_state self.old) (device_state self.new) }
        ensures time { Elapses (device_state self.old) (device_state self.new) }
        ensures told { (device_state self.new).told ≡ (device_state self.old).told }
        ensures bench { bench_of self.new ≡ after_call DeviceCall.Read (bench_of self.old) }
        ensures keeps { (device_state self.new).keeps_model }
        ensures fault { IsErrOf result ReadFault.Failed
            ↔ IsTrue (fails_at DeviceCall.Read (bench_of self.old)) }
        ensures rows { rows_of self.new ≡ rows_of self.old }
    {
        if self.bench.call(DeviceCall::Read) {
            add_one(&mut self.failed);
            return Err(ReadFault::Failed);
        }
        match self.rows[sector as usize].present {
            Some(bytes) => {
                *out = bytes;
                Ok(())
            }
            None => Err(ReadFault::Unreadable),
        }
    }

    fn write(&mut self, sector: u32, bytes: &[u8; 512]) -> Result<(), DeviceFault>
        requires { sector < (device_state self.old).size }
        ensures written { OnOk result ((device_state self.new).keeps_model
            → (device_state self.new).content ≡ put
            (device_state self.old).content sector bytes.now) }
        ensures failed_write { OnErr result ((device_state self.new).keeps_model
            → MayWriteUnit (device_state self.old).unit sector bytes.now
            (device_state self.old).content (device_state self.new).content) }
        ensures crash { CrashWritesUnit sector bytes.now
            (device_state self.old) (device_state self.new) }
        ensures failed { OnErr result
            ((device_state self.old).failures < (device_state self.new).failures) }
        ensures failed_order { OnErr result
            ((device_state self.old).failed_orders < (device_state self.new).failed_orders) }
        ensures borne { OnErr result (BearsAll (device_state self.old)) }
        ensures no_failure { OnOk result
            ((device_state self.new).failures ≡ (device_state self.old).failures) }
        ensures carries { Carries (device_state self.old) (device_state self.new) }
        ensures time { Elapses (device_state self.old) (device_state self.new) }
        ensures told { OnOk result ((device_state self.new).told
            ≡ order.Write sector bytes.now ∷ (device_state self.old).told) }
        ensures may_tell { OnErr result (MayTell (order.Write sector bytes.now)
            (device_state self.old).told (device_state self.new).told) }
        ensures bench { bench_of self.new ≡ after_call DeviceCall.Write (bench_of self.old) }
        ensures keeps { (device_state self.new).keeps_model }
        ensures fault { IsErr result ↔ IsTrue (fails_at DeviceCall.Write (bench_of self.old)) }
        ensures old_left { OnErr result
            ((device_state self.new).content ≡ (device_state self.old).content) }
        ensures spreads { CrashSpreads sector bytes.now
            (device_state self.old) (device_state self.new) }
    {
        let fails = self.bench.call(DeviceCall::Write);
        note(&self.rows, &mut self.past);
        tell_write(sector, bytes, &mut self.told);
        list_sector(sector, &self.rows, &mut self.unsynced);
        let row = &mut self.rows[sector as usize];
        row.written = Some(*bytes);
        if fails {
            add_one(&mut self.failed);
            add_one(&mut self.failed_orders);
            return Err(DeviceFault);
        }
        row.present = Some(*bytes);
        Ok(())
    }

    fn sync(&mut self) -> Result<(), DeviceFault>
        ensures durable { OnOk result ((device_state self.new).keeps_model
            → Only (device_state self.new).content (device_state self.new)) }
        ensures failed { OnErr result
            ((device_state self.old).failures < (device_state self.new).failures) }
        ensures failed_order { OnErr result
            ((device_state self.old).failed_orders < (device_state self.new).failed_orders) }
        ensures borne { OnErr result (BearsAll (device_state self.old)) }
        ensures no_failure { OnOk result
            ((device_state self.new).failures ≡ (device_state self.old).failures) }
        ensures untouched { IsUntouched (device_state self.old) (device_state self.new) }
        ensures carries { Carries (device_state self.old) (device_state self.new) }
        ensures time { Elapses (device_state self.old) (device_state self.new) }
        ensures told { OnOk result ((device_state self.new).told
            ≡ order.Sync ∷ (device_state self.old).told) }
        ensures may_tell { OnErr result (MayTell order.Sync
            (device_state self.old).told (device_state self.new).told) }
        ensures bench { bench_of self.new ≡ after_call DeviceCall.Sync (bench_of self.old) }
        ensures keeps { (device_state self.new).keeps_model }
        ensures fault { IsErr result ↔ IsTrue (fails_at DeviceCall.Sync (bench_of self.old)) }
        ensures nothing_durable { OnErr result (rows_of self.new ≡ rows_of self.old) }
    {
        if self.bench.call(DeviceCall::Sync) {
            add_one(&mut self.failed);
            add_one(&mut self.failed_orders);
            return Err(DeviceFault);
        }
        note(&self.rows, &mut self.past);
        tell_sync(&mut self.told);
        settle(&mut self.rows, &mut self.unsynced);
        Ok(())
    }
}
