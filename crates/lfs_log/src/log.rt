//! The log of a volume, over its device.
ghost use Rattle.std.specs.Prelude.{None, ◌≡◌, ◌≢◌, ◌⊎◌, ◌<◌, ◌≤◌, ◌+◌, ◌-◌, ◌^◌, true, false, length, IfSome, IfNone, IfOk, IfErr, OnOk, OnErr, IsErrOf, MatchResult, IsTrue, IsFalse};
ghost use Rattle.lfs_model.specs.Checkpoint.{IsVersion};
ghost use Rattle.lfs_model.specs.Device.{Only};
ghost use Rattle.lfs_model.specs.Fields.{zeros};
ghost use Rattle.lfs_model.specs.Members.{AreApart};
ghost use Rattle.lfs_verify.specs.Loading.{HasTables, IsLoaded};
ghost use Rattle.lfs_memory.specs.Batch.{room_for};

use crate::cleaning::may_clean;
use crate::committing::save;
use crate::early::{age_after, write_chunks};
use crate::groups::KeyList;
use crate::layout_version::{LayoutVersion, is_raised_after, unsaved_by, version_after};
use crate::opening::open_memory;
use crate::passing::{empty_segments, take_tables};
use crate::thresholds::has_reserve;
use lfs_cache::{CachedDevice, DEFAULT_SECTORS, MOST_SECTORS};
use lfs_device::{SectorDevice, TendedDevice};
use lfs_memory::counting::SegmentCounts;
use lfs_memory::pointers::{count_blocks, find_block, read_block};
use lfs_memory::present::{locate_double, locate_leaf, read_header};
use lfs_memory::segments::Usage;
use lfs_memory::staging::{has_room, remove_tight, stage};
use lfs_memory::{Changes, Header, LogFault, LogMemory, PointerRun};
use lfs_model::limits::{FILE_NUMBERS, LAST_LEAF, MOST_UNSAVED, SECTOR_LEN};
use lfs_verify::verify::verify;
use lfs_verify::{BlockTotals, MountFault, Tables};
use std::alloc::Global;
use std::marker::Model;

/// The inodes and blocks of a volume: in memory where they changed since the acknowledged
/// checkpoint, else on the device.
#[derive(Drop)]
pub struct Log<D: SectorDevice> {
    device: CachedDevice<D>,
    memory: LogMemory,
    number: u64,
    version: LayoutVersion,
    /// The version was raised, and the acknowledged checkpoint has the first one.
    upgraded: bool,
    /// Nothing changed since the acknowledged checkpoint, but for files without a name that went.
    saved: bool,
    halted: bool,
    /// The blocks of all files, as they are staged.
    totals: BlockTotals,
    /// What a file loses is counted here.
    counts: SegmentCounts,
    /// The memory of a pass of the cleaner, and a list of the keys of what it moves.
    pass: LogMemory,
    keys: KeyList,
    /// The pointers that the last read of a block found, until something changes.
    pointers: Option<PointerRun>,
}

impl<D: SectorDevice> Model for Log<D> {
    ghost use Rattle.lfs_memory.specs.Pointers.{KeepsRun};
    ghost use Rattle.lfs_log.specs.LogState.{LogState};
    ghost use Rattle.lfs_log.specs.Held.{HoldsUnlessHalted, WaitsUnlessSaved, seen};
    ghost use Rattle.lfs_log.specs.Versions.{number_of};

    ghost Value = { LogState D };

    ghost view = { λ l. seen record {
      device = l.device;
      memory = l.memory;
      number = l.number;
      version = number_of l.version;
      upgraded = l.upgraded;
      saved = l.saved;
      halted = l.halted;
      totals = l.totals;
    } };

    ghost invariant = { λ l.
        HoldsUnlessHalted (D.SectorDevice.state l.device) l.memory l.pass l.keys l.halted
        × KeepsRun (D.SectorDevice.state l.device) l.memory l.pointers
        × WaitsUnlessSaved l.memory l.upgraded l.saved };
}

impl<D: SectorDevice> Log<D> {
    ghost use Rattle.lfs_log.specs.Cleaning.{ArePacked, Cleans, MayPass};
    ghost use Rattle.lfs_log.specs.Saving.{commit_orders, orders_for, pass_orders};
    ghost use Rattle.lfs_log.specs.Early.{full_chunk};
    ghost use Rattle.lfs_log.specs.Thresholds.{HasReserve, LacksReserve, reserve_of};
    ghost use Rattle.lfs_log.specs.Mounting.{HasWholeUnits, OpenedLog, OpensLog};
    ghost use Rattle.lfs_log.specs.LogState.{Saves, Halts, HoldsStill, Reads, ReadsHeader, ReadsBlock, TellsBlock, TellsLeaf, TellsDouble, CountsBlocks, IsReadFault, IsFull, IsVacant, HasAll, IsStaged, IsRefused, IsStageFault, IsRemoved, IsKept, IsWhole, HoldsOne, AreAllSaved, WritesEarly, ReadsLog, unsaved_by};

    /// The volume that the newest checkpoint of the device leads to, with the totals of its files;
    /// else why there is none, and the device. All that the checkpoint leads to is walked over
    /// once, but for the tree of its files. It writes nothing, and takes the memory that later
    /// calls need.
    ///
    /// # Errors
    ///
    /// `NoMemory` where memory is refused, `Device` where a call of the device failed; else the
    /// device holds no log map: it is too small, holds no checkpoint, or the first stage that fails
    /// is named, one of the stages 1 to 9, or 15 where too few segments are clean.
    pub fn open(alloc: Global, device: D) -> Result<Log<D>, (MountFault, D)>
        requires { HasWholeUnits (D.state device) }
        ensures { OpensLog D.SectorDevice.state device result }
    {
        match Log::open_with(alloc, device, DEFAULT_SECTORS) {
            Ok(log) => Ok(log),
            Err(fault) => Err(fault),
        }
    }

    /// The volume as `open` finds it, with a cache of so many sectors.
    ///
    /// # Errors
    ///
    /// As those of `open`.
    pub fn open_with(alloc: Global, device: D, capacity: u32) -> Result<Log<D>, (MountFault, D)>
        requires some { 1 ≤ capacity }
        requires most { capacity ≤ MOST_SECTORS }
        requires units { HasWholeUnits (D.state device) }
        ensures { OpensLog D.SectorDevice.state device result }
    {
        let mut device = match CachedDevice::new(alloc, device, capacity) {
            Ok(device) => device,
            Err(refused) => return Err((MountFault::NoMemory, refused.1)),
        };
        let tables = match verify(alloc, &mut device) {
            Ok(tables) => tables,
            Err(fault) => return Err((fault, device.into_inner())),
        };
        match Log::with_tables(alloc, device, tables) {
            Ok(log) => Ok(log),
            Err(fault) => Err(fault),
        }
    }

    /// The volume whose tables a walk over the device found, with the totals of its files. It takes
    /// the memory that later calls need, and calls the device for nothing.
    ///
    /// # Errors
    ///
    /// `NoMemory` where memory is refused, with the device.
    pub fn with_tables(
        alloc: Global,
        device: CachedDevice<D>,
        tables: Tables,
    ) -> Result<Log<D>, (MountFault, D)>
        requires loaded { IsLoaded tables (D.state device).size }
        requires found { (D.state device).keeps_model
            → HasTables (D.state device).content tables }
        requires durable { (D.state device).keeps_model
            → Only (D.state device).content (D.state device) }
        requires units { HasWholeUnits (D.state device) }
        ensures opened { IfOk result (λ log. OpenedLog D.SectorDevice.state device log) }
        ensures refused { IfErr result (λ e. e.0 ≡ MountFault.NoMemory) }
        ensures same { MatchResult result (λ log. log.device ≡ device) (λ e. e.1 ≡ device) }
    {
        let Ok(counts) = SegmentCounts::new(alloc) else {
            return Err((MountFault::NoMemory, device.into_inner()));
        };
        let version = LayoutVersion::new(tables.version);
        match open_memory(alloc, tables) {
            Ok(opened) => Ok(Log {
                device,
                memory: opened.memory,
                number: opened.number,
                version,
                upgraded: false,
                saved: true,
                halted: false,
                totals: opened.totals,
                counts,
                pass: opened.pass,
                keys: opened.keys,
                pointers: None,
            }),
            Err(_) => Err((MountFault::NoMemory, device.into_inner())),
        }
    }

    /// The log holds one log map, and one that it acknowledged: a law of what `Holds` says.
    pub fn holds_one_map(&self)
        ensures { HoldsOne D.SectorDevice.state self.now }
    {}

    /// The inode map has a place for each file, and the usage table one for each segment: a law of
    /// what the log keeps.
    pub fn are_tables_whole(&self)
        ensures { IsWhole self.now }
    {
        let _first = self.memory.map.block_address(0);
    }

    /// The device as it is; what wasn't saved is gone.
    pub fn into_device(self) -> D
        ensures { result ≡ self.device }
    {
        self.device.into_inner()
    }

    /// The device as it is, to look at.
    pub fn device(&self) -> &D
        ensures { result.now ≡ self.now.device }
    {
        self.device.device()
    }

    /// Whether a write of the log failed.
    pub fn is_halted(&self) -> bool
        ensures { result ≡ self.now.halted }
    {
        self.halted
    }

    /// The acknowledged checkpoint's number.
    pub fn number(&self) -> u64
        ensures { result ≡ self.now.number }
    {
        self.number
    }

    /// The version of the volume's layout.
    pub fn version(&self) -> u32
        ensures known { IsVersion result }
        ensures value { result ≡ self.now.version }
    {
        self.version.number()
    }

    /// How many segments the volume has.
    pub fn segments(&self) -> u32
        ensures { result ≡ self.now.segments }
    {
        self.memory.usage.segments()
    }

    /// How many segments are clean.
    pub fn clean_segments(&self) -> u32
        ensures { result ≡ self.now.clean }
    {
        self.memory.usage.clean()
    }

    /// How much is unsaved: 0 exactly where the acknowledged log map is the present one without its
    /// files of no links, as far as the log knows. Else the blocks of files that changed since, in
    /// memory or written where the acknowledged checkpoint doesn't reach, and its own where the
    /// version was raised, and 1 at least.
    pub fn unsaved(&self) -> usize
        ensures value { result ≡ self.now.unsaved }
        ensures counted { result ≡ unsaved_by self.now }
    {
        if self.saved {
            return 0;
        }
        let _most = self.memory.dirty.capacity();
        let version = unsaved_by(self.upgraded);
        let early = self.memory.usage.early() as usize;
        (self.memory.dirty.len() + early + version).max(1)
    }

    /// Whether nothing is unsaved. No block is in memory then, no version was raised, and no sector
    /// was taken.
    pub fn is_saved(&self) -> bool
        ensures value { result ≡ self.now.saved }
        ensures nothing { IsTrue result → AreAllSaved self.now }
    {
        self.saved
    }

    /// The blocks of all files, as they are staged: what the last change said of them, or the mount
    /// counted.
    pub fn totals(&self) -> BlockTotals
        ensures { result ≡ self.now.totals }
    {
        self.totals
    }

    /// How many inodes and blocks of pointers the files have, as they are staged.
    pub fn meta(&self) -> u32
        ensures { result ≡ self.now.totals.meta_blocks }
    {
        self.totals.meta_blocks
    }

    /// How many blocks live in each segment, and hold it.
    pub fn usage(&self) -> &Usage
        ensures { result.now ≡ self.now.usage }
    {
        &self.memory.usage
    }

    /// The least number that no file has.
    pub fn least_free(&self) -> Option<u16>
        ensures some { IfSome result (IsVacant D.SectorDevice.state self.now) }
        ensures none { IfNone result (HasAll D.SectorDevice.state self.now) }
    {
        self.memory.map.least_free()
    }

    /// Whether memory has room for a batch of changes. After a commit it has for each that asks for
    /// 456 blocks at most.
    pub fn has_room(&self, changes: &Changes) -> bool
        ensures fits { IsTrue result → self.now.waiting + room_for changes.now ≤ MOST_UNSAVED }
        ensures narrow { IsFalse result → self.now.halted ≡ false
            → MOST_UNSAVED < self.now.waiting + room_for changes.now }
    {
        !self.halted && has_room(&self.memory, changes)
    }

    /// What the inode of a file says of it, if the file is there.
    ///
    /// # Errors
    ///
    /// `Halted` once a write of the log failed, `Device` where a call of the device failed.
    pub fn header(&mut self, number: u16) -> Result<Option<Header>, LogFault>
        requires { number < FILE_NUMBERS }
        ensures keeps { ReadsLog D.SectorDevice.state self.old self.new result }
        ensures answer { IfOk result (ReadsHeader D.SectorDevice.state self.old self.new number) }
    {
        if self.halted {
            return Err(LogFault::Halted);
        }
        let Ok(header) = read_header(&mut self.device, &self.memory, number) else {
            return Err(LogFault::Device);
        };
        Ok(header)
    }

    /// Whether a block of a file is stored, and its bytes; zeros where it isn't.
    ///
    /// # Errors
    ///
    /// As those of `header`.
    pub fn block(&mut self, number: u16, index: u32, out: &mut [u8; 512]) -> Result<bool, LogFault>
        requires { number < FILE_NUMBERS }
        ensures keeps { ReadsLog D.SectorDevice.state self.old self.new result }
        ensures answer { IfOk result (ReadsBlock D.SectorDevice.state self.old self.new number index
            out.new) }
        ensures zeros { IfOk result (λ found. IsFalse found → out.new ≡ zeros SECTOR_LEN) }
    {
        if self.halted {
            return Err(LogFault::Halted);
        }
        let Ok(stored) = read_block(
            &mut self.device,
            &self.memory,
            &mut self.pointers,
            number,
            index,
            out,
        ) else {
            return Err(LogFault::Device);
        };
        Ok(stored)
    }

    /// Whether a block of a file is stored. It reads blocks of pointers at most, and none of data.
    ///
    /// # Errors
    ///
    /// As those of `header`.
    pub fn has_block(&mut self, number: u16, index: u32) -> Result<bool, LogFault>
        requires { number < FILE_NUMBERS }
        ensures keeps { ReadsLog D.SectorDevice.state self.old self.new result }
        ensures answer { IfOk result (TellsBlock D.SectorDevice.state self.old self.new number
            index) }
    {
        if self.halted {
            return Err(LogFault::Halted);
        }
        let Ok(address) = find_block(
            &mut self.device,
            &self.memory,
            &self.pointers,
            number,
            index,
        ) else {
            return Err(LogFault::Device);
        };
        Ok(address != 0)
    }

    /// How many blocks of a file are stored at the indices from one on to another. It looks at each
    /// block of pointers above them once, and reads none of data.
    ///
    /// # Errors
    ///
    /// As those of `header`.
    pub fn count_blocks(&mut self, number: u16, from: u32, to: u32) -> Result<u32, LogFault>
        requires number { number < FILE_NUMBERS }
        requires order { from ≤ to }
        ensures keeps { ReadsLog D.SectorDevice.state self.old self.new result }
        ensures few { IfOk result (λ count. count ≤ to - from) }
        ensures answer { IfOk result (CountsBlocks D.SectorDevice.state self.old self.new number
            from to) }
    {
        if self.halted {
            return Err(LogFault::Halted);
        }
        let Ok(count) = count_blocks(
            &mut self.device,
            &self.memory,
            &mut self.pointers,
            number,
            from,
            to,
        ) else {
            return Err(LogFault::Device);
        };
        Ok(count)
    }

    /// Whether a block is stored below a leaf of pointers of a file: those from 112 on at leaf 0,
    /// 128 each.
    ///
    /// # Errors
    ///
    /// As those of `header`.
    pub fn has_leaf(&mut self, number: u16, leaf: u32) -> Result<bool, LogFault>
        requires number { number < FILE_NUMBERS }
        requires leaf { leaf ≤ LAST_LEAF }
        ensures keeps { ReadsLog D.SectorDevice.state self.old self.new result }
        ensures answer { IfOk result (TellsLeaf D.SectorDevice.state self.old self.new number
            leaf) }
    {
        if self.halted {
            return Err(LogFault::Halted);
        }
        let Ok(address) = locate_leaf(&mut self.device, &self.memory, number, leaf) else {
            return Err(LogFault::Device);
        };
        Ok(address != 0)
    }

    /// Whether a block is stored below the double root of a file: at an index from 240 on.
    ///
    /// # Errors
    ///
    /// As those of `header`.
    pub fn has_double(&mut self, number: u16) -> Result<bool, LogFault>
        requires number { number < FILE_NUMBERS }
        ensures keeps { ReadsLog D.SectorDevice.state self.old self.new result }
        ensures answer { IfOk result (TellsDouble D.SectorDevice.state self.old self.new number) }
    {
        if self.halted {
            return Err(LogFault::Halted);
        }
        let Ok(address) = locate_double(&mut self.device, &self.memory, number) else {
            return Err(LogFault::Device);
        };
        Ok(address != 0)
    }

    /// Changes files in memory, whole or not at all: first what is lost, then headers, then blocks.
    /// All files have these totals then. Where the first version is lost, the volume has the second.
    ///
    /// # Errors
    ///
    /// With the files as they were: `Full` where memory has no room, `Device` where a call of the
    /// device failed. `Halted` once a write of the log failed.
    pub fn stage(&mut self, changes: &Changes, totals: BlockTotals) -> Result<(), LogFault>
        ensures done { OnOk result (IsStaged D.SectorDevice.state self.old self.new changes.now) }
        ensures counted { OnOk result (self.new.totals ≡ totals) }
        ensures kept { OnErr result (self.new.totals ≡ self.old.totals) }
        ensures refused { OnErr result (IsRefused D.SectorDevice.state self.old self.new
            changes.now) }
        ensures full { IsErrOf result LogFault.Full
            → MOST_UNSAVED < self.old.waiting + room_for changes.now }
        ensures failed { IsErrOf result LogFault.Device
            → IsStageFault D.SectorDevice.state self.old self.new changes.now }
        ensures halted { IsErrOf result LogFault.Halted
            → (self.new ≡ self.old) × (self.old.halted ≡ true) }
    {
        if self.halted {
            return Err(LogFault::Halted);
        }
        drop_run(&mut self.pointers);
        // A stage that fails may have brought blocks into memory, which a commit clears.
        self.saved = false;
        match stage(
            &mut self.device,
            &mut self.memory,
            changes,
            &mut self.counts,
        ) {
            Ok(()) => {
                self.totals = totals;
                self.version = version_after(&changes.loss, self.version);
                self.upgraded = is_raised_after(&changes.loss, self.upgraded);
                Ok(())
            }
            Err(fault) => Err(fault),
        }
    }

    /// Removes a file with all its blocks; the others have these totals. It takes no memory.
    ///
    /// # Errors
    ///
    /// With the files as they were: `Device` where a call of the device failed. `Halted` once a
    /// write of the log failed.
    pub fn remove(&mut self, number: u16, totals: BlockTotals) -> Result<(), LogFault>
        requires { number < FILE_NUMBERS }
        ensures done { OnOk result (IsRemoved D.SectorDevice.state self.old self.new number) }
        ensures counted { OnOk result (self.new.totals ≡ totals) }
        ensures kept { OnErr result (IsKept D.SectorDevice.state self.old self.new) }
        ensures same { OnErr result (self.new.totals ≡ self.old.totals) }
        ensures halted { IsErrOf result LogFault.Halted → self.old.halted ≡ true }
        ensures other { IsErrOf result LogFault.Full → ⊥ }
        ensures failed { OnErr result (IsReadFault D.SectorDevice.state self.old self.new) }
    {
        if self.halted {
            return Err(LogFault::Halted);
        }
        drop_run(&mut self.pointers);
        let nameless = self.memory.map.is_hidden(number);
        let Ok(()) = remove_tight(&mut self.device, &mut self.memory, number, &mut self.counts)
        else {
            return Err(LogFault::Device);
        };
        self.saved &= nameless;
        self.totals = totals;
        Ok(())
    }

    /// Whether so many segments are clean that a commit leaves an eighth of them clean, whatever it
    /// takes. `commit` asks beside this only that a number is left.
    pub fn may_commit(&self) -> bool
        ensures yes { IsTrue result → HasReserve self.now.segments self.now.clean }
        ensures no { IsFalse result → LacksReserve self.now.segments self.now.clean }
        ensures full { IsFalse result → IsFull self.now }
    {
        has_reserve(self.segments(), self.clean_segments())
    }

    /// Writes full chunks of data blocks to segments that are clean, as long as memory has one and
    /// more than the next commit asks for is clean. They are unsaved still, for no acknowledged
    /// checkpoint reaches them. It takes no memory.
    ///
    /// # Errors
    ///
    /// `Halted` where a call of the device failed, here or as the log was written before.
    pub fn write_early(&mut self) -> Result<(), LogFault>
        ensures done { OnOk result (WritesEarly D.SectorDevice.state self.old self.new) }
        ensures left { OnOk result ((self.new.file_data < full_chunk)
            ⊎ (self.new.clean ≤ reserve_of self.new.segments)) }
        ensures totals { self.new.totals ≡ self.old.totals }
        ensures halted { IsErrOf result LogFault.Halted → self.old.halted ≢ true
            → Halts D.SectorDevice.state self.old self.new }
        ensures still { self.old.halted ≡ true
            → (self.new ≡ self.old) × IsErrOf result LogFault.Halted }
        ensures full { IsErrOf result LogFault.Full → ⊥ }
        ensures other { IsErrOf result LogFault.Device → ⊥ }
        ensures told { length (D.state self.new.device).told
            ≤ length (D.state self.old.device).told
            + orders_for self.old.waiting }
    {
        if self.halted {
            return Err(LogFault::Halted);
        }
        drop_run(&mut self.pointers);
        let age = age_after(self.number);
        match write_chunks(&mut self.device, &mut self.memory, age) {
            Ok(()) => Ok(()),
            Err(_) => {
                self.halted = true;
                self.saved = false;
                Err(LogFault::Halted)
            }
        }
    }

    /// Saves all that changed, but for files without a name: blocks to segments that are clean, at
    /// most eight of them, a sync, the next checkpoint, a sync. It takes no memory.
    ///
    /// # Errors
    ///
    /// `Full` where too few segments are clean: nothing changed. `Halted` where a call of the
    /// device failed, here or as the log was written before.
    pub fn commit(&mut self) -> Result<(), LogFault>
        ensures done { OnOk result (Saves D.SectorDevice.state self.old self.new) }
        ensures totals { self.new.totals ≡ self.old.totals }
        ensures full { IsErrOf result LogFault.Full → (self.new ≡ self.old) × IsFull self.old }
        ensures halted { IsErrOf result LogFault.Halted → self.old.halted ≢ true
            → Halts D.SectorDevice.state self.old self.new }
        ensures still { self.old.halted ≡ true
            → (self.new ≡ self.old) × IsErrOf result LogFault.Halted }
        ensures other { IsErrOf result LogFault.Device → ⊥ }
        ensures told { length (D.state self.new.device).told
            ≤ length (D.state self.old.device).told + commit_orders }
        ensures tells { length (D.state self.new.device).told
            ≤ length (D.state self.old.device).told
            + orders_for self.old.waiting }
    {
        if self.halted {
            return Err(LogFault::Halted);
        }
        if self.number == u64::MAX {
            return Err(LogFault::Full);
        }
        if !self.may_commit() {
            return Err(LogFault::Full);
        }
        drop_run(&mut self.pointers);
        match save(
            &mut self.device,
            &mut self.memory,
            self.version,
            self.number,
        ) {
            Ok(()) => {
                self.number += 1;
                self.upgraded = false;
                self.saved = true;
                Ok(())
            }
            Err(_) => {
                self.halted = true;
                self.saved = false;
                Err(LogFault::Halted)
            }
        }
    }

    /// Empties these segments: all that lives in them goes to others, the blocks of files without a
    /// name and those of the tables too, and is saved as by a commit. No block is left in them, and
    /// fewer were taken for it. The segments are 2 at least, and an eighth of all and one at most.
    /// It takes no memory.
    ///
    /// # Errors
    ///
    /// With the log map as it was, and all that is known of it: `Full` where blocks of files wait
    /// for a commit, fewer than an eighth of the segments are clean, one of these is clean, wasn't
    /// there before the acknowledged checkpoint or is that of the last chunk, no number is left, or
    /// their blocks, with the inodes and blocks of pointers above them and the 48 of the tables,
    /// fill as many segments. `Device` where a call of the device failed that reads. `Halted` where
    /// one failed that writes, here or as the log was written before.
    pub fn vacate(&mut self, victims: &[u16]) -> Result<(), LogFault>
        requires { AreApart victims.now }
        ensures done { OnOk result (Cleans D.SectorDevice.state self.old self.new victims.now) }
        ensures totals { self.new.totals ≡ self.old.totals }
        ensures kept { (IsErrOf result LogFault.Halted → ⊥)
            → OnErr result (HoldsStill D.SectorDevice.state self.old self.new) }
        ensures lacks { IsErrOf result LogFault.Full → MayPass self.old victims.now
            → self.old.number < 2 ^ 64 - 1
            → ArePacked D.SectorDevice.state self.old self.new victims.now }
        ensures failed { IsErrOf result LogFault.Device
            → IsReadFault D.SectorDevice.state self.old self.new }
        ensures halted { IsErrOf result LogFault.Halted → self.old.halted ≢ true
            → Halts D.SectorDevice.state self.old self.new }
        ensures still { self.old.halted ≡ true
            → (self.new ≡ self.old) × IsErrOf result LogFault.Halted }
        ensures told { length (D.state self.new.device).told
            ≤ length (D.state self.old.device).told + pass_orders self.old.segments }
    {
        if self.halted {
            return Err(LogFault::Halted);
        }
        if self.number == u64::MAX || !may_clean(&self.memory, victims) {
            return Err(LogFault::Full);
        }
        drop_run(&mut self.pointers);
        match empty_segments(
            &mut self.device,
            &self.memory,
            &mut self.pass,
            &mut self.keys,
            victims,
            self.version,
            self.number,
        ) {
            Ok(()) => {}
            Err(LogFault::Halted) => {
                self.halted = true;
                self.saved = false;
                return Err(LogFault::Halted);
            }
            Err(fault) => {
                self.memory.usage.end_last();
                return Err(fault);
            }
        }
        take_tables(&mut self.memory, &mut self.pass);
        self.number += 1;
        self.upgraded = false;
        self.saved = true;
        Ok(())
    }
}

impl<D: TendedDevice> Log<D> {
    ghost use Rattle.lfs_log.specs.LogState.{Reads};

    /// Tends to the device, of which the log sees nothing.
    pub fn tend(&mut self)
        ensures tended { D.tends self.old.device self.new.device }
        ensures reads { Reads D.SectorDevice.state self.old self.new }
        ensures no_failure { (D.SectorDevice.state self.new.device).failures
            ≡ (D.SectorDevice.state self.old.device).failures }
    {
        self.device.tend();
    }
}

/// Nothing is known of pointers any more. Where nothing was, no byte is cleared for that.
fn drop_run(kept: &mut Option<PointerRun>)
    ensures { kept.new ≡ None }
{
    if kept.is_some() {
        *kept = None;
    }
}
