//! A store from its mount on: a draft is staged after room is made for it, and a commit saves what
//! was staged.
ghost use Rattle.std.specs.Prelude.{◌≡◌, ◌<◌, ◌≤◌, ◌+◌, ◌/◌, true, false, length, IfOk, IfErr, OnOk, OnErr, IsOk, IsErrOf, ◌⊎◌, MatchResult, IsTrue, IsFalse};
ghost use Rattle.lfs_model.specs.Device.{Only, IsUntouched, Carries, LeavesOnly};
ghost use Rattle.lfs_cleaner.specs.log.verify.Loading.{HasTables, IsLoaded};
ghost use Rattle.lfs_cleaner.specs.log.verify.Verified.{HasLogMap, IsRefusedLog};
ghost use Rattle.lfs_store.specs.Accepting.{IsMountRefusal};
ghost use Rattle.lfs_store.specs.StoreState.{IsEmpty, asked_by};

use crate::draft::Draft;
use crate::store::Store;
use lfs_cache::CachedDevice;
use lfs_cleaner::volume_log::verify::Tables;
use lfs_cleaner::volume_log::{Log, LogFault, MountFault};
use lfs_cleaner::{clean_before_change, clean_once, has_quarter, make_clean};
use lfs_device::SectorDevice;
use lfs_files::StoreFault;
use lfs_model::limits::MOST_UNSAVED;
use std::alloc::Global;

/// The most headers that one call changes.
const MOST_HEADERS: usize = 4;

/// The most blocks that one call changes: those of a full directory that gets the second form.
const MOST_BLOCKS: usize = 256;

impl<D: SectorDevice> Store<D> {
    ghost use Rattle.lfs_cleaner.specs.log.LogState.{AreAllSaved, Halts, IsFull, Mounts, WritesEarly};
    ghost use Rattle.lfs_cleaner.specs.log.Mounting.{HasWholeUnits};
    ghost use Rattle.lfs_cleaner.specs.log.Saving.{commit_orders, orders_for};
    ghost use Rattle.lfs_cleaner.specs.log.Thresholds.{LacksReserve};
    ghost use Rattle.lfs_cleaner.specs.Making.{CleansBefore, CleansOnce, HasQuarter, HasThreeSixteenths, once_orders, passes_orders, clean_orders};
    ghost use Rattle.lfs_store.specs.Recounting.{MountsTotals};
    ghost use Rattle.lfs_store.specs.Accepting.{FindsReady, Readies, HasClean, HasCleanForTwo, HasRoomFor};
    ghost use Rattle.lfs_store.specs.Keeping.{KeepsDraft, OnlyDrafts};
    ghost use Rattle.lfs_store.specs.Outcomes.{Accepted, Cleaned, Committed, Reserves};

    /// The volume that the newest checkpoint of the device leads to, with its totals and an empty
    /// draft; else why there is none, and the device. It writes nothing, and takes the memory that
    /// later calls need.
    ///
    /// # Errors
    ///
    /// `NoMemory` where memory is refused, `Device` where a call of the device failed; else the
    /// device holds no log map: it is too small, holds no checkpoint, or the first stage that fails
    /// is named, one of the stages 1 to 9, or 15 where too few segments are clean.
    pub fn open(alloc: Global, device: D) -> Result<Store<D>, (MountFault, D)>
        requires { HasWholeUnits (D.state device) }
        ensures stores { IfOk result (λ s. Mounts D.SectorDevice.state device s.log) }
        ensures counts { IfOk result (λ s. MountsTotals D.SectorDevice.state device s.log
            s.log.totals) }
        ensures drafted { IfOk result (λ s. s.drafted ≡ s.log.totals) }
        ensures saved { IfOk result (λ s. s.log.saved ≡ true) }
        ensures draft { IfOk result (λ s. IsEmpty s.draft) }
        ensures durable { IfOk result (λ s. (D.state s.log.device).keeps_model
            → Only (D.state device).content (D.state s.log.device)) }
        ensures cause { IfErr result (λ e. (e.0 ≡ MountFault.NoMemory → ⊥)
            → IsMountRefusal (D.state device) (D.state e.1) e.0) }
        ensures found { IfOk result (λ s. HasLogMap (D.state device) (D.state s.log.device)) }
        ensures reason { IfErr result (λ e. IsRefusedLog (D.state device) (D.state e.1) e.0) }
        ensures untouched { MatchResult result
            (λ s. IsUntouched (D.state device) (D.state s.log.device))
            (λ e. IsUntouched (D.state device) (D.state e.1)) }
        ensures carries { MatchResult result (λ s. Carries (D.state device) (D.state s.log.device))
            (λ e. Carries (D.state device) (D.state e.1)) }
        ensures any_moment { MatchResult result
            (λ s. LeavesOnly (D.state device) (D.state s.log.device) (D.state device).may_leave)
            (λ e. LeavesOnly (D.state device) (D.state e.1) (D.state device).may_leave) }
    {
        let Ok(draft) = Draft::new(alloc, MOST_HEADERS, MOST_BLOCKS) else {
            return Err((MountFault::NoMemory, device));
        };
        let log = match Log::open(alloc, device) {
            Ok(log) => log,
            Err(fault) => return Err(fault),
        };
        let drafted = log.totals();
        Ok(Store {
            log,
            draft,
            drafted,
        })
    }

    /// The volume whose tables a walk over the device found, with its totals and an empty draft. It
    /// takes the memory that later calls need, and calls the device for nothing.
    ///
    /// # Errors
    ///
    /// `NoMemory` where memory is refused, with the device.
    pub fn with_tables(
        alloc: Global,
        device: CachedDevice<D>,
        tables: Tables,
    ) -> Result<Store<D>, (MountFault, D)>
        requires loaded { IsLoaded tables (D.state device).size }
        requires found { (D.state device).keeps_model
            → HasTables (D.state device).content tables }
        requires durable { (D.state device).keeps_model
            → Only (D.state device).content (D.state device) }
        requires units { HasWholeUnits (D.state device) }
        ensures stores { IfOk result (λ s. Mounts D.SectorDevice.state device s.log) }
        ensures counts { IfOk result (λ s. MountsTotals D.SectorDevice.state device s.log
            s.log.totals) }
        ensures drafted { IfOk result (λ s. s.drafted ≡ s.log.totals) }
        ensures saved { IfOk result (λ s. s.log.saved ≡ true) }
        ensures draft { IfOk result (λ s. IsEmpty s.draft) }
        ensures refused { IfErr result (λ e. e.0 ≡ MountFault.NoMemory) }
        ensures same { MatchResult result (λ s. s.log.device ≡ device) (λ e. e.1 ≡ device) }
    {
        let Ok(draft) = Draft::new(alloc, MOST_HEADERS, MOST_BLOCKS) else {
            return Err((MountFault::NoMemory, device.into_inner()));
        };
        let log = match Log::with_tables(alloc, device, tables) {
            Ok(log) => log,
            Err(fault) => return Err(fault),
        };
        let drafted = log.totals();
        Ok(Store {
            log,
            draft,
            drafted,
        })
    }

    /// The device as it is; what wasn't saved is gone.
    pub fn into_device(self) -> D
        ensures { result ≡ self.log.device }
    {
        self.log.into_device()
    }

    /// Saves all that was staged, but for files without a name. The draft stays as it is.
    ///
    /// # Errors
    ///
    /// As those of `Log::commit`: `Full` where too few segments are clean: nothing changed.
    /// `Halted` where a call of the device failed, here or as the log was written before.
    pub fn commit(&mut self) -> Result<(), LogFault>
        ensures { Committed D.SectorDevice.state self.old self.new result }
    {
        if self.log.is_halted() {
            return Err(LogFault::Halted);
        }
        if self.log.is_saved() {
            return Ok(());
        }
        self.log.commit()?;
        Ok(())
    }

    /// The draft is empty: what was drafted isn't done.
    pub fn give_up(&mut self)
        ensures draft { IsEmpty self.new.draft }
        ensures keeps { OnlyDrafts self.old self.new }
        ensures drafted { self.new.drafted ≡ self.old.log.totals }
    {
        self.draft.changes.clear();
        self.drafted = self.log.totals();
    }

    /// Whether fewer than a quarter of the segments is clean, so that `clean` and `clean_once` have
    /// something to do.
    pub fn is_cleaning_due(&self) -> bool
        ensures due { IsTrue result → HasQuarter self.now.log → ⊥ }
        ensures quarter { IsFalse result → HasQuarter self.now.log }
    {
        !has_quarter(&self.log)
    }

    /// Makes a quarter of the segments clean, where fewer are: a commit saves what isn't saved, and
    /// passes of the cleaner follow, an eighth of the segments times at most. The draft stays as it
    /// is. It takes no memory.
    ///
    /// # Errors
    ///
    /// With the files as they were: `Full` where too few segments are clean for the commit or a
    /// pass, `Device` where a call of the device failed that reads. `Halted` where one failed that
    /// writes, or as the log was written before.
    pub fn clean(&mut self) -> Result<(), LogFault>
        ensures cleans { Cleaned D.SectorDevice.state self.old self.new result }
        ensures enough { OnOk result (HasQuarter self.new.log) }
        ensures told { length (D.state self.new.log.device).told
            ≤ length (D.state self.old.log.device).told
            + clean_orders self.old.log.segments }
        ensures passes { self.old.log.saved ≡ true
            → length (D.state self.new.log.device).told
            ≤ length (D.state self.old.log.device).told
            + passes_orders self.old.log.segments }
        ensures unsaved { (IsErrOf result LogFault.Halted → ⊥) → self.new.log.saved ≡ false
            → self.new.log ≡ self.old.log }
    {
        make_clean(&mut self.log)
    }

    /// One pass of the cleaner where fewer than a quarter of the segments is clean, and none else: a
    /// commit saves what isn't saved before it. The draft stays as it is. It takes no memory.
    ///
    /// # Errors
    ///
    /// As those of `clean`.
    pub fn clean_once(&mut self) -> Result<(), LogFault>
        ensures cleans { Cleaned D.SectorDevice.state self.old self.new result }
        ensures once { OnOk result (CleansOnce D.SectorDevice.state self.old.log self.new.log) }
        ensures told { length (D.state self.new.log.device).told
            ≤ length (D.state self.old.log.device).told
            + once_orders self.old.log.segments }
    {
        clean_once(&mut self.log)
    }

    /// Writes full chunks of what isn't saved to segments that are clean, while more of them are
    /// than a commit asks for.
    fn write_early(&mut self) -> Result<(), LogFault>
        requires { self.old.log.halted ≡ false }
        ensures done { OnOk result (Readies D.SectorDevice.state self.old.log self.new.log) }
        ensures early { OnOk result (WritesEarly D.SectorDevice.state self.old.log self.new.log) }
        ensures quiet { self.old.log.saved ≡ true → self.new.log ≡ self.old.log }
        ensures same { OnOk result (self.new.log.saved ≡ self.old.log.saved) }
        ensures keeps { KeepsDraft self.old self.new }
        ensures halted { IsErrOf result LogFault.Halted →
            Halts D.SectorDevice.state self.old.log self.new.log }
        ensures full { IsErrOf result LogFault.Full → ⊥ }
        ensures other { IsErrOf result LogFault.Device → ⊥ }
        ensures told { length (D.state self.new.log.device).told
            ≤ length (D.state self.old.log.device).told
            + orders_for self.old.log.waiting }
    {
        if self.log.is_saved() {
            return Ok(());
        }
        self.log.write_early()
    }

    /// Makes room in memory for the draft where it has none, and only there: by early writes, and by
    /// a commit where these don't suffice.
    fn prepare_commit(&mut self) -> Result<(), LogFault>
        requires { self.old.log.halted ≡ false }
        ensures makes { Reserves D.SectorDevice.state self.old self.new result }
        ensures ready { OnOk result (Readies D.SectorDevice.state self.old.log self.new.log) }
        ensures room { OnOk result (self.new.log.saved ≡ false
            → self.new.log.waiting + asked_by self.new.draft ≤ MOST_UNSAVED) }
        ensures quiet { HasRoomFor self.old.log self.old.draft
            → self.new.log ≡ self.old.log }
        ensures lacks { IsErrOf result LogFault.Full → IsFull self.new.log }
        ensures other { IsErrOf result LogFault.Device → ⊥ }
        ensures once { OnOk result ((self.new.log ≡ self.old.log) ⊎ (HasClean self.new.log
            ⊎ ((self.new.log.saved ≡ true) × AreAllSaved self.new.log))) }
        ensures clean { OnOk result (self.old.log.clean ≤ self.new.log.clean + 8) }
        ensures still { self.old.log.saved ≡ true
            → IsOk result × (self.new.log ≡ self.old.log) }
        ensures told { length (D.state self.new.log.device).told
            ≤ length (D.state self.old.log.device).told + commit_orders }
    {
        self.log.are_tables_whole();
        if self.log.has_room(&self.draft.changes) {
            return Ok(());
        }
        self.write_early()?;
        if self.log.has_room(&self.draft.changes) {
            return Ok(());
        }
        self.commit()
    }

    /// Tells whether enough segments are clean for a commit.
    fn check_segments(&self) -> Result<(), LogFault>
        ensures enough { OnOk result (HasClean self.now.log) }
        ensures full { IsErrOf result LogFault.Full → IsFull self.now.log }
        ensures lacks { IsErrOf result LogFault.Full
            → LacksReserve self.now.log.segments self.now.log.clean }
        ensures device { IsErrOf result LogFault.Device → ⊥ }
        ensures halted { IsErrOf result LogFault.Halted → ⊥ }
    {
        if !self.log.may_commit() {
            return Err(LogFault::Full);
        }
        Ok(())
    }

    /// Cleans segments, and tells whether enough are clean for a commit then.
    fn make_clean(&mut self) -> Result<(), LogFault>
        requires { self.old.log.halted ≡ false }
        ensures makes { Reserves D.SectorDevice.state self.old self.new result }
        ensures enough { OnOk result (HasClean self.new.log) }
        ensures lacks { IsErrOf result LogFault.Full → IsFull self.new.log }
        ensures told { length (D.state self.new.log.device).told
            ≤ length (D.state self.old.log.device).told
            + clean_orders self.old.log.segments }
        ensures passes { self.old.log.saved ≡ true
            → length (D.state self.new.log.device).told
            ≤ length (D.state self.old.log.device).told
            + passes_orders self.old.log.segments }
    {
        match self.clean() {
            Ok(()) => self.check_segments(),
            Err(LogFault::Full) => self.check_segments(),
            Err(LogFault::Device) => Err(LogFault::Device),
            Err(LogFault::Halted) => Err(LogFault::Halted),
        }
    }

    /// Cleans before a change, where few segments are clean, though enough for a commit: one pass at
    /// most.
    fn clean_before_change(&mut self) -> Result<(), LogFault>
        requires { self.old.log.halted ≡ false }
        ensures makes { Reserves D.SectorDevice.state self.old self.new result }
        ensures once { OnOk result (CleansBefore D.SectorDevice.state self.old.log self.new.log) }
        ensures ready { OnOk result (FindsReady D.SectorDevice.state self.old.log self.new.log) }
        ensures quiet { HasThreeSixteenths self.old.log → IsOk result
            × (self.new.log ≡ self.old.log) }
        ensures lacks { IsErrOf result LogFault.Full → ⊥ }
        ensures told { length (D.state self.new.log.device).told
            ≤ length (D.state self.old.log.device).told
            + once_orders self.old.log.segments }
        ensures room { length (D.state self.new.log.device).told
            ≤ length (D.state self.old.log.device).told
            + clean_orders self.old.log.segments }
    {
        clean_before_change(&mut self.log)
    }

    /// Makes room for the draft: memory has room for it, else early writes or a commit make it; and
    /// enough segments are clean for the commit that saves it, else the cleaner makes them so.
    fn prepare(&mut self) -> Result<(), LogFault>
        requires { self.old.log.halted ≡ false }
        ensures makes { Reserves D.SectorDevice.state self.old self.new result }
        ensures enough { OnOk result (HasClean self.new.log) }
        ensures room { OnOk result (self.new.log.saved ≡ false
            → self.new.log.waiting + asked_by self.new.draft ≤ MOST_UNSAVED) }
        ensures quiet { HasRoomFor self.old.log self.old.draft → HasClean self.old.log
            → self.new.log ≡ self.old.log }
        ensures still { self.old.log.saved ≡ true → HasClean self.old.log
            → IsOk result × (self.new.log ≡ self.old.log) }
        ensures lacks { IsErrOf result LogFault.Full → IsFull self.new.log }
        ensures told { length (D.state self.new.log.device).told
            ≤ length (D.state self.old.log.device).told
            + clean_orders self.old.log.segments }
        ensures passes { self.old.log.saved ≡ true
            → length (D.state self.new.log.device).told
            ≤ length (D.state self.old.log.device).told
            + passes_orders self.old.log.segments }
        ensures one_commit { HasCleanForTwo self.old.log
            → length (D.state self.new.log.device).told
            ≤ length (D.state self.old.log.device).told + commit_orders }
    {
        self.prepare_commit()?;
        if self.log.may_commit() {
            return Ok(());
        }
        self.make_clean()
    }

    /// Readies the log for a change, the only place that knows when one may begin: behind a pass of
    /// the cleaner where few segments are clean, and with room for the draft.
    fn reserve(&mut self) -> Result<(), LogFault>
        requires { self.old.log.halted ≡ false }
        ensures makes { Reserves D.SectorDevice.state self.old self.new result }
        ensures enough { OnOk result (HasClean self.new.log) }
        ensures room { OnOk result (self.new.log.saved ≡ false
            → self.new.log.waiting + asked_by self.new.draft ≤ MOST_UNSAVED) }
        ensures quiet { HasRoomFor self.old.log self.old.draft → HasClean self.old.log
            → HasThreeSixteenths self.old.log → self.new.log ≡ self.old.log }
        ensures lacks { IsErrOf result LogFault.Full → IsFull self.new.log }
        ensures told { length (D.state self.new.log.device).told
            ≤ length (D.state self.old.log.device).told
            + clean_orders self.old.log.segments }
        ensures one_pass { HasCleanForTwo self.old.log
            → length (D.state self.new.log.device).told
            ≤ length (D.state self.old.log.device).told
            + once_orders self.old.log.segments }
        ensures one_commit { HasCleanForTwo self.old.log → HasThreeSixteenths self.old.log
            → length (D.state self.new.log.device).told
            ≤ length (D.state self.old.log.device).told + commit_orders }
    {
        self.clean_before_change()?;
        self.prepare()
    }

    /// Stages the draft, and leaves it as it is.
    fn stage(&mut self) -> Result<(), StoreFault>
        ensures accepts { Accepted D.SectorDevice.state self.old self.new.log result }
        ensures drafted { self.new.drafted ≡ self.old.drafted }
    {
        if self.log.is_halted() {
            return Err(StoreFault::Log(LogFault::Halted));
        }
        match self.reserve() {
            Ok(()) => {}
            Err(fault) => return Err(StoreFault::Log(fault)),
        }
        let staged = self.log.stage(&self.draft.changes, self.drafted);
        match staged {
            Ok(()) => Ok(()),
            // Enough segments are clean: it is memory that has no room.
            Err(LogFault::Full) => Err(StoreFault::NoMemory),
            Err(LogFault::Device) => Err(StoreFault::Log(LogFault::Device)),
            Err(LogFault::Halted) => Err(StoreFault::Log(LogFault::Halted)),
        }
    }

    /// Stages the draft whole, or not at all. Where memory has no room for it, full chunks of what
    /// isn't saved are written before it, and a commit comes where that doesn't suffice. One pass of
    /// the cleaner comes before it where fewer than three sixteenths of the segments are clean, and
    /// passes until a quarter is, where too few are. The draft is empty afterwards.
    ///
    /// # Errors
    ///
    /// With the files as they were: `Full` where too few segments are clean even so, `NoMemory`
    /// where memory has no room though all is saved (then the next call commits first), `Device`
    /// where a call of the device failed. `Halted` once a write of the log failed, in this call or
    /// before.
    pub fn accept(&mut self) -> Result<(), StoreFault>
        ensures accepts { Accepted D.SectorDevice.state self.old self.new.log result }
        ensures draft { IsEmpty self.new.draft }
        ensures drafted { self.new.drafted ≡ self.new.log.totals }
    {
        let outcome = self.stage();
        self.give_up();
        outcome
    }
}
