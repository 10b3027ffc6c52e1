//! Random changes of files, commits and stops, beside a plain map in memory.
ghost use Rattle.std.specs.Prelude.{◌<◌, ◌≤◌};

use crate::devices::live;
use crate::drafts::{Batch, Dice};
use crate::log_steps::{CAPACITIES, mounted};
use crate::plain::{NO_FILE, PlainMap, number_of};
use crate::volume::{Flaw, Wrong, new_volume};
use crate::wired::{Faults, NO_FAULT, WiredDevice};
use lfs_device::{InSectors, Left, MemDevice};
use lfs_store::volume_log::{Changes, Log, LogFault};
use std::alloc::Global;
use std::cell::Cell;

/// A call that fails where a read fails, and changes nothing then.
#[derive(Clone, Copy)]
enum Call<'a> {
    Stage(&'a Changes),
    Remove(u16),
}

/// What comes after a step.
#[derive(Clone, Copy)]
enum Next {
    /// The next step.
    Step,
    /// The device stops, within a commit or between two calls.
    Stop { within_commit: bool },
    /// Nothing more: too few segments are clean.
    End,
}

/// What the log should hold, and what chooses the steps.
#[derive(Drop)]
struct Trial<'a> {
    dice: Dice,
    wire: &'a Cell<Option<Faults>>,
    /// How many sectors the log's cache keeps.
    capacity: u32,
    /// The number of the acknowledged checkpoint.
    number: u64,
    /// What it leads to.
    saved: PlainMap,
    present: PlainMap,
}

/// A log on a device whose faults are chosen while it holds it.
type WiredLog<'a> = Log<InSectors<WiredDevice<'a>>>;

fn carry_out(log: &mut WiredLog<'_>, call: Call<'_>) -> Result<(), LogFault> {
    let totals = log.totals();
    match call {
        Call::Stage(changes) => log.stage(changes, totals),
        Call::Remove(number) => log.remove(number % 4_096, totals),
    }
}

impl Trial<'_> {
    /// The log is as it should be.
    fn check(&self, log: &mut WiredLog<'_>) -> Result<(), Flaw> {
        if log.is_halted() {
            return Err(Flaw::Halted);
        }
        if log.number() != self.number {
            return Err(Flaw::Number);
        }
        if log.least_free() != Some(self.present.least_free()) {
            return Err(Flaw::LeastFree);
        }
        if !self.present.is_held(log) {
            return Err(Flaw::Files);
        }
        Ok(())
    }

    /// Perhaps one of the next reads fails.
    fn roll_fault(&mut self) -> bool {
        let fails = self.dice.roll(3) == 0;
        let read = u64::from(self.dice.roll(4));
        if fails {
            self.wire.set(Some(Faults { read, ..NO_FAULT }));
        }
        fails
    }

    /// Perhaps the device stops within a write of the next commit, or a sync of it fails.
    fn roll_stop(&mut self) -> bool {
        let way = self.dice.roll(6);
        let mut faults = NO_FAULT;
        let write = u64::from(self.dice.roll(12));
        if way < 2 {
            faults.stop = write;
        }
        if way == 2 {
            faults.sync = u64::from(self.dice.roll(2));
        }
        self.wire.set(Some(faults));
        way < 3
    }

    /// A call is done. Where a read fails, it changes nothing; it is done once none does.
    fn call(&mut self, log: &mut WiredLog<'_>, call: Call<'_>) -> Result<(), Flaw> {
        let fails = self.roll_fault();
        let outcome = carry_out(log, call);
        self.wire.set(Some(NO_FAULT));
        match outcome {
            Ok(()) => return Ok(()),
            Err(LogFault::Device) if fails => self.check(log)?,
            Err(_) => return Err(Flaw::Call),
        }
        match carry_out(log, call) {
            Ok(()) => Ok(()),
            Err(_) => Err(Flaw::Call),
        }
    }

    /// A batch is staged, if memory has room for it.
    fn stage_changes(&mut self, log: &mut WiredLog<'_>, changes: &Changes) -> Result<(), Flaw> {
        if !log.has_room(changes) {
            return Err(Flaw::Room);
        }
        self.call(log, Call::Stage(changes))
    }

    /// A random batch is staged.
    fn stage(&mut self, alloc: Global, log: &mut WiredLog<'_>) -> Result<(), Flaw> {
        let Ok(batch) = Batch::rolled(alloc, &self.present, &mut self.dice) else {
            return Err(Flaw::Memory);
        };
        let outcome = self.stage_changes(log, &batch.changes);
        self.present = batch.after;
        outcome
    }

    /// A file without links goes.
    fn remove(&mut self, log: &mut WiredLog<'_>) -> Result<(), Flaw> {
        let file = self.dice.roll(6) as usize;
        if self.present.files[file].has_links() {
            return Ok(());
        }
        self.call(log, Call::Remove(number_of(file)))?;
        self.present.files[file] = NO_FILE;
        Ok(())
    }

    /// The present map is acknowledged.
    fn save(&mut self) {
        self.number = self.number.saturating_add(1);
        self.saved = self.present.shown();
    }

    /// A commit, which may stop within a write.
    fn commit(&mut self, log: &mut WiredLog<'_>) -> Result<Next, Flaw> {
        let stops = self.roll_stop();
        match log.commit() {
            Ok(()) => self.save(),
            Err(LogFault::Halted) if stops => {
                if !log.is_halted() || log.commit() != Err(LogFault::Halted) {
                    return Err(Flaw::GoesOn);
                }
                return Ok(Next::Stop {
                    within_commit: true,
                });
            }
            Err(_) => return Err(Flaw::Commit),
        }
        if log.unsaved() != 0 {
            return Err(Flaw::Unsaved);
        }
        Ok(Next::Step)
    }

    /// A batch, a removal, a commit or a stop. In too few clean segments no commit is done.
    fn step(&mut self, alloc: Global, log: &mut WiredLog<'_>) -> Result<Next, Flaw> {
        let mut next = Next::Step;
        if log.clean_segments() < log.segments() / 8 + 8 {
            if log.commit() != Err(LogFault::Full) {
                return Err(Flaw::Full);
            }
            next = Next::End;
        } else {
            match self.dice.roll(12) {
                0..6 => self.stage(alloc, log)?,
                6..8 => self.remove(log)?,
                8..11 => next = self.commit(log)?,
                _ => next = Next::Stop {
                    within_commit: false,
                },
            }
        }
        if let Next::Stop { .. } = next {
            return Ok(next);
        }
        self.check(log)?;
        Ok(next)
    }

    /// What a stop leaves of the sectors that weren't synced.
    fn rolled_lefts(&mut self) -> [Left; 32] {
        let mut lefts = [Left::Old; 32];
        for sector in 0..32usize {
            lefts[sector] = match self.dice.roll(3) {
                0 => Left::Old,
                1 => Left::New,
                _ => Left::Bad,
            };
        }
        lefts
    }

    /// How many blocks the acknowledged checkpoint leads to: besides the files, the root's inode, a
    /// block of the inode map and the usage table.
    fn live_blocks(&self, segments: u32) -> u32 {
        self.saved
            .blocks()
            .saturating_add(2)
            .saturating_add(segments.div_ceil(64))
    }

    /// The device stops. Between two calls the acknowledged map is left.
    fn stop(
        &mut self,
        device: &mut MemDevice,
        segments: u32,
        within_commit: bool,
    ) -> Result<(), Flaw> {
        device.crash_each(&self.rolled_lefts());
        let slot = (self.number % 2) as u32;
        if !within_commit && live(device, slot) != self.live_blocks(segments) {
            return Err(Flaw::LiveBlocks);
        }
        Ok(())
    }

    /// The log that a stop leaves. Within a commit it leaves the acknowledged map, or the present
    /// one without its files of no links.
    fn resume(&mut self, log: &mut WiredLog<'_>, within_commit: bool) -> Result<(), Flaw> {
        if log.unsaved() != 0 {
            return Err(Flaw::Unsaved);
        }
        if within_commit && log.number() != self.number {
            self.save();
        }
        self.present = self.saved;
        self.check(log)
    }
}

/// The log on the heap, where each end drops it by one call.
type LogState<'a> = Box<WiredLog<'a>>;

impl<'a> Trial<'a> {
    /// The log after a stop.
    fn restarted(
        &mut self,
        alloc: Global,
        log: LogState<'a>,
        within_commit: bool,
    ) -> Result<LogState<'a>, Flaw> {
        let segments = log.segments();
        let mut wired = Box::into_inner(log).into_device().into_inner();
        // What is kept is read without a call, so faults that were chosen may still wait for one.
        wired.take_faults();
        self.stop(&mut wired.device, segments, within_commit)?;
        let Ok(mut log) = mounted(alloc, self.capacity, wired) else {
            return Err(Flaw::NotOpened);
        };
        match self.resume(&mut log, within_commit) {
            Ok(()) => Ok(log),
            Err(flaw) => Err(flaw),
        }
    }

    /// The log after a step; none where it was the last.
    fn stepped(&mut self, alloc: Global, log: LogState<'a>) -> Result<Option<LogState<'a>>, Flaw> {
        let mut log = log;
        match self.step(alloc, &mut log) {
            Ok(Next::Step) => Ok(Some(log)),
            Ok(Next::Stop { within_commit }) => match self.restarted(alloc, log, within_commit) {
                Ok(log) => Ok(Some(log)),
                Err(flaw) => Err(flaw),
            },
            Ok(Next::End) => Ok(None),
            Err(flaw) => Err(flaw),
        }
    }

    /// So many steps, or fewer where clean segments run out.
    fn run(&mut self, alloc: Global, log: LogState<'a>, steps: u32) -> Result<(), Flaw> {
        let mut log = log;
        for _ in 0..steps {
            match self.stepped(alloc, log) {
                Ok(Some(next)) => log = next,
                Ok(None) => return Ok(()),
                Err(flaw) => return Err(flaw),
            }
        }
        Ok(())
    }
}

/// A run over an empty volume.
fn run(alloc: Global, capacity: u32, segments: u32, seed: u32, steps: u32) -> Result<(), Wrong> {
    let wire = Cell::new(None);
    let wired = WiredDevice {
        device: new_volume(alloc, segments)?,
        wire: &wire,
    };
    let log = mounted(alloc, capacity, wired)?;
    let none = PlainMap {
        files: [NO_FILE; 6],
    };
    let mut trial = Trial {
        dice: Dice::new(seed),
        wire: &wire,
        capacity,
        number: 1,
        saved: none,
        present: none,
    };
    match trial.run(alloc, log, steps) {
        Ok(()) => Ok(()),
        Err(flaw) => Err(Wrong::Random {
            flaw,
            seed,
            rolls: trial.dice.rolls,
        }),
    }
}

#[test]
fn random_changes_beside_a_plain_map(rt: HostRuntime) -> Result<(), Wrong> {
    for (segments, steps, seeds) in [(64, 200, 4), (72, 200, 3), (1_024, 40, 2)] {
        for seed in 0..seeds {
            for capacity in CAPACITIES {
                run(rt.alloc(), capacity, segments, seed, steps)?;
            }
        }
    }
    Ok(())
}
