//! What a change of the files cleans before it: one pass, where few segments are clean, though enough
//! for a commit.
ghost use Rattle.std.specs.Prelude.{◌≡◌, ◌≤◌, ◌+◌, true, false, length, OnOk, IsErrOf};
ghost use Rattle.lfs_log.specs.LogState.{AreAllSaved, Halts};
ghost use Rattle.lfs_log.specs.Saving.{pass_orders};
ghost use Rattle.lfs_log.specs.Thresholds.{HasReserve, LacksReserve};
ghost use Rattle.lfs_cleaner.specs.Passing.{TriesPass};
ghost use Rattle.lfs_cleaner.specs.Making.{CleansBefore, HaltsLater, HasThreeSixteenths, LeavesReady, MakesClean, clean_orders, most_checkpoints, once_orders};

use crate::making::{commit_unsaved, has_three_sixteenths};
use crate::passing::pass_for;
use lfs_device::SectorDevice;
use lfs_log::{Log, LogFault};

/// One pass that wants a segment. It is no error where it can't be made: nothing changed then.
///
/// # Errors
///
/// `Halted` where a call of the device failed as the log was written.
fn try_pass<D: SectorDevice>(log: &mut Log<D>) -> Result<(), LogFault>
    requires running { log.old.halted ≡ false }
    ensures done { OnOk result (TriesPass D.SectorDevice.state log.old log.new) }
    ensures totals { log.new.totals ≡ log.old.totals }
    ensures halted { IsErrOf result LogFault.Halted → Halts D.SectorDevice.state log.old log.new }
    ensures full { IsErrOf result LogFault.Full → ⊥ }
    ensures device { IsErrOf result LogFault.Device → ⊥ }
    ensures told { length (D.state log.new.device).told ≤ length (D.state log.old.device).told
        + pass_orders log.old.segments }
{
    match pass_for(log, 1) {
        Ok(()) => Ok(()),
        Err(LogFault::Full) => Ok(()),
        Err(LogFault::Device) => Ok(()),
        Err(LogFault::Halted) => Err(LogFault::Halted),
    }
}

/// What comes before a change: where fewer than three sixteenths of the segments are clean, though
/// enough for a commit, what is unsaved is committed, and one pass follows that wants a segment. The
/// pass is left out where the commit leaves too few for a further one. Where it can't be made the
/// change goes on. It takes no memory.
///
/// # Errors
///
/// `Halted` where a call of the device failed as the log was written, and no other.
pub fn clean_before_change<D: SectorDevice>(log: &mut Log<D>) -> Result<(), LogFault>
    requires { log.old.halted ≡ false }
    ensures done { OnOk result (CleansBefore D.SectorDevice.state log.old log.new) }
    ensures makes { OnOk result (MakesClean D.SectorDevice.state log.old log.new) }
    ensures ready { OnOk result (LeavesReady D.SectorDevice.state log.old log.new) }
    ensures totals { log.new.totals ≡ log.old.totals }
    ensures full { IsErrOf result LogFault.Full → ⊥ }
    ensures device { IsErrOf result LogFault.Device → ⊥ }
    ensures halted { IsErrOf result LogFault.Halted
        → HaltsLater D.SectorDevice.state log.old log.new (most_checkpoints log.old) }
    ensures told { length (D.state log.new.device).told ≤ length (D.state log.old.device).told
        + once_orders log.old.segments }
    ensures room { length (D.state log.new.device).told ≤ length (D.state log.old.device).told
        + clean_orders log.old.segments }
    ensures saved { log.old.saved ≡ true
        → length (D.state log.new.device).told ≤ length (D.state log.old.device).told
        + pass_orders log.old.segments }
    ensures quiet { HasThreeSixteenths log.old → log.new ≡ log.old }
    ensures few { LacksReserve log.old.segments log.old.clean → log.new ≡ log.old }
{
    if !log.may_commit() {
        return Ok(());
    }
    if has_three_sixteenths(log) {
        return Ok(());
    }
    log.are_tables_whole();
    match commit_unsaved(log) {
        Ok(()) => {}
        Err(LogFault::Full) => return Ok(()),
        Err(LogFault::Device) => return Err(LogFault::Device),
        Err(LogFault::Halted) => return Err(LogFault::Halted),
    }
    if !log.may_commit() {
        return Ok(());
    }
    try_pass(log)
}
