//! One pass of the cleaner where it is due: where fewer than a quarter of the segments is clean.
ghost use Rattle.std.specs.Prelude.{◌≡◌, ◌≢◌, ◌<◌, ◌≤◌, ◌+◌, ◌*◌, true, false, length, OnOk, IsErrOf};
ghost use Rattle.lfs_log.specs.LogState.{AreAllSaved, Halts};
ghost use Rattle.lfs_log.specs.Saving.{pass_orders};
ghost use Rattle.lfs_cleaner.specs.Passing.{FailsPass, RefusesPass};
ghost use Rattle.lfs_cleaner.specs.Making.{FailsClean, HaltsLater, HasQuarter, LacksClean, MakesOnce, PassesWhereDue, most_checkpoints, once_orders};

use crate::making::{commit_unsaved, has_quarter};
use crate::passing::pass;
use lfs_device::SectorDevice;
use lfs_log::{Log, LogFault};

/// One pass where fewer than a quarter of the segments is clean, and none else.
///
/// # Errors
///
/// As those of `pass`.
fn pass_where_due<D: SectorDevice>(log: &mut Log<D>) -> Result<(), LogFault>
    requires running { log.old.halted ≡ false }
    requires nothing { AreAllSaved log.old }
    ensures done { OnOk result (PassesWhereDue D.SectorDevice.state log.old log.new) }
    ensures totals { log.new.totals ≡ log.old.totals }
    ensures full { IsErrOf result LogFault.Full → (4 * log.old.clean < log.old.segments)
        × RefusesPass D.SectorDevice.state log.old log.new }
    ensures device { IsErrOf result LogFault.Device
        → FailsPass D.SectorDevice.state log.old log.new }
    ensures halted { IsErrOf result LogFault.Halted
        → Halts D.SectorDevice.state log.old log.new }
    ensures told { length (D.state log.new.device).told ≤ length (D.state log.old.device).told
        + pass_orders log.old.segments }
{
    if has_quarter(log) {
        return Ok(());
    }
    match pass(log) {
        Ok(()) => Ok(()),
        Err(fault) => Err(fault),
    }
}

/// One pass where fewer than a quarter of the segments is clean, and none else. What is unsaved is
/// committed before it. It takes no memory.
///
/// # Errors
///
/// With the log map as it was: `Full` where a commit finds too few clean segments, or no pass gains
/// one, `Device` where a call of the device failed that reads. `Halted` where one failed that writes,
/// or as the log was written before.
pub fn clean_once<D: SectorDevice>(log: &mut Log<D>) -> Result<(), LogFault>
    ensures done { OnOk result (MakesOnce D.SectorDevice.state log.old log.new) }
    ensures alone { log.old.saved ≡ true
        → OnOk result (PassesWhereDue D.SectorDevice.state log.old log.new) }
    ensures totals { log.new.totals ≡ log.old.totals }
    ensures full { IsErrOf result LogFault.Full
        → LacksClean D.SectorDevice.state log.old log.new }
    ensures device { IsErrOf result LogFault.Device
        → FailsClean D.SectorDevice.state log.old log.new }
    ensures told { length (D.state log.new.device).told ≤ length (D.state log.old.device).told
        + once_orders log.old.segments }
    ensures halted { IsErrOf result LogFault.Halted → log.old.halted ≢ true
        → HaltsLater D.SectorDevice.state log.old log.new (most_checkpoints log.old) }
    ensures still { log.old.halted ≡ true → (log.new ≡ log.old)
        × IsErrOf result LogFault.Halted }
    ensures saved { log.old.saved ≡ true
        → length (D.state log.new.device).told ≤ length (D.state log.old.device).told
        + pass_orders log.old.segments }
    ensures quiet { HasQuarter log.old → log.new ≡ log.old }
    ensures unsaved { (IsErrOf result LogFault.Halted → ⊥) → log.new.saved ≡ false
        → log.new ≡ log.old }
{
    if log.is_halted() {
        return Err(LogFault::Halted);
    }
    if has_quarter(log) {
        return Ok(());
    }
    log.are_tables_whole();
    match commit_unsaved(log) {
        Ok(()) => {}
        Err(fault) => return Err(fault),
    }
    pass_where_due(log)
}
