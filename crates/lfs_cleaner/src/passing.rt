//! One pass of the cleaner.
ghost use Rattle.std.specs.Prelude.{◌≡◌, ◌≢◌, ◌≤◌, ◌+◌, true, length, OnOk, IsErrOf};
ghost use Rattle.lfs_log.specs.LogState.{Halts};
ghost use Rattle.lfs_log.specs.Saving.{pass_orders};
ghost use Rattle.lfs_cleaner.specs.Passing.{FailsPass, Passes, PassesFor, RefusesPass};

use lfs_device::SectorDevice;
use lfs_log::memory::segments::victims::{victims, wanted};
use lfs_log::thresholds::most_victims;
use lfs_log::{Log, LogFault};

/// Empties the segments that are chosen by benefit and cost, or by their blocks (`victims`): an
/// eighth of all and one at most, by which as many are gained as are wanted where they can be, and
/// one at least. All that lives in them goes to other segments, and is saved.
///
/// # Errors
///
/// `Full` where no list of an eighth of the segments and one at most gains one, or where
/// `Log::vacate` refuses it. Where the log holds a log map for which a pass may be made (`CanPass`),
/// it never answers so. `Device` where a call of the device failed that reads. With both the log
/// holds what it held. `Halted` where one failed that writes, or as the log was written before.
pub fn pass_for<D: SectorDevice>(log: &mut Log<D>, wanted: u32) -> Result<(), LogFault>
    requires { 1 ≤ wanted }
    ensures done { OnOk result (PassesFor D.SectorDevice.state wanted log.old log.new) }
    ensures totals { log.new.totals ≡ log.old.totals }
    ensures full { IsErrOf result LogFault.Full
        → RefusesPass D.SectorDevice.state log.old log.new }
    ensures device { IsErrOf result LogFault.Device
        → FailsPass D.SectorDevice.state log.old log.new }
    ensures halted { IsErrOf result LogFault.Halted → log.old.halted ≢ true
        → Halts D.SectorDevice.state log.old log.new }
    ensures still { log.old.halted ≡ true → (log.new ≡ log.old)
        × IsErrOf result LogFault.Halted }
    ensures told { length (D.state log.new.device).told ≤ length (D.state log.old.device).told
        + pass_orders log.old.segments }
{
    if log.is_halted() {
        return Err(LogFault::Halted);
    }
    log.are_tables_whole();
    let most = most_victims(log.segments());
    let Some(chosen) = victims(log.usage(), log.meta(), most, wanted, log.number()) else {
        return Err(LogFault::Full);
    };
    match log.vacate(chosen.as_slice()) {
        Ok(()) => Ok(()),
        Err(fault) => Err(fault),
    }
}

/// A pass that wants as many segments as are missing to a quarter, and four at least.
///
/// # Errors
///
/// As those of `pass_for`.
pub fn pass<D: SectorDevice>(log: &mut Log<D>) -> Result<(), LogFault>
    ensures done { OnOk result (Passes D.SectorDevice.state log.old log.new) }
    ensures totals { log.new.totals ≡ log.old.totals }
    ensures full { IsErrOf result LogFault.Full
        → RefusesPass D.SectorDevice.state log.old log.new }
    ensures device { IsErrOf result LogFault.Device
        → FailsPass D.SectorDevice.state log.old log.new }
    ensures halted { IsErrOf result LogFault.Halted → log.old.halted ≢ true
        → Halts D.SectorDevice.state log.old log.new }
    ensures still { log.old.halted ≡ true → (log.new ≡ log.old)
        × IsErrOf result LogFault.Halted }
    ensures told { length (D.state log.new.device).told ≤ length (D.state log.old.device).told
        + pass_orders log.old.segments }
{
    let wanted = wanted(log.usage());
    pass_for(log, wanted)
}
