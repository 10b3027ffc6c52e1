//! Room in the log: what is unsaved is committed, and passes of the cleaner follow until a quarter
//! of the segments is clean.
ghost use Rattle.std.specs.Prelude.{◌≡◌, ◌≢◌, ◌<◌, ◌≤◌, ◌+◌, ◌*◌, ◌/◌, true, false, length, OnOk, OnErr, IsErrOf, IsTrue, IsFalse};
ghost use Rattle.lfs_log.specs.memory.segments.Table.{clean_in};
ghost use Rattle.lfs_log.specs.LogState.{AreAllSaved, Halts, IsFull};
ghost use Rattle.lfs_cleaner.specs.Making.{CleansQuarter, FailsPasses, FailsClean, HaltsLater, HasQuarter, HasThreeSixteenths, IsReadied, LacksPasses, LacksClean, Repeats, most_checkpoints, passes_orders, clean_orders};
ghost use Rattle.lfs_log.specs.Saving.{commit_orders};

use crate::passing::pass;
use lfs_device::SectorDevice;
use lfs_log::thresholds::{are_three_sixteenths_clean, is_quarter_clean, most_passes};
use lfs_log::{Log, LogFault};

/// Whether a quarter of the segments is clean.
pub fn has_quarter<D: SectorDevice>(log: &Log<D>) -> bool
    ensures yes { IsTrue result → HasQuarter log.now }
    ensures no { IsFalse result → 4 * log.now.clean
        < log.now.segments }
{
    is_quarter_clean(log.segments(), log.clean_segments())
}

/// Whether three sixteenths of the segments are clean.
pub(crate) fn has_three_sixteenths<D: SectorDevice>(log: &Log<D>) -> bool
    ensures yes { IsTrue result → HasThreeSixteenths log.now }
    ensures no { IsFalse result → 16 * log.now.clean
        < 3 * log.now.segments }
{
    are_three_sixteenths_clean(log.segments(), log.clean_segments())
}

/// Passes until a quarter of the segments is clean, an eighth of them times at most, for each pass
/// gains a segment.
///
/// # Errors
///
/// As those of `pass`, and `Full` where they don't suffice. With each the log map is the same, and
/// what earlier passes did stays.
fn pass_until_quarter<D: SectorDevice>(log: &mut Log<D>) -> Result<(), LogFault>
    requires running { log.old.halted ≡ false }
    requires nothing { AreAllSaved log.old }
    ensures done { OnOk result (Repeats D.SectorDevice.state log.old log.new
        (log.old.segments / 8)) }
    ensures enough { OnOk result (HasQuarter log.new) }
    ensures totals { log.new.totals ≡ log.old.totals }
    ensures full { IsErrOf result LogFault.Full
        → LacksPasses D.SectorDevice.state log.old log.new
        (log.old.segments / 8) }
    ensures device { IsErrOf result LogFault.Device
        → FailsPasses D.SectorDevice.state log.old log.new
        (log.old.segments / 8) }
    ensures halted { IsErrOf result LogFault.Halted
        → HaltsLater D.SectorDevice.state log.old log.new
        (log.old.segments / 8) }
    ensures told { length (D.state log.new.device).told ≤ length (D.state log.old.device).told
        + passes_orders log.old.segments }
{
    let most = most_passes(log.segments());
    for _ in 0..most {
        if has_quarter(log) {
            return Ok(());
        }
        match pass(log) {
            Ok(()) => {}
            Err(fault) => return Err(fault),
        }
    }
    if has_quarter(log) {
        return Ok(());
    }
    Err(LogFault::Full)
}

/// Commits what is unsaved, where anything is: then all is saved.
///
/// # Errors
///
/// As those of `Log::commit`.
pub(crate) fn commit_unsaved<D: SectorDevice>(log: &mut Log<D>) -> Result<(), LogFault>
    requires { log.old.halted ≡ false }
    ensures done { OnOk result (IsReadied D.SectorDevice.state log.old log.new) }
    ensures totals { log.new.totals ≡ log.old.totals }
    ensures full { IsErrOf result LogFault.Full → (log.new ≡ log.old) × IsFull log.old
        × (log.old.saved ≡ false) }
    ensures halted { IsErrOf result LogFault.Halted → Halts D.SectorDevice.state log.old log.new }
    ensures other { IsErrOf result LogFault.Device → ⊥ }
    ensures told { length (D.state log.new.device).told
        ≤ length (D.state log.old.device).told + commit_orders }
    ensures quiet { log.old.saved ≡ true → log.new ≡ log.old }
{
    if log.is_saved() {
        return Ok(());
    }
    match log.commit() {
        Ok(()) => Ok(()),
        Err(fault) => Err(fault),
    }
}

/// Makes a quarter of the segments clean, where fewer are: a commit saves what is unsaved, and
/// passes of the cleaner follow, each of which gains a segment, an eighth of all segments times at
/// most. It takes no memory.
///
/// # Errors
///
/// With the log map as it was: `Full` where a commit finds too few clean segments, or no pass gains
/// one, `Device` where a call of the device failed that reads. `Halted` where one failed that writes,
/// or as the log was written before.
pub fn make_clean<D: SectorDevice>(log: &mut Log<D>) -> Result<(), LogFault>
    ensures done { OnOk result (CleansQuarter D.SectorDevice.state log.old log.new) }
    ensures totals { log.new.totals ≡ log.old.totals }
    ensures full { IsErrOf result LogFault.Full
        → LacksClean D.SectorDevice.state log.old log.new }
    ensures device { IsErrOf result LogFault.Device
        → FailsClean D.SectorDevice.state log.old log.new }
    ensures told { length (D.state log.new.device).told ≤ length (D.state log.old.device).told
        + clean_orders log.old.segments }
    ensures halted { IsErrOf result LogFault.Halted → log.old.halted ≢ true
        → HaltsLater D.SectorDevice.state log.old log.new (most_checkpoints log.old) }
    ensures still { log.old.halted ≡ true → (log.new ≡ log.old)
        × IsErrOf result LogFault.Halted }
    ensures passes { log.old.saved ≡ true
        → length (D.state log.new.device).told ≤ length (D.state log.old.device).told
        + passes_orders log.old.segments }
    ensures quiet { HasQuarter log.old → log.new ≡ log.old }
    ensures unsaved { (IsErrOf result LogFault.Halted → ⊥) → log.new.saved ≡ false
        → log.new ≡ log.old }
{
    if log.is_halted() {
        return Err(LogFault::Halted);
    }
    if has_quarter(log) {
        return Ok(());
    }
    match commit_unsaved(log) {
        Ok(()) => {}
        Err(fault) => return Err(fault),
    }
    pass_until_quarter(log)
}
