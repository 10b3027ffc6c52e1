//! What a recorder's calls come to, as laws: each is the contract of a function that does nothing.
ghost use Rattle.lfs_record.specs.Keeping.{LinesAreKept};
ghost use Rattle.lfs_record.specs.Kept.{HoldsAllElse};
ghost use Rattle.lfs_record.specs.Names.{NamesAreNumbered, NamesAreOrdered};
ghost use Rattle.lfs_record.specs.Recording.{CallsAreJoined};
ghost use Rattle.lfs_record.specs.Saving.{BeginsAreSaved, LinesAreSaved, SessionsAreSaved};

use lfs_device::SectorDevice;
use lfs_fs::laws::calls_are_kept;

/// The name of a number and a day has both.
pub fn names_are_numbered()
    ensures { NamesAreNumbered }
{}

/// Names are ordered by their bytes as their numbers are.
pub fn names_are_ordered()
    ensures { NamesAreOrdered }
{}

/// What files hold behind texts: whole files went, and those that are left hold all else in order.
pub fn holds_all_else()
    ensures { HoldsAllElse }
{}

/// Behind each of a recorder's calls its files hold all lines so far, but for whole files that went.
/// And so does what a stop leaves, with every line that was saved when a clock was read, where the
/// stop comes at a moment since.
pub fn lines_are_kept<D: SectorDevice>()
    ensures { LinesAreKept D.SectorDevice.state }
{}

/// So it is of a recorder's calls of a mounted volume over a device that keeps the device model, and
/// may be tended to between them: a stop leaves all lines that were saved by its moment.
pub fn lines_are_saved<D: SectorDevice>()
    ensures { LinesAreSaved D.SectorDevice.state }
{
    calls_are_kept::<D>();
}

/// A recorder that begins on a volume that is saved, over a device that keeps the device model: the
/// volume is saved still, with the same files, and the recorder goes by its state.
pub fn begins_are_saved<D: SectorDevice>()
    ensures { BeginsAreSaved D.SectorDevice.state }
{
    calls_are_kept::<D>();
}

/// And a stop at any moment since a call of such a recorder was answered leaves all lines that were
/// saved by then, behind what the files held before it began, but for whole files that went.
pub fn sessions_are_saved<D: SectorDevice>()
    ensures { SessionsAreSaved D.SectorDevice.state }
{
    calls_are_kept::<D>();
}

/// Lines and saves, one after the other, are one row of a recorder's calls.
pub fn calls_are_joined<D: SectorDevice>()
    ensures { CallsAreJoined D.SectorDevice.state }
{}
