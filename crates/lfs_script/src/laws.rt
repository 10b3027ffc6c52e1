//! Laws of whole uses of a volume, each the contract of a function that does nothing.
ghost use Rattle.std.specs.Prelude.{ℕ};
ghost use Rattle.lfs_script.specs.OwnUnits.{SessionsOfOwnUnits};
ghost use Rattle.lfs_model.specs.UseLaws.{BeginsNew, NewIsPending, UsesArePlain};

use lfs_device::SectorDevice;

/// The first use of a new volume of a version, as `format` makes one of version 1, whatever its
/// units are, begins with an empty root, on as many segments, by checkpoint 1. This state is the
/// one that is pending before it, which is the premise on which a use goes on.
pub fn new_volumes_begin_empty<D: SectorDevice>(device: &D, used: &D)
    ensures begins { (version N p : ℕ)
        → BeginsNew version N p (D.state device.now) (D.state used.now) }
    ensures pending { (version N p : ℕ)
        → NewIsPending version N p (D.state device.now) }
{}

/// Where no call of the device failed in a use, each answer is the model's, but for want of
/// memory.
pub fn uses_are_plain<D: SectorDevice>(device: &D, used: &D)
    ensures { UsesArePlain (D.state device.now) (D.state used.now) }
{}

/// Where the units of a memory device lie within larger ones, as those of its volume, what is said
/// of a use of it as one of these is said of the device itself. By sectors it is so, too.
pub fn sessions_of_own_units()
    ensures { SessionsOfOwnUnits }
{}
