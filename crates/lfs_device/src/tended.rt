// A device that something is done to between the calls of a volume.
ghost use Rattle.std.specs.Prelude.{◌≡◌};
ghost use Rattle.lfs_model.specs.Device.{IsUntouched, Carries, Elapses};

use crate::SectorDevice;

/// A device that is tended to between the calls of a volume, which sees nothing of it.
pub trait TendedDevice: SectorDevice {
    ghost tends: { Self → Self → Type 0 };

    /// What it holds, and what a stop leaves of it, stay.
    fn tend(&mut self)
        ensures tended { tends self.old self.new }
        ensures untouched { IsUntouched (Self.state self.old) (Self.state self.new) }
        ensures carries { Carries (Self.state self.old) (Self.state self.new) }
        ensures time { Elapses (Self.state self.old) (Self.state self.new) }
        ensures told { (Self.state self.new).told ≡ (Self.state self.old).told }
        ensures no_failure { (Self.state self.new).failures ≡ (Self.state self.old).failures };
}
