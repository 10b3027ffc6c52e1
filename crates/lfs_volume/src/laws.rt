//! The laws of where volumes stand, each the contract of a function that does nothing.
ghost use Rattle.lfs_volume.specs.FindingLaws.{NewAreLast, OldAreOlder, PlacesStay};

/// The places of a volume tell whether its version is the last.
pub fn places_tell()
    ensures old { OldAreOlder }
    ensures new { NewAreLast }
{}

/// A volume stays where it stands.
pub fn places_stay()
    ensures { PlacesStay }
{}
