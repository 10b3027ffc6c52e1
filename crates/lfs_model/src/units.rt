//! The laws of units, each the contract of a function that does nothing.

ghost use Rattle.lfs_model.specs.UnitLaws.{AlignedFree, FreeUnitWrites, UnitOfOne, UnitsByShape, UnitsOfSectors, UnitsWithin};

/// A sector that is a unit by itself is written as where all units are sectors.
pub fn unit_of_one()
    ensures { UnitOfOne }
{}

/// A volume of version 1 or 2 has sectors as its units.
pub fn units_of_sectors()
    ensures { UnitsOfSectors }
{}

/// Volumes of one shape have the same units.
pub fn units_by_shape()
    ensures { UnitsByShape }
{}

/// Units within larger ones do no more harm than those may.
pub fn units_lie_within()
    ensures { UnitsWithin }
{}

/// A write into a unit that is free as a whole keeps what the acknowledged checkpoint needs.
pub fn free_units_keep()
    ensures { FreeUnitWrites }
{}

/// What lies behind a used part that ends on a unit is a free unit.
pub fn units_behind_are_free()
    ensures { AlignedFree }
{}
