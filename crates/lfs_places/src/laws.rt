//! The laws of places, each the contract of a function that does nothing.
ghost use Rattle.lfs_places.specs.PlaceLaws.{CellsStand, DeviceUnits, OldChangeNothing, PlacedUnits, PlacesLeadBack, SizesStand};

/// A volume has the cells of its sectors, and so many as its device has room for.
pub fn cells_stand()
    ensures cells { CellsStand }
    ensures sizes { SizesStand }
{}

/// Each place is that of one sector.
pub fn places_lead_back()
    ensures { PlacesLeadBack }
{}

/// The old places change nothing.
pub fn old_places_change_nothing()
    ensures { OldChangeNothing }
{}

/// By the new places units of the device lie within those of the volume.
pub fn device_units()
    ensures device { DeviceUnits }
    ensures placed { PlacedUnits }
{}
