// The units of a memory device, and what a stop makes of them.
ghost use Rattle.std.specs.Prelude.{◌≡◌, ◌<◌, ◌≤◌, ◌^◌, ℕ, length, false};
ghost use Rattle.std.specs.List.{All};
ghost use Rattle.lfs_device.specs.Rows.{AreSpoilt, IsUnitLost};
ghost use Rattle.lfs_device.specs.Units.{unit_of};
ghost use Rattle.lfs_device.specs.Unsynced.{IsSyncedAt, is_listed};

use crate::rows::{Row, stands};
use std::num::NonZeroU32;

/// Units of so many sectors from the sector `first` on. Each sector below it is a unit by itself.
#[derive(Clone, Copy)]
pub(crate) struct Units {
    pub(crate) sectors: NonZeroU32,
    pub(crate) first: u32,
}

impl Units {
    /// Where the unit of a sector begins, and where it ends, on a device that has so many sectors.
    fn bounds(self, sector: u32, sectors: u32) -> (u32, u32)
        requires { sector < sectors }
        ensures within { result.1 ≤ sectors }
        ensures all { (k : ℕ) → k < sectors → unit_of self k ≡ unit_of self sector
            → (result.0 ≤ k) × (k < result.1) }
        ensures only { (k : ℕ) → result.0 ≤ k → k < result.1
            → unit_of self k ≡ unit_of self sector }
    {
        if sector < self.first {
            return (sector, sector + 1);
        }
        let begin = sector - (sector - self.first) % self.sectors;
        (begin, begin + self.sectors.get().min(sectors - begin))
    }
}

/// Makes each sector of the unit of this one unreadable, durably.
fn lose_unit(rows: &mut Vec<Row>, sector: u32, units: Units)
    requires within { sector < length rows.old.items }
    requires fits { length rows.old.items < 2 ^ 32 }
    ensures { IsUnitLost (unit_of units) sector rows.old.items rows.new.items }
{
    let (begin, end) = units.bounds(sector, rows.len() as u32);
    for place in begin..end {
        rows[place as usize] = stands(None);
    }
}

/// Makes each sector of each unit unreadable that has an unsynced sector. All of these are listed.
pub(crate) fn spoil(rows: &mut Vec<Row>, unsynced: &Vec<u32>, units: Units)
    requires within { All (λ s. s < length rows.old.items) unsynced.now.items }
    requires others { (k : ℕ) → is_listed k unsynced.now.items ≡ false
        → IsSyncedAt rows.old.items k }
    requires fits { length rows.old.items < 2 ^ 32 }
    ensures { AreSpoilt (unit_of units) rows.old.items rows.new.items }
{
    for sector in unsynced.iter() {
        if rows[*sector as usize].written.is_some() {
            lose_unit(rows, *sector, units);
        }
    }
}
