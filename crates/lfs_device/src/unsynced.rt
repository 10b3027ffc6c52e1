// Which sectors of a memory device were written since the last sync.
ghost use Rattle.std.specs.Prelude.{◌≡◌, ◌<◌, ◌≤◌, ◌==◌, not, [], length, map, slice_set, vec_capacity, IsSome};
ghost use Rattle.std.specs.List.{filter};
ghost use Rattle.lfs_device.specs.declared.rows.Row.{Row};
ghost use Rattle.lfs_device.specs.Rows.{settled};
ghost use Rattle.lfs_device.specs.Unsynced.{IsUnsyncedList};

use crate::rows::{Row, stands};

/// Lists a sector that is about to be written, unless it is listed.
pub(crate) fn list_sector(sector: u32, rows: &Vec<Row>, unsynced: &mut Vec<u32>)
    requires within { sector < length rows.now.items }
    requires listed { IsUnsyncedList unsynced.old.items rows.now.items }
    requires room { length rows.now.items ≤ vec_capacity unsynced.old }
    ensures listed { (row : Row) → IsSome row.written
        → IsUnsyncedList unsynced.new.items (slice_set rows.now.items sector row) }
    ensures room { length rows.now.items ≤ vec_capacity unsynced.new }
{
    if rows[sector as usize].written.is_none() {
        unsynced.push(sector).unwrap();
    }
}

/// Takes a sector from the list, if it is listed.
pub(crate) fn let_go(sector: u32, unsynced: &mut Vec<u32>)
    ensures others { unsynced.new.items
        ≡ filter (λ listed. not (listed == sector)) unsynced.old.items }
    ensures room { vec_capacity unsynced.new ≡ vec_capacity unsynced.old }
{
    unsynced.retain(|listed| *listed != sector);
}

/// Makes all rows synced. Only those of the listed sectors are looked at.
pub(crate) fn settle(rows: &mut Vec<Row>, unsynced: &mut Vec<u32>)
    requires { IsUnsyncedList unsynced.old.items rows.old.items }
    ensures rows { rows.new.items ≡ map settled rows.old.items }
    ensures none { unsynced.new.items ≡ [] }
    ensures room { vec_capacity unsynced.new ≡ vec_capacity unsynced.old }
{
    for sector in unsynced.iter() {
        let row = &mut rows[*sector as usize];
        *row = stands(row.present);
    }
    unsynced.clear();
}
