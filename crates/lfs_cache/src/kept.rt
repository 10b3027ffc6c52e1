// Sectors that are kept, the last that was used first.
ghost use Rattle.std.specs.Prelude.{◌≡◌, None, IfSome};
ghost use Rattle.lfs_cache.specs.Kept.{IsLastUsed, KeepsAlso, kept_at, without};

use crate::row::Row;
use lru::LruCache;

/// Sectors by number, each with its bytes.
pub(crate) type Kept = LruCache<u32, Row>;

/// The bytes of a sector, if it is the one that was used last: that one is found by a look at its
/// number alone.
pub(crate) fn last_used(kept: &Kept, sector: u32) -> Option<&Row>
    ensures { IfSome result (λ row. IsLastUsed kept.now sector row.now) }
{
    let (number, row) = kept.peek_mru()?;
    if *number == sector {
        return Some(row);
    }
    None
}

/// Keeps a sector with these bytes, unless memory is refused: then only one of which something was
/// kept takes them. The row that goes for it is spare behind this, and serves the next sector.
pub(crate) fn keep(kept: &mut Kept, spare: &mut Option<Row>, sector: u32, bytes: &[u8; 512])
    ensures { KeepsAlso sector bytes.now kept.old kept.new }
{
    let Ok(row) = Row::of(spare.take(), *kept.allocator(), bytes) else {
        overwrite(kept, sector, bytes);
        return;
    };
    *spare = match kept.push(sector, row) {
        Ok(gone) => gone.map(|(_, row)| row),
        Err(refused) => Some(refused.value.1),
    };
}

/// Puts other bytes in the place of what is kept of a sector, which is used by that. It takes no
/// memory, and keeps nothing of a sector of which nothing is kept.
fn overwrite(kept: &mut Kept, sector: u32, bytes: &[u8; 512])
    ensures { KeepsAlso sector bytes.now kept.old kept.new }
{
    if let Some(row) = kept.get_mut(&sector) {
        row.fill(bytes);
    }
}

/// Keeps nothing of a sector.
pub(crate) fn forget(kept: &mut Kept, sector: u32)
    ensures others { kept.new ≡ without kept.old sector }
    ensures gone { kept_at kept.new sector ≡ None }
{
    // That no sector is kept twice is told with the length, which nobody wants here.
    let _once = kept.len();
    let _ = kept.pop(&sector);
}
