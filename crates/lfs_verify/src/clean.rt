//! The clean segments of a volume.
ghost use Rattle.std.specs.Prelude.{◌≡◌, ◌≤◌, ◌↔◌, length, IsTrue};
ghost use Rattle.lfs_model.specs.Reach.{View};
ghost use Rattle.lfs_model.specs.Stands.{EnoughClean};
ghost use Rattle.lfs_verify.specs.Tables.{IsUsedTable, clean_count};

fn count_clean(used: &[u16]) -> usize
    ensures count { result ≡ clean_count used.now (length used.now) }
    ensures few { result ≤ length used.now }
{
    let mut count = 0usize;
    for segment in 0..used.len() {
        if used[segment] == 0 {
            count += 1;
        }
    }
    count
}

/// Stage 15: whether an eighth of the segments, at least, is clean.
pub fn stage_clean(used: &[u16]) -> bool
    ensures { (v : View) → IsUsedTable v used.now → IsTrue result ↔ EnoughClean v }
{
    used.len().div_ceil(8) <= count_clean(used)
}
