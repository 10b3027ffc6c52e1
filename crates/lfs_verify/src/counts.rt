//! The live blocks of each segment, by the marks.
ghost use Rattle.std.specs.Prelude.{◌≡◌, ◌<◌, ◌≤◌, ◌+◌, ◌*◌, ◌↔◌, ℕ, length, get_or, IsTrue};
ghost use Rattle.lfs_model.specs.Reach.{View};
ghost use Rattle.lfs_model.specs.Stands.{AreCounted};
ghost use Rattle.lfs_verify.specs.Labels.{marked_count};
ghost use Rattle.lfs_verify.specs.Tables.{IsLiveTable};
ghost use Rattle.lfs_verify.specs.Walk.{Walked, IsBounded};

use crate::order::ALL_STEPS;
use lfs_model::limits::SEGMENT_SECTORS;

/// How many sectors of a segment are marked.
fn count_marked(marks: &[u32], segment: usize) -> u32
    requires { 66 + 64 * segment ≤ length marks.now }
    ensures { result ≡ marked_count marks.now segment SEGMENT_SECTORS }
{
    let mut count = 0u32;
    for place in 0..64usize {
        if marks[2 + 64 * segment + place] != 0 {
            count += 1;
        }
    }
    count
}

fn are_counts(live: &[u16], marks: &[u32]) -> bool
    requires { length marks.now ≡ 2 + 64 * length live.now }
    ensures { IsTrue result ↔ ((s : ℕ) → s < length live.now
        → get_or live.now s 0 ≡ marked_count marks.now s SEGMENT_SECTORS) }
{
    for segment in 0..live.len() {
        if count_marked(marks, segment) != live[segment] as u32 {
            return false;
        }
    }
    true
}

/// Stage 9: whether the table of live blocks gives each segment the count of its sectors that were
/// reached.
pub fn stage_counts(live: &[u16], marks: &[u32]) -> bool
    requires { length marks.now ≡ 2 + 64 * length live.now }
    ensures { (v : View) → Walked v marks.now ALL_STEPS → IsBounded v → IsLiveTable v live.now
        → IsTrue result ↔ AreCounted v }
{
    are_counts(live, marks)
}
