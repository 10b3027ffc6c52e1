//! Which of two segments comes first in an order.
ghost use Rattle.std.specs.Prelude.{◌<◌, IsTrue, IsFalse};
ghost use Rattle.lfs_segments.specs.Choosing.{IsCandidate, Precedes, IsLighterAs, IsPreferredAs};
ghost use Rattle.lfs_segments.specs.Table.{UsageTable};

use crate::benefit::before;
use crate::candidate::{Candidate, Preference};

/// Whether a segment comes before another in an order.
pub(crate) fn precedes(preference: Preference, a: Candidate, b: Candidate) -> bool
    ensures yes { IsTrue result → (t : UsageTable) → IsCandidate t a → IsCandidate t b
        → Precedes t preference a.segment b.segment }
    ensures no { IsFalse result → (t : UsageTable) → IsCandidate t a → IsCandidate t b
        → Precedes t preference a.segment b.segment → ⊥ }
{
    match preference {
        Preference::Benefit(now) => is_preferred(a, b, now),
        Preference::Load => is_lighter(a, b),
    }
}

/// Whether cleaning a segment is worth more than cleaning another, or as much, and its number is
/// lower.
fn is_preferred(a: Candidate, b: Candidate, now: u64) -> bool
    ensures yes { IsTrue result → IsPreferredAs now a.load a.age a.segment b.load b.age b.segment }
    ensures no { IsFalse result
        → IsPreferredAs now a.load a.age a.segment b.load b.age b.segment → ⊥ }
{
    let is_worth_more = before((a.load, a.age), (b.load, b.age), now);
    let is_worth_less = before((b.load, b.age), (a.load, a.age), now);
    is_worth_more || !is_worth_less && a.segment < b.segment
}

/// Whether a segment has fewer blocks than another, or as many, and the lower number.
fn is_lighter(a: Candidate, b: Candidate) -> bool
    ensures yes { IsTrue result → IsLighterAs a.load a.segment b.load b.segment }
    ensures no { IsFalse result → IsLighterAs a.load a.segment b.load b.segment → ⊥ }
{
    a.load < b.load || a.load == b.load && a.segment < b.segment
}
