//! How many segments are to be clean before each kind of work, and how many a pass takes: no other
//! module says how few are too few.
ghost use Rattle.std.specs.Prelude.{◌≡◌, ◌<◌, ◌≤◌, ◌*◌, IsTrue, IsFalse};
ghost use Rattle.lfs_log.specs.Thresholds.{AreThreeSixteenthsClean, HasReserve, IsEighthClean, IsQuarterClean, LacksReserve, most_passes, most_victims, reserve_of};

/// So many segments are to be clean before a commit: eight, which it takes at most, and an eighth of
/// all, which stays clean after it.
fn reserve(segments: u32) -> u32
    ensures { result ≡ reserve_of segments }
{
    segments / 8 + 8
}

/// Whether so many segments are clean as a commit may need.
pub fn has_reserve(segments: u32, clean: u32) -> bool
    ensures yes { IsTrue result → HasReserve segments clean }
    ensures no { IsFalse result → LacksReserve segments clean }
{
    reserve(segments) <= clean
}

/// Whether more segments are clean than the next commit may need.
pub fn exceeds_reserve(segments: u32, clean: u32) -> bool
    ensures yes { IsTrue result → reserve_of segments < clean }
    ensures no { IsFalse result → clean ≤ reserve_of segments }
{
    reserve(segments) < clean
}

/// Whether an eighth of the segments is clean, so that a pass may begin.
pub fn is_eighth_clean(segments: u32, clean: u32) -> bool
    ensures yes { IsTrue result → IsEighthClean segments clean }
    ensures no { IsFalse result → 8 * clean < segments }
{
    u64::from(segments) <= 8 * u64::from(clean)
}

/// Whether a quarter of the segments is clean, so that room needn't be made.
pub fn is_quarter_clean(segments: u32, clean: u32) -> bool
    ensures yes { IsTrue result → IsQuarterClean segments clean }
    ensures no { IsFalse result → 4 * clean < segments }
{
    u64::from(segments) <= 4 * u64::from(clean)
}

/// Whether three sixteenths of the segments are clean, so that a change makes no pass before it.
pub fn are_three_sixteenths_clean(segments: u32, clean: u32) -> bool
    ensures yes { IsTrue result → AreThreeSixteenthsClean segments clean }
    ensures no { IsFalse result → 16 * clean < 3 * segments }
{
    3 * u64::from(segments) <= 16 * u64::from(clean)
}

/// How many segments a pass empties at most: an eighth of all, and one.
pub fn most_victims(segments: u32) -> u32
    ensures { result ≡ most_victims segments }
{
    segments / 8 + 1
}

/// How many passes make room at most: from an eighth of the segments to a quarter, a segment each.
pub fn most_passes(segments: u32) -> u32
    ensures { result ≡ most_passes segments }
{
    segments / 8
}
