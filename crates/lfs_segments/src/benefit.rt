//! Which of two segments is the better one to clean, by the Sprite LFS paper's (1992, section 3.5)
//! quotient of benefit and cost.
ghost use Rattle.std.specs.Prelude.{◌≡◌, ◌<◌, ◌≤◌, ◌+◌, ◌-◌, ◌*◌, ◌^◌, ◌↔◌, IsTrue};

use lfs_model::limits::CHUNK_BLOCKS;

/// How many blocks a segment takes beside the summary of its chunk.
const BLOCKS: u16 = CHUNK_BLOCKS as u16;

/// What cleaning a segment gives for what it costs, as a product of its free share and its age.
fn benefit(live: u16, age: u32, now: u64) -> u128
    requires { live ≤ CHUNK_BLOCKS }
    ensures value { result ≡ (CHUNK_BLOCKS - live) * (now - age) }
    ensures most { result ≤ CHUNK_BLOCKS * (2 ^ 64 - 1) }
{
    let age = now.saturating_sub(u64::from(age));
    u128::from(BLOCKS - live) * u128::from(age)
}

/// Whether a segment of so many blocks, written last for the checkpoint of this number, is strictly
/// better to clean than another: the greatest `(63 - live) * age / (63 + live)` goes first.
pub fn before(a: (u16, u32), b: (u16, u32), now: u64) -> bool
    requires first { a.0 ≤ CHUNK_BLOCKS }
    requires second { b.0 ≤ CHUNK_BLOCKS }
    ensures { IsTrue result ↔ (CHUNK_BLOCKS - b.0) * (now - b.1) * (CHUNK_BLOCKS + a.0)
        < (CHUNK_BLOCKS - a.0) * (now - a.1) * (CHUNK_BLOCKS + b.0) }
{
    let one = benefit(a.0, a.1, now) * u128::from(BLOCKS + b.0);
    let other = benefit(b.0, b.1, now) * u128::from(BLOCKS + a.0);
    other < one
}
