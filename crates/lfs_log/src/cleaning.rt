//! Which segments a pass of the cleaner may empty, and whether they are empty.
ghost use Rattle.std.specs.Prelude.{◌≡◌, ◌<◌, ◌≤◌, ◌+◌, ◌/◌, ℕ, length, get_or, IsTrue, IsFalse};
ghost use Rattle.lfs_memory.specs.segments.Emptied.{IsEmptied};
ghost use Rattle.lfs_log.specs.Cleaning.{AreCleanable, AreEmptied, IsCleanable, MayClean, most_brought};

use crate::thresholds::{is_eighth_clean, most_victims};
use lfs_memory::LogMemory;
use lfs_memory::segments::Usage;
use lfs_model::limits::{CHUNK_BLOCKS, MOST_SEGMENTS, TABLE_BLOCKS};

/// Whether nothing lives in a segment and nothing holds it, though it isn't clean before a
/// checkpoint is acknowledged.
fn is_emptied(usage: &Usage, segment: u32) -> bool
    requires { segment < length usage.now.segments }
    ensures yes { IsTrue result → IsEmptied usage.now segment }
    ensures no { IsFalse result → IsEmptied usage.now segment → ⊥ }
{
    let state = usage.state(segment);
    if state.used == 0 {
        return false;
    }
    if state.kept != state.used {
        return false;
    }
    if state.live != 0 {
        return false;
    }
    state.held == 0
}

/// Whether that is so of each of these segments.
pub(crate) fn are_emptied(usage: &Usage, victims: &[u16]) -> bool
    requires { (i : ℕ) → i < length victims.now
        → get_or victims.now i 0 < length usage.now.segments }
    ensures yes { IsTrue result → AreEmptied usage.now victims.now }
    ensures no { IsFalse result → AreEmptied usage.now victims.now → ⊥ }
{
    for victim in victims {
        if !is_emptied(usage, u32::from(*victim)) {
            return false;
        }
    }
    true
}

/// Whether a segment is in use, and was before the acknowledged checkpoint, and the last chunk
/// doesn't stand there.
fn is_cleanable(usage: &Usage, segment: u32) -> bool
    ensures yes { IsTrue result → IsCleanable usage.now segment }
    ensures no { IsFalse result → IsCleanable usage.now segment → ⊥ }
{
    if segment >= usage.segments() {
        return false;
    }
    if usage.last() == Some(segment) {
        return false;
    }
    let state = usage.state(segment);
    if state.used == 0 {
        return false;
    }
    state.kept == state.used
}

/// Whether that is so of each of these segments.
fn are_cleanable(usage: &Usage, victims: &[u16]) -> bool
    ensures yes { IsTrue result → AreCleanable usage.now victims.now }
    ensures no { IsFalse result → AreCleanable usage.now victims.now → ⊥ }
{
    victims
        .iter()
        .all(|victim| is_cleanable(usage, u32::from(*victim)))
}

/// Whether a pass over these segments may begin: nothing is unsaved, and enough segments are clean
/// for it.
pub fn may_clean(memory: &LogMemory, victims: &[u16]) -> bool
    ensures yes { IsTrue result → MayClean memory.now victims.now }
    ensures no { IsFalse result → MayClean memory.now victims.now → ⊥ }
{
    if memory.dirty.len() != 0 {
        return false;
    }
    if !is_eighth_clean(memory.usage.segments(), memory.usage.clean()) {
        return false;
    }
    let count = victims.len();
    if count < 2 {
        return false;
    }
    if count > most_victims(memory.usage.segments()) as usize {
        return false;
    }
    are_cleanable(&memory.usage, victims)
}

/// How many blocks of files a pass over so many segments may bring into memory: with all blocks of
/// the tables they fill fewer segments.
pub fn most_of(count: usize) -> u32
    requires least { 2 ≤ count }
    requires most { count ≤ MOST_SEGMENTS / 8 + 1 }
    ensures { result ≡ most_brought count }
{
    CHUNK_BLOCKS as u32 * (count as u32 - 1) - TABLE_BLOCKS
}
