//! Which segment an address lies in.
ghost use Rattle.std.specs.Prelude.{◌≡◌, ◌<◌, ◌≤◌, ◌-◌, ◌%◌};
ghost use Rattle.lfs_model.specs.Counting.{segment_of};

use lfs_model::limits::{CHECKPOINT_SLOTS, SEGMENT_SECTORS};

/// The segment of an address behind the slots of checkpoints.
pub fn segment_of(address: u32) -> u32
    requires { CHECKPOINT_SLOTS ≤ address }
    ensures { result ≡ segment_of address }
{
    (address - CHECKPOINT_SLOTS) / SEGMENT_SECTORS
}

/// The place of such an address among the sectors of its segment, the first at 0.
pub fn place_in_segment(address: u32) -> u32
    requires { CHECKPOINT_SLOTS ≤ address }
    ensures value { result ≡ (address - CHECKPOINT_SLOTS) % SEGMENT_SECTORS }
    ensures within { result < SEGMENT_SECTORS }
{
    (address - CHECKPOINT_SLOTS) % SEGMENT_SECTORS
}
