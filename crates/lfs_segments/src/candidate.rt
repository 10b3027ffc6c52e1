//! A segment that may be cleaned, and the orders in which such segments are chosen.
ghost use Rattle.std.specs.Prelude.{◌<◌, ◌≤◌};
ghost use Rattle.lfs_model.specs.declared.limits.TheConstants.{CHUNK_BLOCKS, MOST_SEGMENTS};

/// A segment that may be cleaned, how many blocks have to leave it before it is clean, and the
/// number of the checkpoint for which it was written last.
#[derive(Clone, Copy)]
pub(crate) struct Candidate {
    pub(crate) load: u16,
    pub(crate) age: u32,
    pub(crate) segment: u16,
    ghost few: { load ≤ CHUNK_BLOCKS },
    ghost inside: { segment < MOST_SEGMENTS },
}

/// In which order segments are chosen.
#[derive(Clone, Copy)]
pub(crate) enum Preference {
    /// By benefit and cost, where the acknowledged checkpoint has this number.
    Benefit(u64),
    /// Those with the least blocks first.
    Load,
}
