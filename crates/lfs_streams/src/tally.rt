// A count that only clauses see.
ghost use Rattle.std.specs.Prelude.{◌≡◌, suc};
ghost use Rattle.lfs_streams.specs.Tallies.{count_of};

use std::mem;
use std::snapshot::Snapshot;

/// How often something was counted. It is never kept: a `Snapshot` of it takes no memory.
#[derive(Drop)]
pub(crate) enum Times {
    Never,
    After(Snapshot<Times>),
}

/// A count that takes no memory.
#[derive(Drop)]
pub(crate) struct Tally {
    times: Snapshot<Times>,
}

// It takes no memory.
const _: () = prove!(size_of::<Tally>() == 0);

impl Tally {
    /// Nothing was counted yet.
    pub(crate) fn new() -> Tally
        ensures { count_of result ≡ 0 }
    {
        Tally {
            times: Snapshot::of(&Times::Never),
        }
    }

    /// Counts one more.
    pub(crate) fn count(&mut self)
        ensures { count_of self.new ≡ suc (count_of self.old) }
    {
        let before = mem::replace(&mut self.times, Snapshot::of(&Times::Never));
        self.times = Snapshot::of(&Times::After(before));
    }
}
