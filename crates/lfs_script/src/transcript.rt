// Bytes that only clauses read.
ghost use Rattle.std.specs.Prelude.{◌≡◌, ℕ, List, [], ◌++◌};
ghost use Rattle.std.specs.Borrow.{ftrue};

use std::marker::{Model, PhantomData};

/// What went through a stream. It takes no memory, and its methods do nothing at run time.
#[derive(Drop)]
pub(crate) struct Transcript {
    marker: PhantomData<u8>,
    pub(crate) ghost bytes: { List ℕ },
}

impl Model for Transcript {
    ghost also_owns = { λ _. ftrue };
}

// It takes no memory.
const _: () = prove!(size_of::<Transcript>() == 0);

impl Transcript {
    /// No byte yet.
    pub(crate) fn new() -> Transcript
        ensures { result.bytes ≡ [] }
    {
        Transcript {
            marker: PhantomData,
        }
    }

    /// Adds the bytes at the end.
    pub(crate) fn append(&mut self, _bytes: &[u8])
        ensures { self.new.bytes ≡ self.old.bytes ++ _bytes.now }
    {}
}
