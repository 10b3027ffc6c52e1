//! Where a volume is damaged.
use std::alloc::{AllocError, AllocFailed};

/// A part of a volume.
#[derive(Clone, Copy, PartialEq, Eq)]
pub enum Part {
    /// A block of usage, by its place in the checkpoint.
    UsageBlock(u32),
    /// A block of the inode map, by its place in the checkpoint.
    MapBlock(u32),
    Segment(u32),
    /// The inode of an object, and no part of it.
    Inode,
    /// A leaf of an object; 0 is its single leaf, and those of its double root follow.
    Leaf(u32),
    /// The double root of an object.
    Double,
    /// A block of an object.
    Block(u32),
    /// A slot of a directory.
    Slot(u32),
    All,
}

/// The first place at which a volume fails a stage of its check.
#[derive(Clone, Copy)]
pub struct Damage {
    /// The stage, 1 to 15.
    pub stage: u8,
    /// The number of the object; 0 where it is none's.
    pub number: u32,
    pub part: Part,
    /// The sector; 0 where there is none.
    pub sector: u32,
}

/// Why the check of a volume goes no further.
#[derive(Clone, Copy)]
pub enum Stop {
    /// A stage fails.
    Damage(Damage),
    Memory(AllocError),
}

/// What a stage answers.
pub type Checked = Result<(), Stop>;

impl From<AllocError> for Stop {
    fn from(error: AllocError) -> Stop {
        Stop::Memory(error)
    }
}

impl<T: Drop> From<AllocFailed<T>> for Stop {
    fn from(_failed: AllocFailed<T>) -> Stop {
        Stop::Memory(AllocError)
    }
}

/// A stage, which tells where it fails.
#[derive(Clone, Copy)]
pub struct Stage(pub u8);

impl Stage {
    /// It fails at something of no object.
    pub fn fails(self, part: Part, sector: u32) -> Stop {
        self.fails_of(0, part, sector)
    }

    /// It fails at something of an object.
    pub fn fails_of(self, number: u32, part: Part, sector: u32) -> Stop {
        let Stage(stage) = self;
        Stop::Damage(Damage {
            stage,
            number,
            part,
            sector,
        })
    }
}
