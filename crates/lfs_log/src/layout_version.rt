//! The version of a volume's layout.
ghost use Rattle.std.specs.Prelude.{◌≡◌, ◌≤◌, ◌||◌, cond};
ghost use Rattle.lfs_model.specs.Checkpoint.{IsVersion};
ghost use Rattle.lfs_memory.specs.Batch.{raises, version_after};
ghost use Rattle.lfs_log.specs.Versions.{number_of};

use lfs_memory::Loss;

/// The version of a volume's layout.
#[derive(Clone, Copy, Debug, PartialEq, Eq)]
pub enum LayoutVersion {
    /// Directories have the first form.
    First,
    /// They have the first or the second.
    Second,
    /// They have the second, and a checkpoint has a checksum.
    Third,
}

impl LayoutVersion {
    /// The version of this number.
    pub fn new(number: u32) -> LayoutVersion
        requires { IsVersion number }
        ensures { number_of result ≡ number }
    {
        match number {
            1 => LayoutVersion::First,
            2 => LayoutVersion::Second,
            _ => LayoutVersion::Third,
        }
    }

    /// Its number.
    pub fn number(self) -> u32
        ensures value { result ≡ number_of self }
        ensures known { IsVersion result }
    {
        match self {
            LayoutVersion::First => 1,
            LayoutVersion::Second => 2,
            LayoutVersion::Third => 3,
        }
    }
}

/// The version of the layout after what goes in a batch.
pub fn version_after(loss: &Loss, version: LayoutVersion) -> LayoutVersion
    ensures { number_of result ≡ version_after loss.now (number_of version) }
{
    match loss {
        Loss::FirstVersion => LayoutVersion::Second,
        _ => version,
    }
}

/// Whether the version was raised since the acknowledged checkpoint, after what goes in a batch.
pub fn is_raised_after(loss: &Loss, before: bool) -> bool
    ensures { result ≡ (raises loss.now || before) }
{
    match loss {
        Loss::FirstVersion => true,
        _ => before,
    }
}

/// How many blocks are unsaved by a version that was raised: the checkpoint's.
pub fn unsaved_by(raised: bool) -> usize
    ensures value { result ≡ cond raised 1 0 }
    ensures most { result ≤ 1 }
{
    if raised { 1 } else { 0 }
}
