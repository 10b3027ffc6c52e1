//! What the marks say after the walk.
ghost use Rattle.lfs_verify.specs.Tables.{NamedByMarks, CountedByMarks};

/// The labels are those of the entries that were reached where each sector's mark is that of its
/// label.
pub fn named_by_marks()
    ensures { NamedByMarks }
{}

/// What is live was counted right where the marks say so.
pub fn counted_by_marks()
    ensures { CountedByMarks }
{}
