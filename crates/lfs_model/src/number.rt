//! The number of a file.
ghost use Rattle.std.specs.Prelude.{◌≡◌, ◌≤◌, IfSome, IfNone};
ghost use Rattle.lfs_model.specs.declared.limits.TheConstants.{LAST_NUMBER};

use crate::limits::LAST_NUMBER;

/// The number of a file, 1 to 4,095.
#[derive(Clone, Copy, Debug, PartialEq, Eq)]
pub struct FileNumber {
    pub value: u16,
    ghost some: { 1 ≤ value },
    ghost few: { value ≤ LAST_NUMBER },
}

impl FileNumber {
    /// The number of the root.
    pub const ROOT: FileNumber = FileNumber { value: 1 };

    /// This number, if a file may have it.
    pub fn new(number: u16) -> Option<FileNumber>
        ensures found { IfSome result (λ file. file.value ≡ number) }
        ensures none { IfNone result (1 ≤ number → number ≤ LAST_NUMBER → ⊥) }
    {
        if number == 0 || number > LAST_NUMBER {
            return None;
        }
        Some(FileNumber { value: number })
    }
}
