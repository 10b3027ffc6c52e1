//! Marks of numbers.
ghost use Rattle.std.specs.Prelude.{◌≡◌, ◌<◌, ℕ, List, length, slice_index, slice_set, IfOk};
ghost use Rattle.lfs_tree.specs.Reaching.{Marked};

use crate::tables::zeros;
use lfs_model::FileNumber;
use lfs_model::limits::FILE_NUMBERS;
use std::alloc::{AllocError, Global};
use std::marker::Model;

/// For each number its mark, 0 where it has none. Contracts see the list.
#[derive(Drop)]
pub(crate) struct Marks {
    marks: Vec<u16>,
}

impl Model for Marks {
    ghost use Rattle.lfs_model.specs.declared.limits.TheConstants.{FILE_NUMBERS};
    ghost use Rattle.std.specs.Prelude.{◌≡◌, ℕ, List, length};

    ghost Value = { List ℕ };

    ghost view = { λ m. m.marks.items };

    ghost invariant = { λ m. length m.marks.items ≡ FILE_NUMBERS };
}

impl Marks {
    /// One mark, the root's.
    ///
    /// # Errors
    ///
    /// Where memory runs out.
    pub(crate) fn new(alloc: Global) -> Result<Marks, AllocError>
        ensures { IfOk result (λ marks. (up : List ℕ) → Marked up marks 2) }
    {
        let mut marks = zeros(alloc)?;
        marks[FileNumber::ROOT.value as usize] = 1;
        Ok(Marks { marks })
    }

    /// The mark of a number.
    pub(crate) fn get(&self, number: u16) -> u16
        requires { number < FILE_NUMBERS }
        ensures value { result ≡ slice_index self.now number }
        ensures whole { length self.now ≡ FILE_NUMBERS }
    {
        self.marks[number as usize]
    }

    /// The number has this mark.
    pub(crate) fn set(&mut self, number: u16, mark: u16)
        requires { number < FILE_NUMBERS }
        ensures { self.new ≡ slice_set self.old number mark }
    {
        self.marks[number as usize] = mark;
    }
}
