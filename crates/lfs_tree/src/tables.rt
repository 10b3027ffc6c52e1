//! What the entries of directories say of numbers.
ghost use Rattle.std.specs.Prelude.{◌≡◌, ◌<◌, ℕ, length, slice_index, IfOk};
ghost use Rattle.lfs_tree.specs.Naming.{AreEmpty, AreTables, NamesValue, Notes};

use lfs_model::FileNumber;
use lfs_model::limits::FILE_NUMBERS;
use std::alloc::{AllocError, Global};
use std::marker::Model;

/// Tables by number, of the entries that were gone through. A count is at most 65,535; one that
/// would be more stays there. Contracts see the lists.
#[derive(Drop)]
pub struct NameTables {
    /// How many entries give the number.
    counts: Vec<u16>,
    /// A directory with such an entry, if there is one.
    up: Vec<u16>,
    /// How many entries of this directory give directories.
    below: Vec<u16>,
}

impl Model for NameTables {
    ghost use Rattle.lfs_tree.specs.Naming.{AreTables, NamesValue};

    ghost Value = { NamesValue };

    ghost view = { λ t. record { counts = t.counts.items; up = t.up.items; below = t.below.items } };

    ghost invariant = { λ t. AreTables (record { counts = t.counts.items; up = t.up.items; below = t.below.items }) };
}

/// A table of 4,096 numbers, all 0.
pub(crate) fn zeros(alloc: Global) -> Result<Vec<u16>, AllocError>
    ensures len { IfOk result (λ v. length v.items ≡ FILE_NUMBERS) }
    ensures empty { IfOk result (λ v. (n : ℕ) → slice_index v.items n ≡ 0) }
{
    let numbers = Vec::from_elem(alloc, 0, FILE_NUMBERS as usize)?;
    Ok(numbers)
}

impl NameTables {
    /// Tables of no entries.
    ///
    /// # Errors
    ///
    /// Where memory runs out.
    pub fn new(alloc: Global) -> Result<NameTables, AllocError>
        ensures sizes { IfOk result AreTables }
        ensures empty { IfOk result AreEmpty }
    {
        let counts = zeros(alloc)?;
        let up = zeros(alloc)?;
        let below = zeros(alloc)?;
        Ok(NameTables { counts, up, below })
    }

    /// How many entries give a number.
    pub(crate) fn count(&self, number: u16) -> u16
        requires { number < FILE_NUMBERS }
        ensures { result ≡ slice_index self.now.counts number }
    {
        self.counts[number as usize]
    }

    /// A directory with an entry that gives a number, if there is one.
    pub(crate) fn up(&self, number: u16) -> u16
        requires { number < FILE_NUMBERS }
        ensures value { result ≡ slice_index self.now.up number }
        ensures inside { result < FILE_NUMBERS }
    {
        self.up[number as usize]
    }

    /// How many entries of a directory give directories.
    pub(crate) fn below(&self, directory: u16) -> u16
        requires { directory < FILE_NUMBERS }
        ensures { result ≡ slice_index self.now.below directory }
    {
        self.below[directory as usize]
    }

    /// An entry of a directory gives a number, at which a directory stands or not.
    pub(crate) fn note(&mut self, directory: FileNumber, number: FileNumber, is_directory: bool)
        ensures notes { Notes self.old self.new directory.value number.value is_directory }
        ensures sizes { AreTables self.old }
        ensures kept { AreTables self.new }
    {
        let place = number.value as usize;
        let above = directory.value as usize;
        self.counts[place] = self.counts[place].saturating_add(1);
        self.up[place] = directory.value;
        self.below[above] = self.below[above].saturating_add(u16::from(is_directory));
    }
}
