//! The directories from the root to the one where a walk is.
ghost use Rattle.std.specs.Prelude.{◌≡◌, [], ◌∷◌, OnOk};
ghost use Rattle.lfs_path.specs.Trees.{here, risen};

use lfs_model::FileNumber;
use std::alloc::{AllocError, Global};
use std::marker::Model;

/// A directory and those above it as far as the root: contracts see their numbers, its own first.
#[derive(Drop)]
pub struct Chain {
    /// From the root on.
    above: Vec<FileNumber>,
    directory: FileNumber,
}

impl Model for Chain {
    ghost use Rattle.std.specs.Prelude.{ℕ, List, ◌∷◌, map, reverse};

    ghost Value = { List ℕ };

    ghost view = { λ c. map (λ n. n.value) (c.directory ∷ reverse c.above.items) };
}

impl Chain {
    /// The root alone.
    pub fn root(alloc: Global) -> Chain
        ensures { result ≡ 1 ∷ [] }
    {
        Chain {
            above: Vec::new(alloc),
            directory: FileNumber::ROOT,
        }
    }

    /// The directory itself.
    pub fn directory(&self) -> FileNumber
        ensures value { result.value ≡ here self.now }
    {
        self.directory
    }

    /// To the directory above; the root stays.
    pub fn ascend(&mut self)
        ensures { self.new ≡ risen self.old }
    {
        if let Some(above) = self.above.pop() {
            self.directory = above;
        }
    }

    /// To a directory in this one.
    pub fn descend(&mut self, directory: FileNumber) -> Result<(), AllocError>
        ensures { OnOk result (self.new ≡ directory.value ∷ self.old) }
    {
        let Ok(()) = self.above.push(self.directory) else {
            return Err(AllocError);
        };
        self.directory = directory;
        Ok(())
    }

    /// To the root.
    pub fn restart(&mut self)
        ensures { self.new ≡ 1 ∷ [] }
    {
        self.above.clear();
        self.directory = FileNumber::ROOT;
    }
}
