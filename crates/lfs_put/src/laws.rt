//! What is known of the largest new file: laws of its definitions, each the contract of a function
//! that does nothing.
ghost use Rattle.lfs_put.specs.Largest.{LargestFits, RootIsTold};

/// A new file in the root, of as many full blocks as the largest has, keeps the need of a tree
/// within its limit. One of more full blocks doesn't.
pub fn largest_fits()
    ensures { LargestFits }
{}

/// `space`, and `stat` and `readdir` of the root, tell the need and its limit, the size of the root
/// and the number of its entries.
pub fn root_is_told()
    ensures { RootIsTold }
{}
