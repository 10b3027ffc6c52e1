//! The totals by which a volume's space is counted.
ghost use Rattle.lfs_model.specs.Totals.{TotalsOfChange, TotalsOfTree};

/// The blocks of one file: data blocks within a range, and its inode and blocks of pointers.
#[derive(Clone, Copy, Debug, PartialEq, Eq)]
pub struct Measure {
    pub data_blocks: u32,
    pub meta_blocks: u32,
}

/// The measure of a file that isn't there.
pub const NO_BLOCK: Measure = Measure {
    data_blocks: 0,
    meta_blocks: 0,
};

/// Where one file changes, and of its blocks those of a range, the totals change by its measure.
pub fn totals_of_change()
    ensures { TotalsOfChange }
{}

/// The totals of a log map are those of its tree.
pub fn totals_of_tree()
    ensures { TotalsOfTree }
{}
