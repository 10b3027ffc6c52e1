//! The order in which the names of a tree are made: each directory before what it has.
ghost use Rattle.std.specs.Prelude.{IfErr};
ghost use Rattle.std.specs.List.Sorted.{IsPermutation};
ghost use Rattle.lfs_copy.specs.Paths.{IsNoPath};

use crate::fault::CopyFault;
use crate::paths::{first_rows, path_of, row_of};
use lfs_fs::TreeRow;
use lfs_model::Kind;
use lfs_model::limits::FILE_NUMBERS;
use std::alloc::{AllocError, Global};

// The length of the path of the directory of a number, 0 of the root and where no row gives one.
fn path_len(
    alloc: Global,
    rows: &[TreeRow],
    firsts: &[usize],
    number: u32,
) -> Result<usize, CopyFault>
    ensures { IfErr result IsNoPath }
{
    match row_of(rows, firsts, number) {
        Some(row) if row.kind == Kind::Directory => { Ok(path_of(alloc, rows, firsts, row)?.len()) }
        _ => Ok(0),
    }
}

// Those of all numbers.
fn path_lens(alloc: Global, rows: &[TreeRow]) -> Result<Vec<usize>, CopyFault>
    ensures { IfErr result IsNoPath }
{
    let firsts = first_rows(alloc, rows)?;
    let mut lens = Vec::new(alloc);
    for number in 0..u32::from(FILE_NUMBERS) {
        let len = path_len(alloc, rows, firsts.as_slice(), number)?;
        let Ok(()) = lens.push(len) else {
            return Err(CopyFault::Memory(AllocError));
        };
    }
    Ok(lens)
}

/// Orders the rows of a tree so that the row of a directory comes before those of its entries.
///
/// # Errors
///
/// `Memory` and `NoTree`, as those of a path.
pub fn order(alloc: Global, rows: &mut Vec<TreeRow>) -> Result<(), CopyFault>
    ensures same { IsPermutation rows.old.items rows.new.items }
    ensures cause { IfErr result IsNoPath }
{
    let lens = path_lens(alloc, rows.as_slice())?;
    // The path of a directory is longer than that of the one which has it.
    rows.sort_by_key(|row| lens.get(row.directory as usize).copied().unwrap_or(0))?;
    Ok(())
}
