//! The paths of names, by the rows of a tree.
ghost use Rattle.std.specs.Prelude.{◌≡◌, ◌++◌, ◌∷◌, IfErr, IfOk, IfSome};
ghost use Rattle.std.specs.List.{IsAmong};
ghost use Rattle.lfs_copy.specs.Paths.{AreFirsts, IsNoPath, IsPathOf};

use crate::fault::CopyFault;
use lfs_fs::TreeRow;
use lfs_model::FileNumber;
use lfs_model::limits::FILE_NUMBERS;
use std::alloc::{AllocError, Global};

/// The number of the root.
pub const ROOT: u32 = FileNumber::ROOT.value as u32;

/// How many numbers there are; number 0 is nobody's.
pub const NUMBERS: usize = FILE_NUMBERS as usize;

/// For each number the place of the first row that gives it, or else the number of the rows.
pub fn first_rows(alloc: Global, rows: &[TreeRow]) -> Result<Vec<usize>, AllocError>
    ensures { IfOk result (λ firsts. AreFirsts rows.now firsts.items) }
{
    let mut firsts = vec![in alloc; rows.len(); NUMBERS]?;
    for index in 0..rows.len() {
        let number = rows[index].number as usize;
        if number < NUMBERS && index < firsts[number] {
            firsts[number] = index;
        }
    }
    Ok(firsts)
}

/// The first row that gives a number.
pub fn row_of<'a>(rows: &'a [TreeRow], firsts: &[usize], number: u32) -> Option<&'a TreeRow>
    ensures among { IfSome result (λ row. IsAmong rows.now row.now) }
    ensures number { IfSome result (λ row. row.now.number ≡ number) }
{
    let Some(first) = firsts.get(number as usize) else {
        return None;
    };
    match rows.get(*first) {
        Some(row) if row.number == number => Some(row),
        _ => None,
    }
}

// A path that begins with a slash and a name, and goes on so.
fn below(alloc: Global, name: &[u8], rest: &[u8]) -> Result<Vec<u8>, AllocError>
    ensures { IfOk result (λ path. path.items ≡ 47 ∷ (name.now ++ rest.now)) }
{
    let mut path = Vec::new(alloc);
    path.push(b'/')?;
    path.extend_from_slice(name)?;
    path.extend_from_slice(rest)?;
    Ok(path)
}

/// The path of the name of a row, by the rows of the directories above it.
///
/// # Errors
///
/// `Memory`; `NoTree` where none of the rows has a directory on the way, or they go in a circle.
pub fn path_of(
    alloc: Global,
    rows: &[TreeRow],
    firsts: &[usize],
    row: &TreeRow,
) -> Result<Vec<u8>, CopyFault>
    ensures leads { IfOk result (λ path. IsPathOf rows.now row.now path.items) }
    ensures cause { IfErr result IsNoPath }
{
    let mut path = below(alloc, row.name.as_slice(), b"")?;
    let mut directory = row.directory;
    for _ in 0..NUMBERS {
        if directory == ROOT {
            return Ok(path);
        }
        let Some(above) = row_of(rows, firsts, directory) else {
            return Err(CopyFault::NoTree);
        };
        path = below(alloc, above.name.as_slice(), path.as_slice())?;
        directory = above.directory;
    }
    Err(CopyFault::NoTree)
}
