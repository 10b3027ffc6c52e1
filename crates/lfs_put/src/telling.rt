//! What a volume tells of the room for a new file.
ghost use Rattle.std.specs.Prelude.{◌≡◌, ◌<◌, ◌≤◌, ℕ, false, get_or, length, ◌==◌};
ghost use Rattle.std.specs.Bool.{OnFalse, OnTrue};
ghost use Rattle.std.specs.List.{list_any};
ghost use Rattle.lfs_model.specs.declared.limits.TheConstants.{FILE_NUMBERS};
ghost use Rattle.lfs_fs.specs.Seen.{seen};
ghost use Rattle.lfs_put.specs.Largest.{AreAllTaken, IsOneFree, IsSlotOf, TellsByTree, TellsEntries, TellsLargest};

use crate::largest::{BLOCK, LAST_NUMBER, MOST_ENTRIES, NARROW, WIDE, most_blocks};
use lfs_device::SectorDevice;
use lfs_fs::{Fs, FsError, TreeRow};
use lfs_model::limits::FILE_NUMBERS;

/// How many numbers there are; number 0 is nobody's.
const NUMBERS: usize = FILE_NUMBERS as usize;

// For each number whether a row gives an object of it.
fn mark_taken(rows: &[TreeRow]) -> [bool; NUMBERS]
    ensures { (number : ℕ) → number < FILE_NUMBERS
        → get_or result number false ≡ list_any (λ row. row.number == number) rows.now }
{
    let mut taken = [false; NUMBERS];
    for row in rows {
        if row.number < u32::from(FILE_NUMBERS) {
            taken[row.number as usize] = true;
        }
    }
    taken
}

// Whether there is a number that neither the root has nor a row gives.
fn has_free(rows: &[TreeRow]) -> bool
    ensures free { OnTrue result (IsOneFree rows.now) }
    ensures taken { OnFalse result (AreAllTaken rows.now) }
{
    let taken = mark_taken(rows);
    for number in 2..NUMBERS {
        if !taken[number] {
            return true;
        }
    }
    false
}

// So many bytes, where a number is free for a new object, else none.
fn by_tree<D: SectorDevice>(fs: &mut Fs<D>, bytes: u64) -> Result<u64, FsError>
    ensures { TellsByTree D.SectorDevice.state (seen fs.old) (seen fs.new) bytes result }
{
    match fs.tree() {
        Ok(rows) => {
            if has_free(rows.as_slice()) {
                Ok(bytes)
            } else {
                Ok(0)
            }
        }
        Err(fault) => Err(fault),
    }
}

// How many entries the root has.
fn count_entries<D: SectorDevice>(fs: &mut Fs<D>) -> Result<u64, FsError>
    ensures { TellsEntries D.SectorDevice.state (seen fs.old) (seen fs.new) result }
{
    match fs.readdir(b"/") {
        Ok(entries) => Ok(entries.len() as u64),
        Err(fault) => Err(fault),
    }
}

/// The bytes of each entry of a directory of this size, which has so many. Where it has none its
/// form doesn't show, and makes no difference: the first entry takes one block in either.
pub fn slot_of(size: u64, entries: u64) -> u64
    requires { entries ≤ MOST_ENTRIES }
    ensures slot { IsSlotOf size entries result }
    ensures few { result ≤ WIDE }
{
    if size > NARROW * entries {
        WIDE
    } else {
        NARROW
    }
}

/// The bytes of the largest new file that the root has room for: the greatest number of whole
/// blocks with which the need keeps within the limit. 0 where the root has all the entries that a
/// directory may have, and where no number is free for an object: where there are as many inodes
/// and blocks of pointers as numbers, the rows of the tree are looked through. A file without a
/// name, which is open still, has none there.
///
/// # Errors
///
/// Those of `space`, of `stat` and `readdir` of the root, and of `tree`.
pub fn largest_new_file<D: SectorDevice>(fs: &mut Fs<D>) -> Result<u64, FsError>
    ensures { TellsLargest D.SectorDevice.state (seen fs.old) (seen fs.new) result }
{
    let space = fs.space()?;
    let root = fs.stat(b"/")?;
    let entries = count_entries(fs)?;
    if entries >= MOST_ENTRIES {
        return Ok(0);
    }
    let slot = slot_of(root.size, entries);
    let blocks = most_blocks(space.need, space.limit, slot, entries);
    let bytes = BLOCK * blocks;
    if space.meta_blocks < LAST_NUMBER {
        return Ok(bytes);
    }
    by_tree(fs, bytes)
}
