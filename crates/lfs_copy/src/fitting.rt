//! Whether a tree fits into another volume.
ghost use Rattle.std.specs.Prelude.{◌≡◌, ◌≤◌, IfErr, IfOk, IfSome};
ghost use Rattle.lfs_model.specs.declared.limits.TheConstants.{MOST_ENTRIES, WIDE_SLOT};
ghost use Rattle.lfs_copy.specs.Paths.{AreFirsts};
ghost use Rattle.lfs_copy.specs.Fitting.{IsPlanned, IsTooMuch, IsUnfit, IsUnnamed, longest_name, new_slot};

use crate::fault::CopyFault;
use crate::looking::{Target, Told};
use crate::ordering::order;
use crate::paths::{NUMBERS, ROOT, first_rows, path_of};
use lfs_fs::TreeRow;
use lfs_model::Kind;
use lfs_model::limits::{
    LONGEST_NARROW_NAME, LONGEST_PATH, LONGEST_WIDE_NAME, MOST_ENTRIES, NARROW_SLOT, WIDE_SLOT,
};
use lfs_put::{directory_cost, slot_of};
use std::alloc::{AllocError, Global};

/// The version whose directories all have the first form.
pub const NARROW_VERSION: u32 = 1;

/// The most entries of a directory.
const MOST: u64 = MOST_ENTRIES as u64;

/// The names of a tree that fits.
#[derive(Drop)]
pub struct Plan {
    /// In the order in which they are made.
    pub rows: Vec<TreeRow>,
    /// For each number the place of the first row that gives it.
    pub firsts: Vec<usize>,
}

// The longest name in a new directory of a volume of this version.
fn longest_name(version: u32) -> usize
    ensures { result ≡ longest_name version }
{
    if version == NARROW_VERSION {
        LONGEST_NARROW_NAME
    } else {
        LONGEST_WIDE_NAME
    }
}

// The bytes of an entry of such a directory.
fn new_slot(version: u32) -> u64
    ensures slot { result ≡ new_slot version }
    ensures few { result ≤ WIDE_SLOT }
{
    if version == NARROW_VERSION {
        u64::from(NARROW_SLOT)
    } else {
        u64::from(WIDE_SLOT)
    }
}

// Refuses a name that is too long, or whose path is.
fn check_names(
    alloc: Global,
    rows: &[TreeRow],
    firsts: &[usize],
    longest: usize,
) -> Result<(), CopyFault>
    ensures { IfErr result (IsUnnamed rows.now longest) }
{
    for row in rows {
        let path = path_of(alloc, rows, firsts, row)?;
        if row.name.len() > longest || path.len() > LONGEST_PATH {
            return Err(CopyFault::TooLong(path));
        }
    }
    Ok(())
}

// How many entries each directory has, by its number.
fn count_entries(alloc: Global, rows: &[TreeRow]) -> Result<Vec<u64>, AllocError> {
    let mut counts = vec![in alloc; 0u64; NUMBERS]?;
    for row in rows {
        if let Some(count) = counts.get_mut(row.directory as usize) {
            *count = count.saturating_add(1);
        }
    }
    Ok(counts)
}

// The entries of the directory of a number.
fn entries_of(counts: &[u64], number: u32) -> u64
    ensures { result ≤ MOST_ENTRIES }
{
    match counts.get(number as usize) {
        Some(count) => MOST.min(*count),
        None => 0,
    }
}

// What a directory of so many bytes adds to the need, by the bytes of an entry where they are given.
fn cost_of(size: u64, entries: u64, slot: Option<u64>) -> u64
    requires entries { entries ≤ MOST_ENTRIES }
    requires slot { IfSome slot (λ slot. slot ≤ WIDE_SLOT) }
{
    match slot {
        Some(slot) => directory_cost(slot, entries),
        None => directory_cost(slot_of(size, entries), entries),
    }
}

// What all directories add.
fn cost_of_all(rows: &[TreeRow], counts: &[u64], size: u64, slot: Option<u64>) -> u64
    requires { IfSome slot (λ slot. slot ≤ WIDE_SLOT) }
{
    let mut cost = cost_of(size, entries_of(counts, ROOT), slot);
    for row in rows {
        if row.kind == Kind::Directory {
            let more = cost_of(row.size, entries_of(counts, row.number), slot);
            cost = cost.saturating_add(more);
        }
    }
    cost
}

// The blocks that a tree needs in a new volume of this version: only its directories need more or
// less there.
fn need_in(alloc: Global, told: &Told, version: u32) -> Result<u64, AllocError> {
    let rows = told.rows.as_slice();
    let counts = count_entries(alloc, rows)?;
    let counts = counts.as_slice();
    let old = cost_of_all(rows, counts, told.size, None);
    let new = cost_of_all(rows, counts, told.size, Some(new_slot(version)));
    Ok(told.need.saturating_sub(old).saturating_add(new))
}

// Refuses a tree that needs more than a volume takes.
fn check_space(alloc: Global, told: &Told, target: Target) -> Result<(), CopyFault>
    ensures { IfErr result (IsTooMuch target.limit) }
{
    let need = need_in(alloc, told, target.version)?;
    if need > target.limit {
        return Err(CopyFault::TooLarge {
            need,
            limit: target.limit,
        });
    }
    Ok(())
}

/// The names of a tree in the order in which they are made, where it fits into a new volume.
///
/// # Errors
///
/// `TooLong` of the first name that doesn't fit, `TooLarge` for want of space; `NoTree`, `Memory`.
pub fn make_plan(alloc: Global, told: Told, target: Target) -> Result<Plan, CopyFault>
    ensures planned { IfOk result (IsPlanned told) }
    ensures firsts { IfOk result (λ plan. AreFirsts plan.rows.items plan.firsts.items) }
    ensures unfit { IfErr result (IsUnfit told target) }
{
    let firsts = first_rows(alloc, told.rows.as_slice())?;
    let longest = longest_name(target.version);
    check_names(alloc, told.rows.as_slice(), firsts.as_slice(), longest)?;
    check_space(alloc, &told, target)?;
    let mut rows = told.rows;
    order(alloc, &mut rows)?;
    let firsts = first_rows(alloc, rows.as_slice())?;
    Ok(Plan { rows, firsts })
}
