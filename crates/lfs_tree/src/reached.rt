//! Stage 12: each number but the root's is named, the root's isn't, and each other directory is
//! named once and reached from the root.
ghost use Rattle.std.specs.Prelude.{◌≡◌, ◌≤◌, ◌↔◌, IfOk, IsTrue};
ghost use Rattle.lfs_tree.specs.Naming.{leads};
ghost use Rattle.lfs_tree.specs.Reaching.{AllClimb, AreNamesFit, FitsNames, Marked, MarksDirectory, MarksUp};

use crate::headers::Headers;
use crate::marks::Marks;
use crate::slots::is_directory;
use crate::tables::NameTables;
use lfs_files::Header;
use lfs_model::FileNumber;
use lfs_model::limits::FILE_NUMBERS;
use std::alloc::{AllocError, Global};

/// Whether what stands at a number is named as often as it may be.
fn is_named(found: Option<Header>, number: u16, count: u16) -> bool
    ensures { IsTrue result ↔ FitsNames found number count }
{
    let Some(header) = found else {
        return true;
    };
    if number == FileNumber::ROOT.value {
        return count == 0;
    }
    if is_directory(header) {
        return count == 1;
    }
    count != 0
}

/// Whether each number is named as often as it may be.
fn are_named(headers: &Headers, tables: &NameTables) -> bool
    ensures { IsTrue result ↔ AreNamesFit headers.now tables.now }
{
    for number in 0..FILE_NUMBERS {
        if !is_named(headers.get(number), number, tables.count(number)) {
            return false;
        }
    }
    true
}

/// Marks a number and all on the way up from it, as far as they have no mark, with this number:
/// false where the way leads back into itself. Numbers with marks come to the root, and their marks
/// are less.
fn climb(tables: &NameTables, marks: &mut Marks, start: FileNumber) -> bool
    requires { 2 ≤ start.value }
    ensures { Marked tables.now.up marks.old start.value
        → MarksUp tables.now.up marks.new start.value result }
{
    let mut at = start.value;
    while marks.get(at) == 0 {
        marks.set(at, start.value);
        at = tables.up(at);
    }
    marks.get(at) != start.value
}

/// The same of a number where a directory stands; others are passed by.
fn climb_directory(
    headers: &Headers,
    tables: &NameTables,
    marks: &mut Marks,
    number: FileNumber,
) -> bool
    requires { 2 ≤ number.value }
    ensures { Marked tables.now.up marks.old number.value
        → MarksDirectory headers.now tables.now.up marks.new number.value result }
{
    if !leads(headers, number) {
        return true;
    }
    climb(tables, marks, number)
}

/// Whether one comes from each directory to the root, by going up. It goes once from each.
///
/// # Errors
///
/// Where memory runs out.
fn all_climb(alloc: Global, headers: &Headers, tables: &NameTables) -> Result<bool, AllocError>
    ensures { IfOk result (λ all. IsTrue all ↔ AllClimb headers.now tables.now.up) }
{
    let mut marks = Marks::new(alloc)?;
    for number in 2..FILE_NUMBERS {
        let number = FileNumber { value: number };
        if !climb_directory(headers, tables, &mut marks, number) {
            return Ok(false);
        }
    }
    Ok(true)
}

/// Whether a directory stands at a number.
fn leads(headers: &Headers, number: FileNumber) -> bool
    ensures { result ≡ leads headers.now number.value }
{
    match headers.get(number.value) {
        Some(header) => is_directory(header),
        None => false,
    }
}

/// Whether numbers are named as they may be, and directories are reached: false where the stage
/// fails.
///
/// # Errors
///
/// Where memory runs out.
pub fn stage_reached(
    alloc: Global,
    headers: &Headers,
    tables: &NameTables,
) -> Result<bool, AllocError>
    ensures { IfOk result (λ holds. IsTrue holds ↔
        (AreNamesFit headers.now tables.now × AllClimb headers.now tables.now.up)) }
{
    if !are_named(headers, tables) {
        return Ok(false);
    }
    all_climb(alloc, headers, tables)
}
