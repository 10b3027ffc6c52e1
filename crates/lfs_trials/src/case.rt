//! Scripts and talks, and what is to be said of them.
use crate::order::Order;
use crate::talk::Talk;
use anyhow::Result;
use lfs_device::Left;
use std::alloc::Global;

/// What was said of a case, and what is to be said.
#[derive(Drop)]
pub struct Case<'a> {
    pub name: &'a str,
    pub lines: usize,
    pub wanted: &'a str,
    pub said: &'a [u8],
}

/// How many cases there were, how many lines they had, and how many of the cases differ.
#[derive(Clone, Copy, Default)]
pub struct Tally {
    pub cases: u32,
    pub lines: u32,
    pub differ: u32,
}

// Stands for a line that a text doesn't have.
const NO_LINE: &str = "no line";

/// The first line in which two texts differ: its number, and how each has it.
fn first_difference<'a>(wanted: &'a str, found: &'a str) -> Option<(usize, &'a str, &'a str)> {
    let mut others = found.split('\n');
    let mut number = 1usize;
    for line in wanted.split('\n') {
        let other = others.next().unwrap_or(NO_LINE);
        if line != other {
            return Some((number, line, other));
        }
        number = number.saturating_add(1);
    }
    let other = others.next()?;
    Some((number, NO_LINE, other))
}

/// Whether what was said is as wanted. Prints the first line that isn't.
fn is_well(rt: &impl Print, case: &Case<'_>) -> Result<bool> {
    let found = str::from_utf8(case.said)?;
    let Some((number, line, other)) = first_difference(case.wanted, found) else {
        return Ok(true);
    };
    println!(rt;
        "{}: line {number}: {line:?} is wanted, and not {other:?}",
        case.name
    )?;
    Ok(false)
}

/// Counts a case, its lines, and whether it differs.
pub fn count(rt: &impl Print, case: &Case<'_>, tally: &mut Tally) -> Result<()> {
    tally.cases = tally.cases.saturating_add(1);
    tally.lines = tally.lines.saturating_add(u32::try_from(case.lines)?);
    if !is_well(rt, case)? {
        tally.differ = tally.differ.saturating_add(1);
    }
    Ok(())
}
