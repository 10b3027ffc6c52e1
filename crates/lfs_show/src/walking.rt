//! A walk over the rows of a tree, in which those of a directory stand behind its own.
use lfs_fs::TreeRow;
use lfs_model::Kind;
use std::alloc::{AllocError, Global};

/// A directory whose entries are gone through, and the row of its next entry.
#[derive(Clone, Copy)]
struct Level {
    directory: u32,
    next: usize,
}

// The rows of a directory, which stand together: they are ordered by the number of the directory.
fn level_of(rows: &[TreeRow], directory: u32) -> Level {
    let next = rows.partition_point(|row| row.directory < directory);
    Level { directory, next }
}

// The next entry of a directory, if it has one more.
fn next_entry(rows: &[TreeRow], level: Level) -> Option<&TreeRow> {
    match rows.get(level.next) {
        Some(row) if row.directory == level.directory => Some(row),
        _ => None,
    }
}

/// What a walk comes to.
#[derive(Clone, Copy)]
pub enum Visit<'a> {
    /// An entry. Where it is a directory's, those of that directory come next.
    Entry(&'a TreeRow),
    /// The end of a directory.
    Left,
    Done,
}

/// A walk over all that is below a directory.
#[derive(Drop)]
pub struct Walk {
    levels: Vec<Level>,
}

impl Walk {
    pub fn new(alloc: Global, rows: &[TreeRow], directory: u32) -> Result<Walk, AllocError> {
        let mut levels = Vec::new(alloc);
        levels.push(level_of(rows, directory))?;
        Ok(Walk { levels })
    }

    /// How many directories it is in, that of the walk with them.
    pub fn depth(&self) -> usize {
        self.levels.len()
    }

    // Goes on behind an entry of a directory.
    fn go_on(&mut self, rows: &[TreeRow], level: Level, row: &TreeRow) -> Result<(), AllocError> {
        self.levels.push(Level {
            directory: level.directory,
            next: level.next.saturating_add(1),
        })?;
        match row.kind {
            Kind::Directory => self.levels.push(level_of(rows, row.number))?,
            Kind::File | Kind::Link => {}
        }
        Ok(())
    }

    /// Goes on by one entry, or to the end of a directory.
    pub fn step<'a>(&mut self, rows: &'a [TreeRow]) -> Result<Visit<'a>, AllocError> {
        let Some(level) = self.levels.pop() else {
            return Ok(Visit::Done);
        };
        let Some(row) = next_entry(rows, level) else {
            return Ok(Visit::Left);
        };
        self.go_on(rows, level, row)?;
        Ok(Visit::Entry(row))
    }

    /// Leaves out what is below the directory that was come to.
    pub fn skip(&mut self) {
        let _ = self.levels.pop();
    }
}

/// Makes the path of a directory that of an entry in it.
pub fn go_down(path: &mut Vec<u8>, name: &[u8]) -> Result<(), AllocError> {
    path.push(b'/')?;
    path.extend_from_slice(name)?;
    Ok(())
}

/// Makes the path of an entry that of the directory that has it.
pub fn go_up(path: &mut Vec<u8>) {
    let above = path.iter().rposition(|byte| *byte == b'/');
    path.truncate(above.unwrap_or(0));
}

/// The most steps that a walk over these rows takes: one to each row, and one to the end of each
/// directory.
pub fn most_steps(rows: &[TreeRow]) -> usize {
    rows.len().saturating_mul(2).saturating_add(1)
}
