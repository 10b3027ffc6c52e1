//! The removal of what stands at paths, and directories that are made with those above them.
use lfs_device::SectorDevice;
use lfs_fs::path::text::is_dots;
use lfs_fs::{Fs, FsError, TreeRow};
use lfs_model::{FileNumber, Kind};
use lfs_put::{above_len, remove_unsaved};
use lfs_show::listing::trimmed;
use lfs_show::walking::{Visit, Walk, go_down, go_up, most_steps};
use std::alloc::Global;

/// The number of the root.
const ROOT: u32 = FileNumber::ROOT.value as u32;

/// Whether the last piece of a path is dot or dot-dot.
pub fn ends_in_dots(path: &[u8]) -> bool {
    let path = trimmed(path);
    is_dots(path.get(above_len(path)..).unwrap_or(b""))
}

// Removes an entry that is no directory. One that is comes to its end later.
fn remove_entry<D: SectorDevice>(
    fs: &mut Fs<D>,
    path: &mut Vec<u8>,
    row: &TreeRow,
) -> Result<(), FsError> {
    go_down(path, row.name.as_slice())?;
    match row.kind {
        Kind::Directory => {}
        Kind::File | Kind::Link => {
            fs.unlink(path.as_slice())?;
            go_up(path);
        }
    }
    Ok(())
}

// Removes all that is below a directory, by all rows of the tree, and then the directory.
fn remove_rows<D: SectorDevice>(
    alloc: Global,
    fs: &mut Fs<D>,
    path: &mut Vec<u8>,
    rows: &[TreeRow],
    directory: u32,
) -> Result<(), FsError> {
    let mut walk = Walk::new(alloc, rows, directory)?;
    for _ in 0..most_steps(rows) {
        match walk.step(rows)? {
            Visit::Entry(row) => remove_entry(fs, path, row)?,
            Visit::Left => {
                fs.rmdir(path.as_slice())?;
                go_up(path);
            }
            Visit::Done => break,
        }
    }
    Ok(())
}

// Removes a directory with all that is below it. The root and what ends in dots are refused before
// anything is removed.
fn remove_directory<D: SectorDevice>(
    alloc: Global,
    fs: &mut Fs<D>,
    path: &[u8],
    directory: u32,
) -> Result<(), FsError> {
    if directory == ROOT {
        return Err(FsError::Busy);
    }
    if ends_in_dots(path) {
        return Err(FsError::Inval);
    }
    let rows = fs.tree()?;
    let mut below = Vec::new(alloc);
    below.extend_from_slice(trimmed(path))?;
    remove_rows(alloc, fs, &mut below, rows.as_slice(), directory)
}

/// Removes what stands at a path, a directory with all that is below it. Nothing is saved.
pub fn remove_below<D: SectorDevice>(
    alloc: Global,
    fs: &mut Fs<D>,
    path: &[u8],
) -> Result<(), FsError> {
    let stat = fs.lstat(path)?;
    match stat.kind {
        Kind::Directory => remove_directory(alloc, fs, path, stat.number),
        Kind::File | Kind::Link => remove_unsaved(fs, path),
    }
}

// Makes a directory of the first bytes of a path, if they end a piece. One that is there is taken.
fn make_until<D: SectorDevice>(fs: &mut Fs<D>, path: &[u8], end: usize) -> Result<(), FsError> {
    let piece = path.get(..end).unwrap_or(b"");
    let ends_here = matches!(path.get(end), None | Some(b'/'));
    if !ends_here || piece.ends_with(b"/") {
        return Ok(());
    }
    match fs.mkdir(piece) {
        Ok(()) | Err(FsError::Exist) => Ok(()),
        Err(refusal) => Err(refusal),
    }
}

// Makes a directory at a path and those above it, and takes what is there.
fn make_pieces<D: SectorDevice>(fs: &mut Fs<D>, path: &[u8]) -> Result<(), FsError> {
    for end in 0..path.len() {
        make_until(fs, path, end.saturating_add(1))?;
    }
    Ok(())
}

/// Makes a directory at a path and those above it, where they aren't there. Nothing is saved.
pub fn make_with_parents<D: SectorDevice>(fs: &mut Fs<D>, path: &[u8]) -> Result<(), FsError> {
    make_pieces(fs, path)?;
    match fs.stat(path)?.kind {
        Kind::Directory => Ok(()),
        Kind::File | Kind::Link => Err(FsError::Exist),
    }
}
