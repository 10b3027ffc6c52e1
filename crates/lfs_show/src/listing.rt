//! The names in a directory, and the tree below it, for people and for scripts.
use crate::looking::Looked;
use crate::objects::put_node;
use crate::walking::{Visit, Walk, most_steps};
use lfs_device::SectorDevice;
use lfs_fs::{Fs, Stat, TreeRow};
use lfs_host::fault::{Fault, Refusal};
use lfs_host::printing::{flush, put, put_count, put_word};
use lfs_model::Kind;
use std::alloc::Global;
use std::io::Write;
use std::str;

/// How a name is written on a line.
#[derive(Clone, Copy)]
pub enum Spelling {
    /// As a word of scripts.
    Word,
    /// As it is, as people read it, if it is plain text.
    Shown,
}

/// How the names in a directory are listed.
#[derive(Clone, Copy)]
pub enum Style {
    /// One a line, a directory's with a slash behind it.
    Words(Spelling),
    /// So with the kind, the size and the links before the name, and a total.
    Long(Spelling),
    /// As they are, a zero byte behind each.
    Raw,
    /// An object of JSON for each.
    Objects,
}

// Whether a character of Unicode that controls a terminal may begin here, or one that stands for an
// escape.
fn is_control(pair: &[u8]) -> bool {
    match pair {
        [0xc2, second] => *second < 0xa0,
        [first, ..] => *first < 0x20 || *first == 0x7f || *first == b'\\',
        [] => false,
    }
}

// Whether bytes are UTF-8 that a terminal shows as it is, and that is no word of scripts with escapes.
fn is_plain(bytes: &[u8]) -> bool {
    for at in 0..bytes.len() {
        let end = at.saturating_add(2).min(bytes.len());
        if is_control(bytes.get(at..end).unwrap_or(b"")) {
            return false;
        }
    }
    str::from_utf8(bytes).is_ok()
}

// Writes bytes in a spelling.
fn put_spelt<W: Write>(output: &mut W, spelling: Spelling, bytes: &[u8]) -> Result<(), Fault> {
    match spelling {
        Spelling::Shown if is_plain(bytes) => put(output, bytes),
        Spelling::Word | Spelling::Shown => put_word(output, bytes),
    }
}

// Writes a slash behind the name of a directory.
fn put_slash<W: Write>(output: &mut W, kind: Kind) -> Result<(), Fault> {
    match kind {
        Kind::Directory => put(output, b"/"),
        Kind::File | Kind::Link => Ok(()),
    }
}

// Writes an entry's name, a directory's with a slash behind it.
fn put_name<W: Write>(output: &mut W, spelling: Spelling, row: &TreeRow) -> Result<(), Fault> {
    put_spelt(output, spelling, row.name.as_slice())?;
    put_slash(output, row.kind)
}

// Writes an entry with its size, so deep in the tree.
fn put_entry<W: Write>(
    output: &mut W,
    spelling: Spelling,
    row: &TreeRow,
    depth: usize,
) -> Result<(), Fault> {
    for _ in 0..depth {
        put(output, b"  ")?;
    }
    put_name(output, spelling, row)?;
    put_count(output, b"  ", row.size)?;
    put(output, b"\n")
}

// Prints what is below a directory, those of a directory behind its own.
fn put_below<W: Write>(
    alloc: Global,
    output: &mut W,
    spelling: Spelling,
    rows: &[TreeRow],
    directory: u32,
) -> Result<(), Fault> {
    let mut walk = Walk::new(alloc, rows, directory)?;
    for _ in 0..most_steps(rows) {
        let depth = walk.depth();
        match walk.step(rows)? {
            Visit::Entry(row) => put_entry(output, spelling, row, depth)?,
            Visit::Left => {}
            Visit::Done => break,
        }
    }
    flush(output)
}

/// The bytes of a path before the slashes that end it.
pub fn trimmed(path: &[u8]) -> &[u8] {
    match path.iter().rposition(|byte| *byte != b'/') {
        Some(last) => &path[..last + 1],
        None => b"",
    }
}

// Writes a path without the slashes that end it, nothing for the root.
fn put_path<W: Write>(output: &mut W, spelling: Spelling, path: &[u8]) -> Result<(), Fault> {
    let path = trimmed(path);
    if path.is_empty() {
        Ok(())
    } else {
        put_spelt(output, spelling, path)
    }
}

// Prints the tree below a path, indented, with sizes in bytes.
fn put_tree<D: SectorDevice, W: Write>(
    alloc: Global,
    fs: &mut Fs<D>,
    spelling: Spelling,
    directory: u32,
    path: &[u8],
    output: &mut W,
) -> Result<Looked, Fault> {
    match fs.tree() {
        Ok(rows) => {
            put_path(output, spelling, path)?;
            put(output, b"/\n")?;
            put_below(alloc, output, spelling, rows.as_slice(), directory)?;
            Ok(Looked::Done)
        }
        Err(refusal) => Ok(Looked::Refused(Refusal::Call(refusal))),
    }
}

// Prints what is no directory, as the whole of its tree.
fn put_leaf<W: Write>(
    spelling: Spelling,
    stat: Stat,
    path: &[u8],
    output: &mut W,
) -> Result<Looked, Fault> {
    put_spelt(output, spelling, path)?;
    put_count(output, b"  ", stat.size)?;
    put(output, b"\n")?;
    flush(output)?;
    Ok(Looked::Done)
}

/// Prints the tree below a path, indented, with sizes in bytes.
pub fn tree<D: SectorDevice, W: Write>(
    alloc: Global,
    fs: &mut Fs<D>,
    spelling: Spelling,
    path: &[u8],
    output: &mut W,
) -> Result<Looked, Fault> {
    match fs.stat(path) {
        Ok(stat) => match stat.kind {
            Kind::Directory => put_tree(alloc, fs, spelling, stat.number, path, output),
            Kind::File | Kind::Link => put_leaf(spelling, stat, path, output),
        },
        Err(refusal) => Ok(Looked::Refused(Refusal::Call(refusal))),
    }
}

// The word of a kind, with spaces behind it.
fn kind_column(kind: Kind) -> &'static [u8] {
    match kind {
        Kind::File => b"file",
        Kind::Directory => b"dir ",
        Kind::Link => b"link",
    }
}

/// The columns before the last digit of the size of a file: a number below one of these leaves the
/// first of them free.
const SIZE_COLUMNS: &[u64] = &[1_000_000, 100_000, 10_000, 1_000, 100, 10];

/// The same of a number of links.
const LINKS_COLUMNS: &[u64] = &[1_000, 100, 10];

// Writes a number at the end of its columns, a space before it.
fn put_aligned<W: Write>(output: &mut W, columns: &[u64], number: u64) -> Result<(), Fault> {
    for column in columns {
        if number < *column {
            put(output, b" ")?;
        }
    }
    put_count(output, b" ", number)
}

// Writes what a long line has before the name.
fn put_columns<W: Write>(output: &mut W, kind: Kind, size: u64, links: u32) -> Result<(), Fault> {
    put(output, kind_column(kind))?;
    put_aligned(output, SIZE_COLUMNS, size)?;
    put_aligned(output, LINKS_COLUMNS, u64::from(links))?;
    put(output, b"  ")
}

// Writes where a link leads to.
fn put_target<W: Write>(output: &mut W, spelling: Spelling, row: &TreeRow) -> Result<(), Fault> {
    match row.kind {
        Kind::Link => {
            put(output, b" -> ")?;
            put_spelt(output, spelling, row.head.as_slice())
        }
        Kind::Directory | Kind::File => Ok(()),
    }
}

// Ends what is written in a style.
fn put_end<W: Write>(output: &mut W, style: Style) -> Result<(), Fault> {
    match style {
        Style::Words(_) | Style::Long(_) => put(output, b"\n"),
        Style::Raw => put(output, b"\0"),
        Style::Objects => Ok(()),
    }
}

// The text of an entry that is a link.
fn target_of(row: &TreeRow) -> Option<&[u8]> {
    match row.kind {
        Kind::Link => Some(row.head.as_slice()),
        Kind::Directory | Kind::File => None,
    }
}

// Writes an entry as an object.
fn put_object<W: Write>(alloc: Global, output: &mut W, row: &TreeRow) -> Result<(), Fault> {
    let stat = Stat {
        number: row.number,
        kind: row.kind,
        links: row.links,
        size: row.size,
    };
    put_node(alloc, output, row.name.as_slice(), stat, target_of(row))
}

// Writes an entry in a style.
fn put_row<W: Write>(
    alloc: Global,
    output: &mut W,
    style: Style,
    row: &TreeRow,
) -> Result<(), Fault> {
    match style {
        Style::Words(spelling) => put_name(output, spelling, row)?,
        Style::Long(spelling) => {
            put_columns(output, row.kind, row.size, row.links)?;
            put_name(output, spelling, row)?;
            put_target(output, spelling, row)?;
        }
        Style::Raw => put(output, row.name.as_slice())?,
        Style::Objects => put_object(alloc, output, row)?,
    }
    put_end(output, style)
}

// Writes the bytes of the files in a directory, and how many entries it has.
fn put_total<W: Write>(output: &mut W, rows: &[TreeRow], directory: u32) -> Result<(), Fault> {
    let mut entries: u64 = 0;
    let mut bytes: u64 = 0;
    for row in rows {
        if row.directory == directory {
            entries = entries.saturating_add(1);
            if row.kind == Kind::File {
                bytes = bytes.saturating_add(row.size);
            }
        }
    }
    put_count(output, b"total ", bytes)?;
    put_count(output, b" bytes, entries ", entries)?;
    put(output, b"\n")
}

// Writes the entries of a directory in a style.
fn put_rows<W: Write>(
    alloc: Global,
    output: &mut W,
    style: Style,
    rows: &[TreeRow],
    directory: u32,
) -> Result<(), Fault> {
    for row in rows {
        if row.directory == directory {
            put_row(alloc, output, style, row)?;
        }
    }
    match style {
        Style::Long(_) => put_total(output, rows, directory)?,
        Style::Words(_) | Style::Raw | Style::Objects => {}
    }
    flush(output)
}

// Prints the names in a directory.
fn list_directory<D: SectorDevice, W: Write>(
    alloc: Global,
    fs: &mut Fs<D>,
    style: Style,
    directory: u32,
    output: &mut W,
) -> Result<Looked, Fault> {
    match fs.tree() {
        Ok(rows) => {
            put_rows(alloc, output, style, rows.as_slice(), directory)?;
            Ok(Looked::Done)
        }
        Err(refusal) => Ok(Looked::Refused(Refusal::Call(refusal))),
    }
}

// Writes a path that is no directory's, in a style.
fn put_single<W: Write>(
    alloc: Global,
    output: &mut W,
    style: Style,
    stat: Stat,
    path: &[u8],
) -> Result<(), Fault> {
    match style {
        Style::Words(spelling) => put_spelt(output, spelling, path)?,
        Style::Long(spelling) => {
            put_columns(output, stat.kind, stat.size, stat.links)?;
            put_spelt(output, spelling, path)?;
        }
        Style::Raw => put(output, path)?,
        Style::Objects => put_node(alloc, output, path, stat, None)?,
    }
    put_end(output, style)
}

// Prints a path that is no directory's.
fn list_single<W: Write>(
    alloc: Global,
    style: Style,
    stat: Stat,
    path: &[u8],
    output: &mut W,
) -> Result<Looked, Fault> {
    put_single(alloc, output, style, stat, path)?;
    flush(output)?;
    Ok(Looked::Done)
}

/// Prints the names in a directory, or a path that is none's.
pub fn list<D: SectorDevice, W: Write>(
    alloc: Global,
    fs: &mut Fs<D>,
    style: Style,
    path: &[u8],
    output: &mut W,
) -> Result<Looked, Fault> {
    match fs.stat(path) {
        Ok(stat) => match stat.kind {
            Kind::Directory => list_directory(alloc, fs, style, stat.number, output),
            Kind::File | Kind::Link => list_single(alloc, style, stat, path, output),
        },
        Err(refusal) => Ok(Looked::Refused(Refusal::Call(refusal))),
    }
}
