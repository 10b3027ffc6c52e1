//! Commands that look at a mounted volume, over its calls alone.
use crate::copying::get_file;
use crate::describing::{describe, describe_object};
use crate::exporting::export;
use crate::free::{put_free, put_free_object};
use crate::listing::{Spelling, Style, list, tree};
use crate::objects::{Object, put_node};
use crate::unfinished::Unfinished;
use lfs_device::SectorDevice;
use lfs_fs::{Fs, Space, TreeRow};
use lfs_host::fault::{Ending, Fault, Refusal, Stop};
use lfs_host::printing::{flush, print, put, put_count, put_word, refuse, refuse_at};
use lfs_model::Kind;
use lfs_model::limits::NEED_OF_SEGMENT;
use lfs_put::{GetFault, get};
use lfs_replies::{Answer, put_reply};
use lfs_streams::WriteCount;
use lfs_words::{WordFault, read_escaped};
use std::alloc::{AllocError, Global};
use std::fs::File;
use std::io::Write;
use std::rt::Files;

/// What is looked at. Its paths stand apart.
#[derive(Clone, Copy)]
pub enum Look<'a> {
    /// The segments and the space, as an object of JSON or not.
    Check { json: bool },
    /// The tree, as a script's reply.
    Mount,
    /// The tree below a path, for people.
    Tree(Spelling),
    /// The names in a directory, or a file's own.
    List(Style),
    /// The bytes of files.
    Cat,
    /// What stands at paths, as objects of JSON or for people.
    Stat { json: bool },
    /// The bytes of a file, which go to a new file of the host with this name.
    Get(&'a str),
    /// All below a path, which goes to a new folder of the host with this name.
    Export(&'a str),
    /// The space and the segments, as an object of JSON or for people.
    Info { json: bool },
    /// How much is used and free, for people, in bytes that are rounded or not.
    Free { human: bool },
    /// The same as an object of JSON.
    FreeObject,
}

impl Look<'_> {
    /// Whether it makes a file or a folder of the host.
    pub fn makes_something(self) -> bool {
        matches!(self, Look::Get(_) | Look::Export(_))
    }
}

/// The path that is looked at where none is given.
const ROOT_PATH: &[u8] = b"/";

/// What is looked at, and the bytes of its paths.
#[derive(Clone, Copy)]
pub struct Asked<'a> {
    pub look: Look<'a>,
    pub paths: &'a [Vec<u8>],
}

impl<'a> Asked<'a> {
    // Its first path, or the root.
    fn path(self) -> &'a [u8] {
        match self.paths.first() {
            Some(path) => path.as_slice(),
            None => ROOT_PATH,
        }
    }
}

/// How a look ends.
#[derive(Clone, Copy)]
pub enum Looked {
    Done,
    /// Nothing was printed that counts.
    Refused(Refusal),
    /// The same, for the path at this place.
    RefusedAt(Refusal, usize),
    /// A beginning was printed, as of a file, and the path at this place was refused.
    Broken(Refusal, usize),
    /// It was done but for what the host can't have.
    Partial,
}

impl Looked {
    /// Whether it may have come of what another program writes meanwhile.
    pub fn is_doubtful(self) -> bool {
        match self {
            Looked::Done | Looked::Partial => false,
            Looked::Refused(refusal) => refusal.is_doubtful(),
            Looked::RefusedAt(refusal, _) | Looked::Broken(refusal, _) => refusal.is_doubtful(),
        }
    }
}

/// Prints the line of a look that is refused. Behind a beginning it would be a part of that.
pub fn end_look<W: Write>(looked: Looked, output: &mut W) -> Result<Ending, Fault> {
    match looked {
        Looked::Done => Ok(Ending::Done),
        Looked::Partial => Ok(Ending::Partial),
        Looked::Refused(refusal) => refuse(output, refusal),
        Looked::RefusedAt(refusal, at) => refuse_at(output, refusal, at),
        Looked::Broken(refusal, at) => Ok(Ending::RefusedAt(refusal, at)),
    }
}

// Prints the reply that has these rows.
fn put_rows<W: Write>(rows: Vec<TreeRow>, output: &mut W) -> Result<(), Fault> {
    match put_reply(output, &mut WriteCount::new(), &Ok(Answer::Tree(rows))) {
        Ok(()) => flush(output),
        Err(_) => Err(Fault::Output),
    }
}

// Prints a volume's tree as a script's reply.
pub fn show<D: SectorDevice, W: Write>(fs: &mut Fs<D>, output: &mut W) -> Result<Looked, Fault> {
    match fs.tree() {
        Ok(rows) => {
            put_rows(rows, output)?;
            Ok(Looked::Done)
        }
        Err(refusal) => Ok(Looked::Refused(Refusal::Call(refusal))),
    }
}

fn put_space<W: Write>(space: &Space, output: &mut W) -> Result<(), Fault> {
    put_count(output, b"ok ", space.limit / NEED_OF_SEGMENT)?;
    let counts = [
        space.data_blocks,
        space.meta_blocks,
        space.need,
        space.limit,
    ];
    for count in counts {
        put_count(output, b" ", count)?;
    }
    print(output, "\n")
}

// Prints the same as an object.
fn put_space_object<W: Write>(alloc: Global, space: &Space, output: &mut W) -> Result<(), Fault> {
    let mut object = Object::new(alloc)?;
    object.numbers(&[
        ("segments", space.limit / NEED_OF_SEGMENT),
        ("data_blocks", space.data_blocks),
        ("meta_blocks", space.meta_blocks),
        ("need", space.need),
        ("limit", space.limit),
    ])?;
    object.put(output)?;
    flush(output)
}

// Prints the number of segments and the space of a volume.
fn check<D: SectorDevice, W: Write>(
    alloc: Global,
    fs: &mut Fs<D>,
    json: bool,
    output: &mut W,
) -> Result<Looked, Fault> {
    match fs.space() {
        Ok(space) => {
            if json {
                put_space_object(alloc, &space, output)?;
            } else {
                put_space(&space, output)?;
            }
            Ok(Looked::Done)
        }
        Err(refusal) => Ok(Looked::Refused(Refusal::Call(refusal))),
    }
}

// Ends the printing of files, behind so many bytes, since the one at this place was refused.
fn end_cat<W: Write>(
    fault: GetFault,
    bytes: u64,
    at: usize,
    output: &mut W,
) -> Result<Looked, Fault> {
    match fault {
        GetFault::Call(refusal) if bytes == 0 => {
            Ok(Looked::RefusedAt(Refusal::Call(refusal), at))
        }
        GetFault::Call(refusal) | GetFault::CutShort(refusal) => {
            flush(output).map(|()| Looked::Broken(Refusal::Call(refusal), at))
        }
        GetFault::Output => Err(Fault::Output),
    }
}

// Prints the bytes of files, one behind another.
fn cat<D: SectorDevice, W: Write>(
    fs: &mut Fs<D>,
    paths: &[Vec<u8>],
    output: &mut W,
) -> Result<Looked, Fault> {
    let mut bytes: u64 = 0;
    for (at, path) in paths.iter().enumerate() {
        match get(fs, path.as_slice(), output) {
            Ok(count) => bytes = bytes.saturating_add(count),
            Err(fault) => return end_cat(fault, bytes, at, output),
        }
    }
    flush(output).map(|()| Looked::Done)
}

// The word of a kind.
fn kind_word(kind: Kind) -> &'static [u8] {
    match kind {
        Kind::File => b": file, number ",
        Kind::Directory => b": dir, number ",
        Kind::Link => b": link, number ",
    }
}

// Writes where the link of a path leads to.
fn put_target<D: SectorDevice, W: Write>(
    fs: &mut Fs<D>,
    path: &[u8],
    output: &mut W,
) -> Result<(), Stop> {
    let text = fs.readlink(path)?;
    put(output, b" -> ")?;
    put_word(output, text.as_slice())?;
    Ok(())
}

// Writes a line of what stands at a path. A link that ends it is told itself, with its text.
fn put_stat<D: SectorDevice, W: Write>(
    fs: &mut Fs<D>,
    path: &[u8],
    output: &mut W,
) -> Result<(), Stop> {
    let stat = fs.lstat(path)?;
    put_word(output, path)?;
    if stat.kind == Kind::Link {
        put_target(fs, path, output)?;
    }
    put_count(output, kind_word(stat.kind), u64::from(stat.number))?;
    put_count(output, b", links ", u64::from(stat.links))?;
    put_count(output, b", size ", stat.size)?;
    put(output, b"\n")?;
    Ok(())
}

// Writes the same as an object.
fn put_stat_object<D: SectorDevice, W: Write>(
    alloc: Global,
    fs: &mut Fs<D>,
    path: &[u8],
    output: &mut W,
) -> Result<(), Stop> {
    let stat = fs.lstat(path)?;
    if stat.kind == Kind::Link {
        let text = fs.readlink(path)?;
        put_node(alloc, output, path, stat, Some(text.as_slice()))?;
    } else {
        put_node(alloc, output, path, stat, None)?;
    }
    Ok(())
}

// Prints a line for each path, or an object.
fn stat_each<D: SectorDevice, W: Write>(
    alloc: Global,
    fs: &mut Fs<D>,
    paths: &[Vec<u8>],
    json: bool,
    output: &mut W,
) -> Result<Looked, Fault> {
    for (at, path) in paths.iter().enumerate() {
        let put = if json {
            put_stat_object(alloc, fs, path.as_slice(), output)
        } else {
            put_stat(fs, path.as_slice(), output)
        };
        match put {
            Ok(()) => {}
            Err(Stop::Refused(refusal)) => return Ok(Looked::RefusedAt(refusal, at)),
            Err(Stop::Fault(fault)) => return Err(fault),
        }
    }
    flush(output).map(|()| Looked::Done)
}

// The bytes of a path that are those of its word.
fn plain_path(alloc: Global, word: &str) -> Result<Vec<u8>, Fault> {
    let mut path = Vec::new(alloc);
    path.extend_from_slice(word.as_bytes())?;
    Ok(path)
}

// The bytes of a path by its word: its own bytes, or as a word of scripts where it has a
// backslash.
fn read_path(alloc: Global, word: &str) -> Result<Vec<u8>, Fault> {
    if !word.as_bytes().contains(&b'\\') {
        return plain_path(alloc, word);
    }
    match read_escaped(alloc, word.as_bytes()) {
        Ok(path) => Ok(path),
        Err(WordFault::Memory) => Err(Fault::Memory(AllocError)),
        Err(WordFault::Spelling) => Err(Fault::of_path(alloc, word)),
    }
}

/// The bytes of paths by their words.
pub fn read_paths(alloc: Global, words: &[&str]) -> Result<Vec<Vec<u8>>, Fault> {
    let mut paths = Vec::new(alloc);
    for word in words {
        paths.push(read_path(alloc, word)?)?;
    }
    Ok(paths)
}

/// Looks at a mounted volume. What it makes on the host stands under its other name then.
pub fn look_at<D: SectorDevice, R: Files<File = File>, W: Write>(
    rt: &R,
    alloc: Global,
    fs: &mut Fs<D>,
    asked: Asked<'_>,
    product: &mut Unfinished<'_>,
    output: &mut W,
) -> Result<Looked, Fault> {
    match asked.look {
        Look::Check { json } => check(alloc, fs, json, output),
        Look::Mount => show(fs, output),
        Look::Tree(spelling) => tree(alloc, fs, spelling, asked.path(), output),
        Look::List(style) => list(alloc, fs, style, asked.path(), output),
        Look::Cat => cat(fs, asked.paths, output),
        Look::Stat { json } => stat_each(alloc, fs, asked.paths, json, output),
        Look::Get(_) => get_file(rt, alloc, fs, asked.path(), product, output),
        Look::Export(_) => export(rt, alloc, fs, asked.path(), product, output),
        Look::Info { json: false } => describe(fs, output),
        Look::Info { json: true } => describe_object(alloc, fs, output),
        Look::Free { human } => put_free(fs, human, output),
        Look::FreeObject => put_free_object(alloc, fs, output),
    }
}
