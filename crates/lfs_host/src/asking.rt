//! The question that a person is asked before a file that has bytes is emptied.
use crate::fault::{Grouped, Refusal};
use crate::foreign::explained;
use crate::image::device_of_copy;
use lfs_device::{FileDeviceIn, World};
use lfs_fs::{Fs, FsError, InVolume, MountFault, TreeRow, find_volume};
use lfs_model::Kind;
use std::alloc::{AllocError, Global};
use std::fmt;
use std::fmt::{Display, Formatter};
use std::fs::File;
use std::io::{Read, Write};

/// The longest line of a terminal (termios(3)).
const LONGEST_ANSWER: usize = 4096;

/// What a file seems to be that has bytes.
#[derive(Clone, Copy)]
enum Seeming {
    /// A volume with so many files.
    Volume(u64),
    /// What isn't mounted, and begins as a volume does.
    Damaged,
    /// What can't be read where a volume begins.
    Unread,
    /// What begins otherwise, and has so many bytes.
    Other(u64),
}

impl Display for Seeming {
    fn fmt<W: fmt::Write>(&self, f: &mut Formatter<W>) -> fmt::Result {
        match self {
            Seeming::Volume(1) => f.write_str("a volume with 1 file"),
            Seeming::Volume(files) => write!(f, "a volume with {} files", Grouped(*files)),
            Seeming::Damaged => f.write_str("a damaged volume"),
            Seeming::Unread => f.write_str("a file that can't be read"),
            Seeming::Other(1) => f.write_str("another file of 1 byte"),
            Seeming::Other(bytes) => write!(f, "another file of {} bytes", Grouped(*bytes)),
        }
    }
}

/// The question, without a newline behind it.
#[derive(Clone, Copy)]
struct Question<'a> {
    image: &'a str,
    seeming: Seeming,
}

impl Question<'_> {
    // What is to be made over the file.
    fn object(self) -> &'static str {
        match self.seeming {
            Seeming::Volume(_) | Seeming::Damaged => "a new one",
            Seeming::Unread | Seeming::Other(_) => "a volume",
        }
    }
}

impl Display for Question<'_> {
    fn fmt<W: fmt::Write>(&self, f: &mut Formatter<W>) -> fmt::Result {
        write!(
            f,
            "lfs: {}: this seems to be {}; make {} over it? [y/N] ",
            self.image,
            self.seeming,
            self.object()
        )
    }
}

// How many files a tree with these rows has. One that has several names is one.
fn count_files(alloc: Global, rows: &[TreeRow]) -> Result<u64, AllocError> {
    let mut numbers = Vec::new(alloc);
    for row in rows {
        if row.kind == Kind::File {
            numbers.push(row.number)?;
        }
    }
    numbers.sort()?;
    numbers.dedup();
    Ok(numbers.len() as u64)
}

// What a mounted volume seems to be.
fn of_volume<Here: World>(
    alloc: Global,
    fs: &mut Fs<InVolume<FileDeviceIn<Here>>>,
) -> Result<Seeming, Refusal> {
    let rows = match fs.tree() {
        Ok(rows) => rows,
        Err(fault) => return Err(Refusal::Call(fault)),
    };
    match count_files(alloc, rows.as_slice()) {
        Ok(files) => Ok(Seeming::Volume(files)),
        Err(AllocError) => Err(Refusal::Call(FsError::NoMemory)),
    }
}

// What a file of so many bytes seems to be whose device isn't mounted for this.
fn of_refused(refusal: Refusal, len: u64) -> Result<Seeming, Refusal> {
    match refusal {
        Refusal::Foreign(_) => Ok(Seeming::Other(len)),
        Refusal::Mount(MountFault::Device) => Ok(Seeming::Unread),
        Refusal::Mount(MountFault::NoMemory) => Err(refusal),
        _ => Ok(Seeming::Damaged),
    }
}

// What a file of so many bytes seems to be. Nothing is written.
fn seeming_of<Here: World>(alloc: Global, file: &File, len: u64) -> Result<Seeming, Refusal> {
    let device = device_of_copy::<Here>(alloc, file)?;
    let found = match find_volume(device) {
        Ok(found) => found,
        Err((fault, mut device)) => return of_refused(explained(fault, &mut device), len),
    };
    match Fs::mount(alloc, found) {
        Ok(mut fs) => {
            let seeming = of_volume(alloc, &mut fs);
            // Who gives the device back has dropped the rest of the volume.
            drop(fs.into_device());
            seeming
        }
        Err((fault, refused)) => {
            let mut device = refused.into_inner();
            of_refused(explained(fault, &mut device), len)
        }
    }
}

// The next byte, none at the end of the input and where it can't be read.
fn next_byte<I: Read>(input: &mut I) -> Option<u8> {
    let mut byte = [0];
    match input.read_exact(&mut byte) {
        Ok(()) => Some(byte[0]),
        Err(_) => None,
    }
}

// Reads a line without its newline. None where it has no newline, or is longer than any of a
// terminal.
fn read_line<I: Read>(alloc: Global, input: &mut I) -> Result<Option<Vec<u8>>, AllocError> {
    let mut line = Vec::new(alloc);
    for _ in 0..LONGEST_ANSWER {
        match next_byte(input) {
            Some(b'\n') => return Ok(Some(line)),
            Some(byte) => line.push(byte)?,
            None => return Ok(None),
        }
    }
    Ok(None)
}

fn is_yes(line: &[u8]) -> bool {
    line.eq_ignore_ascii_case(b"y") || line.eq_ignore_ascii_case(b"yes")
}

// Reads the answer to a question: whether it is yes. A line of the terminal ends behind it.
fn agrees<I: Read, E: Write>(
    alloc: Global,
    input: &mut I,
    errors: &mut E,
) -> Result<bool, AllocError> {
    match read_line(alloc, input)? {
        Some(line) => Ok(is_yes(line.as_slice())),
        None => {
            let _ = errors.write_all(b"\n");
            Ok(false)
        }
    }
}

// Asks a question, and reads the answer: whether it is yes. What can't be asked isn't answered so.
fn ask<I: Read, E: Write>(
    alloc: Global,
    question: Question<'_>,
    input: &mut I,
    errors: &mut E,
) -> Result<bool, AllocError> {
    if errors.write_fmt(question).is_err() || errors.flush().is_err() {
        return Ok(false);
    }
    agrees(alloc, input, errors)
}

/// Asks whether a volume is to be made over a locked file of so many bytes, and says what the file
/// seems to be: whether the answer, a line of the input, is yes.
pub fn may_empty<Here: World, I: Read, E: Write>(
    alloc: Global,
    image: &str,
    file: &File,
    len: u64,
    input: &mut I,
    errors: &mut E,
) -> Result<bool, Refusal> {
    let seeming = seeming_of::<Here>(alloc, file, len)?;
    match ask(alloc, Question { image, seeming }, input, errors) {
        Ok(is_yes) => Ok(is_yes),
        Err(AllocError) => Err(Refusal::Call(FsError::NoMemory)),
    }
}
