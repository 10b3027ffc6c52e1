//! The commands that put a file into a volume, from standard input or from a file of the host.
use crate::appending::append_from;
use crate::many::{put_each, put_folder};
use crate::removing::ends_in_dots;
use lfs_device::{SectorDevice, World};
use lfs_fs::{Fs, FsError};
use lfs_grammar::{Names, Source};
use lfs_host::fault::{Ending, Explanation, Fault, Refusal};
use lfs_host::host::HostFault;
use lfs_host::image::end_caused;
use lfs_host::printing::{print_copied, refuse};
use lfs_host::{host, image};
use lfs_model::limits::SECTOR_LEN;
use lfs_put::{PutFault, check_place, put};
use lfs_show::free::refusal_of;
use lfs_show::looking::read_paths;
use std::alloc::{AllocGlobal, Global};
use std::fs::File;
use std::io::{Read, Write};
use std::rt::Files;
use std::time::Clock;

/// The word for standard input in the place of a file of the host.
pub const STANDARD_INPUT: &str = "-";

/// What people are told who give no file at a terminal.
const NO_FILE: &str =
    "lfs: put has no FILE, and standard input is a terminal; say one of\n  lfs put IMAGE PATH FILE\n  ... | lfs put IMAGE PATH -";

// The refusal of a put at a path, with what people are told of it.
fn refusal_of_put<D: SectorDevice>(fs: &mut Fs<D>, path: &[u8], fault: FsError) -> Refusal {
    match fault {
        FsError::NoEntry if !path.is_empty() => Refusal::Explained(fault, Explanation::NoParent),
        FsError::Busy => Refusal::Explained(fault, Explanation::Root),
        FsError::Inval if ends_in_dots(path) => Refusal::Explained(fault, Explanation::Dots),
        fault => refusal_of(fs, fault),
    }
}

/// Ends a put: prints the number of bytes, or the line of a refusal.
pub fn end_put<D: SectorDevice, W: Write>(
    fs: &mut Fs<D>,
    path: &[u8],
    done: Result<u64, PutFault>,
    output: &mut W,
) -> Result<Ending, Fault> {
    match done {
        Ok(count) => {
            print_copied(output, count)?;
            Ok(Ending::Done)
        }
        Err(PutFault::Call(fault)) => refuse(output, refusal_of_put(fs, path, fault)),
        Err(PutFault::Unfinished) => refuse(output, Refusal::Unfinished),
        Err(PutFault::Input) => Err(Fault::Input),
        Err(PutFault::Memory(fault)) => Err(Fault::Memory(fault)),
    }
}

// Puts all bytes of an open file of the host.
fn put_open<D: SectorDevice, W: Write>(
    alloc: Global,
    fs: &mut Fs<D>,
    path: &[u8],
    name: &str,
    mut file: File,
    output: &mut W,
) -> Result<Ending, Fault> {
    match put(alloc, fs, path, &mut file) {
        Err(PutFault::Input) => Err(Fault::of_host(alloc, name, HostFault::Unread)),
        done => end_put(fs, path, done, output),
    }
}

// Puts a file of the host.
fn put_file<D: SectorDevice, R: Files<File = File>, W: Write>(
    rt: &R,
    alloc: Global,
    fs: &mut Fs<D>,
    path: &[u8],
    name: &str,
    output: &mut W,
) -> Result<Ending, Fault> {
    match host::open_file(rt, name) {
        Ok(file) => put_open(alloc, fs, path, name, file, output),
        Err(fault) => Err(Fault::of_host(alloc, name, fault)),
    }
}

// Puts what a reader gives, which may be nothing.
fn put_input<D: SectorDevice, I: Read, W: Write>(
    alloc: Global,
    fs: &mut Fs<D>,
    path: &[u8],
    input: &mut I,
    output: &mut W,
) -> Result<Ending, Fault> {
    let done = put(alloc, fs, path, input);
    end_put(fs, path, done, output)
}

// Puts what a reader gives, where that is something. A whole block is read first: what is written
// behind it begins with a block too.
fn put_some_input<D: SectorDevice, I: Read, W: Write>(
    alloc: Global,
    fs: &mut Fs<D>,
    path: &[u8],
    input: &mut I,
    output: &mut W,
) -> Result<Ending, Fault> {
    let mut first = [0; SECTOR_LEN];
    match input.read(&mut first) {
        Ok(0) => refuse(output, Refusal::NoInput),
        Ok(count) => put_input(alloc, fs, path, &mut first[..count].chain(input), output),
        Err(_) => Err(Fault::Input),
    }
}

// Puts a file of the host, or standard input. The path is looked at before either, and both are
// before the volume is changed.
fn put_from<D: SectorDevice, R: Files<File = File>, I: Read, W: Write>(
    rt: &R,
    alloc: Global,
    fs: &mut Fs<D>,
    path: &[u8],
    file: Option<&str>,
    input: &mut I,
    output: &mut W,
) -> Result<Ending, Fault> {
    match check_place(alloc, fs, path) {
        Ok(()) => {}
        Err(fault) => return end_put(fs, path, Err(fault), output),
    }
    match file {
        Some(STANDARD_INPUT) => put_input(alloc, fs, path, input, output),
        Some(name) => put_file(rt, alloc, fs, path, name, output),
        None => put_some_input(alloc, fs, path, input, output),
    }
}

// The fault of a command line without FILE, where nobody may have meant standard input.
fn unnamed_terminal(alloc: Global) -> Fault {
    match NO_FILE.to_string(alloc) {
        Ok(text) => Fault::Line(text),
        Err(error) => Fault::Memory(error),
    }
}

// Puts what is asked for into a mounted volume.
fn put_by<D: SectorDevice, R: Files<File = File> + AllocGlobal + Clone + Drop, I: Read, W: Write>(
    rt: &R,
    alloc: Global,
    fs: &mut Fs<D>,
    source: Source,
    path: &[u8],
    files: &[&str],
    input: &mut I,
    output: &mut W,
) -> Result<Ending, Fault> {
    let file = files.first().copied();
    match source {
        Source::One => put_from(rt, alloc, fs, path, file, input, output),
        Source::Each => put_each(rt, alloc, fs, path, files, output),
        Source::Folder => put_folder(rt, alloc, fs, file.unwrap_or("."), path, output),
        Source::Behind => {
            append_from(
                rt,
                alloc,
                fs,
                path,
                file.unwrap_or(STANDARD_INPUT),
                input,
                output,
            )
        }
    }
}

// Whether a source has as many files as it may have.
fn has_its_files(source: Source, files: &[&str]) -> bool {
    match source {
        Source::One => files.len() <= 1,
        Source::Each => true,
        Source::Folder | Source::Behind => files.len() == 1,
    }
}

// Refuses the words of a put that leave open what is to be put.
fn check_words(alloc: Global, typed: bool, source: Source, files: &[&str]) -> Result<(), Fault> {
    if !has_its_files(source, files) {
        return Err(Fault::Files);
    }
    if typed && files.is_empty() {
        return Err(unnamed_terminal(alloc));
    }
    Ok(())
}

/// Puts what is asked for into the volume of an image. Standard input that is typed at a terminal,
/// though no word asks for it, and the spelling of the path come before the image.
pub fn put_into<
    Here: World,
    R: Files<File = File> + Clock + AllocGlobal + Clone + Drop,
    I: Read,
    W: Write,
>(
    rt: &R,
    alloc: Global,
    typed: bool,
    image: &str,
    source: Source,
    names: &Names<'_>,
    input: &mut I,
    output: &mut W,
) -> Result<Ending, Fault> {
    let files = names.files.as_slice();
    check_words(alloc, typed, source, files)?;
    let paths = read_paths(alloc, names.paths.as_slice())?;
    let Some(path) = paths.first() else {
        return Err(Fault::Files);
    };
    match image::mount_to_write::<Here, R>(rt, alloc, image) {
        Ok(mut fs) => {
            let path = path.as_slice();
            let ending = put_by(rt, alloc, &mut fs, source, path, files, input, output);
            end_caused(ending, fs.device().device())
        }
        Err(refusal) => refuse(output, refusal),
    }
}
