//! The commands that put several files of the host, or a folder with all that is in it.
use lfs_device::SectorDevice;
use lfs_fs::{Fs, FsError};
use lfs_host::fault::{Ending, Fault, Refusal, Stop};
use lfs_host::folder::{Found, found_at, names_in, text_of_link};
use lfs_host::host;
use lfs_host::host::HostFault;
use lfs_host::printing::{print, put, put_count, put_word, refuse, refuse_at};
use lfs_model::Kind;
use lfs_put::{PutFault, above_len, put_link_unsaved, put_unsaved};
use lfs_show::exporting::directory_of;
use lfs_show::free::refusal_of;
use lfs_show::listing::trimmed;
use lfs_show::walking::go_down;
use std::alloc::{AllocError, AllocGlobal, Global};
use std::fs::File;
use std::io::Write;
use std::rt::Files;

/// How many bytes are put between two syncs.
const SYNC_EACH: u64 = 64 << 20;

/// How far it has come.
#[derive(Clone, Copy)]
struct Progress {
    files: u64,
    bytes: u64,
    /// How many of the bytes aren't synced.
    unsaved: u64,
    /// What no volume can have was left out.
    is_partial: bool,
}

impl Progress {
    const NONE: Progress = Progress {
        files: 0,
        bytes: 0,
        unsaved: 0,
        is_partial: false,
    };

    // Counts a file of so many bytes, and syncs behind each so many.
    fn count<D: SectorDevice>(&mut self, fs: &mut Fs<D>, bytes: u64) -> Result<(), FsError> {
        self.files = self.files.saturating_add(1);
        self.bytes = self.bytes.saturating_add(bytes);
        self.unsaved = self.unsaved.saturating_add(bytes);
        if self.unsaved >= SYNC_EACH {
            self.unsaved = 0;
            return fs.sync();
        }
        Ok(())
    }

    // Tells that what a path is to have is left out.
    fn leave_out<W: Write>(&mut self, path: &[u8], output: &mut W) -> Result<(), Fault> {
        self.is_partial = true;
        put_told(output, b"omitted ", path)
    }
}

// Writes a line with a path.
fn put_told<W: Write>(output: &mut W, text: &[u8], path: &[u8]) -> Result<(), Fault> {
    put(output, text)?;
    put_word(output, path)?;
    put(output, b"\n")
}

// The path of a name in a directory.
fn below(alloc: Global, directory: &[u8], name: &[u8]) -> Result<Vec<u8>, AllocError> {
    let mut path = Vec::new(alloc);
    path.extend_from_slice(trimmed(directory))?;
    go_down(&mut path, name)?;
    Ok(path)
}

// Why files are put no further than one of this name.
fn stop_of(alloc: Global, name: &str, fault: PutFault) -> Stop {
    match fault {
        PutFault::Call(refusal) => Stop::Refused(Refusal::Call(refusal)),
        PutFault::Unfinished => Stop::Refused(Refusal::Unfinished),
        PutFault::Input => Stop::Fault(Fault::of_host(alloc, name, HostFault::Unread)),
        PutFault::Memory(error) => Stop::Fault(Fault::Memory(error)),
    }
}

// Puts a file of the host at a path.
fn put_file<D: SectorDevice, R: Files<File = File>>(
    rt: &R,
    alloc: Global,
    fs: &mut Fs<D>,
    progress: &mut Progress,
    name: &str,
    path: &[u8],
) -> Result<(), Stop> {
    let mut file = match host::open_file(rt, name) {
        Ok(file) => file,
        Err(fault) => return Err(Stop::Fault(Fault::of_host(alloc, name, fault))),
    };
    match put_unsaved(alloc, fs, path, &mut file) {
        Ok(count) => Ok(progress.count(fs, count)?),
        Err(fault) => Err(stop_of(alloc, name, fault)),
    }
}

// Makes a directory, and takes one that is there.
fn make_directory<D: SectorDevice>(fs: &mut Fs<D>, path: &[u8]) -> Result<(), FsError> {
    match fs.mkdir(path) {
        Ok(()) => Ok(()),
        Err(FsError::Exist) => match fs.lstat(path)?.kind {
            Kind::Directory => Ok(()),
            Kind::File | Kind::Link => Err(FsError::Exist),
        },
        Err(refusal) => Err(refusal),
    }
}

// Puts a link of a text at a path.
fn put_text<D: SectorDevice>(
    alloc: Global,
    fs: &mut Fs<D>,
    name: &str,
    text: &str,
    path: &[u8],
) -> Result<(), Stop> {
    match put_link_unsaved(alloc, fs, text.as_bytes(), path) {
        Ok(()) => Ok(()),
        Err(fault) => Err(stop_of(alloc, name, fault)),
    }
}

// Puts a link of the host at a path, or leaves it out.
fn put_link<D: SectorDevice, R: Files<File = File> + AllocGlobal, W: Write>(
    rt: &R,
    alloc: Global,
    fs: &mut Fs<D>,
    progress: &mut Progress,
    name: &str,
    path: &[u8],
    output: &mut W,
) -> Result<(), Stop> {
    match text_of_link(rt, alloc, name)? {
        Some(text) => put_text(alloc, fs, name, text.as_str(), path),
        None => Ok(progress.leave_out(path, output)?),
    }
}

// Puts what a name of the host has at a path: whether it is a folder, whose entries come later.
fn put_found<D: SectorDevice, R: Files<File = File> + AllocGlobal, W: Write>(
    rt: &R,
    alloc: Global,
    fs: &mut Fs<D>,
    progress: &mut Progress,
    name: &str,
    path: &[u8],
    output: &mut W,
) -> Result<bool, Stop> {
    match found_at(rt, alloc, name)? {
        Found::File => put_file(rt, alloc, fs, progress, name, path)?,
        Found::Link => put_link(rt, alloc, fs, progress, name, path, output)?,
        Found::Folder => {
            make_directory(fs, path)?;
            return Ok(true);
        }
        Found::Other => progress.leave_out(path, output)?,
    }
    Ok(false)
}

// The same, and tells the path of what isn't put.
fn put_named<D: SectorDevice, R: Files<File = File> + AllocGlobal, W: Write>(
    rt: &R,
    alloc: Global,
    fs: &mut Fs<D>,
    progress: &mut Progress,
    name: &str,
    path: &[u8],
    output: &mut W,
) -> Result<bool, Stop> {
    let done = put_found(rt, alloc, fs, progress, name, path, output);
    if let Err(Stop::Refused(_)) = &done {
        put_told(output, b"refused ", path)?;
    }
    done
}

/// A folder of the host that is put into a directory.
#[derive(Clone, Copy)]
struct Way<'a> {
    folder: &'a str,
    directory: &'a [u8],
}

impl Way<'_> {
    // What a name below the folder is called on the host.
    fn name_on_host(self, alloc: Global, below: &str) -> Result<String, AllocError> {
        let folder = self.folder;
        format!(in alloc; "{folder}/{below}")
    }
}

// Notes a folder whose entries come later.
fn note(waiting: &mut Vec<String>, folder: String) -> Result<(), AllocError> {
    waiting.push(folder)?;
    Ok(())
}

// Puts the entries of a folder that is below the one that is put, and notes the folders among them.
fn put_entries<D: SectorDevice, R: Files<File = File> + AllocGlobal + Clone + Drop, W: Write>(
    rt: &R,
    alloc: Global,
    fs: &mut Fs<D>,
    progress: &mut Progress,
    way: Way<'_>,
    at: &str,
    waiting: &mut Vec<String>,
    output: &mut W,
) -> Result<(), Stop> {
    let found = names_in(rt, alloc, way.name_on_host(alloc, at)?.as_str())?;
    if found.is_partial {
        let path = below(alloc, way.directory, at.as_bytes())?;
        progress.leave_out(below(alloc, path.as_slice(), b"")?.as_slice(), output)?;
    }
    for name in &found.names {
        let inner = format!(in alloc; "{at}{name}")?;
        let path = below(alloc, way.directory, inner.as_bytes())?;
        let host = way.name_on_host(alloc, inner.as_str())?;
        if put_named(
            rt,
            alloc,
            fs,
            progress,
            host.as_str(),
            path.as_slice(),
            output,
        )? {
            note(waiting, format!(in alloc; "{inner}/")?)?;
        }
    }
    Ok(())
}

// Puts all that is in a folder of the host.
fn put_all<D: SectorDevice, R: Files<File = File> + AllocGlobal + Clone + Drop, W: Write>(
    rt: &R,
    alloc: Global,
    fs: &mut Fs<D>,
    progress: &mut Progress,
    way: Way<'_>,
    output: &mut W,
) -> Result<(), Stop> {
    let mut waiting = Vec::new(alloc);
    note(&mut waiting, String::new(alloc))?;
    for _ in 0..u64::MAX {
        let Some(at) = waiting.pop() else {
            return Ok(());
        };
        put_entries(
            rt,
            alloc,
            fs,
            progress,
            way,
            at.as_str(),
            &mut waiting,
            output,
        )?;
    }
    Ok(())
}

// Prints what was put.
fn put_total<W: Write>(progress: &Progress, output: &mut W) -> Result<Ending, Fault> {
    put_count(output, b"ok ", progress.files)?;
    put_count(output, b" files ", progress.bytes)?;
    print(output, " bytes\n")?;
    if progress.is_partial {
        Ok(Ending::Partial)
    } else {
        Ok(Ending::Done)
    }
}

// Ends it: saves what was put, and prints how much that was, or the line of a refusal, of the file at
// this place.
fn end_many<D: SectorDevice, W: Write>(
    fs: &mut Fs<D>,
    progress: &Progress,
    done: Result<(), Stop>,
    at: usize,
    output: &mut W,
) -> Result<Ending, Fault> {
    let saved = fs.sync();
    match done {
        Ok(()) => match saved {
            Ok(()) => put_total(progress, output),
            Err(refusal) => refuse(output, Refusal::Call(refusal)),
        },
        Err(Stop::Refused(Refusal::Call(fault))) => refuse_at(output, refusal_of(fs, fault), at),
        Err(Stop::Refused(refusal)) => refuse_at(output, refusal, at),
        Err(Stop::Fault(fault)) => Err(fault),
    }
}

/// Puts all that is in a folder of the host into a directory: files, links, and folders where they
/// aren't there yet. It is saved at the end, and behind each so many bytes.
pub fn put_folder<D: SectorDevice, R: Files<File = File> + AllocGlobal + Clone + Drop, W: Write>(
    rt: &R,
    alloc: Global,
    fs: &mut Fs<D>,
    folder: &str,
    directory: &[u8],
    output: &mut W,
) -> Result<Ending, Fault> {
    if let Err(refusal) = directory_of(fs, directory) {
        return refuse(output, Refusal::Call(refusal));
    }
    let mut progress = Progress::NONE;
    let way = Way { folder, directory };
    let done = put_all(rt, alloc, fs, &mut progress, way, output);
    end_many(fs, &progress, done, 0, output)
}

// The last piece of a name of the host.
fn last_piece(name: &str) -> &[u8] {
    let name = name.as_bytes();
    name.get(above_len(name)..).unwrap_or(b"")
}

// Puts files of the host, each under its own name, in order up to the first that isn't put: the place
// of that one, and why.
fn put_files<D: SectorDevice, R: Files<File = File>>(
    rt: &R,
    alloc: Global,
    fs: &mut Fs<D>,
    progress: &mut Progress,
    directory: &[u8],
    files: &[&str],
) -> (usize, Result<(), Stop>) {
    for (at, name) in files.iter().enumerate() {
        let path = match below(alloc, directory, last_piece(name)) {
            Ok(path) => path,
            Err(error) => return (at, Err(Stop::from(error))),
        };
        match put_file(rt, alloc, fs, progress, name, path.as_slice()) {
            Ok(()) => {}
            Err(stop) => return (at, Err(stop)),
        }
    }
    (0, Ok(()))
}

/// Puts files of the host into a directory, each under its own name. They are saved at the end, and
/// behind each so many bytes.
pub fn put_each<D: SectorDevice, R: Files<File = File>, W: Write>(
    rt: &R,
    alloc: Global,
    fs: &mut Fs<D>,
    directory: &[u8],
    files: &[&str],
    output: &mut W,
) -> Result<Ending, Fault> {
    if let Err(refusal) = directory_of(fs, directory) {
        return refuse(output, Refusal::Call(refusal));
    }
    let mut progress = Progress::NONE;
    let (at, done) = put_files(rt, alloc, fs, &mut progress, directory, files);
    end_many(fs, &progress, done, at, output)
}
