//! The whole tree of a volume, copied into a new folder of the host.
use crate::copying::{CopyFault, copy_file};
use crate::listing::trimmed;
use crate::looking::Looked;
use crate::unfinished::Unfinished;
use crate::walking::{Visit, Walk, go_down, go_up, most_steps};
use lfs_device::SectorDevice;
use lfs_fs::{Fs, FsError, TreeRow};
use lfs_host::fault::{Fault, Refusal, Stop};
use lfs_host::host;
use lfs_host::host::HostFault;
use lfs_host::printing::{print, put, put_count, put_word};
use lfs_model::Kind;
use std::alloc::{AllocError, Global};
use std::fs::File;
use std::io::Write;
use std::rt::Files;
use std::str;

/// How far an export has come.
#[derive(Drop)]
struct Progress<'a> {
    /// The folder that is made.
    folder: &'a str,
    /// The path in the volume, of the directory that is copied or of an entry in it. The root has
    /// none.
    path: Vec<u8>,
    /// How many bytes of it are those of the directory that the export begins with.
    above: usize,
    files: u64,
    bytes: u64,
    /// What the host can't have was left out.
    is_partial: bool,
}

impl<'a> Progress<'a> {
    // An export of what is below a path.
    fn new(alloc: Global, folder: &'a str, path: &[u8]) -> Result<Progress<'a>, AllocError> {
        let mut above = Vec::new(alloc);
        above.extend_from_slice(trimmed(path))?;
        Ok(Progress {
            folder,
            above: above.len(),
            path: above,
            files: 0,
            bytes: 0,
            is_partial: false,
        })
    }

    // What the entry is called on the host. None where that isn't UTF-8.
    fn name_on_host(&self, alloc: Global) -> Result<Option<String>, AllocError> {
        let folder = self.folder;
        let below = self.path.get(self.above..).unwrap_or(b"");
        match str::from_utf8(below) {
            Ok(path) => Ok(Some(format!(in alloc; "{folder}{path}")?)),
            Err(_) => Ok(None),
        }
    }

    // Counts a file of so many bytes.
    fn count(&mut self, bytes: u64) {
        self.files = self.files.saturating_add(1);
        self.bytes = self.bytes.saturating_add(bytes);
    }

    // Tells that the entry is left out.
    fn leave_out<W: Write>(&mut self, output: &mut W) -> Result<(), Fault> {
        self.is_partial = true;
        put(output, b"omitted ")?;
        put_word(output, self.path.as_slice())?;
        put(output, b"\n")
    }
}

// Makes a link of the host. Its text has to be UTF-8.
fn copy_link<R: Files<File = File>>(rt: &R, text: &[u8], name: &str) -> Result<(), CopyFault> {
    let Ok(text) = str::from_utf8(text) else {
        return Err(CopyFault::Host(HostFault::Name));
    };
    host::make_link(rt, text, name).map_err(CopyFault::Host)
}

// Copies an entry, of a directory itself alone.
fn copy<D: SectorDevice, R: Files<File = File>>(
    rt: &R,
    fs: &mut Fs<D>,
    export: &mut Progress<'_>,
    row: &TreeRow,
    name: &str,
) -> Result<(), CopyFault> {
    match row.kind {
        Kind::Directory => host::make_folder(rt, name).map_err(CopyFault::Host),
        Kind::Link => copy_link(rt, row.head.as_slice(), name),
        Kind::File => {
            let bytes = copy_file(rt, fs, export.path.as_slice(), name)?;
            export.count(bytes);
            Ok(())
        }
    }
}

// Whether something is left out, or else why the export stops, by what a copy failed for.
fn judged(alloc: Global, fault: CopyFault, name: &str) -> Result<(), Stop> {
    match fault {
        CopyFault::Call(FsError::NameTooLong) => Ok(()),
        CopyFault::Call(refusal) => Err(Stop::from(refusal)),
        CopyFault::Host(fault) if fault.is_of_name() => Ok(()),
        CopyFault::Host(fault) => Err(Stop::Fault(Fault::of_host(alloc, name, fault))),
    }
}

// Copies the entry that the export is at, if the host can have it: whether it does.
fn copy_entry<D: SectorDevice, R: Files<File = File>>(
    rt: &R,
    alloc: Global,
    fs: &mut Fs<D>,
    export: &mut Progress<'_>,
    row: &TreeRow,
) -> Result<bool, Stop> {
    let Some(name) = export.name_on_host(alloc)? else {
        return Ok(false);
    };
    match copy(rt, fs, export, row, name.as_str()) {
        Ok(()) => Ok(true),
        Err(fault) => {
            judged(alloc, fault, name.as_str())?;
            Ok(false)
        }
    }
}

// Goes on to an entry and copies it: whether what is below it comes next.
fn enter<D: SectorDevice, R: Files<File = File>, W: Write>(
    rt: &R,
    alloc: Global,
    fs: &mut Fs<D>,
    export: &mut Progress<'_>,
    row: &TreeRow,
    output: &mut W,
) -> Result<bool, Stop> {
    go_down(&mut export.path, row.name.as_slice())?;
    let is_copied = copy_entry(rt, alloc, fs, export, row)?;
    if !is_copied {
        export.leave_out(output)?;
    }
    let goes_on = is_copied && row.kind == Kind::Directory;
    if !goes_on {
        go_up(&mut export.path);
    }
    Ok(goes_on)
}

// Copies what is below a directory into a folder that is there, by all rows of the tree.
fn copy_rows<D: SectorDevice, R: Files<File = File>, W: Write>(
    rt: &R,
    alloc: Global,
    fs: &mut Fs<D>,
    export: &mut Progress<'_>,
    rows: &[TreeRow],
    directory: u32,
    output: &mut W,
) -> Result<(), Stop> {
    let mut walk = Walk::new(alloc, rows, directory)?;
    for _ in 0..most_steps(rows) {
        match walk.step(rows)? {
            Visit::Entry(row) => {
                let goes_on = enter(rt, alloc, fs, export, row, output)?;
                if !goes_on && row.kind == Kind::Directory {
                    walk.skip();
                }
            }
            Visit::Left => go_up(&mut export.path),
            Visit::Done => break,
        }
    }
    Ok(())
}

// Prints what was copied.
fn put_copied<W: Write>(export: &Progress<'_>, output: &mut W) -> Result<Looked, Fault> {
    put_count(output, b"ok ", export.files)?;
    put_count(output, b" files ", export.bytes)?;
    print(output, " bytes\n")?;
    if export.is_partial {
        Ok(Looked::Partial)
    } else {
        Ok(Looked::Done)
    }
}

// Copies what is below the directory of a path into a new folder, by all rows of the tree.
fn copy_tree<D: SectorDevice, R: Files<File = File>, W: Write>(
    rt: &R,
    alloc: Global,
    fs: &mut Fs<D>,
    path: &[u8],
    product: &mut Unfinished<'_>,
    rows: &[TreeRow],
    directory: u32,
    output: &mut W,
) -> Result<Looked, Fault> {
    product.check_name(rt, alloc)?;
    product.make_folder(rt, alloc)?;
    let mut export = Progress::new(alloc, product.other(), path)?;
    match copy_rows(rt, alloc, fs, &mut export, rows, directory, output) {
        Ok(()) => put_copied(&export, output),
        Err(Stop::Refused(refusal)) => Ok(Looked::Refused(refusal)),
        Err(Stop::Fault(fault)) => Err(fault),
    }
}

/// The number of the directory of a path.
pub fn directory_of<D: SectorDevice>(fs: &mut Fs<D>, path: &[u8]) -> Result<u32, FsError> {
    let stat = fs.stat(path)?;
    match stat.kind {
        Kind::Directory => Ok(stat.number),
        Kind::File | Kind::Link => Err(FsError::NotDir),
    }
}

// The number of the directory of a path, and all rows of the tree.
fn rows_of<D: SectorDevice>(fs: &mut Fs<D>, path: &[u8]) -> Result<(u32, Vec<TreeRow>), FsError> {
    let directory = directory_of(fs, path)?;
    Ok((directory, fs.tree()?))
}

/// Copies what is below the directory of a path into a new folder of the host, under its other name,
/// links as links, and prints how many files and bytes that was. What the host can't have is left
/// out, and told.
pub fn export<D: SectorDevice, R: Files<File = File>, W: Write>(
    rt: &R,
    alloc: Global,
    fs: &mut Fs<D>,
    path: &[u8],
    product: &mut Unfinished<'_>,
    output: &mut W,
) -> Result<Looked, Fault> {
    match rows_of(fs, path) {
        Ok((directory, rows)) => {
            let rows = rows.as_slice();
            copy_tree(rt, alloc, fs, path, product, rows, directory, output)
        }
        Err(refusal) => Ok(Looked::Refused(Refusal::Call(refusal))),
    }
}
