//! Commands that change a volume, which is saved once behind them.
use crate::removing::{ends_in_dots, make_with_parents, remove_below};
use lfs_device::{SectorDevice, World};
use lfs_fs::{Fs, FsError};
use lfs_grammar::Change;
use lfs_host::fault::{Ending, Explanation, Fault, Refusal};
use lfs_host::image;
use lfs_host::image::end_caused;
use lfs_host::printing::{print, refuse, refuse_at};
use lfs_model::Kind;
use lfs_put::{clean, clean_some, make_directory, remove, remove_unsaved, rename, upgrade};
use lfs_show::free::refusal_of;
use lfs_show::listing::trimmed;
use lfs_show::looking::read_paths;
use lfs_words::read_u32;
use std::alloc::Global;
use std::fs::File;
use std::io::Write;
use std::rt::Files;
use std::time::Clock;

/// What is done with one path of several.
#[derive(Clone, Copy)]
enum Each {
    Remove,
    /// A directory with all that is below it.
    RemoveBelow,
    Make,
    /// With those above, and where one is there it is taken.
    MakeWithParents,
}

/// Why a change isn't made.
#[derive(Clone, Copy)]
struct Refused {
    refusal: FsError,
    /// The place of the path that was refused.
    at: usize,
}

impl From<FsError> for Refused {
    fn from(refusal: FsError) -> Refused {
        Refused { refusal, at: 0 }
    }
}

// The most passes that a change makes of the cleaner, where it is a cleaning that says so.
fn most_passes(change: Change<'_>) -> Result<Option<u32>, Fault> {
    match change {
        Change::Clean(Some(word)) => match read_u32(word.as_bytes()) {
            Some(most) => Ok(Some(most)),
            None => Err(Fault::Passes),
        },
        _ => Ok(None),
    }
}

// Does it with one path, and saves nothing.
fn do_unsaved<D: SectorDevice>(
    alloc: Global,
    fs: &mut Fs<D>,
    each: Each,
    path: &[u8],
) -> Result<(), FsError> {
    match each {
        Each::Remove => remove_unsaved(fs, path),
        Each::RemoveBelow => remove_below(alloc, fs, path),
        Each::Make => fs.mkdir(path),
        Each::MakeWithParents => make_with_parents(fs, path),
    }
}

// Does it with each path, in order up to the first that is refused, and saves nothing.
fn do_each<D: SectorDevice>(
    alloc: Global,
    fs: &mut Fs<D>,
    each: Each,
    paths: &[Vec<u8>],
) -> Result<(), Refused> {
    for (at, path) in paths.iter().enumerate() {
        if let Err(refusal) = do_unsaved(alloc, fs, each, path.as_slice()) {
            return Err(Refused { refusal, at });
        }
    }
    Ok(())
}

// The same, and saves what was done, also where a path was refused.
fn do_and_save<D: SectorDevice>(
    alloc: Global,
    fs: &mut Fs<D>,
    each: Each,
    paths: &[Vec<u8>],
) -> Result<(), Refused> {
    let done = do_each(alloc, fs, each, paths);
    let saved = fs.sync();
    done?;
    Ok(saved?)
}

// Does it with paths. With one of them alone it is one call and a sync where that can be.
fn do_all<D: SectorDevice>(
    alloc: Global,
    fs: &mut Fs<D>,
    each: Each,
    paths: &[Vec<u8>],
) -> Result<(), Refused> {
    match (each, paths.len(), paths.first()) {
        (Each::Remove, 1, Some(path)) => Ok(remove(fs, path.as_slice())?),
        (Each::Make, 1, Some(path)) => Ok(make_directory(fs, path.as_slice())?),
        _ => do_and_save(alloc, fs, each, paths),
    }
}

// Cleans a mounted volume, by so many passes at most where a number is given.
fn clean_by<D: SectorDevice>(fs: &mut Fs<D>, most: Option<u32>) -> Result<(), FsError> {
    match most {
        Some(most) => clean_some(fs, most),
        None => clean(fs),
    }
}

// The path at a place, none where there is none.
fn path_at(paths: &[Vec<u8>], at: usize) -> &[u8] {
    match paths.get(at) {
        Some(path) => path.as_slice(),
        None => b"",
    }
}

// Whether a rename is refused for what is told of the first path, and not of the second.
fn is_of_first<D: SectorDevice>(fs: &mut Fs<D>, from: &[u8], refusal: FsError) -> bool {
    match refusal {
        FsError::Busy => trimmed(from).is_empty(),
        FsError::Inval => ends_in_dots(from),
        _ => fs.lstat(from).is_err(),
    }
}

// Gives what stands at the first path the second.
fn rename_by<D: SectorDevice>(fs: &mut Fs<D>, from: &[u8], to: &[u8]) -> Result<(), Refused> {
    match rename(fs, from, to) {
        Ok(()) => Ok(()),
        Err(refusal) => {
            let at = usize::from(!is_of_first(fs, from, refusal));
            Err(Refused { refusal, at })
        }
    }
}

// Changes a mounted volume.
fn change_by<D: SectorDevice>(
    alloc: Global,
    fs: &mut Fs<D>,
    change: Change<'_>,
    paths: &[Vec<u8>],
    most: Option<u32>,
) -> Result<(), Refused> {
    match change {
        Change::Remove { below: false } => do_all(alloc, fs, Each::Remove, paths),
        Change::Remove { below: true } => do_all(alloc, fs, Each::RemoveBelow, paths),
        Change::MakeDirectory { parents: false } => do_all(alloc, fs, Each::Make, paths),
        Change::MakeDirectory { parents: true } => {
            do_all(alloc, fs, Each::MakeWithParents, paths)
        }
        Change::Rename => rename_by(fs, path_at(paths, 0), path_at(paths, 1)),
        Change::Clean(_) => Ok(clean_by(fs, most)?),
        Change::Upgrade => Ok(upgrade(fs)?),
    }
}

// What people are told of the second path of a rename that was refused for it.
fn told_of_second<D: SectorDevice>(
    fs: &mut Fs<D>,
    to: &[u8],
    refusal: FsError,
) -> Option<Explanation> {
    match refusal {
        FsError::NoEntry if !to.is_empty() => Some(Explanation::NoParent),
        FsError::NotEmpty => Some(Explanation::Full),
        FsError::IsDir => Some(Explanation::Directory),
        FsError::NotDir => match fs.lstat(to) {
            Ok(stat) if stat.kind != Kind::Directory => Some(Explanation::NoDirectory),
            _ => None,
        },
        FsError::Inval if !ends_in_dots(to) => Some(Explanation::Within),
        _ => None,
    }
}

// What people are told of a change that was refused for a path.
fn told_of<D: SectorDevice>(
    fs: &mut Fs<D>,
    change: Change<'_>,
    paths: &[Vec<u8>],
    refused: Refused,
) -> Option<Explanation> {
    let path = path_at(paths, refused.at);
    match change {
        Change::MakeDirectory { .. } if refused.refusal == FsError::NoEntry => {
            if path.is_empty() {
                None
            } else {
                Some(Explanation::NoParent)
            }
        }
        Change::Rename if refused.at == 1 => told_of_second(fs, path, refused.refusal),
        _ => None,
    }
}

// Ends a change: prints the line of its answer.
fn end_change<D: SectorDevice, W: Write>(
    fs: &mut Fs<D>,
    change: Change<'_>,
    paths: &[Vec<u8>],
    done: Result<(), Refused>,
    output: &mut W,
) -> Result<Ending, Fault> {
    let refused = match done {
        Ok(()) => {
            print(output, "ok\n")?;
            return Ok(Ending::Done);
        }
        Err(refused) => refused,
    };
    let refusal = match told_of(fs, change, paths, refused) {
        Some(explanation) => Refusal::Explained(refused.refusal, explanation),
        None => refusal_of(fs, refused.refusal),
    };
    refuse_at(output, refusal, refused.at)
}

// Changes the volume of an image, by its paths and the most passes of the cleaner.
fn change_in<Here: World, R: Files<File = File> + Clock, W: Write>(
    rt: &R,
    alloc: Global,
    image: &str,
    change: Change<'_>,
    paths: &[Vec<u8>],
    most: Option<u32>,
    output: &mut W,
) -> Result<Ending, Fault> {
    match image::mount_to_write::<Here, R>(rt, alloc, image) {
        Ok(mut fs) => {
            let done = change_by(alloc, &mut fs, change, paths, most);
            let ending = end_change(&mut fs, change, paths, done, output);
            end_caused(ending, fs.device().device())
        }
        Err(refusal) => refuse(output, refusal),
    }
}

/// Changes the volume of an image, by the words of its paths. The spelling of paths and numbers
/// comes before the image.
pub fn change_volume<Here: World, R: Files<File = File> + Clock, W: Write>(
    rt: &R,
    alloc: Global,
    image: &str,
    change: Change<'_>,
    words: &[&str],
    output: &mut W,
) -> Result<Ending, Fault> {
    let paths = read_paths(alloc, words)?;
    let most = most_passes(change)?;
    change_in::<Here, R, W>(rt, alloc, image, change, paths.as_slice(), most, output)
}
