//! The command that copies the tree of a volume into another one.
use lfs_copy::{Copied, CopyFault, copy_tree};
use lfs_device::{FileDeviceIn, SectorDevice, World};
use lfs_fs::{Fs, FsError, InVolume};
use lfs_host::fault::{Ending, Fault, ImageFault, Refusal};
use lfs_host::image;
use lfs_host::image::{Beside, Patience, end_caused};
use lfs_host::printing::{print, put, put_count, put_word, refuse};
use lfs_show::free::{bytes_above_empty, refusal_of};
use std::alloc::Global;
use std::fs::File;
use std::io::Write;
use std::rt::Files;
use std::time::Clock;

/// The volume of an image, in any world.
type Volume<Here> = Fs<InVolume<FileDeviceIn<Here>>>;

/// The images of a copy.
#[derive(Clone, Copy)]
pub struct Images<'a> {
    /// What is copied.
    pub old: &'a str,
    /// What it is copied into.
    pub new: &'a str,
}

/// How a copy ended.
#[derive(Drop)]
pub struct CopyEnd<'a> {
    /// The image that this is about.
    pub image: &'a str,
    pub ending: Result<Ending, Fault>,
}

// Prints how much was copied.
fn put_copied<W: Write>(copied: Copied, output: &mut W) -> Result<Ending, Fault> {
    put_count(output, b"ok ", copied.names)?;
    put_count(output, b" names ", copied.bytes)?;
    print(output, " bytes\n")?;
    Ok(Ending::Done)
}

// Names a path that is too long, or whose name is.
fn refuse_long<W: Write>(path: &[u8], output: &mut W) -> Result<Ending, Fault> {
    put(output, b"long ")?;
    put_word(output, path)?;
    put(output, b"\n")?;
    refuse(output, Refusal::TooLong)
}

// Ends a copy: prints how much that is, or the line of a refusal.
fn end_copy<E: SectorDevice, W: Write>(
    to: &mut Fs<E>,
    done: Result<Copied, CopyFault>,
    output: &mut W,
) -> Result<Ending, Fault> {
    match done {
        Ok(copied) => put_copied(copied, output),
        Err(CopyFault::NotEmpty) => refuse(output, Refusal::NotNew),
        Err(CopyFault::TooLong(path)) => refuse_long(path.as_slice(), output),
        Err(CopyFault::TooLarge { need, limit }) => {
            let (need, limit) = (bytes_above_empty(need), bytes_above_empty(limit));
            refuse(output, Refusal::TooLarge(need, limit))
        }
        Err(CopyFault::Old(fault)) => refuse(output, Refusal::Call(fault)),
        Err(CopyFault::New(fault)) => refuse(output, refusal_of(to, fault)),
        Err(CopyFault::NoTree) => refuse(output, Refusal::Call(FsError::Device)),
        Err(CopyFault::Memory(fault)) => Err(Fault::Memory(fault)),
    }
}

// Whether a copy ended for what the old volume does.
fn is_of_old(done: &Result<Copied, CopyFault>) -> bool {
    matches!(done, Err(CopyFault::Old(_) | CopyFault::NoTree))
}

// Copies the tree of a mounted volume.
fn copy_mounted<'a, Here: World, W: Write>(
    alloc: Global,
    images: Images<'a>,
    from: &mut Volume<Here>,
    to: &mut Volume<Here>,
    output: &mut W,
) -> CopyEnd<'a> {
    let done = copy_tree(alloc, from, to);
    let is_of_old = is_of_old(&done);
    let ending = end_copy(to, done, output);
    if is_of_old {
        CopyEnd {
            image: images.old,
            ending: end_caused(ending, from.device().device()),
        }
    } else {
        CopyEnd {
            image: images.new,
            ending: end_caused(ending, to.device().device()),
        }
    }
}

// Mounts the volume of an image that is only looked at. Nobody may write it meanwhile.
fn mount_to_look<Here: World, R: Files<File = File> + Clock>(
    rt: &R,
    alloc: Global,
    image: &str,
    patience: Patience,
) -> Result<Volume<Here>, Refusal> {
    let (device, beside) = image::open_to_look::<Here, R>(rt, alloc, image, patience)?;
    if beside == Beside::Writer {
        return Err(Refusal::Image(ImageFault::InUse));
    }
    image::mount(alloc, device)
}

// Copies the tree of a mounted volume into that of an image.
fn copy_into<'a, Here: World, R: Files<File = File> + Clock, W: Write>(
    rt: &R,
    alloc: Global,
    images: Images<'a>,
    from: &mut Volume<Here>,
    output: &mut W,
) -> CopyEnd<'a> {
    match image::mount_to_write::<Here, R>(rt, alloc, images.new) {
        Ok(mut to) => copy_mounted::<Here, W>(alloc, images, from, &mut to, output),
        Err(refusal) => CopyEnd {
            image: images.new,
            ending: refuse(output, refusal),
        },
    }
}

/// Copies the tree of the volume of an image into that of another one, which is empty. The first is
/// only looked at, and the second is locked meanwhile.
pub fn copy_volume<'a, Here: World, R: Files<File = File> + Clock, W: Write>(
    rt: &R,
    alloc: Global,
    images: Images<'a>,
    wait: bool,
    output: &mut W,
) -> CopyEnd<'a> {
    if image::are_one(rt, images.old, images.new) {
        let same = Refusal::Image(ImageFault::Same);
        return CopyEnd {
            image: images.new,
            ending: refuse(output, same),
        };
    }
    let patience = if wait {
        Patience::Endless
    } else {
        Patience::Second
    };
    match mount_to_look::<Here, R>(rt, alloc, images.old, patience) {
        Ok(mut from) => copy_into::<Here, R, W>(rt, alloc, images, &mut from, output),
        Err(refusal) => CopyEnd {
            image: images.old,
            ending: refuse(output, refusal),
        },
    }
}
