//! The command that puts a file into a volume. Its bytes stand under another name until they are
//! whole and synced: so the old file or the new one is there after any stop.
ghost use Rattle.std.specs.Prelude.{◌≡◌, ◌≢◌, ◌≤◌, ◌<◌, ◌⊎◌, ◌-◌, IfErr, IfOk, OnOk, None, Some, ℕ, false, codes, length, slice_index};
ghost use Rattle.lfs_model.specs.PathText.{text_refusal};
ghost use Rattle.lfs_fs.specs.Refusals.{refusal_of};
ghost use Rattle.lfs_fs.specs.Seen.{seen};
ghost use Rattle.lfs_put.specs.Placing.{Clears, IsAbove, IsBeside, IsTextCause, LooksFor, NamesNone, OnlyLooks, Sees, WantsDirectory};
ghost use Rattle.lfs_put.specs.Putting.{Copies, GivesUp, MakesFile, PutsFile, RenamesFile, Replaces};

use lfs_device::SectorDevice;
use lfs_fs::path::text::{check_text, is_dots};
use lfs_fs::{Fs, FsError};
use lfs_model::Kind;
use lfs_model::limits::LONGEST_TRANSFER;
use memchr::memrchr;
use std::alloc::{AllocError, Global};
use std::io::Read;
use thiserror::Error;

/// The name under which a file stands until it is whole, in the directory that is to have it. What
/// a stop left there is removed.
pub const UNFINISHED: &[u8] = b".lfs-put";

/// The most bytes that are read and written at once.
const MOST_BYTES: usize = LONGEST_TRANSFER as usize;

/// Why a file isn't put into a volume.
#[derive(Debug, Drop, Error)]
pub enum PutFault {
    #[error("the volume refuses it")]
    Call(FsError),
    #[error("it has the name under which files stand until they are whole")]
    Unfinished,
    #[error("its bytes can't be read")]
    Input,
    #[error(transparent)]
    Memory(AllocError),
}

impl From<FsError> for PutFault {
    ghost use Rattle.lfs_put.specs.declared.putting.PutFault.TheVariants as why;

    ghost from_gives = { λ refused fault. fault ≡ why.Call refused };

    fn from(refused: FsError) -> PutFault
        ensures { result ≡ PutFault.Call refused }
    {
        PutFault::Call(refused)
    }
}

impl From<AllocError> for PutFault {
    ghost use Rattle.lfs_put.specs.declared.putting.PutFault.TheVariants as why;

    ghost from_gives = { λ refused fault. fault ≡ why.Memory refused };

    fn from(refused: AllocError) -> PutFault
        ensures { result ≡ PutFault.Memory refused }
    {
        PutFault::Memory(refused)
    }
}

// Refuses what no path is, by its text alone.
fn check_path(path: &[u8]) -> Result<(), FsError>
    ensures taken { OnOk result (text_refusal path.now ≡ None) }
    ensures refused { IfErr result (λ fault. text_refusal path.now ≡ Some (refusal_of fault)) }
{
    match check_text(path) {
        Ok(()) => Ok(()),
        Err(fault) => Err(FsError::from(fault)),
    }
}

// How many bytes of a path stand before the slashes that end it.
fn trimmed_len(path: &[u8]) -> usize
    ensures within { result ≤ length path.now }
    ensures slashes { (i : ℕ) → result ≤ i → i < length path.now
        → slice_index path.now i ≡ 47 }
{
    for slashes in 0..path.len() {
        let len = path.len() - slashes;
        if path[len - 1] != b'/' {
            return len;
        }
    }
    0
}

/// How many bytes of a path stand before its last piece, the last slash with them. No slash ends the
/// path.
pub fn above_len(path: &[u8]) -> usize
    ensures within { result ≤ length path.now }
    ensures plain { (i : ℕ) → result ≤ i → i < length path.now
        → slice_index path.now i ≢ 47 }
    ensures place { (result ≡ 0) ⊎ (slice_index path.now (result - 1) ≡ 47) }
{
    match memrchr(b'/', path) {
        Some(slash) => slash + 1,
        None => 0,
    }
}

// Refuses what no file is renamed to, by its text alone and in the order of `rename`. How long a name
// may be is its directory's to say.
fn check_name(name: &[u8], slash_end: bool) -> Result<(), PutFault>
    ensures other { OnOk result (name.now ≢ codes ".lfs-put") }
    ensures ends { OnOk result (slash_end ≡ false) }
    ensures cause { IfErr result (NamesNone name.now slash_end) }
{
    if is_dots(name) {
        return Err(PutFault::Call(FsError::Inval));
    }
    if name == UNFINISHED {
        return Err(PutFault::Unfinished);
    }
    if slash_end {
        return Err(PutFault::Call(FsError::NotDir));
    }
    Ok(())
}

// The path of the name under which the file of a path stands until it is whole.
fn unfinished_path(alloc: Global, path: &[u8]) -> Result<Vec<u8>, PutFault>
    ensures beside { IfOk result (λ unfinished. IsBeside path.now unfinished.items) }
    ensures cause { IfErr result (IsTextCause path.now) }
{
    check_path(path)?;
    let trimmed = &path[..trimmed_len(path)];
    if trimmed.is_empty() {
        return Err(PutFault::Call(FsError::Busy));
    }
    let above = above_len(trimmed);
    check_name(&trimmed[above..], trimmed.len() < path.len())?;
    let mut unfinished = Vec::new(alloc);
    unfinished.extend_from_slice(&path[..above])?;
    unfinished.extend_from_slice(UNFINISHED)?;
    Ok(unfinished)
}

// Passes over a refusal since nothing has the name.
fn pass_missing(refused: FsError) -> Result<(), PutFault>
    ensures missing { OnOk result (refused ≡ FsError.NoEntry) }
    ensures cause { IfErr result (λ fault. (fault ≡ PutFault.Call refused)
        × (refused ≢ FsError.NoEntry)) }
{
    match refused {
        FsError::NoEntry => Ok(()),
        refused => Err(PutFault::Call(refused)),
    }
}

// Refuses a directory. A link at the end of the path is none.
fn refuse_directory<D: SectorDevice>(fs: &mut Fs<D>, path: &[u8]) -> Result<(), PutFault>
    ensures { LooksFor D.SectorDevice.state (seen fs.old) (seen fs.new) path.now
        result }
{
    match fs.lstat(path) {
        Ok(stat) => match stat.kind {
            Kind::Directory => Err(PutFault::Call(FsError::IsDir)),
            Kind::File | Kind::Link => Ok(()),
        },
        Err(refused) => pass_missing(refused),
    }
}

// The part of a path before its last piece, the last slash with it. No slash ends the path.
fn directory_of(path: &[u8]) -> &[u8]
    ensures { IsAbove path.now result.now }
{
    &path[..above_len(path)]
}

// Refuses a path that leads to no directory.
fn want_directory<D: SectorDevice>(fs: &mut Fs<D>, path: &[u8]) -> Result<(), PutFault>
    ensures { WantsDirectory D.SectorDevice.state (seen fs.old) (seen fs.new) path.now
        result }
{
    match fs.stat(path) {
        Ok(stat) => match stat.kind {
            Kind::Directory => Ok(()),
            Kind::File | Kind::Link => Err(PutFault::Call(FsError::NotDir)),
        },
        Err(refused) => Err(PutFault::Call(refused)),
    }
}

// Looks whether a file may stand at a path whose text is well, below what stands above it, and
// changes nothing.
fn look_for_place<D: SectorDevice>(
    fs: &mut Fs<D>,
    path: &[u8],
    above: &[u8],
) -> Result<(), PutFault>
    ensures { Sees D.SectorDevice.state (seen fs.old) (seen fs.new) path.now above.now
        result }
{
    refuse_directory(fs, path)?;
    if above.is_empty() {
        return Ok(());
    }
    want_directory(fs, above)
}

/// Looks whether a file may be put at a path, as far as the path's text tells, the directory that is
/// to have it, and what stands there. Nothing is changed. What `put` finds only as it changes the
/// volume, as a lack of space, isn't looked for.
///
/// # Errors
///
/// `Memory` where memory for a path is refused. Of the path's text and of a directory at the path
/// those of `put`. Of the directory that is to have it those of `stat`, and `NotDir`.
pub fn check_place<D: SectorDevice>(
    alloc: Global,
    fs: &mut Fs<D>,
    path: &[u8],
) -> Result<(), PutFault>
    ensures { OnlyLooks D.SectorDevice.state (seen fs.old) (seen fs.new) path.now
        result }
{
    unfinished_path(alloc, path)?;
    look_for_place(fs, path, directory_of(path))
}

// Removes what a stop left.
fn remove_left<D: SectorDevice>(fs: &mut Fs<D>, unfinished: &[u8]) -> Result<(), PutFault>
    ensures { Clears D.SectorDevice.state (seen fs.old) (seen fs.new) unfinished.now
        result }
{
    match fs.unlink(unfinished) {
        Ok(()) => Ok(()),
        Err(refused) => pass_missing(refused),
    }
}

// Writes all bytes of a reader to an open file, from its beginning on: their number.
fn copy_in<D: SectorDevice, I: Read>(
    fs: &mut Fs<D>,
    handle: u32,
    input: &mut I,
    buffer: &mut [u8],
) -> Result<u64, PutFault>
    requires { 0 < length buffer.old }
    ensures { Copies D.SectorDevice.state (seen fs.old) (seen fs.new) handle
        (I.remaining input.old) (I.remaining input.new) result }
{
    let mut offset: u64 = 0;
    for _ in 0..u64::MAX {
        let Ok(count) = input.read(buffer) else {
            return Err(PutFault::Input);
        };
        if count == 0 {
            return Ok(offset);
        }
        let Some(end) = offset.checked_add(count as u64) else {
            return Err(PutFault::Call(FsError::FileTooBig));
        };
        fs.pwrite(handle, offset, &buffer[..count])?;
        offset = end;
    }
    Err(PutFault::Input)
}

// Makes a file of all bytes of a reader: their number.
fn make_file<D: SectorDevice, I: Read>(
    fs: &mut Fs<D>,
    unfinished: &[u8],
    input: &mut I,
    buffer: &mut [u8],
) -> Result<u64, PutFault>
    requires { 0 < length buffer.old }
    ensures { MakesFile D.SectorDevice.state (seen fs.old) (seen fs.new) unfinished.now
        (I.remaining input.old) (I.remaining input.new) result }
{
    let handle = fs.create(unfinished)?;
    let copied = copy_in(fs, handle, input, buffer);
    let closed = fs.close(handle);
    let count = copied?;
    closed?;
    Ok(count)
}

// Syncs a file, gives it its name, and syncs that.
fn rename_file<D: SectorDevice>(
    fs: &mut Fs<D>,
    unfinished: &[u8],
    path: &[u8],
) -> Result<(), PutFault>
    ensures { RenamesFile D.SectorDevice.state (seen fs.old) (seen fs.new)
        unfinished.now path.now
        result }
{
    fs.sync()?;
    fs.rename(unfinished, path)?;
    fs.sync()?;
    Ok(())
}

// Makes the file, and gives it its name.
fn replace<D: SectorDevice, I: Read>(
    fs: &mut Fs<D>,
    unfinished: &[u8],
    path: &[u8],
    input: &mut I,
    buffer: &mut [u8],
) -> Result<u64, PutFault>
    requires { 0 < length buffer.old }
    ensures { Replaces D.SectorDevice.state (seen fs.old) (seen fs.new) unfinished.now
        path.now
        (I.remaining input.old) (I.remaining input.new) result }
{
    let count = make_file(fs, unfinished, input, buffer)?;
    rename_file(fs, unfinished, path)?;
    Ok(count)
}

// Removes what isn't whole, as far as the volume lets it.
fn give_up<D: SectorDevice>(fs: &mut Fs<D>, unfinished: &[u8])
    ensures { GivesUp D.SectorDevice.state (seen fs.old) (seen fs.new) unfinished.now }
{
    let _ = fs.unlink(unfinished);
    let _ = fs.sync();
}

// The calls of a put, with the path of the unfinished file.
fn put_by<D: SectorDevice, I: Read>(
    fs: &mut Fs<D>,
    unfinished: &[u8],
    path: &[u8],
    input: &mut I,
    buffer: &mut [u8],
) -> Result<u64, PutFault>
    requires some { 0 < length buffer.old }
    requires beside { IsBeside path.now unfinished.now }
    ensures { PutsFile D.SectorDevice.state (seen fs.old) (seen fs.new) path.now
        (I.remaining input.old) (I.remaining input.new) result }
{
    refuse_directory(fs, path)?;
    remove_left(fs, unfinished)?;
    match replace(fs, unfinished, path, input, buffer) {
        Ok(count) => Ok(count),
        Err(fault) => {
            give_up(fs, unfinished);
            Err(fault)
        }
    }
}

/// Makes all bytes of a reader the file of a path, synced, and answers their number. A link at the
/// end of the path is replaced itself.
///
/// # Errors
///
/// `Memory` where memory for a buffer or for a path is refused. Of the path's text, in this order:
/// `NoEntry`, `NameTooLong` and `Inval` as of any path; `Busy` where it has no piece; `Inval` where
/// the last one is dot or dot-dot; `Unfinished`; `NotDir` where a slash ends it. What `lstat` refuses,
/// but for `NoEntry`, and `IsDir` of a directory. Then what `unlink`, `create`, `pwrite`, `sync` and
/// `rename` refuse, and `Input`. What stood at the path stands there still, but where the last sync fails: then a stop
/// leaves that or the new file.
pub fn put<D: SectorDevice, I: Read>(
    alloc: Global,
    fs: &mut Fs<D>,
    path: &[u8],
    input: &mut I,
) -> Result<u64, PutFault>
    ensures { PutsFile D.SectorDevice.state (seen fs.old) (seen fs.new) path.now
        (I.remaining input.old) (I.remaining input.new) result }
{
    let Ok(mut buffer) = vec![in alloc; 0; MOST_BYTES] else {
        return Err(PutFault::Memory(AllocError));
    };
    let unfinished = unfinished_path(alloc, path)?;
    put_by(
        fs,
        unfinished.as_slice(),
        path,
        input,
        buffer.as_mut_slice(),
    )
}

// Makes the file, and gives it its name, and nothing is synced.
fn replace_unsaved<D: SectorDevice, I: Read>(
    fs: &mut Fs<D>,
    unfinished: &[u8],
    path: &[u8],
    input: &mut I,
    buffer: &mut [u8],
) -> Result<u64, PutFault>
    requires { 0 < length buffer.old }
{
    let count = make_file(fs, unfinished, input, buffer)?;
    fs.rename(unfinished, path)?;
    Ok(count)
}

// Makes something new under the unfinished name, and gives it its name. Where that is refused it is
// removed again, as far as the volume lets it.
fn finish<D: SectorDevice, T: Drop>(
    fs: &mut Fs<D>,
    beside: &[u8],
    done: Result<T, PutFault>,
) -> Result<T, PutFault>
    ensures { result ≡ done }
{
    if done.is_err() {
        let _ = fs.unlink(beside);
    }
    done
}

/// As `put`, and nothing is synced. So many files may be put for one sync: a stop leaves each of them
/// whole, or as it was, or not at all.
///
/// # Errors
///
/// Those of `put`, but for those of `sync`.
pub fn put_unsaved<D: SectorDevice, I: Read>(
    alloc: Global,
    fs: &mut Fs<D>,
    path: &[u8],
    input: &mut I,
) -> Result<u64, PutFault> {
    let Ok(mut bytes) = vec![in alloc; 0; MOST_BYTES] else {
        return Err(PutFault::Memory(AllocError));
    };
    let unfinished = unfinished_path(alloc, path)?;
    refuse_directory(fs, path)?;
    remove_left(fs, unfinished.as_slice())?;
    let buffer = bytes.as_mut_slice();
    let done = replace_unsaved(fs, unfinished.as_slice(), path, input, buffer);
    finish(fs, unfinished.as_slice(), done)
}

// Makes a link, and gives it its name.
fn replace_by_link<D: SectorDevice>(
    fs: &mut Fs<D>,
    unfinished: &[u8],
    text: &[u8],
    path: &[u8],
) -> Result<(), PutFault> {
    fs.symlink(text, unfinished)?;
    fs.rename(unfinished, path)?;
    Ok(())
}

/// Makes a symbolic link of a text at a path, in the place of a file or a link. Nothing is synced.
///
/// # Errors
///
/// Those of `put_unsaved`, with those of `symlink` in the place of those of `create` and `pwrite`.
pub fn put_link_unsaved<D: SectorDevice>(
    alloc: Global,
    fs: &mut Fs<D>,
    text: &[u8],
    path: &[u8],
) -> Result<(), PutFault> {
    let unfinished = unfinished_path(alloc, path)?;
    refuse_directory(fs, path)?;
    remove_left(fs, unfinished.as_slice())?;
    let done = replace_by_link(fs, unfinished.as_slice(), text, path);
    finish(fs, unfinished.as_slice(), done)
}
