// The answer of a call.
ghost use Rattle.std.specs.Prelude.{◌≡◌, IfOk, min, replicate};
ghost use Rattle.lfs_model.specs.Call.{Count, Pwrite};
ghost use Rattle.lfs_model.specs.Script.{call_of};
ghost use Rattle.lfs_fs.specs.Seen.{answer_by, seen};
ghost use Rattle.lfs_fs.specs.Volume.{Serves};
ghost use Rattle.lfs_replies.specs.Answers.{result_of};
ghost use Rattle.lfs_lines.specs.Calls.{line_for};

use lfs_device::SectorDevice;
use lfs_fs::{Fs, FsError};
use lfs_lines::Call;
use lfs_model::limits::LONGEST_TRANSFER;
use lfs_replies::Answer;
use std::alloc::{AllocError, Global};

// One more than the bytes that a write takes.
const TOO_MANY: u32 = LONGEST_TRANSFER + 1;

// So many bytes of a value, or as many as a write refuses.
fn filled(alloc: Global, len: u32, byte: u8) -> Result<Vec<u8>, AllocError>
    ensures { IfOk result (λ bytes. bytes.items ≡ replicate (min len TOO_MANY) byte) }
{
    vec![in alloc; byte; len.min(TOO_MANY) as usize]
}

// Puts so many bytes of a value into a file. A halted volume says so, also where memory for them is
// refused.
fn fill<D: SectorDevice>(
    alloc: Global,
    fs: &mut Fs<D>,
    handle: u32,
    offset: u64,
    len: u32,
    byte: u8,
) -> Result<u32, FsError>
    ensures { Serves D.SectorDevice.state (seen fs.old) (seen fs.new)
        (Pwrite handle offset (replicate len byte)) (answer_by Count result) }
{
    match filled(alloc, len, byte) {
        Ok(bytes) => fs.pwrite(handle, offset, bytes.as_slice()),
        // Halted is all that space is refused for.
        Err(_) => match fs.space() {
            Ok(_) => Err(FsError::NoMemory),
            Err(fault) => Err(fault),
        },
    }
}

/// Makes the call.
pub fn make<D: SectorDevice>(alloc: Global, fs: &mut Fs<D>, call: &Call) -> Result<Answer, FsError>
    ensures { Serves D.SectorDevice.state (seen fs.old) (seen fs.new)
        (call_of (line_for call.now))
        (result_of result) }
{
    match call {
        Call::Create(path) => fs.create(path.as_slice()).map(Answer::Handle),
        Call::Open(path) => fs.open(path.as_slice()).map(Answer::Handle),
        Call::Close(handle) => fs.close(*handle).map(|()| Answer::Done),
        Call::Pread {
            handle,
            offset,
            len,
        } => fs.pread(*handle, *offset, *len).map(Answer::Bytes),
        Call::Pwrite {
            handle,
            offset,
            bytes,
        } => fs
            .pwrite(*handle, *offset, bytes.as_slice())
            .map(Answer::Count),
        Call::Fill {
            handle,
            offset,
            len,
            byte,
        } => fill(alloc, fs, *handle, *offset, *len, *byte).map(Answer::Count),
        Call::Truncate { handle, len } => fs.truncate(*handle, *len).map(|()| Answer::Done),
        Call::Mkdir(path) => fs.mkdir(path.as_slice()).map(|()| Answer::Done),
        Call::Link { from, to } => fs
            .link(from.as_slice(), to.as_slice())
            .map(|()| Answer::Done),
        Call::Symlink { text, path } => fs
            .symlink(text.as_slice(), path.as_slice())
            .map(|()| Answer::Done),
        Call::Readlink(path) => fs.readlink(path.as_slice()).map(Answer::Text),
        Call::Unlink(path) => fs.unlink(path.as_slice()).map(|()| Answer::Done),
        Call::Rmdir(path) => fs.rmdir(path.as_slice()).map(|()| Answer::Done),
        Call::Rename { from, to } => fs
            .rename(from.as_slice(), to.as_slice())
            .map(|()| Answer::Done),
        Call::Stat(path) => fs.stat(path.as_slice()).map(Answer::Stat),
        Call::Lstat(path) => fs.lstat(path.as_slice()).map(Answer::Stat),
        Call::Readdir(path) => fs.readdir(path.as_slice()).map(Answer::Entries),
        Call::Fsync(handle) => fs.fsync(*handle).map(|()| Answer::Done),
        Call::Sync => fs.sync().map(|()| Answer::Done),
        Call::Clean => fs.clean().map(|()| Answer::Done),
        Call::Space => fs.space().map(Answer::Space),
        Call::Version => fs.version().map(Answer::Version),
        Call::Upgrade => fs.upgrade().map(|()| Answer::Done),
        Call::Widen(path) => fs.widen(path.as_slice()).map(|()| Answer::Done),
        Call::Tree => fs.tree().map(Answer::Tree),
    }
}
