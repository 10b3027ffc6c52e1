//! Where block devices are mounted, as the system tells it in a file of lines (proc(5), mountinfo).
use std::alloc::{AllocError, Global};
use std::fs;
use std::fs::File;
use std::io::Read;
use std::os::unix::fs::{FileTypeExt, MetadataExt};
use std::rt::Files;

const MOUNTS: &str = "/proc/self/mountinfo";

/// The word of a line that has a device's number, and the one that has the folder.
const DEVICE_WORD: usize = 2;

const FOLDER_WORD: usize = 4;

/// The word that the system has for a device of this number.
pub fn word_of(alloc: Global, device: u64) -> Result<String, AllocError> {
    let major = (device >> 8) & 0xfff | (device >> 32) & !0xfff;
    let minor = device & 0xff | (device >> 12) & !0xff;
    format!(in alloc; "{major}:{minor}")
}

// The words of a line at these places, if its device has this word.
fn folder_in<'a>(line: &'a str, device: &str) -> Option<&'a str> {
    if line.split(' ').nth(DEVICE_WORD)? != device {
        return None;
    }
    line.split(' ').nth(FOLDER_WORD)
}

/// What a file has, as a text. None where it can't be read.
pub fn text_of<R: Files<File = File>>(rt: &R, alloc: Global, path: &str) -> Option<String> {
    let mut text = String::new(alloc);
    File::open(rt, path).ok()?.read_to_string(&mut text).ok()?;
    Some(text)
}

/// The folder on which a block device is mounted. None where it isn't, where a name has no block
/// device, and where the system doesn't tell.
pub fn folder_of<R: Files<File = File>>(
    rt: &R,
    alloc: Global,
    image: &str,
) -> Result<Option<String>, AllocError> {
    let Ok(metadata) = fs::metadata(rt, image) else {
        return Ok(None);
    };
    if !metadata.file_type().is_block_device() {
        return Ok(None);
    }
    let device = word_of(alloc, metadata.rdev())?;
    let Some(text) = text_of(rt, alloc, MOUNTS) else {
        return Ok(None);
    };
    for line in text.lines() {
        if let Some(folder) = folder_in(line, device.as_str()) {
            return Ok(Some(folder.to_string(alloc)?));
        }
    }
    Ok(None)
}
