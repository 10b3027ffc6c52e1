//! A file that is put over another on a device that stops at each of its writes.
use lfs_command::device::{Left, MemDevice};
use lfs_command::put;
use lfs_command::script::fs::{Fs, InVolume, find_volume, format};
use std::alloc::Global;
use std::test::Fail;

const OLD: &[u8] = b"old";

const NEW: &[u8] = b"newer";

// A volume on the heap, where each end of a function drops it by one call.
fn mounted(alloc: Global, device: MemDevice) -> Result<Box<Fs<InVolume<MemDevice>>>, Fail> {
    let Ok(found) = find_volume(device) else {
        return Err(Fail::from("not found"));
    };
    match Fs::mount(alloc, found) {
        Ok(fs) => Ok(Box::new(alloc, fs)?),
        Err(_) => Err(Fail::from("not mounted")),
    }
}

// Whether a file is put, and the device.
fn used(alloc: Global, device: MemDevice, mut bytes: &[u8]) -> Result<(bool, MemDevice), Fail> {
    let mut fs = mounted(alloc, device)?;
    let is_put = put(alloc, &mut fs, b"/f", &mut bytes).is_ok();
    Ok((is_put, Box::into_inner(fs).into_device().into_inner()))
}

// A device whose volume has the old file.
fn old_device(alloc: Global) -> Result<MemDevice, Fail> {
    let mut device = MemDevice::new(alloc, 2 + 64 * 64)?;
    format(&mut device, 64)?;
    let (_, device) = used(alloc, device, OLD)?;
    Ok(device)
}

// The file, and the number of entries of the root.
fn shown(alloc: Global, device: MemDevice) -> Result<(Vec<u8>, usize), Fail> {
    let mut fs = mounted(alloc, device)?;
    let Ok(handle) = fs.open(b"/f") else {
        return Err(Fail::from("no file"));
    };
    match (fs.pread(handle, 0, 100), fs.readdir(b"/")) {
        (Ok(bytes), Ok(entries)) => Ok((bytes, entries.len())),
        _ => Err(Fail::from("not read")),
    }
}

// Whether the new file stands behind a stop within this write. None where what stands is neither of
// them, or the old one behind a put that was done.
fn is_new(alloc: Global, write: u64, left: Left) -> Result<Option<bool>, Fail> {
    let mut device = old_device(alloc)?;
    device.stop_at(write);
    let (is_put, mut device) = used(alloc, device, NEW)?;
    device.crash(left);
    let (bytes, _) = shown(alloc, device)?;
    if bytes.as_slice() == NEW {
        return Ok(Some(true));
    }
    if bytes.as_slice() == OLD && !is_put {
        return Ok(Some(false));
    }
    Ok(None)
}

// The number of writes of a put that isn't stopped.
fn writes(alloc: Global) -> Result<u64, Fail> {
    let mut device = old_device(alloc)?;
    device.stop_at(u64::MAX);
    let (_, device) = used(alloc, device, NEW)?;
    Ok(device.writes())
}

// Stops within each write: how many stops leave the new file, and the first that leaves neither.
fn stops(alloc: Global, left: Left) -> Result<(u32, Option<u64>), Fail> {
    let mut new = 0u32;
    for write in 0..writes(alloc)? {
        match is_new(alloc, write, left)? {
            Some(true) => new = new.saturating_add(1),
            Some(false) => {}
            None => return Ok((new, Some(write))),
        }
    }
    Ok((new, None))
}

// The last write is that of the checkpoint behind the rename.
#[test]
fn stops_within_a_put(rt: HostRuntime) -> Result<(), Fail> {
    let alloc = rt.alloc();
    for (left, new) in [(Left::Old, 0), (Left::New, 1), (Left::Bad, 0)] {
        let found = stops(alloc, left)?;
        assert!(rt; found == (new, None));
    }
    Ok(())
}

// What a stop left beside the file is gone behind the next put.
#[test]
fn a_put_behind_a_stop(rt: HostRuntime) -> Result<(), Fail> {
    let alloc = rt.alloc();
    let last = writes(alloc)?.saturating_sub(1);
    let mut device = old_device(alloc)?;
    device.stop_at(last);
    let (is_put, mut device) = used(alloc, device, NEW)?;
    assert!(rt; !is_put);
    device.crash(Left::Old);
    let (is_put, device) = used(alloc, device, b"newest")?;
    assert!(rt; is_put);
    let (bytes, entries) = shown(alloc, device)?;
    assert!(rt; bytes.as_slice() == b"newest".as_slice() && entries == 1);
    Ok(())
}
