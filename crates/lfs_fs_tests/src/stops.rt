//! A device that stops within a commit.
use crate::volume::{device_of, formatted, mounted};
use lfs_device::{Left, MemDevice};
use lfs_fs::{Fs, FsError, InVolume};
use std::alloc::Global;
use std::test::Fail;

/// Makes `/a`: whether it is saved.
fn saves_a(fs: &mut Fs<InVolume<MemDevice>>) -> Result<bool, FsError> {
    fs.create(b"/a")?;
    Ok(fs.sync().is_ok())
}

/// The number of entries after `create /a` and `sync` on a device that stops within this write,
/// whose unsynced sectors are then left so; and how many writes were begun.
fn entries_after_stop(alloc: Global, write: u64, left: Left) -> Result<(usize, u64), Fail> {
    let mut device = formatted(alloc, 64)?;
    device.stop_at(write);
    let mut fs = mounted(alloc, device)?;
    let saved = saves_a(&mut fs)?;
    let mut device = device_of(fs);
    let writes = device.writes();
    device.crash(left);
    let entries = mounted(alloc, device)?.tree()?.len();
    if saved && entries != 1 {
        return Err(Fail::from("a synced file is gone"));
    }
    Ok((entries, writes))
}

#[test]
fn a_stop_leaves_the_tree_before_or_after(rt: HostRuntime) -> Result<(), Fail> {
    let alloc = rt.alloc();
    let (entries, writes) = entries_after_stop(alloc, u64::MAX, Left::Old)?;
    assert!(rt; entries == 1);
    // The checkpoint is the last write: a stop before it leaves the empty root.
    let last = writes.saturating_sub(1);
    for (left, after_last) in [(Left::Old, 0), (Left::New, 1), (Left::Bad, 0)] {
        for write in 0..writes {
            let (entries, _) = entries_after_stop(alloc, write, left)?;
            let want = if write == last { after_last } else { 0 };
            assert!(rt; entries == want);
        }
    }
    Ok(())
}
