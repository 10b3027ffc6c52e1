//! The calls of a volume, also over stops and failing calls of its device.
ghost use Rattle.std.specs.Prelude.{◌≤◌, ◌<◌};

use crate::steps::{Event, Row, Step, first_wrong};
use crate::volume::{device_of, formatted, mounted};
use lfs_device::{DeviceCall, Left, MemDevice};
use lfs_fs::{Fs, FsError, InVolume, Space, Stat};
use lfs_model::Kind;
use std::alloc::Global;
use std::test::Fail;

#[test]
fn each_call_answers(rt: HostRuntime) -> Result<(), Fail> {
    let rows = [Row {
        name: b"f",
        number: 2,
        size: 2,
        head: b"ab",
    }];
    let stat = Stat {
        number: 2,
        kind: Kind::File,
        links: 1,
        size: 3,
    };
    let space = Space {
        data_blocks: 2,
        meta_blocks: 2,
        need: 736,
        limit: 3_008,
    };
    let steps = [
        Step::Create(b"/f", Ok(0)),
        Step::Open(b"/f", Ok(1)),
        Step::Pwrite(0, 0, b"abc", Ok(3)),
        Step::Pwrite(0, 0, &[0; 65_537], Err(FsError::Inval)),
        Step::Pread(1, 1, 65_536, Ok(b"bc")),
        Step::Pread(1, 1, 65_537, Err(FsError::Inval)),
        Step::Stat(b"/f", Ok(stat)),
        Step::Truncate(1, 2, Ok(())),
        Step::Space(space),
        Step::Sync(Ok(())),
        Step::Tree(&rows),
    ];
    let device = formatted(rt.alloc(), 64)?;
    assert_eq!(rt; first_wrong(rt.alloc(), device, &steps)?, None);
    Ok(())
}

#[test]
fn a_file_stays_after_a_sync(rt: HostRuntime) -> Result<(), Fail> {
    let rows = [Row {
        name: b"f",
        number: 2,
        size: 1,
        head: b"a",
    }];
    let space = Space {
        data_blocks: 2,
        meta_blocks: 2,
        need: 736,
        limit: 3_008,
    };
    let steps = [
        Step::Create(b"/f", Ok(0)),
        Step::Pwrite(0, 0, b"a", Ok(1)),
        Step::Sync(Ok(())),
        Step::Space(space),
        Step::Mount(Event::Stop(Left::Bad)),
        Step::Tree(&rows),
    ];
    let device = formatted(rt.alloc(), 64)?;
    assert_eq!(rt; first_wrong(rt.alloc(), device, &steps)?, None);
    Ok(())
}

/// The empty file `a`, which is the first one of a volume.
const FILE_A: Row = Row {
    name: b"a",
    number: 2,
    size: 0,
    head: b"",
};

#[test]
fn what_is_not_synced_is_gone(rt: HostRuntime) -> Result<(), Fail> {
    let steps = [
        Step::Create(b"/a", Ok(0)),
        Step::Sync(Ok(())),
        Step::Create(b"/b", Ok(1)),
        Step::Mount(Event::Nothing),
        Step::Tree(&[FILE_A]),
    ];
    let device = formatted(rt.alloc(), 64)?;
    assert_eq!(rt; first_wrong(rt.alloc(), device, &steps)?, None);
    Ok(())
}

#[test]
fn a_failed_sync_halts_until_the_next_mount(rt: HostRuntime) -> Result<(), Fail> {
    for left in [Left::Old, Left::New, Left::Bad] {
        let mut device = formatted(rt.alloc(), 64)?;
        // The mount syncs once, and a commit before and after its checkpoint.
        device.fail(DeviceCall::Sync, 2);
        let steps = [
            Step::Create(b"/a", Ok(0)),
            Step::Sync(Err(FsError::Halted)),
            Step::Stat(b"/a", Err(FsError::Halted)),
            Step::Mount(Event::Nothing),
            Step::Tree(&[FILE_A]),
            Step::Create(b"/b", Ok(0)),
            Step::Mount(Event::Stop(left)),
            Step::Tree(&[FILE_A]),
        ];
        assert_eq!(rt; first_wrong(rt.alloc(), device, &steps)?, None);
    }
    Ok(())
}

#[test]
fn the_other_slot_is_mounted(rt: HostRuntime) -> Result<(), Fail> {
    let steps = [
        Step::Create(b"/a", Ok(0)),
        Step::Sync(Ok(())),
        Step::Mount(Event::Lose(0)),
        Step::Tree(&[]),
    ];
    let device = formatted(rt.alloc(), 64)?;
    assert_eq!(rt; first_wrong(rt.alloc(), device, &steps)?, None);
    Ok(())
}

/// Makes files one after the other, with a sync and a new mount behind each so many of them: the
/// device then.
fn files_made(alloc: Global, segments: u32, count: u16, each: u16) -> Result<MemDevice, Fail>
    requires volume { segments ≤ 1024 }
    requires some { 0 < each }
{
    let mut fs = mounted(alloc, formatted(alloc, segments)?)?;
    for file in 0..count {
        make_file(&mut fs, file)?;
        if file % each == each - 1 {
            fs.sync()?;
            fs = mounted(alloc, device_of(fs))?;
        }
    }
    fs.sync()?;
    Ok(device_of(fs))
}

/// Makes the file of this number in a series.
fn make_file(fs: &mut Fs<InVolume<MemDevice>>, file: u16) -> Result<(), FsError> {
    let [low, high] = file.to_le_bytes();
    match fs.create(&[b'a' + high % 4, b'a' + low / 16, b'a' + low % 16]) {
        Ok(_) => Ok(()),
        Err(fault) => Err(fault),
    }
}

#[test]
fn segments_never_run_out(rt: HostRuntime) -> Result<(), Fail> {
    // Each file's inode goes to a segment of its own, and there are 64: the cleaner brings them
    // together.
    let device = files_made(rt.alloc(), 64, 60, 1)?;
    let steps = [Step::Clean(Ok(())), Step::Count(60)];
    assert_eq!(rt; first_wrong(rt.alloc(), device, &steps)?, None);
    Ok(())
}

#[test]
fn a_pass_is_made_where_one_is_due(rt: HostRuntime) -> Result<(), Fail> {
    // Each file's inode goes to a segment of its own, and what else is there was written with the
    // last one. So with 49 of them 15 of 64 are clean, and a pass gains four.
    let device = files_made(rt.alloc(), 64, 49, 1)?;
    let steps = [
        Step::IsCleaningDue(true),
        Step::CleanOnce(Ok(())),
        Step::IsCleaningDue(false),
        Step::CleanOnce(Ok(())),
        Step::Count(49),
    ];
    assert_eq!(rt; first_wrong(rt.alloc(), device, &steps)?, None);
    Ok(())
}

#[test]
fn a_directory_of_1024_entries_is_full(rt: HostRuntime) -> Result<(), Fail> {
    let device = files_made(rt.alloc(), 176, 1_023, 60)?;
    // 128 blocks of the root, 1,025 inodes and a block of pointers.
    let space = Space {
        data_blocks: 128,
        meta_blocks: 1_026,
        need: 128 + 7 * 1_026 + 720,
        limit: 47 * 176,
    };
    let steps = [
        Step::Create(b"/y", Ok(0)),
        Step::OpenRest(b"/y", 1),
        Step::Create(b"/y", Err(FsError::Exist)),
        Step::Create(b"/z/", Err(FsError::NoEntry)),
        Step::Create(b"/z", Err(FsError::DirFull)),
        Step::Count(1_024),
        Step::Space(space),
    ];
    assert_eq!(rt; first_wrong(rt.alloc(), device, &steps)?, None);
    Ok(())
}
