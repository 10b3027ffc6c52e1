//! Names that are taken away.
use crate::steps::{Event, Step, first_wrong};
use crate::volume::formatted;
use lfs_fs::FsError;
use std::test::Fail;

#[test]
fn a_file_goes_with_its_name_and_its_handle(rt: HostRuntime) -> Result<(), Fail> {
    let steps = [
        Step::Create(b"/f", Ok(0)),
        Step::Pwrite(0, 0, b"ab", Ok(2)),
        Step::Unlink(b"/f", Ok(())),
        Step::Unlink(b"/f", Err(FsError::NoEntry)),
        Step::Count(0),
        Step::Pread(0, 0, 2, Ok(b"ab")),
        Step::Close(0, Ok(())),
        Step::Create(b"/f", Ok(0)),
        Step::Pread(0, 0, 2, Ok(b"")),
        Step::Close(0, Ok(())),
        Step::Unlink(b"/f", Ok(())),
        Step::Sync(Ok(())),
        Step::Mount(Event::Nothing),
        Step::Count(0),
    ];
    let device = formatted(rt.alloc(), 64)?;
    assert_eq!(rt; first_wrong(rt.alloc(), device, &steps)?, None);
    Ok(())
}

#[test]
fn what_is_no_name_of_a_file_stays(rt: HostRuntime) -> Result<(), Fail> {
    let steps = [
        Step::Mkdir(b"/d", Ok(())),
        Step::Create(b"/f", Ok(0)),
        Step::Unlink(b"/", Err(FsError::Perm)),
        Step::Unlink(b"/d/..", Err(FsError::Perm)),
        Step::Unlink(&[b'n'; 60], Err(FsError::NameTooLong)),
        Step::Unlink(b"/n", Err(FsError::NoEntry)),
        Step::Unlink(b"/f/", Err(FsError::NotDir)),
        Step::Unlink(b"/d/", Err(FsError::Perm)),
        Step::Unlink(b"/d", Err(FsError::Perm)),
        Step::Count(2),
    ];
    let device = formatted(rt.alloc(), 64)?;
    assert_eq!(rt; first_wrong(rt.alloc(), device, &steps)?, None);
    Ok(())
}
