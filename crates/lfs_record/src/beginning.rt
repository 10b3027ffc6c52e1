//! How a recorder begins: by the files that are there.
ghost use Rattle.std.specs.Prelude.{◌≡◌, min, true};
ghost use Rattle.lfs_fs.specs.Answers.{status_of};
ghost use Rattle.lfs_fs.specs.Seen.{seen};
ghost use Rattle.lfs_record.specs.Asking.{BeginsOn, KeepsOpen, TakesFile};
ghost use Rattle.lfs_record.specs.Beginning.{is_own};
ghost use Rattle.lfs_record.specs.Names.{is_name};
ghost use Rattle.lfs_record.specs.declared.recorder.TheConstants.{MOST_BYTES};

use crate::files::{is_file, newest};
use crate::names::{DAY_LEN, day_of, in_root, number_of};
use crate::recorder::{MOST_BYTES, Present, Recorder};
use lfs_device::SectorDevice;
use lfs_fs::{Fs, FsError, Stat};
use std::alloc::Global;

// Whether lines may go on in what stands at a name: a file that no other name gives.
fn is_own(stat: &Stat) -> bool
    ensures { result ≡ is_own (status_of stat.now) }
{
    is_file(stat.kind) && stat.links == 1
}

// Goes on in a file that is open, where it ends with a newline or is empty; and else closes it.
fn keep_open<D: SectorDevice>(
    fs: &mut Fs<D>,
    handle: u32,
    day: [u8; DAY_LEN],
    size: u64,
) -> Result<Option<Present>, FsError>
    ensures { KeepsOpen D.SectorDevice.state (seen fs.old) (seen fs.new) handle day size result }
{
    let present = Present {
        handle,
        day,
        end: size,
    };
    if size == 0 {
        return Ok(Some(present));
    }
    let last = match fs.pread(handle, size - 1, 1) {
        Ok(last) => last,
        Err(fault) => {
            let _closed = fs.close(handle);
            return Err(fault);
        }
    };
    if last.as_slice() == b"\n".as_slice() {
        return Ok(Some(present));
    }
    fs.close(handle)?;
    Ok(None)
}

// Goes on in the file of a name, where that can be.
fn take_up<D: SectorDevice>(
    alloc: Global,
    fs: &mut Fs<D>,
    name: &[u8],
) -> Result<Option<Present>, FsError>
    requires { is_name name.now ≡ true }
    ensures { TakesFile D.SectorDevice.state (seen fs.old) (seen fs.new) name.now result }
{
    let Ok(path) = in_root(alloc, name) else {
        return Err(FsError::NoMemory);
    };
    let stat = fs.lstat(path.as_slice())?;
    if !is_own(&stat) {
        return Ok(None);
    }
    let handle = fs.open(path.as_slice())?;
    keep_open(fs, handle, day_of(name), stat.size)
}

impl Recorder {
    /// Begins to record: a file goes on until it has so many bytes, and so many files are kept at
    /// most, or as many as there is space for where that is 0. The newest file goes on where no
    /// other name gives it, and it ends with a newline or is empty. Nothing is changed yet.
    ///
    /// # Errors
    ///
    /// `NoMemory`. What `readdir` of the root refuses, and `lstat`, `open`, `pread` and `close` of
    /// the newest file.
    pub fn begin<D: SectorDevice>(
        alloc: Global,
        fs: &mut Fs<D>,
        bytes: u32,
        files: u32,
    ) -> Result<Recorder, FsError>
        ensures { BeginsOn D.SectorDevice.state (seen fs.old) (seen fs.new)
            (min bytes MOST_BYTES) files result }
    {
        let entries = fs.readdir(b"/")?;
        let bytes = bytes.min(MOST_BYTES);
        let Some(entry) = newest(entries.as_slice()) else {
            return Ok(Recorder {
                bytes,
                files,
                number: 0,
                present: None,
            });
        };
        let number = number_of(entry.name.as_slice());
        let present = take_up(alloc, fs, entry.name.as_slice())?;
        Ok(Recorder {
            bytes,
            files,
            number,
            present,
        })
    }
}
