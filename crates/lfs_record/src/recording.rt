//! What a recorder does with a line.
ghost use Rattle.std.specs.Prelude.{◌≡◌, ◌⊎◌, ◌<◌, ◌≤◌, ◌^◌, ◌∷◌, [], ℕ, List, length, Some, Err, false, true, IfErr, IfOk, IfSome, OnOk};
ghost use Rattle.std.specs.Bool.{OnFalse, OnTrue};
ghost use Rattle.lfs_model.specs.Call.{Count, Create, Done, Handle, Sync};
ghost use Rattle.lfs_fs.specs.Refusals.{refusal_of};
ghost use Rattle.lfs_fs.specs.Seen.{answer_by, seen};
ghost use Rattle.lfs_fs.specs.Volume.{Serves};
ghost use Rattle.lfs_record.specs.Kept.{text_of};
ghost use Rattle.lfs_record.specs.Moves.{IsForRoom, IsLine, goes_to, started};
ghost use Rattle.lfs_record.specs.Names.{is_day};
ghost use Rattle.lfs_record.specs.Recording.{CallsWithRoom, Closes, DropsOldest, IsNoLine, KeepsFew, MakesRoom, Removes, Saves, Takes, TakesLine, Turns, writing};

use crate::files::{are_more, oldest};
use crate::names::{DAY_LEN, LAST, in_root, is_day, path_of};
use crate::recorder::{LONGEST_LINE, Present, Recorder};
use lfs_device::SectorDevice;
use lfs_fs::{Fs, FsError};
use std::alloc::Global;

/// So often room is made for one call at most: the root has 1,024 entries.
const ROUNDS: u32 = 1_025;

// Whether a refusal is for want of room, which an older file may give.
fn is_for_room(fault: FsError) -> bool
    ensures { OnTrue result (IsForRoom (refusal_of fault)) }
{
    match fault {
        FsError::NoSpace => true,
        FsError::DirFull => true,
        FsError::NoNumber => true,
        _ => false,
    }
}

// What is written of a line: it, and a newline.
fn text_of(alloc: Global, line: &[u8]) -> Result<Vec<u8>, FsError>
    ensures text { IfOk result (λ text. text.items ≡ text_of line.now) }
    ensures line { OnOk result (IsLine line.now) }
    ensures cause { IfErr result (IsNoLine line.now) }
{
    if line.len() > LONGEST_LINE || line.contains(&b'\n') {
        return Err(FsError::Inval);
    }
    let mut text = Vec::new(alloc);
    let Ok(()) = text.extend_from_slice(line) else {
        return Err(FsError::NoMemory);
    };
    let Ok(()) = text.push(b'\n') else {
        return Err(FsError::NoMemory);
    };
    Ok(text)
}

// Takes a name of the root away.
fn remove<D: SectorDevice>(alloc: Global, fs: &mut Fs<D>, name: &[u8]) -> Result<(), FsError>
    ensures { Removes D.SectorDevice.state (seen fs.old) (seen fs.new) name.now result }
{
    let Ok(path) = in_root(alloc, name) else {
        return Err(FsError::NoMemory);
    };
    fs.unlink(path.as_slice())
}

// Closes the file before, where there is one.
fn close_before<D: SectorDevice>(fs: &mut Fs<D>, before: Option<Present>) -> Result<(), FsError>
    ensures { Closes D.SectorDevice.state (seen fs.old) (seen fs.new) before result }
{
    match before {
        Some(before) => fs.close(before.handle),
        None => Ok(()),
    }
}

impl Recorder {
    // Takes the oldest file away, where a refusal is for want of room and one is older than the newest.
    fn make_room<D: SectorDevice>(
        &self,
        alloc: Global,
        fs: &mut Fs<D>,
        fault: FsError,
    ) -> Result<(), FsError>
        ensures { MakesRoom D.SectorDevice.state (seen fs.old) (seen fs.new) self.now fault
            result }
    {
        if !is_for_room(fault) {
            return Err(fault);
        }
        let entries = fs.readdir(b"/")?;
        let Some(file) = oldest(entries.as_slice(), self.number) else {
            return Err(fault);
        };
        remove(alloc, fs, file.name.as_slice())
    }

    // Takes the oldest file away, where there are more than are to be kept: whether it did.
    fn drop_oldest<D: SectorDevice>(&self, alloc: Global, fs: &mut Fs<D>) -> Result<bool, FsError>
        ensures { DropsOldest D.SectorDevice.state (seen fs.old) (seen fs.new) self.now
            result }
    {
        let entries = fs.readdir(b"/")?;
        if !are_more(entries.as_slice(), self.files) {
            return Ok(false);
        }
        let Some(file) = oldest(entries.as_slice(), self.number) else {
            return Ok(false);
        };
        match remove(alloc, fs, file.name.as_slice()) {
            Ok(()) => Ok(true),
            Err(fault) => Err(fault),
        }
    }

    // Takes files away until no more are left than are to be kept.
    fn keep_few<D: SectorDevice>(&self, alloc: Global, fs: &mut Fs<D>) -> Result<(), FsError>
        ensures { KeepsFew D.SectorDevice.state (seen fs.old) (seen fs.new) self.now result }
    {
        if self.files == 0 {
            return Ok(());
        }
        for _round in 0..ROUNDS {
            if !self.drop_oldest(alloc, fs)? {
                return Ok(());
            }
        }
        Ok(())
    }

    // Makes the file of a path, and room for it as often as it has to.
    fn create<D: SectorDevice>(
        &self,
        alloc: Global,
        fs: &mut Fs<D>,
        path: &[u8],
    ) -> Result<u32, FsError>
        ensures { CallsWithRoom D.SectorDevice.state (seen fs.old) (seen fs.new) self.now
            (Create path.now) Handle result }
    {
        for _ in 0..ROUNDS {
            match fs.create(path) {
                Ok(handle) => return Ok(handle),
                Err(fault) => self.make_room(alloc, fs, fault)?,
            }
        }
        fs.create(path)
    }

    // Writes a text behind the end of a file by one write, and makes room for it as often as it has to.
    fn write<D: SectorDevice>(
        &self,
        alloc: Global,
        fs: &mut Fs<D>,
        present: Present,
        text: &[u8],
    ) -> Result<u32, FsError>
        ensures { CallsWithRoom D.SectorDevice.state (seen fs.old) (seen fs.new) self.now
            (writing present text.now) Count result }
    {
        for _ in 0..ROUNDS {
            match fs.pwrite(present.handle, present.end, text) {
                Ok(count) => return Ok(count),
                Err(fault) => self.make_room(alloc, fs, fault)?,
            }
        }
        fs.pwrite(present.handle, present.end, text)
    }

    // Begins the next file, and closes the one before.
    fn start<D: SectorDevice>(
        &mut self,
        alloc: Global,
        fs: &mut Fs<D>,
        day: &[u8; DAY_LEN],
    ) -> Result<Present, FsError>
        requires { is_day day.now ≡ true }
        ensures { Turns D.SectorDevice.state (seen fs.old) (seen fs.new) self.old self.new
            day.now result }
    {
        if self.number >= LAST {
            return Err(FsError::Worn);
        }
        let Ok(path) = path_of(alloc, self.number + 1, day) else {
            return Err(FsError::NoMemory);
        };
        let handle = self.create(alloc, fs, path.as_slice())?;
        let before = self.present;
        let present = Present {
            handle,
            day: *day,
            end: 0,
        };
        self.number += 1;
        self.present = Some(present);
        close_before(fs, before)?;
        self.keep_few(alloc, fs)?;
        Ok(present)
    }

    // The present file, where it is of this day and takes one line more.
    fn present_of(&self, day: &[u8; DAY_LEN]) -> Option<Present>
        ensures { IfSome result (Takes self.now day.now) }
    {
        match self.present {
            Some(present) => {
                if present.day == *day && present.end < u64::from(self.bytes) {
                    return Some(present);
                }
                None
            }
            None => None,
        }
    }

    // The file that a line of this day goes to: the present one, or a new one.
    fn turn<D: SectorDevice>(
        &mut self,
        alloc: Global,
        fs: &mut Fs<D>,
        day: &[u8; DAY_LEN],
    ) -> Result<Present, FsError>
        requires { is_day day.now ≡ true }
        ensures { Turns D.SectorDevice.state (seen fs.old) (seen fs.new) self.old self.new
            day.now result }
    {
        match self.present_of(day) {
            Some(present) => Ok(present),
            None => self.start(alloc, fs, day),
        }
    }

    /// Writes a line and a newline behind the end of the newest file, by one write. A new file
    /// begins with each day, and behind so many bytes. Where there is no space the oldest file goes,
    /// never the newest nor one of another name. A stop may take away what no `save` came behind.
    ///
    /// # Errors
    ///
    /// `Inval` of a line of more than 65,535 bytes, or with a newline, and of what is no day.
    /// `NoMemory`; `Worn` where the newest file has the number 99,999,999. What `create`, `pwrite`,
    /// `readdir`, `unlink` and `close` refuse, but for `NoSpace`, `DirFull` and `NoNumber` while
    /// there is an older file.
    pub fn line<D: SectorDevice>(
        &mut self,
        alloc: Global,
        fs: &mut Fs<D>,
        day: &[u8; DAY_LEN],
        line: &[u8],
    ) -> Result<(), FsError>
        ensures { TakesLine D.SectorDevice.state (seen fs.old) (seen fs.new) self.old self.new
            day.now line.now result }
    {
        if !is_day(day) {
            return Err(FsError::Inval);
        }
        let text = text_of(alloc, line)?;
        let present = self.turn(alloc, fs, day)?;
        self.write(alloc, fs, present, text.as_slice())?;
        let mut grown = present;
        grown.end += text.len() as u64;
        self.present = Some(grown);
        Ok(())
    }

    /// Saves all lines so far: after Ok no stop takes them away.
    ///
    /// # Errors
    ///
    /// `Halted` where a call of the device failed.
    pub fn save<D: SectorDevice>(&self, fs: &mut Fs<D>) -> Result<(), FsError>
        ensures { Saves D.SectorDevice.state (seen fs.old) (seen fs.new) self.now result }
    {
        fs.sync()
    }
}
