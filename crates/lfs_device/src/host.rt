// The calls of the system on a file, and nothing else in this crate calls it. Clauses say what each
// function notes. That it makes the call that it notes has to be read, for no clause of std says
// what a call does. Those that begin with `note` make none.
ghost use Rattle.std.specs.Prelude.{◌≡◌, ◌+◌, ◌≤◌, [], ◌∷◌, drop, is_ok, take, vec_len};
ghost use Rattle.lfs_device.specs.Event.{Called, Kept, Shown, WriteRefused, SyncRefused};
ghost use Rattle.lfs_device.specs.HostCall.{Length, Read, Write, Sync};
ghost use Rattle.lfs_device.specs.HostFile.{event_noted, events, told_by};

use std::fs::{File, Metadata};
use std::io::{Seek, SeekFrom};
use std::os::unix::fs::FileExt;
use std::snapshot::Snapshot;
use std::{io, mem};

/// A call, with whether it was done, or what was done in memory alone.
#[derive(Drop)]
pub(crate) enum Noted {
    /// The length in bytes, where the call told it.
    Length(Option<u64>),
    /// The offset in bytes, and what the buffer held after the call.
    Read(u64, Snapshot<[u8; 512]>, bool),
    /// The offset in bytes, and the bytes, of which those from a place on were written, so many.
    Write(u64, Snapshot<Vec<u8>>, usize, usize, bool),
    Sync(bool),
    /// A write that was taken, and not sent yet.
    Kept(u32, Snapshot<[u8; 512]>),
    /// A read that gave what was kept.
    Shown(u32, Snapshot<[u8; 512]>),
    /// A write that wasn't taken.
    WriteRefused(u32, Snapshot<[u8; 512]>),
    /// A sync for which no call was made.
    SyncRefused,
}

/// All that was noted so far. The list is never kept: a `Snapshot` of it takes no memory.
#[derive(Drop)]
pub(crate) enum Notes {
    Nothing,
    After(Noted, Snapshot<Notes>),
}

// It takes no memory.
const _: () = prove!(size_of::<Snapshot<Notes>>() == 0);

/// An open file of the system, the calls that were made of it, and what was done between them.
#[derive(Drop)]
pub(crate) struct HostFile {
    file: File,
    notes: Snapshot<Notes>,
}

impl HostFile {
    /// No call was made yet.
    pub(crate) fn new(file: File) -> HostFile
        ensures { events result ≡ [] }
    {
        HostFile {
            file,
            notes: Snapshot::of(&Notes::Nothing),
        }
    }

    fn note(&mut self, call: Noted)
        ensures { events self.new ≡ event_noted call ∷ events self.old }
    {
        let before = mem::replace(&mut self.notes, Snapshot::of(&Notes::Nothing));
        self.notes = Snapshot::of(&Notes::After(call, before));
    }

    /// What the system tells of the file. It changes nothing and isn't noted.
    pub(crate) fn metadata(&self) -> io::Result<Metadata> {
        self.file.metadata()
    }

    /// The length in bytes, which is where the end is.
    pub(crate) fn len(&mut self) -> io::Result<u64>
        ensures { events self.new ≡ Called (Length (told_by result)) ∷ events self.old }
    {
        let answer = self.file.seek(SeekFrom::End(0));
        self.note(Noted::Length(answer.as_ref().ok().copied()));
        answer
    }

    /// Fills `out` with what the file holds from `offset` on.
    pub(crate) fn read(&mut self, offset: u64, out: &mut [u8; 512]) -> io::Result<()>
        ensures { events self.new
            ≡ Called (Read offset out.new (is_ok result)) ∷ events self.old }
    {
        let answer = self.file.read_exact_at(out, offset);
        self.note(Noted::Read(offset, Snapshot::of(out), answer.is_ok()));
        answer
    }

    /// Writes `len` of the bytes, from the place `at` on, at `offset`.
    pub(crate) fn write(
        &mut self,
        offset: u64,
        bytes: &Vec<u8>,
        at: usize,
        len: usize,
    ) -> io::Result<()>
        requires { at + len ≤ vec_len bytes.now }
        ensures { events self.new ≡ Called (Write offset (take len (drop at bytes.now.items))
            (is_ok result)) ∷ events self.old }
    {
        let answer = self.file.write_all_at(&bytes[at..at + len], offset);
        self.note(Noted::Write(offset, Snapshot::of(bytes), at, len, answer.is_ok()));
        answer
    }

    /// Lets all that was written reach the medium.
    pub(crate) fn sync(&mut self) -> io::Result<()>
        ensures { events self.new ≡ Called (Sync (is_ok result)) ∷ events self.old }
    {
        let answer = self.file.sync_all();
        self.note(Noted::Sync(answer.is_ok()));
        answer
    }

    /// A write was taken, and isn't sent yet.
    pub(crate) fn note_kept(&mut self, sector: u32, bytes: &[u8; 512])
        ensures { events self.new ≡ Kept sector bytes.now ∷ events self.old }
    {
        self.note(Noted::Kept(sector, Snapshot::of(bytes)));
    }

    /// A read gave what is kept.
    pub(crate) fn note_shown(&mut self, sector: u32, bytes: &[u8; 512])
        ensures { events self.new ≡ Shown sector bytes.now ∷ events self.old }
    {
        self.note(Noted::Shown(sector, Snapshot::of(bytes)));
    }

    /// A write wasn't taken, for what is kept couldn't be sent.
    pub(crate) fn note_write_refused(&mut self, sector: u32, bytes: &[u8; 512])
        ensures { events self.new ≡ WriteRefused sector bytes.now ∷ events self.old }
    {
        self.note(Noted::WriteRefused(sector, Snapshot::of(bytes)));
    }

    /// Nor was a sync made, for the same reason.
    pub(crate) fn note_sync_refused(&mut self)
        ensures { events self.new ≡ SyncRefused ∷ events self.old }
    {
        self.note(Noted::SyncRefused);
    }
}
