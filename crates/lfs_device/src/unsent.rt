// Sectors that were written and aren't sent yet.
ghost use Rattle.std.specs.Prelude.{◌≡◌, ◌+◌, ◌*◌, ◌≤◌, ◌++◌, take, drop, length, vec_len};
ghost use Rattle.lfs_model.specs.declared.limits.TheConstants.{SECTOR_LEN};
ghost use Rattle.lfs_device.specs.declared.unsent.TheConstants.{RUN_LEN};

use crate::host::HostFile;
use lfs_model::limits::SECTOR_LEN;
use std::alloc::{AllocError, Global};
use std::io;

/// The most sectors that go out together.
pub(crate) const LONGEST_RUN: usize = 64;

/// The bytes of so many.
pub(crate) const RUN_LEN: usize = SECTOR_LEN * LONGEST_RUN;

/// A run of sectors: contracts see it by `run_in`. Where it has none, it is no run. Its bytes stand
/// on the heap, so that whoever moves it moves no sector. Before them is room for one sector, as
/// long as none was put there: a chunk's summary is written behind the blocks that it names.
#[derive(Drop)]
pub(crate) struct Unsent {
    first: u32,
    count: usize,
    ahead: usize,
    bytes: Vec<u8>,
    ghost near: { ahead ≤ 1 },
    ghost whole: { vec_len bytes ≡ RUN_LEN },
}

/// Where a sector's bytes begin in a file.
pub(crate) fn offset(sector: u32) -> u64
    ensures { result ≡ SECTOR_LEN * sector }
{
    SECTOR_LEN as u64 * u64::from(sector)
}

/// Copies a sector's bytes to a place.
fn copy_to(all: &mut [u8], at: usize, bytes: &[u8; 512])
    requires { at + SECTOR_LEN ≤ length all.old }
    ensures len { length all.new ≡ length all.old }
    ensures put { all.new ≡ take at all.old ++ bytes.now ++ drop (at + SECTOR_LEN) all.old }
{
    all[at..at + SECTOR_LEN].copy_from_slice(bytes);
}

/// Copies a sector's bytes from a place.
fn copy_from(all: &[u8], at: usize, out: &mut [u8; 512])
    requires { at + SECTOR_LEN ≤ length all.now }
    ensures { out.new ≡ take SECTOR_LEN (drop at all.now) }
{
    out.copy_from_slice(&all[at..at + SECTOR_LEN]);
}

impl Unsent {
    ghost use Rattle.std.specs.Prelude.{◌<◌, ◌∷◌, ◌↔◌, IfOk, IsTrue, is_ok};
    ghost use Rattle.std.specs.List.{concat};
    ghost use Rattle.lfs_device.specs.Event.{Called};
    ghost use Rattle.lfs_device.specs.HostCall.{Write};
    ghost use Rattle.lfs_device.specs.HostFile.{events};
    ghost use Rattle.lfs_device.specs.Runs.{no_run, IsEmpty, IsOf, Takes, bytes_of, first_with, placed, taken};
    ghost use Rattle.lfs_device.specs.Unsent.{run_in};

    /// There is none yet. The memory for every later one is taken here.
    pub(crate) fn new(alloc: Global) -> Result<Unsent, AllocError>
        ensures few { IfOk result (λ u. u.ahead + u.count ≤ LONGEST_RUN) }
        ensures none { IfOk result (λ u. run_in u ≡ no_run) }
    {
        let bytes = vec![in alloc; 0; RUN_LEN]?;
        Ok(Unsent {
            first: 0,
            count: 0,
            ahead: 1,
            bytes,
        })
    }

    pub(crate) fn is_empty(&self) -> bool
        ensures { IsTrue result ↔ IsEmpty (run_in self.now) }
    {
        self.count == 0
    }

    /// Whether a sector is one of the run's.
    pub(crate) fn has(&self, sector: u32) -> bool
        requires { self.now.ahead + self.now.count ≤ LONGEST_RUN }
        ensures { IsTrue result ↔ IsOf (run_in self.now) sector }
    {
        self.first <= sector && ((sector - self.first) as usize) < self.count
    }

    /// Whether a write of a sector goes on with the run.
    pub(crate) fn takes(&self, sector: u32) -> bool
        requires { self.now.ahead + self.now.count ≤ LONGEST_RUN }
        ensures { IsTrue result ↔ Takes (run_in self.now) sector }
    {
        if self.count == 0 {
            return true;
        }
        if sector < self.first {
            return self.first - sector == 1 && self.ahead == 1;
        }
        let index = (sector - self.first) as usize;
        index <= self.count && self.ahead + index < LONGEST_RUN
    }

    fn first_with(&self, sector: u32) -> u32
        ensures { result ≡ first_with (run_in self.now) sector }
    {
        if self.count == 0 { sector } else { self.first }
    }

    /// Puts a sector's bytes in the place of one that stands there, or behind all.
    fn place(&mut self, index: usize, bytes: &[u8; 512])
        requires few { self.old.ahead + self.old.count ≤ LONGEST_RUN }
        requires next { index ≤ self.old.count }
        requires low { self.old.ahead + index < LONGEST_RUN }
        ensures few { self.new.ahead + self.new.count ≤ LONGEST_RUN }
        ensures first { self.new.first ≡ self.old.first }
        ensures ahead { self.new.ahead ≡ self.old.ahead }
        ensures placed { (run_in self.new).sectors
            ≡ placed index bytes.now (run_in self.old).sectors }
    {
        let at = SECTOR_LEN * (self.ahead + index);
        copy_to(self.bytes.as_mut_slice(), at, bytes);
        self.count = self.count.max(index + 1);
    }

    /// Puts a sector's bytes before all.
    fn put_before(&mut self, bytes: &[u8; 512])
        requires few { self.old.ahead + self.old.count ≤ LONGEST_RUN }
        requires room { self.old.ahead ≡ 1 }
        ensures few { self.new.ahead + self.new.count ≤ LONGEST_RUN }
        ensures ahead { self.new.ahead ≡ 0 }
        ensures put { (run_in self.new).sectors ≡ bytes.now ∷ (run_in self.old).sectors }
    {
        copy_to(self.bytes.as_mut_slice(), 0, bytes);
        self.ahead = 0;
        self.count += 1;
    }

    /// Takes a write of a sector.
    pub(crate) fn take(&mut self, sector: u32, bytes: &[u8; 512])
        requires few { self.old.ahead + self.old.count ≤ LONGEST_RUN }
        requires takes { Takes (run_in self.old) sector }
        ensures few { self.new.ahead + self.new.count ≤ LONGEST_RUN }
        ensures taken { run_in self.new ≡ taken (run_in self.old) sector bytes.now }
    {
        let first = self.first_with(sector);
        if sector < first {
            self.put_before(bytes);
            self.first = sector;
            return;
        }
        self.first = first;
        self.place((sector - first) as usize, bytes);
    }

    /// Reads a sector of the run.
    pub(crate) fn read(&self, sector: u32, out: &mut [u8; 512])
        requires few { self.now.ahead + self.now.count ≤ LONGEST_RUN }
        requires has { IsOf (run_in self.now) sector }
        ensures { out.new ≡ bytes_of (run_in self.now) sector }
    {
        let place = self.ahead + (sector - self.first) as usize;
        copy_from(self.bytes.as_slice(), SECTOR_LEN * place, out);
    }

    /// Writes the run at its place in a file.
    pub(crate) fn send(&self, file: &mut HostFile) -> io::Result<()>
        requires { self.now.ahead + self.now.count ≤ LONGEST_RUN }
        ensures { events file.new ≡ Called (Write (SECTOR_LEN * (run_in self.now).first)
            (concat (run_in self.now).sectors) (is_ok result)) ∷ events file.old }
    {
        file.write(
            offset(self.first),
            &self.bytes,
            SECTOR_LEN * self.ahead,
            SECTOR_LEN * self.count,
        )
    }

    pub(crate) fn clear(&mut self)
        ensures few { self.new.ahead + self.new.count ≤ LONGEST_RUN }
        ensures none { run_in self.new ≡ no_run }
    {
        self.first = 0;
        self.count = 0;
        self.ahead = 1;
    }
}
