// A file by sectors. Those that follow one another go out together.
ghost use Rattle.std.specs.Prelude.{◌≡◌, ◌+◌, ◌≤◌};
ghost use Rattle.lfs_device.specs.Event.{kept};
ghost use Rattle.lfs_device.specs.HostFile.{events};
ghost use Rattle.lfs_device.specs.Runs.{Run-set};
ghost use Rattle.lfs_device.specs.Unsent.{run_in};
ghost use Rattle.lfs_device.specs.declared.unsent.TheConstants.{LONGEST_RUN};

use crate::host::HostFile;
use crate::unsent::{Unsent, offset};
use std::alloc::{AllocError, Global};
use std::io;

/// An open file, and the run of sectors that were written and aren't sent yet.
#[derive(Drop)]
pub(crate) struct SectorFile {
    host: HostFile,
    unsent: Unsent,
    ghost few: { unsent.ahead + unsent.count ≤ LONGEST_RUN },
    ghost same: { run_in unsent ≡ kept (events host) } by { Run-set (run_in unsent) (kept (events host)) },
}

impl SectorFile {
    ghost use Rattle.std.specs.Prelude.{◌<◌, ◌∷◌, ℕ, is_ok, IfOk, OnOk, OnErr};
    ghost use Rattle.lfs_device.specs.Event.{WriteRefused, SyncRefused};
    ghost use Rattle.lfs_device.specs.FileCalls.{MakesRoom, Sends, ReadsFile, SyncsFile, WritesFile, sending};
    ghost use Rattle.lfs_device.specs.History.{calls_of, Given, Written, Refused, Synced, FailedRead, FailedSync};
    ghost use Rattle.lfs_device.specs.InOrder.{AreInOrder};
    ghost use Rattle.lfs_device.specs.Runs.{no_run, Takes};
    ghost use Rattle.lfs_device.specs.SectorFile.{events_in};

    /// No sector was written yet.
    pub(crate) fn new(alloc: Global, host: HostFile) -> Result<SectorFile, AllocError>
        requires { kept (events host) ≡ no_run }
        ensures { IfOk result (λ f. events_in f ≡ events host) }
    {
        let unsent = Unsent::new(alloc)?;
        Ok(SectorFile { host, unsent })
    }

    pub(crate) fn read(&mut self, sector: u32, out: &mut [u8; 512]) -> io::Result<()>
        ensures made { ReadsFile sector out.new (is_ok result)
            (events_in self.old) (events_in self.new) }
        ensures given { OnOk result (calls_of (events_in self.new)
            ≡ Given sector out.new ∷ calls_of (events_in self.old)) }
        ensures failed { OnErr result (calls_of (events_in self.new)
            ≡ FailedRead ∷ calls_of (events_in self.old)) }
        ensures in_order { (n : ℕ) → sector < n → AreInOrder n (events_in self.old)
            → AreInOrder n (events_in self.new) }
    {
        if self.unsent.has(sector) {
            self.unsent.read(sector, out);
            self.host.note_shown(sector, out);
            return Ok(());
        }
        self.host.read(offset(sector), out)
    }

    /// Sends the run.
    fn send(&mut self) -> io::Result<()>
        ensures { events_in self.new
            ≡ sending (events_in self.old) (is_ok result) ∷ events_in self.old }
    {
        self.unsent.send(&mut self.host)?;
        self.unsent.clear();
        Ok(())
    }

    /// Sends the run, unless a write of the sector goes on with it.
    fn make_room(&mut self, sector: u32) -> io::Result<()>
        ensures { MakesRoom sector (is_ok result) (events_in self.old) (events_in self.new) }
    {
        if self.unsent.takes(sector) {
            return Ok(());
        }
        self.send()
    }

    pub(crate) fn write(&mut self, sector: u32, bytes: &[u8; 512]) -> io::Result<()>
        ensures made { WritesFile sector bytes.now (is_ok result)
            (events_in self.old) (events_in self.new) }
        ensures written { OnOk result (calls_of (events_in self.new)
            ≡ Written sector bytes.now ∷ calls_of (events_in self.old)) }
        ensures refused { OnErr result (calls_of (events_in self.new)
            ≡ Refused sector bytes.now ∷ calls_of (events_in self.old)) }
        ensures in_order { (n : ℕ) → sector < n → AreInOrder n (events_in self.old)
            → AreInOrder n (events_in self.new) }
    {
        if let Err(error) = self.make_room(sector) {
            self.host.note_write_refused(sector, bytes);
            return Err(error);
        }
        self.unsent.take(sector, bytes);
        self.host.note_kept(sector, bytes);
        Ok(())
    }

    /// Sends the run, where there is one.
    fn send_kept(&mut self) -> io::Result<()>
        ensures { Sends (is_ok result) (events_in self.old) (events_in self.new) }
    {
        if self.unsent.is_empty() {
            return Ok(());
        }
        self.send()
    }

    pub(crate) fn sync(&mut self) -> io::Result<()>
        ensures made { SyncsFile (is_ok result) (events_in self.old) (events_in self.new) }
        ensures synced { OnOk result (calls_of (events_in self.new)
            ≡ Synced ∷ calls_of (events_in self.old)) }
        ensures failed { OnErr result (calls_of (events_in self.new)
            ≡ FailedSync ∷ calls_of (events_in self.old)) }
        ensures in_order { (n : ℕ) → AreInOrder n (events_in self.old)
            → AreInOrder n (events_in self.new) }
    {
        if let Err(error) = self.send_kept() {
            self.host.note_sync_refused();
            return Err(error);
        }
        self.host.sync()
    }
}
