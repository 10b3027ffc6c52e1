// A device beside those of its sectors that are kept.
ghost use Rattle.std.specs.Prelude.{◌≡◌, ◌∷◌, ◌<◌, ◌≤◌, None, Some, [], OnOk, OnErr, IsOk, IsSome, MatchOption, MatchResult, IfOk};
ghost use Rattle.lru.specs.LruCache.{lru_cache};
ghost use Rattle.lfs_model.specs.Device.{cell_at, Only, Carries, Elapses, IsUntouched, MayTell, BearsAll};
ghost use Rattle.lfs_model.specs.declared.Order.TheVariants as order;
ghost use Rattle.lfs_cache.specs.Kept.{Agrees, KeepsAlso, OnlyReads, PutsSector, kept_at, promoted_at, without};

use crate::cache::MOST_SECTORS;
use crate::kept::{Kept, forget, keep, last_used};
use crate::row::Row;
use lfs_device::{DeviceFault, NoMemory, ReadFault, SectorDevice, TendedDevice};
use lru::LruCache;
use std::alloc::Global;
use std::num::NonZeroUsize;

/// A device, and what is kept of it.
#[derive(Drop)]
pub(crate) struct Sectors<D: SectorDevice> {
    pub(crate) device: D,
    pub(crate) kept: Kept,
    /// The row of a sector that isn't kept any more, for the next that comes to be kept.
    spare: Option<Row>,
    /// The last sector that the device read to be lent.
    pub(crate) shown: [u8; 512],
}

impl<D: SectorDevice> Sectors<D> {
    /// Nothing is kept yet.
    ///
    /// # Errors
    ///
    /// Where memory is refused, with the device.
    pub(crate) fn new(alloc: Global, device: D, capacity: u32) -> Result<Sectors<D>, (NoMemory, D)>
        requires some { 1 ≤ capacity }
        requires most { capacity ≤ MOST_SECTORS }
        ensures device { MatchResult result
            (λ sectors. sectors.device ≡ device) (λ refused. refused.1 ≡ device) }
        ensures empty { IfOk result (λ sectors. sectors.kept ≡ lru_cache [] capacity) }
    {
        let most = NonZeroUsize::new(capacity as usize).unwrap();
        match LruCache::sparse(alloc, most) {
            Ok(kept) => Ok(Sectors {
                device,
                kept,
                spare: None,
                shown: [0; 512],
            }),
            Err(_) => Err((NoMemory, device)),
        }
    }

    pub(crate) fn into_device(self) -> D
        ensures { result ≡ self.device }
    {
        let Sectors {
            device,
            kept,
            spare,
            shown: _,
        } = self;
        drop(kept);
        drop(spare);
        device
    }

    /// A sector is kept after this, or stands in `shown` where memory refuses to keep it.
    pub(crate) fn fetch(&mut self, sector: u32) -> Result<(), ReadFault>
        requires within { sector < (D.state self.old.device).size }
        requires agrees { Agrees self.old.kept (D.state self.old.device) }
        ensures agrees { Agrees self.new.kept (D.state self.new.device) }
        ensures found { IsSome (kept_at self.old.kept sector) → IsOk result }
        ensures unasked { IsSome (kept_at self.old.kept sector)
            → self.new.device ≡ self.old.device }
        ensures used { IsSome (kept_at self.old.kept sector)
            → self.new.kept ≡ promoted_at self.old.kept sector }
        ensures kept { kept_at self.old.kept sector ≡ None
            → OnOk result (KeepsAlso sector self.new.shown self.old.kept self.new.kept) }
        ensures unkept { OnErr result (self.new.kept ≡ self.old.kept) }
        ensures shown { OnOk result (kept_at self.new.kept sector ≡ None
            → (D.state self.new.device).keeps_model
            → cell_at (D.state self.old.device).content sector ≡ Some self.new.shown) }
        ensures reads { OnlyReads
            (D.state self.old.device) (D.state self.new.device) sector result }
    {
        if last_used(&self.kept, sector).is_some() {
            return Ok(());
        }
        if self.kept.promote(&sector) {
            return Ok(());
        }
        self.device.read(sector, &mut self.shown)?;
        keep(&mut self.kept, &mut self.spare, sector, &self.shown);
        Ok(())
    }

    /// The sector where it is kept, else what is shown.
    pub(crate) fn look(&self, sector: u32) -> &[u8; 512]
        ensures { MatchOption (kept_at self.now.kept sector)
            (result.now ≡ self.now.shown) (λ bytes. result.now ≡ bytes) }
    {
        if let Some(row) = last_used(&self.kept, sector) {
            return row.bytes();
        }
        match self.kept.peek(&sector) {
            Some(row) => row.bytes(),
            None => &self.shown,
        }
    }

    /// Reads a sector from where it is kept, else from the device. Nothing more is kept for that.
    pub(crate) fn read(&mut self, sector: u32, out: &mut [u8; 512]) -> Result<(), ReadFault>
        requires within { sector < (D.state self.old.device).size }
        requires agrees { Agrees self.old.kept (D.state self.old.device) }
        ensures agrees { Agrees self.new.kept (D.state self.new.device) }
        ensures found { IsSome (kept_at self.old.kept sector) → IsOk result }
        ensures unasked { IsSome (kept_at self.old.kept sector)
            → self.new.device ≡ self.old.device }
        ensures kept { self.new.kept ≡ self.old.kept }
        ensures value { OnOk result ((D.state self.new.device).keeps_model
            → cell_at (D.state self.old.device).content sector ≡ Some out.new) }
        ensures reads { OnlyReads
            (D.state self.old.device) (D.state self.new.device) sector result }
    {
        if let Some(row) = self.kept.peek(&sector) {
            *out = *row.bytes();
            return Ok(());
        }
        self.device.read(sector, out)
    }

    /// Writes a sector. Its new bytes are kept, unless memory is refused. Nothing at all is kept
    /// after a write that fails: other sectors of the unit may be unreadable since, and which sectors
    /// those are isn't known here.
    pub(crate) fn write(&mut self, sector: u32, bytes: &[u8; 512]) -> Result<(), DeviceFault>
        requires within { sector < (D.state self.old.device).size }
        requires agrees { Agrees self.old.kept (D.state self.old.device) }
        ensures agrees { Agrees self.new.kept (D.state self.new.device) }
        ensures kept { OnOk result (KeepsAlso sector bytes.now self.old.kept self.new.kept) }
        ensures unkept { OnErr result (self.new.kept ≡ lru_cache [] self.old.kept.cap) }
        ensures puts { PutsSector (D.state self.old.device) (D.state self.new.device)
            sector bytes.now result }
    {
        match self.device.write(sector, bytes) {
            Ok(()) => {
                keep(&mut self.kept, &mut self.spare, sector, bytes);
                Ok(())
            }
            Err(fault) => {
                self.kept.clear();
                Err(fault)
            }
        }
    }

    /// Writes a sector. Nothing of it is kept after that, and nothing at all after a write that
    /// fails, as with `write`.
    pub(crate) fn write_around(&mut self, sector: u32, bytes: &[u8; 512]) -> Result<(), DeviceFault>
        requires within { sector < (D.state self.old.device).size }
        requires agrees { Agrees self.old.kept (D.state self.old.device) }
        ensures agrees { Agrees self.new.kept (D.state self.new.device) }
        ensures kept { OnOk result (self.new.kept ≡ without self.old.kept sector) }
        ensures unkept { OnErr result (self.new.kept ≡ lru_cache [] self.old.kept.cap) }
        ensures puts { PutsSector (D.state self.old.device) (D.state self.new.device)
            sector bytes.now result }
    {
        forget(&mut self.kept, sector);
        let written = self.device.write_around(sector, bytes);
        if written.is_err() {
            self.kept.clear();
        }
        written
    }

    /// Makes all contents durable.
    pub(crate) fn sync(&mut self) -> Result<(), DeviceFault>
        requires agrees { Agrees self.old.kept (D.state self.old.device) }
        ensures agrees { Agrees self.new.kept (D.state self.new.device) }
        ensures kept { self.new.kept ≡ self.old.kept }
        ensures durable { OnOk result ((D.state self.new.device).keeps_model
            → Only (D.state self.new.device).content (D.state self.new.device)) }
        ensures failed { OnErr result
            ((D.state self.old.device).failures < (D.state self.new.device).failures) }
        ensures failed_order { OnErr result
            ((D.state self.old.device).failed_orders < (D.state self.new.device).failed_orders) }
        ensures borne { OnErr result (BearsAll (D.state self.old.device)) }
        ensures no_failure { OnOk result ((D.state self.new.device).failures
            ≡ (D.state self.old.device).failures) }
        ensures untouched { IsUntouched (D.state self.old.device) (D.state self.new.device) }
        ensures carries { Carries (D.state self.old.device) (D.state self.new.device) }
        ensures time { Elapses (D.state self.old.device) (D.state self.new.device) }
        ensures told { OnOk result ((D.state self.new.device).told
            ≡ order.Sync ∷ (D.state self.old.device).told) }
        ensures may_tell { OnErr result (MayTell order.Sync
            (D.state self.old.device).told (D.state self.new.device).told) }
    {
        self.device.sync()
    }
}

impl<D: TendedDevice> Sectors<D> {
    /// The device is tended to. What is kept stays, for the device holds what it held.
    pub(crate) fn tend(&mut self)
        requires agrees { Agrees self.old.kept (D.state self.old.device) }
        ensures agrees { Agrees self.new.kept (D.state self.new.device) }
        ensures kept { self.new.kept ≡ self.old.kept }
        ensures tended { D.tends self.old.device self.new.device }
        ensures untouched { IsUntouched (D.state self.old.device) (D.state self.new.device) }
        ensures carries { Carries (D.state self.old.device) (D.state self.new.device) }
        ensures time { Elapses (D.state self.old.device) (D.state self.new.device) }
        ensures told { (D.state self.new.device).told ≡ (D.state self.old.device).told }
        ensures no_failure { (D.state self.new.device).failures
            ≡ (D.state self.old.device).failures }
    {
        self.device.tend();
    }
}
