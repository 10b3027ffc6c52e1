// What a layer above may know of a device.
ghost use Rattle.std.specs.Prelude.{◌≡◌, ◌<◌, ◌≤◌, ◌∷◌, ℕ, List, Some, None, IsOk, OnOk, OnErr, IsErrOf};
ghost use Rattle.lfs_model.specs.Device.{DeviceState, cell_at, put, MayWriteUnit, Only, Carries, Elapses, IsUntouched, CrashWritesUnit, IsLawful, MayTell, BearsAll};
ghost use Rattle.lfs_model.specs.declared.Order.TheVariants as order;

/// Why a read gives no bytes.
#[derive(Clone, Copy, Debug, PartialEq, Eq)]
pub enum ReadFault {
    /// The sector's content can't be read.
    Unreadable,
    /// The call failed.
    Failed,
}

/// A call failed.
#[derive(Clone, Copy, Debug, PartialEq, Eq)]
pub struct DeviceFault;

/// A device of sectors of 512 bytes, numbered from 0. A sector that a call names is below
/// `sectors()`.
///
/// What is said of contents holds where the device keeps the device model after the call, and then
/// it kept it before. A device writes units, which may be larger than a sector. A stop, within a
/// call or between two, leaves each sector by itself as it was at the last sync that succeeded, with
/// the bytes of any write to it since, done or failed, or, if a sector of its unit was written
/// since, unreadable.
///
/// A device may tell how many orders it bears: no call fails while fewer writes and syncs were told.
pub trait SectorDevice {
    ghost state: { Self → DeviceState };

    /// The number of sectors, which never changes.
    fn sectors(&self) -> u32
        ensures { result ≡ (state self.now).size };

    /// Reads a sector into `out`.
    ///
    /// # Errors
    ///
    /// `Unreadable` where the sector's content can't be read, and `Failed` where the call failed:
    /// that raises the failure count.
    fn read(&mut self, sector: u32, out: &mut [u8; 512]) -> Result<(), ReadFault>
        requires { sector < (state self.old).size }
        ensures value { OnOk result ((state self.new).keeps_model
            → cell_at (state self.old).content sector ≡ Some out.new) }
        ensures unreadable { IsErrOf result ReadFault.Unreadable → (state self.new).keeps_model
            → cell_at (state self.old).content sector ≡ None }
        ensures failed { IsErrOf result ReadFault.Failed
            → (state self.old).failures < (state self.new).failures }
        ensures no_failure { OnOk result ((state self.new).failures ≡ (state self.old).failures) }
        ensures no_failure_unreadable { IsErrOf result ReadFault.Unreadable
            → (state self.new).failures ≡ (state self.old).failures }
        ensures no_order { (state self.new).failed_orders ≡ (state self.old).failed_orders }
        ensures borne { IsErrOf result ReadFault.Failed → BearsAll (state self.old) }
        ensures untouched { IsUntouched (state self.old) (state self.new) }
        ensures carries { Carries (state self.old) (state self.new) }
        ensures time { Elapses (state self.old) (state self.new) }
        ensures told { (state self.new).told ≡ (state self.old).told };

    /// Writes a sector. It is durable after the next sync that succeeds.
    ///
    /// # Errors
    ///
    /// The fault where the call failed: the sector is as it was, has the bytes, or is unreadable,
    /// and other sectors of its unit are as they were or unreadable. It raises the failure counts.
    fn write(&mut self, sector: u32, bytes: &[u8; 512]) -> Result<(), DeviceFault>
        requires { sector < (state self.old).size }
        ensures written { OnOk result ((state self.new).keeps_model
            → (state self.new).content ≡ put (state self.old).content sector bytes.now) }
        ensures failed_write { OnErr result ((state self.new).keeps_model
            → MayWriteUnit (state self.old).unit sector bytes.now
            (state self.old).content (state self.new).content) }
        ensures crash { CrashWritesUnit sector bytes.now (state self.old) (state self.new) }
        ensures failed { OnErr result ((state self.old).failures < (state self.new).failures) }
        ensures failed_order { OnErr result
            ((state self.old).failed_orders < (state self.new).failed_orders) }
        ensures borne { OnErr result (BearsAll (state self.old)) }
        ensures no_failure { OnOk result ((state self.new).failures ≡ (state self.old).failures) }
        ensures carries { Carries (state self.old) (state self.new) }
        ensures time { Elapses (state self.old) (state self.new) }
        ensures told { OnOk result ((state self.new).told
            ≡ order.Write sector bytes.now ∷ (state self.old).told) }
        ensures may_tell { OnErr result (MayTell (order.Write sector bytes.now)
            (state self.old).told (state self.new).told) };

    /// Writes a sector that isn't likely to be read soon, as `write` does. A device in front of which
    /// sectors are kept needn't keep this one.
    ///
    /// # Errors
    ///
    /// As `write`.
    fn write_around(&mut self, sector: u32, bytes: &[u8; 512]) -> Result<(), DeviceFault>
        requires { sector < (state self.old).size }
        ensures written { OnOk result ((state self.new).keeps_model
            → (state self.new).content ≡ put (state self.old).content sector bytes.now) }
        ensures failed_write { OnErr result ((state self.new).keeps_model
            → MayWriteUnit (state self.old).unit sector bytes.now
            (state self.old).content (state self.new).content) }
        ensures crash { CrashWritesUnit sector bytes.now (state self.old) (state self.new) }
        ensures failed { OnErr result ((state self.old).failures < (state self.new).failures) }
        ensures failed_order { OnErr result
            ((state self.old).failed_orders < (state self.new).failed_orders) }
        ensures borne { OnErr result (BearsAll (state self.old)) }
        ensures no_failure { OnOk result ((state self.new).failures ≡ (state self.old).failures) }
        ensures carries { Carries (state self.old) (state self.new) }
        ensures time { Elapses (state self.old) (state self.new) }
        ensures told { OnOk result ((state self.new).told
            ≡ order.Write sector bytes.now ∷ (state self.old).told) }
        ensures may_tell { OnErr result (MayTell (order.Write sector bytes.now)
            (state self.old).told (state self.new).told) }
    {
        self.write(sector, bytes)
    }

    /// Makes all contents durable.
    ///
    /// # Errors
    ///
    /// The fault where the call failed: what was unsynced stays so. It raises the failure counts.
    fn sync(&mut self) -> Result<(), DeviceFault>
        ensures durable { OnOk result ((state self.new).keeps_model
            → Only (state self.new).content (state self.new)) }
        ensures failed { OnErr result ((state self.old).failures < (state self.new).failures) }
        ensures failed_order { OnErr result
            ((state self.old).failed_orders < (state self.new).failed_orders) }
        ensures borne { OnErr result (BearsAll (state self.old)) }
        ensures no_failure { OnOk result ((state self.new).failures ≡ (state self.old).failures) }
        ensures untouched { IsUntouched (state self.old) (state self.new) }
        ensures carries { Carries (state self.old) (state self.new) }
        ensures time { Elapses (state self.old) (state self.new) }
        ensures told { OnOk result ((state self.new).told
            ≡ order.Sync ∷ (state self.old).told) }
        ensures may_tell { OnErr result (MayTell order.Sync
            (state self.old).told (state self.new).told) };

    ghost lawful: { (d : Self) → IsLawful (state d) };
}
