//! Reading a block of a volume.
ghost use Rattle.std.specs.Prelude.{◌≡◌, ◌<◌, ◌≤◌, ◌+◌, ◌^◌, IfOk, IsTrue, cond, [], length};
ghost use Rattle.lfs_model.specs.declared.limits.TheConstants.{SECTOR_LEN};
ghost use Rattle.lfs_model.specs.Content.{block};
ghost use Rattle.lfs_verify.specs.Keeping.{LooksOrFails, OfContent, Steps};
ghost use Rattle.lfs_verify.specs.Take.{TakesBlock};

use crate::marks::claim;
use lfs_cache::CachedDevice;
use lfs_device::{DeviceFault, ReadFault, SectorDevice};

/// Reads the block at an address: true where it can be read. One that can't be read counts as
/// empty.
///
/// # Errors
///
/// The fault where the call of the device failed.
pub fn fetch<D: SectorDevice>(
    device: &mut CachedDevice<D>,
    address: u32,
    out: &mut [u8; 512],
) -> Result<bool, DeviceFault>
    requires some { 0 < address }
    requires inside { address < (D.state device.old).size }
    ensures block { IfOk result (λ r. OfContent (D.state device.old) (D.state device.new) (λ c.
        block c address ≡ cond r out.new [])) }
    ensures keeps { LooksOrFails (D.state device.old) (D.state device.new) result }
{
    match device.read(address, out) {
        Ok(()) => Ok(true),
        Err(ReadFault::Unreadable) => Ok(false),
        Err(ReadFault::Failed) => Err(DeviceFault),
    }
}

/// Marks the block at an address as reached at a step of the walk, and reads it: false where it is
/// none of a segment, was reached before, or can't be read.
///
/// # Errors
///
/// The fault where the call of the device failed.
pub fn take_block<D: SectorDevice>(
    device: &mut CachedDevice<D>,
    address: u32,
    step: u32,
    marks: &mut [u32],
    out: &mut [u8; 512],
) -> Result<bool, DeviceFault>
    requires step { step + 1 < 2 ^ 32 }
    requires inside { length marks.old ≤ (D.state device.old).size }
    ensures takes { IfOk result (λ r. OfContent (D.state device.old) (D.state device.new) (λ c.
        TakesBlock c marks.old marks.new address step out.new r)) }
    ensures long { IfOk result (λ r. IsTrue r → length out.new ≡ SECTOR_LEN) }
    ensures keeps { Steps (D.state device.old) (D.state device.new) marks.old marks.new result }
{
    if !claim(marks, address, step) {
        return Ok(false);
    }
    if !fetch(device, address, out)? {
        return Ok(false);
    }
    Ok(true)
}
