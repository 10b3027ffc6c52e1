// What a layer above can prove from the traits' clauses alone where units are sectors: a row of
// sectors, and a row that takes effect by a slot.
ghost use Rattle.std.specs.Prelude.{◌≡◌, ◌+◌, ◌<◌, ◌≤◌, length, OnOk, OnErr};
ghost use Rattle.lfs_model.specs.Device.{put, Only, AllLeft, Carries, LeavesOnly, ComesFrom, SameOutside};
ghost use Rattle.lfs_device_tests.specs.Commit.{pasted, IsBeforeOrAfter};

use lfs_device::{DeviceFault, SectorUnits};

/// Writes sectors in a row. A stop at any moment leaves a content that a stop might have left
/// before, but for these sectors.
///
/// # Errors
///
/// The fault where a write failed.
pub fn write_blocks<D: SectorUnits>(
    device: &mut D,
    first: u32,
    blocks: &[[u8; 512]],
) -> Result<(), DeviceFault>
    requires { first + length blocks.now ≤ (D.state device.old).size }
    ensures any_moment { LeavesOnly (D.state device.old) (D.state device.new)
        (ComesFrom (D.state device.old) (SameOutside first (length blocks.now))) }
    ensures left { AllLeft (D.state device.new)
        (ComesFrom (D.state device.old) (SameOutside first (length blocks.now))) }
    ensures content { OnOk result ((D.state device.new).keeps_model
        → (D.state device.new).content ≡ pasted first blocks.now (D.state device.old).content) }
    ensures failed { OnErr result ((D.state device.old).failures < (D.state device.new).failures) }
    ensures no_failure { OnOk result
        ((D.state device.new).failures ≡ (D.state device.old).failures) }
    ensures carries { Carries (D.state device.old) (D.state device.new) }
{
    for (i, block) in blocks.iter().enumerate() {
        device.write(first + i as u32, block)?;
    }
    Ok(())
}

/// Writes sectors in a row and syncs them, and then writes the slot and syncs. Where nothing was
/// unsynced, a stop at any moment leaves the content as it was, but for the row, or the whole row
/// with the slot as it was, with its bytes or unreadable. After `Ok` it leaves the row and the
/// slot's bytes.
///
/// # Errors
///
/// The fault where a call of the device failed.
pub fn commit<D: SectorUnits>(
    device: &mut D,
    first: u32,
    blocks: &[[u8; 512]],
    slot: u32,
    bytes: &[u8; 512],
) -> Result<(), DeviceFault>
    requires range { first + length blocks.now ≤ (D.state device.old).size }
    requires slot { slot < (D.state device.old).size }
    ensures any_moment { (D.state device.new).keeps_model
        → Only (D.state device.old).content (D.state device.old)
        → LeavesOnly (D.state device.old) (D.state device.new)
        (IsBeforeOrAfter first blocks.now slot bytes.now (D.state device.old).content) }
    ensures content { OnOk result ((D.state device.new).keeps_model
        → (D.state device.new).content ≡ put
        (pasted first blocks.now (D.state device.old).content) slot bytes.now) }
    ensures durable { OnOk result ((D.state device.new).keeps_model
        → Only (D.state device.new).content (D.state device.new)) }
    ensures failed { OnErr result ((D.state device.old).failures < (D.state device.new).failures) }
    ensures no_failure { OnOk result
        ((D.state device.new).failures ≡ (D.state device.old).failures) }
    ensures carries { Carries (D.state device.old) (D.state device.new) }
{
    write_blocks(device, first, blocks)?;
    device.sync()?;
    device.write(slot, bytes)?;
    device.sync()
}
