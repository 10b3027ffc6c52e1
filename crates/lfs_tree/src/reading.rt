//! Inodes and blocks of files, read where a content stands for a log map.
ghost use Rattle.std.specs.Prelude.{◌≡◌, ◌<◌, length, IfOk, OnOk, OnErr};
ghost use Rattle.lfs_model.specs.Content.{Content, block};
ghost use Rattle.lfs_model.specs.Reach.{address};
ghost use Rattle.lfs_files.specs.Files.{HoldsBlock};
ghost use Rattle.lfs_verify.specs.Take.{ReadsContent};
ghost use Rattle.lfs_tree.specs.Reading.{FailsToRead, InodeAnswer, OfInode, OfLog};
ghost use Rattle.lfs_verify.specs.Keeping.{OnlyLooks};

use lfs_cache::CachedDevice;
use lfs_device::{DeviceFault, ReadFault, SectorDevice};
use lfs_inodes::{InodeMap, locate};
use lfs_model::limits::FILE_NUMBERS;

/// Reads the block at an address.
///
/// # Errors
///
/// The fault where the block isn't on the device, can't be read, or the call failed.
fn read_sector<D: SectorDevice>(
    device: &mut CachedDevice<D>,
    address: u32,
    out: &mut [u8; 512],
) -> Result<(), DeviceFault>
    requires { 0 < address }
    ensures block { OnOk result ((c : Content)
        → ReadsContent (D.state device.old) (D.state device.new) c → block c address ≡ out.new) }
    ensures failed { OnErr result ((c : Content)
        → ReadsContent (D.state device.old) (D.state device.new) c
        → address < length c → 0 < length (block c address)
        → (D.state device.old).failures < (D.state device.new).failures) }
    ensures keeps { OnlyLooks (D.state device.old) (D.state device.new) result }
{
    if address >= device.sectors() {
        return Err(DeviceFault);
    }
    match device.read(address, out) {
        Ok(()) => Ok(()),
        Err(ReadFault::Unreadable) => Err(DeviceFault),
        Err(ReadFault::Failed) => Err(DeviceFault),
    }
}

/// Whether a file is there, and its inode then.
///
/// # Errors
///
/// The fault where a call of the device failed, or the inode can't be read.
pub(crate) fn read_inode<D: SectorDevice>(
    device: &mut CachedDevice<D>,
    map: &InodeMap,
    number: u16,
    out: &mut [u8; 512],
) -> Result<bool, DeviceFault>
    requires { number < FILE_NUMBERS }
    ensures answer { IfOk result (λ found. OfLog (D.state device.old) (D.state device.new) map.now
        (λ k m. InodeAnswer (D.state device.old).content k m number out.new found)) }
    ensures failed { OnErr result (OfLog (D.state device.old) (D.state device.new) map.now
        (λ k m. FailsToRead (D.state device.old) (D.state device.new))) }
    ensures keeps { OnlyLooks (D.state device.old) (D.state device.new) result }
{
    let address = map.address(number);
    if address == 0 {
        return Ok(false);
    }
    read_sector(device, address, out)?;
    Ok(true)
}

/// Reads a block of the file of an inode; one that isn't stored reads as zeros.
///
/// # Errors
///
/// The fault where a call of the device failed, or a block can't be read.
pub(crate) fn read_block<D: SectorDevice>(
    device: &mut CachedDevice<D>,
    inode: &[u8; 512],
    index: u32,
    out: &mut [u8; 512],
) -> Result<(), DeviceFault>
    ensures answer { OnOk result (OfInode (D.state device.old) (D.state device.new) inode.now
        (λ m n. HoldsBlock m n index out.new)) }
    ensures failed { OnErr result (OfInode (D.state device.old) (D.state device.new) inode.now
        (λ m n. FailsToRead (D.state device.old) (D.state device.new))) }
    ensures keeps { OnlyLooks (D.state device.old) (D.state device.new) result }
{
    let address = match locate(device, inode, index) {
        Ok(address) => address,
        Err(ReadFault::Unreadable) => return Err(DeviceFault),
        Err(ReadFault::Failed) => return Err(DeviceFault),
    };
    if address == 0 {
        *out = [0; 512];
        return Ok(());
    }
    read_sector(device, address, out)
}
