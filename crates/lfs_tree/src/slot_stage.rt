//! Stage 10: each directory's slots are well-formed, its names differ, and its numbers are there.
ghost use Rattle.std.specs.Prelude.{[], IfOk, IsErrOf};
ghost use Rattle.lfs_tree.specs.Naming.{AreEmpty, Base, IsNoted};
ghost use Rattle.lfs_tree.specs.Objects.{SlotStage, TakesObject};
ghost use Rattle.lfs_tree.specs.Reading.{FailsToRead, OfHeaders};
ghost use Rattle.lfs_verify.specs.Keeping.{OnlyLooks};

use crate::directories::take_directory;
use crate::fault::CheckFault;
use crate::headers::Headers;
use crate::slots::is_directory;
use crate::tables::NameTables;
use lfs_cache::CachedDevice;
use lfs_device::SectorDevice;
use lfs_inodes::InodeMap;
use lfs_model::FileNumber;
use lfs_model::limits::FILE_NUMBERS;
use std::alloc::Global;

/// Goes through the object at a number, if it is a directory.
///
/// # Errors
///
/// `NoMemory` where memory runs out, `Device` where a block can't be read.
fn take_object<D: SectorDevice>(
    alloc: Global,
    device: &mut CachedDevice<D>,
    map: &InodeMap,
    headers: &Headers,
    number: FileNumber,
    tables: &mut NameTables,
) -> Result<bool, CheckFault>
    ensures takes { IfOk result (λ taken. OfHeaders (D.state device.old) (D.state device.new)
        map.now headers.now
        (λ k m. (base : Base) → IsNoted headers.now number.value base [] tables.old
        → TakesObject m headers.now number.value base tables.new taken)) }
    ensures failed { IsErrOf result CheckFault.Device
        → OfHeaders (D.state device.old) (D.state device.new) map.now headers.now
        (λ k m. FailsToRead (D.state device.old) (D.state device.new)) }
    ensures keeps { OnlyLooks (D.state device.old) (D.state device.new) result }
{
    let Some(header) = headers.get(number.value) else {
        return Ok(true);
    };
    if !is_directory(header) {
        return Ok(true);
    }
    take_directory(alloc, device, map, headers, number, header, tables)
}

/// Goes through all directories, and takes what their entries say of numbers to empty tables. False
/// where the stage fails.
///
/// # Errors
///
/// `NoMemory` where memory runs out, `Device` where a block can't be read.
pub fn stage_slots<D: SectorDevice>(
    alloc: Global,
    device: &mut CachedDevice<D>,
    map: &InodeMap,
    headers: &Headers,
    tables: &mut NameTables,
) -> Result<bool, CheckFault>
    ensures holds { IfOk result (λ holds. OfHeaders (D.state device.old) (D.state device.new)
        map.now headers.now
        (λ k m. AreEmpty tables.old → SlotStage m headers.now tables.new holds)) }
    ensures failed { IsErrOf result CheckFault.Device
        → OfHeaders (D.state device.old) (D.state device.new) map.now headers.now
        (λ k m. FailsToRead (D.state device.old) (D.state device.new)) }
    ensures keeps { OnlyLooks (D.state device.old) (D.state device.new) result }
{
    for number in 1..FILE_NUMBERS {
        let number = FileNumber { value: number };
        if !take_object(alloc, device, map, headers, number, tables)? {
            return Ok(false);
        }
    }
    Ok(true)
}
