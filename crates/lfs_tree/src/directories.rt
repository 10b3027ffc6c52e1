//! The directories of a log map, gone through one by one.
ghost use Rattle.std.specs.Prelude.{◌≡◌, [], Some, IfOk, IsErrOf};
ghost use Rattle.lfs_model.specs.Content.{block};
ghost use Rattle.lfs_dirs.specs.Directory.{slots_at};
ghost use Rattle.lfs_files.specs.Headers.{as_header};
ghost use Rattle.lfs_tree.specs.Naming.{Base, IsNoted, IsTaken, TakesNames};
ghost use Rattle.lfs_tree.specs.Reading.{FailsToRead, OfInodeAt, OfLog};
ghost use Rattle.lfs_verify.specs.Keeping.{OnlyLooks};

use crate::fault::CheckFault;
use crate::headers::Headers;
use crate::reading::{read_block, read_inode};
use crate::slots::{is_directory, take_slots};
use crate::tables::NameTables;
use lfs_cache::CachedDevice;
use lfs_device::SectorDevice;
use lfs_dirs::{slots_in_block, slots_of};
use lfs_files::Header;
use lfs_inodes::InodeMap;
use lfs_model::FileNumber;
use std::alloc::Global;
use std::collections::BTreeSet;

/// Goes through the blocks of a directory of this inode, from the last on.
///
/// # Errors
///
/// `NoMemory` where memory runs out, `Device` where a block can't be read.
fn take_blocks<D: SectorDevice>(
    alloc: Global,
    device: &mut CachedDevice<D>,
    inode: &[u8; 512],
    header: Header,
    headers: &Headers,
    directory: FileNumber,
    names: &mut BTreeSet<Vec<u8>>,
    tables: &mut NameTables,
) -> Result<bool, CheckFault>
    ensures takes { IfOk result (λ taken. OfInodeAt (D.state device.old) (D.state device.new)
        inode.now directory.value
        (λ m. (base : Base) → IsTaken header.form headers.now directory.value base [] names.old tables.old
        → TakesNames header.form headers.now directory.value base (slots_at m directory.value header)
        tables.new taken)) }
    ensures failed { IsErrOf result CheckFault.Device
        → OfInodeAt (D.state device.old) (D.state device.new) inode.now directory.value
        (λ m. FailsToRead (D.state device.old) (D.state device.new)) }
    ensures keeps { OnlyLooks (D.state device.old) (D.state device.new) result }
{
    let slots = slots_of(header);
    let whole = slots_in_block(header.form);
    let mut block = [0; 512];
    let mut index = slots.div_ceil(whole);
    while index > 0 {
        index -= 1;
        let count = (slots - whole * index).min(whole) as usize;
        match read_block(device, inode, index, &mut block) {
            Ok(()) => {}
            Err(_) => return Err(CheckFault::Device),
        }
        match take_slots(
            alloc,
            &block,
            header.form,
            count,
            directory,
            headers,
            names,
            tables,
        ) {
            Ok(true) => {}
            Ok(false) => return Ok(false),
            Err(_) => return Err(CheckFault::NoMemory),
        }
    }
    Ok(true)
}

/// Goes through a directory: false where a slot is malformed or gives a number that isn't there, or
/// two have one name.
///
/// # Errors
///
/// As those of `take_blocks`.
pub(crate) fn take_directory<D: SectorDevice>(
    alloc: Global,
    device: &mut CachedDevice<D>,
    map: &InodeMap,
    headers: &Headers,
    directory: FileNumber,
    header: Header,
    tables: &mut NameTables,
) -> Result<bool, CheckFault>
    ensures takes { IfOk result (λ taken. OfLog (D.state device.old) (D.state device.new) map.now
        (λ k m. (base : Base) → IsNoted headers.now directory.value base [] tables.old
        → TakesNames header.form headers.now directory.value base (slots_at m directory.value header)
        tables.new taken)) }
    ensures failed { IsErrOf result CheckFault.Device
        → OfLog (D.state device.old) (D.state device.new) map.now
        (λ k m. m.header directory.value ≡ Some (as_header header)
        → FailsToRead (D.state device.old) (D.state device.new)) }
    ensures keeps { OnlyLooks (D.state device.old) (D.state device.new) result }
{
    let mut inode = [0; 512];
    match read_inode(device, map, directory.value, &mut inode) {
        Ok(true) => {}
        Ok(false) => return Err(CheckFault::Device),
        Err(_) => return Err(CheckFault::Device),
    }
    let mut names = BTreeSet::new(alloc);
    take_blocks(
        alloc, device, &inode, header, headers, directory, &mut names, tables,
    )
}
