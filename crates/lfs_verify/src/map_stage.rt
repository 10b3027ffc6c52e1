//! The blocks of the inode map, and the table of inode addresses that they hold.
ghost use Rattle.std.specs.Prelude.{◌≡◌, ◌<◌, ◌≤◌, ◌+◌, ◌*◌, ℕ, length, get_or, IsTrue, IfOk};
ghost use Rattle.lfs_model.specs.Reach.{view};
ghost use Rattle.lfs_model.specs.Stands.{Maps};
ghost use Rattle.lfs_verify.specs.Keeping.{OfContent, Steps};
ghost use Rattle.lfs_verify.specs.MapTables.{Copies, ListsUpTo, IsEmptyFrom};
ghost use Rattle.lfs_verify.specs.Take.{Advances, Lists};
ghost use Rattle.lfs_verify.specs.Walk.{Walked, IsBounded};

use crate::order::{FIRST_INODE, FIRST_MAP};
use crate::reading::take_block;
use crate::values::{has_word, word_at};
use lfs_cache::CachedDevice;
use lfs_device::{DeviceFault, SectorDevice};
use lfs_layout::Checkpoint;
use lfs_model::limits::{BLOCK_POINTERS, FILE_NUMBERS, MAP_BLOCKS};

pub(crate) fn map_address(checkpoint: &Checkpoint, index: u32) -> u32
    requires { index < MAP_BLOCKS }
    ensures { result ≡ get_or checkpoint.now.map index 0 }
{
    checkpoint.map[index as usize]
}

/// Copies the addresses in a block of the inode map to their places in the table.
fn copy_words(block: &[u8; 512], index: u32, map: &mut [u32])
    requires index { index < MAP_BLOCKS }
    requires files { length map.old ≡ FILE_NUMBERS }
    ensures { Copies block.now map.old map.new (BLOCK_POINTERS * index) BLOCK_POINTERS }
{
    for place in 0..128usize {
        map[128 * index as usize + place] = word_at(block, place);
    }
}

/// Takes a block of the inode map, where there is one, and copies its addresses to the table.
///
/// # Errors
///
/// The fault where a call of the device failed.
pub fn take_map<D: SectorDevice>(
    device: &mut CachedDevice<D>,
    checkpoint: &Checkpoint,
    index: u32,
    map: &mut [u32],
    marks: &mut [u32],
    sector: &mut [u8; 512],
) -> Result<bool, DeviceFault>
    requires index { index < MAP_BLOCKS }
    requires files { length map.old ≡ FILE_NUMBERS }
    requires empty { IsEmptyFrom map.old index }
    requires inside { length marks.old ≤ (D.state device.old).size }
    ensures goes { IfOk result (λ r. OfContent (D.state device.old) (D.state device.new) (λ c.
        Advances (view c checkpoint.now) marks.old marks.new (FIRST_MAP + index)
        (FIRST_MAP + (index + 1)) (Maps (view c checkpoint.now)) r)) }
    ensures lists { IfOk result (λ r. IsTrue r
        → OfContent (D.state device.old) (D.state device.new) (λ c.
        ListsUpTo (view c checkpoint.now) map.old index
        → ListsUpTo (view c checkpoint.now) map.new (index + 1))) }
    ensures empty { IfOk result (λ r. IsTrue r → IsEmptyFrom map.new (index + 1)) }
    ensures files { length map.new ≡ length map.old }
    ensures keeps { Steps (D.state device.old) (D.state device.new) marks.old marks.new result }
{
    let address = map_address(checkpoint, index);
    if address == 0 {
        return Ok(true);
    }
    if !take_block(device, address, FIRST_MAP + index, marks, sector)? {
        return Ok(false);
    }
    if !has_word(sector) {
        return Ok(false);
    }
    copy_words(sector, index, map);
    Ok(true)
}

/// Stage 3: takes the blocks of the inode map, and copies their addresses to an empty table. False
/// where the stage fails.
///
/// # Errors
///
/// The fault where a call of the device failed.
pub fn stage_maps<D: SectorDevice>(
    device: &mut CachedDevice<D>,
    checkpoint: &Checkpoint,
    map: &mut [u32],
    marks: &mut [u32],
    sector: &mut [u8; 512],
) -> Result<bool, DeviceFault>
    requires files { length map.old ≡ FILE_NUMBERS }
    requires empty { (n : ℕ) → get_or map.old n 0 ≡ 0 }
    requires inside { length marks.old ≤ (D.state device.old).size }
    ensures goes { IfOk result (λ r. OfContent (D.state device.old) (D.state device.new) (λ c.
        Advances (view c checkpoint.now) marks.old marks.new FIRST_MAP FIRST_INODE
        (Maps (view c checkpoint.now)) r)) }
    ensures holds { IfOk result (λ r. IsTrue r
        → OfContent (D.state device.old) (D.state device.new) (λ c.
        IsBounded (view c checkpoint.now) → Walked (view c checkpoint.now) marks.old 16
        → Maps (view c checkpoint.now))) }
    ensures lists { IfOk result (λ r. IsTrue r
        → OfContent (D.state device.old) (D.state device.new) (λ c.
        Lists (view c checkpoint.now) map.new)) }
    ensures files { length map.new ≡ length map.old }
    ensures keeps { Steps (D.state device.old) (D.state device.new) marks.old marks.new result }
{
    for index in 0..MAP_BLOCKS {
        if !take_map(device, checkpoint, index, map, marks, sector)? {
            return Ok(false);
        }
    }
    if map[0] != 0 {
        return Ok(false);
    }
    if map[1] == 0 {
        return Ok(false);
    }
    Ok(true)
}
