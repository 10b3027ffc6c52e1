//! How blocks of the inode map go to the log.
ghost use Rattle.std.specs.Prelude.{◌≡◌, ◌≢◌, ◌<◌, ◌≤◌, ℕ, None, OnOk};
ghost use Rattle.lfs_model.specs.Committing.{SpellsMap};
ghost use Rattle.lfs_model.specs.Entry.{Entry};
ghost use Rattle.lfs_model.specs.Running.{Tables};
ghost use Rattle.lfs_model.specs.Stands.{LogMap};
ghost use Rattle.lfs_memory.specs.inodes.Blocks.{blocks_of};
ghost use Rattle.lfs_memory.specs.inodes.MapValue.{IsMap, IsMapOf, AreSettled, block_in};
ghost use Rattle.lfs_log.specs.Placing.{EndsSaving, WritesNext};
ghost use Rattle.lfs_memory.specs.Memory.{IsMemory, AreMapsOut, HoldsVolume, IsBlockAt, room_of};

use crate::placing::seal_full;
use lfs_device::{DeviceFault, SectorDevice};
use lfs_layout::BlockName;
use lfs_memory::LogMemory;
use lfs_memory::segments::write;
use lfs_model::BlockKind;
use lfs_model::limits::{CHECKPOINT_SLOTS, MAP_BLOCKS};

/// Writes a block of the inode map to the next place.
fn write_map_block<D: SectorDevice>(
    device: &mut D,
    memory: &mut LogMemory,
    index: u32,
    bytes: &[u8; 512],
    age: u32,
) -> Result<(), DeviceFault>
    requires index { index < MAP_BLOCKS }
    requires wanted { block_in memory.old.map index ≡ 1 }
    requires empty { (x : Entry) → blocks_of memory.old.dirty x ≡ None }
    requires spelt { (m : LogMap) (t : Tables) → IsMapOf memory.old.map m t → AreSettled m t index
        → SpellsMap m t index bytes.now }
    requires room { 0 < room_of memory.old }
    requires memory { IsMemory memory.old }
    requires size { HoldsVolume (D.state device.old) memory.old }
    ensures writes { WritesNext (D.state device.old) (D.state device.new) memory.old memory.new
        result }
    ensures placed { OnOk result (IsBlockAt memory.old.map memory.new.map index
        (block_in memory.new.map index)) }
    ensures known { OnOk result (CHECKPOINT_SLOTS ≤ block_in memory.new.map index) }
    ensures long { OnOk result (IsMap memory.new.map) }
    ensures dirty { memory.new.dirty ≡ memory.old.dirty }
{
    let name = BlockName {
        file: 0,
        kind: BlockKind::Map,
        index,
    };
    let address = memory.next_place(name, true, age);
    write(device, &memory.usage, address, bytes, false)?;
    memory.map.set_block_address(index as usize, address);
    Ok(())
}

/// Saves a block of the inode map that is to be written. One that would show no inode isn't stored.
fn save_map_block<D: SectorDevice>(
    device: &mut D,
    memory: &mut LogMemory,
    index: u32,
    age: u32,
) -> Result<(), DeviceFault>
    requires index { index < MAP_BLOCKS }
    requires waits { block_in memory.old.map index ≡ 1 }
    requires empty { (x : Entry) → blocks_of memory.old.dirty x ≡ None }
    requires room { 0 < room_of memory.old }
    requires memory { IsMemory memory.old }
    requires size { HoldsVolume (D.state device.old) memory.old }
    ensures saves { EndsSaving (D.state device.old) (D.state device.new) memory.old memory.new 1 1
        result }
    ensures others { OnOk result ((j : ℕ) → (j ≡ index → ⊥)
        → block_in memory.new.map j ≡ block_in memory.old.map j) }
    ensures known { OnOk result (block_in memory.new.map index ≢ 1) }
    ensures long { OnOk result (IsMap memory.new.map) }
    ensures dirty { memory.new.dirty ≡ memory.old.dirty }
{
    let mut bytes = [0; 512];
    if !memory.map.encode(index as usize, &mut bytes) {
        memory.map.set_block_address(index as usize, 0);
        return Ok(());
    }
    write_map_block(device, memory, index, &bytes, age)?;
    seal_full(device, memory)?;
    Ok(())
}

/// Saves the blocks of the inode map that are to be written.
pub fn save_map<D: SectorDevice>(
    device: &mut D,
    memory: &mut LogMemory,
    age: u32,
) -> Result<(), DeviceFault>
    requires empty { (x : Entry) → blocks_of memory.old.dirty x ≡ None }
    requires room { MAP_BLOCKS ≤ room_of memory.old }
    requires memory { IsMemory memory.old }
    requires size { HoldsVolume (D.state device.old) memory.old }
    ensures saves { EndsSaving (D.state device.old) (D.state device.new) memory.old memory.new
        MAP_BLOCKS MAP_BLOCKS result }
    ensures known { OnOk result (AreMapsOut memory.new.map) }
    ensures dirty { memory.new.dirty ≡ memory.old.dirty }
{
    for index in 0..MAP_BLOCKS {
        if memory.map.block_address(index as usize) != 1 {
            continue;
        }
        save_map_block(device, memory, index, age)?;
    }
    Ok(())
}
