//! The usage table and the inode map to which a checkpoint leads, taken into memory.
ghost use Rattle.std.specs.Prelude.{◌≡◌, ◌<◌, ◌≤◌, ◌+◌, ◌*◌, ◌/◌, ℕ, length, get_or, slice_set, OnOk, IfOk, IfErr, IsFalse};
ghost use Rattle.std.specs.Borrow.{sem};
ghost use Rattle.std.specs.Io.BufRead.{Rests};
ghost use Rattle.lfs_cache.specs.contracts.cache.CachedDevice.{the_row};
ghost use Rattle.lfs_model.specs.Checkpoint.{FitsCheckpoint, layout_version};
ghost use Rattle.lfs_model.specs.Usage.{IsUse, no_use};
ghost use Rattle.lfs_verify.specs.Faults.{IsTableFault};
ghost use Rattle.lfs_verify.specs.Keeping.{OnlyLooks};
ghost use Rattle.lfs_verify.specs.Lending.{LendsTable};
ghost use Rattle.lfs_verify.specs.Loading.{IsTakenIn, loaded, IsUsageUpTo, SaysUsage, IsMapUpTo, SaysMap, IsLoaded, SaysTables};
ghost use Rattle.lfs_verify.specs.Take.{Looks};

use crate::fault::MountFault;
use crate::map_stage::map_address;
use crate::totals::BlockTotals;
use crate::usage_stage::{segments_of, usage_address};
use lfs_cache::CachedDevice;
use lfs_device::{ReadFault, SectorDevice};
use lfs_inodes::InodeMap;
use lfs_layout::{Checkpoint, PointerView, UsageView};
use lfs_model::limits::{BLOCK_SEGMENTS, MAP_BLOCKS, MOST_UNIT_POWER, USAGE_BLOCKS};
use lfs_segments::Usage;
use std::alloc::Global;

/// What a walk over a volume leads to: the tables of its newest checkpoint, and how many blocks its
/// files have.
#[derive(Drop)]
pub struct Tables {
    /// The checkpoint's number.
    pub number: u64,
    /// How many segments the volume has.
    pub segments: u32,
    /// Of its layout: 1 to 3.
    pub version: u32,
    pub map: InodeMap,
    pub usage: Usage,
    /// Blocks of data of all files.
    pub data_blocks: u32,
    /// Inodes and blocks of pointers of all files.
    pub meta_blocks: u32,
}

/// Lends a block of a table; where it can't stand there or can't be read, this stage of a mount
/// fails.
fn read_table<D: SectorDevice>(
    device: &mut CachedDevice<D>,
    segments: u32,
    address: u32,
    stage: u8,
) -> Result<&[u8; 512], MountFault>
    requires size { 2 + 64 * segments ≤ (D.state device.old).size }
    ensures* lends { sem 𝓛 (Rests (the_row D.row D.SectorDevice) device.entry
        (λ n. LendsTable (D.state device.old) (D.state n) segments address result)) }
{
    if address < 2 || address >= 2 + 64 * segments {
        return Err(MountFault::Damaged(stage));
    }
    match device.read_ref(address) {
        Ok(block) => Ok(block),
        Err(ReadFault::Unreadable) => Err(MountFault::Damaged(stage)),
        Err(ReadFault::Failed) => Err(MountFault::Device),
    }
}

/// Whether a segment where nothing lives has an age, which a commit would write as 0.
fn has_dead_age(block: &UsageView<'_>) -> bool
    ensures { IsFalse result → (i : ℕ) → i < BLOCK_SEGMENTS → (get_or block.now i no_use).live ≡ 0
        → (get_or block.now i no_use).age ≡ 0 }
{
    for entry in 0..64usize {
        let numbers = block.get(entry);
        if numbers.live == 0 && numbers.age != 0 {
            return true;
        }
    }
    false
}

/// Takes in the entry of a segment, if the volume has it.
fn take_entry(usage: &mut Usage, index: u32, entry: u32, block: &UsageView<'_>)
    requires index { index < USAGE_BLOCKS }
    requires entry { entry < BLOCK_SEGMENTS }
    requires fits { (i : ℕ) → i < BLOCK_SEGMENTS → IsUse (get_or block.now i no_use) }
    ensures own { BLOCK_SEGMENTS * index + entry < length usage.old.segments
        → usage.new.segments ≡ slice_set usage.old.segments (BLOCK_SEGMENTS * index + entry)
        (loaded (get_or block.now entry no_use)) }
    ensures past { length usage.old.segments ≤ BLOCK_SEGMENTS * index + entry
        → usage.new.segments ≡ usage.old.segments }
    ensures blocks { usage.new.blocks ≡ usage.old.blocks }
    ensures last { usage.new.last ≡ usage.old.last }
    ensures unit { usage.new.unit ≡ usage.old.unit }
{
    let segment = 64 * index + entry;
    if segment < usage.segments() {
        usage.load(segment, block.get(entry as usize));
    }
}

/// Takes in the entries of a usage block.
fn take_entries(usage: &mut Usage, index: u32, block: &UsageView<'_>)
    requires index { index < USAGE_BLOCKS }
    requires fits { (i : ℕ) → i < BLOCK_SEGMENTS → IsUse (get_or block.now i no_use) }
    ensures { IsTakenIn usage.old usage.new block.now index BLOCK_SEGMENTS }
{
    for entry in 0..64u32 {
        take_entry(usage, index, entry, block);
    }
}

/// Takes in a block of the usage table.
fn load_usage_block<D: SectorDevice>(
    device: &mut CachedDevice<D>,
    checkpoint: &Checkpoint,
    index: u32,
    usage: &mut Usage,
) -> Result<(), MountFault>
    requires size { 2 + 64 * checkpoint.now.segments ≤ (D.state device.old).size }
    requires fits { FitsCheckpoint checkpoint.now }
    requires index { index < (checkpoint.now.segments + 63) / 64 }
    requires before { IsUsageUpTo index checkpoint.now.segments usage.old }
    ensures after { OnOk result (IsUsageUpTo (index + 1) checkpoint.now.segments usage.new) }
    ensures unit { usage.new.unit ≡ usage.old.unit }
    ensures says { OnOk result ((D.state device.new).keeps_model
        → SaysUsage (D.state device.old).content checkpoint.now index usage.old
        → SaysUsage (D.state device.old).content checkpoint.now (index + 1) usage.new) }
    ensures cause { IfErr result (IsTableFault (D.state device.old) (D.state device.new)
        checkpoint.now) }
    ensures keeps { OnlyLooks (D.state device.old) (D.state device.new) result }
{
    let segments = segments_of(checkpoint);
    let address = usage_address(checkpoint, index);
    let bytes = read_table(device, segments, address, 1)?;
    let count = segments - 64 * index;
    let Some(block) = UsageView::decode(bytes, count as usize) else {
        return Err(MountFault::Damaged(1));
    };
    take_entries(usage, index, &block);
    usage.set_block(index, address, has_dead_age(&block));
    Ok(())
}

/// Takes in the usage table.
fn load_usage<D: SectorDevice>(
    device: &mut CachedDevice<D>,
    checkpoint: &Checkpoint,
    usage: &mut Usage,
) -> Result<(), MountFault>
    requires size { 2 + 64 * checkpoint.now.segments ≤ (D.state device.old).size }
    requires fits { FitsCheckpoint checkpoint.now }
    requires before { IsUsageUpTo 0 checkpoint.now.segments usage.old }
    ensures after { OnOk result (IsUsageUpTo ((checkpoint.now.segments + 63) / 64)
        checkpoint.now.segments usage.new) }
    ensures unit { usage.new.unit ≡ usage.old.unit }
    ensures says { OnOk result ((D.state device.new).keeps_model
        → SaysUsage (D.state device.old).content checkpoint.now
        ((checkpoint.now.segments + 63) / 64) usage.new) }
    ensures cause { IfErr result (IsTableFault (D.state device.old) (D.state device.new)
        checkpoint.now) }
    ensures keeps { OnlyLooks (D.state device.old) (D.state device.new) result }
{
    for index in 0..(segments_of(checkpoint) + 63) / 64 {
        load_usage_block(device, checkpoint, index, usage)?;
    }
    Ok(())
}

/// Takes in a block of the inode map, if it is stored.
fn load_map_block<D: SectorDevice>(
    device: &mut CachedDevice<D>,
    checkpoint: &Checkpoint,
    index: u32,
    map: &mut InodeMap,
) -> Result<(), MountFault>
    requires size { 2 + 64 * checkpoint.now.segments ≤ (D.state device.old).size }
    requires index { index < MAP_BLOCKS }
    requires before { IsMapUpTo index map.old }
    ensures after { OnOk result (IsMapUpTo (index + 1) map.new) }
    ensures says { OnOk result ((D.state device.new).keeps_model
        → SaysMap (D.state device.old).content checkpoint.now index map.old
        → SaysMap (D.state device.old).content checkpoint.now (index + 1) map.new) }
    ensures cause { IfErr result (IsTableFault (D.state device.old) (D.state device.new)
        checkpoint.now) }
    ensures keeps { OnlyLooks (D.state device.old) (D.state device.new) result }
{
    let segments = segments_of(checkpoint);
    let address = map_address(checkpoint, index);
    if address == 0 {
        return Ok(());
    }
    let bytes = read_table(device, segments, address, 3)?;
    map.load(index as usize, &PointerView::new(bytes));
    map.set_block_address(index as usize, address);
    Ok(())
}

/// Takes in the inode map.
fn load_map<D: SectorDevice>(
    device: &mut CachedDevice<D>,
    checkpoint: &Checkpoint,
    map: &mut InodeMap,
) -> Result<(), MountFault>
    requires size { 2 + 64 * checkpoint.now.segments ≤ (D.state device.old).size }
    requires before { IsMapUpTo 0 map.old }
    ensures after { OnOk result (IsMapUpTo MAP_BLOCKS map.new) }
    ensures says { OnOk result ((D.state device.new).keeps_model
        → SaysMap (D.state device.old).content checkpoint.now MAP_BLOCKS map.new) }
    ensures cause { IfErr result (IsTableFault (D.state device.old) (D.state device.new)
        checkpoint.now) }
    ensures keeps { OnlyLooks (D.state device.old) (D.state device.new) result }
{
    for index in 0..MAP_BLOCKS {
        load_map_block(device, checkpoint, index, map)?;
    }
    Ok(())
}

fn number_of(checkpoint: &Checkpoint) -> u64
    ensures { result ≡ checkpoint.now.number }
{
    checkpoint.number
}

/// The version of a checkpoint's layout.
pub fn version_of(checkpoint: &Checkpoint) -> u32
    ensures { result ≡ layout_version checkpoint.now }
{
    checkpoint.version
}

/// The logarithm to base 2 of how many sectors a unit has.
fn unit_of(checkpoint: &Checkpoint) -> u8
    requires { FitsCheckpoint checkpoint.now }
    ensures value { result ≡ checkpoint.now.unit_power }
    ensures few { result ≤ MOST_UNIT_POWER }
{
    checkpoint.unit_power
}

/// The tables to which a checkpoint leads, with these totals. It only reads.
///
/// # Errors
///
/// `NoMemory` where memory is refused, `Device` where a call of the device failed, `Damaged` where
/// a table can't be read.
pub fn load_tables<D: SectorDevice>(
    alloc: Global,
    device: &mut CachedDevice<D>,
    checkpoint: &Checkpoint,
    totals: BlockTotals,
) -> Result<Tables, MountFault>
    requires size { 2 + 64 * checkpoint.now.segments ≤ (D.state device.old).size }
    requires fits { FitsCheckpoint checkpoint.now }
    ensures loaded { IfOk result (λ t. IsLoaded t (D.state device.new).size) }
    ensures says { IfOk result (λ t. (D.state device.new).keeps_model
        → SaysTables (D.state device.old).content checkpoint.now t) }
    ensures totals { IfOk result (λ t. (t.data_blocks ≡ totals.data_blocks)
        × (t.meta_blocks ≡ totals.meta_blocks)) }
    ensures cause { IfErr result (λ e. (e ≡ MountFault.NoMemory → ⊥)
        → IsTableFault (D.state device.old) (D.state device.new) checkpoint.now e) }
    ensures no_failure { OnOk result
        ((D.state device.new).failures ≡ (D.state device.old).failures) }
    ensures looks { Looks (D.state device.old) (D.state device.new) }
{
    let segments = segments_of(checkpoint);
    let Ok(mut usage) = Usage::new(alloc, segments, unit_of(checkpoint)) else {
        return Err(MountFault::NoMemory);
    };
    let Ok(mut map) = InodeMap::new(alloc) else {
        return Err(MountFault::NoMemory);
    };
    load_usage(device, checkpoint, &mut usage)?;
    load_map(device, checkpoint, &mut map)?;
    Ok(Tables {
        number: number_of(checkpoint),
        segments,
        version: version_of(checkpoint),
        map,
        usage,
        data_blocks: totals.data_blocks,
        meta_blocks: totals.meta_blocks,
    })
}
