//! What the sectors of an empty volume hold.
ghost use Rattle.std.specs.Prelude.{◌≡◌, ◌<◌, ◌≤◌, ◌+◌, cond, map, nat_lt};
ghost use Rattle.std.specs.List.{range_with_len};
ghost use Rattle.lfs_model.specs.Checkpoint.{FitsCheckpoint, IsSegmentCount, IsVersion, most_unit_power, usage_blocks};
ghost use Rattle.lfs_model.specs.Image.{first_usage_address, first_checkpoint, first_name, first_names, first_pointers, first_used, first_uses, root_inode};
ghost use Rattle.lfs_model.specs.Inode.{inode_sector};
ghost use Rattle.lfs_model.specs.Pointers.{pointer_sector};
ghost use Rattle.lfs_model.specs.Summary.{IsPlaced, summary_sector};
ghost use Rattle.lfs_model.specs.Usage.{usage_sector};

use lfs_layout::{
    BlockName, Checkpoint, Inode, SegmentUsage, encode_pointers, encode_summary, encode_usage,
};
use lfs_model::limits::{
    BLOCK_SEGMENTS, CHUNK_BLOCKS, MOST_SEGMENTS, MOST_UNIT_POWER, SEGMENT_SECTORS, USAGE_BLOCKS,
};
use lfs_model::{BlockKind, Kind};

/// The sector of the root's inode, the first block of the first chunk.
pub const INODE: u32 = 3;

/// The sector of inode map block 0.
pub const MAP: u32 = 4;

/// The sector of usage block 0; the other usage blocks follow.
pub const USAGE: u32 = 5;

/// How many usage blocks a volume of so many segments has.
pub fn usage_count(segments: u32) -> u32
    requires { segments ≤ MOST_SEGMENTS }
    ensures { result ≡ usage_blocks segments }
{
    segments.div_ceil(BLOCK_SEGMENTS)
}

/// How many sectors of segment 0 are in use: those of the first chunk, which are whole units.
fn first_used(segments: u32, unit_power: u8) -> u16
    requires count { IsSegmentCount segments }
    requires unit { unit_power ≤ MOST_UNIT_POWER }
    ensures value { result ≡ first_used segments unit_power }
    ensures least { 3 + usage_blocks segments ≤ result }
    ensures most { result ≤ SEGMENT_SECTORS }
{
    let unit = 1 << unit_power;
    (2 + usage_count(segments) as u16 + unit) / unit * unit
}

/// Which usage block a name of the first chunk is of, behind the inode's and the map block's.
fn usage_index(segments: u32, place: u32) -> u32
    requires { segments ≤ MOST_SEGMENTS }
    ensures value { result ≡ cond (nat_lt place (usage_blocks segments)) place 0 }
    ensures fits { result < USAGE_BLOCKS }
{
    if place < usage_count(segments) {
        place
    } else {
        0
    }
}

/// What block `index` of the first chunk is.
#[tactic(auto, unfolding(lfs_model::specs::Summary::IsPlaced))]
fn name_of(segments: u32, index: u32) -> BlockName
    requires { segments ≤ MOST_SEGMENTS }
    ensures placed { IsPlaced result.kind result.file result.index }
    ensures value { result ≡ first_name segments index }
{
    match index {
        0 => BlockName {
            file: 1,
            kind: BlockKind::Inode,
            index: 0,
        },
        1 => BlockName {
            file: 0,
            kind: BlockKind::Map,
            index: 0,
        },
        _ => BlockName {
            file: 0,
            kind: BlockKind::Usage,
            index: usage_index(segments, index - 2),
        },
    }
}

/// The summary of the first chunk.
pub fn summary_block(segments: u32, unit_power: u8) -> [u8; 512]
    requires count { IsSegmentCount segments }
    requires unit { unit_power ≤ MOST_UNIT_POWER }
    ensures { result ≡ summary_sector (first_names segments unit_power) }
{
    let mut names = [name_of(segments, 0); CHUNK_BLOCKS];
    for index in 0..CHUNK_BLOCKS {
        names[index] = name_of(segments, index as u32);
    }
    encode_summary(&names[..first_used(segments, unit_power) as usize - 1])
}

/// The inode of a root without entries, in a volume of this version.
#[tactic(auto, unfolding(lfs_model::specs::Inode::IsSize))]
pub fn root_block(version: u32) -> [u8; 512]
    requires { IsVersion version }
    ensures { result ≡ inode_sector (root_inode version) }
{
    let form = if version == 1 { 0 } else { 1 };
    Inode::new(Kind::Directory, form, 1, 2, 0, [0; 112], 0, 0).encode()
}

/// Inode map block 0, which leads to the root's inode.
pub fn map_block() -> [u8; 512]
    ensures { result ≡ pointer_sector first_pointers }
{
    let mut map = [0; 128];
    map[1] = INODE;
    encode_pointers(&map)
}

/// Usage block 0: the chunk in segment 0, whose blocks are the inode, the map block and the usage
/// blocks.
pub fn usage_block(segments: u32, unit_power: u8) -> [u8; 512]
    requires count { IsSegmentCount segments }
    requires unit { unit_power ≤ MOST_UNIT_POWER }
    ensures { result ≡ usage_sector (first_uses segments unit_power 0) }
{
    let usage_blocks = usage_count(segments) as u16;
    let unused = SegmentUsage {
        used: 0,
        live: 0,
        age: 0,
    };
    let mut entries = [unused; 64];
    entries[0] = SegmentUsage {
        used: first_used(segments, unit_power),
        live: 2 + usage_blocks,
        age: 1,
    };
    encode_usage(&entries)
}

/// The addresses of the usage blocks.
fn usage_addresses(segments: u32) -> [u32; 16]
    requires { IsSegmentCount segments }
    ensures { result ≡ map (first_usage_address segments) (range_with_len 0 USAGE_BLOCKS) }
{
    let mut usage = [0; 16];
    for index in 0..usage_count(segments) {
        usage[index as usize] = USAGE + index;
    }
    usage
}

/// The first checkpoint of a volume of this version and so many segments, with these units.
pub fn checkpoint(version: u32, segments: u32, unit_power: u8) -> Checkpoint
    requires known { IsVersion version }
    requires count { IsSegmentCount segments }
    requires unit { unit_power ≤ most_unit_power version }
    ensures fits { FitsCheckpoint result }
    ensures value { result ≡ first_checkpoint version segments unit_power }
{
    let mut map = [0; 32];
    map[0] = MAP;
    let usage = usage_addresses(segments);
    Checkpoint::new(1, segments, version, unit_power, map, usage)
}
