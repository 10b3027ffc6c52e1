//! What the log holds in memory.
ghost use Rattle.std.specs.Prelude.{◌≡◌, ◌<◌, ◌≤◌, ◌+◌, ◌%◌, ◌^◌, length, Bool};
ghost use Rattle.lfs_model.specs.Summary.{IsPlaced};
ghost use Rattle.lfs_inodes.specs.Key.{entry_of};
ghost use Rattle.lfs_memory.specs.Memory.{IsMemory, IsMemoryUpTo, IsPointedAt, PadsOnce, Places, room_of};
ghost use Rattle.lfs_segments.specs.Table.{clean_in, used_of};
ghost use Rattle.lfs_segments.specs.Chunk.{due_in};

use lfs_inodes::{BlockKey, DirtyTable, InodeMap, header_of};
use lfs_layout::BlockName;
use lfs_model::limits::{CHUNK_BLOCKS, SEGMENT_SECTORS};
use lfs_model::{BlockKind, Kind};
use lfs_segments::{ChunkWriter, Usage};

/// The inode map, the segment usage table, the blocks of files that changed, and the chunk that is
/// being written.
#[derive(Drop)]
pub struct LogMemory {
    pub map: InodeMap,
    pub usage: Usage,
    pub dirty: DirtyTable,
    pub chunk: ChunkWriter,
}

impl LogMemory {
    /// The next address for a block: in the chunk that is being written, or in one that begins in a
    /// clean segment of this age.
    pub fn next_place(&mut self, name: BlockName, lives: bool, age: u32) -> u32
        requires memory { IsMemory self.old }
        requires room { 0 < room_of self.old }
        requires placed { IsPlaced name.kind name.file name.index }
        ensures placed { Places self.old self.new name lives age result }
        ensures taken { 1 + clean_in self.new.usage.segments
            ≤ due_in self.old.chunk self.old.usage + clean_in self.old.usage.segments }
    {
        if self.chunk.is_empty() {
            self.chunk.begin(&mut self.usage, age).unwrap();
        }
        self.chunk.place(&mut self.usage, name, lives)
    }

    /// How many names more the chunk wants, to end on a unit.
    pub fn lacking(&self) -> u16
        requires memory { IsMemoryUpTo CHUNK_BLOCKS self.now }
        requires some { 0 < length self.now.chunk.names }
        ensures ends { (used_of self.now.usage self.now.chunk.segment + result)
            % 2 ^ self.now.usage.unit ≡ 0 }
        ensures room { used_of self.now.usage self.now.chunk.segment + result ≤ SEGMENT_SECTORS }
    {
        let unit = self.usage.unit_sectors();
        let rest = self.usage.state(self.chunk.segment()).used % unit;
        if rest == 0 { 0 } else { unit - rest }
    }

    /// Names a block more in the chunk, to whose sector no address leads.
    pub fn pad(&mut self)
        requires memory { IsMemoryUpTo CHUNK_BLOCKS self.old }
        requires some { 0 < length self.old.chunk.names }
        requires room { used_of self.old.usage self.old.chunk.segment < SEGMENT_SECTORS }
        ensures { PadsOnce self.old self.new }
    {
        self.chunk.pad(&mut self.usage);
    }

    /// Whether look-ups go through a block, so that it is likely to be read soon: an inode, a block of
    /// pointers, and a block of a directory whose inode is in memory.
    pub fn leads_on(&self, key: BlockKey) -> bool {
        !key.is_data() || self.is_of_directory(key)
    }

    /// Whether the inode of a block's file is in memory, and is a directory's.
    fn is_of_directory(&self, key: BlockKey) -> bool {
        match self.dirty.block(BlockKey::inode(key.file())) {
            Some(inode) => header_of(inode).kind == Kind::Directory,
            None => false,
        }
    }

    /// The block of this key is at the address from now on, if the inode map points to it.
    pub fn point(&mut self, key: BlockKey, address: u32)
        ensures points { IsPointedAt self.old.map self.new.map (entry_of key) address }
        ensures usage { self.new.usage ≡ self.old.usage }
        ensures dirty { self.new.dirty ≡ self.old.dirty }
        ensures chunk { self.new.chunk ≡ self.old.chunk }
    {
        if key.kind() == BlockKind::Inode {
            self.map.set_address(key.file(), address);
        }
    }
}
