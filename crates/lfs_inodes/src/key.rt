//! Names of blocks of files, in one word each.
ghost use Rattle.std.specs.Prelude.{◌≡◌, ◌≢◌, true, ◌<◌, ◌≤◌, ◌/◌, ◌%◌, IfSome, IfNone};
ghost use Rattle.lfs_model.specs.Entry.{Data, Leaf, Double, Inode, entry_of};
ghost use Rattle.lfs_model.specs.Cutting.{is_past};
ghost use Rattle.lfs_model.specs.Memory.{parent, pointer, IsPointers};
ghost use Rattle.lfs_model.specs.Summary.{IsFileNumber, IsPlaced};
ghost use Rattle.lfs_inodes.specs.Code.{IsCode, kind_by, entry_at};
ghost use Rattle.lfs_inodes.specs.Data.{is_data_code};

use lfs_layout::{BlockName, DOUBLE_POINTER, FIRST_POINTER, SINGLE_POINTER};
use lfs_model::BlockKind;
use lfs_model::limits::{
    BLOCK_POINTERS, DIRECT_BLOCKS, FILE_NUMBERS, LAST_BLOCK, LAST_LEAF, LAST_NUMBER,
};

/// The pointer to a block that is in memory. It is a checkpoint slot, and no block's address.
pub const IN_MEMORY: u32 = 1;

/// How many blocks an inode points to by itself.
pub const DIRECT: u32 = DIRECT_BLOCKS;

/// How many pointers a leaf or a double root has.
pub const POINTERS: u32 = BLOCK_POINTERS;

/// The place of 4 bytes of an inode at which its first pointer stands.
pub const FIRST: u32 = FIRST_POINTER as u32;

/// How many kinds of keys there are.
pub(crate) const KINDS: usize = 4;

const KIND: u32 = 134_217_728;

const FILE: u32 = 32_768;

/// The name of a block of a file: its kind, its file from 1 to 4,095, and its index. The order is
/// that of kinds first, in which a block comes before the block that points to it.
#[derive(Clone, Copy, Debug, PartialEq, Eq, PartialOrd, Ord)]
pub struct BlockKey {
    code: u32,
    ghost formed: { IsCode code },
}

impl BlockKey {
    /// The data block of a file at this index, at most 16,623.
    pub fn data(file: u16, index: u32) -> BlockKey
        requires file { IsFileNumber file }
        requires index { index ≤ LAST_BLOCK }
        ensures { entry_at result.code ≡ Data file index }
    {
        BlockKey {
            code: FILE * u32::from(file) + index,
        }
    }

    /// The leaf of pointers of a file at this index: 0 for the single leaf, else 1 and its place
    /// under the double root.
    pub fn leaf(file: u16, index: u32) -> BlockKey
        requires file { IsFileNumber file }
        requires index { index ≤ LAST_LEAF }
        ensures { entry_at result.code ≡ Leaf file index }
    {
        BlockKey {
            code: KIND + FILE * u32::from(file) + index,
        }
    }

    /// The double root of a file.
    pub fn double(file: u16) -> BlockKey
        requires file { IsFileNumber file }
        ensures { entry_at result.code ≡ Double file }
    {
        BlockKey {
            code: 2 * KIND + FILE * u32::from(file),
        }
    }

    /// The inode of a file.
    pub fn inode(file: u16) -> BlockKey
        requires file { IsFileNumber file }
        ensures { entry_at result.code ≡ Inode file }
    {
        BlockKey {
            code: 3 * KIND + FILE * u32::from(file),
        }
    }

    pub fn kind(self) -> BlockKind
        ensures { result ≡ kind_by (self.code / KIND) }
    {
        match self.code / KIND {
            0 => BlockKind::Data,
            1 => BlockKind::Leaf,
            2 => BlockKind::Double,
            _ => BlockKind::Inode,
        }
    }

    /// The place of its kind in the order of keys.
    pub(crate) fn rank(self) -> usize
        ensures { result < KINDS }
    {
        (self.code / KIND) as usize
    }

    /// Whether the block is one of data.
    pub fn is_data(self) -> bool
        ensures { result ≡ is_data_code self.code }
    {
        self.code < KIND
    }

    /// Whether the block is one of pointers.
    pub fn is_pointers(self) -> bool
        ensures yes { result ≡ true → IsPointers (entry_at self.code) }
        ensures no { result ≢ true → IsPointers (entry_at self.code) → ⊥ }
    {
        match self.kind() {
            BlockKind::Leaf | BlockKind::Double => true,
            _ => false,
        }
    }

    /// The key as a number, in the order of keys.
    pub fn number(self) -> u32
        ensures { result ≡ self.code }
    {
        self.code
    }

    /// The file of the block.
    pub fn file(self) -> u16
        ensures file { result ≡ self.code / FILE % FILE_NUMBERS }
        ensures some { 1 ≤ result }
        ensures few { result ≤ LAST_NUMBER }
    {
        (self.code / FILE % FILE_NUMBERS as u32) as u16
    }

    pub fn index(self) -> u32
        ensures { result ≡ self.code % FILE }
    {
        self.code % FILE
    }

    /// Whether the block is a data block of a file from block `first` on, or a block of pointers
    /// with only those below it.
    pub fn is_past(self, file: u16, first: u32) -> bool
        ensures { result ≡ is_past file first (entry_at self.code) }
    {
        if self.file() != file {
            return false;
        }
        let index = self.index();
        match self.kind() {
            BlockKind::Data => first <= index,
            BlockKind::Leaf => first <= DIRECT + POINTERS * index,
            BlockKind::Double => first <= DIRECT + POINTERS,
            _ => false,
        }
    }

    /// How the summary of a chunk names the block.
    pub fn name(self) -> BlockName
        ensures entry { entry_of result ≡ entry_at self.code }
        ensures placed { IsPlaced result.kind result.file result.index }
    {
        BlockName {
            file: self.file(),
            kind: self.kind(),
            index: self.index(),
        }
    }

    /// The block that points to this one, if it isn't an inode.
    pub fn parent(self) -> Option<BlockKey>
        ensures some { IfSome result (λ above. (entry_at above.code ≡ parent (entry_at self.code))
            × (self.code < above.code)) }
        ensures none { IfNone result (parent (entry_at self.code) ≡ entry_at self.code) }
    {
        let file = self.file();
        let index = self.index();
        match self.kind() {
            BlockKind::Data => {
                if index < DIRECT {
                    Some(BlockKey::inode(file))
                } else {
                    Some(BlockKey::leaf(file, (index - DIRECT) / POINTERS))
                }
            }
            BlockKind::Leaf => {
                if index == 0 {
                    Some(BlockKey::inode(file))
                } else {
                    Some(BlockKey::double(file))
                }
            }
            BlockKind::Double => Some(BlockKey::inode(file)),
            _ => None,
        }
    }

    /// The place of 4 bytes there at which this block's address stands; 0 for an inode.
    pub fn pointer(self) -> usize
        ensures pointer { result ≡ pointer (entry_at self.code) }
        ensures low { result < BLOCK_POINTERS }
    {
        let index = self.index();
        match self.kind() {
            BlockKind::Data => {
                if index < DIRECT {
                    FIRST_POINTER + index as usize
                } else {
                    ((index - DIRECT) % POINTERS) as usize
                }
            }
            BlockKind::Leaf => {
                if index == 0 {
                    SINGLE_POINTER
                } else {
                    (index - 1) as usize
                }
            }
            BlockKind::Double => DOUBLE_POINTER,
            _ => 0,
        }
    }
}
