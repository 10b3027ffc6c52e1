//! The order in which a pass of the cleaner goes over the blocks of files: file by file, and in a
//! file leaf by leaf. So each block of pointers is read and written once.
ghost use Rattle.std.specs.Prelude.{◌≡◌, ◌<◌, ◌≤◌, ◌+◌, ◌*◌, ◌-◌, ◌/◌, ◌∷◌, ◌++◌, [], cond, nat_lt, length, IfOk, IsPermutation, slice_index_or};
ghost use Rattle.std.specs.List.Sorted.{IsNonDecreasingBy};
ghost use Rattle.lfs_model.specs.declared.limits.TheConstants.{BLOCK_POINTERS, DIRECT_BLOCKS, FILE_NUMBERS, LAST_BLOCK};
ghost use Rattle.lfs_memory.specs.inodes.Key.{entry_of};
ghost use Rattle.lfs_memory.specs.inodes.declared.key.BlockKey.{BlockKey};
ghost use Rattle.lfs_log.specs.Groups.{group_at, group_of};

use lfs_memory::inodes::{BlockKey, DIRECT, POINTERS};
use lfs_model::BlockKind;
use std::alloc::{AllocError, Global};
use std::marker::Model;

/// How many groups of blocks a file has room for: one of those that its inode points to, and one
/// for each leaf.
pub const GROUPS: u32 = 256;

/// The group of a block of a file.
pub fn group(key: BlockKey) -> u32
    ensures value { result ≡ group_of (entry_of key) }
    ensures most { result < GROUPS * FILE_NUMBERS }
{
    let index = key.index();
    let within = match key.kind() {
        BlockKind::Data => group_of_data(index),
        BlockKind::Leaf => index + 1,
        _ => 0,
    };
    GROUPS * u32::from(key.file()) + within
}

/// The group of a data block among those of its file.
fn group_of_data(index: u32) -> u32
    requires { index ≤ LAST_BLOCK }
    ensures value { result ≡ cond (nat_lt index DIRECT_BLOCKS) 0
        ((index - DIRECT_BLOCKS) / BLOCK_POINTERS + 1) }
    ensures most { result < GROUPS }
{
    if index < DIRECT {
        0
    } else {
        (index - DIRECT) / POINTERS + 1
    }
}

/// Keys of blocks, for which memory is taken as the list is made.
#[derive(Drop)]
pub struct KeyList {
    keys: Vec<BlockKey>,
}

impl Model for KeyList {
    ghost use Rattle.std.specs.Prelude.{vec_capacity};
    ghost use Rattle.lfs_log.specs.Groups.{ListedKeys};

    ghost Value = { ListedKeys };

    ghost view = { λ l. record { keys = l.keys.items; room = vec_capacity l.keys } };
}

impl KeyList {
    /// An empty list with memory for so many keys.
    ///
    /// # Errors
    ///
    /// Where memory is refused.
    pub fn new(alloc: Global, room: usize) -> Result<KeyList, AllocError>
        ensures { IfOk result (λ l. (l.keys ≡ []) × (room ≤ l.room)) }
    {
        let keys = Vec::with_capacity(alloc, room)?;
        Ok(KeyList { keys })
    }

    /// Takes all keys out.
    pub fn clear(&mut self)
        ensures keys { self.new.keys ≡ [] }
        ensures room { self.new.room ≡ self.old.room }
    {
        self.keys.clear();
    }

    /// One key more, behind the others.
    pub fn push(&mut self, key: BlockKey)
        requires { length self.old.keys < self.old.room }
        ensures keys { self.new.keys ≡ self.old.keys ++ key ∷ [] }
        ensures room { self.old.room ≤ self.new.room }
    {
        self.keys.push(key).unwrap();
    }

    /// How many keys there are.
    pub fn len(&self) -> usize
        ensures { result ≡ length self.now.keys }
    {
        self.keys.len()
    }

    /// The key at a place.
    pub fn get(&self, at: usize) -> BlockKey
        requires { at < length self.now.keys }
        ensures { (d : BlockKey) → result ≡ slice_index_or self.now.keys at d }
    {
        self.keys[at]
    }

    /// Puts the keys in the order of their groups.
    pub fn sort(&mut self)
        ensures moved { IsPermutation self.old.keys self.new.keys }
        ensures sorted { IsNonDecreasingBy group_at self.new.keys }
        ensures room { self.new.room ≡ self.old.room }
    {
        self.keys.sort_unstable_by_key(|key| group(*key));
    }
}
