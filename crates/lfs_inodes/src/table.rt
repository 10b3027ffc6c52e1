//! The blocks of files that are in memory.
ghost use Rattle.std.specs.Prelude.{◌≡◌, ◌≢◌, true, ◌<◌, ◌≤◌, ◌+◌, ◌^◌, cond, ℕ, T, List, [], length, is_some, Some, None, IfOk, IfErr, IfSome, IfNone, IsTrue, IsFalse, MatchOption, vec_len, vec_capacity};
ghost use Rattle.std.specs.Ordering.{nat_cmp};
ghost use Rattle.std.specs.List.{remove};
ghost use Rattle.std.specs.FinMap.{find, put, is_sorted};
ghost use Rattle.lfs_model.specs.Entry.{Entry, word};
ghost use Rattle.lfs_model.specs.Tree.{without};
ghost use Rattle.lfs_model.specs.Memory.{patched, parent, pointer, IsOfFile, IsPointers, HasPointer};
ghost use Rattle.lfs_model.specs.Cutting.{is_past};
ghost use Rattle.lfs_model.specs.Running.{IsLowest, IsTight};
ghost use Rattle.lfs_model.specs.Staging.{ChangesTo};
ghost use Rattle.lfs_inodes.specs.Key.{entry_of};
ghost use Rattle.lfs_inodes.specs.Empty.{IsEmptyBlock};
ghost use Rattle.lfs_inodes.specs.Blocks.{blocks_of, number_at, HasNumberAt, IsGapFor};
ghost use Rattle.lfs_inodes.specs.Code.{IsCode, entry_at};
ghost use Rattle.lfs_inodes.specs.Table.{ClearsWords, Forgets, ForgetsPast, GivesOut, IsLimited, Patches, TakesIn};
ghost use Rattle.lfs_inodes.specs.Held.{times, Stores};
ghost use Rattle.lfs_inodes.specs.Data.{data_count, is_data_code};

use crate::index::{KeyIndex, Place};
use crate::key::{BlockKey, IN_MEMORY};
use lfs_layout::{SECTOR_WORDS, set_word, word};
use std::alloc::{AllocError, Global};
use std::marker::Model;

/// The blocks of files in memory, by their keys. All memory is taken as the table is made, and is
/// written as blocks come.
/// Contracts see the list of the keys' numbers and the blocks, how many blocks there may be at
/// present (`limit`), and for how many there is memory (`room`).
#[derive(Drop)]
pub struct DirtyTable {
    places: KeyIndex,
    arena: Vec<[u8; 512]>,
    spare: Vec<u32>,
    limit: u32,
    room: u32,
    /// Whether a block of pointers here may lead nowhere.
    loose: bool,
}

impl Model for DirtyTable {
    ghost use Rattle.std.specs.Prelude.{vec_capacity};
    ghost use Rattle.lfs_inodes.specs.Blocks.{TableValue};

    ghost Value = { TableValue };

    ghost use Rattle.lfs_inodes.specs.Held.{entries_in, IsTableOf, IsTightUnless};

    ghost view = { λ t. record { blocks = entries_in t.places.items t.arena.items; capacity = record { limit = t.limit; room = t.room } } };

    ghost invariant = { λ t. IsTableOf t.places.items t.arena.items t.spare.items t.limit t.room (record { for_places = t.places.capacity; for_arena = vec_capacity t.arena; for_spare = vec_capacity t.spare }) × IsTightUnless t.loose t.places.items t.arena.items };
}

impl DirtyTable {
    /// An empty table with memory for so many blocks, that takes no more than `limit` of them at
    /// first.
    ///
    /// # Errors
    ///
    /// Where memory runs out.
    pub fn new(alloc: Global, room: u32, limit: u32) -> Result<DirtyTable, AllocError>
        requires { limit ≤ room }
        ensures empty { IfOk result (λ t. t.blocks ≡ []) }
        ensures limit { IfOk result (λ t. t.capacity.limit ≡ limit) }
        ensures room { IfOk result (λ t. t.capacity.room ≡ room) }
    {
        let places = KeyIndex::new(alloc, room as usize)?;
        let arena = Vec::with_capacity(alloc, room as usize)?;
        let spare = Vec::with_capacity(alloc, room as usize)?;
        Ok(DirtyTable {
            places,
            arena,
            spare,
            limit,
            room,
            loose: false,
        })
    }

    /// The table takes so many blocks from now on. No memory is asked for.
    pub fn set_limit(&mut self, limit: u32)
        requires room { limit ≤ self.old.capacity.room }
        requires few { length self.old.blocks ≤ limit }
        ensures { IsLimited self.old self.new limit }
    {
        self.limit = limit;
    }

    /// How many blocks there are.
    pub fn len(&self) -> usize
        ensures length { result ≡ length self.now.blocks }
        ensures room { length self.now.blocks ≤ self.now.capacity.limit }
        ensures sorted { T (is_sorted nat_cmp self.now.blocks) }
        ensures files { (x : Entry) (bytes : List ℕ)
            → blocks_of self.now x ≡ Some bytes → IsOfFile x }
        ensures codes { (i : ℕ) → i < length self.now.blocks
            → IsCode (number_at self.now.blocks i) }
    {
        self.places.len()
    }

    /// How many blocks there may be at present.
    pub fn capacity(&self) -> usize
        ensures limit { result ≡ self.now.capacity.limit }
        ensures room { result ≤ self.now.capacity.room }
        ensures most { result < 2 ^ 32 }
    {
        self.limit as usize
    }

    /// The block with the least key: none of the blocks that it points to is in memory.
    pub fn next(&self) -> Option<BlockKey>
        ensures first { IfSome result (λ key. HasNumberAt self.now.blocks key.code 0) }
        ensures none { IfNone result (self.now.blocks ≡ []) }
        ensures lowest { IfSome result (λ key. IsLowest (blocks_of self.now) (entry_of key)) }
        ensures data_blocks { IfSome result (λ key. 1 ≤ data_count self.now
            → is_data_code key.code ≡ true) }
        ensures empty { IfNone result ((x : Entry) → blocks_of self.now x ≡ None) }
    {
        let place = self.places.first()?;
        Some(place.key)
    }

    /// Whether there are so many data blocks.
    pub fn has_data(&self, count: usize) -> bool
        requires { 1 ≤ count }
        ensures yes { IsTrue result → count ≤ data_count self.now }
        ensures many { IsTrue result → count ≤ length self.now.blocks }
        ensures no { IsFalse result → data_count self.now < count }
    {
        count <= self.len() && self.key_at(count - 1).is_data()
    }

    /// The key at a place of the index.
    fn key_at(&self, at: usize) -> BlockKey
        requires { at < length self.now.blocks }
        ensures { HasNumberAt self.now.blocks result.code at }
    {
        self.places.get(at).key
    }

    /// Whether this block of pointers is here, and none of its pointers leads anywhere.
    fn is_empty(&self, key: BlockKey) -> bool
        ensures yes { result ≡ true → IsEmptyBlock (blocks_of self.now) (entry_of key) }
        ensures no { result ≢ true → (bytes : List ℕ)
            → blocks_of self.now (entry_of key) ≡ Some bytes
            → IsPointers (entry_of key) → HasPointer bytes }
    {
        if !key.is_pointers() {
            return false;
        }
        let Some(block) = self.block(key) else {
            return false;
        };
        has_no_pointer(block)
    }

    /// The first block of pointers that leads nowhere. Where none can have come to that since
    /// `set_tight`, no block is looked at.
    pub fn first_empty(&self) -> Option<BlockKey>
        ensures empty { IfSome result (λ key. IsEmptyBlock (blocks_of self.now) (entry_of key)) }
        ensures none { IfNone result (IsTight (blocks_of self.now)) }
    {
        if !self.loose {
            return None;
        }
        for at in 0..self.len() {
            let key = self.key_at(at);
            if self.is_empty(key) {
                return Some(key);
            }
        }
        None
    }

    /// The caller knows that each block of pointers here leads somewhere.
    pub fn set_tight(&mut self)
        requires { IsTight (blocks_of self.old) }
        ensures { self.new ≡ self.old }
    {
        self.loose = false;
    }

    /// Where a key stands in the index, or where it would go.
    fn search(&self, key: BlockKey) -> Result<usize, usize>
        ensures found { IfOk result (HasNumberAt self.now.blocks key.code) }
        ensures missing { IfErr result (IsGapFor self.now.blocks key.code) }
    {
        self.places.search(key)
    }

    /// The block of a key, if it is here.
    pub fn block(&self, key: BlockKey) -> Option<&[u8; 512]>
        ensures block { MatchOption result (find nat_cmp key.code self.now.blocks ≡ None)
            (λ bytes. find nat_cmp key.code self.now.blocks ≡ Some bytes.now) }
        ensures entry { MatchOption result (blocks_of self.now (entry_of key) ≡ None)
            (λ bytes. blocks_of self.now (entry_of key) ≡ Some bytes.now) }
    {
        let Ok(at) = self.search(key) else {
            return None;
        };
        Some(&self.arena[self.places.get(at).spot as usize])
    }

    /// Puts a block in, in the place of what it was.
    pub fn put(&mut self, key: BlockKey, bytes: &[u8; 512])
        requires { find nat_cmp key.code self.old.blocks ≡ None
            → length self.old.blocks < self.old.capacity.limit }
        ensures put { self.new ≡ record self.old
            { blocks = put nat_cmp key.code bytes.now self.old.blocks } }
        ensures changed { ChangesTo (blocks_of self.old) (blocks_of self.new)
            (entry_of key) (Some bytes.now) }
        ensures length { length self.new.blocks ≡ cond
            (is_some (find nat_cmp key.code self.old.blocks)) (length self.old.blocks)
            (length self.old.blocks + 1) }
    {
        let empty = leads_nowhere(key, bytes);
        match self.search(key) {
            Ok(at) => {
                let spot = self.places.get(at).spot;
                self.arena[spot as usize] = *bytes;
                self.loose |= empty;
            }
            Err(at) => {
                let spot = store(&mut self.arena, &mut self.spare, bytes);
                self.places.insert(at, Place { key, spot });
                self.loose |= empty;
            }
        }
    }

    /// Puts a number at a place of 4 bytes of a block, if the block is here.
    pub fn patch(&mut self, key: BlockKey, place: usize, number: u32)
        requires { place < SECTOR_WORDS }
        ensures { Patches self.old self.new key place number }
    {
        let Ok(at) = self.search(key) else {
            return;
        };
        let spot = self.places.get(at).spot as usize;
        point(&mut self.arena[spot], place, number);
        self.loose |= may_empty(key, number);
    }

    /// Takes a block out, if it is here.
    pub fn remove(&mut self, key: BlockKey)
        ensures removed { self.new ≡ record self.old
            { blocks = without nat_cmp key.code self.old.blocks } }
        ensures changed { ChangesTo (blocks_of self.old) (blocks_of self.new) (entry_of key) None }
        ensures length { cond (is_some (find nat_cmp key.code self.old.blocks)) 1 0 + length
            self.new.blocks ≡ length self.old.blocks }
        ensures data_blocks { (bytes : List ℕ)
            → find nat_cmp key.code self.old.blocks ≡ Some bytes
            → is_data_code key.code ≡ true → data_count self.new + 1 ≡ data_count self.old }
    {
        let Ok(at) = self.search(key) else {
            return;
        };
        self.remove_at(at);
    }

    /// Takes the block at a place of the index out.
    fn remove_at(&mut self, at: usize)
        requires { at < length self.old.blocks }
        ensures removed { self.new ≡ record self.old { blocks = remove self.old.blocks at } }
        ensures others { remove self.old.blocks at
            ≡ without nat_cmp (number_at self.old.blocks at) self.old.blocks }
        ensures changed { ChangesTo (blocks_of self.old) (blocks_of self.new)
            (entry_at (number_at self.old.blocks at)) None }
        ensures length { cond (is_some (find nat_cmp (number_at self.old.blocks at)
            self.old.blocks)) 1 0 + length self.new.blocks ≡ length self.old.blocks }
        ensures codes { (i : ℕ) → i < length self.new.blocks
            → IsCode (number_at self.new.blocks i) }
        ensures data_blocks { is_data_code (number_at self.old.blocks at) ≡ true
            → data_count self.new + 1 ≡ data_count self.old }
    {
        let place = self.places.remove(at);
        self.spare.push(place.spot).unwrap();
    }

    /// Takes every block of a file out.
    pub fn forget(&mut self, file: u16)
        ensures { Forgets self.old self.new file }
    {
        let mut at = self.len();
        while at > 0 {
            at -= 1;
            if self.key_at(at).file() == file {
                self.remove_at(at);
            }
        }
    }

    /// Takes every data block of a file from block `first` on out, and the blocks of pointers with
    /// only those below them.
    pub fn forget_past(&mut self, file: u16, first: u32)
        ensures { ForgetsPast self.old self.new file first }
    {
        let mut at = self.len();
        while at > 0 {
            at -= 1;
            if self.key_at(at).is_past(file, first) {
                self.remove_at(at);
            }
        }
    }

    /// Puts 0 at so many places of 4 bytes of a block from one on, if the block is here.
    pub fn clear_words(&mut self, key: BlockKey, first: usize, number: usize)
        requires { first + number ≤ SECTOR_WORDS }
        ensures { ClearsWords self.old self.new key first number }
    {
        for i in 0..number {
            self.patch(key, first + i, 0);
        }
    }

    /// A block comes into memory, in the place of what was there, and its parent points to it
    /// there.
    pub fn fetch(&mut self, key: BlockKey, bytes: &[u8; 512])
        requires { find nat_cmp key.code self.old.blocks ≡ None
            → length self.old.blocks < self.old.capacity.limit }
        ensures { TakesIn self.old self.new key bytes.now }
    {
        if let Some(above) = key.parent() {
            self.patch(above, key.pointer(), IN_MEMORY);
        }
        self.put(key, bytes);
    }

    /// The block of this key leaves memory for an address on the device, or for good at 0, and its
    /// parent points there.
    pub fn moved(&mut self, key: BlockKey, address: u32)
        ensures { GivesOut self.old self.new key address }
    {
        if let Some(above) = key.parent() {
            self.patch(above, key.pointer(), address);
        }
        self.remove(key);
    }

    /// Takes every block out.
    pub fn clear(&mut self)
        ensures empty { self.new ≡ record self.old { blocks = [] } }
        ensures entries { (x : Entry) → blocks_of self.new x ≡ None }
    {
        self.places.clear();
        self.spare.clear();
        self.arena.clear();
        self.loose = false;
    }
}

/// Whether all pointers of a block of pointers are 0.
#[tactic(auto, unfolding(lfs_model::specs::Entry::word))]
fn has_no_pointer(block: &[u8; 512]) -> bool
    ensures yes { result ≡ true → (w : ℕ) → w < SECTOR_WORDS → word block.now w ≡ 0 }
    ensures no { result ≢ true → HasPointer block.now }
{
    for place in 0..SECTOR_WORDS {
        if word(block, place) != 0 {
            return false;
        }
    }
    true
}

/// Puts a number at a place of 4 bytes of a block. As a block of pointers it leads somewhere then,
/// unless the number is 0.
#[tactic(auto, unfolding(lfs_model::specs::Memory::patched))]
fn point(block: &mut [u8; 512], place: usize, number: u32)
    requires { place < SECTOR_WORDS }
    ensures patched { block.new ≡ patched place number block.old }
    ensures leads { 0 < number → HasPointer block.new }
{
    set_word(block, place, number);
}

/// Whether the block is one of pointers that leads nowhere.
fn leads_nowhere(key: BlockKey, block: &[u8; 512]) -> bool
    ensures { result ≢ true → IsPointers (entry_of key) → HasPointer block.now }
{
    key.is_pointers() && has_no_pointer(block)
}

/// Whether a block of pointers may lead nowhere once this number stands in it.
fn may_empty(key: BlockKey, number: u32) -> bool
    ensures { result ≢ true → IsPointers (entry_of key) → 0 < number }
{
    number == 0 && key.is_pointers()
}

/// Stores a block at a spot that is spare, or behind all others where none is: the spot.
fn store(arena: &mut Vec<[u8; 512]>, spare: &mut Vec<u32>, bytes: &[u8; 512]) -> u32
    requires low { (s : ℕ) → 1 ≤ times s spare.old.items → s < vec_len arena.old }
    requires room { vec_len spare.old ≡ 0 → vec_len arena.old < vec_capacity arena.old }
    requires small { vec_len arena.old < 2 ^ 32 }
    ensures stored { Stores arena.old.items spare.old.items arena.new.items spare.new.items
        bytes.now result }
    ensures blocks { vec_capacity arena.old ≤ vec_capacity arena.new }
    ensures spots { vec_capacity spare.old ≤ vec_capacity spare.new }
{
    match spare.pop() {
        Some(spot) => {
            arena[spot as usize] = *bytes;
            spot
        }
        None => {
            let spot = arena.len() as u32;
            arena.push(*bytes).unwrap();
            spot
        }
    }
}
