//! The places of blocks in memory, in the order of their keys.
ghost use Rattle.std.specs.Prelude.{◌≡◌, ◌<◌, ◌≤◌, ◌-◌, [], length, get_or, slice_get, Some, IfOk, IfErr, IfSome, IfNone, IsTrue};
ghost use Rattle.std.specs.List.{insert, remove};
ghost use Rattle.std.specs.List.Sorted.{IsSearchInRange};
ghost use Rattle.lfs_inodes.specs.Index.{AreRising, HasKeyAt, IsGapIn};

use crate::key::{BlockKey, KINDS};
use std::alloc::{AllocError, Global};
use std::cell::Cell;
use std::cmp::Reverse;
use std::marker::Model;

/// Where the block of a key stands in memory.
#[derive(Clone, Copy)]
pub struct Place {
    pub key: BlockKey,
    pub spot: u32,
}

/// Places in the order of their keys. The least one is the last in memory, so that it goes without a
/// move of others.
#[derive(Drop)]
pub struct KeyIndex {
    falling: Vec<Place>,
    /// Where a key of each kind is likely to be looked for next. Nothing rests on it.
    likely: [Cell<usize>; KINDS],
}

impl Model for KeyIndex {
    ghost use Rattle.std.specs.Prelude.{reverse, vec_capacity};
    ghost use Rattle.lfs_inodes.specs.Index.{IndexValue};

    ghost Value = { IndexValue };

    ghost view = { λ i. record { items = reverse i.falling.items; capacity = vec_capacity i.falling } };
}

impl KeyIndex {
    /// An empty index with memory for so many places.
    ///
    /// # Errors
    ///
    /// Where memory runs out.
    pub fn new(alloc: Global, room: usize) -> Result<KeyIndex, AllocError>
        ensures empty { IfOk result (λ i. i.items ≡ []) }
        ensures room { IfOk result (λ i. room ≤ i.capacity) }
    {
        let falling = Vec::with_capacity(alloc, room)?;
        Ok(KeyIndex {
            falling,
            likely: [Cell::new(0), Cell::new(0), Cell::new(0), Cell::new(0)],
        })
    }

    /// How many places there are.
    pub fn len(&self) -> usize
        ensures { result ≡ length self.now.items }
    {
        self.falling.len()
    }

    /// The place of the least key.
    pub fn first(&self) -> Option<Place>
        ensures some { IfSome result (λ place. slice_get self.now.items 0 ≡ Some place) }
        ensures none { IfNone result (self.now.items ≡ []) }
    {
        let place = self.falling.last()?;
        Some(*place)
    }

    /// The place of the key before which so many stand.
    pub fn get(&self, at: usize) -> Place
        requires { at < length self.now.items }
        ensures { result ≡ get_or self.now.items at result }
    {
        self.falling[self.falling.len() - 1 - at]
    }

    /// How many keys stand before this one, if it is here, or would stand before it.
    pub fn search(&self, key: BlockKey) -> Result<usize, usize>
        ensures found { IfOk result (HasKeyAt self.now.items key.code) }
        ensures missing { AreRising self.now.items
            → IfErr result (IsGapIn self.now.items key.code) }
    {
        let likely = &self.likely[key.rank()];
        let at = likely.get();
        if self.stands_at(key, at) {
            return Ok(self.falling.len() - 1 - at);
        }
        match self.search_all(key) {
            Ok(at) => {
                likely.set(at);
                Ok(self.falling.len() - 1 - at)
            }
            Err(at) => Err(self.falling.len() - at),
        }
    }

    /// Where a key stands in memory, or which place it would follow there.
    fn search_all(&self, key: BlockKey) -> Result<usize, usize>
        ensures bound { IsSearchInRange result (length self.now.items) }
        ensures found { IfOk result (λ at. HasKeyAt self.now.items key.code
            (length self.now.items - 1 - at)) }
        ensures missing { AreRising self.now.items → IfErr result (λ at.
            IsGapIn self.now.items key.code (length self.now.items - at)) }
    {
        self.falling.binary_search_by_key(
            &Reverse(key.number()),
            |place| Reverse(place.key.number()),
        )
    }

    /// Whether a key stands there in memory.
    fn stands_at(&self, key: BlockKey, at: usize) -> bool
        ensures inside { IsTrue result → at < length self.now.items }
        ensures found { IsTrue result → HasKeyAt self.now.items key.code
            (length self.now.items - 1 - at) }
    {
        match self.falling.get(at) {
            Some(place) => place.key.number() == key.number(),
            None => false,
        }
    }

    /// A place comes behind so many others.
    pub fn insert(&mut self, at: usize, place: Place)
        requires inside { at ≤ length self.old.items }
        requires room { length self.old.items < self.old.capacity }
        ensures items { self.new.items ≡ insert self.old.items at place }
        ensures capacity { self.old.capacity ≤ self.new.capacity }
    {
        let behind = self.falling.len() - at;
        self.falling.insert(behind, place).unwrap();
        self.likely[place.key.rank()].set(behind);
    }

    /// The place of the key before which so many stand goes.
    pub fn remove(&mut self, at: usize) -> Place
        requires { at < length self.old.items }
        ensures value { result ≡ get_or self.old.items at result }
        ensures items { self.new.items ≡ remove self.old.items at }
        ensures capacity { self.old.capacity ≤ self.new.capacity }
    {
        let behind = self.falling.len() - 1 - at;
        let place = self.falling.remove(behind);
        self.likely[place.key.rank()].set(behind.saturating_sub(1));
        place
    }

    /// All places go.
    pub fn clear(&mut self)
        ensures items { self.new.items ≡ [] }
        ensures capacity { self.old.capacity ≤ self.new.capacity }
    {
        self.falling.clear();
    }
}
