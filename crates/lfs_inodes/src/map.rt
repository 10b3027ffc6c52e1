//! The inode map in memory.
ghost use Rattle.std.specs.Prelude.{◌≡◌, ◌<◌, ◌≤◌, ◌+◌, ◌*◌, ℕ, length, get_or, slice_set, IfOk, IfSome, IfNone, IsTrue, IsFalse};
ghost use Rattle.lfs_model.specs.Stands.{LogMap};
ghost use Rattle.lfs_model.specs.Running.{Tables, IsSet};
ghost use Rattle.lfs_model.specs.Committing.{SpellsMap};
ghost use Rattle.lfs_model.specs.Memory.{shown};
ghost use Rattle.lfs_model.specs.Entry.{Inode};
ghost use Rattle.lfs_model.specs.Pointers.{FitsPointers, pointer_sector};
ghost use Rattle.lfs_inodes.specs.MapValue.{MapValue, IsMap, IsEmptyMap, IsUnusedNumber, IsLoaded, IsMapOf, AreSettled, ShowsNone, SpellsShown, address_in, is_hidden_in, block_in, shown_in};

use lfs_layout::{PointerView, encode_pointers};
use lfs_model::limits::{BLOCK_POINTERS, FILE_NUMBERS, MAP_BLOCKS};
use std::alloc::{AllocError, Global};
use std::marker::Model;

/// How many numbers there are; number 0 is nobody's.
const NUMBERS: usize = FILE_NUMBERS as usize;

/// How many addresses a block of the map has.
const POINTERS: usize = BLOCK_POINTERS as usize;

/// For each number the address of its inode, 0 where there is none and 1 where it is in memory, and
/// whether its file is without a name. For each block of the map its address, 0 where there is none
/// and 1 where it is to be written.
#[derive(Drop)]
pub struct InodeMap {
    addresses: Vec<u32>,
    hidden: Vec<bool>,
    blocks: [u32; 32],
}

impl Model for InodeMap {
    ghost use Rattle.lfs_inodes.specs.MapValue.{MapValue, IsMap};

    ghost Value = { MapValue };

    ghost view = { λ m. record { addresses = m.addresses.items; hidden = m.hidden.items; blocks = m.blocks } };

    ghost invariant = { λ m. IsMap (record { addresses = m.addresses.items; hidden = m.hidden.items; blocks = m.blocks }) };
}

impl InodeMap {
    /// A map without inodes.
    ///
    /// # Errors
    ///
    /// Where memory runs out.
    pub fn new(alloc: Global) -> Result<InodeMap, AllocError>
        ensures { IfOk result IsEmptyMap }
    {
        let addresses = Vec::from_elem(alloc, 0, NUMBERS)?;
        let hidden = Vec::from_elem(alloc, false, NUMBERS)?;
        Ok(InodeMap {
            addresses,
            hidden,
            blocks: [0; 32],
        })
    }

    /// The map becomes what another one is. No memory is asked for.
    pub fn copy_from(&mut self, other: &InodeMap)
        ensures { self.new ≡ other.now }
    {
        self.addresses.copy_from_slice(other.addresses.as_slice());
        self.hidden.copy_from_slice(other.hidden.as_slice());
        self.blocks = other.blocks;
    }

    /// The address of an inode.
    pub fn address(&self, number: u16) -> u32
        requires { number < FILE_NUMBERS }
        ensures { result ≡ address_in self.now number }
    {
        self.addresses[number as usize]
    }

    /// The inode has this address.
    pub fn set_address(&mut self, number: u16, address: u32)
        requires { number < FILE_NUMBERS }
        ensures set { self.new ≡ record self.old
            { addresses = slice_set self.old.addresses number address } }
        ensures changed { IsSet (address_in self.old) (address_in self.new) number address }
    {
        self.addresses[number as usize] = address;
    }

    /// Whether the file is without a name.
    pub fn is_hidden(&self, number: u16) -> bool
        requires { number < FILE_NUMBERS }
        ensures { result ≡ is_hidden_in self.now number }
    {
        self.hidden[number as usize]
    }

    /// The file is without a name, or has one.
    pub fn set_hidden(&mut self, number: u16, hidden: bool)
        requires { number < FILE_NUMBERS }
        ensures set { self.new ≡ record self.old
            { hidden = slice_set self.old.hidden number hidden } }
        ensures changed { IsSet (is_hidden_in self.old) (is_hidden_in self.new) number hidden }
    {
        self.hidden[number as usize] = hidden;
    }

    /// The address of a block of the map.
    pub fn block_address(&self, index: usize) -> u32
        requires { index < MAP_BLOCKS }
        ensures value { result ≡ block_in self.now index }
        ensures size { IsMap self.now }
    {
        self.blocks[index]
    }

    /// The addresses of all blocks of the map.
    pub fn block_addresses(&self) -> [u32; 32]
        ensures { result ≡ self.now.blocks }
    {
        self.blocks
    }

    /// The block of the map has this address.
    pub fn set_block_address(&mut self, index: usize, address: u32)
        requires { index < MAP_BLOCKS }
        ensures set { self.new ≡ record self.old
            { blocks = slice_set self.old.blocks index address } }
        ensures changed { IsSet (block_in self.old) (block_in self.new) index address }
        ensures size { IsMap self.new }
    {
        self.blocks[index] = address;
    }

    /// Takes the addresses of 128 inodes from a block of the map.
    pub fn load(&mut self, index: usize, block: &PointerView<'_>)
        requires { index < MAP_BLOCKS }
        ensures { IsLoaded self.old self.new index block.now }
    {
        for place in 0..POINTERS {
            self.addresses[POINTERS * index + place] = block.get(place);
        }
    }

    /// The least number from 1 on that has no inode.
    pub fn least_free(&self) -> Option<u16>
        ensures some { IfSome result (IsUnusedNumber self.now) }
        ensures none { IfNone result ((k : ℕ) → 1 ≤ k → k < FILE_NUMBERS → 0 < address_in self.now k) }
    {
        for number in 1..FILE_NUMBERS {
            if self.addresses[number as usize] == 0 {
                return Some(number);
            }
        }
        None
    }

    /// The address of an inode that a block of the map shows: none for a file without a name.
    fn shown_address(&self, number: usize) -> u32
        requires { number < FILE_NUMBERS }
        ensures { result ≡ shown_in self.now number }
    {
        if self.hidden[number] {
            0
        } else {
            self.addresses[number]
        }
    }

    /// The addresses that a block of the map shows.
    fn shown_block(&self, index: usize) -> [u32; 128]
        requires { index < MAP_BLOCKS }
        ensures { (i : ℕ) → i < BLOCK_POINTERS → get_or result i 0 ≡ shown_in self.now (BLOCK_POINTERS * index + i) }
    {
        let mut shown = [0; 128];
        for place in 0..POINTERS {
            shown[place] = self.shown_address(POINTERS * index + place);
        }
        shown
    }

    /// The addresses of a block of the map, if it shows each of them: each file has a name.
    fn named_block(&self, index: usize) -> Option<&[u32]>
        requires { index < MAP_BLOCKS }
        ensures each { IfSome result (λ a. (i : ℕ) → i < BLOCK_POINTERS
            → get_or a.now i 0 ≡ shown_in self.now (BLOCK_POINTERS * index + i)) }
        ensures length { IfSome result (λ a. length a.now ≡ BLOCK_POINTERS) }
    {
        let first = POINTERS * index;
        if self.hidden[first..first + POINTERS].contains(&true) {
            return None;
        }
        Some(&self.addresses[first..first + POINTERS])
    }

    /// Writes a block of the map, unless it would show no inode: whether it shows one.
    pub fn encode(&self, index: usize, out: &mut [u8; 512]) -> bool
        requires { index < MAP_BLOCKS }
        ensures some { IsTrue result → SpellsShown self.now index out.new }
        ensures none { IsFalse result → ShowsNone self.now index }
        ensures written { (m : LogMap) (t : Tables) → IsMapOf self.now m t → AreSettled m t index
            → IsTrue result → SpellsMap m t index out.new }
        ensures dropped { (m : LogMap) (t : Tables) → IsMapOf self.now m t → IsFalse result
            → (i : ℕ) → i < BLOCK_POINTERS → shown m t.at (Inode (BLOCK_POINTERS * index + i)) ≡ 0 }
    {
        if let Some(addresses) = self.named_block(index) {
            return spell(addresses, out);
        }
        self.encode_shown(index, out)
    }

    /// The same of a block that hides some of its files, which is put together first.
    fn encode_shown(&self, index: usize, out: &mut [u8; 512]) -> bool
        requires { index < MAP_BLOCKS }
        ensures some { IsTrue result → SpellsShown self.now index out.new }
        ensures none { IsFalse result → ShowsNone self.now index }
    {
        spell(&self.shown_block(index), out)
    }
}

/// Writes the block of these addresses, unless all are 0: whether one isn't.
fn spell(addresses: &[u32], out: &mut [u8; 512]) -> bool
    requires { length addresses.now ≡ BLOCK_POINTERS }
    ensures fits { FitsPointers addresses.now }
    ensures some { IsTrue result → out.new ≡ pointer_sector addresses.now }
    ensures shows { IsTrue result
        → (i : ℕ) × (i < BLOCK_POINTERS) × (0 < get_or addresses.now i 0) }
    ensures none { IsFalse result → (i : ℕ) → get_or addresses.now i 0 ≡ 0 }
{
    if is_empty(addresses) {
        return false;
    }
    *out = encode_pointers(addresses);
    true
}

/// Whether all addresses are 0.
fn is_empty(addresses: &[u32]) -> bool
    requires { length addresses.now ≡ BLOCK_POINTERS }
    ensures empty { IsTrue result → (i : ℕ) → get_or addresses.now i 0 ≡ 0 }
    ensures some { IsFalse result → (i : ℕ) × (i < BLOCK_POINTERS) × (0 < get_or addresses.now i 0) }
{
    for address in addresses {
        if *address != 0 {
            return false;
        }
    }
    true
}
