//! Blocks of addresses, read in place.
ghost use Rattle.std.specs.Prelude.{◌≡◌, ◌<◌, List, ℕ, length, slice_index};
ghost use Rattle.lfs_model.specs.Pointers.{FitsPointers, pointer_sector};

use crate::fields::{number32_at, words_at};
use byteorder::{ByteOrder, LittleEndian};
use lfs_model::limits::BLOCK_POINTERS;
use std::marker::Model;

/// The 128 addresses of a block that stands in a sector. Contracts see their list.
#[derive(Drop)]
pub struct PointerView<'a> {
    sector: &'a [u8; 512],
}

impl<'a> Model for PointerView<'a> {
    ghost use Rattle.std.specs.Prelude.{ℕ, List};
    ghost use Rattle.lfs_model.specs.Pointers.{pointers_of};

    ghost Value = { List ℕ };

    ghost view = { λ v. pointers_of v.sector.now };
}

impl<'a> PointerView<'a> {
    /// Each sector is a block of addresses.
    pub fn new(sector: &'a [u8; 512]) -> PointerView<'a>
        ensures fits { FitsPointers result }
        ensures spelled { sector.now ≡ pointer_sector result }
    {
        let _first = sector[0];
        PointerView { sector }
    }

    /// The address at a place.
    pub fn get(&self, place: usize) -> u32
        requires { place < BLOCK_POINTERS }
        ensures { result ≡ slice_index self.now place }
    {
        number32_at(self.sector, 4 * place)
    }

    /// All the addresses.
    pub fn to_array(&self) -> [u32; 128]
        ensures { result ≡ self.now }
    {
        words_at(self.sector, 0)
    }
}

/// The block of these addresses.
#[tactic(auto, unfolding(lfs_model::specs::Pointers::pointer_sector, lfs_model::specs::Fields::le32, lfs_model::specs::Fields::words))]
pub fn encode_pointers(addresses: &[u32]) -> [u8; 512]
    requires { length addresses.now ≡ BLOCK_POINTERS }
    ensures { result ≡ pointer_sector addresses.now }
{
    let mut sector = [0; 512];
    LittleEndian::write_u32_into(addresses, &mut sector);
    sector
}

/// Two blocks of addresses that are spelled alike are one.
pub fn one_pointer_spelling()
    ensures { (a b : List ℕ) → FitsPointers a → FitsPointers b
        → pointer_sector a ≡ pointer_sector b → a ≡ b }
{}
