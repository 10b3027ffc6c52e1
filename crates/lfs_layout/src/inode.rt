//! Inodes, read in place.
ghost use Rattle.std.specs.Prelude.{◌≡◌, ◌<◌, ◌≤◌, ◌↔◌, [], ◌∷◌, List, ℕ, length, slice_index, IfSome, IfNone, MatchOption, IsTrue};
ghost use Rattle.lfs_model.specs.Inode.{InodeValue, FitsInode, IsForm, IsSize, inode_sector, kind_byte, inode_in, inode_of};
ghost use Rattle.lfs_model.specs.declared.Kind.{Kind};
ghost use Rattle.lfs_model.specs.Fields.{part};

use crate::fields::{fits_32, is_zero_at, number32_at, words_at};
use crate::slot::slot_len;
use crate::writer::SectorWriter;
use lfs_model::Kind;
use lfs_model::limits::{
    DIRECT_BLOCKS, LARGEST_FILE, LAST_NUMBER, LAST_SECTOR_VERSION, LONGEST_PATH, MOST_ENTRIES,
    MOST_LINKS,
};
use std::marker::Model;

/// The places of 4 bytes of an inode at which its pointers stand: the first to a data block, and
/// those to the single leaf and to the double root.
pub const FIRST_POINTER: usize = 8;

pub const SINGLE_POINTER: usize = 120;

pub const DOUBLE_POINTER: usize = 121;

/// An inode that stands in a sector.
#[derive(Drop)]
pub struct InodeView<'a> {
    sector: &'a [u8; 512],
}

impl<'a> Model for InodeView<'a> {
    ghost use Rattle.lfs_model.specs.Inode.{InodeValue, inode_of};

    ghost Value = { InodeValue };

    ghost view = { λ v. inode_of v.sector.now };
}

/// Whether an inode of the kind may have this form in a version of the layout: a directory form 0
/// in versions 1 and 2, and form 1 in versions 2 and 3, all else form 0.
pub fn is_form(version: u32, kind: Kind, form: u8) -> bool
    ensures { IsTrue result ↔ IsForm version kind form }
{
    match kind {
        Kind::File => form == 0,
        Kind::Directory => match form {
            0 => version <= LAST_SECTOR_VERSION,
            1 => 1 < version,
            _ => false,
        },
        Kind::Link => form == 0,
    }
}

/// Whether an inode of the form and the kind may have so many bytes: a file up to 8,511,488, a
/// directory whole slots, at most 1,024, a link 1 to 1,023.
#[tactic(auto, unfolding(lfs_model::specs::Inode::IsSize))]
pub fn is_size(form: u8, kind: Kind, size: u32) -> bool
    ensures { IsTrue result ↔ IsSize form kind size }
{
    let slot = slot_len(form);
    match kind {
        Kind::File => size <= LARGEST_FILE,
        Kind::Directory => size % slot == 0 && size <= MOST_ENTRIES * slot,
        Kind::Link => 1 <= size && size <= LONGEST_PATH as u32,
    }
}

/// Whether a number is at least 1 and no more than `most`.
pub fn is_within(number: u32, most: u32) -> bool
    ensures { IsTrue result ↔ (1 ≤ number) × (number ≤ most) }
{
    1 <= number && number <= most
}

fn kind_at(sector: &[u8; 512]) -> Option<Kind>
    ensures found { IfSome result (λ k. part 0 1 sector.now ≡ kind_byte k ∷ []) }
    ensures none { IfNone result ((k : Kind) → ¬ (part 0 1 sector.now ≡ kind_byte k ∷ [])) }
{
    match sector[0] {
        1 => Some(Kind::File),
        2 => Some(Kind::Directory),
        3 => Some(Kind::Link),
        _ => None,
    }
}

impl<'a> InodeView<'a> {
    /// What stands at the places of an inode, whether the sector is one or not.
    pub fn new(sector: &'a [u8; 512]) -> InodeView<'a>
        ensures { result ≡ inode_of sector.now }
    {
        InodeView { sector }
    }

    /// The inode whose sector this is, if it is one.
    pub fn decode(sector: &'a [u8; 512]) -> Option<InodeView<'a>>
        ensures found { IfSome result (λ i. FitsInode i × (sector.now ≡ inode_sector i)) }
        ensures none { IfNone result ((i : InodeValue) → FitsInode i
            → ¬ (sector.now ≡ inode_sector i)) }
        ensures exact { result ≡ inode_in sector.now }
    {
        let Some(kind) = kind_at(sector) else {
            return None;
        };
        let form = sector[1];
        if !is_form(LAST_SECTOR_VERSION, kind, form) {
            return None;
        }
        if !is_zero_at(sector, 2, 2) {
            return None;
        }
        let number = number32_at(sector, 4);
        if !is_within(number, LAST_NUMBER as u32) {
            return None;
        }
        let links = number32_at(sector, 8);
        if !is_within(links, MOST_LINKS) {
            return None;
        }
        let size = number32_at(sector, 12);
        if !is_size(form, kind, size) {
            return None;
        }
        if !is_zero_at(sector, 16, 16) {
            return None;
        }
        if !is_zero_at(sector, 488, 24) {
            return None;
        }
        Some(InodeView { sector })
    }

    /// What it is.
    pub fn kind(&self) -> Kind
        ensures { result ≡ self.now.kind }
    {
        match self.sector[0] {
            1 => Kind::File,
            2 => Kind::Directory,
            _ => Kind::Link,
        }
    }

    /// The form of a directory's slots; 0 for all else.
    pub fn form(&self) -> u8
        ensures { result ≡ self.now.form }
    {
        self.sector[1]
    }

    /// Its number.
    pub fn number(&self) -> u32
        ensures { result ≡ self.now.number }
    {
        number32_at(self.sector, 4)
    }

    /// How many names it has, as the tree counts them.
    pub fn links(&self) -> u32
        ensures { result ≡ self.now.links }
    {
        number32_at(self.sector, 8)
    }

    /// How many bytes it has.
    pub fn size(&self) -> u32
        ensures { result ≡ self.now.size }
    {
        number32_at(self.sector, 12)
    }

    /// The address of one of its first 112 blocks; 0 where there is none.
    pub fn direct(&self, block: usize) -> u32
        requires { block < DIRECT_BLOCKS }
        ensures { result ≡ slice_index self.now.direct block }
    {
        number32_at(self.sector, 4 * (FIRST_POINTER + block))
    }

    /// The address of its single leaf; 0 where there is none.
    pub fn single(&self) -> u32
        ensures { result ≡ self.now.single }
    {
        number32_at(self.sector, 4 * SINGLE_POINTER)
    }

    /// The address of its double root; 0 where there is none.
    pub fn double(&self) -> u32
        ensures { result ≡ self.now.double }
    {
        number32_at(self.sector, 4 * DOUBLE_POINTER)
    }

    /// The inode, to be changed and written.
    pub fn to_inode(&self) -> Inode
        ensures { result ≡ self.now }
    {
        Inode {
            kind: self.kind(),
            form: self.form(),
            number: self.number(),
            links: self.links(),
            size: self.size(),
            direct: words_at(self.sector, 32),
            single: self.single(),
            double: self.double(),
        }
    }
}

/// An inode that is to be written.
#[derive(Clone, Copy, Debug, PartialEq, Eq)]
pub struct Inode {
    /// What it is.
    pub kind: Kind,
    /// That of a directory's slots, 0 or 1; 0 for all else.
    pub form: u8,
    /// Its number, 1 to 4,095.
    pub number: u32,
    /// How many names it has, as the tree counts them: 1 to 1,000.
    pub links: u32,
    /// How many bytes it has; `is_size` tells what fits its kind.
    pub size: u32,
    /// The addresses of its first 112 blocks; 0 where there is none.
    pub direct: [u32; 112],
    /// The address of its single leaf, for blocks 112 to 239; 0 where there is none.
    pub single: u32,
    /// The address of its double root, for the blocks from 240 on; 0 where there is none.
    pub double: u32,
}

impl Model for Inode {
    ghost use Rattle.lfs_model.specs.Inode.{InodeValue};

    ghost Value = { InodeValue };

    ghost view = { λ i. record { kind = i.kind; form = i.form; number = i.number; links = i.links; size = i.size; direct = i.direct; single = i.single; double = i.double } };

    ghost inverse = { λ i. record { kind = i.kind; form = i.form; number = i.number; links = i.links; size = i.size; direct = i.direct; single = i.single; double = i.double } };
}

#[tactic(auto, unfolding(lfs_model::specs::Inode::kind_byte))]
pub(crate) fn byte_of(kind: Kind) -> u8
    ensures { result ≡ kind_byte kind }
{
    match kind {
        Kind::File => 1,
        Kind::Directory => 2,
        Kind::Link => 3,
    }
}

impl Inode {
    /// Whether the inode may stand in a volume.
    pub fn is_fit(&self) -> bool
        ensures { IsTrue result ↔ FitsInode self.now }
    {
        fits_32(&self.direct);
        fits_32(&[self.single, self.double]);
        is_within(self.number, LAST_NUMBER as u32)
            && is_within(self.links, MOST_LINKS)
            && is_form(LAST_SECTOR_VERSION, self.kind, self.form)
            && is_size(self.form, self.kind, self.size)
    }

    /// The sector of the inode, which `is_fit` has to hold for.
    pub fn encode(&self) -> [u8; 512]
        requires { FitsInode self.now }
        ensures { result ≡ inode_sector self.now }
    {
        let mut sector = SectorWriter::new();
        sector.bytes(&[byte_of(self.kind)]);
        sector.bytes(&[self.form]);
        sector.zeros(2);
        sector.number32(self.number);
        sector.number32(self.links);
        sector.number32(self.size);
        sector.zeros(16);
        sector.words(&self.direct);
        sector.number32(self.single);
        sector.number32(self.double);
        sector.zeros(24);
        sector.finish()
    }
}

impl Inode {
    /// The inode of an object, with the addresses of its blocks, its single leaf and its double
    /// root.
    pub fn new(
        kind: Kind,
        form: u8,
        number: u32,
        links: u32,
        size: u32,
        direct: [u32; 112],
        single: u32,
        double: u32,
    ) -> Inode
        requires number { (1 ≤ number) × (number ≤ LAST_NUMBER) }
        requires links { (1 ≤ links) × (links ≤ MOST_LINKS) }
        requires form { IsForm 2 kind form }
        requires size { IsSize form kind size }
        ensures fits { FitsInode result }
        ensures value { result ≡ record {
          kind = kind;
          form = form;
          number = number;
          links = links;
          size = size;
          direct = direct;
          single =
              single;
          double = double;
        } }
    {
        fits_32(&direct);
        Inode {
            kind,
            form,
            number,
            links,
            size,
            direct,
            single,
            double,
        }
    }
}

/// Two inodes that are spelled alike are one.
pub fn one_inode_spelling()
    ensures { (a b : InodeValue) → FitsInode a → FitsInode b
        → inode_sector a ≡ inode_sector b → a ≡ b }
{}
