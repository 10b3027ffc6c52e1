//! The blocks of an object, one after another.
ghost use Rattle.std.specs.Prelude.{◌≡◌, ◌-◌, IfSome, slice_get};
ghost use Rattle.lfs_model.specs.Content.{Content, block};
ghost use Rattle.lfs_model.specs.Device.{Carries};
ghost use Rattle.lfs_salvage.specs.Blocks.{
  AddressesAgree,
  FindsBlock,
  Follows,
  IsAddressed,
  IsOf,
  KeepsAddresses,
  block_address,
  goal_address,
  row_address,
  row_place,
};
ghost use Rattle.lfs_salvage.specs.Telling.{TellsNothing};

use crate::readings::Readings;
use lfs_device::SectorDevice;
use lfs_layout::{Inode, PointerView, is_zero};
use lfs_model::limits::{BLOCK_POINTERS, DIRECT_BLOCKS, FILE_BLOCKS, FIRST_DOUBLE, SECTOR_LEN};

/// The bytes of a block.
pub const BLOCK_LEN: u32 = SECTOR_LEN as u32;

/// The most steps that the blocks of an object take: one to each, one to each row of addresses, one
/// to the double root, and one to what stands past the end.
pub const MOST_STEPS: u32 = FILE_BLOCKS + BLOCK_POINTERS + 4;

/// Blocks that are missing, and the sector that is to blame: it can't be read, or is all zero, as no
/// stored block is.
#[derive(Clone, Copy)]
pub struct Gap {
    /// The first of them.
    pub first: u32,
    pub count: u32,
    pub sector: u32,
}

/// What is amiss with the blocks of an object.
#[derive(Clone, Copy)]
pub enum Flaw {
    Gap(Gap),
    /// This sector has bytes past the end that aren't 0, or leads there. Nothing is missing for it.
    PastEnd(u32),
}

/// What a step finds.
#[derive(Clone, Copy)]
pub enum Piece {
    /// Nothing to be told: a hole, or addresses.
    Nothing,
    /// A block, its sector and its bytes.
    Block(u32, u32, [u8; 512]),
    Flaw(Flaw),
}

// Whether all bytes from a place on are 0.
fn is_zero_from(bytes: &[u8; 512], place: u32) -> bool {
    bytes.iter().skip(place as usize).all(|byte| *byte == 0)
}

/// Whether a block of an object has no bytes past the end.
pub fn ends_within(inode: &Inode, block: u32, bytes: &[u8; 512]) -> bool {
    let start = BLOCK_LEN.saturating_mul(block);
    is_zero_from(bytes, inode.size.saturating_sub(start).min(BLOCK_LEN))
}

// The address at a place.
fn address_at(addresses: &[u32], place: u32) -> Option<u32>
    ensures { result ≡ slice_get addresses.now place }
{
    addresses.get(place as usize).copied()
}

// The first address from a place on that isn't 0.
fn stored_from(addresses: &[u32], place: u32) -> Option<u32> {
    let mut rest = addresses.iter().skip(place as usize).copied();
    rest.find(|sector| *sector != 0)
}

/// A block of addresses.
#[derive(Clone, Copy)]
struct Row {
    /// 0 for the single one of the inode; those in the double root follow.
    place: u32,
    addresses: [u32; 128],
}

impl Row {
    // The block that the first of its addresses leads to.
    fn first(&self) -> u32 {
        DIRECT_BLOCKS.saturating_add(BLOCK_POINTERS.saturating_mul(self.place))
    }
}

/// A walk over the blocks of an object.
#[derive(Drop)]
pub struct Blocks {
    inode: Inode,
    /// How many blocks its size wants.
    count: u32,
    next: u32,
    /// The addresses of the row that the next block is in, once they were read.
    row: Option<Row>,
    /// The addresses of the leaves in its double root, once they were read.
    root: Option<[u32; 128]>,
    /// The sector of its last block, where that has bytes past the end.
    tail: Option<u32>,
    /// All blocks were gone through.
    is_done: bool,
}

/// What a step reads.
#[derive(Clone, Copy)]
enum Goal {
    /// The next block.
    Block,
    /// The addresses of a row of blocks.
    Row,
    /// The double root.
    Root,
}

impl Goal {
    // How many blocks it leads to.
    fn blocks(self) -> u32 {
        match self {
            Goal::Block => 1,
            Goal::Row => BLOCK_POINTERS,
            Goal::Root => FILE_BLOCKS,
        }
    }
}

/// How the next step goes on.
#[derive(Clone, Copy)]
struct Way {
    goal: Goal,
    /// The sector that has it; 0 where there is none.
    sector: u32,
}

impl Blocks {
    /// Begins with the first block of an object, which is a new reader.
    pub fn new(readings: &mut Readings, inode: Inode) -> Blocks
        ensures inode { result.inode ≡ inode }
        ensures follows { (content : Content) → Follows content result }
    {
        readings.begin();
        Blocks {
            inode,
            count: inode.size.div_ceil(BLOCK_LEN),
            next: 0,
            row: None,
            root: None,
            tail: None,
            is_done: false,
        }
    }

    // How many blocks the next one is behind those of the inode.
    fn behind(&self) -> u32
        ensures { result ≡ self.now.next - DIRECT_BLOCKS }
    {
        self.next.saturating_sub(DIRECT_BLOCKS)
    }

    // The place of the row that the next block is in.
    fn row_place(&self) -> u32
        ensures { result ≡ row_place self.now.next }
    {
        self.behind() / BLOCK_POINTERS
    }

    // The address of the next block, if that of its row is at hand.
    fn known(&self) -> Option<u32>
        ensures { (content : Content) → Follows content self.now → IfSome result
            (λ sector. sector ≡ block_address content self.now.inode self.now.next) }
    {
        if self.next < DIRECT_BLOCKS {
            return address_at(&self.inode.direct, self.next);
        }
        let row = self.row?;
        if row.place != self.row_place() {
            return None;
        }
        address_at(&row.addresses, self.behind() % BLOCK_POINTERS)
    }

    // The address of the row that the next block is in, if that is at hand.
    fn known_row(&self) -> Option<u32>
        ensures { (content : Content) → Follows content self.now → IfSome result
            (λ sector. sector ≡ row_address content self.now.inode (row_place self.now.next)) }
    {
        let place = self.row_place();
        if place == 0 {
            return Some(self.inode.single);
        }
        let root = self.root?;
        address_at(&root, place - 1)
    }

    // The row that the next block is in, behind those of the inode, or the double root above it.
    fn row_way(&self) -> Option<Way>
        ensures { (content : Content) → Follows content self.now → IfSome result
            (λ way. way.sector ≡ goal_address content self.now way.goal) }
    {
        match self.known_row() {
            Some(sector) => Some(Way {
                goal: Goal::Row,
                sector,
            }),
            None if self.root.is_some() => None,
            None => Some(Way {
                goal: Goal::Root,
                sector: self.inode.double,
            }),
        }
    }

    // None behind the last block.
    fn way(&self) -> Option<Way>
        ensures { (content : Content) → Follows content self.now → IfSome result
            (λ way. way.sector ≡ goal_address content self.now way.goal) }
    {
        if self.next >= self.count {
            return None;
        }
        match self.known() {
            Some(sector) => Some(Way {
                goal: Goal::Block,
                sector,
            }),
            None => self.row_way(),
        }
    }

    // Goes on behind so many blocks, which can't be read for this sector.
    fn pass(&mut self, count: u32, sector: u32) -> Gap
        ensures first { result.first ≡ self.old.next }
        ensures kept { KeepsAddresses self.old self.new }
    {
        let first = self.next;
        let count = count.min(self.count.saturating_sub(first));
        self.next = first.saturating_add(count);
        Gap {
            first,
            count,
            sector,
        }
    }

    // Takes in what was read.
    fn take(&mut self, way: Way, bytes: &[u8; 512]) -> Piece
        ensures bytes { IsOf way.sector bytes.now result }
        ensures address { (content : Content) → way.sector ≡ goal_address content self.old way.goal
            → IsAddressed content self.old.inode result }
        ensures follows { (content : Content) → way.sector ≡ goal_address content self.old way.goal
            → block content way.sector ≡ bytes.now → Follows content self.old
            → Follows content self.new }
        ensures inode { self.new.inode ≡ self.old.inode }
    {
        let addresses = PointerView::new(bytes).to_array();
        match way.goal {
            Goal::Block => {
                let block = self.pass(1, way.sector).first;
                if !ends_within(&self.inode, block, bytes) {
                    self.tail = Some(way.sector);
                }
                return Piece::Block(block, way.sector, *bytes);
            }
            Goal::Row => {
                let place = self.row_place();
                self.row = Some(Row { place, addresses });
            }
            Goal::Root => self.root = Some(addresses),
        }
        Piece::Nothing
    }

    // A sector that is stored past the end, as far as the addresses are at hand.
    fn stored_past_end(&self) -> Option<u32> {
        if let Some(sector) = stored_from(&self.inode.direct, self.count) {
            return Some(sector);
        }
        if self.count <= DIRECT_BLOCKS && self.inode.single != 0 {
            return Some(self.inode.single);
        }
        if self.count <= FIRST_DOUBLE && self.inode.double != 0 {
            return Some(self.inode.double);
        }
        if let Some(sector) = self.stored_past_row() {
            return Some(sector);
        }
        self.stored_past_root()
    }

    // The same of the row that was read last.
    fn stored_past_row(&self) -> Option<u32> {
        let row = self.row?;
        stored_from(&row.addresses, self.count.saturating_sub(row.first()))
    }

    // The same of the leaves in the double root.
    fn stored_past_root(&self) -> Option<u32> {
        let root = self.root?;
        let blocks = self.count.saturating_sub(FIRST_DOUBLE);
        stored_from(&root, blocks.div_ceil(BLOCK_POINTERS))
    }

    // The sector that has bytes past the end, or leads there. It is told once.
    fn rest(&mut self) -> Option<u32>
        ensures { KeepsAddresses self.old self.new }
    {
        if self.is_done {
            return None;
        }
        self.is_done = true;
        match self.tail {
            Some(sector) => Some(sector),
            None => self.stored_past_end(),
        }
    }

    /// Goes on by a block, a row of addresses, or a row of blocks that aren't there; and behind the
    /// last block by what stands past the end. None behind that.
    pub fn step<D: SectorDevice>(
        &mut self,
        device: &mut D,
        readings: &mut Readings,
    ) -> Option<Piece>
        ensures block { FindsBlock (D.state device.old) (D.state device.new) result }
        ensures address { Follows (D.state device.old).content self.old
            → IfSome result (IsAddressed (D.state device.old).content self.old.inode) }
        ensures follows { (D.state device.new).keeps_model
            → Follows (D.state device.old).content self.old
            → Follows (D.state device.new).content self.new }
        ensures inode { self.new.inode ≡ self.old.inode }
        ensures carries { Carries (D.state device.old) (D.state device.new) }
        ensures told { TellsNothing (D.state device.old) (D.state device.new) }
    {
        let Some(way) = self.way() else {
            let sector = self.rest()?;
            return Some(Piece::Flaw(Flaw::PastEnd(sector)));
        };
        if way.sector == 0 {
            self.pass(way.goal.blocks(), 0);
            return Some(Piece::Nothing);
        }
        match readings.read(device, way.sector) {
            Some(bytes) if !is_zero(&bytes) => Some(self.take(way, &bytes)),
            _ => {
                let gap = self.pass(way.goal.blocks(), way.sector);
                Some(Piece::Flaw(Flaw::Gap(gap)))
            }
        }
    }
}

/// The log of a volume has each block of an object where the object's inode has it.
pub fn addresses_agree()
    ensures { AddressesAgree }
{}
