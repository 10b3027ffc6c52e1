use crate::helpers::{Row, Words, all_well, block, put_blocks, put_dirty, put_word};
use lfs_cache::{CachedDevice, DEFAULT_SECTORS};
use lfs_device::{DeviceCall, MemDevice, NoMemory, ReadFault};
use lfs_layout::{BlockName, PointerView};
use lfs_memory::inodes::{
    BlockKey, DirtyTable, IN_MEMORY, InodeMap, locate, locate_present, owner_points,
};
use lfs_model::BlockKind;
use rand_core::Rng;
use rand_pcg::Pcg32;
use std::alloc::{AllocError, Global};

/// One of eleven keys, the lowest first, of file 1 or of the last file.
fn nth_key(n: u32, last: bool) -> BlockKey {
    let file = if last { 4_095 } else { 1 };
    match n % 11 {
        0 => BlockKey::data(file, 0),
        1 => BlockKey::data(file, 111),
        2 => BlockKey::data(file, 112),
        3 => BlockKey::data(file, 239),
        4 => BlockKey::data(file, 240),
        5 => BlockKey::data(file, 16_623),
        6 => BlockKey::leaf(file, 0),
        7 => BlockKey::leaf(file, 1),
        8 => BlockKey::leaf(file, 128),
        9 => BlockKey::double(file),
        _ => BlockKey::inode(file),
    }
}

/// One of the eleven keys: its kind and index, the key of its parent, and the place of the pointer
/// to it there.
#[derive(Clone, Copy)]
struct Child(u32, BlockKind, u32, u32, usize);

impl Child {
    fn is_in_file(self, last: bool) -> bool {
        let Child(n, kind, index, parent, pointer) = self;
        let key = nth_key(n, last);
        let file = if last { 4_095 } else { 1 };
        key.name() == BlockName { file, kind, index }
            && key.parent() == Some(nth_key(parent, last))
            && key.pointer() == pointer
    }
}

#[test]
fn keys_and_their_parents(rt: HostRuntime) {
    let children = [
        Child(0, BlockKind::Data, 0, 10, 8),
        Child(1, BlockKind::Data, 111, 10, 119),
        Child(2, BlockKind::Data, 112, 6, 0),
        Child(3, BlockKind::Data, 239, 6, 127),
        Child(4, BlockKind::Data, 240, 7, 0),
        Child(5, BlockKind::Data, 16_623, 8, 127),
        Child(6, BlockKind::Leaf, 0, 10, 120),
        Child(7, BlockKind::Leaf, 1, 9, 0),
        Child(8, BlockKind::Leaf, 128, 9, 127),
        Child(9, BlockKind::Double, 0, 10, 121),
    ];
    for child in children {
        assert!(rt; child.is_in_file(false) && child.is_in_file(true));
    }
    assert!(rt; BlockKey::inode(7).parent() == None);
}

/// The blocks of a table, in no order.
type Plain = Vec<(BlockKey, [u8; 512])>;

fn plain_put(plain: &mut Plain, key: BlockKey, bytes: &[u8; 512]) -> Result<(), AllocError> {
    for row in plain.iter_mut() {
        if row.0 == key {
            row.1 = *bytes;
            return Ok(());
        }
    }
    plain.push((key, *bytes))?;
    Ok(())
}

fn plain_patch(plain: &mut Plain, key: BlockKey, place: usize, number: u32) {
    for row in plain.iter_mut() {
        if row.0 == key {
            put_word(&mut row.1, place, number);
        }
    }
}

fn plain_block(plain: &Plain, key: BlockKey) -> Option<&[u8; 512]> {
    for row in plain {
        if row.0 == key {
            return Some(&row.1);
        }
    }
    None
}

fn is_alike(table: &DirtyTable, plain: &Plain) -> bool {
    if table.len() != plain.len() {
        return false;
    }
    if table.next() != plain.iter().map(|row| row.0).min() {
        return false;
    }
    for n in 0..22u32 {
        let key = nth_key(n, n < 11);
        if table.block(key) != plain_block(plain, key) {
            return false;
        }
    }
    true
}

/// The lowest block leaves for an address, if there is one.
fn move_out(table: &mut DirtyTable, plain: &mut Plain, address: u32) {
    let Some(key) = table.next() else {
        return;
    };
    table.moved(key, address);
    if let Some(parent) = key.parent() {
        plain_patch(plain, parent, key.pointer(), address);
    }
    plain.retain(|row| row.0 != key);
}

/// A change that a number chooses, in both.
fn change(table: &mut DirtyTable, plain: &mut Plain, draw: u32) -> Result<(), AllocError> {
    let key = nth_key(draw / 256, draw > 0x8000_0000);
    let number = draw / 65_536;
    match draw / 32 % 8 {
        0..4 => {
            let bytes = block(&[(0, number), (127, draw)]);
            if table.block(key).is_some() || table.len() < table.capacity() {
                table.put(key, &bytes);
                plain_put(plain, key, &bytes)?;
            }
        }
        4 => {
            let place = number as usize % 128;
            table.patch(key, place, draw);
            plain_patch(plain, key, place, draw);
        }
        5 => {
            let bytes = block(&[(1, draw)]);
            if table.block(key).is_some() || table.len() < table.capacity() {
                table.fetch(key, &bytes);
                if let Some(parent) = key.parent() {
                    plain_patch(plain, parent, key.pointer(), IN_MEMORY);
                }
                plain_put(plain, key, &bytes)?;
            }
        }
        6 => move_out(table, plain, number),
        _ => {
            table.remove(key);
            plain.retain(|row| row.0 != key);
        }
    }
    Ok(())
}

fn new_tables(alloc: Global) -> Result<(DirtyTable, Plain), AllocError> {
    Ok((DirtyTable::new(alloc, 10, 10)?, Vec::new(alloc)))
}

/// The number that random changes begin with.
#[derive(Clone, Copy)]
struct Seed(u32);

impl Row<(DirtyTable, Plain)> for Seed {
    /// Whether the table and a plain list are alike after each of 400 changes, and as both are
    /// cleared.
    fn is_well(self, (table, plain): &mut (DirtyTable, Plain)) -> bool {
        let mut generator = Pcg32::new(u64::from(self.0), 1);
        for _ in 0..400 {
            let draw = generator.next_u32();
            if change(table, plain, draw).is_err() || !is_alike(table, plain) {
                return false;
            }
        }
        table.clear();
        plain.clear();
        is_alike(table, plain)
    }
}

#[test]
fn a_table_and_a_plain_list(rt: HostRuntime) {
    for seed in 0..4 {
        all_well(&rt, new_tables(rt.alloc()), &[Seed(seed)]);
    }
}

/// The block of these numbers, where there are any.
fn block_of(words: Option<Words<'_>>) -> Option<[u8; 512]> {
    match words {
        Some(words) => Some(block(words)),
        None => None,
    }
}

/// A block before any of its numbers is cleared.
const FULL: Words<'static> = &[(1, 7), (2, 8), (3, 9)];

/// What is done with a table of blocks, and what is seen. A key is the nth of eleven.
#[derive(Clone, Copy)]
enum Step {
    /// A block of file 1 is put.
    Put(u32, Words<'static>),
    /// A full block of file 1 is put, and one of the last file.
    PutBoth(u32),
    /// How many blocks there are, and for how many there is room.
    Size(usize, usize),
    /// A block of file 1, if it is there.
    Holds(u32, Option<Words<'static>>),
    /// The same, while the block of the last file is full.
    HoldsBoth(u32, Option<Words<'static>>),
    /// The block of the lowest key, which is this one, leaves for an address.
    Move(u32, u32),
    /// The blocks of file 1 from this index on are forgotten.
    ForgetPast(u32),
    /// So many numbers of a block of file 1 are cleared, from a place on.
    Clear(u32, usize, usize),
}

impl Row<DirtyTable> for Step {
    fn is_well(self, table: &mut DirtyTable) -> bool {
        match self {
            Step::Put(n, words) => return put_dirty(table, nth_key(n, false), words),
            Step::PutBoth(n) => {
                return put_dirty(table, nth_key(n, false), FULL)
                    && put_dirty(table, nth_key(n, true), FULL);
            }
            Step::Size(len, capacity) => return (table.len(), table.capacity()) == (len, capacity),
            Step::Holds(n, words) => return holds(table, nth_key(n, false), words),
            Step::HoldsBoth(n, words) => {
                return holds(table, nth_key(n, false), words)
                    && holds(table, nth_key(n, true), Some(FULL));
            }
            Step::Move(n, address) => {
                let is_lowest = table.next() == Some(nth_key(n, false));
                table.moved(nth_key(n, false), address);
                return is_lowest;
            }
            Step::ForgetPast(first) => table.forget_past(1, first),
            Step::Clear(n, place, count) => {
                if place > 128 || count > 128 - place {
                    return false;
                }
                table.clear_words(nth_key(n, false), place, count);
            }
        }
        true
    }
}

fn holds(table: &DirtyTable, key: BlockKey, words: Option<Words<'_>>) -> bool {
    table.block(key) == block_of(words).as_ref()
}

#[test]
fn a_full_table(rt: HostRuntime) {
    let steps = [
        Step::Put(10, &[(1, 10)]),
        Step::Put(6, &[(1, 6)]),
        Step::Put(2, &[(1, 2)]),
        Step::Size(3, 3),
        Step::Holds(10, Some(&[(1, 10)])),
        Step::Holds(6, Some(&[(1, 6)])),
        Step::Holds(2, Some(&[(1, 2)])),
        // A block that leaves is known by its address in its parent.
        Step::Move(2, 70),
        Step::Holds(6, Some(&[(1, 6), (0, 70)])),
        Step::Move(6, 71),
        Step::Holds(10, Some(&[(1, 10), (120, 71)])),
        Step::Move(10, 72),
        Step::Holds(10, None),
        Step::Size(0, 3),
    ];
    all_well(&rt, DirtyTable::new(rt.alloc(), 3, 3), &steps);
}

#[test]
fn blocks_of_a_file_from_one_on(rt: HostRuntime) {
    let steps = [
        Step::PutBoth(0),
        Step::PutBoth(1),
        Step::PutBoth(2),
        Step::PutBoth(3),
        Step::PutBoth(4),
        Step::PutBoth(5),
        Step::PutBoth(6),
        Step::PutBoth(7),
        Step::PutBoth(8),
        Step::PutBoth(9),
        Step::PutBoth(10),
        Step::ForgetPast(240),
        Step::HoldsBoth(0, Some(FULL)),
        Step::HoldsBoth(1, Some(FULL)),
        Step::HoldsBoth(2, Some(FULL)),
        Step::HoldsBoth(3, Some(FULL)),
        Step::HoldsBoth(4, None),
        Step::HoldsBoth(5, None),
        Step::HoldsBoth(6, Some(FULL)),
        Step::HoldsBoth(7, None),
        Step::HoldsBoth(8, None),
        Step::HoldsBoth(9, None),
        Step::HoldsBoth(10, Some(FULL)),
        Step::Clear(6, 2, 126),
        Step::Holds(6, Some(&[(1, 7)])),
        Step::Clear(7, 0, 128),
        Step::Size(17, 22),
    ];
    all_well(&rt, DirtyTable::new(rt.alloc(), 22, 22), &steps);
}

type Cached = CachedDevice<MemDevice>;

/// No read fails.
const NONE: u64 = u64::MAX;

/// A way through an inode's pointers, and where it leads.
#[derive(Clone, Copy)]
enum Way {
    /// The address of a block on the device.
    To(u32, Result<u32, ReadFault>),
    /// The same where an inode, a leaf and a double root in memory come first.
    Through(u32, Result<u32, ReadFault>),
    /// Whether the inode points to the nth of eleven keys of file 1 at this address.
    Points(u32, u32, Result<bool, ReadFault>),
    /// An inode of zeros doesn't point to a block at address 0.
    PointsNowhere,
}

/// Puts a single leaf in sector 2 and a double root in sector 3, which has leaves in sectors 4 and
/// 5, and one past the device.
fn put_tree(device: &mut MemDevice) -> bool {
    let blocks: [(u32, Words<'_>); 4] = [
        (2, &[(0, 22), (127, 23)]),
        (3, &[(0, 4), (2, 6), (127, 5)]),
        (4, &[(0, 24), (127, 25)]),
        (5, &[(0, 26), (127, 27)]),
    ];
    put_blocks(device, &blocks)
}

/// A device with the tree of an inode, behind a cache, and a table with a leaf and the double root of
/// file 9. One read of the device fails, before which so many come.
fn volume(alloc: Global, read: u64) -> Result<(Cached, DirtyTable), NoMemory> {
    let mut device = MemDevice::new(alloc, 6)?;
    put_tree(&mut device);
    device.fail(DeviceCall::Read, read);
    let mut table = DirtyTable::new(alloc, 2, 2)?;
    let root = [(0, IN_MEMORY), (2, 6), (3, IN_MEMORY), (127, 5)];
    let leaf = [(0, 30), (127, IN_MEMORY)];
    put_dirty(&mut table, BlockKey::leaf(9, 1), &leaf);
    put_dirty(&mut table, BlockKey::double(9), &root);
    match CachedDevice::new(alloc, device, DEFAULT_SECTORS) {
        Ok(device) => Ok((device, table)),
        Err(refused) => Err(refused.0),
    }
}

impl Row<(Cached, DirtyTable)> for Way {
    fn is_well(self, (device, table): &mut (Cached, DirtyTable)) -> bool {
        let inode = block(&[(8, 20), (119, 21), (120, 2), (121, 3)]);
        match self {
            Way::To(index, want) => locate(device, &inode, index) == want,
            Way::Through(index, want) => {
                let inode = block(&[(8, 20), (119, IN_MEMORY), (120, 2), (121, IN_MEMORY)]);
                locate_present(device, table, 9, &inode, index % 16_624) == want
            }
            Way::Points(n, address, want) => {
                owner_points(device, &inode, nth_key(n, false), address) == want
            }
            Way::PointsNowhere => {
                owner_points(device, &[0; 512], nth_key(0, true), 0) == Ok(false)
            }
        }
    }
}

#[test]
fn the_way_to_a_block(rt: HostRuntime) {
    let rows = [
        Way::To(0, Ok(20)),
        Way::To(1, Ok(0)),
        Way::To(111, Ok(21)),
        Way::To(112, Ok(22)),
        Way::To(113, Ok(0)),
        Way::To(239, Ok(23)),
        Way::To(240, Ok(24)),
        Way::To(367, Ok(25)),
        Way::To(368, Ok(0)),
        Way::To(496, Err(ReadFault::Unreadable)),
        Way::To(16_496, Ok(26)),
        Way::To(16_623, Ok(27)),
        Way::To(16_624, Ok(0)),
        Way::To(u32::MAX, Ok(0)),
    ];
    all_well(&rt, volume(rt.alloc(), NONE), &rows);
    let first = [
        // A block that the inode points to is found with no read.
        Way::To(111, Ok(21)),
        Way::To(112, Err(ReadFault::Failed)),
        Way::To(112, Ok(22)),
    ];
    all_well(&rt, volume(rt.alloc(), 0), &first);
    let third = [
        // The double root and leaf 1, and then nothing more for blocks below that.
        Way::To(240, Ok(24)),
        Way::To(367, Ok(25)),
        Way::To(241, Ok(0)),
        // Of leaf 128 only itself.
        Way::To(16_496, Err(ReadFault::Failed)),
        Way::To(16_496, Ok(26)),
    ];
    all_well(&rt, volume(rt.alloc(), 2), &third);
}

#[test]
fn the_way_through_memory(rt: HostRuntime) {
    let rows = [
        Way::Through(0, Ok(20)),
        Way::Through(111, Ok(IN_MEMORY)),
        Way::Through(112, Ok(22)),
        Way::Through(239, Ok(23)),
        Way::Through(240, Ok(30)),
        Way::Through(367, Ok(IN_MEMORY)),
        Way::Through(368, Ok(0)),
        Way::Through(496, Err(ReadFault::Unreadable)),
        Way::Through(624, Ok(0)),
        Way::Through(16_623, Ok(27)),
    ];
    all_well(&rt, volume(rt.alloc(), NONE), &rows);
}

#[test]
fn what_an_inode_points_to(rt: HostRuntime) {
    let rows = [
        Way::Points(0, 20, Ok(true)),
        Way::Points(0, 21, Ok(false)),
        Way::Points(1, 21, Ok(true)),
        Way::Points(2, 22, Ok(true)),
        Way::Points(3, 23, Ok(true)),
        Way::Points(4, 24, Ok(true)),
        Way::Points(5, 27, Ok(true)),
        Way::Points(6, 2, Ok(true)),
        Way::Points(7, 4, Ok(true)),
        Way::Points(8, 5, Ok(true)),
        Way::Points(8, 4, Ok(false)),
        Way::Points(9, 3, Ok(true)),
        Way::Points(10, 2, Ok(false)),
        Way::Points(10, 0, Ok(false)),
        Way::PointsNowhere,
    ];
    all_well(&rt, volume(rt.alloc(), NONE), &rows);
}

/// What is done with a map of inodes, and what is seen.
#[derive(Clone, Copy)]
enum Entry {
    /// An inode is at this address from now on.
    Set(u16, u32),
    /// Every inode below the last is at address 1 from now on.
    SetAll,
    Hide(u16, bool),
    /// A block of the map is read.
    Load(usize, Words<'static>),
    IsAt(u16, u32),
    LeastFree(Option<u16>),
    /// What a block of the map is written as, if any of its inodes is there.
    Encodes(usize, Option<Words<'static>>),
}

impl Row<InodeMap> for Entry {
    fn is_well(self, map: &mut InodeMap) -> bool {
        match self {
            Entry::Set(number, address) => map.set_address(number % 4_096, address),
            Entry::SetAll => {
                for number in 1..4_095 {
                    map.set_address(number, 1);
                }
            }
            Entry::Hide(number, hidden) => map.set_hidden(number % 4_096, hidden),
            Entry::Load(index, words) => map.load(index % 32, &PointerView::new(&block(words))),
            Entry::IsAt(number, address) => return map.address(number % 4_096) == address,
            Entry::LeastFree(number) => return map.least_free() == number,
            Entry::Encodes(index, words) => {
                let mut bytes = [0; 512];
                let shows = map.encode(index % 32, &mut bytes);
                return match words {
                    Some(words) => shows && bytes == block(words),
                    None => !shows,
                };
            }
        }
        true
    }
}

#[test]
fn blocks_of_the_map(rt: HostRuntime) {
    let rows = [
        Entry::Encodes(31, None),
        Entry::Set(4_095, 77),
        Entry::Hide(4_095, true),
        Entry::Encodes(31, None),
        Entry::Set(3_968, 78),
        Entry::Encodes(31, Some(&[(0, 78)])),
        Entry::Hide(4_095, false),
        Entry::Encodes(31, Some(&[(0, 78), (127, 77)])),
        Entry::Encodes(30, None),
    ];
    all_well(&rt, InodeMap::new(rt.alloc()), &rows);
}

#[test]
fn the_least_number_that_is_free(rt: HostRuntime) {
    let rows = [
        Entry::LeastFree(Some(1)),
        Entry::Load(0, &[(1, 5), (2, 6), (4, 7)]),
        Entry::LeastFree(Some(3)),
        Entry::Load(1, &[(0, 9)]),
        Entry::IsAt(4, 7),
        Entry::IsAt(128, 9),
        Entry::SetAll,
        Entry::LeastFree(Some(4_095)),
        Entry::Set(4_095, 1),
        Entry::LeastFree(None),
    ];
    all_well(&rt, InodeMap::new(rt.alloc()), &rows);
}
