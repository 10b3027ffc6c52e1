ghost use Rattle.std.specs.Prelude.{◌≡◌, ℕ, get_or};

use crate::helpers::{Row, Words, all_well, lose, name, put, put_blocks};
use lfs_cache::CachedDevice;
use lfs_device::{DeviceCall, DeviceFault, MemDevice, NoMemory, SectorDevice};
use lfs_layout::{BlockName, encode_summary, is_summary};
use lfs_model::BlockKind;
use lfs_verify::WalkFault;
use lfs_verify::blocks::stage_data;
use lfs_verify::clean::stage_clean;
use lfs_verify::counts::stage_counts;
use lfs_verify::labels::stage_labels;
use lfs_verify::rows::stage_rows;
use lfs_verify::walk::walk_pointers;
use std::alloc::Global;

/// Where file 5 has its blocks.
#[derive(Clone, Copy)]
struct Tree {
    size: u32,
    /// The addresses of its single leaf, of its double root, and of a leaf below that.
    pointers: [u32; 3],
    /// The addresses of its blocks 0, 239 and 624.
    data: [u32; 3],
}

/// A file whose blocks 0, 239 and 624 are its last ones.
const WHOLE: Tree = Tree {
    size: 319_489,
    pointers: [11, 12, 13],
    data: [20, 21, 22],
};

/// A file with its last two blocks alone, of which the inode says nothing.
const BARE: Tree = Tree {
    size: 0,
    pointers: [11, 12, 13],
    data: [0, 20, 21],
};

/// What is seen of a volume of two segments.
#[derive(Clone, Copy)]
enum Step {
    /// What the walk over the pointers gives, and the marks of sectors 11, 12 and 13.
    Walks(Result<(), WalkFault>, [u32; 3]),
    /// A read fails, and so does the walk.
    FailsToWalk,
    /// Whether the stage of data holds, and the marks of sectors 20, 21 and 22.
    Takes(bool, [u32; 3]),
    /// A read fails, and so does the stage of data.
    FailsToTake,
    /// Of so many sectors that the first segment uses, and the second: whether the chunks fill
    /// them; nothing where a read failed.
    Rows([u16; 2], Option<bool>),
    /// Of the same, and a sector whose mark is another: whether the marks are as the summaries say.
    Labels([u16; 2], Option<(usize, u32)>, Option<bool>),
}

type Cached = CachedDevice<MemDevice>;

/// What a device holds, and what is wrong with it.
#[derive(Clone, Copy)]
enum Held {
    /// The file, with its inode in sector 10. Sector 15 is lost.
    File(Tree),
    /// The chunks. Sector 6 may be lost.
    Chunks { lost: bool },
}

/// A device of two segments that holds this, behind a cache. One read fails, before which so many
/// come.
fn volume(alloc: Global, held: Held, read: u64) -> Result<Cached, NoMemory> {
    let mut device = MemDevice::new(alloc, 130)?;
    let put = match held {
        Held::File(tree) => put_tree(&mut device, tree) && lose(&mut device, 15),
        Held::Chunks { lost: false } => put_chunks(&mut device),
        Held::Chunks { lost: true } => put_chunks(&mut device) && lose(&mut device, 6),
    };
    if !put {
        return Err(NoMemory);
    }
    device.fail(DeviceCall::Read, read);
    match CachedDevice::new(alloc, device, 1) {
        Ok(device) => Ok(device),
        Err(refused) => Err(refused.0),
    }
}

/// The chunks, with no sector lost.
const CHUNKS: Held = Held::Chunks { lost: false };

/// No read fails.
const NONE: u64 = u64::MAX;

/// Puts file 5 with its inode in sector 10, blocks of addresses in 11, 12 and 13, and data in 20,
/// 21 and 22. Sector 14 stays zero, and 23 has bytes past its first one.
fn put_tree(device: &mut MemDevice, tree: Tree) -> bool {
    let [single, double, leaf] = tree.pointers;
    let [first, middle, last] = tree.data;
    let inode = [
        (0, 1),
        (1, 5),
        (3, tree.size),
        (8, first),
        (120, single),
        (121, double),
    ];
    let blocks: [(u32, Words<'_>); 8] = [
        (10, &inode),
        (11, &[(127, middle)]),
        (12, &[(3, leaf)]),
        (13, &[(0, last)]),
        (20, &[(0, 7)]),
        (21, &[(0, 7)]),
        (22, &[(0, 7)]),
        (23, &[(0, 0x0107)]),
    ];
    put_blocks(device, &blocks)
}

/// The table of inode addresses where file 5 alone is there.
fn map_of(address: u32) -> [u32; 4096] {
    let mut map = [0; 4096];
    map[5] = address;
    map
}

/// The inode in sector 10; None where the read fails.
fn inode_of(device: &mut Cached) -> Option<[u8; 512]> {
    let mut inode = [0; 512];
    if device.sectors() < 130 {
        return None;
    }
    match device.read(10, &mut inode) {
        Ok(()) => Some(inode),
        Err(_) => None,
    }
}

/// What the walk over the pointers gives, and the marks of sectors 11, 12 and 13.
fn walk(device: &mut Cached) -> (Result<(), WalkFault>, [u32; 3]) {
    let map = map_of(10);
    let mut marks = [0; 130];
    let Some(inode) = inode_of(device) else {
        return (Err(WalkFault::Device), [0; 3]);
    };
    if device.sectors() < 130 {
        return (Err(WalkFault::Device), [0; 3]);
    }
    let mut upper = [0; 512];
    let mut sector = [0; 512];
    let end = walk_pointers(device, &map, &[inode], &mut marks, &mut upper, &mut sector);
    (end, [marks[11], marks[12], marks[13]])
}

/// What the stage of data gives, and the marks of sectors 20, 21 and 22.
fn take(device: &mut Cached) -> (Result<bool, DeviceFault>, [u32; 3]) {
    let map = map_of(10);
    let mut marks = [0; 130];
    let Some(inode) = inode_of(device) else {
        return (Err(DeviceFault), [0; 3]);
    };
    if device.sectors() < 130 {
        return (Err(DeviceFault), [0; 3]);
    }
    let mut upper = [0; 512];
    let mut words = [0; 512];
    let mut sector = [0; 512];
    let end = stage_data(
        device,
        &map,
        &[inode],
        &mut marks,
        &mut upper,
        &mut words,
        &mut sector,
    );
    (end, [marks[20], marks[21], marks[22]])
}

/// Puts a summary: whether that succeeds.
fn put_summary(device: &mut MemDevice, sector: u32, names: &[BlockName]) -> bool {
    is_summary(names) && put(device, sector, &encode_summary(names))
}

/// Puts a chunk of three blocks from sector 2 on and one of two blocks from sector 6 on, both of
/// the first segment.
fn put_chunks(device: &mut MemDevice) -> bool {
    let first = [
        name(5, BlockKind::Data, 3),
        name(5, BlockKind::Leaf, 1),
        name(5, BlockKind::Inode, 0),
    ];
    let second = [name(0, BlockKind::Map, 0), name(0, BlockKind::Usage, 0)];
    put_summary(device, 2, &first) && put_summary(device, 6, &second)
}

/// Marks of 130 sectors, none of which has one.
fn no_labels() -> [u32; 130]
    ensures { (i : ℕ) → get_or result i 0 ≡ 0 }
{
    [0; 130]
}

fn rows(device: &mut Cached, used: [u16; 2]) -> Option<bool> {
    let mut labels = no_labels();
    let mut sector = [0; 512];
    if device.sectors() < 130 {
        return None;
    }
    stage_rows(device, &used, &mut labels, &mut sector).ok()
}

fn labels(device: &mut Cached, used: [u16; 2], change: Option<(usize, u32)>) -> Option<bool> {
    let mut marks = [0; 130];
    marks[3] = 619_748;
    marks[4] = 12_977;
    marks[5] = 54;
    marks[7] = 17;
    marks[8] = 1;
    if let Some((at, mark)) = change {
        marks[at % 130] = mark;
    }
    let mut labels = no_labels();
    let mut sector = [0; 512];
    if device.sectors() < 130 {
        return None;
    }
    match stage_rows(device, &used, &mut labels, &mut sector) {
        Ok(true) => Some(stage_labels(&labels, &marks)),
        Ok(false) => None,
        Err(_) => None,
    }
}

impl Row<Cached> for Step {
    fn is_well(self, device: &mut Cached) -> bool {
        match self {
            Step::Walks(end, marks) => walk(device) == (end, marks),
            Step::FailsToWalk => walk(device).0 == Err(WalkFault::Device),
            Step::Takes(holds, marks) => take(device) == (Ok(holds), marks),
            Step::FailsToTake => take(device).0 == Err(DeviceFault),
            Step::Rows(used, holds) => rows(device, used) == holds,
            Step::Labels(used, change, holds) => labels(device, used, change) == holds,
        }
    }
}

#[test]
fn pointers_of_one_file(rt: HostRuntime) {
    let root = Err(WalkFault::Damaged(5));
    let leaf = Err(WalkFault::Damaged(6));
    let rows = [
        ([11, 12, 13], Ok(()), [4_155, 4_156, 12_980]),
        ([0, 12, 11], Ok(()), [12_980, 4_156, 0]),
        ([11, 0, 13], Ok(()), [4_155, 0, 0]),
        ([1, 12, 13], root, [0, 0, 0]),
        ([130, 12, 13], root, [0, 0, 0]),
        ([11, 11, 13], root, [4_155, 0, 0]),
        ([11, 14, 13], root, [4_155, 0, 0]),
        ([11, 15, 13], root, [4_155, 0, 0]),
        ([11, 12, 11], leaf, [4_155, 4_156, 0]),
        ([11, 12, 14], leaf, [4_155, 4_156, 0]),
        ([11, 12, 15], leaf, [4_155, 4_156, 0]),
    ];
    for (pointers, end, marks) in rows {
        let held = Held::File(Tree { pointers, ..BARE });
        let steps = [Step::Walks(end, marks)];
        all_well(&rt, volume(rt.alloc(), held, NONE), &steps);
    }
}

#[test]
fn data_of_one_file(rt: HostRuntime) {
    let all = [619_745, 619_984, 620_369];
    let two = [619_745, 619_984, 0];
    let one = [619_745, 0, 0];
    let none = [0, 0, 0];
    let rows = [
        (319_489, [20, 21, 22], true, all),
        (319_489, [0, 21, 22], true, [0, 619_984, 620_369]),
        (319_489, [22, 21, 20], true, [620_369, 619_984, 619_745]),
        (319_489, [1, 21, 22], false, none),
        (319_489, [130, 21, 22], false, none),
        (319_489, [14, 21, 22], false, none),
        (319_489, [15, 21, 22], false, none),
        (319_489, [20, 20, 22], false, one),
        (319_489, [20, 21, 21], false, two),
        (319_489, [20, 21, 23], false, two),
        (319_490, [20, 21, 23], true, two),
        (319_488, [20, 21, 22], false, all),
    ];
    for (size, data, holds, marks) in rows {
        let held = Held::File(Tree {
            size,
            data,
            ..WHOLE
        });
        let steps = [Step::Takes(holds, marks)];
        all_well(&rt, volume(rt.alloc(), held, NONE), &steps);
    }
}

#[test]
fn leaves_of_one_file(rt: HostRuntime) {
    let two = [619_745, 619_984, 0];
    let one = [619_745, 0, 0];
    let rows = [
        ([0, 12, 13], true, [619_745, 0, 620_369]),
        ([11, 0, 13], true, two),
        ([0, 0, 13], true, one),
        ([130, 12, 13], false, one),
        ([15, 12, 13], false, one),
        ([11, 130, 13], false, two),
        ([11, 15, 13], false, two),
    ];
    for (pointers, holds, marks) in rows {
        let held = Held::File(Tree { pointers, ..WHOLE });
        let steps = [Step::Takes(holds, marks)];
        all_well(&rt, volume(rt.alloc(), held, NONE), &steps);
    }
}

#[test]
fn reads_that_fail(rt: HostRuntime) {
    for read in 0..5 {
        let volume = volume(rt.alloc(), Held::File(BARE), read);
        all_well(&rt, volume, &[Step::FailsToWalk]);
    }
    for read in 0..7 {
        let volume = volume(rt.alloc(), Held::File(WHOLE), read);
        all_well(&rt, volume, &[Step::FailsToTake]);
    }
}

#[test]
fn chunks_of_a_segment(rt: HostRuntime) {
    let steps = [
        Step::Rows([7, 0], Some(true)),
        Step::Rows([4, 0], Some(true)),
        Step::Rows([0, 0], Some(true)),
        Step::Rows([6, 0], Some(false)),
        Step::Rows([5, 0], Some(false)),
        Step::Rows([3, 0], Some(false)),
        Step::Rows([1, 0], Some(false)),
        Step::Rows([8, 0], Some(false)),
        Step::Rows([64, 0], Some(false)),
        Step::Rows([65, 0], Some(false)),
        Step::Rows([7, 1], Some(false)),
    ];
    all_well(&rt, volume(rt.alloc(), CHUNKS, NONE), &steps);
    let short = [
        Step::Rows([4, 0], Some(true)),
        Step::Rows([7, 0], Some(false)),
    ];
    let lost = Held::Chunks { lost: true };
    all_well(&rt, volume(rt.alloc(), lost, NONE), &short);
    let fails = [Step::Rows([7, 0], None)];
    all_well(&rt, volume(rt.alloc(), CHUNKS, 0), &fails);
}

#[test]
fn labels_of_a_segment(rt: HostRuntime) {
    let steps = [
        Step::Labels([7, 0], None, Some(true)),
        // A block may have no mark, but not another one.
        Step::Labels([7, 0], Some((3, 0)), Some(true)),
        Step::Labels([7, 0], Some((3, 12_978)), Some(false)),
        Step::Labels([7, 0], Some((4, 0)), Some(true)),
        Step::Labels([7, 0], Some((4, 12_978)), Some(false)),
        Step::Labels([7, 0], Some((5, 0)), Some(true)),
        Step::Labels([7, 0], Some((5, 12_978)), Some(false)),
        Step::Labels([7, 0], Some((7, 0)), Some(true)),
        Step::Labels([7, 0], Some((7, 12_978)), Some(false)),
        Step::Labels([7, 0], Some((8, 0)), Some(true)),
        Step::Labels([7, 0], Some((8, 12_978)), Some(false)),
        // A sector that no summary names has none.
        Step::Labels([7, 0], Some((2, 1)), Some(false)),
        Step::Labels([7, 0], Some((6, 1)), Some(false)),
        Step::Labels([7, 0], Some((9, 1)), Some(false)),
        Step::Labels([7, 0], Some((65, 1)), Some(false)),
        Step::Labels([7, 0], Some((66, 1)), Some(false)),
        Step::Labels([7, 0], Some((129, 1)), Some(false)),
        Step::Labels([4, 0], None, Some(false)),
    ];
    all_well(&rt, volume(rt.alloc(), CHUNKS, NONE), &steps);
    let fails = [Step::Labels([7, 0], None, None)];
    all_well(&rt, volume(rt.alloc(), CHUNKS, 1), &fails);
}

#[test]
fn counts_of_segments(rt: HostRuntime) {
    let mut marks = [0; 130];
    marks[2] = 1;
    marks[65] = 7;
    marks[66] = 9;
    for (live, same) in [
        ([2, 1], true),
        ([2, 0], false),
        ([1, 1], false),
        ([3, 1], false),
    ] {
        assert!(rt; stage_counts(&live, &marks) == same);
    }
    let rows: [(&[u16], bool); 4] = [
        (&[1, 0, 2, 3, 64, 5, 6, 7], true),
        (&[1, 0, 2, 3, 64, 5, 6, 7, 8], false),
        (&[1], false),
        (&[], true),
    ];
    for (used, enough) in rows {
        assert!(rt; stage_clean(used) == enough);
    }
}
