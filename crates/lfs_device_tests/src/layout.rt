use crate::helpers::name;
use lfs_layout::{
    BlockName, Checkpoint, Inode, InodeView, PointerView, SegmentUsage, SlotView, SummaryView,
    UsageView, encode_pointers, encode_slot, encode_summary, encode_usage, is_name, is_summary,
    is_zero, nth_slot,
};
use lfs_model::{BlockKind, Kind};

/// Bytes of an image: the sector, the place in it, and what stands there.
type Piece = (usize, usize, &'static [u8]);

/// What isn't zero in a new volume of 64 segments.
const NEW_VOLUME: [Piece; 12] = [
    (1, 0, &[0x53, 0x4c, 0x46, 0x53, 0x43, 0x4b, 0x50, 0x31]),
    (1, 8, &[0x01, 0, 0, 0, 0, 0, 0, 0]),
    (1, 16, &[0x40, 0, 0, 0, 0x01, 0, 0, 0]),
    (1, 32, &[0x04, 0, 0, 0]),
    (1, 160, &[0x05, 0, 0, 0]),
    (2, 0, &[0x03, 0]),
    (2, 8, &[0x01, 0, 0x04, 0, 0, 0, 0, 0]),
    (2, 16, &[0, 0, 0x05, 0, 0, 0, 0, 0]),
    (2, 24, &[0, 0, 0x06, 0, 0, 0, 0, 0]),
    (3, 0, &[0x02, 0, 0, 0, 0x01, 0, 0, 0, 0x02, 0, 0, 0]),
    (4, 4, &[0x03, 0, 0, 0]),
    (5, 0, &[0x04, 0, 0x03, 0, 0x01, 0, 0, 0]),
];

/// What changes in it once the root holds a file `f` of one byte.
const WITH_A_FILE: [Piece; 13] = [
    (2, 0, &[0x06]),
    (2, 32, &[0x01, 0, 0x01, 0, 0, 0, 0, 0]),
    (2, 40, &[0x02, 0, 0x04, 0, 0, 0, 0, 0]),
    (2, 48, &[0x02, 0, 0x01, 0, 0, 0, 0, 0]),
    (3, 12, &[0x40]),
    (3, 32, &[0x06]),
    (4, 8, &[0x07]),
    (5, 0, &[0x07, 0, 0x06, 0]),
    (6, 0, &[0x02, 0, 0, 0, 0x01, 0x66]),
    (7, 0, &[0x01, 0, 0, 0, 0x02, 0, 0, 0]),
    (7, 8, &[0x01, 0, 0, 0, 0x01, 0, 0, 0]),
    (7, 32, &[0x08]),
    (8, 0, &[0x61]),
];

/// What changes in it where it is of version 3. The last piece is the checksum of all before it.
const OF_VERSION_3: [Piece; 4] = [
    (1, 20, &[0x03]),
    (1, 24, &[0, 0x06, 0x09]),
    (1, 508, &[0x85, 0xdd, 0x5f, 0x39]),
    (3, 1, &[0x01]),
];

/// Puts the pieces of a sector into it.
fn change(bytes: &mut [u8; 512], sector: usize, pieces: &[Piece]) {
    for (in_sector, byte, new) in pieces {
        if *in_sector == sector && *byte <= 512 && new.len() <= 512 - *byte {
            bytes[*byte..*byte + new.len()].copy_from_slice(new);
        }
    }
}

/// A sector of a new volume with these changes.
fn sector(number: usize, changes: &[Piece]) -> [u8; 512] {
    let mut bytes = [0; 512];
    change(&mut bytes, number, &NEW_VOLUME);
    change(&mut bytes, number, changes);
    bytes
}

/// Numbers that are zero but for these few at the front.
fn front<const N: usize>(few: &[u32]) -> [u32; N] {
    let mut numbers = [0; N];
    for (number, new) in numbers.iter_mut().zip(few) {
        *number = *new;
    }
    numbers
}

fn spells_checkpoint(sector: &[u8; 512], checkpoint: &Checkpoint) -> bool {
    Checkpoint::decode(sector) == Some(*checkpoint)
        && checkpoint.is_fit()
        && checkpoint.encode() == *sector
}

fn spells_summary(sector: &[u8; 512], names: &[BlockName]) -> bool {
    let Some(summary) = SummaryView::decode(sector) else {
        return false;
    };
    if summary.len() != names.len() || !is_summary(names) {
        return false;
    }
    for (place, name) in names.iter().enumerate() {
        if summary.get(place) != *name {
            return false;
        }
    }
    encode_summary(names) == *sector
}

fn spells_inode(sector: &[u8; 512], inode: &Inode) -> bool {
    let Some(view) = InodeView::decode(sector) else {
        return false;
    };
    view.to_inode() == *inode && inode.is_fit() && inode.encode() == *sector
}

fn spells_pointers(sector: &[u8; 512], addresses: &[u32; 128]) -> bool {
    PointerView::new(sector).to_array() == *addresses && encode_pointers(addresses) == *sector
}

fn spells_usage(sector: &[u8; 512], first: SegmentUsage) -> bool {
    let mut entries = [SegmentUsage {
        used: 0,
        live: 0,
        age: 0,
    }; 64];
    entries[0] = first;
    let Some(usage) = UsageView::decode(sector, 64) else {
        return false;
    };
    for (i, entry) in entries.iter().enumerate() {
        if usage.get(i) != *entry {
            return false;
        }
    }
    encode_usage(&entries) == *sector
}

fn spells_slot(sector: &[u8; 512], number: u32, name: &[u8]) -> bool {
    let Some(slot) = SlotView::decode(0, nth_slot(sector, 0, 0)) else {
        return false;
    };
    if slot.number() != number || slot.name() != name || !is_name(0, name) {
        return false;
    }
    if SlotView::decode(0, nth_slot(sector, 0, 1)).is_some() {
        return false;
    }
    encode_slot(0, number, name).written() == nth_slot(sector, 0, 0)
}

/// The checkpoint of a new volume of 64 segments.
fn first_checkpoint() -> Checkpoint {
    Checkpoint {
        number: 1,
        segments: 64,
        version: 1,
        unit_power: 0,
        map: front(&[4]),
        usage: front(&[5]),
    }
}

/// The inode of a root with so many bytes, which stand at this address.
fn root(size: u32, address: u32) -> Inode {
    Inode {
        kind: Kind::Directory,
        form: 0,
        number: 1,
        links: 2,
        size,
        direct: front(&[address]),
        single: 0,
        double: 0,
    }
}

#[test]
fn sectors_of_a_new_volume(rt: HostRuntime) {
    let names = [
        name(1, BlockKind::Inode, 0),
        name(0, BlockKind::Map, 0),
        name(0, BlockKind::Usage, 0),
    ];
    let usage = SegmentUsage {
        used: 4,
        live: 3,
        age: 1,
    };
    let seen = [
        is_zero(&sector(0, &[])),
        Checkpoint::decode(&sector(0, &[])).is_none(),
        spells_checkpoint(&sector(1, &[]), &first_checkpoint()),
        spells_summary(&sector(2, &[]), &names),
        spells_inode(&sector(3, &[]), &root(0, 0)),
        spells_pointers(&sector(4, &[]), &front(&[0, 3])),
        spells_usage(&sector(5, &[]), usage),
    ];
    assert_eq!(rt; seen, [true; 7]);
}

/// How many of the bytes of this checkpoint may be others: each by one bit.
fn others_are_checkpoints(sector: &[u8; 512]) -> usize {
    let mut count = 0;
    for place in 0..512usize {
        let mut other = *sector;
        other[place] ^= 0x10;
        if Checkpoint::decode(&other).is_some() {
            count += 1;
        }
    }
    count
}

#[test]
fn sectors_of_version_3(rt: HostRuntime) {
    let changes = OF_VERSION_3.as_slice();
    let checkpoint = Checkpoint {
        version: 3,
        ..first_checkpoint()
    };
    let root = Inode {
        form: 1,
        ..root(0, 0)
    };
    let seen = [
        spells_checkpoint(&sector(1, changes), &checkpoint),
        spells_inode(&sector(3, changes), &root),
        others_are_checkpoints(&sector(1, changes)) == 0,
        // Of an older version the addresses may be any.
        others_are_checkpoints(&sector(1, &[])) > 4 * 48,
    ];
    assert_eq!(rt; seen, [true; 4]);
}

#[test]
fn sectors_with_a_file(rt: HostRuntime) {
    let names = [
        name(1, BlockKind::Inode, 0),
        name(0, BlockKind::Map, 0),
        name(0, BlockKind::Usage, 0),
        name(1, BlockKind::Data, 0),
        name(2, BlockKind::Inode, 0),
        name(2, BlockKind::Data, 0),
    ];
    let usage = SegmentUsage {
        used: 7,
        live: 6,
        age: 1,
    };
    let file = Inode {
        kind: Kind::File,
        form: 0,
        number: 2,
        links: 1,
        size: 1,
        direct: front(&[8]),
        single: 0,
        double: 0,
    };
    let changes = WITH_A_FILE.as_slice();
    let seen = [
        spells_checkpoint(&sector(1, changes), &first_checkpoint()),
        spells_summary(&sector(2, changes), &names),
        spells_inode(&sector(3, changes), &root(64, 6)),
        spells_pointers(&sector(4, changes), &front(&[0, 3, 7])),
        spells_usage(&sector(5, changes), usage),
        spells_slot(&sector(6, changes), 2, b"f"),
        spells_inode(&sector(7, changes), &file),
        !is_zero(&sector(8, changes)),
    ];
    assert_eq!(rt; seen, [true; 8]);
}

#[test]
fn zeros_at_each_place(rt: HostRuntime) {
    let mut sector = [0; 512];
    assert!(rt; is_zero(&sector));
    for i in 0..512 {
        sector[i] = 1;
        assert!(rt; !is_zero(&sector));
        sector[i] = 0;
    }
}
