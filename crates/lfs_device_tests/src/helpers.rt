use lfs_device::{DeviceFault, MemDevice, ReadFault, SectorDevice};
use lfs_layout::BlockName;
use lfs_memory::inodes::{BlockKey, DirtyTable};
use lfs_model::BlockKind;
use std::process::Abort;

/// A row of a table: what is done with a subject, and what is seen of it.
pub(crate) trait Row<S>: Copy + Drop {
    /// Whether the row goes as it says.
    fn is_well(self, subject: &mut S) -> bool;
}

/// The place of the first row that goes otherwise.
pub(crate) fn first_wrong<S, R: Row<S>>(subject: &mut S, rows: &[R]) -> Option<usize> {
    for (place, row) in rows.iter().enumerate() {
        if !row.is_well(subject) {
            return Some(place);
        }
    }
    None
}

/// Asserts that the rows of a table, one after the other, go as they say. A failure prints the
/// place of the first that doesn't.
pub(crate) fn all_well<S: Drop, E: Drop, R: Row<S>>(
    rt: &impl Abort,
    subject: Result<S, E>,
    rows: &[R],
) {
    match subject {
        Ok(mut subject) => assert_eq!(rt; first_wrong(&mut subject, rows), None),
        Err(_) => panic!(rt; "there is nothing that the rows could go over"),
    }
}

/// What a read gives of a sector whose content is lost.
pub(crate) const BAD: Result<u8, ReadFault> = Err(ReadFault::Unreadable);

/// Numbers at places of 4 bytes of a block, which is zero but for them.
pub(crate) type Words<'a> = &'a [(usize, u32)];

/// The block of these numbers.
pub(crate) fn block(words: Words<'_>) -> [u8; 512] {
    let mut block = [0; 512];
    for (place, number) in words {
        put_word(&mut block, *place, *number);
    }
    block
}

/// Puts a number at a place of 4 bytes, if the block has it.
pub(crate) fn put_word(block: &mut [u8; 512], place: usize, number: u32) {
    if place < 128 {
        block[4 * place..4 * place + 4].copy_from_slice(&number.to_le_bytes());
    }
}

/// Writes a sector, if the device has it: whether that succeeds.
pub(crate) fn put<D: SectorDevice>(device: &mut D, sector: u32, bytes: &[u8; 512]) -> bool {
    sector < device.sectors() && device.write(sector, bytes).is_ok()
}

/// Writes blocks to their sectors: whether that succeeds.
pub(crate) fn put_blocks<D: SectorDevice>(device: &mut D, blocks: &[(u32, Words<'_>)]) -> bool {
    for (sector, words) in blocks {
        if !put(device, *sector, &block(words)) {
            return false;
        }
    }
    true
}

/// Puts a block into a table, if there is room for it: whether there is.
pub(crate) fn put_dirty(table: &mut DirtyTable, key: BlockKey, words: Words<'_>) -> bool {
    if table.len() >= table.capacity() {
        return false;
    }
    table.put(key, &block(words));
    true
}

/// Makes a sector unreadable: whether the device has it.
pub(crate) fn lose(device: &mut MemDevice, sector: u32) -> bool {
    if sector >= device.sectors() {
        return false;
    }
    device.set_unreadable(sector);
    true
}

/// The byte that a sector is filled with.
///
/// # Errors
///
/// As those of a read. It fails too where the sector isn't there, or isn't filled with one byte.
pub(crate) fn filled<D: SectorDevice>(device: &mut D, sector: u32) -> Result<u8, ReadFault> {
    let mut out = [1; 512];
    if sector >= device.sectors() {
        return Err(ReadFault::Failed);
    }
    device.read(sector, &mut out)?;
    only_byte(&out)
}

/// The byte that these bytes all are.
///
/// # Errors
///
/// `Failed` where they aren't the same.
pub(crate) fn only_byte(bytes: &[u8; 512]) -> Result<u8, ReadFault> {
    if *bytes == [bytes[0]; 512] {
        Ok(bytes[0])
    } else {
        Err(ReadFault::Failed)
    }
}

/// The name of a block in a summary.
pub(crate) fn name(file: u16, kind: BlockKind, index: u32) -> BlockName {
    BlockName { file, kind, index }
}
