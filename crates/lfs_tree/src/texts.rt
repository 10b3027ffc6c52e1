//! Stage 11: no link's text has a zero byte.
ghost use Rattle.std.specs.Prelude.{◌≡◌, ◌≢◌, ◌<◌, ◌≤◌, ◌↔◌, ℕ, slice_index, Some, IfOk, OnErr, IsTrue};
ghost use Rattle.lfs_model.specs.Content.{block};
ghost use Rattle.lfs_model.specs.TreeOf.{AreTexts};
ghost use Rattle.lfs_tree.specs.Reading.{FailsToRead, OfHeaders, OfInode};
ghost use Rattle.lfs_tree.specs.Texts.{Decides, HasNoZero, IsGoodText};
ghost use Rattle.lfs_verify.specs.Keeping.{OnlyLooks};

use crate::headers::Headers;
use crate::reading::{read_block, read_inode};
use lfs_cache::CachedDevice;
use lfs_device::{DeviceFault, SectorDevice};
use lfs_files::Header;
use lfs_inodes::InodeMap;
use lfs_model::limits::{FILE_NUMBERS, SECTOR_LEN};
use lfs_model::{FileNumber, Kind};

/// The bytes of a block.
const BLOCK: u32 = SECTOR_LEN as u32;

/// Whether none of the first bytes of a block is zero.
fn is_nonzero(block: &[u8; 512], count: usize) -> bool
    requires { count ≤ SECTOR_LEN }
    ensures { IsTrue result ↔ ((i : ℕ) → i < count → slice_index block.now i ≢ 0) }
{
    for place in 0..count {
        if block[place] == 0 {
            return false;
        }
    }
    true
}

/// Whether no byte of the file of an inode is zero.
///
/// # Errors
///
/// The fault where a block can't be read.
fn check_bytes<D: SectorDevice>(
    device: &mut CachedDevice<D>,
    inode: &[u8; 512],
    size: u32,
) -> Result<bool, DeviceFault>
    ensures holds { IfOk result (λ holds. OfInode (D.state device.old) (D.state device.new)
        inode.now
        (λ m n. Decides (HasNoZero m n size) holds)) }
    ensures failed { OnErr result (OfInode (D.state device.old) (D.state device.new) inode.now
        (λ m n. FailsToRead (D.state device.old) (D.state device.new))) }
    ensures keeps { OnlyLooks (D.state device.old) (D.state device.new) result }
{
    let mut block = [0; 512];
    for index in 0..size.div_ceil(BLOCK) {
        read_block(device, inode, index, &mut block)?;
        let count = (size - BLOCK * index).min(BLOCK) as usize;
        if !is_nonzero(&block, count) {
            return Ok(false);
        }
    }
    Ok(true)
}

/// Whether it is the header of a link.
fn is_link(header: Header) -> bool
    ensures { IsTrue result ↔ header.kind ≡ Kind.Link }
{
    match header.kind {
        Kind::Link => true,
        Kind::File => false,
        Kind::Directory => false,
    }
}

/// Whether the text of the object at a number has no zero byte, if it is a link.
///
/// # Errors
///
/// The fault where a block can't be read.
fn check_object<D: SectorDevice>(
    device: &mut CachedDevice<D>,
    map: &InodeMap,
    headers: &Headers,
    number: FileNumber,
) -> Result<bool, DeviceFault>
    ensures holds { IfOk result (λ holds. OfHeaders (D.state device.old) (D.state device.new)
        map.now headers.now
        (λ k m. Decides (IsGoodText m number.value) holds)) }
    ensures failed { OnErr result (OfHeaders (D.state device.old) (D.state device.new)
        map.now headers.now
        (λ k m. FailsToRead (D.state device.old) (D.state device.new))) }
    ensures keeps { OnlyLooks (D.state device.old) (D.state device.new) result }
{
    let Some(header) = headers.get(number.value) else {
        return Ok(true);
    };
    if !is_link(header) {
        return Ok(true);
    }
    let mut inode = [0; 512];
    if !read_inode(device, map, number.value, &mut inode)? {
        return Err(DeviceFault);
    }
    check_bytes(device, &inode, header.size)
}

/// Whether no link's text has a zero byte: false where the stage fails.
///
/// # Errors
///
/// The fault where a block can't be read.
pub fn stage_texts<D: SectorDevice>(
    device: &mut CachedDevice<D>,
    map: &InodeMap,
    headers: &Headers,
) -> Result<bool, DeviceFault>
    ensures holds { IfOk result (λ holds. OfHeaders (D.state device.old) (D.state device.new)
        map.now headers.now
        (λ k m. Decides (AreTexts m) holds)) }
    ensures failed { OnErr result (OfHeaders (D.state device.old) (D.state device.new)
        map.now headers.now
        (λ k m. FailsToRead (D.state device.old) (D.state device.new))) }
    ensures keeps { OnlyLooks (D.state device.old) (D.state device.new) result }
{
    for number in 1..FILE_NUMBERS {
        let number = FileNumber { value: number };
        if !check_object(device, map, headers, number)? {
            return Ok(false);
        }
    }
    Ok(true)
}
