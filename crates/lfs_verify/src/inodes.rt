//! The inodes of all files, which a walk looks at once and keeps.
ghost use Rattle.std.specs.Prelude.{◌≡◌, ◌<◌, ◌≤◌, ◌+◌, ◌⊎◌, ◌++◌, ◌∷◌, [], nat_lt, length, get_or, IsTrue, IfOk, MatchOption, vec_len, vec_capacity};
ghost use Rattle.lfs_model.specs.Content.{block};
ghost use Rattle.lfs_model.specs.Entry.{IsInode};
ghost use Rattle.lfs_model.specs.Objects.{one_if};
ghost use Rattle.lfs_verify.specs.Keeping.{OfContent, Steps};
ghost use Rattle.lfs_verify.specs.Kept.{there_below};
ghost use Rattle.lfs_verify.specs.Take.{TakesAddress};

use crate::order::FIRST_INODE;
use crate::reading::take_block;
use crate::totals::count_above;
use crate::values::is_inode;
use lfs_cache::CachedDevice;
use lfs_device::{DeviceFault, SectorDevice};
use lfs_model::limits::FILE_NUMBERS;
use std::alloc::{AllocError, Global};

/// Memory for the inodes of all files, by the table of their addresses.
///
/// # Errors
///
/// Where memory runs out.
pub fn room_for_inodes(alloc: Global, map: &[u32]) -> Result<Vec<[u8; 512]>, AllocError>
    requires files { length map.now ≡ FILE_NUMBERS }
    ensures none { IfOk result (λ inodes. vec_len inodes ≡ 0) }
    ensures room { IfOk result (λ inodes. there_below map.now FILE_NUMBERS ≤ vec_capacity inodes) }
{
    let inodes = Vec::with_capacity(alloc, count_above(map, 0) as usize)?;
    Ok(inodes)
}

/// Keeps the inode at an address behind the others; none at the address 0.
pub fn keep_inode(inodes: &mut Vec<[u8; 512]>, address: u32, inode: &[u8; 512])
    requires room { 0 < address → vec_len inodes.old < vec_capacity inodes.old }
    ensures kept { 0 < address → inodes.new.items ≡ inodes.old.items ++ inode.now ∷ [] }
    ensures none { address ≡ 0 → inodes.new.items ≡ inodes.old.items }
    ensures room { vec_capacity inodes.old ≤ vec_capacity inodes.new }
{
    if address == 0 {
        return;
    }
    inodes.push(*inode).unwrap();
}

/// The inode at a place of those that were kept.
pub(crate) fn inode_at(inodes: &[[u8; 512]], place: usize) -> Option<&[u8; 512]>
    ensures { MatchOption result (length inodes.now ≤ place)
        (λ inode. inode.now ≡ get_or inodes.now place []) }
{
    if place >= inodes.len() {
        return None;
    }
    Some(&inodes[place])
}

/// How many inodes are at an address: none at 0, else one.
pub(crate) fn inodes_at(address: u32) -> usize
    ensures number { result ≡ one_if (nat_lt 0 address) }
    ensures few { result ≤ 1 }
{
    if address == 0 {
        return 0;
    }
    1
}

/// Takes the inode at an address in a volume of this version, where there is one.
///
/// # Errors
///
/// The fault where a call of the device failed.
pub fn take_inode<D: SectorDevice>(
    device: &mut CachedDevice<D>,
    version: u32,
    marks: &mut [u32],
    address: u32,
    file: u32,
    out: &mut [u8; 512],
) -> Result<bool, DeviceFault>
    requires file { file < FILE_NUMBERS }
    requires inside { length marks.old ≤ (D.state device.old).size }
    ensures takes { IfOk result (λ r. OfContent (D.state device.old) (D.state device.new) (λ c.
        TakesAddress (IsInode version file) c marks.old marks.new address (FIRST_INODE + file) r)) }
    ensures at { IfOk result (λ r. IsTrue r → address ≡ 0 ⊎ (address < length marks.old)) }
    ensures read { IfOk result (λ r. IsTrue r → 0 < address
        → OfContent (D.state device.old) (D.state device.new) (λ c. block c address ≡ out.new)) }
    ensures keeps { Steps (D.state device.old) (D.state device.new) marks.old marks.new result }
{
    if address == 0 {
        return Ok(true);
    }
    if address as usize >= marks.len() {
        return Ok(false);
    }
    if !take_block(device, address, FIRST_INODE + file, marks, out)? {
        return Ok(false);
    }
    Ok(is_inode(out, version, file))
}
