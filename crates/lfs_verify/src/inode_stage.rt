//! The inodes of all files, and the kind of the root.
ghost use Rattle.std.specs.Prelude.{◌≡◌, ◌<◌, ◌≤◌, ◌↔◌, ◌⊎◌, ℕ, length, get_or, IsTrue, IfOk, vec_len, vec_capacity};
ghost use Rattle.lfs_model.specs.Checkpoint.{layout_version};
ghost use Rattle.lfs_model.specs.Reach.{view};
ghost use Rattle.lfs_model.specs.Stands.{Inodes};
ghost use Rattle.lfs_verify.specs.Directories.{IsDirectoryInode};
ghost use Rattle.lfs_verify.specs.Keeping.{OfContent, OfWalk, Steps};
ghost use Rattle.lfs_verify.specs.Kept.{KeepsInodes, there_below};
ghost use Rattle.lfs_verify.specs.Take.{Advances, Lists};
ghost use Rattle.lfs_verify.specs.Walk.{Walked, IsBounded};

use crate::inodes::{keep_inode, take_inode};
use crate::order::{FILES, FIRST_INODE, FIRST_ROOT};
use crate::reading::fetch;
use lfs_cache::CachedDevice;
use lfs_device::{DeviceFault, SectorDevice};
use lfs_layout::InodeView;
use lfs_model::Kind;
use lfs_model::limits::FILE_NUMBERS;

/// Whether a block is the inode of a directory.
pub fn is_directory(block: &[u8; 512]) -> bool
    ensures { IsTrue result ↔ IsDirectoryInode block.now }
{
    let Some(inode) = InodeView::decode(block) else {
        return false;
    };
    match inode.kind() {
        Kind::Directory => true,
        Kind::File => false,
        Kind::Link => false,
    }
}

/// Takes the inodes of all files of a volume of this version, and keeps them.
///
/// # Errors
///
/// The fault where a call of the device failed.
pub fn all_inodes<D: SectorDevice>(
    device: &mut CachedDevice<D>,
    version: u32,
    map: &[u32],
    inodes: &mut Vec<[u8; 512]>,
    marks: &mut [u32],
    sector: &mut [u8; 512],
) -> Result<bool, DeviceFault>
    requires files { length map.now ≡ FILE_NUMBERS }
    requires none { vec_len inodes.old ≡ 0 }
    requires room { there_below map.now FILE_NUMBERS ≤ vec_capacity inodes.old }
    requires inside { length marks.old ≤ (D.state device.old).size }
    ensures goes { IfOk result (λ r. OfWalk (D.state device.old) (D.state device.new) (λ c k.
        layout_version k ≡ version → Lists (view c k) map.now
        → Advances (view c k) marks.old marks.new FIRST_INODE FIRST_ROOT (Inodes (view c k)) r)) }
    ensures at { IfOk result (λ r. IsTrue r → (i : ℕ) → i < FILE_NUMBERS
        → (get_or map.now i 0 ≡ 0) ⊎ (get_or map.now i 0 < length marks.old)) }
    ensures kept { IfOk result (λ r. IsTrue r
        → OfContent (D.state device.old) (D.state device.new) (λ c.
        KeepsInodes c map.now inodes.new.items)) }
    ensures keeps { Steps (D.state device.old) (D.state device.new) marks.old marks.new result }
{
    for file in 0..FILES {
        let address = map[file as usize];
        if !take_inode(device, version, marks, address, file, sector)? {
            return Ok(false);
        }
        keep_inode(inodes, address, sector);
    }
    Ok(true)
}

/// Stage 4: takes the inodes of all files of a volume of this version, where the root is a
/// directory, and keeps them. False where the stage fails.
///
/// # Errors
///
/// The fault where a call of the device failed.
pub fn stage_inodes<D: SectorDevice>(
    device: &mut CachedDevice<D>,
    version: u32,
    map: &[u32],
    inodes: &mut Vec<[u8; 512]>,
    marks: &mut [u32],
    sector: &mut [u8; 512],
) -> Result<bool, DeviceFault>
    requires files { length map.now ≡ FILE_NUMBERS }
    requires none { vec_len inodes.old ≡ 0 }
    requires room { there_below map.now FILE_NUMBERS ≤ vec_capacity inodes.old }
    requires inside { length marks.old ≤ (D.state device.old).size }
    ensures goes { IfOk result (λ r. OfWalk (D.state device.old) (D.state device.new) (λ c k.
        layout_version k ≡ version → Lists (view c k) map.now
        → Advances (view c k) marks.old marks.new FIRST_INODE FIRST_ROOT (Inodes (view c k)) r)) }
    ensures holds { IfOk result (λ r. IsTrue r
        → OfWalk (D.state device.old) (D.state device.new) (λ c k. layout_version k ≡ version
        → Lists (view c k) map.now → IsBounded (view c k) → Walked (view c k) marks.old FIRST_INODE
        → Inodes (view c k))) }
    ensures at { IfOk result (λ r. IsTrue r → (i : ℕ) → i < FILE_NUMBERS
        → get_or map.now i 0 < length marks.old) }
    ensures kept { IfOk result (λ r. IsTrue r
        → OfContent (D.state device.old) (D.state device.new) (λ c.
        KeepsInodes c map.now inodes.new.items)) }
    ensures keeps { Steps (D.state device.old) (D.state device.new) marks.old marks.new result }
{
    if !all_inodes(device, version, map, inodes, marks, sector)? {
        return Ok(false);
    }
    let root = map[1];
    if root == 0 {
        return Ok(false);
    }
    if !fetch(device, root, sector)? {
        return Ok(false);
    }
    if !is_directory(sector) {
        return Ok(false);
    }
    Ok(true)
}
