//! Stages 5 to 7: the blocks of each file, first those of addresses, then its data.
ghost use Rattle.std.specs.Prelude.{◌<◌, ◌≤◌, ◌+◌, ◌^◌, length, IfOk, ◌≡◌, ◌*◌, ℕ};
ghost use Rattle.lfs_model.specs.Content.{block};
ghost use Rattle.lfs_model.specs.Entry.{Data, Leaf, word, Double, Inode, header};
ghost use Rattle.lfs_model.specs.Reach.{view};
ghost use Rattle.lfs_model.specs.Stands.{Blocks, Leaves, Roots};
ghost use Rattle.lfs_verify.specs.FileStages.{Holds, file_step};
ghost use Rattle.lfs_verify.specs.Keeping.{OfContent, Steps, OfWalk};
ghost use Rattle.lfs_verify.specs.Kept.{IsSizeOf, KeepsAt, KeepsInodes};
ghost use Rattle.lfs_verify.specs.Take.{TakesAddress, SomeWord, Advances, Lists};
ghost use Rattle.lfs_verify.specs.Walk.{IsDataBytes};

use crate::inodes::{inode_at, inodes_at};
use crate::order::{ALL_STEPS, FILES, FIRST_DATA, FIRST_LEAF, FIRST_ROOT};
use crate::reading::{fetch, take_block};
use crate::values::{has_word, is_data, word_at};
use lfs_cache::CachedDevice;
use lfs_device::{DeviceFault, SectorDevice};
use lfs_layout::{DOUBLE_POINTER, FIRST_POINTER, SINGLE_POINTER};
use lfs_model::limits::{
    BLOCK_POINTERS, DIRECT_BLOCKS, FILE_BLOCKS, FILE_LEAVES, FILE_NUMBERS, FIRST_DOUBLE,
};

/// The place of the first pointer in an inode.
const FIRST: u32 = FIRST_POINTER as u32;

/// What a stage takes of each file.
#[derive(Clone, Copy)]
pub enum FileStage {
    /// Its single leaf and its double root.
    Roots,
    /// The leaves under its double root.
    Leaves,
    /// Its data blocks.
    Data,
}

/// Takes the block of addresses at an address, where there is one.
///
/// # Errors
///
/// The fault where a call of the device failed.
pub fn take_pointers<D: SectorDevice>(
    device: &mut CachedDevice<D>,
    marks: &mut [u32],
    address: u32,
    step: u32,
    out: &mut [u8; 512],
) -> Result<bool, DeviceFault>
    requires step { step + 1 < 2 ^ 32 }
    requires inside { length marks.old ≤ (D.state device.old).size }
    ensures takes { IfOk result (λ r. OfContent (D.state device.old) (D.state device.new) (λ c.
        TakesAddress SomeWord c marks.old marks.new address step r)) }
    ensures keeps { Steps (D.state device.old) (D.state device.new) marks.old marks.new result }
{
    if address == 0 {
        return Ok(true);
    }
    if !take_block(device, address, step, marks, out)? {
        return Ok(false);
    }
    Ok(has_word(out))
}

/// Takes the two blocks of addresses to which a file's inode leads.
///
/// # Errors
///
/// The fault where a call of the device failed.
pub fn root_blocks<D: SectorDevice>(
    device: &mut CachedDevice<D>,
    inode: &[u8; 512],
    file: u32,
    marks: &mut [u32],
    sector: &mut [u8; 512],
) -> Result<bool, DeviceFault>
    requires file { file < FILE_NUMBERS }
    requires inside { length marks.old ≤ (D.state device.old).size }
    ensures goes { IfOk result (λ r. OfWalk (D.state device.old) (D.state device.new) (λ c k.
        block c ((view c k).address (Inode file)) ≡ inode.now
        → Advances (view c k) marks.old marks.new (FIRST_ROOT + 2 * file)
        (FIRST_ROOT + 2 * (file + 1)) (Roots (view c k)) r)) }
    ensures keeps { Steps (D.state device.old) (D.state device.new) marks.old marks.new result }
{
    let single = word_at(inode, SINGLE_POINTER);
    let double = word_at(inode, DOUBLE_POINTER);
    if !take_pointers(device, marks, single, FIRST_ROOT + 2 * file, sector)? {
        return Ok(false);
    }
    if !take_pointers(device, marks, double, FIRST_ROOT + 1 + 2 * file, sector)? {
        return Ok(false);
    }
    Ok(true)
}

/// Takes the leaves to which a double root leads.
///
/// # Errors
///
/// The fault where a call of the device failed.
pub fn leaf_blocks<D: SectorDevice>(
    device: &mut CachedDevice<D>,
    root: &[u8; 512],
    file: u32,
    marks: &mut [u32],
    sector: &mut [u8; 512],
) -> Result<bool, DeviceFault>
    requires file { file < FILE_NUMBERS }
    requires inside { length marks.old ≤ (D.state device.old).size }
    ensures goes { IfOk result (λ r. OfWalk (D.state device.old) (D.state device.new) (λ c k.
        block c ((view c k).address (Double file)) ≡ root.now
        → Advances (view c k) marks.old marks.new (FIRST_LEAF + BLOCK_POINTERS * file)
        (FIRST_LEAF + BLOCK_POINTERS * (file + 1)) (Leaves (view c k)) r)) }
    ensures keeps { Steps (D.state device.old) (D.state device.new) marks.old marks.new result }
{
    for leaf in 0..BLOCK_POINTERS {
        let address = word_at(root, leaf as usize);
        if !take_pointers(
            device,
            marks,
            address,
            FIRST_LEAF + BLOCK_POINTERS * file + leaf,
            sector,
        )? {
            return Ok(false);
        }
    }
    Ok(true)
}

/// Takes the leaves under a file's double root, which was taken before.
///
/// # Errors
///
/// The fault where a call of the device failed.
pub fn leaves_of_file<D: SectorDevice>(
    device: &mut CachedDevice<D>,
    inode: &[u8; 512],
    file: u32,
    marks: &mut [u32],
    upper: &mut [u8; 512],
    sector: &mut [u8; 512],
) -> Result<bool, DeviceFault>
    requires file { file < FILE_NUMBERS }
    requires inside { length marks.old ≤ (D.state device.old).size }
    ensures goes { IfOk result (λ r. OfWalk (D.state device.old) (D.state device.new) (λ c k.
        block c ((view c k).address (Inode file)) ≡ inode.now
        → Advances (view c k) marks.old marks.new (FIRST_LEAF + BLOCK_POINTERS * file)
        (FIRST_LEAF + BLOCK_POINTERS * (file + 1)) (Leaves (view c k)) r)) }
    ensures keeps { Steps (D.state device.old) (D.state device.new) marks.old marks.new result }
{
    let double = word_at(inode, DOUBLE_POINTER);
    if double == 0 {
        return Ok(true);
    }
    if double as usize >= marks.len() {
        return Ok(false);
    }
    if !fetch(device, double, upper)? {
        return Ok(false);
    }
    if !leaf_blocks(device, upper, file, marks, sector)? {
        return Ok(false);
    }
    Ok(true)
}

/// Takes the data block at an address, where there is one.
///
/// # Errors
///
/// The fault where a call of the device failed.
pub fn take_data<D: SectorDevice>(
    device: &mut CachedDevice<D>,
    marks: &mut [u32],
    address: u32,
    step: u32,
    index: u32,
    size: u32,
    out: &mut [u8; 512],
) -> Result<bool, DeviceFault>
    requires step { step + 1 < 2 ^ 32 }
    requires index { index < FILE_BLOCKS }
    requires inside { length marks.old ≤ (D.state device.old).size }
    ensures takes { IfOk result (λ r. OfContent (D.state device.old) (D.state device.new) (λ c.
        TakesAddress (IsDataBytes index size) c marks.old marks.new address step r)) }
    ensures keeps { Steps (D.state device.old) (D.state device.new) marks.old marks.new result }
{
    if address == 0 {
        return Ok(true);
    }
    if !take_block(device, address, step, marks, out)? {
        return Ok(false);
    }
    Ok(is_data(out, index, size))
}

/// Takes a row of data blocks, the addresses of which stand in a block from a place on.
///
/// # Errors
///
/// The fault where a call of the device failed.
pub fn data_run<D: SectorDevice>(
    device: &mut CachedDevice<D>,
    words: &[u8; 512],
    first: u32,
    count: u32,
    index: u32,
    file: u32,
    size: u32,
    marks: &mut [u32],
    sector: &mut [u8; 512],
) -> Result<bool, DeviceFault>
    requires file { file < FILE_NUMBERS }
    requires words { first + count ≤ BLOCK_POINTERS }
    requires index { index + count ≤ FILE_BLOCKS }
    requires inside { length marks.old ≤ (D.state device.old).size }
    ensures goes { IfOk result (λ r. OfWalk (D.state device.old) (D.state device.new) (λ c k.
        ((j : ℕ) → j < count
        → word words.now (first + j) ≡ (view c k).address (Data file (index + j)))
        → IsSizeOf c k file size
        → Advances (view c k) marks.old marks.new (FIRST_DATA + FILE_BLOCKS * file + index)
        (FIRST_DATA + FILE_BLOCKS * file + index + count) (Blocks (view c k)) r)) }
    ensures keeps { Steps (D.state device.old) (D.state device.new) marks.old marks.new result }
{
    for place in 0..count {
        let address = word_at(words, (first + place) as usize);
        let step = FIRST_DATA + FILE_BLOCKS * file + index + place;
        if !take_data(device, marks, address, step, index + place, size, sector)? {
            return Ok(false);
        }
    }
    Ok(true)
}

/// Takes the data blocks of a leaf, which was taken before: the single leaf, or one more than its
/// place under the double root.
///
/// # Errors
///
/// The fault where a call of the device failed.
pub fn data_of_leaf<D: SectorDevice>(
    device: &mut CachedDevice<D>,
    address: u32,
    leaf: u32,
    file: u32,
    size: u32,
    marks: &mut [u32],
    words: &mut [u8; 512],
    sector: &mut [u8; 512],
) -> Result<bool, DeviceFault>
    requires file { file < FILE_NUMBERS }
    requires leaf { leaf < FILE_LEAVES }
    requires inside { length marks.old ≤ (D.state device.old).size }
    ensures goes { IfOk result (λ r. OfWalk (D.state device.old) (D.state device.new) (λ c k.
        address ≡ (view c k).address (Leaf file leaf) → IsSizeOf c k file size
        → Advances (view c k) marks.old marks.new
        (FIRST_DATA + FILE_BLOCKS * file + (DIRECT_BLOCKS + BLOCK_POINTERS * leaf))
        (FIRST_DATA + FILE_BLOCKS * file + (DIRECT_BLOCKS + BLOCK_POINTERS * (leaf + 1)))
        (Blocks (view c k)) r)) }
    ensures keeps { Steps (D.state device.old) (D.state device.new) marks.old marks.new result }
{
    if address == 0 {
        return Ok(true);
    }
    if address as usize >= marks.len() {
        return Ok(false);
    }
    if !fetch(device, address, words)? {
        return Ok(false);
    }
    if !data_run(
        device,
        words,
        0,
        BLOCK_POINTERS,
        DIRECT_BLOCKS + BLOCK_POINTERS * leaf,
        file,
        size,
        marks,
        sector,
    )? {
        return Ok(false);
    }
    Ok(true)
}

/// How many bytes the file of an inode has.
#[tactic(auto, unfolding(lfs_model::specs::Entry::word, lfs_model::specs::Entry::header))]
pub fn size_of(inode: &[u8; 512]) -> u32
    ensures { result ≡ (header inode.now).size }
{
    word_at(inode, 3)
}

/// Takes the data blocks to which an inode leads by itself.
///
/// # Errors
///
/// The fault where a call of the device failed.
pub fn data_of_inode<D: SectorDevice>(
    device: &mut CachedDevice<D>,
    inode: &[u8; 512],
    file: u32,
    marks: &mut [u32],
    sector: &mut [u8; 512],
) -> Result<bool, DeviceFault>
    requires file { file < FILE_NUMBERS }
    requires inside { length marks.old ≤ (D.state device.old).size }
    ensures goes { IfOk result (λ r. OfWalk (D.state device.old) (D.state device.new) (λ c k.
        block c ((view c k).address (Inode file)) ≡ inode.now
        → Advances (view c k) marks.old marks.new (FIRST_DATA + FILE_BLOCKS * file)
        (FIRST_DATA + FILE_BLOCKS * file + DIRECT_BLOCKS) (Blocks (view c k)) r)) }
    ensures keeps { Steps (D.state device.old) (D.state device.new) marks.old marks.new result }
{
    let size = size_of(inode);
    if !data_run(
        device,
        inode,
        FIRST,
        DIRECT_BLOCKS,
        0,
        file,
        size,
        marks,
        sector,
    )? {
        return Ok(false);
    }
    Ok(true)
}

/// Takes the data blocks of the leaves to which a double root leads.
///
/// # Errors
///
/// The fault where a call of the device failed.
pub fn data_of_leaves<D: SectorDevice>(
    device: &mut CachedDevice<D>,
    root: &[u8; 512],
    file: u32,
    size: u32,
    marks: &mut [u32],
    words: &mut [u8; 512],
    sector: &mut [u8; 512],
) -> Result<bool, DeviceFault>
    requires file { file < FILE_NUMBERS }
    requires inside { length marks.old ≤ (D.state device.old).size }
    ensures goes { IfOk result (λ r. OfWalk (D.state device.old) (D.state device.new) (λ c k.
        block c ((view c k).address (Double file)) ≡ root.now → IsSizeOf c k file size
        → Advances (view c k) marks.old marks.new (FIRST_DATA + FILE_BLOCKS * file + FIRST_DOUBLE)
        (FIRST_DATA + FILE_BLOCKS * file + FILE_BLOCKS) (Blocks (view c k)) r)) }
    ensures keeps { Steps (D.state device.old) (D.state device.new) marks.old marks.new result }
{
    for place in 0..BLOCK_POINTERS {
        let address = word_at(root, place as usize);
        if !data_of_leaf(device, address, place + 1, file, size, marks, words, sector)? {
            return Ok(false);
        }
    }
    Ok(true)
}

/// Takes the data blocks under a double root, which was taken before.
///
/// # Errors
///
/// The fault where a call of the device failed.
pub fn data_of_double<D: SectorDevice>(
    device: &mut CachedDevice<D>,
    address: u32,
    file: u32,
    size: u32,
    marks: &mut [u32],
    root: &mut [u8; 512],
    words: &mut [u8; 512],
    sector: &mut [u8; 512],
) -> Result<bool, DeviceFault>
    requires file { file < FILE_NUMBERS }
    requires inside { length marks.old ≤ (D.state device.old).size }
    ensures goes { IfOk result (λ r. OfWalk (D.state device.old) (D.state device.new) (λ c k.
        address ≡ (view c k).address (Double file) → IsSizeOf c k file size
        → Advances (view c k) marks.old marks.new (FIRST_DATA + FILE_BLOCKS * file + FIRST_DOUBLE)
        (FIRST_DATA + FILE_BLOCKS * file + FILE_BLOCKS) (Blocks (view c k)) r)) }
    ensures keeps { Steps (D.state device.old) (D.state device.new) marks.old marks.new result }
{
    if address == 0 {
        return Ok(true);
    }
    if address as usize >= marks.len() {
        return Ok(false);
    }
    if !fetch(device, address, root)? {
        return Ok(false);
    }
    if !data_of_leaves(device, root, file, size, marks, words, sector)? {
        return Ok(false);
    }
    Ok(true)
}

/// Takes the data blocks of a file, the inode and blocks of addresses of which were taken before.
///
/// # Errors
///
/// The fault where a call of the device failed.
pub fn data_of_file<D: SectorDevice>(
    device: &mut CachedDevice<D>,
    inode: &[u8; 512],
    file: u32,
    marks: &mut [u32],
    upper: &mut [u8; 512],
    words: &mut [u8; 512],
    sector: &mut [u8; 512],
) -> Result<bool, DeviceFault>
    requires file { file < FILE_NUMBERS }
    requires inside { length marks.old ≤ (D.state device.old).size }
    ensures goes { IfOk result (λ r. OfWalk (D.state device.old) (D.state device.new) (λ c k.
        block c ((view c k).address (Inode file)) ≡ inode.now
        → Advances (view c k) marks.old marks.new (FIRST_DATA + FILE_BLOCKS * file)
        (FIRST_DATA + FILE_BLOCKS * (file + 1)) (Blocks (view c k)) r)) }
    ensures keeps { Steps (D.state device.old) (D.state device.new) marks.old marks.new result }
{
    let size = size_of(inode);
    let single = word_at(inode, SINGLE_POINTER);
    let double = word_at(inode, DOUBLE_POINTER);
    if !data_of_inode(device, inode, file, marks, sector)? {
        return Ok(false);
    }
    if !data_of_leaf(device, single, 0, file, size, marks, words, sector)? {
        return Ok(false);
    }
    if !data_of_double(device, double, file, size, marks, upper, words, sector)? {
        return Ok(false);
    }
    Ok(true)
}

/// Takes what a stage takes of a file, the blocks above which were taken before. The inode at this
/// address stands at this place of those that were kept.
///
/// # Errors
///
/// The fault where a call of the device failed.
fn take_file<D: SectorDevice>(
    stage: FileStage,
    device: &mut CachedDevice<D>,
    address: u32,
    inodes: &[[u8; 512]],
    place: usize,
    file: u32,
    marks: &mut [u32],
    upper: &mut [u8; 512],
    words: &mut [u8; 512],
    sector: &mut [u8; 512],
) -> Result<bool, DeviceFault>
    requires file { file < FILE_NUMBERS }
    requires inside { length marks.old ≤ (D.state device.old).size }
    ensures goes { IfOk result (λ r. OfWalk (D.state device.old) (D.state device.new) (λ c k.
        address ≡ (view c k).address (Inode file) → KeepsAt c address inodes.now place
        → Advances (view c k) marks.old marks.new (file_step stage file)
        (file_step stage (file + 1)) (Holds stage (view c k)) r)) }
    ensures keeps { Steps (D.state device.old) (D.state device.new) marks.old marks.new result }
{
    if address == 0 {
        return Ok(true);
    }
    let Some(inode) = inode_at(inodes, place) else {
        return Ok(false);
    };
    match stage {
        FileStage::Roots => root_blocks(device, inode, file, marks, sector),
        FileStage::Leaves => leaves_of_file(device, inode, file, marks, upper, sector),
        FileStage::Data => data_of_file(device, inode, file, marks, upper, words, sector),
    }
}

/// Takes the blocks of all files that a stage takes. False where the stage fails.
///
/// # Errors
///
/// The fault where a call of the device failed.
pub fn stage_files<D: SectorDevice>(
    stage: FileStage,
    device: &mut CachedDevice<D>,
    map: &[u32],
    inodes: &[[u8; 512]],
    marks: &mut [u32],
    upper: &mut [u8; 512],
    words: &mut [u8; 512],
    sector: &mut [u8; 512],
) -> Result<bool, DeviceFault>
    requires files { length map.now ≡ FILE_NUMBERS }
    requires inside { length marks.old ≤ (D.state device.old).size }
    ensures goes { IfOk result (λ r. OfWalk (D.state device.old) (D.state device.new) (λ c k.
        Lists (view c k) map.now → KeepsInodes c map.now inodes.now
        → Advances (view c k) marks.old marks.new (file_step stage 0)
        (file_step stage FILE_NUMBERS) (Holds stage (view c k)) r)) }
    ensures keeps { Steps (D.state device.old) (D.state device.new) marks.old marks.new result }
{
    let mut place = 0;
    for file in 0..FILES {
        let address = map[file as usize];
        if !take_file(
            stage, device, address, inodes, place, file, marks, upper, words, sector,
        )? {
            return Ok(false);
        }
        place += inodes_at(address);
    }
    Ok(true)
}

/// Stage 7: takes the data blocks of all files. False where the stage fails.
///
/// # Errors
///
/// The fault where a call of the device failed.
pub fn stage_data<D: SectorDevice>(
    device: &mut CachedDevice<D>,
    map: &[u32],
    inodes: &[[u8; 512]],
    marks: &mut [u32],
    upper: &mut [u8; 512],
    words: &mut [u8; 512],
    sector: &mut [u8; 512],
) -> Result<bool, DeviceFault>
    requires files { length map.now ≡ FILE_NUMBERS }
    requires inside { length marks.old ≤ (D.state device.old).size }
    ensures goes { IfOk result (λ r. OfWalk (D.state device.old) (D.state device.new) (λ c k.
        Lists (view c k) map.now → KeepsInodes c map.now inodes.now
        → Advances (view c k) marks.old marks.new FIRST_DATA ALL_STEPS (Blocks (view c k)) r)) }
    ensures keeps { Steps (D.state device.old) (D.state device.new) marks.old marks.new result }
{
    stage_files(
        FileStage::Data,
        device,
        map,
        inodes,
        marks,
        upper,
        words,
        sector,
    )
}
