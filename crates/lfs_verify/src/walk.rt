//! The stages in order, with the number of the first that fails.
ghost use Rattle.std.specs.Prelude.{◌≡◌, ◌<◌, ◌≤◌, ◌↔◌, ◌+◌, ◌*◌, ℕ, length, get_or, IsTrue, OnOk, IfOk, IfErr, IsErrOf};
ghost use Rattle.lfs_model.specs.Checkpoint.{FitsCheckpoint};
ghost use Rattle.lfs_model.specs.Damage.{IsDamaged};
ghost use Rattle.lfs_model.specs.Reach.{View, view};
ghost use Rattle.lfs_model.specs.Stands.{EnoughClean, Stages};
ghost use Rattle.lfs_verify.specs.Codes.{FaultIs, HoldsBelow, IsDamage, Passed};
ghost use Rattle.lfs_verify.specs.Keeping.{KeepsTables, OfContent, OfWalk, Walks};
ghost use Rattle.lfs_verify.specs.Kept.{KeepsInodes};
ghost use Rattle.lfs_verify.specs.Labels.{HasAllLabels};
ghost use Rattle.lfs_verify.specs.Tables.{IsUsedTable, IsLiveTable};
ghost use Rattle.lfs_verify.specs.SectorTables.{KeepsSectors};
ghost use Rattle.lfs_verify.specs.Take.{Lists};
ghost use Rattle.lfs_verify.specs.Totals.{CountsLog};
ghost use Rattle.lfs_verify.specs.Walk.{Walked, IsBounded};

use crate::blocks::{FileStage, stage_data, stage_files};
use crate::clean::stage_clean;
use crate::counts::stage_counts;
use crate::fault::WalkFault;
use crate::inode_stage::stage_inodes;
use crate::inodes::room_for_inodes;
use crate::labels::stage_labels;
use crate::map_stage::stage_maps;
use crate::order::{ALL_STEPS, FIRST_DATA, FIRST_MAP, FIRST_ROOT};
use crate::rows::stage_rows;
use crate::tables::version_of;
use crate::totals::{BlockTotals, count_totals};
use crate::usage_stage::{segments_of, stage_usages};
use lfs_cache::CachedDevice;
use lfs_device::{DeviceFault, SectorDevice};
use lfs_layout::Checkpoint;
use lfs_model::limits::{FILE_NUMBERS, MOST_SEGMENTS};
use std::alloc::{AllocError, Global};

/// Stages 1 and 2.
///
/// # Errors
///
/// `Damaged` with the first stage that fails, `Device` where a call of the device failed.
fn walk_usages<D: SectorDevice>(
    device: &mut CachedDevice<D>,
    checkpoint: &Checkpoint,
    used: &mut [u16],
    live: &mut [u16],
    labels: &mut [u32],
    marks: &mut [u32],
) -> Result<(), WalkFault>
    requires fits { FitsCheckpoint checkpoint.now }
    requires used { length used.old ≡ checkpoint.now.segments }
    requires live { length live.old ≡ checkpoint.now.segments }
    requires labels { length labels.old ≡ 2 + 64 * checkpoint.now.segments }
    requires unlabelled { (i : ℕ) → get_or labels.old i 0 ≡ 0 }
    requires marks { length marks.old ≡ 2 + 64 * checkpoint.now.segments }
    requires inside { length marks.old ≤ (D.state device.old).size }
    ensures holds { OnOk result (OfContent (D.state device.old) (D.state device.new) (λ c.
        Passed (view c checkpoint.now) marks.old 0 1
        → Passed (view c checkpoint.now) marks.new FIRST_MAP 3)) }
    ensures damaged { IfErr result (λ e. OfContent (D.state device.old) (D.state device.new) (λ c.
        Passed (view c checkpoint.now) marks.old 0 1 → IsDamage (view c checkpoint.now) e)) }
    ensures tables { OnOk result (OfContent (D.state device.old) (D.state device.new) (λ c.
        Passed (view c checkpoint.now) marks.old 0 1 → IsUsedTable (view c checkpoint.now) used.new
        × IsLiveTable (view c checkpoint.now) live.new)) }
    ensures labels { OnOk result (OfContent (D.state device.old) (D.state device.new) (λ c.
        Passed (view c checkpoint.now) marks.old 0 1
        → HasAllLabels (view c checkpoint.now) labels.new)) }
    ensures lengths { KeepsTables used.old used.new live.old live.new }
    ensures sectors { KeepsSectors labels.old labels.new marks.old marks.new }
    ensures keeps { Walks (D.state device.old) (D.state device.new) result }
{
    let mut sector = [0; 512];
    match stage_usages(device, checkpoint, used, live, marks, &mut sector) {
        Ok(true) => (),
        Ok(false) => return Err(WalkFault::Damaged(1)),
        Err(DeviceFault) => return Err(WalkFault::Device),
    }
    match stage_rows(device, used, labels, &mut sector) {
        Ok(true) => Ok(()),
        Ok(false) => Err(WalkFault::Damaged(2)),
        Err(DeviceFault) => Err(WalkFault::Device),
    }
}

/// Stages 3 and 4, where the stages before hold: the inodes of all files, in the order of their
/// numbers.
///
/// # Errors
///
/// `NoMemory` where memory is refused, `Damaged` with the first stage that fails, `Device` where a
/// call of the device failed.
fn walk_inodes<D: SectorDevice>(
    alloc: Global,
    device: &mut CachedDevice<D>,
    checkpoint: &Checkpoint,
    map: &mut [u32],
    marks: &mut [u32],
) -> Result<Vec<[u8; 512]>, WalkFault>
    requires fits { FitsCheckpoint checkpoint.now }
    requires files { length map.old ≡ FILE_NUMBERS }
    requires empty { (n : ℕ) → get_or map.old n 0 ≡ 0 }
    requires inside { length marks.old ≤ (D.state device.old).size }
    ensures holds { OnOk result (OfContent (D.state device.old) (D.state device.new) (λ c.
        Passed (view c checkpoint.now) marks.old FIRST_MAP 3
        → Passed (view c checkpoint.now) marks.new FIRST_ROOT 5)) }
    ensures damaged { IfErr result (λ e. OfContent (D.state device.old) (D.state device.new) (λ c.
        Passed (view c checkpoint.now) marks.old FIRST_MAP 3 → IsDamage (view c checkpoint.now) e)) }
    ensures lists { OnOk result (OfContent (D.state device.old) (D.state device.new) (λ c.
        Lists (view c checkpoint.now) map.new)) }
    ensures kept { IfOk result (λ inodes. OfContent (D.state device.old) (D.state device.new) (λ c.
        KeepsInodes c map.new inodes.items)) }
    ensures files { length map.new ≡ length map.old }
    ensures len { length marks.new ≡ length marks.old }
    ensures keeps { Walks (D.state device.old) (D.state device.new) result }
{
    let mut sector = [0; 512];
    match stage_maps(device, checkpoint, map, marks, &mut sector) {
        Ok(true) => (),
        Ok(false) => return Err(WalkFault::Damaged(3)),
        Err(DeviceFault) => return Err(WalkFault::Device),
    }
    let Ok(mut inodes) = room_for_inodes(alloc, map) else {
        return Err(WalkFault::NoMemory);
    };
    let version = version_of(checkpoint);
    match stage_inodes(device, version, map, &mut inodes, marks, &mut sector) {
        Ok(true) => Ok(inodes),
        Ok(false) => Err(WalkFault::Damaged(4)),
        Err(DeviceFault) => Err(WalkFault::Device),
    }
}

/// Stages 5 and 6, where the stages before hold.
///
/// # Errors
///
/// `Damaged` with the first stage that fails, `Device` where a call of the device failed.
pub fn walk_pointers<D: SectorDevice>(
    device: &mut CachedDevice<D>,
    map: &[u32],
    inodes: &[[u8; 512]],
    marks: &mut [u32],
    upper: &mut [u8; 512],
    sector: &mut [u8; 512],
) -> Result<(), WalkFault>
    requires files { length map.now ≡ FILE_NUMBERS }
    requires inside { length marks.old ≤ (D.state device.old).size }
    ensures holds { OnOk result (OfWalk (D.state device.old) (D.state device.new) (λ c k.
        IsBounded (view c k) → Lists (view c k) map.now → KeepsInodes c map.now inodes.now
        → HoldsBelow (view c k) 5 → Walked (view c k) marks.old FIRST_ROOT
        → HoldsBelow (view c k) 7 × Walked (view c k) marks.new FIRST_DATA)) }
    ensures damaged { IfErr result (λ e. OfWalk (D.state device.old) (D.state device.new) (λ c k.
        IsBounded (view c k) → Lists (view c k) map.now → KeepsInodes c map.now inodes.now
        → HoldsBelow (view c k) 5 → Walked (view c k) marks.old FIRST_ROOT → IsDamage (view c k) e)) }
    ensures len { length marks.new ≡ length marks.old }
    ensures keeps { Walks (D.state device.old) (D.state device.new) result }
{
    let mut words = [0; 512];
    match stage_files(
        FileStage::Roots,
        device,
        map,
        inodes,
        marks,
        upper,
        &mut words,
        sector,
    ) {
        Ok(true) => (),
        Ok(false) => return Err(WalkFault::Damaged(5)),
        Err(DeviceFault) => return Err(WalkFault::Device),
    }
    match stage_files(
        FileStage::Leaves,
        device,
        map,
        inodes,
        marks,
        upper,
        &mut words,
        sector,
    ) {
        Ok(true) => Ok(()),
        Ok(false) => Err(WalkFault::Damaged(6)),
        Err(DeviceFault) => Err(WalkFault::Device),
    }
}

/// Stages 5 to 7, where the stages before hold.
///
/// # Errors
///
/// `Damaged` with the first stage that fails, `Device` where a call of the device failed.
fn walk_files<D: SectorDevice>(
    device: &mut CachedDevice<D>,
    map: &[u32],
    inodes: &[[u8; 512]],
    marks: &mut [u32],
) -> Result<(), WalkFault>
    requires files { length map.now ≡ FILE_NUMBERS }
    requires inside { length marks.old ≤ (D.state device.old).size }
    ensures holds { OnOk result (OfWalk (D.state device.old) (D.state device.new) (λ c k.
        Lists (view c k) map.now → KeepsInodes c map.now inodes.now
        → Passed (view c k) marks.old FIRST_ROOT 5 → Passed (view c k) marks.new ALL_STEPS 8)) }
    ensures damaged { IfErr result (λ e. OfWalk (D.state device.old) (D.state device.new) (λ c k.
        Lists (view c k) map.now → KeepsInodes c map.now inodes.now
        → Passed (view c k) marks.old FIRST_ROOT 5 → IsDamage (view c k) e)) }
    ensures len { length marks.new ≡ length marks.old }
    ensures keeps { Walks (D.state device.old) (D.state device.new) result }
{
    let mut upper = [0; 512];
    let mut words = [0; 512];
    let mut sector = [0; 512];
    match walk_pointers(device, map, inodes, marks, &mut upper, &mut sector) {
        Ok(()) => (),
        Err(fault) => return Err(fault),
    }
    match stage_data(
        device,
        map,
        inodes,
        marks,
        &mut upper,
        &mut words,
        &mut sector,
    ) {
        Ok(true) => Ok(()),
        Ok(false) => Err(WalkFault::Damaged(7)),
        Err(DeviceFault) => Err(WalkFault::Device),
    }
}

/// Stages 8 and 9, where the stages before hold.
///
/// # Errors
///
/// `Damaged` with the first stage that fails.
fn walk_segments(labels: &[u32], live: &[u16], marks: &[u32]) -> Result<(), WalkFault>
    requires labels { length marks.now ≡ length labels.now }
    requires marks { length marks.now ≡ 2 + 64 * length live.now }
    ensures holds { OnOk result ((v : View) → HasAllLabels v labels.now → IsLiveTable v live.now
        → Passed v marks.now ALL_STEPS 8 → Passed v marks.now ALL_STEPS 10) }
    ensures damaged { IfErr result (λ e. (code : ℕ) → FaultIs e code → (v : View)
        → HasAllLabels v labels.now → IsLiveTable v live.now → Passed v marks.now ALL_STEPS 8
        → IsDamaged v code) }
    ensures low { IfErr result (λ e. (code : ℕ) → FaultIs e code → code < 10) }
    ensures no_call { IsErrOf result WalkFault.Device → ⊥ }
{
    if !stage_labels(labels, marks) {
        return Err(WalkFault::Damaged(8));
    }
    if !stage_counts(live, marks) {
        return Err(WalkFault::Damaged(9));
    }
    Ok(())
}

/// All nine stages on empty tables, and then whether enough segments are clean, and the totals.
///
/// # Errors
///
/// `NoMemory` where memory is refused, `Damaged` with the first stage that fails, `Device` where a
/// call of the device failed.
fn walk_all<D: SectorDevice>(
    alloc: Global,
    device: &mut CachedDevice<D>,
    checkpoint: &Checkpoint,
    used: &mut [u16],
    live: &mut [u16],
    map: &mut [u32],
    labels: &mut [u32],
    marks: &mut [u32],
) -> Result<(bool, BlockTotals), WalkFault>
    requires fits { FitsCheckpoint checkpoint.now }
    requires used { length used.old ≡ checkpoint.now.segments }
    requires live { length live.old ≡ checkpoint.now.segments }
    requires files { length map.old ≡ FILE_NUMBERS }
    requires empty { (n : ℕ) → get_or map.old n 0 ≡ 0 }
    requires labels { length labels.old ≡ 2 + 64 * checkpoint.now.segments }
    requires unlabelled { (i : ℕ) → get_or labels.old i 0 ≡ 0 }
    requires marks { length marks.old ≡ 2 + 64 * checkpoint.now.segments }
    requires unmarked { (a : ℕ) → get_or marks.old a 0 ≡ 0 }
    requires inside { length marks.old ≤ (D.state device.old).size }
    ensures holds { IfOk result (λ r. OfContent (D.state device.old) (D.state device.new) (λ c.
        HoldsBelow (view c checkpoint.now) 10 × (IsTrue r.0 ↔ EnoughClean (view c checkpoint.now)))) }
    ensures counts { IfOk result (λ r. OfContent (D.state device.old) (D.state device.new) (λ c.
        CountsLog c checkpoint.now r.1.data_blocks r.1.meta_blocks)) }
    ensures damaged { IfErr result (λ e. OfContent (D.state device.old) (D.state device.new) (λ c.
        IsDamage (view c checkpoint.now) e)) }
    ensures keeps { Walks (D.state device.old) (D.state device.new) result }
{
    match walk_usages(device, checkpoint, used, live, labels, marks) {
        Ok(()) => (),
        Err(fault) => return Err(fault),
    }
    let inodes = match walk_inodes(alloc, device, checkpoint, map, marks) {
        Ok(inodes) => inodes,
        Err(fault) => return Err(fault),
    };
    match walk_files(device, map, &inodes, marks) {
        Ok(()) => (),
        Err(fault) => return Err(fault),
    }
    match walk_segments(labels, live, marks) {
        Ok(()) => (),
        Err(fault) => return Err(fault),
    }
    let totals = count_totals(marks);
    Ok((stage_clean(used), totals))
}

/// A table of so many numbers, all 0.
fn zeros(alloc: Global, count: usize) -> Result<Vec<u32>, AllocError>
    ensures len { IfOk result (λ v. length v.items ≡ count) }
    ensures empty { IfOk result (λ v. (n : ℕ) → get_or v.items n 0 ≡ 0) }
{
    let numbers = Vec::from_elem(alloc, 0, count)?;
    Ok(numbers)
}

/// Walks over the whole volume to which a checkpoint leads: whether, where all that it leads to is
/// well-formed, enough segments are clean, and how many blocks its files have. It only reads.
///
/// # Errors
///
/// `NoMemory` where memory is refused, `Damaged` with the first stage that fails, `Device` where a
/// call of the device failed.
pub fn walk<D: SectorDevice>(
    alloc: Global,
    device: &mut CachedDevice<D>,
    checkpoint: &Checkpoint,
) -> Result<(bool, BlockTotals), WalkFault>
    requires fits { FitsCheckpoint checkpoint.now }
    requires inside { 2 + 64 * checkpoint.now.segments ≤ (D.state device.old).size }
    ensures holds { IfOk result (λ r. OfContent (D.state device.old) (D.state device.new) (λ c.
        Stages (view c checkpoint.now) × HoldsBelow (view c checkpoint.now) 10
        × (IsTrue r.0 ↔ EnoughClean (view c checkpoint.now)))) }
    ensures counts { IfOk result (λ r. OfContent (D.state device.old) (D.state device.new) (λ c.
        CountsLog c checkpoint.now r.1.data_blocks r.1.meta_blocks)) }
    ensures damaged { IfErr result (λ e. OfContent (D.state device.old) (D.state device.new) (λ c.
        IsDamage (view c checkpoint.now) e)) }
    ensures keeps { Walks (D.state device.old) (D.state device.new) result }
{
    let segments = segments_of(checkpoint) as usize;
    let Ok(mut marks) = zeros(alloc, 2 + 64 * segments) else {
        return Err(WalkFault::NoMemory);
    };
    let Ok(mut labels) = zeros(alloc, 2 + 64 * segments) else {
        return Err(WalkFault::NoMemory);
    };
    let Ok(mut map) = zeros(alloc, FILE_NUMBERS as usize) else {
        return Err(WalkFault::NoMemory);
    };
    let Ok(mut used) = Vec::from_elem(alloc, 0u16, segments) else {
        return Err(WalkFault::NoMemory);
    };
    let Ok(mut live) = Vec::from_elem(alloc, 0u16, segments) else {
        return Err(WalkFault::NoMemory);
    };
    walk_all(
        alloc,
        device,
        checkpoint,
        &mut used,
        &mut live,
        &mut map,
        &mut labels,
        &mut marks,
    )
}
