//! The usage blocks, and the tables of the sectors in use that they hold.
ghost use Rattle.std.specs.Prelude.{◌≡◌, ◌<◌, ◌≤◌, ◌+◌, ◌*◌, ◌/◌, ◌%◌, ◌↔◌, ℕ, length, get_or, IsTrue, IfOk};
ghost use Rattle.lfs_model.specs.Checkpoint.{FitsCheckpoint};
ghost use Rattle.lfs_model.specs.Reach.{view};
ghost use Rattle.lfs_model.specs.Stands.{Usages};
ghost use Rattle.lfs_verify.specs.Keeping.{KeepsTables, OfContent, Steps};
ghost use Rattle.lfs_verify.specs.Take.{Advances};
ghost use Rattle.lfs_verify.specs.UsageTables.{CopiesUses, SaysUpTo, SaysAll};
ghost use Rattle.lfs_verify.specs.Walk.{Walked, IsBounded};

use crate::order::FIRST_MAP;
use crate::reading::take_block;
use lfs_cache::CachedDevice;
use lfs_device::{DeviceFault, SectorDevice};
use lfs_layout::{Checkpoint, UsageView};
use lfs_model::limits::{BLOCK_SEGMENTS, USAGE_BLOCKS};

pub(crate) fn segments_of(checkpoint: &Checkpoint) -> u32
    ensures { result ≡ checkpoint.now.segments }
{
    checkpoint.segments
}

pub(crate) fn usage_address(checkpoint: &Checkpoint, index: u32) -> u32
    requires { index < USAGE_BLOCKS }
    ensures { result ≡ get_or checkpoint.now.usage index 0 }
{
    checkpoint.usage[index as usize]
}

/// Copies the entries of a usage block to the places of their segments, as far as the tables go.
fn copy_uses(block: &UsageView<'_>, index: u32, used: &mut [u16], live: &mut [u16])
    requires index { index < USAGE_BLOCKS }
    requires same { length live.old ≡ length used.old }
    ensures { CopiesUses block.now used.old live.old used.new live.new (BLOCK_SEGMENTS * index)
        BLOCK_SEGMENTS }
{
    for place in 0..64usize {
        let segment = 64 * index as usize + place;
        if segment < used.len() {
            let entry = block.get(place);
            used[segment] = entry.used;
            live[segment] = entry.live;
        }
    }
}

/// Takes a usage block, where there has to be one, and copies its entries to the tables.
///
/// # Errors
///
/// The fault where a call of the device failed.
pub fn take_usage<D: SectorDevice>(
    device: &mut CachedDevice<D>,
    checkpoint: &Checkpoint,
    index: u32,
    used: &mut [u16],
    live: &mut [u16],
    marks: &mut [u32],
    sector: &mut [u8; 512],
) -> Result<bool, DeviceFault>
    requires index { index < USAGE_BLOCKS }
    requires used { length used.old ≡ checkpoint.now.segments }
    requires live { length live.old ≡ checkpoint.now.segments }
    requires inside { length marks.old ≤ (D.state device.old).size }
    ensures goes { IfOk result (λ r. OfContent (D.state device.old) (D.state device.new) (λ c.
        Advances (view c checkpoint.now) marks.old marks.new index (index + 1)
        (Usages (view c checkpoint.now)) r)) }
    ensures is_there { IfOk result (λ r. IsTrue r → (0 < get_or checkpoint.now.usage index 0)
        ↔ (index < (checkpoint.now.segments + 63) / 64)) }
    ensures says { IfOk result (λ r. IsTrue r
        → OfContent (D.state device.old) (D.state device.new) (λ c.
        SaysUpTo (view c checkpoint.now) used.old live.old index
        → SaysUpTo (view c checkpoint.now) used.new live.new (index + 1))) }
    ensures lengths { KeepsTables used.old used.new live.old live.new }
    ensures keeps { Steps (D.state device.old) (D.state device.new) marks.old marks.new result }
{
    let segments = segments_of(checkpoint);
    let address = usage_address(checkpoint, index);
    if 64 * index >= segments {
        if address != 0 {
            return Ok(false);
        }
        return Ok(true);
    }
    if address == 0 {
        return Ok(false);
    }
    if !take_block(device, address, index, marks, sector)? {
        return Ok(false);
    }
    let Some(block) = UsageView::decode(sector, (segments - 64 * index) as usize) else {
        return Ok(false);
    };
    copy_uses(&block, index, used, live);
    Ok(true)
}

/// Whether each segment has whole units of so many sectors in use.
fn are_whole(used: &[u16], unit: u16) -> bool
    requires { 0 < unit }
    ensures { IsTrue result ↔ ((s : ℕ) → s < length used.now → get_or used.now s 0 % unit ≡ 0) }
{
    for segment in 0..used.len() {
        if used[segment] % unit != 0 {
            return false;
        }
    }
    true
}

/// Stage 1: takes the usage blocks, and copies their entries to the tables of used and of live
/// sectors. False where the stage fails.
///
/// # Errors
///
/// The fault where a call of the device failed.
pub fn stage_usages<D: SectorDevice>(
    device: &mut CachedDevice<D>,
    checkpoint: &Checkpoint,
    used: &mut [u16],
    live: &mut [u16],
    marks: &mut [u32],
    sector: &mut [u8; 512],
) -> Result<bool, DeviceFault>
    requires fits { FitsCheckpoint checkpoint.now }
    requires used { length used.old ≡ checkpoint.now.segments }
    requires live { length live.old ≡ checkpoint.now.segments }
    requires inside { length marks.old ≤ (D.state device.old).size }
    ensures goes { IfOk result (λ r. OfContent (D.state device.old) (D.state device.new) (λ c.
        Advances (view c checkpoint.now) marks.old marks.new 0 FIRST_MAP
        (Usages (view c checkpoint.now)) r)) }
    ensures holds { IfOk result (λ r. IsTrue r
        → OfContent (D.state device.old) (D.state device.new) (λ c.
        IsBounded (view c checkpoint.now) → Walked (view c checkpoint.now) marks.old 0
        → Usages (view c checkpoint.now))) }
    ensures says { IfOk result (λ r. IsTrue r
        → OfContent (D.state device.old) (D.state device.new) (λ c.
        SaysAll (view c checkpoint.now) used.new live.new)) }
    ensures lengths { KeepsTables used.old used.new live.old live.new }
    ensures keeps { Steps (D.state device.old) (D.state device.new) marks.old marks.new result }
{
    for index in 0..USAGE_BLOCKS {
        if !take_usage(device, checkpoint, index, used, live, marks, sector)? {
            return Ok(false);
        }
    }
    Ok(are_whole(used, checkpoint.unit_sectors()))
}
