//! The used part of a segment as a row of whole chunks, and the marks that its summaries give.
ghost use Rattle.std.specs.Prelude.{◌≡◌, ◌<◌, ◌≤◌, ◌+◌, ◌*◌, ◌↔◌, ℕ, IfOk, IsTrue, length, get_or};
ghost use Rattle.lfs_model.specs.Reach.{row_by, view};
ghost use Rattle.lfs_model.specs.Stands.{IsRows};
ghost use Rattle.lfs_verify.specs.Keeping.{OfContent, OfWalk, Steps};
ghost use Rattle.lfs_verify.specs.Labels.{HasAllLabels, HasLabels};
ghost use Rattle.lfs_verify.specs.Rows.{HasRow};
ghost use Rattle.lfs_verify.specs.Tables.{IsUsedTable};

use crate::labels::label_chunk;
use crate::reading::fetch;
use lfs_cache::CachedDevice;
use lfs_device::{DeviceFault, SectorDevice};
use lfs_layout::SummaryView;
use lfs_model::limits::SEGMENT_SECTORS;

/// Whether the first sectors of a segment are whole chunks. The marks that their names give go to a
/// table, which has none of this segment before.
///
/// # Errors
///
/// The fault where a call of the device failed.
fn label_row<D: SectorDevice>(
    device: &mut CachedDevice<D>,
    used: u32,
    segment: u32,
    labels: &mut [u32],
    sector: &mut [u8; 512],
) -> Result<bool, DeviceFault>
    requires used { used ≤ SEGMENT_SECTORS }
    requires inside { 66 + 64 * segment ≤ (D.state device.old).size }
    requires labelled { 66 + 64 * segment ≤ length labels.old }
    requires empty { (i : ℕ) → 2 + 64 * segment ≤ i → get_or labels.old i 0 ≡ 0 }
    ensures row { IfOk result (λ r. OfContent (D.state device.old) (D.state device.new) (λ c.
        IsTrue r ↔ HasRow (row_by c used segment))) }
    ensures labels { IfOk result (λ r. IsTrue r
        → OfContent (D.state device.old) (D.state device.new) (λ c.
        HasLabels (row_by c used segment) labels.new segment)) }
    ensures before { (i : ℕ) → i < 2 + 64 * segment
        → get_or labels.new i 0 ≡ get_or labels.old i 0 }
    ensures behind { (i : ℕ) → 66 + 64 * segment ≤ i → get_or labels.new i 0 ≡ 0 }
    ensures keeps { Steps (D.state device.old) (D.state device.new) labels.old labels.new result }
{
    let first = 2 + 64 * segment;
    let mut at = 0u32;
    while at < used {
        if !fetch(device, first + at, sector)? {
            return Ok(false);
        }
        let Some(names) = SummaryView::decode(sector) else {
            return Ok(false);
        };
        let count = names.len() as u32;
        if count >= used - at {
            return Ok(false);
        }
        label_chunk(&names, labels, (first + at + 1) as usize);
        at += 1 + count;
    }
    Ok(true)
}

/// Stage 2: whether the used sectors of each segment are whole chunks. The marks that their names
/// give go to an empty table, so that each summary is looked at once.
///
/// # Errors
///
/// The fault where a call of the device failed.
pub fn stage_rows<D: SectorDevice>(
    device: &mut CachedDevice<D>,
    used: &[u16],
    labels: &mut [u32],
    sector: &mut [u8; 512],
) -> Result<bool, DeviceFault>
    requires inside { 2 + 64 * length used.now ≤ (D.state device.old).size }
    requires labelled { length labels.old ≡ 2 + 64 * length used.now }
    requires empty { (i : ℕ) → get_or labels.old i 0 ≡ 0 }
    ensures rows { IfOk result (λ r. OfWalk (D.state device.old) (D.state device.new) (λ c k.
        IsUsedTable (view c k) used.now → IsTrue r ↔ IsRows (view c k))) }
    ensures labels { IfOk result (λ r. IsTrue r
        → OfWalk (D.state device.old) (D.state device.new) (λ c k. IsUsedTable (view c k) used.now
        → HasAllLabels (view c k) labels.new)) }
    ensures keeps { Steps (D.state device.old) (D.state device.new) labels.old labels.new result }
{
    for segment in 0..used.len() {
        let count = used[segment] as u32;
        if count > SEGMENT_SECTORS {
            return Ok(false);
        }
        if !label_row(device, count, segment as u32, labels, sector)? {
            return Ok(false);
        }
    }
    Ok(true)
}
