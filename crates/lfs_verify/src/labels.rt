//! The marks that the names in summaries give, and whether those of the walk agree with them.
ghost use Rattle.std.specs.Prelude.{◌≡◌, ◌<◌, ◌≤◌, ◌⊎◌, ◌+◌, ◌^◌, ◌↔◌, length, IsTrue};
ghost use Rattle.lfs_model.specs.Entry.{entry_of};
ghost use Rattle.lfs_model.specs.Reach.{View};
ghost use Rattle.lfs_model.specs.Stands.{AreNamed};
ghost use Rattle.lfs_model.specs.Summary.{FitsSummary, IsPlaced};
ghost use Rattle.lfs_verify.specs.Labels.{HasAllLabels, PutsLabels};
ghost use Rattle.lfs_verify.specs.Walk.{Walked, IsBounded, step_of};

use crate::order::{ALL_STEPS, FIRST_DATA, FIRST_INODE, FIRST_LEAF, FIRST_MAP, FIRST_ROOT};
use lfs_layout::{BlockName, SummaryView};
use lfs_model::BlockKind;
use lfs_model::limits::{BLOCK_POINTERS, FILE_BLOCKS};

/// The step of the walk that takes the block of this name.
#[tactic(auto, unfolding(lfs_model::specs::Summary::IsPlaced))]
fn step_of_name(name: BlockName) -> u32
    requires { IsPlaced name.kind name.file name.index }
    ensures step { result ≡ step_of (entry_of name) }
    ensures few { result < 2 ^ 31 }
{
    let BlockName { file, kind, index } = name;
    let file = file as u32;
    match kind {
        BlockKind::Usage => index,
        BlockKind::Map => FIRST_MAP + index,
        BlockKind::Inode => FIRST_INODE + file,
        BlockKind::Double => FIRST_ROOT + 1 + 2 * file,
        BlockKind::Leaf if index == 0 => FIRST_ROOT + 2 * file,
        BlockKind::Leaf => FIRST_LEAF - 1 + BLOCK_POINTERS * file + index,
        BlockKind::Data => FIRST_DATA + FILE_BLOCKS * file + index,
    }
}

/// Puts the marks that a chunk's blocks have by their names into a table, from the one at `first`
/// on.
pub(crate) fn label_chunk(names: &SummaryView<'_>, labels: &mut [u32], first: usize)
    requires fits { FitsSummary names.now }
    requires inside { first + length names.now ≤ length labels.old }
    ensures { PutsLabels names.now labels.old labels.new first (length names.now) }
{
    for place in 0..names.len() {
        labels[first + place] = step_of_name(names.get(place)) + 1;
    }
}

/// Whether a sector isn't marked, or has the mark that its label gives.
fn agrees(mark: u32, label: u32) -> bool
    ensures { IsTrue result ↔ (mark ≡ 0 ⊎ mark ≡ label) }
{
    if mark == 0 {
        return true;
    }
    mark == label
}

/// Stage 8: whether each entry that was reached has, where it stands, its label.
pub fn stage_labels(labels: &[u32], marks: &[u32]) -> bool
    requires { length marks.now ≡ length labels.now }
    ensures { (v : View) → HasAllLabels v labels.now → Walked v marks.now ALL_STEPS → IsBounded v
        → IsTrue result ↔ AreNamed v }
{
    for sector in 0..marks.len() {
        if !agrees(marks[sector], labels[sector]) {
            return false;
        }
    }
    true
}
