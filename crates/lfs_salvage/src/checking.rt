//! The stages of the check of a volume in order, to find where the first one fails.
ghost use Rattle.lfs_salvage.specs.Telling.{TellsNothing};

use crate::count_stages::{clean_stage, label_stage, live_stage, need_stage};
use crate::damage::{Checked, Damage, Stop};
use crate::file_stages::{FileStage, file_stage, inode_stage};
use crate::log_stages::{map_stage, summary_stage, usage_stage};
use crate::name_stages::{Names, link_stage, name_stage, slot_stage, text_stage};
use crate::readings::Readings;
use crate::survey::Survey;
use lfs_device::SectorDevice;
use lfs_layout::{Checkpoint, Inode};
use std::alloc::{AllocError, Global};

// Stages 1 to 9: the inodes that they find.
fn log_stages<D: SectorDevice>(
    alloc: Global,
    device: &mut D,
    survey: &mut Survey,
) -> Result<Vec<Inode>, Stop>
    ensures { TellsNothing (D.state device.old) (D.state device.new) }
{
    usage_stage(device, survey)?;
    summary_stage(device, survey)?;
    map_stage(device, survey)?;
    let inodes = inode_stage(alloc, device, survey)?;
    file_stage(device, survey, inodes.as_slice(), FileStage::Roots)?;
    file_stage(device, survey, inodes.as_slice(), FileStage::Leaves)?;
    file_stage(device, survey, inodes.as_slice(), FileStage::Blocks)?;
    label_stage(survey)?;
    live_stage(survey)?;
    Ok(inodes)
}

// Stages 10 to 15.
fn tree_stages<D: SectorDevice>(
    alloc: Global,
    device: &mut D,
    survey: &Survey,
    inodes: &[Inode],
) -> Checked
    ensures { TellsNothing (D.state device.old) (D.state device.new) }
{
    let mut readings = Readings::new(alloc, survey.checkpoint.segments)?;
    let mut names = Names::new(alloc, inodes)?;
    slot_stage(alloc, device, survey, inodes, &mut readings, &mut names)?;
    text_stage(device, inodes, &mut readings)?;
    name_stage(alloc, inodes, &names)?;
    link_stage(inodes, &names)?;
    need_stage(survey)?;
    clean_stage(survey)
}

// All stages, in order.
fn all_stages<D: SectorDevice>(alloc: Global, device: &mut D, checkpoint: &Checkpoint) -> Checked
    ensures { TellsNothing (D.state device.old) (D.state device.new) }
{
    let mut survey = Survey::new(alloc, checkpoint)?;
    let inodes = log_stages(alloc, device, &mut survey)?;
    tree_stages(alloc, device, &survey, inodes.as_slice())
}

/// Where the volume of a checkpoint is damaged: the first place of the first stage that fails.
///
/// # Errors
///
/// Where memory runs out.
pub fn find_damage<D: SectorDevice>(
    alloc: Global,
    device: &mut D,
    checkpoint: &Checkpoint,
) -> Result<Option<Damage>, AllocError>
    ensures { TellsNothing (D.state device.old) (D.state device.new) }
{
    match all_stages(alloc, device, checkpoint) {
        Ok(()) => Ok(None),
        Err(Stop::Damage(damage)) => Ok(Some(damage)),
        Err(Stop::Memory(error)) => Err(error),
    }
}
