//! Stages 4 to 7: inodes, blocks of pointers, and data blocks.
ghost use Rattle.lfs_salvage.specs.Telling.{TellsNothing};

use crate::blocks::ends_within;
use crate::damage::{Checked, Part, Stage, Stop};
use crate::readings::read_sector;
use crate::survey::Survey;
use crate::walk::{NUMBERS, ROOT};
use lfs_device::SectorDevice;
use lfs_layout::{BlockName, Inode, InodeView, PointerView, is_form, is_zero};
use lfs_model::limits::{BLOCK_POINTERS, DIRECT_BLOCKS, FIRST_DOUBLE};
use lfs_model::{BlockKind, Kind};
use std::alloc::Global;

// The name of a block of an object.
fn name_of(number: u32, kind: BlockKind, index: u32) -> BlockName {
    BlockName {
        file: u16::try_from(number).unwrap_or(0),
        kind,
        index,
    }
}

// The inode of a number that stands in this sector, of a form that the version has.
fn take_inode<D: SectorDevice>(
    device: &mut D,
    survey: &mut Survey,
    number: u32,
    sector: u32,
) -> Option<Inode>
    ensures { TellsNothing (D.state device.old) (D.state device.new) }
{
    let name = name_of(number, BlockKind::Inode, 0);
    let bytes = survey.take(device, sector, name)?;
    let inode = InodeView::decode(&bytes)?.to_inode();
    let is_rooted = number != ROOT || inode.kind == Kind::Directory;
    let has_form = is_form(survey.checkpoint.version, inode.kind, inode.form);
    if inode.number == number && is_rooted && has_form {
        Some(inode)
    } else {
        None
    }
}

/// Inodes: all of them, by the order of their numbers.
pub fn inode_stage<D: SectorDevice>(
    alloc: Global,
    device: &mut D,
    survey: &mut Survey,
) -> Result<Vec<Inode>, Stop>
    ensures { TellsNothing (D.state device.old) (D.state device.new) }
{
    let mut inodes = Vec::new(alloc);
    for number in 0..NUMBERS {
        let sector = survey.address(number);
        if sector != 0 {
            match take_inode(device, survey, number, sector) {
                Some(inode) => inodes.push(inode)?,
                None => return Err(Stage(4).fails_of(number, Part::Inode, sector)),
            }
        }
    }
    Ok(inodes)
}

// Looks at a block of pointers. A sector of 0 is none.
fn take_pointers<D: SectorDevice>(
    device: &mut D,
    survey: &mut Survey,
    stage: Stage,
    number: u32,
    part: Part,
    sector: u32,
) -> Checked
    ensures { TellsNothing (D.state device.old) (D.state device.new) }
{
    if sector == 0 {
        return Ok(());
    }
    let name = match part {
        Part::Leaf(leaf) => name_of(number, BlockKind::Leaf, leaf),
        _ => name_of(number, BlockKind::Double, 0),
    };
    match survey.take(device, sector, name) {
        Some(bytes) if !is_zero(&bytes) => Ok(()),
        _ => Err(stage.fails_of(number, part, sector)),
    }
}

// Looks at the single leaf and the double root of an object.
fn take_roots<D: SectorDevice>(device: &mut D, survey: &mut Survey, inode: &Inode) -> Checked
    ensures { TellsNothing (D.state device.old) (D.state device.new) }
{
    let leaf = Part::Leaf(0);
    take_pointers(device, survey, Stage(5), inode.number, leaf, inode.single)?;
    let double = Part::Double;
    take_pointers(device, survey, Stage(5), inode.number, double, inode.double)
}

// The addresses in a block of pointers, all 0 where there is none.
fn addresses_in<D: SectorDevice>(device: &mut D, sector: u32) -> [u32; 128]
    ensures { TellsNothing (D.state device.old) (D.state device.new) }
{
    if sector == 0 {
        return [0; 128];
    }
    match read_sector(device, sector) {
        Some(bytes) => PointerView::new(&bytes).to_array(),
        None => [0; 128],
    }
}

// Looks at the leaves of a double root.
fn take_leaves<D: SectorDevice>(device: &mut D, survey: &mut Survey, inode: &Inode) -> Checked
    ensures { TellsNothing (D.state device.old) (D.state device.new) }
{
    let leaves = addresses_in(device, inode.double);
    let mut leaf: u32 = 0;
    for sector in &leaves {
        leaf = leaf.saturating_add(1);
        let part = Part::Leaf(leaf);
        take_pointers(device, survey, Stage(6), inode.number, part, *sector)?;
    }
    Ok(())
}

// Whether a data block may have these bytes. One at or past the end would have none but zeros.
fn is_block(inode: &Inode, block: u32, bytes: &[u8; 512]) -> bool {
    !is_zero(bytes) && ends_within(inode, block, bytes)
}

// Looks at data blocks whose addresses follow one another.
fn take_row<D: SectorDevice>(
    device: &mut D,
    survey: &mut Survey,
    inode: &Inode,
    first: u32,
    addresses: &[u32],
) -> Checked
    ensures { TellsNothing (D.state device.old) (D.state device.new) }
{
    let mut block = first;
    for sector in addresses {
        if *sector != 0 {
            let name = name_of(inode.number, BlockKind::Data, block);
            match survey.take(device, *sector, name) {
                Some(bytes) if is_block(inode, block, &bytes) => {}
                _ => return Err(Stage(7).fails_of(inode.number, Part::Block(block), *sector)),
            }
        }
        block = block.saturating_add(1);
    }
    Ok(())
}

// Looks at the data blocks that a double root leads to.
fn take_rows<D: SectorDevice>(device: &mut D, survey: &mut Survey, inode: &Inode) -> Checked
    ensures { TellsNothing (D.state device.old) (D.state device.new) }
{
    let leaves = addresses_in(device, inode.double);
    let mut first = FIRST_DOUBLE;
    for leaf in &leaves {
        let addresses = addresses_in(device, *leaf);
        take_row(device, survey, inode, first, &addresses)?;
        first = first.saturating_add(BLOCK_POINTERS);
    }
    Ok(())
}

// Looks at the data blocks of an object.
fn take_blocks<D: SectorDevice>(device: &mut D, survey: &mut Survey, inode: &Inode) -> Checked
    ensures { TellsNothing (D.state device.old) (D.state device.new) }
{
    take_row(device, survey, inode, 0, &inode.direct)?;
    let addresses = addresses_in(device, inode.single);
    take_row(device, survey, inode, DIRECT_BLOCKS, &addresses)?;
    take_rows(device, survey, inode)
}

/// The stages that go through all inodes.
#[derive(Clone, Copy)]
pub enum FileStage {
    /// Single leaves and double roots.
    Roots,
    /// Leaves of double roots.
    Leaves,
    /// Data blocks.
    Blocks,
}

// Looks at what a stage looks at of an object.
fn take_part<D: SectorDevice>(
    device: &mut D,
    survey: &mut Survey,
    inode: &Inode,
    stage: FileStage,
) -> Checked
    ensures { TellsNothing (D.state device.old) (D.state device.new) }
{
    match stage {
        FileStage::Roots => take_roots(device, survey, inode),
        FileStage::Leaves => take_leaves(device, survey, inode),
        FileStage::Blocks => take_blocks(device, survey, inode),
    }
}

/// One of these stages.
pub fn file_stage<D: SectorDevice>(
    device: &mut D,
    survey: &mut Survey,
    inodes: &[Inode],
    stage: FileStage,
) -> Checked
    ensures { TellsNothing (D.state device.old) (D.state device.new) }
{
    for inode in inodes {
        take_part(device, survey, inode, stage)?;
    }
    Ok(())
}
