//! The stages of a tree in order, with the number of the first that fails.
ghost use Rattle.std.specs.Prelude.{◌≡◌, OnOk, IfErr};
ghost use Rattle.lfs_model.specs.Checkpoint.{CheckpointValue};
ghost use Rattle.lfs_model.specs.Content.{Content};
ghost use Rattle.lfs_model.specs.Stands.{LogMap};
ghost use Rattle.lfs_model.specs.TreeOf.{AreSlots, AreTexts, IsTree, TreeOf, tree_in};
ghost use Rattle.lfs_verify.specs.Loading.{HoldsTables};
ghost use Rattle.lfs_verify.specs.Take.{Looks};
ghost use Rattle.lfs_tree.specs.Checking.{IsFaultOf, IsGathered, IsRefusedTree, IsTreeDamage, OfTables};
ghost use Rattle.lfs_tree.specs.Naming.{AreEmpty};
ghost use Rattle.lfs_tree.specs.Objects.{AreNamed};
ghost use Rattle.lfs_tree.specs.Reading.{FailsToRead, OfHeaders};
ghost use Rattle.lfs_verify.specs.Keeping.{OnlyLooks};

use crate::fault::CheckFault;
use crate::headers::{Headers, read_headers};
use crate::links::{stage_links, stage_space};
use crate::reached::stage_reached;
use crate::slot_stage::stage_slots;
use crate::tables::NameTables;
use crate::texts::stage_texts;
use lfs_cache::CachedDevice;
use lfs_device::SectorDevice;
use lfs_inodes::InodeMap;
use lfs_model::limits::FILE_NUMBERS;
use lfs_verify::{MountFault, Tables};
use std::alloc::Global;

/// The codes of damage of the tree's stages.
const SLOTS: u8 = 10;

const TEXTS: u8 = 11;

const REACHED: u8 = 12;

const LINKS: u8 = 13;

const ROOM: u8 = 14;

/// Stages 10 and 11, which go through directories and links.
///
/// # Errors
///
/// `NoMemory` where memory runs out, `Device` where a block can't be read, `Damaged` with the first
/// stage that fails.
fn check_objects<D: SectorDevice>(
    alloc: Global,
    device: &mut CachedDevice<D>,
    map: &InodeMap,
    headers: &Headers,
    names: &mut NameTables,
) -> Result<(), MountFault>
    ensures done { OnOk result (OfHeaders (D.state device.old) (D.state device.new)
        map.now headers.now
        (λ k m. AreEmpty names.old
        → AreSlots m × AreTexts m × AreNamed m headers.now names.new FILE_NUMBERS)) }
    ensures reason { IfErr result (λ e. OfHeaders (D.state device.old) (D.state device.new)
        map.now headers.now
        (λ k m. AreEmpty names.old
        → IsFaultOf (FailsToRead (D.state device.old) (D.state device.new))
        (IsTreeDamage k.segments m) e)) }
    ensures keeps { OnlyLooks (D.state device.old) (D.state device.new) result }
{
    match stage_slots(alloc, device, map, headers, names) {
        Ok(true) => {}
        Ok(false) => return Err(MountFault::Damaged(SLOTS)),
        Err(CheckFault::NoMemory) => return Err(MountFault::NoMemory),
        Err(CheckFault::Device) => return Err(MountFault::Device),
    }
    match stage_texts(device, map, headers) {
        Ok(true) => Ok(()),
        Ok(false) => Err(MountFault::Damaged(TEXTS)),
        Err(_) => Err(MountFault::Device),
    }
}

/// Stages 12 to 14, which look at tables, where the stages before hold.
///
/// # Errors
///
/// `NoMemory` where memory runs out, `Damaged` with the first stage that fails.
fn check_names(
    alloc: Global,
    tables: &Tables,
    headers: &Headers,
    names: &NameTables,
) -> Result<(), MountFault>
    ensures done { OnOk result ((c : Content) (k : CheckpointValue) (m : LogMap)
        → IsGathered c k m headers.now names.now tables.now → IsTree k.segments m) }
    ensures reason { IfErr result (λ e. (c : Content) (k : CheckpointValue) (m : LogMap)
        → IsGathered c k m headers.now names.now tables.now
        → IsFaultOf ⊥ (IsTreeDamage k.segments m) e) }
{
    match stage_reached(alloc, headers, names) {
        Ok(true) => {}
        Ok(false) => return Err(MountFault::Damaged(REACHED)),
        Err(_) => return Err(MountFault::NoMemory),
    }
    if !stage_links(headers, names) {
        return Err(MountFault::Damaged(LINKS));
    }
    if !stage_space(tables.data_blocks, tables.meta_blocks, tables.segments) {
        return Err(MountFault::Damaged(ROOM));
    }
    Ok(())
}

/// All five stages, with tables that are empty.
///
/// # Errors
///
/// As those of `check_tree`.
fn check_stages<D: SectorDevice>(
    alloc: Global,
    device: &mut CachedDevice<D>,
    tables: &Tables,
    headers: &mut Headers,
    names: &mut NameTables,
) -> Result<(), MountFault>
    ensures done { OnOk result (OfTables (D.state device.old) (D.state device.new)
        tables.now names.old
        (λ k m. IsTree k.segments m)) }
    ensures reason { IfErr result (λ e. OfTables (D.state device.old) (D.state device.new)
        tables.now names.old
        (λ k m. IsFaultOf (FailsToRead (D.state device.old) (D.state device.new))
        (IsTreeDamage k.segments m) e)) }
    ensures keeps { OnlyLooks (D.state device.old) (D.state device.new) result }
{
    match read_headers(device, &tables.map, headers) {
        Ok(()) => {}
        Err(_) => return Err(MountFault::Device),
    }
    check_objects(alloc, device, &tables.map, headers, names)?;
    check_names(alloc, tables, headers, names)
}

/// Checks the tree of the log map to which the tables of a volume lead: its stages in order, each
/// inode read once for all headers, and once more with the blocks of a directory or a link. It
/// writes nothing.
///
/// # Errors
///
/// `NoMemory` where memory is refused, `Device` where a call of the device failed or what the walk
/// over the log read can't be read any more, `Damaged` with the first of the stages 10 to 14 that
/// fails.
pub fn check_tree<D: SectorDevice>(
    alloc: Global,
    device: &mut CachedDevice<D>,
    tables: &Tables,
) -> Result<(), MountFault>
    ensures tree { OnOk result ((D.state device.new).keeps_model
        → (has : HoldsTables (D.state device.old).content tables.now)
        → TreeOf has.checkpoint.segments has.log (tree_in has.log)) }
    ensures reason { IfErr result (λ e. (D.state device.new).keeps_model
        → HoldsTables (D.state device.old).content tables.now
        → IsRefusedTree (D.state device.old) (D.state device.new) e) }
    ensures no_failure { OnOk result
        ((D.state device.new).failures ≡ (D.state device.old).failures) }
    ensures looks { Looks (D.state device.old) (D.state device.new) }
{
    let Ok(mut headers) = Headers::new(alloc) else {
        return Err(MountFault::NoMemory);
    };
    let Ok(mut names) = NameTables::new(alloc) else {
        return Err(MountFault::NoMemory);
    };
    check_stages(alloc, device, tables, &mut headers, &mut names)
}
