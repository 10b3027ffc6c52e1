//! Making an empty volume.
ghost use Rattle.std.specs.Prelude.{◌≡◌, ◌≤◌, ◌<◌, ◌↔◌, ◌⊎◌, ◌+◌, OnOk, OnErr, IsErrOf};
ghost use Rattle.lfs_model.specs.Checkpoint.{IsSectorVersion, IsSegmentCount, IsVersion, checkpoint_sector, most_unit_power, usage_blocks};
ghost use Rattle.lfs_model.specs.Content.{Content};
ghost use Rattle.lfs_model.specs.Device.{AllLeft, AreSectors, Only, Carries, LeavesOnly, ComesFrom, MayWriteUnit, put};
ghost use Rattle.lfs_model.specs.Image.{first_checkpoint};
ghost use Rattle.lfs_model.specs.Reach.{segment_start};
ghost use Rattle.lfs_places.specs.Places.{place_of, volume_size};
ghost use Rattle.lfs_format.specs.Shape.{IsShape, unit_power_of};
ghost use Rattle.lfs_format.specs.Making.{AreClear, EndsWriting, HasChunk, HasMade, IsCleared, IsMaking, MayClearSlots, SameBut, WritesChunk, places_by};

use crate::fault::FormatFault;
use crate::image::{
    INODE, MAP, USAGE, checkpoint, map_block, root_block, summary_block, usage_block, usage_count,
};
use crate::shape::{Shape, least_sectors, places_by};
use lfs_device::{DeviceFault, SectorDevice};
use lfs_layout::{is_sector_version, is_segment_count, is_version};
use lfs_model::limits::CHECKPOINT_SLOTS;
use lfs_places::limits::SECOND_SLOT;

/// Makes the device an empty volume of version 1 and of so many segments, as `format_version` does.
///
/// # Errors
///
/// In this order: `Inval` where the count is no multiple of 8 in 64..=1,024, `TooSmall` where the
/// device has fewer than 2 + 64 sectors a segment, both with the device as it was, `Device` where a
/// call of the device failed.
pub fn format<D: SectorDevice>(device: &mut D, segments: u32) -> Result<(), FormatFault>
    ensures inval { IsErrOf result FormatFault.Inval ↔ ¬ (IsSegmentCount segments) }
    ensures too_small { IsErrOf result FormatFault.TooSmall ↔ IsSegmentCount segments
        × ((D.state device.old).size < segment_start segments) }
    ensures refused { IsErrOf result FormatFault.Inval ⊎ IsErrOf result FormatFault.TooSmall
        → device.new ≡ device.old }
    ensures failed { IsErrOf result FormatFault.Device
        → (D.state device.old).failures < (D.state device.new).failures }
    ensures made { OnOk result
        (HasMade 1 segments 0 (D.state device.old) (D.state device.new)) }
    ensures making { IsMaking 1 segments 0 (D.state device.old) (D.state device.new) }
{
    format_version(device, segments, 1)
}

/// Makes the device an empty volume of so many segments, in this version of the layout. It takes no
/// memory and writes the first chunk, sectors 0 and 1, and sector 128 alone: at these a slot stands
/// by the old places or the new ones. Where the device's units are sectors, a stop at any moment
/// leaves what stood there, with those three that may be cleared, or no checkpoint, or the empty
/// volume. After `Ok`, whatever the units are, it leaves the empty volume alone, laid out as
/// FORMAT.md has it, and sector 128 is clear.
///
/// # Errors
///
/// In this order: `Inval` where the count is no multiple of 8 in 64..=1,024 or the version isn't 1
/// or 2, `TooSmall` where the device has fewer than 2 + 64 sectors a segment, both with the device
/// as it was, `Device` where a call of the device failed.
pub fn format_version<D: SectorDevice>(
    device: &mut D,
    segments: u32,
    version: u32,
) -> Result<(), FormatFault>
    ensures inval { IsErrOf result FormatFault.Inval
        ↔ ¬ (IsSegmentCount segments × IsSectorVersion version) }
    ensures too_small { IsErrOf result FormatFault.TooSmall ↔ IsSegmentCount segments
        × IsSectorVersion version × ((D.state device.old).size < segment_start segments) }
    ensures refused { IsErrOf result FormatFault.Inval ⊎ IsErrOf result FormatFault.TooSmall
        → device.new ≡ device.old }
    ensures failed { IsErrOf result FormatFault.Device
        → (D.state device.old).failures < (D.state device.new).failures }
    ensures made { OnOk result
        (HasMade version segments 0 (D.state device.old) (D.state device.new)) }
    ensures making { IsMaking version segments 0 (D.state device.old) (D.state device.new) }
{
    if !is_segment_count(segments) || !is_sector_version(version) {
        return Err(FormatFault::Inval);
    }
    make(
        device,
        NewVolume {
            version,
            segments,
            unit_power: 0,
        },
    )
}

/// Makes the device an empty volume of this shape, as `format_version` does one of versions 1 and 2.
/// One of version 3 stands by the new places: its segments begin at sector 256, the second slot is
/// sector 128, and sector 1 is clear.
///
/// # Errors
///
/// In this order: `Inval` where there is no volume of this shape, `TooSmall` where the device has
/// fewer than 2 + 64 sectors a segment, or in version 3 than 256 + 64 a segment, both with the
/// device as it was, `Device` where a call of the device failed.
pub fn format_with<D: SectorDevice>(device: &mut D, shape: Shape) -> Result<(), FormatFault>
    ensures inval { IsErrOf result FormatFault.Inval ↔ ¬ (IsShape shape) }
    ensures too_small { IsErrOf result FormatFault.TooSmall ↔ IsShape shape
        × (volume_size (places_by shape.version) (D.state device.old).size
        < segment_start shape.segments) }
    ensures refused { IsErrOf result FormatFault.Inval ⊎ IsErrOf result FormatFault.TooSmall
        → device.new ≡ device.old }
    ensures failed { IsErrOf result FormatFault.Device
        → (D.state device.old).failures < (D.state device.new).failures }
    ensures made { OnOk result
        (HasMade shape.version shape.segments (unit_power_of shape.unit)
        (D.state device.old) (D.state device.new)) }
    ensures making { IsMaking shape.version shape.segments (unit_power_of shape.unit)
        (D.state device.old) (D.state device.new) }
{
    if !shape.is_fit() {
        return Err(FormatFault::Inval);
    }
    make(
        device,
        NewVolume {
            version: shape.version,
            segments: shape.segments,
            unit_power: shape.unit_power(),
        },
    )
}

/// What a new volume is to have: this version of the layout, so many segments, and units of 2 to
/// `unit_power` sectors.
#[derive(Clone, Copy)]
struct NewVolume {
    version: u32,
    segments: u32,
    unit_power: u8,
    ghost unit: { unit_power ≤ most_unit_power version },
    ghost known: { IsVersion version },
    ghost count: { IsSegmentCount segments },
}

/// Makes the device that volume, where it has room for it.
fn make<D: SectorDevice>(device: &mut D, volume: NewVolume) -> Result<(), FormatFault>
    ensures valid { IsErrOf result FormatFault.Inval → ⊥ }
    ensures too_small { IsErrOf result FormatFault.TooSmall
        ↔ (volume_size (places_by volume.version) (D.state device.old).size
        < segment_start volume.segments) }
    ensures refused { IsErrOf result FormatFault.TooSmall → device.new ≡ device.old }
    ensures failed { IsErrOf result FormatFault.Device
        → (D.state device.old).failures < (D.state device.new).failures }
    ensures made { OnOk result
        (HasMade volume.version volume.segments volume.unit_power
        (D.state device.old) (D.state device.new)) }
    ensures making { IsMaking volume.version volume.segments volume.unit_power
        (D.state device.old) (D.state device.new) }
{
    if device.sectors() < least_sectors(volume.version, volume.segments) {
        return Err(FormatFault::TooSmall);
    }
    match write_volume(device, volume) {
        Ok(()) => Ok(()),
        Err(DeviceFault) => Err(FormatFault::Device),
    }
}

/// Clears the slots, writes the first chunk and then its checkpoint, each synced before the next.
fn write_volume<D: SectorDevice>(device: &mut D, shape: NewVolume) -> Result<(), DeviceFault>
    requires size { segment_start shape.segments
        ≤ volume_size (places_by shape.version) (D.state device.old).size }
    ensures made { OnOk result
        (HasMade shape.version shape.segments shape.unit_power
        (D.state device.old) (D.state device.new)) }
    ensures making { IsMaking shape.version shape.segments shape.unit_power
        (D.state device.old) (D.state device.new) }
    ensures failed { OnErr result ((D.state device.old).failures < (D.state device.new).failures) }
{
    clear_slots(device)?;
    write_chunk(device, shape)?;
    device.sync()?;
    write_checkpoint(device, shape)?;
    Ok(())
}

/// Clears the sectors at which a slot may stand. The second slot of the new places is durably clear
/// before the others change: else a stop might uncover what a file's block spells there.
fn clear_slots<D: SectorDevice>(device: &mut D) -> Result<(), DeviceFault>
    requires { SECOND_SLOT < (D.state device.old).size }
    ensures any_moment { AreSectors (D.state device.old).unit → (D.state device.new).keeps_model
        → LeavesOnly (D.state device.old) (D.state device.new)
        (ComesFrom (D.state device.old) MayClearSlots) }
    ensures touched { AreSectors (D.state device.old).unit
        → LeavesOnly (D.state device.old) (D.state device.new)
        (ComesFrom (D.state device.old) (SameBut IsCleared)) }
    ensures clear { OnOk result ((D.state device.new).keeps_model
        → AreClear (D.state device.new).content) }
    ensures others { OnOk result ((D.state device.new).keeps_model
        → SameBut IsCleared (D.state device.old).content (D.state device.new).content) }
    ensures durable { OnOk result ((D.state device.new).keeps_model
        → Only (D.state device.new).content (D.state device.new)) }
    ensures ends { EndsWriting (D.state device.old) (D.state device.new) result }
    ensures carries { Carries (D.state device.old) (D.state device.new) }
{
    write_durably(device, SECOND_SLOT, &[0; 512])?;
    device.write(0, &[0; 512])?;
    device.write(1, &[0; 512])?;
    device.sync()?;
    Ok(())
}

/// Writes a sector of the device and syncs.
fn write_durably<D: SectorDevice>(
    device: &mut D,
    sector: u32,
    bytes: &[u8; 512],
) -> Result<(), DeviceFault>
    requires { sector < (D.state device.old).size }
    ensures any_moment { LeavesOnly (D.state device.old) (D.state device.new)
        (ComesFrom (D.state device.old)
        (MayWriteUnit (D.state device.old).unit sector bytes.now)) }
    ensures left { AllLeft (D.state device.new) (ComesFrom (D.state device.old)
        (MayWriteUnit (D.state device.old).unit sector bytes.now)) }
    ensures content { OnOk result ((D.state device.new).keeps_model
        → (D.state device.new).content ≡ put (D.state device.old).content sector bytes.now) }
    ensures durable { OnOk result ((D.state device.new).keeps_model
        → Only (D.state device.new).content (D.state device.new)) }
    ensures ends { EndsWriting (D.state device.old) (D.state device.new) result }
    ensures carries { Carries (D.state device.old) (D.state device.new) }
{
    device.write_around(sector, bytes)?;
    device.sync()?;
    Ok(())
}

/// Writes the first checkpoint to its slot and syncs.
fn write_checkpoint<D: SectorDevice>(device: &mut D, shape: NewVolume) -> Result<(), DeviceFault>
    requires size { segment_start shape.segments
        ≤ volume_size (places_by shape.version) (D.state device.old).size }
    ensures any_moment { LeavesOnly (D.state device.old) (D.state device.new)
        (ComesFrom (D.state device.old) (MayWriteUnit (D.state device.old).unit
        (place_of (places_by shape.version) 1)
        (checkpoint_sector (first_checkpoint shape.version shape.segments shape.unit_power)))) }
    ensures content { OnOk result ((D.state device.new).keeps_model
        → (D.state device.new).content ≡ put (D.state device.old).content
        (place_of (places_by shape.version) 1)
        (checkpoint_sector (first_checkpoint shape.version shape.segments shape.unit_power))) }
    ensures durable { OnOk result ((D.state device.new).keeps_model
        → Only (D.state device.new).content (D.state device.new)) }
    ensures ends { EndsWriting (D.state device.old) (D.state device.new) result }
    ensures carries { Carries (D.state device.old) (D.state device.new) }
{
    let slot = places_by(shape.version).place(1);
    let checkpoint = checkpoint(shape.version, shape.segments, shape.unit_power);
    write_durably(device, slot, &checkpoint.encode())
}

/// Writes the first chunk, which isn't synced then. Where the slots are clear they stay so.
fn write_chunk<D: SectorDevice>(device: &mut D, shape: NewVolume) -> Result<(), DeviceFault>
    requires size { segment_start shape.segments
        ≤ volume_size (places_by shape.version) (D.state device.old).size }
    ensures writes { WritesChunk shape.version shape.segments
        (D.state device.old) (D.state device.new) }
    ensures chunk { OnOk result ((D.state device.new).keeps_model
        → HasChunk shape.version shape.segments shape.unit_power (usage_blocks shape.segments)
        (D.state device.old).content (D.state device.new).content) }
    ensures ends { EndsWriting (D.state device.old) (D.state device.new) result }
{
    write_first_blocks(device, shape)?;
    write_later_usage(device, shape)?;
    Ok(())
}

/// Writes the first chunk as far as its first usage block.
fn write_first_blocks<D: SectorDevice>(device: &mut D, shape: NewVolume) -> Result<(), DeviceFault>
    requires size { segment_start shape.segments
        ≤ volume_size (places_by shape.version) (D.state device.old).size }
    ensures writes { WritesChunk shape.version shape.segments
        (D.state device.old) (D.state device.new) }
    ensures chunk { OnOk result ((D.state device.new).keeps_model
        → HasChunk shape.version shape.segments shape.unit_power 1
        (D.state device.old).content (D.state device.new).content) }
    ensures ends { EndsWriting (D.state device.old) (D.state device.new) result }
{
    write_sector(
        device,
        shape,
        2,
        &summary_block(shape.segments, shape.unit_power),
    )?;
    write_sector(device, shape, INODE, &root_block(shape.version))?;
    write_sector(device, shape, MAP, &map_block())?;
    write_sector(
        device,
        shape,
        USAGE,
        &usage_block(shape.segments, shape.unit_power),
    )?;
    Ok(())
}

/// Writes the other usage blocks: none of their segments is in use.
fn write_later_usage<D: SectorDevice>(device: &mut D, shape: NewVolume) -> Result<(), DeviceFault>
    requires size { segment_start shape.segments
        ≤ volume_size (places_by shape.version) (D.state device.old).size }
    ensures writes { WritesChunk shape.version shape.segments
        (D.state device.old) (D.state device.new) }
    ensures chunk { OnOk result ((D.state device.new).keeps_model → (before : Content)
        → HasChunk shape.version shape.segments shape.unit_power 1 before
        (D.state device.old).content
        → HasChunk shape.version shape.segments shape.unit_power (usage_blocks shape.segments)
        before (D.state device.new).content) }
    ensures ends { EndsWriting (D.state device.old) (D.state device.new) result }
{
    for index in 1..usage_count(shape.segments) {
        write_sector(device, shape, USAGE + index, &[0; 512])?;
    }
    Ok(())
}

/// Writes a sector of the first chunk, at its place on the device.
fn write_sector<D: SectorDevice>(
    device: &mut D,
    shape: NewVolume,
    sector: u32,
    bytes: &[u8; 512],
) -> Result<(), DeviceFault>
    requires size { segment_start shape.segments
        ≤ volume_size (places_by shape.version) (D.state device.old).size }
    requires after { CHECKPOINT_SLOTS ≤ sector }
    requires within { sector < 5 + usage_blocks shape.segments }
    ensures writes { WritesChunk shape.version shape.segments
        (D.state device.old) (D.state device.new) }
    ensures written { OnOk result ((D.state device.new).keeps_model
        → (D.state device.new).content ≡ put (D.state device.old).content
        (place_of (places_by shape.version) sector) bytes.now) }
    ensures ends { EndsWriting (D.state device.old) (D.state device.new) result }
{
    let place = places_by(shape.version).place(sector);
    device.write(place, bytes)?;
    Ok(())
}
