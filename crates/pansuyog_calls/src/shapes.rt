//! Volumes of any shape: one is made, and what a mounted one was made with is told.
ghost use Rattle.pansuyog_calls.specs.Making.{MakesWith};
ghost use Rattle.pansuyog_calls.specs.Telling.{IsShape, TellsShape};
ghost use Rattle.pansuyog_calls.specs.Volumes.{MakesFromWith};

use crate::access::Access;
use crate::codes::{ALREADY_MOUNTED, INVAL, NOT_MOUNTED, READ_ONLY, code_of};
use crate::making::code_of_making;
use crate::rows::Shape;
use crate::volume::VolumeIn;
use lfs_device::SectorDevice;
use lfs_fs::{Fs, InVolume};

/// Makes an empty volume of a shape on a device.
fn make_with<D: SectorDevice>(device: &mut D, shape: lfs_fs::Shape) -> i32
    ensures { MakesWith D.state shape device.old device.new result }
{
    code_of_making(lfs_fs::format_with(device, shape))
}

/// Makes an empty volume of a shape on a device on which none is mounted, as `format` makes one of
/// versions 1 and 2.
pub fn format_with<D: SectorDevice>(volume: &mut VolumeIn<D>, shape: lfs_fs::Shape) -> i32
    ensures { MakesFromWith D.state shape volume.old volume.new result }
{
    if volume.fs.is_some() {
        return ALREADY_MOUNTED;
    }
    match (&mut volume.device, volume.access) {
        (Some(device), Access::ReadWrite) => {
            volume.recorder = None;
            make_with(device, shape)
        }
        (Some(_), Access::ReadOnly) => READ_ONLY,
        (None, _) => INVAL,
    }
}

/// The shape of a volume, as C has it.
fn in_c(shape: lfs_fs::Shape) -> Shape
    ensures { IsShape shape result }
{
    Shape {
        segments: shape.segments,
        version: shape.version,
        segment_sectors: shape.segment_sectors,
        unit: shape.unit,
    }
}

/// What the volume was made with, and the version of its layout.
pub fn shape<D: SectorDevice>(fs: &Option<Fs<InVolume<D>>>, out: &mut Shape) -> i32
    ensures tells { TellsShape fs.now result out.old out.new }
{
    match fs {
        Some(fs) => match fs.shape() {
            Ok(shape) => {
                *out = in_c(shape);
                0
            }
            Err(fault) => code_of(fault),
        },
        None => NOT_MOUNTED,
    }
}
