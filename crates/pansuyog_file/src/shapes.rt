//! Volumes of any shape: one is made, how many sectors it takes, and what a mounted one was made with.
ghost use Rattle.pansuyog_calls.specs.Making.{HasSectors, shape_by};
ghost use Rattle.pansuyog_calls.specs.Telling.{TellsShape};
ghost use Rattle.pansuyog_calls.specs.Volumes.{MakesFromWith};
ghost use Rattle.pansuyog_file.specs.Devices.{file_state};
ghost use Rattle.pansuyog_file.specs.Serving.{IsUnchanged};

use crate::handle::Handle;
use lfs_fs::Shape;
use pansuyog_calls::rows::Shape as ShapeInC;
use pansuyog_calls::shapes;

/// Makes an empty volume of a shape in the file that was taken, as `pansuyog_file_format` makes one
/// of versions 1 and 2.
#[unsafe(no_mangle)]
pub extern "C" fn pansuyog_file_format_with(
    volume: &mut Handle,
    segments: u32,
    version: u32,
    segment_sectors: u32,
    unit: u32,
) -> i32
    ensures { MakesFromWith file_state (shape_by segments version segment_sectors unit)
        volume.old.value.inner volume.new.value.inner result }
{
    let shape = Shape {
        segments,
        version,
        segment_sectors,
        unit,
    };
    shapes::format_with(&mut volume.volume().inner, shape)
}

/// How many sectors a volume of a shape takes, or 0 where there are none of it.
#[unsafe(no_mangle)]
pub extern "C" fn pansuyog_file_shape_sectors(
    segments: u32,
    version: u32,
    segment_sectors: u32,
    unit: u32,
) -> u32
    ensures { HasSectors (shape_by segments version segment_sectors unit) result }
{
    let shape = Shape {
        segments,
        version,
        segment_sectors,
        unit,
    };
    shape.sectors()
}

/// What the volume was made with, and the version of its layout.
#[unsafe(no_mangle)]
pub extern "C" fn pansuyog_file_shape(volume: &mut Handle, out: &mut ShapeInC) -> i32
    ensures tells { TellsShape volume.old.value.inner.fs result out.old out.new }
    ensures same { IsUnchanged volume.old.value volume.new.value }
{
    shapes::shape(&volume.volume().inner.fs, out)
}
