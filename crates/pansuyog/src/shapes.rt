//! Volumes of any shape: one is made, how many sectors it takes, and what a mounted one was made with.
ghost use Rattle.pansuyog_calls.specs.Making.{HasSectors, shape_by};
ghost use Rattle.pansuyog_calls.specs.Telling.{TellsShape};
ghost use Rattle.pansuyog.specs.Making.{MakesFromWith, MakesWith};
ghost use Rattle.pansuyog.specs.Serving.{IsUnchanged};

use crate::handle::{Handle, Source};
use crate::making::{code_of_made, take_device};
use lfs_fs::{Shape, format_with};
use lfs_queue::QueueDevice;
use pansuyog_calls::rows::Shape as ShapeInC;
use pansuyog_calls::shapes;
use std::alloc::Global;

/// Makes an empty volume of a shape on a device.
fn make_with(device: &mut QueueDevice, shape: Shape) -> i32
    ensures { MakesWith shape device.old device.new result }
{
    code_of_made(format_with(device, shape))
}

/// Makes an empty volume of a shape, as `pansuyog_format` makes one of versions 1 and 2. Its orders
/// wait then.
#[unsafe(no_mangle)]
pub extern "C" fn pansuyog_format_with(
    alloc: Global,
    volume: &mut Handle,
    segments: u32,
    version: u32,
    segment_sectors: u32,
    unit: u32,
    room: u32,
) -> i32
    ensures { MakesFromWith (shape_by segments version segment_sectors unit) volume.old.value
        volume.new.value room result }
{
    let volume = volume.volume();
    let mut device = match take_device(alloc, volume, room) {
        Ok(device) => device,
        Err(code) => return code,
    };
    let shape = Shape {
        segments,
        version,
        segment_sectors,
        unit,
    };
    volume.recorder = None;
    let code = make_with(&mut device, shape);
    volume.source = Source::Device(device);
    code
}

/// How many sectors a volume of a shape takes, or 0 where there are none of it.
#[unsafe(no_mangle)]
pub extern "C" fn pansuyog_shape_sectors(
    segments: u32,
    version: u32,
    segment_sectors: u32,
    unit: u32,
) -> u32
    ensures { HasSectors (shape_by segments version segment_sectors unit) result }
{
    let shape = Shape {
        segments,
        version,
        segment_sectors,
        unit,
    };
    shape.sectors()
}

/// What the volume was made with, and the version of its layout.
#[unsafe(no_mangle)]
pub extern "C" fn pansuyog_shape(volume: &mut Handle, out: &mut ShapeInC) -> i32
    ensures tells { TellsShape volume.old.value.fs result out.old out.new }
    ensures same { IsUnchanged volume.old.value volume.new.value }
{
    shapes::shape(&volume.volume().fs, out)
}
