//! The paths of objects, by the first name that leads to each.
ghost use Rattle.lfs_salvage.specs.Telling.{TellsNothing};

use crate::addresses::{Addresses, Object};
use crate::directory::{Entry, list};
use crate::readings::Readings;
use crate::walk::{NUMBERS, ROOT, Walk};
use lfs_device::SectorDevice;
use lfs_model::Kind;
use std::alloc::{AllocError, Global};

/// The first entry that gives a number.
#[derive(Drop)]
struct Above {
    /// 0 where no entry was found.
    directory: u32,
    name: Vec<u8>,
}

/// The first entry of each number, and which objects have a name that was looked for.
#[derive(Drop)]
pub struct Paths {
    above: Vec<Above>,
    /// Directories that have an entry of the name that was looked for.
    holders: Vec<u32>,
}

impl Paths {
    fn new(alloc: Global) -> Result<Paths, AllocError> {
        let mut above = Vec::new(alloc);
        for _ in 0..NUMBERS {
            above.push(Above {
                directory: 0,
                name: Vec::new(alloc),
            })?;
        }
        Ok(Paths {
            above,
            holders: Vec::new(alloc),
        })
    }

    // An entry gives its number for the first time.
    fn set(&mut self, alloc: Global, directory: u32, entry: &Entry) -> Result<(), AllocError> {
        let name = entry.name.as_slice().to_vec(alloc)?;
        if let Some(place) = self.above.get_mut(entry.number as usize) {
            *place = Above { directory, name };
        }
        Ok(())
    }

    /// Directories that have an entry of the name that was looked for.
    pub fn holders(&self) -> &[u32] {
        self.holders.as_slice()
    }

    // The numbers from an object up to the root, which isn't among them. None where the way doesn't
    // come to the root.
    fn way_up(&self, alloc: Global, number: u32) -> Result<Option<Vec<u32>>, AllocError> {
        let mut way = Vec::new(alloc);
        let mut at = number;
        for _ in 0..NUMBERS {
            if at == ROOT {
                return Ok(Some(way));
            }
            way.push(at)?;
            at = match self.above.get(at as usize) {
                Some(above) => above.directory,
                None => 0,
            };
        }
        Ok(None)
    }

    // Puts the name of an object behind a path.
    fn put_name(&self, path: &mut Vec<u8>, number: u32) -> Result<(), AllocError> {
        path.push(b'/')?;
        if let Some(above) = self.above.get(number as usize) {
            path.extend_from_slice(above.name.as_slice())?;
        }
        Ok(())
    }

    /// The path of an object, without a slash for the root. None where no way leads to it.
    ///
    /// # Errors
    ///
    /// Where memory runs out.
    pub fn path_of(&self, alloc: Global, number: u32) -> Result<Option<Vec<u8>>, AllocError> {
        let Some(way) = self.way_up(alloc, number)? else {
            return Ok(None);
        };
        let mut path = Vec::new(alloc);
        for number in way.iter().rev() {
            self.put_name(&mut path, *number)?;
        }
        Ok(Some(path))
    }
}

// Takes in the entries of a directory, and lets the directories among them wait.
fn take_entries(
    alloc: Global,
    paths: &mut Paths,
    walk: &mut Walk,
    directory: u32,
    entries: &[Entry],
    sought: &[u8],
) -> Result<(), AllocError> {
    for entry in entries {
        if entry.name.as_slice() == sought {
            paths.holders.push(directory)?;
        }
        if walk.meet(entry.number) {
            paths.set(alloc, directory, entry)?;
            walk.push(entry.number)?;
        }
    }
    Ok(())
}

// Goes through an object, if it is a directory.
fn open<D: SectorDevice>(
    alloc: Global,
    device: &mut D,
    readings: &mut Readings,
    addresses: &Addresses,
    paths: &mut Paths,
    walk: &mut Walk,
    number: u32,
    sought: &[u8],
) -> Result<(), AllocError>
    ensures { TellsNothing (D.state device.old) (D.state device.new) }
{
    match addresses.object(device, number) {
        Object::There(inode) if inode.kind == Kind::Directory => {
            let listing = list(alloc, device, readings, &inode)?;
            take_entries(
                alloc,
                paths,
                walk,
                number,
                listing.entries.as_slice(),
                sought,
            )
        }
        _ => Ok(()),
    }
}

/// The paths of a volume of so many segments, and the directories that have an entry of a name.
///
/// # Errors
///
/// Where memory runs out.
pub fn read_paths<D: SectorDevice>(
    alloc: Global,
    device: &mut D,
    addresses: &Addresses,
    segments: u32,
    sought: &[u8],
) -> Result<Paths, AllocError>
    ensures { TellsNothing (D.state device.old) (D.state device.new) }
{
    let mut readings = Readings::new(alloc, segments)?;
    let mut paths = Paths::new(alloc)?;
    let mut walk = Walk::from_root(alloc)?;
    for _ in 0..NUMBERS {
        let Some(number) = walk.next_directory() else {
            break;
        };
        open(
            alloc,
            device,
            &mut readings,
            addresses,
            &mut paths,
            &mut walk,
            number,
            sought,
        )?;
    }
    Ok(paths)
}
