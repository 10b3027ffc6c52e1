//! The headers of all files.
ghost use Rattle.std.specs.Prelude.{◌≡◌, ◌<◌, ℕ, length, get_or, slice_set, None, IfOk, OnOk, OnErr};
ghost use Rattle.std.specs.Option.{option_map};
ghost use Rattle.lfs_files.specs.Headers.{as_header};
ghost use Rattle.lfs_tree.specs.Reading.{FailsToRead, OfLog, TellsHeaders};
ghost use Rattle.lfs_verify.specs.Keeping.{OnlyLooks};

use crate::reading::read_inode;
use lfs_cache::CachedDevice;
use lfs_device::{DeviceFault, SectorDevice};
use lfs_files::Header;
use lfs_inodes::{InodeMap, header_of};
use lfs_model::limits::FILE_NUMBERS;
use std::alloc::{AllocError, Global};
use std::marker::Model;

/// The headers of all files, by number. Contracts see the list.
#[derive(Drop)]
pub struct Headers {
    headers: Vec<Option<Header>>,
}

impl Model for Headers {
    ghost use Rattle.std.specs.Prelude.{◌≡◌, List, Option, length};
    ghost use Rattle.lfs_files.specs.declared.header.Header.{Header};
    ghost use Rattle.lfs_model.specs.declared.limits.TheConstants.{FILE_NUMBERS};

    ghost Value = { List (Option Header) };

    ghost view = { λ h. h.headers.items };

    ghost invariant = { λ h. length h.headers.items ≡ FILE_NUMBERS };
}

impl Headers {
    /// Headers of no files.
    ///
    /// # Errors
    ///
    /// Where memory runs out.
    pub fn new(alloc: Global) -> Result<Headers, AllocError>
        ensures whole { IfOk result (λ h. length h ≡ FILE_NUMBERS) }
        ensures empty { IfOk result (λ h. (n : ℕ) → n < FILE_NUMBERS → get_or h n None ≡ None) }
    {
        let headers = Vec::from_elem(alloc, None, FILE_NUMBERS as usize)?;
        Ok(Headers { headers })
    }

    /// The header of the file of a number, if that is there.
    pub fn get(&self, number: u16) -> Option<Header>
        requires { number < FILE_NUMBERS }
        ensures { result ≡ get_or self.now number None }
    {
        self.headers[number as usize]
    }

    /// The file of a number has this header, or isn't there.
    fn set(&mut self, number: u16, found: Option<Header>)
        requires { number < FILE_NUMBERS }
        ensures set { self.new ≡ slice_set self.old number found }
        ensures whole { length self.old ≡ FILE_NUMBERS }
    {
        self.headers[number as usize] = found;
    }
}

/// What the inode of a file says of it, if the file is there.
///
/// # Errors
///
/// The fault where a call of the device failed, or the inode can't be read.
fn read_header<D: SectorDevice>(
    device: &mut CachedDevice<D>,
    map: &InodeMap,
    number: u16,
    inode: &mut [u8; 512],
) -> Result<Option<Header>, DeviceFault>
    requires { number < FILE_NUMBERS }
    ensures answer { IfOk result (λ found. OfLog (D.state device.old) (D.state device.new) map.now
        (λ k m. m.header number ≡ option_map as_header found)) }
    ensures failed { OnErr result (OfLog (D.state device.old) (D.state device.new) map.now
        (λ k m. FailsToRead (D.state device.old) (D.state device.new))) }
    ensures keeps { OnlyLooks (D.state device.old) (D.state device.new) result }
{
    if !read_inode(device, map, number, inode)? {
        return Ok(None);
    }
    Ok(Some(header_of(inode)))
}

/// Takes the headers of all files to their places in a table by number.
///
/// # Errors
///
/// The fault where a call of the device failed, or an inode can't be read.
pub fn read_headers<D: SectorDevice>(
    device: &mut CachedDevice<D>,
    map: &InodeMap,
    headers: &mut Headers,
) -> Result<(), DeviceFault>
    ensures told { OnOk result (OfLog (D.state device.old) (D.state device.new) map.now
        (λ k m. TellsHeaders m headers.new FILE_NUMBERS)) }
    ensures failed { OnErr result (OfLog (D.state device.old) (D.state device.new) map.now
        (λ k m. FailsToRead (D.state device.old) (D.state device.new))) }
    ensures keeps { OnlyLooks (D.state device.old) (D.state device.new) result }
{
    let mut inode = [0; 512];
    for number in 0..FILE_NUMBERS {
        let found = read_header(device, map, number, &mut inode)?;
        headers.set(number, found);
    }
    Ok(())
}
