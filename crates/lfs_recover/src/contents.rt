//! What the blocks of files and links hold, as far as they can be read.
ghost use Rattle.lfs_salvage.specs.Telling.{TellsNothing};

use lfs_device::SectorDevice;
use lfs_host::host::{HostFault, made};
use lfs_layout::Inode;
use lfs_model::limits::SECTOR_LEN;
use lfs_salvage::{Blocks, Flaw, MOST_STEPS, Piece, Readings};
use std::alloc::{AllocError, AllocFailed, Global};
use std::fs::File;
use std::os::unix::fs::FileExt;

/// The bytes of a block.
const BLOCK_LEN: u64 = SECTOR_LEN as u64;

/// Why the blocks of a file don't come out.
#[derive(Clone, Copy)]
pub enum Stop {
    Memory(AllocError),
    Host(HostFault),
}

impl<T: Drop> From<AllocFailed<T>> for Stop {
    fn from(_failed: AllocFailed<T>) -> Stop {
        Stop::Memory(AllocError)
    }
}

impl From<HostFault> for Stop {
    fn from(fault: HostFault) -> Stop {
        Stop::Host(fault)
    }
}

// Writes a block at its place in a file of the host.
fn write_block(file: &File, block: u32, bytes: &[u8; 512]) -> Result<(), HostFault> {
    made(file.write_all_at(bytes, u64::from(block) * BLOCK_LEN))
}

/// Copies the blocks of a file into one of the host, which gets its size: what is amiss with them.
///
/// # Errors
///
/// Where memory runs out, or the host's file can't be written.
pub fn fill<D: SectorDevice>(
    alloc: Global,
    device: &mut D,
    readings: &mut Readings,
    inode: &Inode,
    file: &File,
) -> Result<Vec<Flaw>, Stop>
    ensures { TellsNothing (D.state device.old) (D.state device.new) }
{
    let mut flaws = Vec::new(alloc);
    let mut blocks = Blocks::new(readings, *inode);
    for _ in 0..MOST_STEPS {
        match blocks.step(device, readings) {
            Some(Piece::Nothing) => {}
            Some(Piece::Block(block, _, bytes)) => write_block(file, block, &bytes)?,
            Some(Piece::Flaw(flaw)) => flaws.push(flaw)?,
            None => break,
        }
    }
    made(file.set_len(u64::from(inode.size)))?;
    Ok(flaws)
}

/// The text of a link.
#[derive(Drop)]
pub struct Text {
    pub bytes: Vec<u8>,
    /// A sector that has bytes past the end of it, or leads there.
    pub past_end: Option<u32>,
}

/// The text of a link, all of whose addresses stand in its inode. None where a block of it isn't
/// there.
///
/// # Errors
///
/// Where memory runs out.
pub fn text_of<D: SectorDevice>(
    alloc: Global,
    device: &mut D,
    readings: &mut Readings,
    inode: &Inode,
) -> Result<Option<Text>, AllocError>
    ensures { TellsNothing (D.state device.old) (D.state device.new) }
{
    let mut bytes = Vec::new(alloc);
    let mut past_end = None;
    let mut blocks = Blocks::new(readings, *inode);
    for _ in 0..MOST_STEPS {
        match blocks.step(device, readings) {
            Some(Piece::Block(_, _, block)) => bytes.extend_from_slice(&block)?,
            Some(Piece::Flaw(Flaw::PastEnd(sector))) => past_end = Some(sector),
            Some(Piece::Nothing | Piece::Flaw(Flaw::Gap(_))) => return Ok(None),
            None => break,
        }
    }
    bytes.truncate(inode.size as usize);
    Ok(Some(Text { bytes, past_end }))
}
