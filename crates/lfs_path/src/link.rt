//! The texts of symbolic links.
ghost use Rattle.std.specs.Prelude.{◌≡◌, ◌<◌, ◌≤◌, IfOk, IfErr, OnOk};
ghost use Rattle.lfs_model.specs.PathText.{from_root};
ghost use Rattle.lfs_path.specs.Following.{Follows, IsReadFault, ReadsText, TakesBytes};
ghost use Rattle.lfs_path.specs.Telling.{WalksOnly};

use crate::chain::Chain;
use crate::seen::Link;
use crate::walk_fault::WalkFault;
use lfs_files::Files;
use lfs_model::FileNumber;
use lfs_model::limits::SECTOR_LEN;
use std::alloc::Global;

/// The bytes of a block.
const BLOCK: u32 = SECTOR_LEN as u32;

/// Follows a link: the text that is left is the link's and behind it what was left, from the root
/// where the link's begins with a slash.
pub fn follow_link<F: Files>(
    alloc: Global,
    files: &mut F,
    chain: &mut Chain,
    link: Link,
    rest: &[u8],
) -> Result<Vec<u8>, WalkFault>
    ensures walks { WalksOnly (F.state files.old) (F.state files.new) result }
    ensures answer { IfOk result (λ text. Follows (F.state files.old) (F.state files.new) link
        rest.now chain.old chain.new text.items) }
    ensures failed { IfErr result (IsReadFault (F.state files.old) (F.state files.new)) }
{
    let mut text = read_text(alloc, files, link)?;
    if begins_with_slash(text.as_slice()) {
        chain.restart();
    }
    match text.extend_from_slice(rest) {
        Ok(()) => Ok(text),
        Err(_) => Err(WalkFault::NoMemory),
    }
}

/// Whether the first byte of a text is a slash.
fn begins_with_slash(text: &[u8]) -> bool
    ensures { result ≡ from_root text.now }
{
    if text.is_empty() {
        return false;
    }
    text[0] == b'/'
}

/// The text of a link.
fn read_text<F: Files>(alloc: Global, files: &mut F, link: Link) -> Result<Vec<u8>, WalkFault>
    ensures walks { WalksOnly (F.state files.old) (F.state files.new) result }
    ensures answer { IfOk result (λ text. ReadsText (F.state files.old) (F.state files.new) link
        text.items) }
    ensures failed { IfErr result (IsReadFault (F.state files.old) (F.state files.new)) }
{
    let size = link.header.size;
    let mut text = Vec::new(alloc);
    for index in 0..size.div_ceil(BLOCK) {
        let count = (size - BLOCK * index).min(BLOCK);
        read_block(files, link.number, index, count as usize, &mut text)?;
    }
    Ok(text)
}

/// Adds the first bytes of a block of an object.
fn read_block<F: Files>(
    files: &mut F,
    number: FileNumber,
    index: u32,
    count: usize,
    text: &mut Vec<u8>,
) -> Result<(), WalkFault>
    requires few { count ≤ SECTOR_LEN }
    ensures walks { WalksOnly (F.state files.old) (F.state files.new) result }
    ensures done { OnOk result (TakesBytes (F.state files.old) (F.state files.new) number.value
        index count text.old.items text.new.items) }
    ensures failed { IfErr result (IsReadFault (F.state files.old) (F.state files.new)) }
{
    let mut block = [0; 512];
    match files.block(number, index, &mut block) {
        Ok(_) => {}
        Err(fault) => return Err(WalkFault::Log(fault)),
    }
    match text.extend_from_slice(&block[..count]) {
        Ok(()) => Ok(()),
        Err(_) => Err(WalkFault::NoMemory),
    }
}
