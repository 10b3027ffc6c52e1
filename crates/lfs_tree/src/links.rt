//! Stage 13: each inode's links are those of the tree. Stage 14: the tree's need is within the
//! limit.
ghost use Rattle.std.specs.Prelude.{◌↔◌, IsTrue};
ghost use Rattle.lfs_tree.specs.Linking.{AreLinksFit, FitsLinks, FitsSpace};

use crate::headers::Headers;
use crate::slots::is_directory;
use crate::tables::NameTables;
use lfs_files::Header;
use lfs_model::limits::{FILE_NUMBERS, LEAST_NEED, NEED_OF_META, NEED_OF_SEGMENT};

/// Whether an inode has as many links as names, or, of a directory, 2 and one for each directory in
/// it.
fn has_links(found: Option<Header>, count: u16, below: u16) -> bool
    ensures { IsTrue result ↔ FitsLinks found count below }
{
    let Some(header) = found else {
        return true;
    };
    if is_directory(header) {
        return header.links == 2 + u32::from(below);
    }
    header.links == u32::from(count)
}

/// Whether all inodes' links are those of the tree: false where the stage fails.
pub fn stage_links(headers: &Headers, tables: &NameTables) -> bool
    ensures { IsTrue result ↔ AreLinksFit headers.now tables.now }
{
    for number in 0..FILE_NUMBERS {
        if !has_links(
            headers.get(number),
            tables.count(number),
            tables.below(number),
        ) {
            return false;
        }
    }
    true
}

/// Whether so many segments have room for a tree of so many blocks of data and others: false where
/// the stage fails.
pub fn stage_space(data_blocks: u32, meta_blocks: u32, segments: u32) -> bool
    ensures { IsTrue result ↔ FitsSpace data_blocks meta_blocks segments }
{
    let need = u64::from(data_blocks) + NEED_OF_META * u64::from(meta_blocks) + LEAST_NEED;
    need <= NEED_OF_SEGMENT * u64::from(segments)
}
