//! The entries of a directory, in the order of their names' bytes.
ghost use Rattle.std.specs.Prelude.{◌≡◌, OnOk};
ghost use Rattle.std.specs.FinMap.{put};
ghost use Rattle.lfs_model.specs.Tree.{byte_cmp};
ghost use Rattle.lfs_dirs.specs.Listing.{gathered, pairs};

use lfs_model::FileNumber;
use std::alloc::{AllocError, Global};

/// A name in a directory and the number of the file that it gives.
#[derive(Drop)]
pub struct Entry {
    /// 1 to 59 bytes in a directory of form 0, else 1 to 123.
    pub name: Vec<u8>,
    pub number: FileNumber,
}

/// A name with its number comes behind the entries that were gathered from the last slot on.
pub fn push_entry(
    alloc: Global,
    entries: &mut Vec<Entry>,
    name: &[u8],
    number: FileNumber,
) -> Result<(), AllocError>
    ensures { OnOk result (gathered entries.new.items ≡ put byte_cmp name.now number.value
        (gathered entries.old.items)) }
{
    let name = name.to_vec(alloc)?;
    let Ok(()) = entries.push(Entry { name, number }) else {
        return Err(AllocError);
    };
    Ok(())
}

/// Puts entries that were gathered from the last slot on into the order of their names' bytes. Of
/// those of one name the one of the first slot stays.
pub fn put_in_order(entries: &mut Vec<Entry>) -> Result<(), AllocError>
    ensures { OnOk result (pairs entries.new.items ≡ gathered entries.old.items) }
{
    entries.reverse();
    entries.sort_by(|one, other| one.name.cmp(&other.name))?;
    entries.dedup_by(|later, first| later.name == first.name);
    Ok(())
}
