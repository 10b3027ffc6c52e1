//! How large directories are.
ghost use Rattle.std.specs.Prelude.{◌<◌, ◌-◌, ◌*◌, IsFalse, IsTrue};
ghost use Rattle.lfs_model.specs.Tree.{slot_len};
ghost use Rattle.lfs_entries.specs.Sizes.{TakesOneMore, IsSmall};

use lfs_files::Header;
use lfs_layout::slot_len;
use lfs_model::limits::MOST_ENTRIES;

/// Whether a directory of this header takes no further entry.
pub fn is_full(header: Header) -> bool
    ensures full { IsTrue result → (MOST_ENTRIES - 1) * slot_len header.form < header.size }
    ensures room { IsFalse result → TakesOneMore header }
{
    header.size > (MOST_ENTRIES - 1) * slot_len(header.form)
}

/// Whether it has more bytes than a directory of a volume may have.
pub fn is_too_large(header: Header) -> bool
    ensures large { IsTrue result → MOST_ENTRIES * slot_len header.form < header.size }
    ensures fits { IsFalse result → IsSmall header }
{
    header.size > MOST_ENTRIES * slot_len(header.form)
}
