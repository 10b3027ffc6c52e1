//! What an inode says of its file.
ghost use Rattle.std.specs.Prelude.{◌≡◌};
ghost use Rattle.lfs_model.specs.Entry.{header};
ghost use Rattle.lfs_files.specs.Headers.{as_header};

use lfs_files::Header;
use lfs_layout::InodeView;

/// What an inode says of its file, besides where its blocks are.
#[tactic(auto, unfolding(lfs_model::specs::Entry::header))]
pub fn header_of(inode: &[u8; 512]) -> Header
    ensures { header inode.now ≡ as_header result }
{
    let inode = InodeView::new(inode);
    Header {
        kind: inode.kind(),
        form: inode.form(),
        links: inode.links(),
        size: inode.size(),
    }
}
