//! A path split at its last piece.
ghost use Rattle.std.specs.Prelude.{◌≡◌, [], IfSome, IfNone};
ghost use Rattle.lfs_model.specs.PathText.{comps};
ghost use Rattle.lfs_path.specs.Lasts.{SplitsLast};

use crate::last::Last;
use crate::text::next_piece;

/// The text before a path's last piece, and that piece, where there is one.
pub fn split_last(path: &[u8]) -> Option<(&[u8], Last<'_>)>
    ensures some { IfSome result (λ parts. SplitsLast path.now parts.0.now parts.1) }
    ensures none { IfNone result (comps path.now ≡ []) }
{
    let mut rest = path;
    while let Some((piece, after)) = next_piece(rest) {
        if next_piece(after).is_none() {
            let above = &path[..path.len() - rest.len()];
            let last = Last {
                name: piece,
                slash: !after.is_empty(),
            };
            return Some((above, last));
        }
        rest = after;
    }
    None
}
