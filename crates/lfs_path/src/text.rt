//! The text of paths: their pieces, one after the other.
ghost use Rattle.std.specs.Prelude.{◌≡◌, ◌≤◌, ◌<◌, ◌+◌, not, [], IfSome, IfNone, IfErr, OnOk, None, length, nat_lt};
ghost use Rattle.std.specs.List.{list_any, prefix_len};
ghost use Rattle.lfs_model.specs.PathText as model;
ghost use Rattle.lfs_path.specs.Pieces.{is_slash, is_dots as are_dots, IsNextPiece};
ghost use Rattle.lfs_path.specs.Reaching.{IsTextFault};

use crate::walk_fault::WalkFault;
use lfs_model::limits::LONGEST_PATH;

/// Refuses a path for its text alone.
pub fn check_text(path: &[u8]) -> Result<(), WalkFault>
    ensures taken { OnOk result (model.text_refusal path.now ≡ None) }
    ensures refused { IfErr result (IsTextFault path.now) }
{
    if path.is_empty() {
        return Err(WalkFault::NoEntry);
    }
    if path.len() > LONGEST_PATH {
        return Err(WalkFault::NameTooLong);
    }
    if has_zero(path) {
        return Err(WalkFault::Inval);
    }
    Ok(())
}

fn has_zero(path: &[u8]) -> bool
    ensures { result ≡ list_any (λ c. nat_lt c 1) path.now }
{
    for c in path {
        if *c == 0 {
            return true;
        }
    }
    false
}

/// How many slashes a text begins with.
fn leading_slashes(text: &[u8]) -> usize
    ensures count { result ≡ prefix_len is_slash text.now }
    ensures few { result ≤ length text.now }
{
    for (i, c) in text.iter().enumerate() {
        if *c != b'/' {
            return i;
        }
    }
    text.len()
}

/// The length of what stands before the first slash of a text.
fn piece_length(text: &[u8]) -> usize
    ensures count { result ≡ prefix_len (λ c. not (is_slash c)) text.now }
    ensures few { result ≤ length text.now }
{
    for (i, c) in text.iter().enumerate() {
        if *c == b'/' {
            return i;
        }
    }
    text.len()
}

/// The first piece of a path, and the text behind it.
pub fn next_piece(path: &[u8]) -> Option<(&[u8], &[u8])>
    ensures piece { IfSome result (λ next. IsNextPiece path.now next.0.now next.1.now) }
    ensures none { IfNone result (model.comps path.now ≡ []) }
    ensures within { IfSome result (λ next. 0 < length next.0.now
        × length next.0.now + length next.1.now ≤ length path.now) }
{
    let path = &path[leading_slashes(path)..];
    if path.is_empty() {
        return None;
    }
    Some(path.split_at(piece_length(path)))
}

/// Whether a piece is dot or dot-dot.
pub fn is_dots(piece: &[u8]) -> bool
    ensures { result ≡ are_dots piece.now }
{
    if piece == b".".as_slice() {
        true
    } else {
        piece == b"..".as_slice()
    }
}
