//! The pieces of a text, walked one after the other.
ghost use Rattle.std.specs.Prelude.{◌≡◌, ◌<◌, IfOk, IfErr};
ghost use Rattle.lfs_path.specs.Passing.{EndsText, FitsStop, IsStop, PassesText, StopsAtLink};
ghost use Rattle.lfs_path.specs.Seeing.{EndsAtPiece};
ghost use Rattle.lfs_path.specs.Telling.{Tells, TellsRefusal, WalksOnly};
ghost use Rattle.lfs_path.specs.Trees.{InChain, here};

use crate::chain::Chain;
use crate::seen::{Link, Seen, step};
use crate::text::next_piece;
use crate::walk_fault::WalkFault;
use lfs_files::Files;
use lfs_model::FileNumber;

/// An object that is no directory.
#[derive(Clone, Copy)]
pub enum Met {
    File(FileNumber),
    Symbolic(Link),
}

/// Where the walk of a text stops.
#[derive(Clone, Copy)]
pub enum Stop<'a> {
    /// At a directory: no piece is left.
    Directory,
    /// At a file, or at a link that isn't followed.
    Node(FileNumber),
    /// At a link that is followed; the text behind it.
    Followed(Link, &'a [u8]),
}

/// Walks a text until it ends, or a link is to be followed. A slash end counts as there where
/// `slash_end` says so.
///
/// # Errors
///
/// As those of `step`, and `NotDir`.
pub fn walk_text<'a, F: Files>(
    files: &mut F,
    chain: &mut Chain,
    text: &'a [u8],
    slash_end: bool,
    follow: bool,
) -> Result<Stop<'a>, WalkFault>
    ensures walks { WalksOnly (F.state files.old) (F.state files.new) result }
    ensures fits { IfOk result (FitsStop slash_end) }
    ensures answer { IfOk result (λ stop. Tells (F.state files.old) (F.state files.new)
        (InChain chain.old) (StopsAtLink slash_end follow chain.old text.now chain.new stop)) }
    ensures refused { IfErr result (TellsRefusal (F.state files.old) (F.state files.new)
        (InChain chain.old) (EndsText slash_end follow (here chain.old) text.now)) }
{
    let mut rest = text;
    while let Some((piece, after)) = next_piece(rest) {
        let met = pass(files, chain, piece)?;
        if let Some(met) = met {
            return stop_at(met, after, slash_end, follow);
        }
        rest = after;
    }
    Ok(Stop::Directory)
}

/// Walks one piece: to the directory that it leads to, or an object that is none.
fn pass<F: Files>(files: &mut F, chain: &mut Chain, piece: &[u8]) -> Result<Option<Met>, WalkFault>
    ensures walks { WalksOnly (F.state files.old) (F.state files.new) result }
    ensures answer { IfOk result (λ met. Tells (F.state files.old) (F.state files.new)
        (InChain chain.old) (PassesText piece.now chain.old chain.new met)) }
    ensures refused { IfErr result (TellsRefusal (F.state files.old) (F.state files.new)
        (InChain chain.old) (EndsAtPiece (here chain.old) piece.now)) }
{
    let seen = step(files, chain.directory(), piece)?;
    match seen {
        Seen::Here => Ok(None),
        Seen::Above => {
            chain.ascend();
            Ok(None)
        }
        Seen::Directory(number) => match chain.descend(number) {
            Ok(()) => Ok(None),
            Err(_) => Err(WalkFault::NoMemory),
        },
        Seen::File(number) => Ok(Some(Met::File(number))),
        Seen::Symbolic(link) => Ok(Some(Met::Symbolic(link))),
    }
}

/// What is done at an object that is no directory, with this text left.
fn stop_at(met: Met, rest: &[u8], slash_end: bool, follow: bool) -> Result<Stop<'_>, WalkFault>
    ensures { IsStop slash_end follow rest.now met result }
{
    let left = slash_end || !rest.is_empty();
    match met {
        Met::File(number) => {
            if left {
                Err(WalkFault::NotDir)
            } else {
                Ok(Stop::Node(number))
            }
        }
        Met::Symbolic(link) => {
            if left || follow {
                Ok(Stop::Followed(link, rest))
            } else {
                Ok(Stop::Node(link.number))
            }
        }
    }
}
