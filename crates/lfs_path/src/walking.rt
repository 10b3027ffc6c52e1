//! The pieces of a path, walked from the root, with symbolic links followed.
ghost use Rattle.std.specs.Prelude.{◌≡◌, [], ◌∷◌, true, IfOk, IfErr};
ghost use Rattle.lfs_path.specs.Reaching.{EndsPath, Reaches};
ghost use Rattle.lfs_path.specs.Telling.{Tells, TellsRefusal, WalksOnly};
ghost use Rattle.lfs_path.specs.Trees.{HasTree, here};

use crate::chain::Chain;
use crate::link::follow_link;
use crate::passing::{Stop, walk_text};
use crate::walk_fault::WalkFault;
use lfs_files::Files;
use lfs_model::FileNumber;
use lfs_model::limits::MOST_FOLLOWED;
use std::alloc::Global;

/// Walks a path from the root to its end. A slash end counts as there where `slash_end` says so;
/// `follow` says whether a link at the end is followed.
///
/// # Errors
///
/// The walk's refusal. `NoMemory`; `Log` where the log gives no answer.
pub fn walk<F: Files>(
    alloc: Global,
    files: &mut F,
    chain: &mut Chain,
    path: &[u8],
    slash_end: bool,
    follow: bool,
) -> Result<FileNumber, WalkFault>
    requires { chain.old ≡ 1 ∷ [] }
    ensures walks { WalksOnly (F.state files.old) (F.state files.new) result }
    ensures last { IfOk result (λ n. slash_end ≡ true → n.value ≡ here chain.new) }
    ensures answer { IfOk result (λ n. Tells (F.state files.old) (F.state files.new) HasTree
        (Reaches slash_end follow path.now chain.new n.value)) }
    ensures refused { IfErr result (TellsRefusal (F.state files.old) (F.state files.new) HasTree
        (EndsPath slash_end follow path.now)) }
{
    let mut text = Vec::new(alloc);
    match text.extend_from_slice(path) {
        Ok(()) => {}
        Err(_) => return Err(WalkFault::NoMemory),
    }
    let mut links = 0;
    loop {
        let (link, rest) = match walk_text(files, chain, text.as_slice(), slash_end, follow) {
            Ok(Stop::Directory) => return Ok(chain.directory()),
            Ok(Stop::Node(number)) => return Ok(number),
            Ok(Stop::Followed(link, rest)) => (link, rest),
            Err(fault) => return Err(fault),
        };
        if links == MOST_FOLLOWED {
            return Err(WalkFault::Loop);
        }
        links += 1;
        text = follow_link(alloc, files, chain, link, rest)?;
    }
}
