//! The walk of a path over any tree of directories, files and symbolic links.
ghost use Rattle.std.specs.Prelude.{◌≡◌, true, IfOk, IfErr, IsErrOf};
ghost use Rattle.lfs_files.specs.Files.{Reads};
ghost use Rattle.lfs_path.specs.Reaching.{EndsParent, EndsResolve, IsParent, ResolvesTo};
ghost use Rattle.lfs_path.specs.Telling.{TellsRefusal, Tells};
ghost use Rattle.lfs_path.specs.Trees.{HasTree};
ghost use Rattle.lfs_path.specs.Lasts.{HasLast};

use crate::chain::Chain;
use crate::last::Last;
use crate::split::split_last;
use crate::text::check_text;
use crate::walk_fault::WalkFault;
use crate::walking::walk;
use lfs_files::{Files, LogFault};
use lfs_model::FileNumber;
use std::alloc::Global;

/// The directory that a path's last piece stands in, and that piece, where the path has one.
#[derive(Drop)]
pub struct Place<'a> {
    /// The directory, and those above it.
    pub chain: Chain,
    pub last: Option<Last<'a>>,
}

/// The number of the object that a path gives; `follow` says whether a symbolic link at its end is
/// followed.
///
/// # Errors
///
/// The path's refusal. `NoMemory`; `Log` where the log gives no answer: `Halted` once a write of
/// the log failed, `Device` where a call of the device failed.
pub fn resolve<F: Files>(
    alloc: Global,
    files: &mut F,
    path: &[u8],
    follow: bool,
) -> Result<FileNumber, WalkFault>
    ensures reads { Reads (F.state files.old) (F.state files.new) }
    ensures answer { IfOk result (λ n. Tells (F.state files.old) (F.state files.new) HasTree
        (ResolvesTo path.now follow n.value)) }
    ensures refused { IfErr result (TellsRefusal (F.state files.old) (F.state files.new) HasTree
        (EndsResolve path.now follow)) }
    ensures halted { IsErrOf result (WalkFault.Log LogFault.Halted)
        → (F.state files.old).halted ≡ true }
    ensures other { IsErrOf result (WalkFault.Log LogFault.Full) → ⊥ }
{
    check_text(path)?;
    let mut chain = Chain::root(alloc);
    walk(alloc, files, &mut chain, path, false, follow)
}

/// Walks all pieces of a path but the last.
///
/// # Errors
///
/// As those of `resolve`.
pub fn parent<'a, F: Files>(
    alloc: Global,
    files: &mut F,
    path: &'a [u8],
) -> Result<Place<'a>, WalkFault>
    ensures reads { Reads (F.state files.old) (F.state files.new) }
    ensures last { IfOk result (λ p. HasLast path.now p.last) }
    ensures answer { IfOk result (λ p. Tells (F.state files.old) (F.state files.new) HasTree
        (IsParent path.now p.chain)) }
    ensures refused { IfErr result (TellsRefusal (F.state files.old) (F.state files.new) HasTree
        (EndsParent path.now)) }
    ensures halted { IsErrOf result (WalkFault.Log LogFault.Halted)
        → (F.state files.old).halted ≡ true }
    ensures other { IsErrOf result (WalkFault.Log LogFault.Full) → ⊥ }
{
    check_text(path)?;
    let mut chain = Chain::root(alloc);
    let Some((above, last)) = split_last(path) else {
        return Ok(Place { chain, last: None });
    };
    match walk(alloc, files, &mut chain, above, true, true) {
        Ok(_) => Ok(Place {
            chain,
            last: Some(last),
        }),
        Err(fault) => Err(fault),
    }
}
