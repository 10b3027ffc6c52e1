//! When a log map may be changed by a draft: the laws of its definitions, each the contract of a
//! function that does nothing.
ghost use Rattle.lfs_store.specs.Drafting.{NothingApart, LinkApart, BlocksApart, FileApart, DraftEmpty};

/// What is lost is apart from all files of which it takes nothing.
pub fn loss_apart()
    ensures nothing { NothingApart }
    ensures link { LinkApart }
    ensures blocks { BlocksApart }
    ensures file { FileApart }
{}

/// An empty draft changes nothing.
pub fn draft_empty()
    ensures { DraftEmpty }
{}
