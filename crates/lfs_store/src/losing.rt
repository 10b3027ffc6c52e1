//! What a file loses in a draft, as reads see it.
ghost use Rattle.std.specs.Prelude.{IsTrue, IsFalse};
ghost use Rattle.lfs_store.specs.Reading.{LosesHeader, LosesBlock, KeepsBlock};

use lfs_cleaner::volume_log::{Header, Loss};

/// The header that a loss leaves a file with, or that it leaves none; `None` where the header
/// stays.
pub fn header_after(loss: &Loss, number: u16) -> Option<Option<Header>>
    ensures { LosesHeader loss.now number result }
{
    match loss {
        Loss::Nothing => None,
        Loss::FirstVersion => None,
        Loss::Blocks(_) => None,
        Loss::Link(link) => {
            if link.number != number {
                return None;
            }
            Some(Some(Header {
                kind: link.kind,
                form: link.form,
                links: 0,
                size: link.size,
            }))
        }
        Loss::File(removal) => {
            if removal.number != number {
                return None;
            }
            Some(None)
        }
    }
}

/// Whether a loss takes a block of a file.
pub fn takes_block(loss: &Loss, number: u16, index: u32) -> bool
    ensures taken { IsTrue result → LosesBlock loss.now number index }
    ensures stays { IsFalse result → KeepsBlock loss.now number index }
{
    match loss {
        Loss::Nothing => false,
        Loss::FirstVersion => false,
        Loss::Blocks(cut) => cut.number == number && cut.first <= index,
        Loss::Link(_) => false,
        Loss::File(removal) => removal.number == number,
    }
}
