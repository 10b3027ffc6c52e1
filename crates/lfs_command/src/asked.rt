//! What a command line asks for, in the terms of the layers that do it.
use crate::terminals::Terminals;
use lfs_device::Left;
use lfs_grammar::{LeftWord, Query, RequestFault};
use lfs_host::fault::Fault;
use lfs_host::image::Patience;
use lfs_show::listing::{Spelling, Style};
use lfs_show::looking::Look;

// How names are written, on a terminal or elsewhere.
fn spelling_of(terminals: Terminals) -> Spelling {
    if terminals.output {
        Spelling::Shown
    } else {
        Spelling::Word
    }
}

fn style_of(long: bool, null: bool, json: bool, spelling: Spelling) -> Style {
    if json {
        Style::Objects
    } else if long {
        Style::Long(spelling)
    } else if null {
        Style::Raw
    } else {
        Style::Words(spelling)
    }
}

/// The look that a query asks for.
pub fn look_of(query: Query<'_>, terminals: Terminals) -> Look<'_> {
    let spelling = spelling_of(terminals);
    match query {
        Query::Check { json } => Look::Check { json },
        Query::Mount => Look::Mount,
        Query::Tree => Look::Tree(spelling),
        Query::List { long, null, json } => Look::List(style_of(long, null, json, spelling)),
        Query::Cat => Look::Cat,
        Query::Stat { json } => Look::Stat { json },
        Query::Get(file) => Look::Get(file),
        Query::Export(folder) => Look::Export(folder),
        Query::Info { json } => Look::Info { json },
        Query::Free { json: true, .. } => Look::FreeObject,
        Query::Free { human, .. } => Look::Free { human },
    }
}

/// How long a look waits for a writer's end.
pub fn patience_of(wait: bool) -> Patience {
    if wait {
        Patience::Endless
    } else {
        Patience::Impatient
    }
}

/// What a stop is to leave.
pub fn left_of(word: LeftWord) -> Left {
    match word {
        LeftWord::Old => Left::Old,
        LeftWord::New => Left::New,
        LeftWord::Bad => Left::Bad,
    }
}

/// How a command ends whose line asks for nothing.
pub fn fault_of(fault: RequestFault) -> Fault {
    match fault {
        RequestFault::Line(text) => Fault::Line(text),
        RequestFault::Memory(error) => Fault::Memory(error),
    }
}
