// What a memory device keeps of each sector, and what only clauses see.
ghost use Rattle.std.specs.Prelude.{◌≡◌, ◌+◌, ◌∷◌, List, None};
ghost use Rattle.lfs_device.specs.declared.rows.Row.{Row};
ghost use Rattle.lfs_device.specs.Rows.{states_of, count, chosen_row, chosen_rows, stands_at};

use std::mem;
use std::snapshot::Snapshot;

/// A sector: what a read gives, what it held at the last sync that succeeded, and the bytes of the
/// last write since.
#[derive(Clone, Copy)]
pub(crate) struct Row {
    pub(crate) present: Option<[u8; 512]>,
    pub(crate) synced: Option<[u8; 512]>,
    pub(crate) written: Option<[u8; 512]>,
}

/// The states that a device has been in. It is never kept: a `Snapshot` of it takes no memory.
#[derive(Drop)]
pub(crate) enum Past {
    Start,
    Then(Snapshot<Vec<Row>>, Snapshot<Past>),
}

/// A number for clauses, which has no last value. It is never kept either.
#[derive(Drop)]
pub(crate) enum Count {
    Zero,
    Next(Snapshot<Count>),
}

// What only clauses see takes no memory, and what is kept of a sector takes little.
const _: () = prove!(size_of::<Snapshot<Past>>() == 0);

const _: () = prove!(size_of::<Snapshot<Count>>() == 0);

const _: () = prove!(size_of::<Row>() <= 1600);

pub(crate) fn note(rows: &Vec<Row>, past: &mut Snapshot<Past>)
    ensures { states_of past.new.value ≡ rows.now.items ∷ states_of past.old.value }
{
    let before = mem::replace(past, Snapshot::of(&Past::Start));
    *past = Snapshot::of(&Past::Then(Snapshot::of(rows), before));
}

pub(crate) fn add_one(number: &mut Snapshot<Count>)
    ensures { count number.new.value ≡ count number.old.value + 1 }
{
    let before = mem::replace(number, Snapshot::of(&Count::Zero));
    *number = Snapshot::of(&Count::Next(before));
}

/// What a stop leaves of an unsynced sector, unless it spoils the sector's unit.
#[derive(Clone, Copy, Debug, PartialEq, Eq)]
pub enum Left {
    /// What it held at the last sync that succeeded.
    Old,
    /// The bytes of the last write to it since, done or failed.
    New,
    /// Nothing that can be read. That spoils its unit: no other sector of it can be read either.
    Bad,
}

fn choose_row(row: Row, choices: &[Left], rest: Left) -> (Row, &[Left])
    ensures { (rows : List Row) → chosen_rows choices.now rest
        (row ∷ rows) ≡ result.0 ∷ chosen_rows result.1.now rest rows }
{
    if row.written.is_none() {
        return (stands(row.present), choices);
    }
    match choices {
        [choice, others @ ..] => (choose(row, *choice), others),
        [] => (choose(row, rest), choices),
    }
}

pub(crate) fn stands(cell: Option<[u8; 512]>) -> Row
    ensures { result ≡ stands_at cell }
{
    Row {
        present: cell,
        synced: cell,
        written: None,
    }
}

/// The sector stays unsynced where its unit is to be spoilt.
fn choose(row: Row, choice: Left) -> Row
    ensures { result ≡ chosen_row choice row }
{
    match choice {
        Left::Old => stands(row.synced),
        Left::New => stands(row.written),
        Left::Bad => row,
    }
}

/// A choice for each unsynced sector in order, and one for those past the list.
pub(crate) fn choose_rows(rows: &mut Vec<Row>, choices: &[Left], rest: Left)
    ensures { rows.new.items ≡ chosen_rows choices.now rest rows.old.items }
{
    let mut left = choices;
    for row in rows.iter_mut() {
        let (next, others) = choose_row(*row, left, rest);
        *row = next;
        left = others;
    }
}
