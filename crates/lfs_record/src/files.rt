//! Which entries of the root are a recorder's.
ghost use Rattle.std.specs.Prelude.{◌≡◌, ◌<◌, ◌≤◌, MatchOption, Some, None, map};
ghost use Rattle.std.specs.Bool.{MatchBool};
ghost use Rattle.lfs_fs.specs.Answers.{entry_of};
ghost use Rattle.lfs_record.specs.Files.{count_files, is_file, is_older, is_recorded, newest, oldest};

use crate::names::{is_name, number_of};
use lfs_fs::Entry;
use lfs_model::Kind;

/// Whether it is a file.
pub fn is_file(kind: Kind) -> bool
    ensures { result ≡ is_file kind }
{
    match kind {
        Kind::File => true,
        Kind::Directory | Kind::Link => false,
    }
}

// Whether an entry is a recorder's file.
fn is_recorded(entry: &Entry) -> bool
    ensures { result ≡ is_recorded (entry_of entry.now) }
{
    is_file(entry.kind) && is_name(entry.name.as_slice())
}

// Whether it is one whose number is below this one.
fn is_older(entry: &Entry, number: u32) -> bool
    ensures { result ≡ is_older number (entry_of entry.now) }
{
    is_recorded(entry) && number_of(entry.name.as_slice()) < number
}

/// Whether more of these entries are a recorder's files than are to be kept.
pub fn are_more(entries: &[Entry], kept: u32) -> bool
    ensures { MatchBool result (kept < count_files (map entry_of entries.now))
        (count_files (map entry_of entries.now) ≤ kept) }
{
    let mut left = kept;
    for place in 0..entries.len() {
        if is_recorded(&entries[place]) {
            if left == 0 {
                return true;
            }
            left -= 1;
        }
    }
    false
}

/// The oldest of a recorder's files whose number is below this one.
pub fn oldest(entries: &[Entry], number: u32) -> Option<&Entry>
    ensures { MatchOption result (oldest number (map entry_of entries.now) ≡ None)
        (λ entry. oldest number (map entry_of entries.now) ≡ Some (entry_of entry.now)) }
{
    for place in 0..entries.len() {
        let entry = &entries[place];
        if is_older(entry, number) {
            return Some(entry);
        }
    }
    None
}

/// The newest entry that has a name of a recorder's.
pub fn newest(entries: &[Entry]) -> Option<&Entry>
    ensures { MatchOption result (newest (map entry_of entries.now) ≡ None)
        (λ entry. newest (map entry_of entries.now) ≡ Some (entry_of entry.now)) }
{
    for behind in 0..entries.len() {
        let entry = &entries[entries.len() - 1 - behind];
        if is_name(entry.name.as_slice()) {
            return Some(entry);
        }
    }
    None
}
