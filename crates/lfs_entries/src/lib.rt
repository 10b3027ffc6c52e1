//! Entries of directories, over any files: the rules of those that are new, old or renamed, what is
//! read of the objects that they give, and how calls draft them.
#![tactic(auto)]

mod bytes;
mod drafting;
mod entry;
mod fault;
mod finding;
mod listing;
mod moving;
mod new_entry;
mod new_name;
mod new_object;
mod old_entry;
mod old_name;
mod reading;
mod renaming;
mod replacing;
mod rows;
mod sizes;
mod widening;

pub use bytes::{draft_bytes, draft_length};
pub use entry::{Entry, Object, is_directory};
pub use fault::EntryFault;
pub use finding::{find_entry, find_object};
pub use lfs_path as path;
pub use listing::{list_entries, list_rows};
pub use moving::{Source, Target, draft_move};
pub use new_entry::check_new_entry;
pub use new_name::{draft_entry, draft_name};
pub use new_object::NewObject;
pub use old_entry::{check_empty, check_old_entry};
pub use old_name::drop_entry;
pub use reading::{read_head, read_link, read_object};
pub use renaming::check_rename;
pub use rows::{ListedEntry, TreeRow};
pub use widening::draft_wide;
