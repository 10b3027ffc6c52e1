//! Files in and out of a volume, and changes of it that are saved: each a fixed list of its calls.
#![tactic(auto)]

mod changing;
mod getting;
mod largest;
pub mod laws;
mod putting;
mod telling;

pub use changing::{clean, clean_some, make_directory, remove, remove_unsaved, rename, upgrade};
pub use getting::{GetFault, get};
pub use largest::directory_cost;
pub use putting::{
    PutFault, UNFINISHED, above_len, check_place, put, put_link_unsaved, put_unsaved,
};
pub use telling::{largest_new_file, slot_of};
