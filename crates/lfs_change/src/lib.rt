//! The commands that change the volumes of images: by calls that are saved, and by files of the host.
#![tactic(auto)]

mod appending;
mod changing;
mod many;
mod putting;
mod removing;

pub use changing::change_volume;
pub use putting::put_into;
