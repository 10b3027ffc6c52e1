//! Looks at the volumes of images: what they print, and what they copy to the host.
#![tactic(auto)]

mod copying;
mod describing;
pub mod exporting;
pub mod free;
pub mod listing;
pub mod looking;
mod objects;
mod sparse;
mod steadiness;
mod unfinished;
pub mod viewing;
pub mod walking;
