//! Images of volumes in files and block devices, files of the host, and why a command ends.
#![tactic(auto)]

mod asking;
mod cause;
pub mod fault;
pub mod folder;
pub mod foreign;
pub mod host;
pub mod image;
pub mod making;
mod mounts;
mod new_image;
mod physical;
pub mod printing;
mod reason;
pub mod shape;
