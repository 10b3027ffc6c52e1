//! Values on the heap by their addresses, as C passes them.
#![tactic(auto)]

mod loose;

pub use loose::Loose;
