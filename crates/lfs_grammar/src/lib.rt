//! The command line of the program `lfs`: its grammar, its help, and what it asks for.
#![tactic(auto)]

mod grammar;
mod reading;
mod request;

pub use reading::{RequestFault, read_request};
pub use request::{
    Action, Change, ExtentWord, LeftWord, Names, Query, Request, ShapeWords, Source,
};
