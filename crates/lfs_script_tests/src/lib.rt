//! Tests of scripts with readers and writers in memory.
#![tactic(auto)]

#[cfg(test)]
mod scripts;
#[cfg(test)]
mod streams;
#[cfg(test)]
mod volume;
