//! Tests of a put on a device that stops, and of the example over the library.
#![tactic(auto)]

#[cfg(test)]
mod example;
#[cfg(test)]
mod stops;
