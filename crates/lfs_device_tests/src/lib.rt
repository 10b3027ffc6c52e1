//! Tests of devices, where volumes are found on them, orders that wait, kept sectors, sectors,
//! checkpoint slots, the walk, segments, inodes and what a log holds in memory.
#![tactic(auto)]

#[cfg(test)]
mod cache;
#[cfg(test)]
mod device;
#[cfg(test)]
mod examples;
#[cfg(test)]
mod helpers;
#[cfg(test)]
mod inodes;
#[cfg(test)]
mod layout;
#[cfg(test)]
mod memory;
#[cfg(test)]
mod queue;
#[cfg(test)]
mod root;
#[cfg(test)]
mod segments;
#[cfg(test)]
mod verify;
#[cfg(test)]
mod victims;
#[cfg(test)]
mod volume;
