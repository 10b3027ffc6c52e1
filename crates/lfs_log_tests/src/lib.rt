//! Tests of the log and of files over it, over devices in memory.
#![tactic(auto)]

#[cfg(test)]
mod accepting;
#[cfg(test)]
mod cleaning;
#[cfg(test)]
mod devices;
#[cfg(test)]
mod drafts;
#[cfg(test)]
mod early;
#[cfg(test)]
mod log;
#[cfg(test)]
mod log_steps;
#[cfg(test)]
mod making;
#[cfg(test)]
mod measuring;
#[cfg(test)]
mod pieces;
#[cfg(test)]
mod plain;
#[cfg(test)]
mod random;
#[cfg(test)]
mod recounting;
#[cfg(test)]
mod store;
#[cfg(test)]
mod store_steps;
#[cfg(test)]
mod volume;
#[cfg(test)]
mod wired;
#[cfg(test)]
mod writing;
