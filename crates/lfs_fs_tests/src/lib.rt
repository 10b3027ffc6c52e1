//! Tests of directories, paths and the calls of a volume, over devices in memory.
#![tactic(auto)]

#[cfg(test)]
mod clean;
#[cfg(test)]
mod damage;
#[cfg(test)]
mod dirs;
#[cfg(test)]
mod fs;
#[cfg(test)]
mod long_names;
#[cfg(test)]
mod path;
#[cfg(test)]
mod record;
#[cfg(test)]
mod record_stops;
#[cfg(test)]
mod remaking;
#[cfg(test)]
mod steps;
#[cfg(test)]
mod stops;
#[cfg(test)]
mod tree;
#[cfg(test)]
mod unlinking;
#[cfg(test)]
mod volume;
