//! Tests of the stores of full lineage, by single cells and by sets, and of the tables that they
//! are built of.
//!
//! A crate is proved once for those above it and once more with its tests. So tests that call
//! public functions alone stand in a crate that has nothing else. `one` and `many` are named for
//! the crates that they test, and the others for what they test of `sz_tables`.
#![tactic(auto)]

#[cfg(test)]
mod beside;
#[cfg(test)]
mod entries;
#[cfg(test)]
mod many;
#[cfg(test)]
mod one;
#[cfg(test)]
mod regions;
#[cfg(test)]
mod samples;
#[cfg(test)]
mod tables;
