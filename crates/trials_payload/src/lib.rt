//! Tests of the stores of payload and composite lineage, and of the stores of a node.
//!
//! A crate is proved once for those above it and once more with its tests. So tests that call
//! public functions alone stand in a crate that has nothing else.
#![tactic(auto)]

#[cfg(test)]
mod entries;
#[cfg(test)]
mod stores;
