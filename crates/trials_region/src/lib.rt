//! Tests of the sets, region pairs and entries of a piece's lineage, as they are written and read,
//! and of their short forms.
//!
//! A crate is proved once for those above it and once more with its tests. So tests that call
//! public functions alone stand in a crate that has nothing else.
#![tactic(auto)]

#[cfg(test)]
mod region;
#[cfg(test)]
mod short;
#[cfg(test)]
mod stores;
