//! Tests of operators through their one entry, and of answers along a path.
//!
//! A crate is proved once for those above it and once more with its tests. So tests that call
//! public functions alone stand in a crate that has nothing else. Each module is named for the
//! crate that it tests.
#![tactic(auto)]

#[cfg(test)]
mod ops;
#[cfg(test)]
mod query;
