//! Tests of cells, of flows and operators as they are stated, of the machine of asks and of trees
//! of rectangles.
//!
//! A crate is proved once for those above it and once more with its tests. So tests that call
//! public functions alone stand in a crate that has nothing else. The module `machine` tests
//! `sz_core`, and the others the crates that they are named for.
#![tactic(auto)]

#[cfg(test)]
mod cells;
#[cfg(test)]
mod machine;
#[cfg(test)]
mod rtree;
#[cfg(test)]
mod spec;
