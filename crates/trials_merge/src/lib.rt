//! Tests of merging: of a row of cells that is one region, through a call, through a task beside
//! asks, while it is held and by a thread, and of how many kinds small cases have.
//!
//! A crate is proved once for those above it and once more with its tests. So tests that call
//! public functions alone stand in a crate that has nothing else.
#![tactic(auto)]

#[cfg(test)]
mod tests;
