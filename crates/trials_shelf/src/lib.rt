//! Tests of shelves: what each call answers on a shelf of two pieces, that its stores are shared,
//! that threads use it side by side, and how a step of a path by a view of it is told.
//!
//! A crate is proved once for those above it and once more with its tests. So tests that call
//! public functions alone stand in a crate that has nothing else.
#![tactic(auto)]

#[cfg(test)]
mod tests;
