//! Tests of the bodies of versions, of the kinds of a log's groups, and of whether what is kept of
//! versions is sound.
//!
//! A crate is proved once for those above it and once more with its tests. So tests that call
//! public functions alone stand in a crate that has nothing else.
#![tactic(auto)]

#[cfg(test)]
mod bodies;
#[cfg(test)]
mod checks;
#[cfg(test)]
mod logs;
