//! Tests of sources and stations, of the log, of the words of a call, of claims and of what is
//! generated.
//!
//! A crate is proved once for those above it and once more with its tests. So tests that call
//! public functions alone stand in a crate that has nothing else. The modules `sources`
//! and `stations` test `sz_outside`, `groups` tests `sz_log`, `generated` tests `sz_gen`, and the
//! others the crates that they are named for.
#![tactic(auto)]

#[cfg(test)]
mod tests;
