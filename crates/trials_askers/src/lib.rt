//! Tests of workers and askers beside the lines: no clause can see that threads run, so these do.
//!
//! A crate is proved once for those above it and once more with its tests. So tests that call
//! public functions alone stand in a crate that has nothing else.
#![tactic(auto)]

#[cfg(test)]
mod askers;
#[cfg(test)]
mod merges;
#[cfg(test)]
mod served;
#[cfg(test)]
mod workers;
