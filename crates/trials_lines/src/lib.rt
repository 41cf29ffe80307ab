//! Tests of the lines of a session as they are read and written, of what is held and replied, and
//! of plans.
//!
//! A crate is proved once for those above it and once more with its tests. So tests that call
//! public functions alone stand in a crate that has nothing else. Each module is named for the
//! crate that it tests.
#![tactic(auto)]

#[cfg(test)]
mod catalogue;
#[cfg(test)]
mod planner;
#[cfg(test)]
mod script;
#[cfg(test)]
mod writing;
