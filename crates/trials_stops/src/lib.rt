//! Tests of logs in memory: how they are made, raised and checked, also where a disk call fails or
//! the machine stops; sessions on a log, with each disk call failing and with a stop behind each, on
//! logs that were changed or cut, and on logs that are opened again.
//!
//! A crate is proved once for those above it and once more with its tests. So tests that call
//! public functions alone stand in a crate that has nothing else.
#![tactic(auto)]

#[cfg(test)]
mod tests;
