//! Tests of whole sessions: each row is a text, and the replies that are said of it; and how a
//! session ends.
//!
//! A crate is proved once for those above it and once more with its tests. So tests that call
//! public functions alone stand in a crate that has nothing else.
#![tactic(auto)]

#[cfg(test)]
mod tests;
