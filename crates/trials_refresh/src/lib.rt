//! Tests of flows that are started, and of refreshed ones beside flows that are started anew.
#![tactic(auto)]

#[cfg(test)]
mod agreed;
#[cfg(test)]
mod asked;
#[cfg(test)]
mod refreshed;
#[cfg(test)]
mod started;
