//! The body of a version's group in a log: which version it is, and its stores.
//!
//! - [`version_body`] writes the body of a version that is held, in format 1 or 2 of logs.
//! - [`take_version_body`] reads the version that a body says, with its stores, over what is held.
//!   What it gives can be added to the catalogue.
//!
//! ```
//! let body = version_body(alloc, &catalogue, version, &stores, 2)?;
//! // over a catalogue that holds its flow and its base arrays, and no version of its number
//! let taken = take_version_body(rt, alloc, &other, &body, 2)?; // taken.number == version
//! ```
//!
//! `IsBodyOf` of `specs/Bodies` is what a body is; `Fit` of `specs/Fitting` is which stores fit a
//! version, and `body_of` what its body says. That bytes are a body in one way only, and that a
//! body that is written is lawful, are laws ([`laws`]); `IsLawful` of `specs/Lawful` has each
//! condition as a test with its name.
//!
//! To whoever changes this crate: a body says no shape. Its cell sets are read between the shapes
//! that its version has, so what a body says is told over the operators at their shapes
//! (`sites_of`). Each part is read by a function that says where the part ends, and where none is
//! there, that none is (`specs/Taking`): no word of a part begins another one of the same part, so
//! what was read in front is what every body says in front. A further condition on a body is a test
//! in `specs/Lawful`, and is known where the part that it is on is read.
#![tactic(auto)]

mod heads;
pub mod laws;
mod lists;
mod nodes;
mod parts;
mod reading;
mod skipping;
mod tries;
mod writing;

pub use reading::{TakeFault, TakenVersion, take_version_body};
pub use writing::version_body;
