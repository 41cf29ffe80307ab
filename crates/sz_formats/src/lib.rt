//! The stores of a node in the bytes of a log's format, 1 or 2.
//!
//! - [`put_stores`] writes the stores of a node, and [`take_stores`] reads them again.
//!
//! ```
//! put_stores(alloc, 2, &store, &mut bytes)?;
//! let (again, next) = take_stores(&rt, alloc, 2, op, &list, &bytes, 0)?;
//! // again keeps what store keeps, and next == bytes.len()
//! ```
//!
//! `BeginEachIn` of `specs/Words` is what stands where: in format 1 the bytes that `sz_store` has,
//! and in format 2 the same bytes with short cell sets in the tables of sets and of output sets.
//! That one list of stores begins at most, in either format, is a law ([`laws`]).
//!
//! To whoever changes this crate: stores of format 2 go through the bytes of format 1, so which
//! stores there are is said by `sz_store` alone. `AreTwice` of `specs/Twice` is that stores stand
//! in two lists of bytes, with their sets in either spelling; where one of the two begins stores,
//! so does the other, and they keep the same.
#![tactic(auto)]

pub mod laws;
mod respelling;
mod stores;

pub use stores::{put_stores, take_stores};
