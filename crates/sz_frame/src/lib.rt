//! Stored lineage as values, and the frame of all operators.
//!
//! A [`Region`] is a region pair: output cells, each of which depends on all of some input cells. A
//! [`PayEntry`] keeps a payload, bytes that stand for cells, for some output cells. A
//! [`PieceLineage`] holds those of 64 output cells.
//!
//! The frame: what a run, a trace, the lineage of a piece and an image under a mapping do is
//! written here once, over what differs from one operator to the next, [`AtWork`]. Where one cell
//! or none is related to another, [`add_cell`], [`has_cell`] and [`set_of_cell`] see it as a set.
//!
//! ```
//! // of an operator at work, which says the value and the related cells of one output cell
//! let output = run_by(alloc, &work)?;
//! let lineage = piece_by(alloc, &work, 0, &[Strategy::FullOneB], &mut tally)?;
//! // lineage.regions()[0].out has the first output cell, its `ins` the cells that stand behind it
//! ```
//!
//! To whoever changes this crate: a walk's state is a test, the cells so far added, and each step
//! widens it by one cell (`specs/Walks`, `proofs/walks`). [`laws`] says that the lineages of all
//! pieces stand for exactly the relation.
#![tactic(auto)]

mod folding;
mod frame;
mod groups;
pub mod laws;
mod lineage;
mod mapping;
mod payload;
mod pieces;
mod region;
mod single;
mod walks;

pub use folding::Folding;
pub use frame::{AtWork, at_work, input_of, right_shapes};
pub use lineage::PieceLineage;
pub use mapping::{MapOf, Mapped, Mapping};
pub use payload::{PayEntry, Payload};
pub use pieces::piece_by;
pub use region::{Region, SetList};
pub use single::{add_cell, has_cell, set_of_cell};
pub use walks::{image_by, output_with, run_by, trace_by};
