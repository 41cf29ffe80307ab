//! Selective refresh: what changes if some cells of one base array were others, and only that is
//! computed again.
//!
//! [`refresh`] takes the runs of a flow and base arrays that differ, at most in some cells of one
//! of them, from those that the flow was run over. It gives the runs over the new arrays, as a run
//! of the whole flow would, and the cells of each node that it computed: those that a changed cell
//! reaches by the relation of the old arrays or by that of the new ones. All others are copied.
//!
//! Of the row 9 0 9, labelled from 5 on, let the middle cell become 8. It was related to itself
//! alone, and now all three cells are one region:
//!
//! ```
//! let refreshed = refresh(&rt, alloc, &flow, &runs, &[after], 0, &middle, &mut tally)?;
//! // refreshed.runs[0].out.cells() == [Some(1), Some(1), Some(1)]
//! // refreshed.affected[0].count() == 3, and tally.count() == 3
//! ```
//!
//! [`laws`] says why the others may be copied: a cell that is not affected keeps its value.
//!
//! What is affected is found in `reached`: by a mapping's image; of a cleaning near the changed
//! cells (`near`); of regions by their labels (`labels`) and of a lookup by its keys, which are
//! numbers that name cells (`named`); and of a set of all cells without a search (`whole`). What
//! each cell of a set adds to another set is added in `each`.
#![tactic(auto)]

mod each;
mod flow;
mod labels;
pub mod laws;
mod named;
mod near;
mod node;
mod output;
mod reached;
mod whole;

pub use flow::{Refreshed, refresh};
