//! Answers along a path: the cells that lead to given cells, or to which they lead, through one
//! node after another.
//!
//! A [`NodeView`] is how the lineage of one node is looked at: by its operator's mapping of cells,
//! by the store of a strategy, or by running the operator again over its inputs. [`answer`] takes a
//! set of cells through one view after another, each with the number of one of its inputs, and
//! tells how each step was taken and how many output cells were looked at by those that were
//! traced.
//!
//! A strategy's store is at hand as a share of the node's stores, `Kept`, or lies on the node's
//! shelf, which other threads use too. `Stored` is a view of a shelf of which its pass saw the
//! seal, and is always told by the strategy. `Building` is one of a shelf that may still be filled,
//! beside the operator and its inputs: its step looks there once, and is told by the strategy where
//! the look found the seal, and as traced exactly where it found none. Its arrays are lent to no
//! pass but one whose look found none, so a step that found the seal is not worked out again. Such
//! a view, and no other, may tell its step in another way when it is asked again. Each of both
//! takes one turn at its shelf for a step. With `Mapped`, `Stored` and `Kept` views alone an answer
//! takes no memory between its first step and its last.
//!
//! An answer goes from bitmap to bitmap, each of a whole shape. [`answer_with`] takes them from a
//! [`Spare`] and puts them back without their cells, so an answer that finds those that it needs
//! costs what it touches, and not the shapes.
//!
//! Two rows of three, turned over by `at`: the cell of row 2 and column 0 comes from that of row 0
//! and column 2.
//!
//! ```
//! let mut views = [NodeView::Mapped { at }];
//! let found = answer(alloc, rt, &mut views, &[0], Dir::Back, &cells, &mut tally)?;
//! // found.cells.runs() == [Run { first: 2, last: 2 }]
//! // found.used.as_slice() == [Used::By(Strategy::Map)], and found.traced == 0
//! ```
//!
//! Contracts see a view as its operator at its shapes, with the node's stores and the strategy
//! where it is kept, with the shelf, the pass and the strategy where it is on a shelf, and with the
//! arrays where it is traced, and say what each view tells of its step. Of a pass they see that it
//! took its turn, and whether it then saw the seal. [`laws`] says that by views of a flow's nodes
//! the answer is the composed relation along the path, and what stays of a view that is asked.
#![tactic(auto)]

mod growing;
pub mod laws;
mod path;
mod spare;
mod steps;
mod used;
mod views;

pub use growing::Growing;
pub use path::{Found, answer, answer_with};
pub use spare::Spare;
pub use used::{Used, UsedList};
pub use views::{NodeRunRef, NodeView};
