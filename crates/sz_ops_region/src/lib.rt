//! The operator of connected regions.
//!
//! [`Labelling`] is the operator at work over its input: the label of a cell, and the cells to
//! which it is related. What any operator at work does is the frame of `sz_frame`, and `sz_ops`
//! chooses among the operators. The array's high cells are labelled once, by [`prepare`], and where
//! lineage is to be kept their components are found once, by [`prepare_lineage`]: each is kept
//! once, whatever the number of its cells. [`trace`] adds each of them once.
//!
//! ```
//! // the rows 9 9 0, 0 9 0 and 9 0 0, from 5 on, are numbered 1 1 0, 0 1 0 and 7 0 0
//! let at = OpAt::of(Op::Regions { t: 5 }, vec![in alloc; sky.shape()]?)?;
//! let inputs = [sky];
//! let aid = prepare(alloc, &at, &inputs)?;
//! let numbers = run_prepared(alloc, &at, &inputs, &aid)?;
//! ```
//!
//! The path of the labels, for which no set is made: `links` has the links between cells, by which
//! those that are united get one root, `linking` unites the high cells that are neighbours,
//! `output` writes the label of each cell by its root, and `settling` makes each link the label of
//! its cell, which `cell_labels` keeps.
//!
//! The path of the components goes on from there: `marks` says of each cell what is known of it,
//! `numbering` numbers the components by the labels, `run_lists` makes the runs of each number from
//! the stretches of one mark, `components` keeps a set of each, and `walk` traces. A component of
//! one cell has no number: of it the mark of its cell is all that is kept.
//!
//! What is prepared is either the labels or the components: `aid` tells which, and `calls` goes by
//! it.
#![tactic(auto)]

mod aid;
mod calls;
mod cell_labels;
mod components;
mod linking;
mod links;
mod marks;
mod numbering;
mod output;
mod run_lists;
mod settling;
mod sides;
mod walk;
mod work;

pub use aid::Aid;
pub use calls::{piece, prepare, prepare_lineage, run_prepared, value_at};
pub use components::Components;
pub use output::run;
pub use walk::trace;
pub use work::{Labelling, components_over};
