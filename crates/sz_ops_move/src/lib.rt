//! The operators that move cells, transpose, slice and lookup, and the one that folds layers.
//!
//! [`Transposition`], [`Slicing`], [`LayerFold`] and [`Matching`] say what differs from one to the
//! next: the value of a cell, and the cells to which it leads, each over an operator with its
//! shapes. What any operator at work does is the frame of `sz_frame`, and `sz_ops` chooses among
//! the operators.
//!
//! ```
//! // of two layers, of the cells 1 2 and 3 and an empty one, the sums are 4 2
//! let at = OpAt::of(Op::FoldLayers { fold: Fold::Sum }, vec![in alloc; sky.shape()]?)?;
//! let of = LayerFold { at: &at, fold: Fold::Sum };
//! let sums = run_by(alloc, &Mapped { of, inputs: &[sky] })?;
//! ```
//!
//! A further operator is a file beside `transpose`. In `single` is what those share of which each
//! cell leads to one cell or none.
#![tactic(auto)]

mod fold_layers;
mod lookup;
mod single;
mod slice;
mod transpose;
mod turning;

pub use fold_layers::LayerFold;
pub use lookup::Matching;
pub use slice::Slicing;
pub use transpose::Transposition;
