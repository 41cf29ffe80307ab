//! The operators that work on cells near one another, cell by cell or block by block.
//!
//! [`Elementwise`] and [`FoldBlocks`] say what differs from one to the other: the value of a cell,
//! and the mapping, each over an operator with its shapes. What any operator at work does is the
//! frame of `sz_frame`, and `sz_ops` chooses among the operators.
//!
//! ```
//! // blocks of 2 by 2 of the rows 1 2 3, 4 5 6 and 7 8 9: the sums are 12 and 9, 15 and 9
//! let at = OpAt::of(Op::Block { fold: Fold::Sum, h: 2, w: 2 }, vec![in alloc; sky.shape()]?)?;
//! let of = FoldBlocks { at: &at, fold: Fold::Sum, h: 2, w: 2 };
//! let sums = run_by(alloc, &Mapped { of, inputs: &[sky] })?;
//! ```
//!
//! A further elementwise operator is a line of `numbers`.
#![tactic(auto)]

mod block;
mod elementwise;
mod numbers;
mod whole;
mod window;

pub use block::FoldBlocks;
pub use elementwise::Elementwise;
