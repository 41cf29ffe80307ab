//! The operators that make a cell of a window of cells round it, convolve and clean.
//!
//! A window never reaches into another layer. [`Convolution`] and [`Cleaning`] say what differs
//! from one to the other: the value of a cell, and the cells to which it leads, each over an
//! operator with its shapes. What any operator at work does is the frame of `sz_frame`, and
//! `sz_ops` chooses among the operators.
//!
//! ```
//! // the rows 1 2 and 300 4, cleaned from 100 on, are 1 2 and 1 4
//! let at = OpAt::of(Op::Clean { t: 100 }, vec![in alloc; sky.shape()]?)?;
//! let cleaned = run_by(alloc, &Cleaning { at: &at, inputs: &[sky], t: 100 })?;
//! ```
#![tactic(auto)]

mod clean;
mod convolve;
mod mask;
mod sweep;
mod under;
mod window;

pub use clean::Cleaning;
pub use convolve::Convolution;
