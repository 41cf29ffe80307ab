//! Short forms: numbers of one to five bytes, cell sets whose runs are spelled by such numbers, and
//! stores with such sets.
//!
//! [`put_set_2`] and [`take_set_2`] write and read the short bytes of a cell set. [`shorten_full`]
//! and [`shorten_pay`] read a store and append its short form, [`widen_full`] and [`widen_pay`] do
//! the converse. `docs/FORMATS.md` describes these bytes. Of 3 rows and 4 columns, the set of the
//! runs 5 to 7 and 10 to 10 has 5 bytes, where `sz_region::put_set` spells it with 20:
//!
//! ```
//! put_set_2(&set, &mut bytes)?;                   // 02 05 02 01 00
//! let (again, next) = take_set_2(alloc, shape, &bytes, 0)?;
//! // again has the same cells, and next == 5
//! ```
//!
//! [`laws`] says what may be taken for granted: a number and a set have one spelling each, and no
//! spelling begins another.
//!
//! To whoever changes this crate: a short number is its lowest seven bits and, where there are
//! more, the short number of the rest, so `specs/ShortNumber` and the code go down by one byte at a
//! time. A store is spelled again part by part, and the one of both forms that has no short sets is
//! judged by the readers of `sz_frame`, so which stores there are is said there alone.
#![tactic(auto)]

mod full;
pub mod laws;
mod numbers;
mod parts;
mod pay;
mod sets;
#[cfg(test)]
mod tests;
mod ways;

pub use full::{shorten_full, widen_full};
pub use pay::{shorten_pay, widen_pay};
pub use sets::{put_set_2, take_set_2};
