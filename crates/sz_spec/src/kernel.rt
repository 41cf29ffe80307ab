//! Kernels: the weights of a convolution.

ghost use Rattle.std.specs.Prelude.{◌≡◌};
ghost use Rattle.sz_spec.specs.Terms.{IfOk, list_all, is_kernel, is_odd_side, is_weight};

use std::alloc::Global;
use std::marker::Model;
use sz_cells::NoMemory;

/// The weights of a convolution, row by row. It holds what it is given: [`Kernel::is_right`] judges
/// it. Contracts see the weights with the numbers of rows and columns.
#[derive(Drop)]
pub struct Kernel {
    rows: u32,
    cols: u32,
    weights: Vec<i64>,
}

impl Model for Kernel {
    ghost use Rattle.sz_spec.specs.Weights.{Weights};

    ghost Value = { Weights };

    ghost view = { λ k. record { rows = k.rows; cols = k.cols; weights = k.weights.items } };
}

impl Kernel {
    /// The kernel of so many rows and columns and these weights, row by row. What was read as rows
    /// of unequal length is made with 0 columns, and is no right kernel.
    pub fn make(rows: u32, cols: u32, weights: Vec<i64>) -> Kernel
        ensures { result ≡ record { rows = rows; cols = cols; weights = weights.items } }
    {
        Kernel {
            rows,
            cols,
            weights,
        }
    }

    /// How many rows the kernel has.
    pub fn rows(&self) -> u32
        ensures { result ≡ self.now.rows }
    {
        self.rows
    }

    /// How many columns the kernel has.
    pub fn cols(&self) -> u32
        ensures { result ≡ self.now.cols }
    {
        self.cols
    }

    /// The weights, row by row.
    pub fn weights(&self) -> &[i64]
        ensures { result.now ≡ self.now.weights }
    {
        &self.weights
    }

    /// An equal kernel. Takes memory for the weights, and time in their number.
    pub fn copy(&self, alloc: Global) -> Result<Kernel, NoMemory>
        ensures { IfOk result (λ copy. copy ≡ self.now) }
    {
        Ok(Kernel {
            rows: self.rows,
            cols: self.cols,
            weights: self.weights.to_vec(alloc)?,
        })
    }

    /// Whether the kernel is odd by odd, at most 9 by 9, and has a weight for each place, each of
    /// which is an i32. Takes time in the number of weights.
    pub fn is_right(&self) -> bool
        ensures { result ≡ is_kernel self.now }
    {
        is_odd_side(self.rows)
            && is_odd_side(self.cols)
            && self.weights.len() == (self.rows * self.cols) as usize
            && are_weights(&self.weights)
    }
}

/// Whether a side of a kernel is odd and at most 9.
fn is_odd_side(side: u32) -> bool
    ensures { result ≡ is_odd_side side }
{
    side % 2 == 1 && side <= 9
}

/// Whether each weight is an i32.
fn are_weights(weights: &[i64]) -> bool
    ensures { result ≡ list_all is_weight weights.now }
{
    weights.iter().all(|weight| is_weight(*weight))
}

/// Whether a weight is an i32.
fn is_weight(weight: i64) -> bool
    ensures { result ≡ is_weight weight }
{
    weight >= i64::from(i32::MIN) && weight <= i64::from(i32::MAX)
}
