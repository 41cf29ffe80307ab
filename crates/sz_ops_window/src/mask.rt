//! Kernels that are lent: weights round a middle.

ghost use Rattle.std.specs.Prelude.{◌≡◌, ◌<◌, ◌*◌};
ghost use Rattle.sz_ops_window.specs.Terms.{true, not, is_kernel, is_weight, is_zero, tap_at, one};
ghost use Rattle.sz_ops_window.specs.Terms.{nine};

use std::marker::Model;
use sz_spec::Kernel;

/// Weights row by row, in an odd number of rows and of columns, at most nine, each weight an i32.
/// Contracts see a kernel.
#[derive(Drop)]
pub(crate) struct Mask<'a> {
    pub(crate) rows: u32,
    pub(crate) cols: u32,
    pub(crate) weights: &'a [i64],
}

impl<'a> Model for Mask<'a> {
    ghost use Rattle.std.specs.Prelude.{◌≡◌, true};
    ghost use Rattle.sz_spec.specs.Weights.{Weights, is_kernel};

    ghost Value = { Weights };

    ghost view = { λ m. record { rows = m.rows; cols = m.cols; weights = m.weights.now } };

    ghost invariant = { λ m.
        is_kernel (record { rows = m.rows; cols = m.cols; weights = m.weights.now }) ≡ true };
}

/// The weight of a cell alone.
const ONE: [i64; 1] = [1];

/// The weights of the nine cells of a square.
const NINE: [i64; 9] = [1, 1, 1, 1, 1, 1, 1, 1, 1];

impl<'a> Mask<'a> {
    /// The weights of a kernel.
    pub(crate) fn of(kernel: &'a Kernel) -> Mask<'a>
        requires { is_kernel kernel.now ≡ true }
        ensures { result ≡ kernel.now }
    {
        Mask {
            rows: kernel.rows(),
            cols: kernel.cols(),
            weights: kernel.weights(),
        }
    }

    /// A cell alone.
    pub(crate) fn one() -> Mask<'a>
        ensures { result ≡ one }
    {
        Mask {
            rows: 1,
            cols: 1,
            weights: &ONE,
        }
    }

    /// The nine cells of a square.
    pub(crate) fn nine() -> Mask<'a>
        ensures { result ≡ nine }
    {
        Mask {
            rows: 3,
            cols: 3,
            weights: &NINE,
        }
    }

    /// The weight of a number.
    pub(crate) fn weight(&self, number: u32) -> i64
        requires { number < self.now.rows * self.now.cols }
        ensures value { result ≡ (tap_at self.now number).weight }
        ensures small { is_weight result ≡ true }
    {
        self.weights[number as usize]
    }

    /// Whether the weight of a number is not 0.
    pub(crate) fn is_used(&self, number: u32) -> bool
        requires { number < self.now.rows * self.now.cols }
        ensures { result ≡ not (is_zero (tap_at self.now number).weight) }
    {
        self.weights[number as usize] != 0
    }
}

/// Every mask is a kernel.
pub(crate) fn a_mask_is_a_kernel(mask: &Mask<'_>)
    ensures { is_kernel mask.now ≡ true }
{
    let _ = &mask.rows;
}
