//! Sets that have every cell of their shape: for them nothing is searched.

ghost use Rattle.std.specs.Prelude.{◌≡◌};
ghost use Rattle.sz_refresh.specs.Terms.{true, pos, unwrap_or, slice_get, holds, has, Cell};
ghost use Rattle.sz_refresh.specs.Terms.{has_middle, reaches_all};

use sz_cells::CellSet;
use sz_spec::{Kernel, Op};

/// Whether a set has every cell of its shape.
pub(crate) fn is_whole(set: &CellSet) -> bool
    ensures { result ≡ true
        → (c : Cell) → holds set.now.extent c ≡ true → has set.now c ≡ true }
{
    set.count() == set.shape().size()
}

/// Whether each output cell of an operator is related to some cell of an input, whatever the inputs
/// hold. The elementwise operators, of which it is true too, are left out: what a set reaches by
/// them is found by words.
pub(crate) fn reaches_all(op: &Op, number: u32) -> bool
    ensures { result ≡ reaches_all op.now number }
{
    match op {
        Op::Convolve { kernel } => number == 0 && has_middle(kernel),
        Op::Transpose | Op::Slice { .. } | Op::Block { .. } | Op::FoldLayers { .. } => number == 0,
        Op::Lookup | Op::Regions { .. } | Op::Clean { .. } => number == 0,
        _ => false,
    }
}

/// Whether the weight in the middle of a kernel is not 0.
fn has_middle(kernel: &Kernel) -> bool
    ensures { result ≡ has_middle kernel.now }
{
    let rows = u64::from(kernel.rows());
    let cols = u64::from(kernel.cols());
    let middle = rows / 2 * cols + cols / 2;
    middle < rows * cols && weight_at(kernel.weights(), middle as usize) != 0
}

/// The weight of a number, 0 where there is none.
fn weight_at(weights: &[i64], number: usize) -> i64
    ensures { result ≡ unwrap_or (slice_get weights.now number) (pos 0) }
{
    match weights.get(number) {
        Some(weight) => *weight,
        None => 0,
    }
}
