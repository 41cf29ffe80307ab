//! What is estimated of a node's operator with a strategy: the degree of the operator, and the
//! table of bytes and costs.

ghost use Rattle.std.specs.Prelude.{◌≡◌, ◌≤◌};
ghost use Rattle.sz_planner.specs.Terms.{true, not, length, is_kernel, is_zero, taps_of, degree_of};
ghost use Rattle.sz_planner.specs.Terms.{estimate};

use sz_spec::{Kernel, Op, OpAt, Strategy};

/// The degree of a node's operator: about how many cells an output cell is related to.
pub(crate) fn degree_of(node: &OpAt) -> u64
    ensures value { result ≡ degree_of node.now }
    ensures few { result ≤ 1048576 }
{
    let shape = node.ins()[0];
    match node.op() {
        Op::Add | Op::Sub | Op::Mul | Op::Min | Op::Max | Op::Lookup => 2,
        Op::Convolve { kernel } => weights_not_0(kernel).max(1),
        Op::Block { fold: _, h, w } => {
            u64::from((*h).min(shape.height())) * u64::from((*w).min(shape.cols))
        }
        Op::Clean { t: _ } => 9,
        Op::Regions { t: _ } => 64,
        Op::FoldLayers { fold: _ } => u64::from(shape.layers),
        _ => 1,
    }
}

/// How many weights of a kernel are not 0.
fn weights_not_0(kernel: &Kernel) -> u64
    requires { is_kernel kernel.now ≡ true }
    ensures value { result ≡ length (taps_of kernel.now) }
    ensures few { result ≤ 81 }
{
    let mut count = 0;
    for weight in kernel.weights() {
        if is_used(*weight) {
            count += 1;
        }
    }
    count
}

/// Whether a weight is not 0.
fn is_used(weight: i64) -> bool
    ensures { result ≡ not (is_zero weight) }
{
    weight != 0
}

/// What a strategy's store takes, in bytes, and what an ask costs in each direction.
#[derive(Clone, Copy)]
pub(crate) struct Estimate {
    pub bytes: u64,
    pub back: u64,
    pub forward: u64,
}

/// The table, for so many output cells and this degree.
pub(crate) fn row_for(size: u64, degree: u64, strategy: Strategy) -> Estimate
    requires size { size ≤ 1048576 }
    requires degree { degree ≤ 1048576 }
    ensures bytes { result.bytes ≡ (estimate size degree strategy).bytes }
    ensures back { result.back ≡ (estimate size degree strategy).back }
    ensures forward { result.forward ≡ (estimate size degree strategy).forward }
    ensures few_bytes { result.bytes ≤ 17592186044416 }
    ensures few_back { result.back ≤ 4194304 }
    ensures few_forward { result.forward ≤ 4194304 }
{
    match strategy {
        Strategy::Map => row_of(0, degree, degree),
        Strategy::FullOneB => row_of(16 * size * degree, 1, size),
        Strategy::FullOneF => row_of(16 * size * degree, size, 1),
        Strategy::FullManyB => row_of(8 * size * degree, 2, size),
        Strategy::FullManyF => row_of(8 * size * degree, size, 2),
        Strategy::PayOne => row_of(16 * size, degree, size),
        Strategy::PayMany => row_of(8 * size, 2 * degree, size),
        Strategy::CompOne => row_of(4 * size, degree, size),
        Strategy::CompMany => row_of(2 * size, 2 * degree, size),
        Strategy::BlackBox => row_of(0, 4 * size, 4 * size),
    }
}

/// A row of the table.
fn row_of(bytes: u64, back: u64, forward: u64) -> Estimate
    ensures bytes { result.bytes ≡ bytes }
    ensures back { result.back ≡ back }
    ensures forward { result.forward ≡ forward }
{
    Estimate {
        bytes,
        back,
        forward,
    }
}
