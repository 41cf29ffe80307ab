//! The family of operators: how many inputs each takes, and which parameters are right.

ghost use Rattle.std.specs.Prelude.{◌≡◌};
ghost use Rattle.sz_spec.specs.Terms.{IfOk, arity, has_right_parameters};

use crate::kernel::Kernel;
use std::alloc::Global;
use sz_cells::NoMemory;

/// An operator of a flow: it makes one array of its inputs. An empty cell of an input gives an
/// empty cell where nothing else is said, and so does a number that is no i64. Each takes one input
/// where two are not said.
#[derive(Drop)]
pub enum Op {
    /// Each cell negated.
    Neg,
    /// The absolute value of each cell.
    Abs,
    /// Each cell plus `k`.
    AddK { k: i64 },
    /// Each cell times `k`.
    MulK { k: i64 },
    /// Each cell, `lo` where it is below that, and `hi` where it is above that. `lo` is at most
    /// `hi`.
    Clip { lo: i64, hi: i64 },
    /// Two inputs of one shape, added cell by cell.
    Add,
    /// The first of two inputs of one shape less the second.
    Sub,
    /// Two inputs of one shape, multiplied cell by cell.
    Mul,
    /// The lesser of each two cells of two inputs of one shape.
    Min,
    /// The greater of each two cells of two inputs of one shape.
    Max,
    /// Rows and columns of each layer exchanged.
    Transpose,
    /// `h` rows from `r0` on and `w` columns from `c0` on, of each layer. Neither `h` nor `w` is 0.
    Slice { r0: u32, c0: u32, h: u32, w: u32 },
    /// The sum of the cells under the kernel's weights that are not 0, each times its weight,
    /// within each layer. The kernel is odd by odd and at most 9 by 9, and its weights are i32.
    Convolve { kernel: Kernel },
    /// Blocks of `h` rows and `w` columns of each layer folded. The last ones may be smaller.
    /// Neither `h` nor `w` is 0.
    Block { fold: Fold, h: u32, w: u32 },
    /// The table's cell in the column that the first input's cell names. The second input, the
    /// table, has one row.
    Lookup,
    /// 1 plus the least index of the region of connected cells of at least `t`, 0 on any other
    /// cell, in each layer.
    Regions { t: i64 },
    /// Each cell of at least `t` replaced by the least number round it, in its layer, that is below
    /// `t`.
    Clean { t: i64 },
    /// The cells of all layers at one place folded.
    FoldLayers { fold: Fold },
}

impl Op {
    /// An equal operator. Takes memory for the weights of a kernel alone, and time in their number.
    pub fn copy(&self, alloc: Global) -> Result<Op, NoMemory>
        ensures { IfOk result (λ copy. copy ≡ self.now) }
    {
        Ok(match self {
            Op::Neg => Op::Neg,
            Op::Abs => Op::Abs,
            Op::AddK { k } => Op::AddK { k: *k },
            Op::MulK { k } => Op::MulK { k: *k },
            Op::Clip { lo, hi } => Op::Clip { lo: *lo, hi: *hi },
            Op::Add => Op::Add,
            Op::Sub => Op::Sub,
            Op::Mul => Op::Mul,
            Op::Min => Op::Min,
            Op::Max => Op::Max,
            Op::Transpose => Op::Transpose,
            Op::Slice { r0, c0, h, w } => Op::Slice {
                r0: *r0,
                c0: *c0,
                h: *h,
                w: *w,
            },
            Op::Convolve { kernel } => Op::Convolve {
                kernel: kernel.copy(alloc)?,
            },
            Op::Block { fold, h, w } => Op::Block {
                fold: *fold,
                h: *h,
                w: *w,
            },
            Op::Lookup => Op::Lookup,
            Op::Regions { t } => Op::Regions { t: *t },
            Op::Clean { t } => Op::Clean { t: *t },
            Op::FoldLayers { fold } => Op::FoldLayers { fold: *fold },
        })
    }
}

/// How many inputs an operator takes: 1 or 2.
pub fn arity(op: &Op) -> u32
    ensures { result ≡ arity op.now }
{
    match op {
        Op::Add | Op::Sub | Op::Mul | Op::Min | Op::Max | Op::Lookup => 2,
        _ => 1,
    }
}

/// Whether an operator's parameters keep their rules, which stand at [`Op`]. Takes time in the
/// number of a kernel's weights.
pub fn has_right_parameters(op: &Op) -> bool
    ensures { result ≡ has_right_parameters op.now }
{
    match op {
        Op::Clip { lo, hi } => lo <= hi,
        Op::Slice { r0: _, c0: _, h, w } => *h >= 1 && *w >= 1,
        Op::Convolve { kernel } => kernel.is_right(),
        Op::Block { fold: _, h, w } => *h >= 1 && *w >= 1,
        _ => true,
    }
}

/// How the numbers of several cells become one.
#[derive(Clone, Copy, Debug, PartialEq, Eq)]
pub enum Fold {
    /// Their sum, empty where there are none or the sum is no i64.
    Sum,
    /// The least of them, empty where there are none.
    Min,
    /// The greatest of them, empty where there are none.
    Max,
    /// How many there are.
    Count,
}
