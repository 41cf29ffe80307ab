//! Block: windows of each layer, laid side by side, each folded into one cell. The last ones of a
//! layer may be shorter.

ghost use Rattle.std.specs.Prelude.{◌≡◌, ℕ, ◌+◌, ◌*◌, ◌/◌, ◌<◌, ◌≤◌, [], ◌∷◌, true, IfOk, length};
ghost use Rattle.std.specs.Prelude.{Some, ◌==◌, ◌&&◌, nat_le, nat_lt, map};
ghost use Rattle.std.specs.Arc.{arc_value};
ghost use Rattle.sz_cells.specs.declared.Cell.{Cell};
ghost use Rattle.sz_cells.specs.Extent.{holds, height_of};
ghost use Rattle.sz_cells.specs.Cells.{any_cell, cells_where, with_those};
ghost use Rattle.sz_spec.specs.declared.op.Op.TheVariants.{Block};
ghost use Rattle.sz_spec.specs.Values.{extent_at};
ghost use Rattle.sz_spec.specs.Lineage.{mapped, mapped_between};
ghost use Rattle.sz_spec.specs.Work.{IsAtWork};
ghost use Rattle.sz_spec.specs.Evaluation.{output_of, value_of};
ghost use Rattle.sz_spec.specs.Operators.Folds.{blocks_over};
ghost use Rattle.sz_frame.specs.Single.{IsOnly};
ghost use Rattle.sz_ops_local.specs.Windows.{is_in, IsWindow, IsBlocked};

use crate::window;
use crate::window::{Window, add, fold};
use std::alloc::Global;
use std::sync::Arc;
use sz_cells::laws::a_shape_is_within_limits;
use sz_cells::{Cell, CellBits, CellSet, NoMemory, Shape};
use sz_frame::{Mapped, Mapping, add_cell, input_of, run_by};
use sz_spec::{Array, Fold, OpAt, Value};

/// A fold of blocks between its shapes.
#[derive(Drop)]
pub struct FoldBlocks<'a> {
    pub at: &'a OpAt,
    pub fold: Fold,
    pub h: u32,
    pub w: u32,
    ghost kind: { at.now.op ≡ Block fold h w },
}

impl<'a> Mapping for FoldBlocks<'a> {
    ghost site = { λ b. b.at.now };

    fn at(&self) -> &OpAt {
        self.at
    }

    fn value(&self, inputs: &[Arc<Array>], out: Cell, _index: u32) -> Value {
        self.at.ins(); // there is one input
        let input = input_of(self.at, inputs, 0);
        value(self.at, self.fold, self.h, self.w, input, out)
    }

    fn back_into(&self, out: Cell, input: u32, to: &mut CellBits) {
        back_into(self.at, self.fold, self.h, self.w, out, input, to);
    }

    fn forward_into(&self, cell: Cell, input: u32, to: &mut CellBits) {
        forward_into(self.at, self.fold, self.h, self.w, cell, input, to);
    }

    fn meets(&self, out: Cell, input: u32, from: &CellBits) -> bool {
        meets(self.at, self.fold, self.h, self.w, out, input, from)
    }

    fn mapped_set(&self, alloc: Global, out: Cell, input: u32) -> Result<Arc<CellSet>, NoMemory> {
        set(alloc, self.at, self.fold, self.h, self.w, out, input)
    }
}

impl<'a> FoldBlocks<'a> {
    /// The output over these inputs, cell by cell.
    pub fn run(self, alloc: Global, inputs: &[Arc<Array>]) -> Result<Array, NoMemory>
        requires { IsAtWork self.at.now (map (λ a. arc_value a) inputs.now) }
        ensures { IfOk result (λ a. a
            ≡ output_of self.entry.at.now.op (map (λ a. arc_value a) inputs.now)) }
    {
        run_by(alloc, &Mapped { of: self, inputs })
    }
}

/// The value of an output cell: its block folded. Each cell of the block is read once.
pub(crate) fn value(at: &OpAt, how: Fold, h: u32, w: u32, input: &Array, out: Cell) -> Value
    requires op { at.now.op ≡ Block how h w }
    requires input { input.now.extent ≡ extent_at at.now.ins 0 }
    requires out { holds at.now.out out ≡ true }
    ensures { result ≡ value_of (Block how h w) (input.now ∷ []) out }
{
    fold(input, window_of(at, how, h, w, out), how)
}

/// The block of the input of which an output cell is made.
pub(crate) fn window_of(at: &OpAt, how: Fold, h: u32, w: u32, out: Cell) -> Window
    requires op { at.now.op ≡ Block how h w }
    requires out { holds at.now.out out ≡ true }
    ensures window { IsWindow (extent_at at.now.ins 0) result }
    ensures cells { (x : Cell) → holds (extent_at at.now.ins 0) x ≡ true
        → mapped (Block how h w) at.now.ins 0 out x ≡ is_in result x }
{
    let (shape, made) = shapes(at, how, h, w);
    let top = top_of(shape, made.layer_of(out));
    let rows = span_of(shape.height(), h, made.row_in(out));
    let cols = span_of(shape.cols, w, out.col);
    Window {
        top: top + rows.from,
        bottom: top + rows.to,
        left: cols.from,
        right: cols.to,
    }
}

/// The output cell that is made of the block of a cell.
pub(crate) fn target(at: &OpAt, how: Fold, h: u32, w: u32, cell: Cell) -> Cell
    requires op { at.now.op ≡ Block how h w }
    requires cell { holds (extent_at at.now.ins 0) cell ≡ true }
    ensures held { holds at.now.out result ≡ true }
    ensures only { IsOnly at.now.out (λ o. mapped (Block how h w) at.now.ins 0 o cell)
        (Some result) }
{
    let (shape, made) = shapes(at, how, h, w);
    match made.cell_in(shape.layer_of(cell), shape.row_in(cell) / h, cell.col / w) {
        Some(cell) => cell,
        None => unreachable!(),
    }
}

/// Adds the cells of the block of an output cell, each row of it as one run.
pub(crate) fn back_into(
    at: &OpAt,
    how: Fold,
    h: u32,
    w: u32,
    out: Cell,
    input: u32,
    to: &mut CellBits,
)
    requires op { at.now.op ≡ Block how h w }
    requires out { holds at.now.out out ≡ true }
    requires input { input < length at.now.ins }
    requires to { to.old.extent ≡ extent_at at.now.ins input }
    ensures { to.new ≡ with_those to.old (λ x. mapped (Block how h w) at.now.ins input out x) }
{
    add(at.ins()[0], window_of(at, how, h, w, out), to);
}

/// Adds the output cell that is made of the block of a cell.
pub(crate) fn forward_into(
    at: &OpAt,
    how: Fold,
    h: u32,
    w: u32,
    cell: Cell,
    input: u32,
    to: &mut CellBits,
)
    requires op { at.now.op ≡ Block how h w }
    requires input { input < length at.now.ins }
    requires cell { holds (extent_at at.now.ins input) cell ≡ true }
    requires to { to.old.extent ≡ at.now.out }
    ensures { to.new ≡ with_those to.old (λ o. mapped (Block how h w) at.now.ins input o cell) }
{
    at.ins(); // there is one input
    add_cell(to, Some(target(at, how, h, w, cell)));
}

/// Whether a set has a cell of the block of an output cell.
pub(crate) fn meets(
    at: &OpAt,
    how: Fold,
    h: u32,
    w: u32,
    out: Cell,
    input: u32,
    from: &CellBits,
) -> bool
    requires op { at.now.op ≡ Block how h w }
    requires out { holds at.now.out out ≡ true }
    requires input { input < length at.now.ins }
    requires from { from.now.extent ≡ extent_at at.now.ins input }
    ensures { result ≡ any_cell (λ x. mapped (Block how h w) at.now.ins input out x) from.now }
{
    at.ins(); // there is one input
    from.shape(); // the set is that of its cells
    window::meets(window_of(at, how, h, w, out), from)
}

/// The cells of the block of an output cell, as a set.
pub(crate) fn set(
    alloc: Global,
    at: &OpAt,
    how: Fold,
    h: u32,
    w: u32,
    out: Cell,
    input: u32,
) -> Result<Arc<CellSet>, NoMemory>
    requires op { at.now.op ≡ Block how h w }
    requires out { holds at.now.out out ≡ true }
    requires input { input < length at.now.ins }
    ensures { IfOk result (λ s. arc_value s
        ≡ cells_where (extent_at at.now.ins input) (mapped (Block how h w) at.now.ins input out)) }
{
    window::set(alloc, at.ins()[0], window_of(at, how, h, w, out))
}

/// The shapes of the input and of the output, and what a block's shape rule says of them.
fn shapes(at: &OpAt, how: Fold, h: u32, w: u32) -> (Shape, Shape)
    requires { at.now.op ≡ Block how h w }
    ensures input { result.0 ≡ extent_at at.now.ins 0 }
    ensures out { result.1 ≡ at.now.out }
    ensures blocked { IsBlocked result.0 result.1 h w }
    ensures relation { (o x : Cell) → mapped (Block how h w) at.now.ins 0 o x
        ≡ mapped_between result.0 result.1 (Block how h w) 0 o x }
{
    at.op();
    let shape = at.ins()[0];
    let made = at.out();
    a_shape_is_within_limits(&shape);
    a_shape_is_within_limits(&made);
    (shape, made)
}

/// The first row of a layer.
fn top_of(shape: Shape, layer: u32) -> u32
    requires { layer < shape.layers }
    ensures value { result ≡ layer * height_of shape }
    ensures within { result + height_of shape ≤ shape.rows }
{
    layer * shape.height()
}

/// Rows or columns next to one another: `from` is the first, and `to` the one behind the last.
#[derive(Clone, Copy)]
struct Span {
    from: u32,
    to: u32,
}

/// The rows or columns of a block, of `n` that are cut into blocks of a side.
fn span_of(n: u32, side: u32, block: u32) -> Span
    requires side { 0 < side }
    requires block { block < blocks_over n side }
    ensures some { result.from < result.to }
    ensures within { result.to ≤ n }
    ensures block { (k : ℕ) → k < n
        → (k / side == block) ≡ (nat_le result.from k && nat_lt k result.to) }
{
    let from = block * side;
    Span {
        from,
        to: from + side.min(n - from),
    }
}
