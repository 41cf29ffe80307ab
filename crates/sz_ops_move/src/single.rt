//! Cells of which each leads to one cell, or to none.

ghost use Rattle.std.specs.Prelude.{◌≡◌, ◌<◌};
ghost use Rattle.sz_ops_move.specs.Terms.{true, length, Option, Some, IfSome, IfOk, arc_value};
ghost use Rattle.sz_ops_move.specs.Terms.{holds, is_extent, any_cell, cells_where, with_those};
ghost use Rattle.sz_ops_move.specs.Terms.{extent_at, IsSite, mapped, IsOnly, is_mapping, is_single};

use std::alloc::Global;
use std::sync::Arc;
use sz_cells::laws::a_shape_is_within_limits;
use sz_cells::{Cell, CellBits, CellSet, NoMemory, Shape};
use sz_frame::{add_cell, has_cell, right_shapes, set_of_cell};
use sz_spec::OpAt;

/// Adds the input's cell to which an output cell is mapped.
pub(crate) fn add_source(at: &OpAt, out: Cell, source: Cell, input: u32, to: &mut CellBits)
    requires mapping { is_mapping at.now.op ≡ true }
    requires input { input < length at.now.ins }
    requires to { to.old.extent ≡ extent_at at.now.ins input }
    requires held { holds (extent_at at.now.ins 0) source ≡ true }
    requires only { IsOnly (extent_at at.now.ins 0) (mapped at.now.op at.now.ins 0 out)
        (Some source) }
    ensures { to.new ≡ with_those to.old (λ x. mapped at.now.op at.now.ins input out x) }
{
    right_shapes(at); // so it has one input
    add_cell(to, Some(source));
}

/// Whether a set has the input's cell to which an output cell is mapped.
pub(crate) fn has_source(at: &OpAt, out: Cell, source: Cell, input: u32, from: &CellBits) -> bool
    requires mapping { is_mapping at.now.op ≡ true }
    requires input { input < length at.now.ins }
    requires from { from.now.extent ≡ extent_at at.now.ins input }
    requires only { IsOnly (extent_at at.now.ins 0) (mapped at.now.op at.now.ins 0 out)
        (Some source) }
    ensures { result ≡ any_cell (λ x. mapped at.now.op at.now.ins input out x) from.now }
{
    right_shapes(at); // so it has one input
    from.shape(); // the set is that of its cells
    has_cell(from, Some(source))
}

/// The set of the input's cell to which an output cell is mapped.
pub(crate) fn set_of_source(
    alloc: Global,
    at: &OpAt,
    out: Cell,
    source: Cell,
    input: u32,
) -> Result<Arc<CellSet>, NoMemory>
    requires mapping { is_mapping at.now.op ≡ true }
    requires input { input < length at.now.ins }
    requires held { holds (extent_at at.now.ins 0) source ≡ true }
    requires only { IsOnly (extent_at at.now.ins 0) (mapped at.now.op at.now.ins 0 out)
        (Some source) }
    ensures { IfOk result (λ s. arc_value s
        ≡ cells_where (extent_at at.now.ins input) (mapped at.now.op at.now.ins input out)) }
{
    let (shape, _) = sides(at);
    set_of_cell(alloc, shape, Some(source))
}

/// Adds the output cell that is mapped to a cell of the input, where there is one.
pub(crate) fn add_target(at: &OpAt, cell: Cell, target: Option<Cell>, input: u32, to: &mut CellBits)
    requires mapping { is_mapping at.now.op ≡ true }
    requires input { input < length at.now.ins }
    requires to { to.old.extent ≡ at.now.out }
    requires held { IfSome target (λ c. holds at.now.out c ≡ true) }
    requires only { IsOnly at.now.out (λ o. mapped at.now.op at.now.ins 0 o cell) target }
    ensures { to.new ≡ with_those to.old (λ o. mapped at.now.op at.now.ins input o cell) }
{
    right_shapes(at); // so it has one input
    add_cell(to, target);
}

/// The shapes of the input and of the output.
pub(crate) fn sides(at: &OpAt) -> (Shape, Shape)
    requires { is_mapping at.now.op ≡ true }
    ensures input { result.0 ≡ extent_at at.now.ins 0 }
    ensures out { result.1 ≡ at.now.out }
    ensures site { IsSite at.now }
    ensures one { length at.now.ins ≡ 1 }
    ensures right { is_extent (extent_at at.now.ins 0) ≡ true }
    ensures made { is_extent at.now.out ≡ true }
{
    at.op();
    let shape = at.ins()[0];
    let made = at.out();
    a_shape_is_within_limits(&shape);
    a_shape_is_within_limits(&made);
    (shape, made)
}
