//! The elementwise operators: each output cell is made of the cells at its own place alone.

ghost use Rattle.std.specs.Prelude.{◌≡◌, ◌<◌, ℕ, true, length, map, IfOk};
ghost use Rattle.std.specs.Arc.{arc_value};
ghost use Rattle.sz_cells.specs.Extent.{holds, index_of};
ghost use Rattle.sz_cells.specs.Cells.{any_cell, cells_where, has, with_those};
ghost use Rattle.sz_spec.specs.Values.{value_at, input_at, extent_at};
ghost use Rattle.sz_spec.specs.Shapes.{IsSite};
ghost use Rattle.sz_spec.specs.Lineage.{mapped};
ghost use Rattle.sz_spec.specs.Evaluation.{output_of, value_of};
ghost use Rattle.sz_spec.specs.LawsShapes.{AreExtents};
ghost use Rattle.sz_spec.specs.Work.{IsAtWork};
ghost use Rattle.sz_spec.specs.Sides.{near_side, far_side, image_in};
ghost use Rattle.sz_ops_local.specs.Local.{is_elementwise};

use crate::numbers::of_numbers;
use crate::whole;
use std::alloc::Global;
use std::sync::Arc;
use sz_cells::{Cell, CellBits, CellSet, NoMemory, Shape};
use sz_frame::Mapping;
use sz_spec::{Array, Dir, OpAt, Value};

/// An elementwise operator between its shapes.
#[derive(Drop)]
pub struct Elementwise<'a> {
    pub at: &'a OpAt,
    ghost kind: { is_elementwise at.now.op ≡ true },
}

impl<'a> Mapping for Elementwise<'a> {
    ghost site = { λ e. e.at.now };

    fn at(&self) -> &OpAt {
        self.at
    }

    fn value(&self, inputs: &[Arc<Array>], out: Cell, index: u32) -> Value {
        value(self.at, inputs, out, index)
    }

    fn back_into(&self, out: Cell, input: u32, to: &mut CellBits) {
        back_into(self.at, out, input, to);
    }

    fn forward_into(&self, cell: Cell, input: u32, to: &mut CellBits) {
        forward_into(self.at, cell, input, to);
    }

    fn meets(&self, out: Cell, input: u32, from: &CellBits) -> bool {
        meets(self.at, out, input, from)
    }

    fn mapped_set(&self, alloc: Global, out: Cell, input: u32) -> Result<Arc<CellSet>, NoMemory> {
        set(alloc, self.at, out, input)
    }
}

impl<'a> Elementwise<'a> {
    /// The output over these inputs. One pass over its cells.
    pub fn run(&self, alloc: Global, inputs: &[Arc<Array>]) -> Result<Array, NoMemory>
        requires { IsAtWork self.now.at.now (map (λ a. arc_value a) inputs.now) }
        ensures { IfOk result (λ a. a
            ≡ output_of self.now.at.now.op (map (λ a. arc_value a) inputs.now)) }
    {
        whole::run(alloc, self.at, inputs)
    }

    /// Adds the image of a set of cells under the mapping: the same cells, as they are at the same
    /// places, all at once.
    pub fn image(&self, dir: Dir, input: u32, from: &CellBits, to: &mut CellBits)
        requires input { input < length self.now.at.now.ins }
        requires from { from.now.extent ≡ near_side dir self.now.at.now input }
        requires to { to.old.extent ≡ far_side dir self.now.at.now input }
        ensures { let s = self.now.at.now in to.new ≡ with_those to.old
            (has (image_in dir s input (mapped s.op s.ins input) from.now)) }
    {
        image(self.at, dir, input, from, to);
    }
}

/// The value of an output cell, which has this row-major index: nothing where an input has nothing
/// at its place.
pub(crate) fn value(at: &OpAt, inputs: &[Arc<Array>], out: Cell, index: u32) -> Value
    requires op { is_elementwise at.now.op ≡ true }
    requires right { IsAtWork at.now (map (λ a. arc_value a) inputs.now) }
    requires out { holds at.now.out out ≡ true }
    requires index { index ≡ index_of at.now.out out }
    ensures { result ≡ value_of at.now.op (map (λ a. arc_value a) inputs.now) out }
{
    let a = value_of_input(inputs, 0, out, index)?;
    let b = if inputs.len() > 1 {
        value_of_input(inputs, 1, out, index)?
    } else {
        0
    };
    of_numbers(at.op(), a, b)
}

/// What an input holds at a cell, which has this row-major index.
fn value_of_input(inputs: &[Arc<Array>], input: usize, cell: Cell, index: u32) -> Value
    requires input { input < length inputs.now }
    requires cell { holds (input_at (map (λ a. arc_value a) inputs.now) input).extent cell ≡ true }
    requires index { index
        ≡ index_of (input_at (map (λ a. arc_value a) inputs.now) input).extent cell }
    ensures { result ≡ value_at (input_at (map (λ a. arc_value a) inputs.now) input) cell }
{
    inputs[input].cells()[index as usize]
}

/// Adds the cell of an input to which an output cell is mapped.
pub(crate) fn back_into(at: &OpAt, out: Cell, input: u32, to: &mut CellBits)
    requires op { is_elementwise at.now.op ≡ true }
    requires out { holds at.now.out out ≡ true }
    requires input { input < length at.now.ins }
    requires to { to.old.extent ≡ extent_at at.now.ins input }
    ensures { to.new ≡ with_those to.old (λ x. mapped at.now.op at.now.ins input out x) }
{
    shape_of_all(at);
    to.set(out);
}

/// Adds the output cell that is mapped to a cell of an input.
pub(crate) fn forward_into(at: &OpAt, cell: Cell, input: u32, to: &mut CellBits)
    requires op { is_elementwise at.now.op ≡ true }
    requires input { input < length at.now.ins }
    requires cell { holds (extent_at at.now.ins input) cell ≡ true }
    requires to { to.old.extent ≡ at.now.out }
    ensures { to.new ≡ with_those to.old (λ o. mapped at.now.op at.now.ins input o cell) }
{
    shape_of_all(at);
    to.set(cell);
}

/// Whether an output cell is mapped to a cell of this set of an input's cells.
pub(crate) fn meets(at: &OpAt, out: Cell, input: u32, from: &CellBits) -> bool
    requires op { is_elementwise at.now.op ≡ true }
    requires out { holds at.now.out out ≡ true }
    requires input { input < length at.now.ins }
    requires from { from.now.extent ≡ extent_at at.now.ins input }
    ensures { result ≡ any_cell (λ x. mapped at.now.op at.now.ins input out x) from.now }
{
    shape_of_all(at);
    from.shape(); // the set is that of its cells
    from.has(out)
}

/// The set of the cell of an input to which an output cell is mapped.
pub(crate) fn set(alloc: Global, at: &OpAt, out: Cell, input: u32) -> Result<Arc<CellSet>, NoMemory>
    requires op { is_elementwise at.now.op ≡ true }
    requires out { holds at.now.out out ≡ true }
    requires input { input < length at.now.ins }
    ensures { IfOk result (λ s. arc_value s
        ≡ cells_where (extent_at at.now.ins input) (mapped at.now.op at.now.ins input out)) }
{
    let shape = shape_of_all(at);
    let set = CellSet::from_cells(alloc, shape, &[out])?;
    Ok(Arc::new(alloc, set)?)
}

/// Adds the image of a set of cells: the same cells, as they are at the same places.
pub(crate) fn image(at: &OpAt, dir: Dir, input: u32, from: &CellBits, to: &mut CellBits)
    requires op { is_elementwise at.now.op ≡ true }
    requires input { input < length at.now.ins }
    requires from { from.now.extent ≡ near_side dir at.now input }
    requires to { to.old.extent ≡ far_side dir at.now input }
    ensures { to.new ≡ with_those to.old
        (has (image_in dir at.now input (mapped at.now.op at.now.ins input) from.now)) }
{
    shape_of_all(at);
    from.shape(); // the set is that of its cells
    to.add_bits(from);
}

/// The shape that an elementwise operator's inputs and its output have.
fn shape_of_all(at: &OpAt) -> Shape
    requires { is_elementwise at.now.op ≡ true }
    ensures out { result ≡ at.now.out }
    ensures site { IsSite at.now }
    ensures ins { (i : ℕ) → i < length at.now.ins → extent_at at.now.ins i ≡ at.now.out }
{
    at.op();
    at.ins();
    let shape = at.out();
    let _ = &shape.rows; // a shape is within the limits
    shape
}
