//! Transpose: rows and columns of each layer exchanged.

ghost use Rattle.std.specs.Prelude.{◌≡◌, [], ◌∷◌, true, Some, map, IfOk};
ghost use Rattle.std.specs.Arc.{arc_value};
ghost use Rattle.sz_cells.specs.Extent.{holds, layer_of, row_in, cell_in};
ghost use Rattle.sz_spec.specs.declared.op.Op.TheVariants.{Transpose};
ghost use Rattle.sz_spec.specs.Values.{extent_at};
ghost use Rattle.sz_spec.specs.Evaluation.{output_of, value_in};
ghost use Rattle.sz_spec.specs.Lineage.{mapped};
ghost use Rattle.sz_spec.specs.Work.{IsAtWork};
ghost use Rattle.sz_frame.specs.Single.{IsOnly};

use crate::single::{add_source, add_target, has_source, set_of_source, sides};
use crate::turning::turned;
use std::alloc::Global;
use std::sync::Arc;
use sz_cells::{Cell, CellBits, CellSet, NoMemory};
use sz_frame::{Mapping, input_of, output_with};
use sz_spec::{Array, OpAt, Value};

/// A transposition between its shapes.
#[derive(Drop)]
pub struct Transposition<'a> {
    pub at: &'a OpAt,
    ghost kind: { at.now.op ≡ Transpose },
}

impl<'a> Mapping for Transposition<'a> {
    ghost site = { λ t. t.at.now };

    fn at(&self) -> &OpAt {
        self.at
    }

    fn value(&self, inputs: &[Arc<Array>], out: Cell, _index: u32) -> Value {
        self.at.ins(); // there is one input
        value(self.at, input_of(self.at, inputs, 0), out)
    }

    fn back_into(&self, out: Cell, input: u32, to: &mut CellBits) {
        add_source(self.at, out, source(self.at, out), input, to);
    }

    fn forward_into(&self, cell: Cell, input: u32, to: &mut CellBits) {
        sides(self.at); // there is one input
        add_target(self.at, cell, Some(target(self.at, cell)), input, to);
    }

    fn meets(&self, out: Cell, input: u32, from: &CellBits) -> bool {
        has_source(self.at, out, source(self.at, out), input, from)
    }

    fn mapped_set(&self, alloc: Global, out: Cell, input: u32) -> Result<Arc<CellSet>, NoMemory> {
        set_of_source(alloc, self.at, out, source(self.at, out), input)
    }
}

impl<'a> Transposition<'a> {
    /// The output over these inputs, written strip by strip.
    pub fn run(&self, alloc: Global, inputs: &[Arc<Array>]) -> Result<Array, NoMemory>
        requires { IsAtWork self.now.at.now (map (λ a. arc_value a) inputs.now) }
        ensures { IfOk result (λ a. a
            ≡ output_of self.now.at.now.op (map (λ a. arc_value a) inputs.now)) }
    {
        let cells = turned(alloc, self.at, inputs)?;
        Ok(output_with(self.at, inputs, cells))
    }
}

/// The value of an output cell.
pub(crate) fn value(at: &OpAt, input: &Array, out: Cell) -> Value
    requires op { at.now.op ≡ Transpose }
    requires input { input.now.extent ≡ extent_at at.now.ins 0 }
    requires out { holds at.now.out out ≡ true }
    ensures { result ≡ value_in at.now.out Transpose (input.now ∷ []) out }
{
    input.at(source(at, out))
}

/// The cell of the input to which an output cell is mapped.
pub(crate) fn source(at: &OpAt, out: Cell) -> Cell
    requires op { at.now.op ≡ Transpose }
    requires out { holds at.now.out out ≡ true }
    ensures value { let e = extent_at at.now.ins 0 in
        result ≡ cell_in e (layer_of at.now.out out) out.col (row_in at.now.out out) }
    ensures held { holds (extent_at at.now.ins 0) result ≡ true }
    ensures only { IsOnly (extent_at at.now.ins 0) (mapped Transpose at.now.ins 0 out)
        (Some result) }
{
    let (shape, made) = sides(at);
    match shape.cell_in(made.layer_of(out), out.col, made.row_in(out)) {
        Some(cell) => cell,
        None => unreachable!(),
    }
}

/// The output cell that is mapped to a cell of the input.
pub(crate) fn target(at: &OpAt, cell: Cell) -> Cell
    requires op { at.now.op ≡ Transpose }
    requires cell { holds (extent_at at.now.ins 0) cell ≡ true }
    ensures held { holds at.now.out result ≡ true }
    ensures only { IsOnly at.now.out (λ o. mapped Transpose at.now.ins 0 o cell) (Some result) }
{
    let (shape, made) = sides(at);
    match made.cell_in(shape.layer_of(cell), cell.col, shape.row_in(cell)) {
        Some(cell) => cell,
        None => unreachable!(),
    }
}
