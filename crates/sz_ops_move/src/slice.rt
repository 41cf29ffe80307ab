//! Slice: a window of each layer.

ghost use Rattle.std.specs.Prelude.{◌≡◌, ◌+◌, ◌<◌, ◌≤◌, ℕ, [], ◌∷◌, true, Some, None, Option};
ghost use Rattle.std.specs.Prelude.{IfSome, map, IfOk, length, slice_index_or};
ghost use Rattle.std.specs.Arc.{arc_value};
ghost use Rattle.sz_cells.specs.Extent.{holds, layer_of, row_in, cell_in, size_of};
ghost use Rattle.sz_spec.specs.declared.op.Op.TheVariants.{Slice};
ghost use Rattle.sz_spec.specs.Values.{extent_at};
ghost use Rattle.sz_spec.specs.Evaluation.{output_of, value_in};
ghost use Rattle.sz_spec.specs.Lineage.{mapped};
ghost use Rattle.sz_spec.specs.Work.{IsAtWork};
ghost use Rattle.sz_frame.specs.Single.{IsOnly};
ghost use Rattle.sz_frame.specs.Walks.{values_before};

use crate::single::{add_source, add_target, has_source, set_of_source, sides};
use std::alloc::Global;
use std::sync::Arc;
use sz_cells::{Cell, CellBits, CellSet, NoMemory};
use sz_frame::{Mapping, input_of, output_with};
use sz_spec::{Array, OpAt, Value};

/// A slice between its shapes.
#[derive(Drop)]
pub struct Slicing<'a> {
    pub at: &'a OpAt,
    pub r0: u32,
    pub c0: u32,
    pub h: u32,
    pub w: u32,
    ghost kind: { at.now.op ≡ Slice r0 c0 h w },
}

impl<'a> Slicing<'a> {
    /// The cell of the input to which an output cell is mapped.
    fn source(&self, out: Cell) -> Cell
        requires { holds self.now.at.now.out out ≡ true }
        ensures value { let s = self.now.at.now in let e = extent_at s.ins 0 in
            result ≡ cell_in e (layer_of s.out out) (self.now.r0 + row_in s.out out)
            (self.now.c0 + out.col) }
        ensures held { holds (extent_at self.now.at.now.ins 0) result ≡ true }
        ensures only { let s = self.now.at.now in
            IsOnly (extent_at s.ins 0) (mapped s.op s.ins 0 out) (Some result) }
    {
        source(self.at, self.r0, self.c0, self.h, self.w, out)
    }
}

impl<'a> Mapping for Slicing<'a> {
    ghost site = { λ s. s.at.now };

    fn at(&self) -> &OpAt {
        self.at
    }

    fn value(&self, inputs: &[Arc<Array>], out: Cell, _index: u32) -> Value {
        self.at.ins(); // there is one input
        let input = input_of(self.at, inputs, 0);
        value(self.at, self.r0, self.c0, self.h, self.w, input, out)
    }

    fn back_into(&self, out: Cell, input: u32, to: &mut CellBits) {
        add_source(self.at, out, self.source(out), input, to);
    }

    fn forward_into(&self, cell: Cell, input: u32, to: &mut CellBits) {
        sides(self.at); // there is one input
        let target = target(self.at, self.r0, self.c0, self.h, self.w, cell);
        add_target(self.at, cell, target, input, to);
    }

    fn meets(&self, out: Cell, input: u32, from: &CellBits) -> bool {
        has_source(self.at, out, self.source(out), input, from)
    }

    fn mapped_set(&self, alloc: Global, out: Cell, input: u32) -> Result<Arc<CellSet>, NoMemory> {
        set_of_source(alloc, self.at, out, self.source(out), input)
    }
}

impl<'a> Slicing<'a> {
    /// The output over these inputs, copied row by row.
    pub fn run(&self, alloc: Global, inputs: &[Arc<Array>]) -> Result<Array, NoMemory>
        requires { IsAtWork self.now.at.now (map (λ a. arc_value a) inputs.now) }
        ensures { IfOk result (λ a. a
            ≡ output_of self.now.at.now.op (map (λ a. arc_value a) inputs.now)) }
    {
        let cells = self.rows(alloc, inputs)?;
        Ok(output_with(self.at, inputs, cells))
    }

    /// The values of all output cells.
    fn rows(&self, alloc: Global, inputs: &[Arc<Array>]) -> Result<Vec<Value>, NoMemory>
        requires { IsAtWork self.now.at.now (map (λ a. arc_value a) inputs.now) }
        ensures { IfOk result (λ v. v.items ≡ values_before self.now.at.now
            (map (λ a. arc_value a) inputs.now) (size_of self.now.at.now.out)) }
    {
        let (shape, made) = sides(self.at);
        let cells = input_of(self.at, inputs, 0).cells();
        let mut rows = Vec::new(alloc);
        rows.reserve(made.size() as usize)?;
        for row in 0..made.rows {
            let from = shape.index(self.source(Cell { row, col: 0 }));
            rows.extend_from_slice(part(cells, from as usize, made.cols as usize))?;
        }
        Ok(rows)
    }
}

/// So many values from one on.
pub(crate) fn part(cells: &[Value], from: usize, count: usize) -> &[Value]
    requires within { from + count ≤ length cells.now }
    requires small { length cells.now ≤ 33554432 }
    ensures long { length result.now ≡ count }
    ensures each { (k : ℕ) → k < count
        → slice_index_or result.now k None ≡ slice_index_or cells.now (from + k) None }
{
    &cells[from..from + count]
}

/// The value of an output cell.
pub(crate) fn value(at: &OpAt, r0: u32, c0: u32, h: u32, w: u32, input: &Array, out: Cell) -> Value
    requires op { at.now.op ≡ Slice r0 c0 h w }
    requires input { input.now.extent ≡ extent_at at.now.ins 0 }
    requires out { holds at.now.out out ≡ true }
    ensures { result ≡ value_in at.now.out (Slice r0 c0 h w) (input.now ∷ []) out }
{
    input.at(source(at, r0, c0, h, w, out))
}

/// The cell of the input to which an output cell is mapped.
pub(crate) fn source(at: &OpAt, r0: u32, c0: u32, h: u32, w: u32, out: Cell) -> Cell
    requires op { at.now.op ≡ Slice r0 c0 h w }
    requires out { holds at.now.out out ≡ true }
    ensures value { let e = extent_at at.now.ins 0 in result
        ≡ cell_in e (layer_of at.now.out out) (r0 + row_in at.now.out out) (c0 + out.col) }
    ensures held { holds (extent_at at.now.ins 0) result ≡ true }
    ensures only { IsOnly (extent_at at.now.ins 0) (mapped (Slice r0 c0 h w) at.now.ins 0 out)
        (Some result) }
{
    let (shape, made) = sides(at);
    match shape.cell_in(made.layer_of(out), r0 + made.row_in(out), c0 + out.col) {
        Some(cell) => cell,
        None => unreachable!(),
    }
}

/// The output cell that is mapped to a cell of the input: none where the cell is outside the
/// window.
pub(crate) fn target(at: &OpAt, r0: u32, c0: u32, h: u32, w: u32, cell: Cell) -> Option<Cell>
    requires op { at.now.op ≡ Slice r0 c0 h w }
    requires cell { holds (extent_at at.now.ins 0) cell ≡ true }
    ensures held { IfSome result (λ c. holds at.now.out c ≡ true) }
    ensures only { IsOnly at.now.out (λ o. mapped (Slice r0 c0 h w) at.now.ins 0 o cell) result }
{
    let (shape, made) = sides(at);
    let row = shape.row_in(cell).checked_sub(r0)?;
    let col = cell.col.checked_sub(c0)?;
    made.cell_in(shape.layer_of(cell), row, col)
}
