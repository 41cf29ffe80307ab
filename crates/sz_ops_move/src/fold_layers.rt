//! Fold of layers: the cells of all layers at one row and column folded into one cell.

ghost use Rattle.std.specs.Prelude.{◌≡◌, ◌<◌, ◌||◌, ◌&&◌, [], ◌∷◌, true, length, Some, IfOk, OnOk};
ghost use Rattle.std.specs.Prelude.{map};
ghost use Rattle.std.specs.Arc.{arc_value};
ghost use Rattle.std.specs.List.{list_any};
ghost use Rattle.sz_cells.specs.declared.Cell.{Cell};
ghost use Rattle.sz_cells.specs.Extent.{holds, height_of, is_extent, cell_in};
ghost use Rattle.sz_cells.specs.Cells.{is_same, any_cell, cells_where, with_those};
ghost use Rattle.sz_spec.specs.declared.op.Op.TheVariants.{FoldLayers};
ghost use Rattle.sz_spec.specs.Values.{extent_at, numbers_at};
ghost use Rattle.sz_spec.specs.Operators.Folds.{fold_of};
ghost use Rattle.sz_spec.specs.Lineage.{mapped};
ghost use Rattle.sz_spec.specs.Work.{IsAtWork};
ghost use Rattle.sz_spec.specs.Evaluation.{output_of, value_of};
ghost use Rattle.sz_frame.specs.Single.{IsOnly};
ghost use Rattle.sz_ops_move.specs.Moving.{is_in_line};

use crate::single::{add_target, sides};
use std::alloc::Global;
use std::sync::Arc;
use sz_cells::laws::a_shape_is_within_limits;
use sz_cells::{Cell, CellBits, CellSet, NoMemory, Shape};
use sz_frame::{Folding, Mapped, Mapping, input_of, run_by};
use sz_spec::{Array, Fold, OpAt, Value};

/// A fold of layers between its shapes.
#[derive(Drop)]
pub struct LayerFold<'a> {
    pub at: &'a OpAt,
    pub fold: Fold,
    ghost kind: { at.now.op ≡ FoldLayers fold },
}

impl<'a> Mapping for LayerFold<'a> {
    ghost site = { λ l. l.at.now };

    fn at(&self) -> &OpAt {
        self.at
    }

    fn value(&self, inputs: &[Arc<Array>], out: Cell, _index: u32) -> Value {
        self.at.ins(); // there is one input
        value(self.at, self.fold, input_of(self.at, inputs, 0), out)
    }

    fn back_into(&self, out: Cell, input: u32, to: &mut CellBits) {
        back_into(self.at, self.fold, out, input, to);
    }

    fn forward_into(&self, cell: Cell, input: u32, to: &mut CellBits) {
        sides(self.at); // there is one input
        add_target(
            self.at,
            cell,
            Some(target(self.at, self.fold, cell)),
            input,
            to,
        );
    }

    fn meets(&self, out: Cell, input: u32, from: &CellBits) -> bool {
        meets(self.at, self.fold, out, input, from)
    }

    fn mapped_set(&self, alloc: Global, out: Cell, input: u32) -> Result<Arc<CellSet>, NoMemory> {
        set(alloc, self.at, self.fold, out, input)
    }
}

impl<'a> LayerFold<'a> {
    /// The output over these inputs, cell by cell.
    pub fn run(self, alloc: Global, inputs: &[Arc<Array>]) -> Result<Array, NoMemory>
        requires { IsAtWork self.at.now (map (λ a. arc_value a) inputs.now) }
        ensures { IfOk result (λ a. a
            ≡ output_of self.entry.at.now.op (map (λ a. arc_value a) inputs.now)) }
    {
        run_by(alloc, &Mapped { of: self, inputs })
    }
}

/// The value of an output cell. Each cell at its row and column is read once.
pub(crate) fn value(at: &OpAt, how: Fold, input: &Array, out: Cell) -> Value
    requires op { at.now.op ≡ FoldLayers how }
    requires input { input.now.extent ≡ extent_at at.now.ins 0 }
    requires out { holds at.now.out out ≡ true }
    ensures { result ≡ value_of (FoldLayers how) (input.now ∷ []) out }
{
    shape_under(at, how, out);
    fold_line(input, how, out)
}

/// Adds the cells of all layers to which an output cell is mapped.
pub(crate) fn back_into(at: &OpAt, how: Fold, out: Cell, input: u32, to: &mut CellBits)
    requires op { at.now.op ≡ FoldLayers how }
    requires out { holds at.now.out out ≡ true }
    requires input { input < length at.now.ins }
    requires to { to.old.extent ≡ extent_at at.now.ins input }
    ensures { to.new ≡ with_those to.old (λ x. mapped (FoldLayers how) at.now.ins input out x) }
{
    add_line(shape_under(at, how, out), out, to);
}

/// Whether a set has a cell, in any layer, to which an output cell is mapped.
pub(crate) fn meets(at: &OpAt, how: Fold, out: Cell, input: u32, from: &CellBits) -> bool
    requires op { at.now.op ≡ FoldLayers how }
    requires out { holds at.now.out out ≡ true }
    requires input { input < length at.now.ins }
    requires from { from.now.extent ≡ extent_at at.now.ins input }
    ensures { result ≡ any_cell (λ x. mapped (FoldLayers how) at.now.ins input out x) from.now }
{
    meets_line(shape_under(at, how, out), out, from)
}

/// The cells of all layers to which an output cell is mapped, as a set.
pub(crate) fn set(
    alloc: Global,
    at: &OpAt,
    how: Fold,
    out: Cell,
    input: u32,
) -> Result<Arc<CellSet>, NoMemory>
    requires op { at.now.op ≡ FoldLayers how }
    requires out { holds at.now.out out ≡ true }
    requires input { input < length at.now.ins }
    ensures { IfOk result (λ s. arc_value s
        ≡ cells_where (extent_at at.now.ins input) (mapped (FoldLayers how) at.now.ins input out)) }
{
    set_of_line(alloc, shape_under(at, how, out), out)
}

/// The output cell that is mapped to a cell of the input.
pub(crate) fn target(at: &OpAt, how: Fold, cell: Cell) -> Cell
    requires op { at.now.op ≡ FoldLayers how }
    requires cell { holds (extent_at at.now.ins 0) cell ≡ true }
    ensures held { holds at.now.out result ≡ true }
    ensures only { IsOnly at.now.out (λ o. mapped (FoldLayers how) at.now.ins 0 o cell)
        (Some result) }
{
    let shape = at.ins()[0];
    at.out();
    Cell {
        row: shape.row_in(cell),
        col: cell.col,
    }
}

/// The shape of the input. Each layer has the row and the column of an output cell.
fn shape_under(at: &OpAt, how: Fold, out: Cell) -> Shape
    requires op { at.now.op ≡ FoldLayers how }
    requires out { holds at.now.out out ≡ true }
    ensures one { length at.now.ins ≡ 1 }
    ensures input { result ≡ extent_at at.now.ins 0 }
    ensures right { is_extent result ≡ true }
    ensures row { out.row < height_of result }
    ensures col { out.col < result.cols }
{
    let shape = at.ins()[0];
    at.out();
    a_shape_is_within_limits(&shape);
    shape
}

/// The cell of a layer at a row and a column.
fn cell_above(shape: Shape, layer: u32, place: Cell) -> Cell
    requires layer { layer < shape.layers }
    requires row { place.row < height_of shape }
    requires col { place.col < shape.cols }
    ensures value { result ≡ cell_in shape layer place.row place.col }
    ensures held { holds shape result ≡ true }
{
    a_shape_is_within_limits(&shape);
    match shape.cell_in(layer, place.row, place.col) {
        Some(cell) => cell,
        None => unreachable!(),
    }
}

/// What the numbers of all layers at a row and a column fold to.
fn fold_line(input: &Array, how: Fold, place: Cell) -> Value
    requires row { place.row < height_of input.now.extent }
    requires col { place.col < input.now.extent.cols }
    ensures { result ≡ fold_of how (numbers_at input.now
        (cells_where input.now.extent (is_in_line input.now.extent place))) }
{
    let shape = input.shape();
    a_shape_is_within_limits(&shape); // so the numbers can be counted
    let mut folding = Folding::new();
    for layer in 0..shape.layers {
        folding.add_all(&[input.at(cell_above(shape, layer, place))]);
    }
    folding.result(how)
}

/// Adds the cells of all layers at a row and a column.
fn add_line(shape: Shape, place: Cell, to: &mut CellBits)
    requires to { to.old.extent ≡ shape }
    requires row { place.row < height_of shape }
    requires col { place.col < shape.cols }
    ensures { to.new ≡ with_those to.old (is_in_line shape place) }
{
    to.shape(); // the set as it was is that of its cells
    a_shape_is_within_limits(&shape);
    for layer in 0..shape.layers {
        to.set(cell_above(shape, layer, place));
    }
}

/// Whether a set has a cell, in any layer, at a row and a column.
fn meets_line(shape: Shape, place: Cell, from: &CellBits) -> bool
    requires from { from.now.extent ≡ shape }
    requires row { place.row < height_of shape }
    requires col { place.col < shape.cols }
    ensures { result ≡ any_cell (is_in_line shape place) from.now }
{
    from.shape(); // the set is that of its cells
    a_shape_is_within_limits(&shape);
    for layer in 0..shape.layers {
        if from.has(cell_above(shape, layer, place)) {
            return true;
        }
    }
    false
}

/// The cells of all layers at a row and a column, as a set.
fn set_of_line(alloc: Global, shape: Shape, place: Cell) -> Result<Arc<CellSet>, NoMemory>
    requires row { place.row < height_of shape }
    requires col { place.col < shape.cols }
    ensures { IfOk result (λ s. arc_value s ≡ cells_where shape (is_in_line shape place)) }
{
    let mut cells = Vec::new(alloc);
    name_line(shape, place, &mut cells)?;
    let set = CellSet::from_cells(alloc, shape, &cells)?;
    Ok(Arc::new(alloc, set)?)
}

/// Appends the cells of all layers at a row and a column.
fn name_line(shape: Shape, place: Cell, cells: &mut Vec<Cell>) -> Result<(), NoMemory>
    requires row { place.row < height_of shape }
    requires col { place.col < shape.cols }
    ensures { OnOk result ((x : Cell) → list_any (is_same x) cells.new.items
        ≡ (list_any (is_same x) cells.old.items || (holds shape x && is_in_line shape place x))) }
{
    a_shape_is_within_limits(&shape);
    for layer in 0..shape.layers {
        cells.push(cell_above(shape, layer, place))?;
    }
    Ok(())
}
