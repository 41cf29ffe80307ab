//! The cells under the weights of a window that are not 0, tap by tap.

ghost use Rattle.std.specs.Prelude.{◌≡◌, ◌<◌, ◌*◌, ◌^◌, ◌++◌, ◌∷◌, [], true, Option, IfSome, IfOk};
ghost use Rattle.std.specs.Prelude.{OnOk};
ghost use Rattle.std.specs.Arc.{arc_value};
ghost use Rattle.std.specs.Option.{option_to_list};
ghost use Rattle.sz_cells.specs.Extent.{holds, layer_of, row_in};
ghost use Rattle.sz_cells.specs.Cells.{any_cell, cells_where, with_those};
ghost use Rattle.sz_spec.specs.Shapes.{IsSite};
ghost use Rattle.sz_ops_window.specs.Windowed.{is_windowed};
ghost use Rattle.sz_spec.specs.Operators.Convolve.{is_convolved};
ghost use Rattle.sz_frame.specs.Walks.{steps};
ghost use Rattle.sz_frame.specs.Single.{IsOnly};
ghost use Rattle.sz_ops_window.specs.Taps.{leads, moved};

use crate::mask::Mask;
use std::alloc::Global;
use std::sync::Arc;
use sz_cells::laws::a_shape_is_within_limits;
use sz_cells::{Cell, CellBits, CellSet, NoMemory, Shape};
use sz_frame::{add_cell, has_cell, right_shapes};
use sz_spec::{Dir, OpAt};

/// The shape that a windowed operator's input and its output have.
pub(crate) fn same_shape(at: &OpAt) -> Shape
    requires { is_windowed at.now.op ≡ true }
    ensures out { result ≡ at.now.out }
    ensures site { IsSite at.now }
    ensures ins { at.now.ins ≡ at.now.out ∷ [] }
{
    right_shapes(at)
}

/// Adds the cells to which a window's taps lead from a cell: backward those under the weights,
/// forward those on which the middle lies. Each tap is looked at once. Takes no memory.
pub(crate) fn add_under(shape: Shape, mask: &Mask<'_>, dir: Dir, cell: Cell, to: &mut CellBits)
    requires cell { holds shape cell ≡ true }
    requires to { to.old.extent ≡ shape }
    ensures { to.new ≡ with_those to.old (steps dir (is_convolved shape mask.now) cell) }
{
    to.shape(); // the set as it was is that of its cells
    let middle = Middle::of(shape, cell);
    for number in 0..mask.rows * mask.cols {
        add_cell(to, middle.led_to(mask, dir, number));
    }
}

/// Whether a set has a cell under the window's weights. Each tap is looked at once at most. Takes
/// no memory.
pub(crate) fn meets_under(shape: Shape, mask: &Mask<'_>, cell: Cell, from: &CellBits) -> bool
    requires cell { holds shape cell ≡ true }
    requires from { from.now.extent ≡ shape }
    ensures { result ≡ any_cell (is_convolved shape mask.now cell) from.now }
{
    from.shape(); // the set is that of its cells
    let middle = Middle::of(shape, cell);
    for number in 0..mask.rows * mask.cols {
        if has_cell(from, middle.led_to(mask, Dir::Back, number)) {
            return true;
        }
    }
    false
}

/// The set of the cells under the window's weights. Each tap is looked at once.
pub(crate) fn set_under(
    alloc: Global,
    shape: Shape,
    mask: &Mask<'_>,
    cell: Cell,
) -> Result<Arc<CellSet>, NoMemory>
    requires cell { holds shape cell ≡ true }
    ensures { IfOk result
        (λ s. arc_value s ≡ cells_where shape (is_convolved shape mask.now cell)) }
{
    let middle = Middle::of(shape, cell);
    let mut cells = Vec::new(alloc);
    for number in 0..mask.rows * mask.cols {
        push_cell(&mut cells, middle.led_to(mask, Dir::Back, number))?;
    }
    let set = CellSet::from_cells(alloc, shape, &cells)?;
    Ok(Arc::new(alloc, set)?)
}

/// Puts a cell behind the others, where there is one.
fn push_cell(cells: &mut Vec<Cell>, cell: Option<Cell>) -> Result<(), NoMemory>
    ensures { OnOk result (cells.new.items ≡ cells.old.items ++ option_to_list cell) }
{
    if let Some(cell) = cell {
        cells.push(cell)?;
    }
    Ok(())
}

/// A cell of a shape, with its layer and its row in it.
#[derive(Clone, Copy)]
pub(crate) struct Middle {
    shape: Shape,
    cell: Cell,
    layer: u32,
    row: u32,
    ghost held: { holds shape cell ≡ true },
    ghost layer_is: { layer ≡ layer_of shape cell },
    ghost row_is: { row ≡ row_in shape cell },
}

impl Middle {
    /// A cell of this shape.
    fn of(shape: Shape, cell: Cell) -> Middle
        requires { holds shape cell ≡ true }
        ensures shape { result.shape ≡ shape }
        ensures cell { result.cell ≡ cell }
    {
        Middle {
            shape,
            cell,
            layer: shape.layer_of(cell),
            row: shape.row_in(cell),
        }
    }

    /// The cell to which the tap of a number leads: none where its weight is 0 or the layer has no
    /// such cell.
    fn led_to(&self, mask: &Mask<'_>, dir: Dir, number: u32) -> Option<Cell>
        requires number { number < mask.now.rows * mask.now.cols }
        ensures held { IfSome result (λ c. holds self.now.shape c ≡ true) }
        ensures only { IsOnly self.now.shape
            (leads dir self.now.shape mask.now self.now.cell number) result }
    {
        if !mask.is_used(number) {
            return None;
        }
        a_shape_is_within_limits(&self.shape);
        let row = moved(dir, self.row, number / mask.cols, mask.rows / 2)?;
        let col = moved(dir, self.cell.col, number % mask.cols, mask.cols / 2)?;
        self.shape.cell_in(self.layer, row, col)
    }
}

/// The row or column to which a tap leads, where there is one: as far from the start as the tap is
/// from the middle, and the other way forward.
fn moved(dir: Dir, start: u32, tap: u32, middle: u32) -> Option<u32>
    requires start { start < 2 ^ 30 }
    requires tap { tap < 2 ^ 30 }
    requires middle { middle < 2 ^ 30 }
    ensures { result ≡ moved dir start tap middle }
{
    match dir {
        Dir::Back => (start + tap).checked_sub(middle),
        Dir::Forward => (start + middle).checked_sub(tap),
    }
}
