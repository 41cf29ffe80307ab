//! Windows of a shape, walked row by row: their cells as a set, and their numbers folded.

ghost use Rattle.std.specs.Prelude.{◌≡◌, ◌+◌, ◌<◌, ◌≤◌, ◌++◌, ◌||◌};
ghost use Rattle.sz_ops_local.specs.Terms.{ℤ, List, IfOk, OnOk, arc_value, list_any, Cell};
ghost use Rattle.sz_ops_local.specs.Terms.{any_cell, cells_where, is_same, with_those, numbers_at};
ghost use Rattle.sz_ops_local.specs.Terms.{fold_of, summary_of, is_between, is_in, IsWindow};

use std::alloc::Global;
use std::sync::Arc;
use sz_cells::laws::a_shape_is_within_limits;
use sz_cells::{Cell, CellBits, CellSet, NoMemory, Run, Shape};
use sz_frame::Folding;
use sz_spec::{Array, Fold, Value};

/// A window of a shape: the rows from `top` to before `bottom`, and of each the columns from `left`
/// to before `right`.
#[derive(Clone, Copy)]
pub(crate) struct Window {
    pub(crate) top: u32,
    pub(crate) bottom: u32,
    pub(crate) left: u32,
    pub(crate) right: u32,
}

/// What the numbers in a window fold to. Each of its cells is read once.
pub(crate) fn fold(input: &Array, window: Window, fold: Fold) -> Value
    requires { IsWindow input.now.extent window }
    ensures { result ≡ fold_of fold
        (numbers_at input.now (cells_where input.now.extent (is_in window))) }
{
    let shape = input.shape();
    a_shape_is_within_limits(&shape); // so the numbers can be counted
    let mut folding = Folding::new();
    for row in window.top..window.bottom {
        fold_row(input, row, window.left, window.right, &mut folding);
    }
    folding.result(fold)
}

/// Adds the numbers of one row of a window.
fn fold_row(input: &Array, row: u32, left: u32, right: u32, folding: &mut Folding)
    requires row { row < input.now.extent.rows }
    requires cols { left < right }
    requires right { right ≤ input.now.extent.cols }
    requires room { folding.old.count ≤ 1048576 }
    ensures { (zs : List ℤ) → folding.old ≡ summary_of zs
        → folding.new ≡ summary_of (zs ++ numbers_at input.now
        (cells_where input.now.extent (is_between row (row + 1) left right))) }
{
    let start = input.shape().index(Cell { row, col: left }) as usize;
    let end = start + (right - left) as usize;
    folding.add_all(&input.cells()[start..end]);
}

/// Adds the cells of a window.
pub(crate) fn add(shape: Shape, window: Window, to: &mut CellBits)
    requires to { to.old.extent ≡ shape }
    requires window { IsWindow shape window }
    ensures { to.new ≡ with_those to.old (is_in window) }
{
    to.shape(); // the set as it was is that of its cells
    for row in window.top..window.bottom {
        add_row(shape, row, window.left, window.right, to);
    }
}

/// Adds the cells of one row of a window.
fn add_row(shape: Shape, row: u32, left: u32, right: u32, to: &mut CellBits)
    requires to { to.old.extent ≡ shape }
    requires row { row < shape.rows }
    requires cols { left < right }
    requires right { right ≤ shape.cols }
    ensures { to.new ≡ with_those to.old (is_between row (row + 1) left right) }
{
    let run = Run {
        first: shape.index(Cell { row, col: left }),
        last: shape.index(Cell {
            row,
            col: right - 1,
        }),
    };
    to.add_run(run);
}

/// Whether a set has a cell of a window. Takes no memory.
pub(crate) fn meets(window: Window, from: &CellBits) -> bool
    requires { IsWindow from.now.extent window }
    ensures { result ≡ any_cell (is_in window) from.now }
{
    for row in window.top..window.bottom {
        if meets_row(row, window.left, window.right, from) {
            return true;
        }
    }
    false
}

/// Whether a set has a cell of one row of a window.
fn meets_row(row: u32, left: u32, right: u32, from: &CellBits) -> bool
    requires row { row < from.now.extent.rows }
    requires cols { left ≤ right }
    requires right { right ≤ from.now.extent.cols }
    ensures { result ≡ any_cell (is_between row (row + 1) left right) from.now }
{
    from.shape(); // the set is that of its cells
    for col in left..right {
        if from.has(Cell { row, col }) {
            return true;
        }
    }
    false
}

/// The cells of a window, as a set.
pub(crate) fn set(alloc: Global, shape: Shape, window: Window) -> Result<Arc<CellSet>, NoMemory>
    requires { IsWindow shape window }
    ensures { IfOk result (λ s. arc_value s ≡ cells_where shape (is_in window)) }
{
    let mut cells = Vec::new(alloc);
    name_cells(window, &mut cells)?;
    let set = CellSet::from_cells(alloc, shape, &cells)?;
    Ok(Arc::new(alloc, set)?)
}

/// Appends the cells of a window.
fn name_cells(window: Window, cells: &mut Vec<Cell>) -> Result<(), NoMemory>
    requires rows { window.top ≤ window.bottom }
    requires cols { window.left ≤ window.right }
    ensures { OnOk result ((x : Cell) → list_any (is_same x) cells.new.items
        ≡ (list_any (is_same x) cells.old.items || is_in window x)) }
{
    for row in window.top..window.bottom {
        name_row(row, window.left, window.right, cells)?;
    }
    Ok(())
}

/// Appends the cells of one row of a window.
fn name_row(row: u32, left: u32, right: u32, cells: &mut Vec<Cell>) -> Result<(), NoMemory>
    requires { left ≤ right }
    ensures { OnOk result ((x : Cell) → list_any (is_same x) cells.new.items
        ≡ (list_any (is_same x) cells.old.items || is_between row (row + 1) left right x)) }
{
    for col in left..right {
        cells.push(Cell { row, col })?;
    }
    Ok(())
}
