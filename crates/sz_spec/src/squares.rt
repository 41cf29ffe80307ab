//! The 3 by 3 square of cells round a cell, within its layer: a rectangle, added row by row.

ghost use Rattle.std.specs.Prelude.{◌≡◌, ◌≤◌, ◌<◌};
ghost use Rattle.sz_spec.specs.Terms.{true, Cell, holds, with_those, is_in_square, is_in_rectangle};
ghost use Rattle.sz_spec.specs.Terms.{is_in_row};

use sz_cells::{Bounds, Cell, CellBits, Run, Shape};

/// Adds the cells of the shape that are in the 3 by 3 square round a cell, and in the cell's layer.
/// Takes no memory.
pub fn square(shape: Shape, cell: Cell, to: &mut CellBits)
    requires cell { holds shape cell ≡ true }
    requires to { to.old.extent ≡ shape }
    ensures { to.new ≡ with_those to.old (is_in_square shape cell) }
{
    add_rectangle(shape, square_round(shape, cell), to);
}

/// The rectangle of the shape that is the square round a cell.
fn square_round(shape: Shape, cell: Cell) -> Bounds
    requires { holds shape cell ≡ true }
    ensures rows { result.top ≤ result.bottom }
    ensures bottom { result.bottom < shape.rows }
    ensures cols { result.left ≤ result.right }
    ensures right { result.right < shape.cols }
    ensures cells { (x : Cell) → holds shape x ≡ true
        → is_in_rectangle result x ≡ is_in_square shape cell x }
{
    let top = shape.layer_of(cell) * shape.height();
    Bounds {
        top: top.max(cell.row.saturating_sub(1)),
        left: cell.col.saturating_sub(1),
        bottom: (top + shape.height() - 1).min(cell.row + 1),
        right: (shape.cols - 1).min(cell.col + 1),
    }
}

/// Adds the cells of a rectangle of the shape.
fn add_rectangle(shape: Shape, bounds: Bounds, to: &mut CellBits)
    requires to { to.old.extent ≡ shape }
    requires rows { bounds.top ≤ bounds.bottom }
    requires cols { bounds.left ≤ bounds.right }
    requires right { bounds.right < shape.cols }
    requires bottom { bounds.bottom < shape.rows }
    ensures { to.new ≡ with_those to.old (is_in_rectangle bounds) }
{
    for row in bounds.top..bounds.bottom + 1 {
        add_row(shape, row, bounds.left, bounds.right, to);
    }
}

/// Adds the cells of a row, from one column to another.
fn add_row(shape: Shape, row: u32, left: u32, right: u32, to: &mut CellBits)
    requires to { to.old.extent ≡ shape }
    requires row { row < shape.rows }
    requires cols { left ≤ right }
    requires right { right < shape.cols }
    ensures { to.new ≡ with_those to.old (is_in_row row left right) }
{
    let run = Run {
        first: shape.index(Cell { row, col: left }),
        last: shape.index(Cell { row, col: right }),
    };
    to.add_run(run);
}
