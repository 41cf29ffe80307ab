//! The neighbours of a cell in its layer.

ghost use Rattle.std.specs.Prelude.{◌≡◌, ◌+◌, ◌<◌, ◌≤◌, ◌==◌, ◌&&◌};
ghost use Rattle.sz_ops_region.specs.Terms.{true, nat_le, nat_lt, IfSome, Some, Cell, holds};
ghost use Rattle.sz_ops_region.specs.Terms.{layer_of, are_neighbours, is_on, IsBandOf};

use sz_cells::{Cell, Shape};

/// A side of a cell.
#[derive(Clone, Copy)]
pub(crate) enum Side {
    Above,
    Below,
    Left,
    Right,
}

/// The rows of a layer: from `top` to before `end`.
#[derive(Clone, Copy)]
pub(crate) struct Band {
    pub(crate) top: u32,
    pub(crate) end: u32,
}

impl Band {
    /// The rows of a layer of a shape.
    pub(crate) fn of(shape: &Shape, layer: u32) -> Band
        requires { layer < shape.now.layers }
        ensures band { IsBandOf shape.now result layer }
        ensures order { result.top ≤ result.end }
        ensures within { result.end ≤ shape.now.rows }
    {
        let _ = &shape.rows; // a shape is within the limits
        let height = shape.height();
        let top = layer * height;
        Band {
            top,
            end: top + height,
        }
    }

    /// Whether a row is one of these.
    fn has(&self, row: u32) -> bool
        ensures { result ≡ (nat_le self.now.top row && nat_lt row self.now.end) }
    {
        self.top <= row && row < self.end
    }
}

/// The neighbour of a cell on a side. `None` exactly where the cell's layer, of which the rows are
/// given, has none there.
pub(crate) fn neighbour(shape: &Shape, band: Band, cell: Cell, side: Side) -> Option<Cell>
    requires cell { holds shape.now cell ≡ true }
    requires band { IsBandOf shape.now band (layer_of shape.now cell) }
    ensures held { IfSome result (λ c. holds shape.now c ≡ true) }
    ensures near { IfSome result (λ c. are_neighbours shape.now cell c ≡ true) }
    ensures all { (c : Cell) → holds shape.now c ≡ true → are_neighbours shape.now cell c ≡ true
        → is_on side cell c ≡ true → result ≡ Some c }
{
    let beside = beside(shape, cell, side)?;
    if is_of_layer(shape, band, cell, beside) {
        Some(beside)
    } else {
        None
    }
}

/// Whether a cell is of the layer of another one, of which the rows are given.
fn is_of_layer(shape: &Shape, band: Band, cell: Cell, beside: Cell) -> bool
    requires { IsBandOf shape.now band (layer_of shape.now cell) }
    ensures { result ≡ (layer_of shape.now cell == layer_of shape.now beside) }
{
    band.has(beside.row)
}

/// The cell of the shape beside a cell on a side, whatever its layer. `None` exactly where the
/// shape has none there.
fn beside(shape: &Shape, cell: Cell, side: Side) -> Option<Cell>
    requires { holds shape.now cell ≡ true }
    ensures held { IfSome result (λ c. holds shape.now c ≡ true) }
    ensures on { IfSome result (λ c. is_on side cell c ≡ true) }
    ensures all { (c : Cell) → holds shape.now c ≡ true → is_on side cell c ≡ true
        → result ≡ Some c }
{
    let Cell { row, col } = cell;
    match side {
        Side::Above if row > 0 => Some(Cell { row: row - 1, col }),
        Side::Below if row + 1 < shape.rows => Some(Cell { row: row + 1, col }),
        Side::Left if col > 0 => Some(Cell { row, col: col - 1 }),
        Side::Right if col + 1 < shape.cols => Some(Cell { row, col: col + 1 }),
        _ => None,
    }
}
