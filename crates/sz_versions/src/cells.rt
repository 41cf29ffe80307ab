//! Cells of a shape by their layer, row and column.

ghost use Rattle.std.specs.Prelude.{◌≡◌};
ghost use Rattle.sz_versions.specs.Terms.{true, holds, cell_in, is_place};

use sz_cells::{Cell, Shape, laws};

/// The cell of a shape in this layer, row and column.
pub(crate) fn cell_of(shape: Shape, layer: u32, row: u32, col: u32) -> Cell
    requires { is_place shape layer row col ≡ true }
    ensures cell { result ≡ cell_in shape layer row col }
    ensures held { holds shape result ≡ true }
{
    laws::a_shape_is_within_limits(&shape);
    match shape.cell_in(layer, row, col) {
        Some(cell) => cell,
        None => unreachable!(),
    }
}
