//! A row of 20 cells, and sets of one of them.

ghost use Rattle.std.specs.Prelude.{◌≡◌, ◌<◌, IfOk};
ghost use Rattle.std.specs.Arc.{arc_value};
ghost use Rattle.sz_cells.specs.Extent.{flat};

use std::alloc::Global;
use std::sync::Arc;
use std::test::Fail;
use sz_cells::{Cell, CellSet, Shape};

/// A shape of one row of 20 columns.
pub(crate) fn row_of_20() -> Result<Shape, Fail>
    ensures { IfOk result (λ s. s ≡ flat 1 20) }
{
    Ok(Shape::make(1, 20).ok_or("a row of 20 is a shape")?)
}

/// The set of one cell of such a row.
pub(crate) fn one_cell(alloc: Global, col: u32) -> Result<Arc<CellSet>, Fail>
    requires { col < 20 }
    ensures { IfOk result (λ s. (arc_value s).extent ≡ flat 1 20) }
{
    let set = CellSet::from_cells(alloc, row_of_20()?, &[Cell { row: 0, col }])?;
    Ok(Arc::new(alloc, set)?)
}
