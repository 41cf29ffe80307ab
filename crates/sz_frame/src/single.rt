//! Sets of one cell or none.

ghost use Rattle.std.specs.Prelude.{◌≡◌};
ghost use Rattle.sz_frame.specs.Terms.{true, Option, IfSome, IfOk, arc_value, holds, any_cell};
ghost use Rattle.sz_frame.specs.Terms.{cells_where, with_those, is_cell};

use std::alloc::Global;
use std::sync::Arc;
use sz_cells::{Cell, CellBits, CellSet, NoMemory, Shape};

/// Adds a cell, where there is one. Takes no memory.
pub fn add_cell(to: &mut CellBits, cell: Option<Cell>)
    requires { IfSome cell (λ c. holds to.old.extent c ≡ true) }
    ensures { to.new ≡ with_those to.old (is_cell cell) }
{
    to.shape(); // the set as it was is that of its cells
    if let Some(cell) = cell {
        to.set(cell);
    }
}

/// Whether a set has a cell, where there is one. Takes no memory.
pub fn has_cell(from: &CellBits, cell: Option<Cell>) -> bool
    ensures { result ≡ any_cell (is_cell cell) from.now }
{
    from.shape(); // the set is that of its cells
    match cell {
        Some(cell) => from.has(cell),
        None => false,
    }
}

/// The set of a cell, where there is one.
pub fn set_of_cell(
    alloc: Global,
    shape: Shape,
    cell: Option<Cell>,
) -> Result<Arc<CellSet>, NoMemory>
    requires { IfSome cell (λ c. holds shape c ≡ true) }
    ensures { IfOk result (λ s. arc_value s ≡ cells_where shape (is_cell cell)) }
{
    let set = match cell {
        Some(cell) => CellSet::from_cells(alloc, shape, &[cell])?,
        None => CellSet::from_cells(alloc, shape, &[])?,
    };
    Ok(Arc::new(alloc, set)?)
}
