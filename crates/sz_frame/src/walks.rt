//! Runs, traces and images of any operator, each one walk over the cells of an array in row-major
//! order.

ghost use Rattle.std.specs.Prelude.{◌≡◌, ◌<◌, ◌+◌, ◌^◌};
ghost use Rattle.sz_frame.specs.Terms.{true, length, map, IfOk, arc_value, holds, index_of};
ghost use Rattle.sz_frame.specs.Terms.{cell_of, size_of, has, with_those, output_of, related};
ghost use Rattle.sz_frame.specs.Terms.{mapped, IsAtWork, near_side, far_side, image_in, traced};
ghost use Rattle.sz_frame.specs.Terms.{steps, values_before};

use crate::frame::AtWork;
use std::alloc::Global;
use std::sync::Arc;
use sz_cells::{Cell, CellBits, NoMemory, Shape};
use sz_spec::{Array, Dir, Mapper, OpAt, Tally, Value};

/// The output of an operator at work. One pass over its cells.
pub fn run_by<A: AtWork>(alloc: Global, at: &A) -> Result<Array, NoMemory>
    requires right { IsAtWork (A.site at.now) (A.inputs at.now) }
    ensures { IfOk result (λ a. a ≡ output_of (A.site at.now).op (A.inputs at.now)) }
{
    let shape = at.out();
    let mut cells = Vec::new(alloc);
    cells.reserve(shape.size() as usize)?;
    let mut cell = Cell { row: 0, col: 0 };
    for index in 0..shape.size() {
        cells.push(at.value(cell, index))?;
        cell = cell_after(&shape, cell);
    }
    match Array::make(shape, cells) {
        Some(array) => Ok(array),
        None => unreachable!(),
    }
}

/// The output of an operator at work, of the values of all its cells in row-major order: for an
/// operator that makes them in a way of its own.
pub fn output_with(at: &OpAt, _inputs: &[Arc<Array>], cells: Vec<Value>) -> Array
    requires right { IsAtWork at.now (map (λ a. arc_value a) _inputs.now) }
    requires values { cells.items
        ≡ values_before at.now (map (λ a. arc_value a) _inputs.now) (size_of at.now.out) }
    ensures { result ≡ output_of at.now.op (map (λ a. arc_value a) _inputs.now) }
{
    match Array::make(at.out(), cells) {
        Some(array) => array,
        None => unreachable!(),
    }
}

/// Adds the image of a set of cells by tracing: each output cell is looked at once. Takes no
/// memory.
pub fn trace_by<A: AtWork>(
    at: &A,
    dir: Dir,
    input: u32,
    from: &CellBits,
    to: &mut CellBits,
    tally: &mut Tally,
)
    requires right { IsAtWork (A.site at.now) (A.inputs at.now) }
    requires input { input < length (A.site at.now).ins }
    requires from { from.now.extent ≡ near_side dir (A.site at.now) input }
    requires to { to.old.extent ≡ far_side dir (A.site at.now) input }
    requires room { tally.old + size_of (A.site at.now).out < 2 ^ 63 }
    ensures to { let s = A.site at.now in to.new ≡ with_those to.old
        (has (image_in dir s input (related s.op (A.inputs at.now) input) from.now)) }
    ensures ticks { tally.new ≡ tally.old + size_of (A.site at.now).out }
{
    from.shape(); // the sets as they were are those of their cells
    to.shape();
    let shape = at.out();
    let mut cell = Cell { row: 0, col: 0 };
    for index in 0..shape.size() {
        trace_cell(at, dir, input, cell, from, to);
        tally.tick();
        cell = cell_after(&shape, cell);
    }
}

/// Adds what tracing one output cell adds.
fn trace_cell<A: AtWork>(
    at: &A,
    dir: Dir,
    input: u32,
    cell: Cell,
    from: &CellBits,
    to: &mut CellBits,
)
    requires right { IsAtWork (A.site at.now) (A.inputs at.now) }
    requires cell { holds (A.site at.now).out cell ≡ true }
    requires input { input < length (A.site at.now).ins }
    requires from { from.now.extent ≡ near_side dir (A.site at.now) input }
    requires to { to.old.extent ≡ far_side dir (A.site at.now) input }
    ensures { let s = A.site at.now in to.new ≡ with_those to.old
        (traced dir (related s.op (A.inputs at.now) input) from.now cell) }
{
    to.shape(); // the set as it was is that of its cells
    match dir {
        Dir::Back => {
            if from.has(cell) {
                at.back_into(cell, input, to);
            }
        }
        Dir::Forward => {
            if at.meets(cell, input, from) {
                to.set(cell);
            }
        }
    }
}

/// Adds the image of a set of cells under a mapping: cell by cell of the set. Takes no memory.
pub fn image_by<M: Mapper>(map: &M, dir: Dir, input: u32, from: &CellBits, to: &mut CellBits)
    requires input { input < length (M.site map.now).ins }
    requires from { from.now.extent ≡ near_side dir (M.site map.now) input }
    requires to { to.old.extent ≡ far_side dir (M.site map.now) input }
    ensures { let s = M.site map.now in to.new ≡ with_those to.old
        (has (image_in dir s input (mapped s.op s.ins input) from.now)) }
{
    to.shape(); // the set as it was is that of its cells
    let shape = from.shape();
    let end = shape.size();
    let mut start = 0;
    while start < end {
        match from.next_after(start) {
            Some(index) => {
                map_cell(map, dir, input, shape.cell_at(index), to);
                start = index + 1;
            }
            None => start = end,
        }
    }
}

/// Adds what mapping one cell adds.
fn map_cell<M: Mapper>(map: &M, dir: Dir, input: u32, cell: Cell, to: &mut CellBits)
    requires input { input < length (M.site map.now).ins }
    requires cell { holds (near_side dir (M.site map.now) input) cell ≡ true }
    requires to { to.old.extent ≡ far_side dir (M.site map.now) input }
    ensures { let s = M.site map.now in to.new ≡ with_those to.old
        (steps dir (mapped s.op s.ins input) cell) }
{
    match dir {
        Dir::Back => map.map_b_into(cell, input, to),
        Dir::Forward => map.map_f_into(cell, input, to),
    }
}

/// The cell behind another one in row-major order.
pub(crate) fn cell_after(shape: &Shape, cell: Cell) -> Cell
    requires { holds shape.now cell ≡ true }
    ensures { result ≡ cell_of shape.now (index_of shape.now cell + 1) }
{
    let cols = shape.cols;
    if cell.col + 1 < cols {
        Cell {
            row: cell.row,
            col: cell.col + 1,
        }
    } else {
        Cell {
            row: cell.row + 1,
            col: 0,
        }
    }
}
