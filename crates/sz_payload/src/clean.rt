//! Payloads of cleaning: the byte 1 for the square round a cell, and 0 for the cell alone.

ghost use Rattle.std.specs.Prelude.{◌≡◌, ◌<◌, ◌≤◌, ◌==◌};
ghost use Rattle.sz_payload.specs.Terms.{length, true, false, slice_index, holds, any_cell};
ghost use Rattle.sz_payload.specs.Terms.{with_those, Cell, is_in_square, is_in_rectangle};
ghost use Rattle.sz_payload.specs.Terms.{is_in_row, extent_at, is_payload, mapped_by_payload};
ghost use Rattle.sz_payload.specs.Terms.{AreAlike, IsClean};

use crate::runs::run_meets;
use sz_cells::{Bounds, Cell, CellBits, Run, Shape};
use sz_spec::{OpAt, square};

/// Adds the square round the output cell, or the cell alone.
pub(crate) fn map_p(at: &OpAt, out: Cell, payload: &[u8], input: u32, to: &mut CellBits)
    requires op { IsClean at.now.op }
    requires out { holds at.now.out out ≡ true }
    requires input { input < length at.now.ins }
    requires to { to.old.extent ≡ extent_at at.now.ins input }
    ensures extent { to.new.extent ≡ to.old.extent }
    ensures added { is_payload at.now.op at.now.ins payload.now ≡ true → to.new ≡ with_those to.old
        (λ x. mapped_by_payload at.now.op at.now.ins payload.now input out x) }
{
    at.ins(); // there is one input
    at.out(); // and the output has its shape
    let _ = input;
    let shape = to.shape();
    if is_hot(payload) {
        square(shape, out, to);
    } else {
        to.set(out);
    }
}

/// Whether the square round the output cell, or the cell, has one of some cells.
pub(crate) fn meets(at: &OpAt, out: Cell, payload: &[u8], input: u32, from: &CellBits) -> bool
    requires op { IsClean at.now.op }
    requires out { holds at.now.out out ≡ true }
    requires payload { is_payload at.now.op at.now.ins payload.now ≡ true }
    requires input { input < length at.now.ins }
    requires from { from.now.extent ≡ extent_at at.now.ins input }
    ensures { result ≡ any_cell
        (λ x. mapped_by_payload at.now.op at.now.ins payload.now input out x) from.now }
{
    at.ins(); // there is one input
    at.out(); // and the output has its shape
    let _ = input;
    let shape = from.shape();
    if is_hot(payload) {
        square_meets(shape, out, from)
    } else {
        from.has(out)
    }
}

/// Whether the bytes are one byte, 0 or 1.
pub(crate) fn is_payload(at: &OpAt, bytes: &[u8]) -> bool
    requires { IsClean at.now.op }
    ensures { result ≡ is_payload at.now.op at.now.ins bytes.now }
{
    let _ = at;
    bytes.len() == 1 && (bytes[0] == 0 || bytes[0] == 1)
}

/// Whether the first byte is 1.
fn is_hot(payload: &[u8]) -> bool
    ensures { result ≡ (slice_index payload.now 0 == 1) }
{
    !payload.is_empty() && payload[0] == 1
}

/// It is never known.
pub(crate) fn is_alike(at: &OpAt, _payload: &[u8], _input: u32) -> bool
    ensures { result ≡ false }
{
    let _ = at;
    false
}

/// Whether the 3 by 3 square round a cell, within its layer, has one of some cells.
fn square_meets(shape: Shape, cell: Cell, from: &CellBits) -> bool
    requires cell { holds shape cell ≡ true }
    requires from { from.now.extent ≡ shape }
    ensures { result ≡ any_cell (is_in_square shape cell) from.now }
{
    from.shape(); // the set is that of its cells
    rectangle_meets(shape, square_round(shape, cell), from)
}

/// The rectangle of the shape that is the square round a cell.
fn square_round(shape: Shape, cell: Cell) -> Bounds
    requires { holds shape cell ≡ true }
    ensures rows { result.top ≤ result.bottom }
    ensures bottom { result.bottom < shape.rows }
    ensures cols { result.left ≤ result.right }
    ensures right { result.right < shape.cols }
    ensures cells { (x : Cell) → holds shape x ≡ true
        → is_in_rectangle result x ≡ is_in_square shape cell x }
{
    let top = shape.layer_of(cell) * shape.height();
    Bounds {
        top: top.max(cell.row.saturating_sub(1)),
        left: cell.col.saturating_sub(1),
        bottom: (top + shape.height() - 1).min(cell.row + 1),
        right: (shape.cols - 1).min(cell.col + 1),
    }
}

/// Whether a rectangle of the shape has one of some cells.
fn rectangle_meets(shape: Shape, bounds: Bounds, from: &CellBits) -> bool
    requires from { from.now.extent ≡ shape }
    requires rows { bounds.top ≤ bounds.bottom }
    requires cols { bounds.left ≤ bounds.right }
    requires right { bounds.right < shape.cols }
    requires bottom { bounds.bottom < shape.rows }
    ensures { result ≡ any_cell (is_in_rectangle bounds) from.now }
{
    from.shape(); // the set is that of its cells
    for row in bounds.top..bounds.bottom + 1 {
        if row_meets(shape, row, bounds.left, bounds.right, from) {
            return true;
        }
    }
    false
}

/// Whether a row, from one column to another, has one of some cells.
fn row_meets(shape: Shape, row: u32, left: u32, right: u32, from: &CellBits) -> bool
    requires from { from.now.extent ≡ shape }
    requires row { row < shape.rows }
    requires cols { left ≤ right }
    requires right { right < shape.cols }
    ensures { result ≡ any_cell (is_in_row row left right) from.now }
{
    from.shape(); // the set is that of its cells
    let run = Run {
        first: shape.index(Cell { row, col: left }),
        last: shape.index(Cell { row, col: right }),
    };
    run_meets(run, from)
}
