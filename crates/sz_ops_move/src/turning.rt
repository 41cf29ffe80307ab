//! The whole output of a transposition. It is written strip by strip: a strip is some rows of the
//! output, so some columns of the input, and it is small enough that neither side is read or
//! written a line of memory a cell. The rows of a strip lie a little apart, so that the cells of
//! one column of it are not all kept at one place of the cache, however many rows the input has.

ghost use Rattle.std.specs.Prelude.{◌≡◌, ◌≢◌, ◌+◌, ◌-◌, ◌*◌, ◌/◌, ◌%◌, ◌<◌, ◌≤◌};
ghost use Rattle.sz_ops_move.specs.Terms.{ℕ, true, length, map, IfOk, OnOk, None, slice_index_or};
ghost use Rattle.sz_ops_move.specs.Terms.{arc_value, size_of, height_of, is_extent, Transpose};
ghost use Rattle.sz_ops_move.specs.Terms.{extent_at, input_at, IsAtWork, values_before, IsStrip};

use crate::single::sides;
use crate::slice::part;
use std::alloc::Global;
use std::sync::Arc;
use sz_cells::NoMemory;
use sz_frame::input_of;
use sz_spec::{Array, OpAt, Value};

/// How many rows of the output a strip has at most.
const WIDE: usize = 16;

/// How far from the end of one row of a strip the next one begins: four values are a line.
const APART: usize = 4;

/// The values of all output cells.
pub(crate) fn turned(
    alloc: Global,
    at: &OpAt,
    inputs: &[Arc<Array>],
) -> Result<Vec<Value>, NoMemory>
    requires op { at.now.op ≡ Transpose }
    requires right { IsAtWork at.now (map (λ a. arc_value a) inputs.now) }
    ensures { IfOk result (λ v. v.items
        ≡ values_before at.now (map (λ a. arc_value a) inputs.now) (size_of at.now.out)) }
{
    let (height, cols, rows) = sides_of(at);
    let cells = input_of(at, inputs, 0).cells();
    let pitch = height + APART;
    let mut buffer = vec![in alloc; None; WIDE * pitch]?;
    let strip = buffer.as_mut_slice();
    let mut turned = Vec::new(alloc);
    turned.reserve(rows * height)?;
    let mut row = 0;
    while row < rows {
        let wide = wide_at(row, cols);
        let first = (row / cols) * height * cols + row % cols;
        fill_strip(cells, strip, pitch, height, cols, first, wide);
        append_rows(at, inputs, strip, &mut turned, pitch, row, wide)?;
        row += wide;
    }
    Ok(turned)
}

/// How many rows and columns each layer of the input has, and how many rows all layers of the
/// output.
fn sides_of(at: &OpAt) -> (usize, usize, usize)
    requires { at.now.op ≡ Transpose }
    ensures height { result.0 ≡ height_of (extent_at at.now.ins 0) }
    ensures cols { result.1 ≡ (extent_at at.now.ins 0).cols }
    ensures rows { result.2 ≡ (extent_at at.now.ins 0).layers * result.1 }
    ensures tall { 0 < result.0 }
    ensures wide { 0 < result.1 }
    ensures size { (extent_at at.now.ins 0).layers * result.0 * result.1
        ≡ size_of (extent_at at.now.ins 0) }
    ensures out { result.2 * result.0 ≡ size_of at.now.out }
    ensures few { result.0 ≤ 1048576 }
    ensures low { result.2 ≤ 1048576 }
    ensures small { size_of (extent_at at.now.ins 0) ≤ 1048576 }
    ensures right { is_extent (extent_at at.now.ins 0) ≡ true }
{
    let (shape, made) = sides(at);
    shape.size(); // a shape is within the limits
    (
        shape.height() as usize,
        shape.cols as usize,
        made.rows as usize,
    )
}

/// How many rows the strip that begins at a row of the output has: it ends with its layer.
fn wide_at(row: usize, cols: usize) -> usize
    requires { 0 < cols }
    ensures some { 0 < result }
    ensures most { result ≤ 16 }
    ensures within { result ≤ cols - row % cols }
{
    WIDE.min(cols - row % cols)
}

/// Writes some columns, of so many rows, as rows of a strip. `first` is the index of the first cell
/// of the first column, and `pitch` how far apart the rows of the strip begin.
fn fill_strip(
    cells: &[Value],
    strip: &mut [Value],
    pitch: usize,
    height: usize,
    cols: usize,
    first: usize,
    wide: usize,
)
    requires pitch { height ≤ pitch }
    requires room { wide * pitch ≤ length strip.old }
    requires within { (r : ℕ) → r < height → first + r * cols + wide ≤ length cells.now }
    requires small { length cells.now ≤ 1048576 }
    requires few { length strip.old ≤ 33554432 }
    ensures { IsStrip cells.now strip.new pitch cols first wide height }
{
    for row in 0..height {
        let from = first + row * cols;
        fill_column(cells, strip, pitch, row, from, wide);
    }
}

/// Writes some cells that lie side by side one below another, to one column of a strip.
fn fill_column(
    cells: &[Value],
    strip: &mut [Value],
    pitch: usize,
    row: usize,
    from: usize,
    wide: usize,
)
    requires row { row < pitch }
    requires room { wide * pitch ≤ length strip.old }
    requires within { from + wide ≤ length cells.now }
    requires small { length cells.now ≤ 1048576 }
    requires few { length strip.old ≤ 33554432 }
    ensures written { (j : ℕ) → j < wide → slice_index_or strip.new (j * pitch + row) None
        ≡ slice_index_or cells.now (from + j) None }
    ensures others { (k : ℕ) → k % pitch ≢ row
        → slice_index_or strip.new k None ≡ slice_index_or strip.old k None }
{
    let mut to = row;
    for j in 0..wide {
        strip[to] = cells[from + j];
        to += pitch;
    }
}

/// Puts the rows of a strip behind the values of the rows of the output before them.
fn append_rows(
    at: &OpAt,
    inputs: &[Arc<Array>],
    strip: &[Value],
    turned: &mut Vec<Value>,
    pitch: usize,
    row: usize,
    wide: usize,
) -> Result<(), NoMemory>
    requires op { at.now.op ≡ Transpose }
    requires right { IsAtWork at.now (map (λ a. arc_value a) inputs.now) }
    requires low { row < (extent_at at.now.ins 0).layers * (extent_at at.now.ins 0).cols }
    requires within { wide ≤ (extent_at at.now.ins 0).cols - row % (extent_at at.now.ins 0).cols }
    requires pitch { height_of (extent_at at.now.ins 0) ≤ pitch }
    requires room { wide * pitch ≤ length strip.now }
    requires few { length strip.now ≤ 33554432 }
    requires strip { let e = extent_at at.now.ins 0 in
        IsStrip (input_at (map (λ a. arc_value a) inputs.now) 0).values strip.now pitch e.cols
        (row / e.cols * height_of e * e.cols + row % e.cols) wide (height_of e) }
    requires made { turned.old.items ≡ values_before at.now (map (λ a. arc_value a) inputs.now)
        (row * height_of (extent_at at.now.ins 0)) }
    ensures { OnOk result (turned.new.items ≡ values_before at.now
        (map (λ a. arc_value a) inputs.now)
        ((row + wide) * height_of (extent_at at.now.ins 0))) }
{
    let (height, _, _) = sides_of(at);
    for j in 0..wide {
        turned.extend_from_slice(part(strip, j * pitch, height))?;
    }
    Ok(())
}
