//! Convolve: the weighted sum of the cells under a kernel.

ghost use Rattle.std.specs.Prelude.{◌≡◌, ◌≤◌, ◌<◌, ◌+◌, ◌-◌, ◌*◌, ◌/◌, true, IfSome, ℕ, None};
ghost use Rattle.std.specs.Prelude.{length, map, pos, slice_index_or, IfOk};
ghost use Rattle.std.specs.Arc.{arc_value};
ghost use Rattle.sz_cells.specs.Extent.{holds, is_extent};
ghost use Rattle.sz_spec.specs.declared.op.Op.TheVariants.{Convolve};
ghost use Rattle.sz_spec.specs.Values.{fit};
ghost use Rattle.sz_spec.specs.Work.{IsAtWork};
ghost use Rattle.sz_spec.specs.Evaluation.{output_of};
ghost use Rattle.sz_spec.specs.Weights.{is_weight, is_kernel, tap_at};
ghost use Rattle.sz_spec.specs.Operators.Convolve.{convolved_at};
ghost use Rattle.sz_ops_window.specs.Sums.{times, sum_from, reach_of, IsWithin};

use crate::mask::{Mask, a_mask_is_a_kernel};
use crate::sweep::values;
use crate::under::{add_under, meets_under, same_shape, set_under};
use crate::window::Window;
use std::alloc::Global;
use std::sync::Arc;
use sz_cells::laws::a_shape_is_within_limits;
use sz_cells::{Cell, CellBits, CellSet, NoMemory, Shape};
use sz_frame::{Mapping, input_of, output_with};
use sz_spec::{Array, Dir, Kernel, OpAt, Value};

/// A convolution between its shapes.
#[derive(Drop)]
pub struct Convolution<'a> {
    pub at: &'a OpAt,
    pub kernel: &'a Kernel,
    ghost kind: { at.now.op ≡ Convolve kernel.now },
}

impl<'a> Mapping for Convolution<'a> {
    ghost site = { λ c. c.at.now };

    fn at(&self) -> &OpAt {
        self.at
    }

    fn value(&self, inputs: &[Arc<Array>], out: Cell, _index: u32) -> Value {
        same_shape(self.at);
        value(&self.mask(), input_of(self.at, inputs, 0), out)
    }

    fn back_into(&self, out: Cell, _input: u32, to: &mut CellBits) {
        let shape = same_shape(self.at);
        add_under(shape, &self.mask(), Dir::Back, out, to);
    }

    fn forward_into(&self, cell: Cell, _input: u32, to: &mut CellBits) {
        let shape = same_shape(self.at);
        add_under(shape, &self.mask(), Dir::Forward, cell, to);
    }

    fn meets(&self, out: Cell, _input: u32, from: &CellBits) -> bool {
        let shape = same_shape(self.at);
        from.shape(); // the set is that of its cells
        meets_under(shape, &self.mask(), out, from)
    }

    fn mapped_set(&self, alloc: Global, out: Cell, _input: u32) -> Result<Arc<CellSet>, NoMemory> {
        let shape = same_shape(self.at);
        set_under(alloc, shape, &self.mask(), out)
    }
}

impl<'a> Convolution<'a> {
    /// The output over these inputs.
    pub fn run(self, alloc: Global, inputs: &[Arc<Array>]) -> Result<Array, NoMemory>
        requires { IsAtWork self.at.now (map (λ a. arc_value a) inputs.now) }
        ensures { IfOk result (λ a. a
            ≡ output_of self.entry.at.now.op (map (λ a. arc_value a) inputs.now)) }
    {
        let cells = values(alloc, self.at, &self.mask(), inputs)?;
        Ok(output_with(self.at, inputs, cells))
    }
}

impl<'a> Convolution<'a> {
    /// The weights.
    fn mask(&self) -> Mask<'_>
        ensures { result ≡ self.now.kernel.now }
    {
        self.at.op(); // so the kernel is right
        Mask::of(self.kernel)
    }
}

/// The value of an output cell: the sum under the kernel, fitted once. Each weight whose cell is in
/// the layer is looked at once. Which these are is found once a cell, and where the whole kernel
/// lies in the layer they are all: no weight is tested for its place.
pub(crate) fn value(mask: &Mask<'_>, array: &Array, out: Cell) -> Value
    requires { holds array.now.extent out ≡ true }
    ensures { result ≡ convolved_at mask.now array.now out }
{
    let shape = array.shape();
    a_shape_is_within_limits(&shape);
    a_mask_is_a_kernel(mask);
    let reach = reach_of(shape, mask, out);
    fit(sum_of_rows(mask, array, out, reach)?)
}

/// A whole number as a value: empty where it is no i64.
fn fit(number: i128) -> Value
    ensures { result ≡ fit number }
{
    i64::try_from(number).ok()
}

/// The rows and columns of the kernel that lie on cells of the layer.
pub(crate) fn reach_of(shape: Shape, mask: &Mask<'_>, out: Cell) -> Window
    requires { holds shape out ≡ true }
    ensures { result ≡ reach_of shape mask.now out }
{
    a_shape_is_within_limits(&shape);
    let row = shape.row_in(out);
    let rows = mask.rows / 2;
    let cols = mask.cols / 2;
    Window {
        top: rows.saturating_sub(row),
        bottom: mask.rows.min(shape.height() + rows - row),
        left: cols.saturating_sub(out.col),
        right: mask.cols.min(shape.cols + cols - out.col),
    }
}

/// The sum under the kernel: at most 81 products of an i32 and an i64, so below 2^101. `None` where
/// one of the cells is empty.
fn sum_of_rows(mask: &Mask<'_>, array: &Array, out: Cell, reach: Window) -> Option<i128>
    requires out { holds array.now.extent out ≡ true }
    requires shape { is_extent array.now.extent ≡ true }
    requires kernel { is_kernel mask.now ≡ true }
    requires reach { reach ≡ reach_of array.now.extent mask.now out }
    ensures { result ≡ sum_from array.now mask.now out 0 (mask.now.rows * mask.now.cols) }
{
    let mut sum = 0;
    for row in reach.top..reach.bottom {
        sum += sum_of_row(mask, array, out, reach, row)?;
    }
    Some(sum)
}

/// The sum under one row of the kernel, of which all columns of the reach lie on cells. These lie
/// side by side, as their weights do: where they begin is found once a row.
fn sum_of_row(mask: &Mask<'_>, array: &Array, out: Cell, reach: Window, row: u32) -> Option<i128>
    requires out { holds array.now.extent out ≡ true }
    requires shape { is_extent array.now.extent ≡ true }
    requires kernel { is_kernel mask.now ≡ true }
    requires reach { reach ≡ reach_of array.now.extent mask.now out }
    requires top { reach.top ≤ row }
    requires bottom { row < reach.bottom }
    ensures sum { result
        ≡ sum_from array.now mask.now out (row * mask.now.cols) mask.now.cols }
    ensures bound { IfSome result (λ z. IsWithin 9 z) }
{
    let weights = weights_of_row(mask, reach, row);
    let values = values_under(mask, array, out, reach, row);
    let mut sum = 0;
    for k in 0..weights.len() {
        sum += times(weights[k], values[k])?;
    }
    Some(sum)
}

/// The weights of one row of the kernel, as far as the reach goes.
fn weights_of_row<'a>(mask: &Mask<'a>, reach: Window, row: u32) -> &'a [i64]
    requires row { row < mask.now.rows }
    requires cols { reach.left ≤ reach.right }
    requires right { reach.right ≤ mask.now.cols }
    ensures long { length result.now ≡ reach.right - reach.left }
    ensures each { (k : ℕ) → k < reach.right - reach.left → slice_index_or result.now k (pos 0)
        ≡ (tap_at mask.now (row * mask.now.cols + (reach.left + k))).weight }
    ensures small { (k : ℕ) → k < reach.right - reach.left
        → is_weight (slice_index_or result.now k (pos 0)) ≡ true }
{
    let first = (row * mask.cols + reach.left) as usize;
    &mask.weights[first..first + (reach.right - reach.left) as usize]
}

/// The values of the cells under one row of the kernel, as far as the reach goes.
fn values_under<'a>(
    mask: &Mask<'_>,
    array: &'a Array,
    out: Cell,
    reach: Window,
    row: u32,
) -> &'a [Value]
    requires out { holds array.now.extent out ≡ true }
    requires reach { reach ≡ reach_of array.now.extent mask.now out }
    requires top { reach.top ≤ row }
    requires bottom { row < reach.bottom }
    ensures long { length result.now ≡ reach.right - reach.left }
    ensures each { (k : ℕ) → k < reach.right - reach.left → slice_index_or result.now k None
        ≡ slice_index_or array.now.values (((out.row + row) - mask.now.rows / 2)
        * array.now.extent.cols + ((out.col + (reach.left + k)) - mask.now.cols / 2)) None }
{
    let shape = array.shape();
    a_shape_is_within_limits(&shape);
    let rows = mask.rows / 2;
    let cols = mask.cols / 2;
    let row_under = out.row + row - rows;
    let col_under = out.col + reach.left - cols;
    let from = row_under * shape.cols + col_under;
    part(
        array.cells(),
        from as usize,
        (reach.right - reach.left) as usize,
    )
}

/// So many values from one on.
fn part(cells: &[Value], from: usize, count: usize) -> &[Value]
    requires within { from + count ≤ length cells.now }
    requires small { length cells.now ≤ 1048576 }
    ensures long { length result.now ≡ count }
    ensures each { (k : ℕ) → k < count
        → slice_index_or result.now k None ≡ slice_index_or cells.now (from + k) None }
{
    &cells[from..from + count]
}

/// A weight times a value, and 0 where the weight is 0.
fn times(weight: i64, value: Value) -> Option<i128>
    requires { is_weight weight ≡ true }
    ensures value { result ≡ times weight value }
    ensures bound { IfSome result (λ z. IsWithin 1 z) }
{
    if weight == 0 {
        return Some(0);
    }
    let value = value?;
    Some(i128::from(weight) * i128::from(value))
}
