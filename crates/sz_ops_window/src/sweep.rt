//! The whole output of a convolution. Where the numbers are small, a row of it is summed weight by
//! weight: each weight that is not 0 goes once over the whole row, and no cell is tested. The sums
//! are then those of an i32, of which a processor makes several at once. Which cells of the row
//! have an empty cell under a weight is marked in the same way, by rows that have empty cells
//! alone. Where a row under the kernel has a number that is not small, each cell is summed by
//! itself.

ghost use Rattle.std.specs.Prelude.{◌≡◌, ℕ, pos, ◌+◌, ◌-◌, ◌*◌, ◌/◌, ◌^◌, ◌<◌, ◌≤◌, ◌+ℤ◌, ◌*ℤ◌};
ghost use Rattle.std.specs.Prelude.{min, true, false, ◌||◌, length, map, IfOk, OnOk, None};
ghost use Rattle.std.specs.Prelude.{slice_index_or, is_none};
ghost use Rattle.std.specs.Int.RustNames.{unsigned_abs};
ghost use Rattle.std.specs.Arc.{arc_value};
ghost use Rattle.sz_cells.specs.Extent.{size_of, cell_of};
ghost use Rattle.sz_spec.specs.declared.op.Op.TheVariants.{Convolve};
ghost use Rattle.sz_spec.specs.Evaluation.{value_of};
ghost use Rattle.sz_spec.specs.Weights.{tap_at};
ghost use Rattle.sz_spec.specs.Work.{IsAtWork};
ghost use Rattle.sz_frame.specs.Walks.{values_before};
ghost use Rattle.sz_ops_window.specs.Sums.{reach_of};
ghost use Rattle.sz_ops_window.specs.Sweeps.{is_small, number_of, ArePlain, IsSmooth, AreNumbers};
ghost use Rattle.sz_ops_window.specs.Sweeps.{AreSums, AreVoids, AreWhole, unless};

use crate::convolve::{reach_of, value};
use crate::mask::{Mask, a_mask_is_a_kernel};
use crate::under::same_shape;
use crate::window::Window;
use std::alloc::Global;
use std::sync::Arc;
use sz_cells::laws::a_shape_is_within_limits;
use sz_cells::{Cell, NoMemory};
use sz_frame::input_of;
use sz_spec::{Array, OpAt, Value};

/// How large weights and numbers are, so that 81 products of two of them are an i32.
#[derive(Clone, Copy)]
pub(crate) struct Limits {
    weight: u32,
    number: u32,
    ghost fits: { 81 * (weight * number) < 2 ^ 31 },
    ghost small: { number < 2 ^ 31 },
}

/// What is read of an array's cells before they are summed: of each the number, where it is small,
/// and whether it is empty; and of each row whether it has no empty cell.
#[derive(Clone, Copy)]
struct Sheet<'a> {
    numbers: &'a [i32],
    voids: &'a [bool],
    whole: &'a [bool],
}

/// The sums at the cells of a row, and at which of them there is none.
#[derive(Drop)]
struct Sums {
    sums: Vec<i32>,
    marks: Vec<bool>,
}

/// The values of all output cells.
pub(crate) fn values(
    alloc: Global,
    at: &OpAt,
    mask: &Mask<'_>,
    inputs: &[Arc<Array>],
) -> Result<Vec<Value>, NoMemory>
    requires op { at.now.op ≡ Convolve mask.now }
    requires right { IsAtWork at.now (map (λ a. arc_value a) inputs.now) }
    ensures { IfOk result (λ v. v.items
        ≡ values_before at.now (map (λ a. arc_value a) inputs.now) (size_of at.now.out)) }
{
    let shape = same_shape(at);
    let array = input_of(at, inputs, 0);
    a_mask_is_a_kernel(mask);
    let limits = limits_of(mask);
    let numbers = numbers_of(alloc, limits.number, array.cells())?;
    let voids = voids_of(alloc, array.cells())?;
    let whole = whole_rows(alloc, array, &voids)?;
    let plain = plain_rows(alloc, limits.number, array)?;
    let sheet = Sheet {
        numbers: &numbers,
        voids: &voids,
        whole: &whole,
    };
    let mut values = Vec::new(alloc);
    values.reserve(shape.size() as usize)?;
    for row in 0..shape.rows {
        let reach = reach_of(shape, mask, Cell { row, col: 0 });
        if is_smooth(limits.number, mask, array, &plain, row, reach) {
            let sums = sums_of(alloc, limits, mask, array, sheet, row, reach)?;
            append_sums(at, inputs, &sums, row, &mut values)?;
        } else {
            append_values(at, mask, inputs, row, &mut values)?;
        }
    }
    Ok(values)
}

/// Limits of which the first is that of the heaviest weight.
fn limits_of(mask: &Mask<'_>) -> Limits
    ensures { (n : ℕ) → n < mask.now.rows * mask.now.cols
        → unsigned_abs (tap_at mask.now n).weight ≤ result.weight }
{
    let mut weight = 1;
    for number in 0..mask.rows * mask.cols {
        weight = weight.max(mask.weight(number).unsigned_abs());
    }
    limits_for(weight as u32)
}

/// Limits for weights up to this one.
fn limits_for(weight: u32) -> Limits
    requires { 0 < weight }
    ensures { result.weight ≡ weight }
{
    Limits {
        weight,
        number: (2_147_483_647 / (81 * u64::from(weight))) as u32,
    }
}

/// Of each value the number, where it is small.
fn numbers_of(alloc: Global, most: u32, cells: &[Value]) -> Result<Vec<i32>, NoMemory>
    requires { most < 2 ^ 31 }
    ensures { IfOk result (λ v. AreNumbers most cells.now v.items) }
{
    let mut numbers = Vec::new(alloc);
    numbers.reserve(cells.len())?;
    for cell in 0..cells.len() {
        numbers.push(number_of(most, cells[cell]))?;
    }
    Ok(numbers)
}

/// The number of a value, where it is small, and else 0.
fn number_of(most: u32, value: Value) -> i32
    requires { most < 2 ^ 31 }
    ensures { result ≡ number_of most value }
{
    match value {
        Some(number) if number.unsigned_abs() <= u64::from(most) => number as i32,
        _ => 0,
    }
}

/// Whether a value is empty or a small number.
fn is_small(most: u32, value: Value) -> bool
    ensures { result ≡ is_small most value }
{
    match value {
        Some(number) => number.unsigned_abs() <= u64::from(most),
        None => true,
    }
}

/// Of each value whether it is empty.
fn voids_of(alloc: Global, cells: &[Value]) -> Result<Vec<bool>, NoMemory>
    ensures { IfOk result (λ v. AreVoids cells.now v.items) }
{
    let mut voids = Vec::new(alloc);
    voids.reserve(cells.len())?;
    for cell in 0..cells.len() {
        voids.push(cells[cell].is_none())?;
    }
    Ok(voids)
}

/// Of each row whether it has no empty cell.
fn whole_rows(alloc: Global, array: &Array, voids: &[bool]) -> Result<Vec<bool>, NoMemory>
    requires { length voids.now ≡ length array.now.values }
    ensures long { IfOk result (λ v. length v.items ≡ array.now.extent.rows) }
    ensures whole { IfOk result (λ v. AreWhole array.now.extent.cols voids.now v.items) }
{
    let shape = array.shape();
    a_shape_is_within_limits(&shape);
    let mut whole = Vec::new(alloc);
    for row in 0..shape.rows {
        whole.push(is_whole(array, voids, row))?;
    }
    Ok(whole)
}

/// Whether no cell of a row is empty.
fn is_whole(array: &Array, voids: &[bool], row: u32) -> bool
    requires row { row < array.now.extent.rows }
    requires long { length voids.now ≡ length array.now.values }
    ensures { result ≡ true → (x : ℕ) → x < array.now.extent.cols
        → slice_index_or voids.now (row * array.now.extent.cols + x) false ≡ false }
{
    array.cells(); // as many as the shape has
    let shape = array.shape();
    a_shape_is_within_limits(&shape);
    let first = row * shape.cols;
    for col in 0..shape.cols {
        if voids[(first + col) as usize] {
            return false;
        }
    }
    true
}

/// Of each row whether all its cells are empty or hold small numbers.
fn plain_rows(alloc: Global, most: u32, array: &Array) -> Result<Vec<bool>, NoMemory>
    ensures long { IfOk result (λ v. length v.items ≡ array.now.extent.rows) }
    ensures plain { IfOk result (λ v. ArePlain most array.now v.items) }
{
    let shape = array.shape();
    a_shape_is_within_limits(&shape);
    let mut plain = Vec::new(alloc);
    for row in 0..shape.rows {
        plain.push(is_plain(most, array, row))?;
    }
    Ok(plain)
}

/// Whether all cells of a row are empty or hold small numbers.
fn is_plain(most: u32, array: &Array, row: u32) -> bool
    requires { row < array.now.extent.rows }
    ensures { result ≡ true → (x : ℕ) → x < array.now.extent.cols → is_small most
        (slice_index_or array.now.values (row * array.now.extent.cols + x) None) ≡ true }
{
    let cells = array.cells();
    let shape = array.shape();
    a_shape_is_within_limits(&shape);
    let start = row * shape.cols;
    for col in 0..shape.cols {
        if !is_small(most, cells[(start + col) as usize]) {
            return false;
        }
    }
    true
}

/// Whether all rows under the kernel are plain, where its middle lies on a row.
fn is_smooth(
    most: u32,
    mask: &Mask<'_>,
    array: &Array,
    plain: &[bool],
    row: u32,
    reach: Window,
) -> bool
    requires row { row < array.now.extent.rows }
    requires reach { reach ≡ reach_of array.now.extent mask.now (record { row = row; col = 0 }) }
    requires long { length plain.now ≡ array.now.extent.rows }
    requires plain { ArePlain most array.now plain.now }
    ensures { result ≡ true → IsSmooth most array.now mask.now row }
{
    let shape = array.shape();
    a_shape_is_within_limits(&shape);
    for k in reach.top..reach.bottom {
        if !plain[(row + k - mask.rows / 2) as usize] {
            return false;
        }
    }
    true
}

/// The sums at all cells of a row.
fn sums_of(
    alloc: Global,
    limits: Limits,
    mask: &Mask<'_>,
    array: &Array,
    sheet: Sheet<'_>,
    row: u32,
    reach: Window,
) -> Result<Sums, NoMemory>
    requires row { row < array.now.extent.rows }
    requires reach { reach ≡ reach_of array.now.extent mask.now (record { row = row; col = 0 }) }
    requires weights { (n : ℕ) → n < mask.now.rows * mask.now.cols
        → unsigned_abs (tap_at mask.now n).weight ≤ limits.weight }
    requires numbers { AreNumbers limits.number array.now.values sheet.numbers.now }
    requires voids { AreVoids array.now.values sheet.voids.now }
    requires whole { AreWhole array.now.extent.cols sheet.voids.now sheet.whole.now }
    requires rows { length sheet.whole.now ≡ array.now.extent.rows }
    requires smooth { IsSmooth limits.number array.now mask.now row }
    ensures long { IfOk result (λ v. length v.sums.items ≡ array.now.extent.cols) }
    ensures marks { IfOk result (λ v. length v.marks.items ≡ array.now.extent.cols) }
    ensures sums { IfOk result (λ v. AreSums array.now mask.now row (mask.now.rows * mask.now.cols)
        (limits.weight * limits.number) v.sums.items v.marks.items) }
{
    let shape = array.shape();
    a_shape_is_within_limits(&shape);
    let mut sums = vec![in alloc; 0i32; shape.cols as usize]?;
    let mut marks = vec![in alloc; false; shape.cols as usize]?;
    for number in 0..mask.rows * mask.cols {
        add_tap(
            limits, mask, array, sheet, row, reach, number, &mut sums, &mut marks,
        );
    }
    Ok(Sums { sums, marks })
}

/// Adds what the tap of a number adds, to the sums of those before it.
fn add_tap(
    limits: Limits,
    mask: &Mask<'_>,
    array: &Array,
    sheet: Sheet<'_>,
    row: u32,
    reach: Window,
    number: u32,
    sums: &mut [i32],
    marks: &mut [bool],
)
    requires row { row < array.now.extent.rows }
    requires reach { reach ≡ reach_of array.now.extent mask.now (record { row = row; col = 0 }) }
    requires weights { (n : ℕ) → n < mask.now.rows * mask.now.cols
        → unsigned_abs (tap_at mask.now n).weight ≤ limits.weight }
    requires numbers { AreNumbers limits.number array.now.values sheet.numbers.now }
    requires voids { AreVoids array.now.values sheet.voids.now }
    requires whole { AreWhole array.now.extent.cols sheet.voids.now sheet.whole.now }
    requires rows { length sheet.whole.now ≡ array.now.extent.rows }
    requires smooth { IsSmooth limits.number array.now mask.now row }
    requires number { number < mask.now.rows * mask.now.cols }
    requires long { length sums.old ≡ array.now.extent.cols }
    requires wide { length marks.old ≡ array.now.extent.cols }
    requires sums { AreSums array.now mask.now row number (limits.weight * limits.number)
        sums.old marks.old }
    ensures long { length sums.new ≡ length sums.old }
    ensures wide { length marks.new ≡ length marks.old }
    ensures sums { AreSums array.now mask.now row (number + 1) (limits.weight * limits.number)
        sums.new marks.new }
{
    let shape = array.shape();
    a_shape_is_within_limits(&shape);
    a_mask_is_a_kernel(mask);
    array.cells(); // as many as the shape has
    let weight = weight_of(mask, number);
    let down = number / mask.cols;
    let across = number % mask.cols;
    if weight == 0 || down < reach.top || reach.bottom <= down {
        return;
    }
    let (first, end) = reached(shape.cols, mask.cols / 2, across);
    if first < end {
        let under = row + down - mask.rows / 2;
        let start = (under * shape.cols + (first + across - mask.cols / 2)) as usize;
        let count = (end - first) as usize;
        let numbers = sheet.numbers;
        add_times(
            limits,
            number,
            weight,
            numbers,
            start,
            count,
            sums,
            first as usize,
        );
        let whole = sheet.whole[under as usize];
        mark_where(whole, sheet.voids, start, count, marks, first as usize);
    }
}

/// The weight of a number, which is an i32.
fn weight_of(mask: &Mask<'_>, number: u32) -> i32
    requires { number < mask.now.rows * mask.now.cols }
    ensures { result ≡ (tap_at mask.now number).weight }
{
    mask.weight(number) as i32
}

/// The columns of a row of so many in which a tap lies on a cell of the row, from the first to
/// before the second.
fn reached(cols: u32, middle: u32, across: u32) -> (u32, u32)
    requires cols { cols ≤ 1048576 }
    requires middle { middle ≤ 1048576 }
    ensures first { result.0 ≡ min cols (middle - across) }
    ensures end { result.1 ≡ min cols ((cols + middle) - across) }
{
    let first = cols.min(middle.saturating_sub(across));
    let end = cols.min((cols + middle).saturating_sub(across));
    (first, end)
}

/// Adds a weight times so many numbers, from one on, to as many sums, from one on. The sums are of
/// so many taps.
fn add_times(
    limits: Limits,
    taps: u32,
    weight: i32,
    numbers: &[i32],
    start: usize,
    count: usize,
    sums: &mut [i32],
    first: usize,
)
    requires taps { taps < 81 }
    requires weight { unsigned_abs weight ≤ limits.weight }
    requires numbers { (k : ℕ) → k < length numbers.now
        → unsigned_abs (slice_index_or numbers.now k (pos 0)) ≤ limits.number }
    requires sums { (k : ℕ) → k < length sums.old → unsigned_abs
        (slice_index_or sums.old k (pos 0)) ≤ taps * (limits.weight * limits.number) }
    requires within { start + count ≤ length numbers.now }
    requires few { length numbers.now ≤ 1048576 }
    requires room { first + count ≤ length sums.old }
    requires short { length sums.old ≤ 1048576 }
    ensures long { length sums.new ≡ length sums.old }
    ensures added { (k : ℕ) → k < count → slice_index_or sums.new (first + k) (pos 0)
        ≡ slice_index_or sums.old (first + k) (pos 0)
        +ℤ weight *ℤ slice_index_or numbers.now (start + k) (pos 0) }
    ensures before { (k : ℕ) → k < first
        → slice_index_or sums.new k (pos 0) ≡ slice_index_or sums.old k (pos 0) }
    ensures behind { (k : ℕ) → first + count ≤ k
        → slice_index_or sums.new k (pos 0) ≡ slice_index_or sums.old k (pos 0) }
{
    for k in 0..count {
        sums[first + k] += weight * numbers[start + k];
    }
}

/// Marks of so many cells, from one on, those that are empty, at as many marks, from one on. Where
/// none of them is, none is looked at.
fn mark_where(
    whole: bool,
    voids: &[bool],
    start: usize,
    count: usize,
    marks: &mut [bool],
    first: usize,
)
    requires none { whole ≡ true
        → (k : ℕ) → k < count → slice_index_or voids.now (start + k) false ≡ false }
    requires within { start + count ≤ length voids.now }
    requires few { length voids.now ≤ 1048576 }
    requires room { first + count ≤ length marks.old }
    requires short { length marks.old ≤ 1048576 }
    ensures long { length marks.new ≡ length marks.old }
    ensures added { (k : ℕ) → k < count → slice_index_or marks.new (first + k) false
        ≡ (slice_index_or marks.old (first + k) false
        || slice_index_or voids.now (start + k) false) }
    ensures before { (k : ℕ) → k < first
        → slice_index_or marks.new k false ≡ slice_index_or marks.old k false }
    ensures behind { (k : ℕ) → first + count ≤ k
        → slice_index_or marks.new k false ≡ slice_index_or marks.old k false }
{
    if whole {
        return;
    }
    for k in 0..count {
        marks[first + k] = marks[first + k] | voids[start + k];
    }
}

/// Puts the sums of a row behind the values of the rows before it.
fn append_sums(
    at: &OpAt,
    _inputs: &[Arc<Array>],
    row_sums: &Sums,
    _row: u32,
    values: &mut Vec<Value>,
) -> Result<(), NoMemory>
    requires right { IsAtWork at.now (map (λ a. arc_value a) _inputs.now) }
    requires long { length row_sums.now.sums.items ≡ at.now.out.cols }
    requires wide { length row_sums.now.marks.items ≡ at.now.out.cols }
    requires sums { (k : ℕ) → k < at.now.out.cols
        → unless (slice_index_or row_sums.now.marks.items k false)
        (slice_index_or row_sums.now.sums.items k (pos 0))
        ≡ value_of at.now.op (map (λ a. arc_value a) _inputs.now)
        (cell_of at.now.out (_row * at.now.out.cols + k)) }
    requires made { values.old.items ≡ values_before at.now (map (λ a. arc_value a) _inputs.now)
        (_row * at.now.out.cols) }
    ensures { OnOk result (values.new.items ≡ values_before at.now
        (map (λ a. arc_value a) _inputs.now) ((_row + 1) * at.now.out.cols)) }
{
    at.op();
    let sums = row_sums.sums.as_slice();
    let marks = row_sums.marks.as_slice();
    for k in 0..sums.len() {
        values.push(value_unless(marks[k], sums[k]))?;
    }
    Ok(())
}

/// Nothing, or a sum as a value.
fn value_unless(void: bool, sum: i32) -> Value
    ensures { result ≡ unless void sum }
{
    if void { None } else { Some(i64::from(sum)) }
}

/// Puts the values of a row, cell by cell, behind those of the rows before it.
fn append_values(
    at: &OpAt,
    mask: &Mask<'_>,
    inputs: &[Arc<Array>],
    row: u32,
    values: &mut Vec<Value>,
) -> Result<(), NoMemory>
    requires op { at.now.op ≡ Convolve mask.now }
    requires right { IsAtWork at.now (map (λ a. arc_value a) inputs.now) }
    requires row { row < at.now.out.rows }
    requires made { values.old.items ≡ values_before at.now (map (λ a. arc_value a) inputs.now)
        (row * at.now.out.cols) }
    ensures { OnOk result (values.new.items ≡ values_before at.now
        (map (λ a. arc_value a) inputs.now) ((row + 1) * at.now.out.cols)) }
{
    let shape = same_shape(at);
    let array = input_of(at, inputs, 0);
    for col in 0..shape.cols {
        values.push(value(mask, array, Cell { row, col }))?;
    }
    Ok(())
}
