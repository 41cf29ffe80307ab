//! Clean: a hot cell becomes the least number round it that is not hot.

ghost use Rattle.std.specs.Prelude.{◌≡◌, ◌≤◌, ◌<◌, ◌∷◌, [], true, map, None};
ghost use Rattle.std.specs.Arc.{arc_value};
ghost use Rattle.sz_cells.specs.declared.Cell.{Cell};
ghost use Rattle.sz_cells.specs.Extent.{holds};
ghost use Rattle.sz_spec.specs.declared.op.Op.TheVariants.{Clean};
ghost use Rattle.sz_spec.specs.Values.{input_at};
ghost use Rattle.sz_spec.specs.Lineage.{related};
ghost use Rattle.sz_spec.specs.Work.{IsAtWork};
ghost use Rattle.sz_spec.specs.Operators.Convolve.{is_convolved};
ghost use Rattle.sz_spec.specs.Operators.Clean.{is_hot, is_in_square, cleaned_at};
ghost use Rattle.sz_ops_window.specs.Least.{is_in_window, with_value, with_row, with_rows};

use crate::mask::Mask;
use crate::under::{add_under, meets_under, same_shape, set_under};
use crate::window::Window;
use std::alloc::Global;
use std::sync::Arc;
use sz_cells::laws::a_shape_is_within_limits;
use sz_cells::{Cell, CellBits, CellSet, NoMemory, Shape};
use sz_frame::{AtWork, Payload, input_of};
use sz_spec::{Array, Dir, OpAt, Value};

/// Cleaning at work over its input.
#[derive(Drop)]
pub struct Cleaning<'a> {
    pub at: &'a OpAt,
    pub inputs: &'a [Arc<Array>],
    pub t: i64,
    ghost kind: { at.now.op ≡ Clean t },
}

impl<'a> AtWork for Cleaning<'a> {
    ghost site = { λ c. c.at.now };

    ghost inputs = { λ c. map (λ a. arc_value a) c.inputs.now };

    fn out(&self) -> Shape {
        self.at.out()
    }

    fn arity(&self) -> u32 {
        self.at.ins().len() as u32
    }

    fn value(&self, out: Cell, _index: u32) -> Value {
        value(self.t, self.input(), out)
    }

    fn back_into(&self, out: Cell, _input: u32, to: &mut CellBits) {
        add_under(self.at.out(), &self.window(out), Dir::Back, out, to);
    }

    fn meets(&self, out: Cell, _input: u32, from: &CellBits) -> bool {
        from.shape(); // the set is that of its cells
        meets_under(self.at.out(), &self.window(out), out, from)
    }

    fn related_set(&self, alloc: Global, out: Cell, _input: u32) -> Result<Arc<CellSet>, NoMemory> {
        set_under(alloc, self.at.out(), &self.window(out), out)
    }

    fn lineage_kind(&self, _out: Cell) -> Option<u32> {
        None
    }

    fn payload_kind(&self, out: Cell) -> Option<u32> {
        Some(u32::from(is_hot(self.t, self.input(), out)))
    }

    fn payload(&self, alloc: Global, out: Cell) -> Result<Arc<Payload>, NoMemory> {
        let mut bytes = Vec::new(alloc);
        bytes.push(u8::from(is_hot(self.t, self.input(), out)))?;
        Ok(Arc::new(alloc, Payload::of(bytes))?)
    }

    fn overrides(&self, out: Cell) -> bool {
        is_hot(self.t, self.input(), out)
    }
}

impl<'a> Cleaning<'a> {
    /// The input.
    fn input(&self) -> &Array
        requires { IsAtWork self.now.at.now (map (λ a. arc_value a) self.now.inputs.now) }
        ensures value { result.now ≡ input_at (map (λ a. arc_value a) self.now.inputs.now) 0 }
        ensures shape { result.now.extent ≡ self.now.at.now.out }
    {
        same_shape(self.at);
        input_of(self.at, self.inputs, 0)
    }

    /// The window under which lie exactly the cells to which an output cell is related: the square
    /// of a hot cell, and any other cell alone.
    fn window(&self, out: Cell) -> Mask<'_>
        requires right { IsAtWork self.now.at.now (map (λ a. arc_value a) self.now.inputs.now) }
        requires out { holds self.now.at.now.out out ≡ true }
        ensures { (x : Cell) → holds self.now.at.now.out x ≡ true
            → is_convolved self.now.at.now.out result out x
            ≡ related self.now.at.now.op (map (λ a. arc_value a) self.now.inputs.now) 0 out x }
    {
        if is_hot(self.t, self.input(), out) {
            Mask::nine()
        } else {
            Mask::one()
        }
    }
}

/// The value of an output cell. Of a hot cell, each cell of the square round it that is in its
/// layer is looked at once. Which these are is found once: no cell of the square is tested for its
/// place.
pub(crate) fn value(t: i64, array: &Array, out: Cell) -> Value
    requires { holds array.now.extent out ≡ true }
    ensures { result ≡ cleaned_at t array.now out }
{
    if is_hot(t, array, out) {
        least_in(t, array, square_round(array.shape(), out))
    } else {
        array.at(out)
    }
}

/// Whether a cell is hot: it is not empty, and at least `t`.
pub(crate) fn is_hot(t: i64, array: &Array, cell: Cell) -> bool
    requires { holds array.now.extent cell ≡ true }
    ensures { result ≡ is_hot t array.now cell }
{
    match array.at(cell) {
        Some(number) => t <= number,
        None => false,
    }
}

/// The rows and columns of the array that are the square round a cell, as far as its layer goes.
fn square_round(shape: Shape, cell: Cell) -> Window
    requires { holds shape cell ≡ true }
    ensures rows { result.top ≤ result.bottom }
    ensures bottom { result.bottom ≤ shape.rows }
    ensures cols { result.left ≤ result.right }
    ensures right { result.right ≤ shape.cols }
    ensures cells { (x : Cell) → holds shape x ≡ true
        → is_in_window result x ≡ is_in_square shape cell x }
{
    a_shape_is_within_limits(&shape);
    let top = shape.layer_of(cell) * shape.height();
    Window {
        top: top.max(cell.row.saturating_sub(1)),
        bottom: (top + shape.height()).min(cell.row + 2),
        left: cell.col.saturating_sub(1),
        right: shape.cols.min(cell.col + 2),
    }
}

/// The least number below `t` in a window of the array.
fn least_in(t: i64, array: &Array, window: Window) -> Value
    requires rows { window.top ≤ window.bottom }
    requires bottom { window.bottom ≤ array.now.extent.rows }
    requires cols { window.left ≤ window.right }
    requires right { window.right ≤ array.now.extent.cols }
    ensures { result
        ≡ with_rows t array.now window.top window.bottom window.left window.right None }
{
    let mut least = None;
    for row in window.top..window.bottom {
        least = with_row(t, array, window, row, least);
    }
    least
}

/// The least number so far, with those below `t` in one row of a window.
fn with_row(t: i64, array: &Array, window: Window, row: u32, least: Value) -> Value
    requires row { row < array.now.extent.rows }
    requires cols { window.left ≤ window.right }
    requires right { window.right ≤ array.now.extent.cols }
    ensures { result ≡ with_row t array.now window.left window.right row least }
{
    let cells = array.cells();
    let shape = array.shape();
    a_shape_is_within_limits(&shape);
    let start = row * shape.cols;
    let mut least = least;
    for col in window.left..window.right {
        least = with_value(t, least, cells[(start + col) as usize]);
    }
    least
}

/// The least number so far, with a value that counts where it is a number below `t`.
fn with_value(t: i64, least: Value, value: Value) -> Value
    ensures { result ≡ with_value t least value }
{
    match (least, value) {
        (Some(a), Some(number)) if number < t => Some(a.min(number)),
        (None, Some(number)) if number < t => Some(number),
        _ => least,
    }
}
