//! Lookup: a cell of the first input names a column of the second, which is a table of one row.

ghost use Rattle.std.specs.Prelude.{◌≡◌, ◌<◌, ◌≤◌, ℤ, [], ◌∷◌, true, length, map, Option};
ghost use Rattle.std.specs.Prelude.{option_map, IfSome, IfOk, vec_len, vec_capacity};
ghost use Rattle.std.specs.Arc.{arc_value};
ghost use Rattle.std.specs.Option.{option_map_or};
ghost use Rattle.sz_cells.specs.Extent.{holds};
ghost use Rattle.sz_cells.specs.SetBytes.{four_bytes};
ghost use Rattle.sz_spec.specs.declared.op.Op.TheVariants.{Lookup};
ghost use Rattle.sz_spec.specs.Values.{input_at, extent_at};
ghost use Rattle.sz_spec.specs.Lineage.{related};
ghost use Rattle.sz_spec.specs.Evaluation.{output_of};
ghost use Rattle.sz_spec.specs.Work.{IsAtWork};
ghost use Rattle.sz_frame.specs.Groups.{kind_of};
ghost use Rattle.sz_frame.specs.Single.{IsOnly};
ghost use Rattle.sz_ops_move.specs.Entries.{entry_of};
ghost use Rattle.sz_spec.specs.Operators.Lookup.{column_of, match_of, entry_at, looked_up};

use std::alloc::Global;
use std::sync::Arc;
use sz_cells::laws::a_shape_is_within_limits;
use sz_cells::{Cell, CellBits, CellSet, NoMemory, Shape};
use sz_frame::{AtWork, Payload, add_cell, has_cell, input_of, output_with, set_of_cell};
use sz_spec::{Array, OpAt, Value};

/// A lookup at work over the array of columns and the table.
#[derive(Drop)]
pub struct Matching<'a> {
    pub at: &'a OpAt,
    pub inputs: &'a [Arc<Array>],
    ghost kind: { at.now.op ≡ Lookup },
}

impl<'a> AtWork for Matching<'a> {
    ghost site = { λ m. m.at.now };

    ghost inputs = { λ m. map (λ a. arc_value a) m.inputs.now };

    fn out(&self) -> Shape {
        self.at.out()
    }

    fn arity(&self) -> u32 {
        self.at.ins().len() as u32
    }

    fn value(&self, out: Cell, _index: u32) -> Value {
        value(self.input(0), self.input(1), out)
    }

    fn back_into(&self, out: Cell, input: u32, to: &mut CellBits) {
        add_cell(to, self.cell_of(out, input));
    }

    fn meets(&self, out: Cell, input: u32, from: &CellBits) -> bool {
        from.shape(); // the set is that of its cells
        has_cell(from, self.cell_of(out, input))
    }

    fn related_set(&self, alloc: Global, out: Cell, input: u32) -> Result<Arc<CellSet>, NoMemory> {
        let shape = self.at.ins()[input as usize];
        set_of_cell(alloc, shape, self.cell_of(out, input))
    }

    fn lineage_kind(&self, _out: Cell) -> Option<u32> {
        None
    }

    fn payload_kind(&self, out: Cell) -> Option<u32> {
        Some(payload_kind(self.input(0), self.input(1), out))
    }

    fn payload(&self, alloc: Global, out: Cell) -> Result<Arc<Payload>, NoMemory> {
        payload(alloc, self.input(0), self.input(1), out)
    }

    fn overrides(&self, out: Cell) -> bool {
        matched(self.input(0), self.input(1), out).is_some()
    }
}

impl<'a> Matching<'a> {
    /// One of the two inputs.
    fn input(&self, input: u32) -> &Array
        requires right { IsAtWork self.now.at.now (map (λ a. arc_value a) self.now.inputs.now) }
        requires input { input < 2 }
        ensures value { result.now
            ≡ input_at (map (λ a. arc_value a) self.now.inputs.now) input }
        ensures shape { result.now.extent ≡ extent_at self.now.at.now.ins input }
    {
        self.at.ins(); // there are two inputs
        input_of(self.at, self.inputs, input)
    }

    /// The cell of an input to which an output cell is related, where there is one.
    fn cell_of(&self, out: Cell, input: u32) -> Option<Cell>
        requires right { IsAtWork self.now.at.now (map (λ a. arc_value a) self.now.inputs.now) }
        requires out { holds self.now.at.now.out out ≡ true }
        requires input { input < length self.now.at.now.ins }
        ensures held { IfSome result (λ c. holds (extent_at self.now.at.now.ins input) c ≡ true) }
        ensures only { IsOnly (extent_at self.now.at.now.ins input)
            (related self.now.at.now.op (map (λ a. arc_value a) self.now.inputs.now) input out)
            result }
    {
        if input == 0 {
            Some(out)
        } else {
            matched(self.input(0), self.input(1), out)
        }
    }
}

impl<'a> Matching<'a> {
    /// The output. One pass over the columns that are named.
    pub fn run(&self, alloc: Global) -> Result<Array, NoMemory>
        requires { IsAtWork self.now.at.now (map (λ a. arc_value a) self.now.inputs.now) }
        ensures { IfOk result (λ a. a
            ≡ output_of self.now.at.now.op (map (λ a. arc_value a) self.now.inputs.now)) }
    {
        let table = self.input(1);
        let cols = table.shape().cols;
        let cells = entries(alloc, cols, table.cells(), self.input(0).cells())?;
        Ok(output_with(self.at, self.inputs, cells))
    }
}

/// What a table of so many columns has for each of some numbers.
fn entries(
    alloc: Global,
    cols: u32,
    table: &[Value],
    numbers: &[Value],
) -> Result<Vec<Value>, NoMemory>
    requires { cols ≤ length table.now }
    ensures { IfOk result (λ v. v.items ≡ map (entry_of cols table.now) numbers.now) }
{
    let mut entries = Vec::new(alloc);
    entries.reserve(numbers.len())?;
    push_entries(cols, table, numbers, &mut entries);
    Ok(entries)
}

/// Puts what a table of so many columns has for each of some numbers into an empty list with room
/// for all. The list is lent, so where the next value goes is not looked up again for each.
fn push_entries(cols: u32, table: &[Value], numbers: &[Value], entries: &mut Vec<Value>)
    requires cols { cols ≤ length table.now }
    requires none { entries.old.items ≡ [] }
    requires empty { vec_len entries.old ≡ 0 }
    requires room { length numbers.now ≤ vec_capacity entries.old }
    ensures { entries.new.items ≡ map (entry_of cols table.now) numbers.now }
{
    let count = numbers.len();
    for k in 0..count {
        entries.push_reserved(entry_of(cols, table, numbers[k]));
    }
}

/// What a table of so many columns has for a number: nothing where it names no column.
fn entry_of(cols: u32, table: &[Value], number: Value) -> Value
    requires { cols ≤ length table.now }
    ensures { result ≡ entry_of cols table.now number }
{
    match column_of(cols, number?) {
        Some(column) => table[column as usize],
        None => None,
    }
}

/// The value of an output cell: that of the table's cell in the column that is named.
pub(crate) fn value(first: &Array, table: &Array, out: Cell) -> Value
    requires { holds first.now.extent out ≡ true }
    ensures { result ≡ looked_up first.now table.now out }
{
    match matched(first, table, out) {
        Some(cell) => table.at(cell),
        None => None,
    }
}

/// The table's cell in the column that the first input's cell names, where it names one.
pub(crate) fn matched(first: &Array, table: &Array, out: Cell) -> Option<Cell>
    requires { holds first.now.extent out ≡ true }
    ensures held { IfSome result (λ c. holds table.now.extent c ≡ true) }
    ensures value { result ≡ option_map entry_at (match_of first.now table.now out) }
{
    let shape = table.shape();
    a_shape_is_within_limits(&shape);
    let col = column_of(shape.cols, first.at(out)?)?;
    Some(Cell { row: 0, col })
}

/// The kind of the payload of an output cell: 1 plus the column that is named, or 0.
pub(crate) fn payload_kind(first: &Array, table: &Array, out: Cell) -> u32
    requires { holds first.now.extent out ≡ true }
    ensures { result ≡ kind_of (match_of first.now table.now out) }
{
    let shape = table.shape();
    a_shape_is_within_limits(&shape);
    match matched(first, table, out) {
        Some(cell) => 1 + cell.col,
        None => 0,
    }
}

/// The payload of an output cell: four bytes of the column that is named, or no byte.
pub(crate) fn payload(
    alloc: Global,
    first: &Array,
    table: &Array,
    out: Cell,
) -> Result<Arc<Payload>, NoMemory>
    requires { holds first.now.extent out ≡ true }
    ensures { IfOk result (λ p. arc_value p
        ≡ option_map_or four_bytes (match_of first.now table.now out) []) }
{
    let mut bytes = Vec::new(alloc);
    if let Some(cell) = matched(first, table, out) {
        bytes.extend_from_slice(&cell.col.to_be_bytes())?;
    }
    Ok(Arc::new(alloc, Payload::of(bytes))?)
}

/// The column that a number names, of so many: one that is 0 or more and below the number of
/// columns.
fn column_of(cols: u32, number: i64) -> Option<u32>
    ensures { result ≡ column_of cols number }
{
    let column = u32::try_from(number).ok()?;
    if column < cols { Some(column) } else { None }
}
