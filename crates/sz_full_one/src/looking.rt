//! Looks at an index: from each asked cell along its entries, and to the sets that these lead to.

ghost use Rattle.std.specs.Prelude.{◌≡◌, ◌<◌, ◌↔◌};
ghost use Rattle.sz_full_one.specs.Terms.{length, IsTrue, Some, All, has, with_those, size_of};
ghost use Rattle.sz_full_one.specs.Terms.{cell_of, extent_before, extent_after, image_between};
ghost use Rattle.sz_full_one.specs.Terms.{extent_at, full_stands, steps, pairings, sets_of, set_at};
ghost use Rattle.sz_full_one.specs.Terms.{IsRowOf, IsIndexOf, AreFiledByOuts, AreFiledByIns};
ghost use Rattle.sz_full_one.specs.Terms.{IsDone, adds, side_of};

use crate::index::{Index, SetFiles};
use sz_cells::CellBits;
use sz_spec::Dir;
use sz_tables::{Chains, RegionTable};

/// Adds the image of a set of cells, which is asked from the side of the index. Takes no memory.
///
/// Takes time in the asked cells, their entries, and the runs of the sets that these lead to, but
/// for a set that was reached just before.
pub fn look(table: &RegionTable, index: &Index, input: u32, from: &CellBits, to: &mut CellBits)
    requires index { IsIndexOf table.now index.now }
    requires input { input < length table.now.ins }
    requires from { let t = table.now in
        from.now.extent ≡ extent_before (side_of index.now) t.out t.ins input }
    requires to { let t = table.now in
        to.old.extent ≡ extent_after (side_of index.now) t.out t.ins input }
    ensures { let t = table.now in to.new ≡ with_those to.old
        (has (image_between (side_of index.now) t.out t.ins input
        (full_stands (pairings t) input) from.now)) }
{
    to.shape(); // the set as it was is that of its cells
    let shape = from.shape();
    let end = shape.size();
    let mut last = None;
    let mut start = 0;
    while start < end {
        match from.next_after(start) {
            Some(cell) => {
                last = look_cell(table, index, input, cell, last, to);
                start = cell + 1;
            }
            None => start = end,
        }
    }
}

/// Adds what one asked cell adds. `last` is the number of the set that was handled last, and so is
/// the result.
fn look_cell(
    table: &RegionTable,
    index: &Index,
    input: u32,
    cell: u32,
    last: Option<u32>,
    to: &mut CellBits,
) -> Option<u32>
    requires index { IsIndexOf table.now index.now }
    requires input { input < length table.now.ins }
    requires cell { let t = table.now in
        cell < size_of (extent_before (side_of index.now) t.out t.ins input) }
    requires to { let t = table.now in
        to.old.extent ≡ extent_after (side_of index.now) t.out t.ins input }
    requires done { IsDone (adds table.now (side_of index.now) input) last to.old }
    ensures to { let t = table.now in to.new ≡ with_those to.old
        (steps (side_of index.now) (full_stands (pairings t) input)
        (cell_of (extent_before (side_of index.now) t.out t.ins input) cell)) }
    ensures done { IsDone (adds table.now (side_of index.now) input) result to.new }
{
    match index {
        Index::Outs(rows) => look_back(table, rows, input, cell, last, to),
        Index::Ins(inputs) => look_forward(table, &inputs[input as usize], input, cell, last, to),
    }
}

/// Adds the sets of an input of the rows that have an output cell.
fn look_back(
    table: &RegionTable,
    rows: &Chains,
    input: u32,
    cell: u32,
    last: Option<u32>,
    to: &mut CellBits,
) -> Option<u32>
    requires rows { AreFiledByOuts table.now rows.now }
    requires input { input < length table.now.ins }
    requires cell { cell < size_of table.now.out }
    requires to { to.old.extent ≡ extent_at table.now.ins input }
    requires done { IsDone (adds table.now Dir.Back input) last to.old }
    ensures to { let t = table.now in to.new ≡ with_those to.old
        (full_stands (pairings t) input (cell_of t.out cell)) }
    ensures done { IsDone (adds table.now Dir.Back input) result to.new }
{
    to.shape(); // the set as it was is that of its cells
    table.len(); // each row names a set of the input
    let mut done = last;
    let mut next = rows.last(cell);
    while let Some(entry) = next {
        let number = table.number_of(rows.item(entry), input);
        add_other_in_set(table, input, number, done, to);
        done = Some(number);
        next = rows.before(entry, cell);
    }
    done
}

/// Adds the set of a number of an input, unless it was added last.
fn add_other_in_set(
    table: &RegionTable,
    input: u32,
    number: u32,
    last: Option<u32>,
    to: &mut CellBits,
)
    requires input { input < length table.now.ins }
    requires number { number < length (sets_of table.now.sets input) }
    requires to { to.old.extent ≡ extent_at table.now.ins input }
    requires done { IsDone (adds table.now Dir.Back input) last to.old }
    ensures { to.new ≡ with_those to.old (adds table.now Dir.Back input number) }
{
    if !is_number(last, number) {
        table.add_in_set(input, number, to);
    }
}

/// Whether a number is there, and is this one.
fn is_number(last: Option<u32>, number: u32) -> bool
    ensures { IsTrue result ↔ (last ≡ Some number) }
{
    last == Some(number)
}

/// Adds the output sets of the rows of which the set of an input has a cell.
fn look_forward(
    table: &RegionTable,
    files: &SetFiles,
    input: u32,
    cell: u32,
    last: Option<u32>,
    to: &mut CellBits,
) -> Option<u32>
    requires files { AreFiledByIns table.now input files.now }
    requires input { input < length table.now.ins }
    requires cell { cell < size_of (extent_at table.now.ins input) }
    requires to { to.old.extent ≡ table.now.out }
    requires done { IsDone (adds table.now Dir.Forward input) last to.old }
    ensures to { let t = table.now in to.new ≡ with_those to.old
        (steps Dir.Forward (full_stands (pairings t) input)
        (cell_of (extent_at t.ins input) cell)) }
    ensures done { IsDone (adds table.now Dir.Forward input) result to.new }
{
    to.shape(); // the set as it was is that of its cells
    table.len(); // each row names a set of the input
    let mut done = last;
    let mut next = files.cells.last(cell);
    while let Some(entry) = next {
        let number = files.cells.item(entry);
        add_other_rows(table, files, input, number, done, to);
        done = Some(number);
        next = files.cells.before(entry, cell);
    }
    done
}

/// Adds the output sets of the rows that have the set of a number, unless it was handled last.
fn add_other_rows(
    table: &RegionTable,
    files: &SetFiles,
    input: u32,
    number: u32,
    last: Option<u32>,
    to: &mut CellBits,
)
    requires files { AreFiledByIns table.now input files.now }
    requires number { number < length (sets_of table.now.sets input) }
    requires to { to.old.extent ≡ table.now.out }
    requires done { IsDone (adds table.now Dir.Forward input) last to.old }
    ensures { to.new ≡ with_those to.old (adds table.now Dir.Forward input number) }
{
    if !is_number(last, number) {
        add_rows(table, files, input, number, to);
    }
}

/// Adds the output sets of the rows that have the set of a number.
fn add_rows(table: &RegionTable, files: &SetFiles, input: u32, number: u32, to: &mut CellBits)
    requires files { AreFiledByIns table.now input files.now }
    requires number { number < length (sets_of table.now.sets input) }
    requires to { to.old.extent ≡ table.now.out }
    ensures { to.new ≡ with_those to.old (adds table.now Dir.Forward input number) }
{
    to.shape(); // the set as it was is that of its cells
    table.len(); // each row names an output set
    let mut next = files.rows.last(number);
    while let Some(entry) = next {
        table.add_out_set(table.out_number(files.rows.item(entry)), to);
        next = files.rows.before(entry, number);
    }
}
