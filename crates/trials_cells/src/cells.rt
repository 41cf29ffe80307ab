//! Shapes at their limits, and sets from lists, unions and bitmaps: each call once, with memory to
//! spare.

ghost use Rattle.std.specs.Prelude.{◌≡◌, IfOk};

use std::alloc::Global;
use std::test::Fail;
use sz_cells::{Bounds, Cell, CellBits, CellSet, NoMemory, Run, Shape};

/// A shape of 2 rows and 3 columns, whose indexes are 0, 1, 2 in the first row and 3, 4, 5 in the
/// second.
fn two_by_three() -> Result<Shape, Fail>
    ensures { IfOk result (λ s. s ≡ record { layers = 1; rows = 2; cols = 3 }) }
{
    Ok(Shape::make(2, 3).ok_or("2 by 3 is a shape")?)
}

/// A shape of two layers, each of 2 rows and 3 columns.
fn two_layers() -> Result<Shape, Fail>
    ensures { IfOk result (λ s. s ≡ record { layers = 2; rows = 4; cols = 3 }) }
{
    Ok(Shape::make_layers(2, 2, 3).ok_or("2 by 2 by 3 is a shape")?)
}

/// A shape of one row of 200 columns, of which a bitmap has four words.
fn long_row() -> Result<Shape, Fail>
    ensures { IfOk result (λ s. s ≡ record { layers = 1; rows = 1; cols = 200 }) }
{
    Ok(Shape::make(1, 200).ok_or("a row of 200 is a shape")?)
}

fn cell(row: u32, col: u32) -> Cell
    ensures { result ≡ record { row = row; col = col } }
{
    Cell { row, col }
}

fn run(first: u32, last: u32) -> Run
    ensures { result ≡ record { first = first; last = last } }
{
    Run { first, last }
}

/// Whether a shape has so many cells.
fn has_size(shape: Option<Shape>, size: u32) -> bool {
    match shape {
        Some(shape) => shape.size() == size,
        None => false,
    }
}

/// Whether a cell of a shape has a layer, and a row in it.
fn is_at(shape: &Shape, at: Cell, layer: u32, row: u32) -> bool {
    shape.holds(at)
        && shape.layer_of(at) == layer
        && shape.row_in(at) == row
        && shape.cell_in(layer, row, at.col) == Some(at)
}

/// Whether a cell of a shape has an index.
fn has_place(shape: &Shape, at: Cell, index: u32) -> bool {
    shape.holds(at)
        && shape.index(at) == index
        && index < shape.size()
        && shape.cell_at(index) == at
}

#[test]
fn shapes_have_a_limit(rt: HostRuntime) {
    assert!(rt; Shape::make(1024, 1025) == None);
    assert!(rt; Shape::make_layers(u32::MAX, u32::MAX, u32::MAX) == None);
    assert!(rt; has_size(Shape::make(1024, 1024), 1_048_576));
}

/// Whether a shape of two layers has its rows, and its cells their places.
fn has_two_layers(shape: &Shape) -> bool {
    shape.height() == 2
        && is_at(shape, cell(3, 2), 1, 1)
        && shape.cell_in(2, 0, 0) == None
        && !shape.holds(cell(4, 0))
        && has_place(shape, cell(1, 2), 5)
}

#[test]
fn shapes_have_sides_and_layers(rt: HostRuntime) -> Result<(), Fail> {
    let shape = two_layers()?;
    assert!(rt; has_two_layers(&shape));
    Ok(())
}

/// The set of some cells of a shape.
fn set_of(alloc: Global, shape: Shape, cells: &[Cell]) -> Result<CellSet, Fail>
    ensures { IfOk result (λ s. s.extent ≡ shape) }
{
    if !cells.iter().all(|cell| shape.holds(*cell)) {
        return Err(Fail::from("cells of the shape"));
    }
    Ok(CellSet::from_cells(alloc, shape, cells)?)
}

/// Whether a set has so many cells, in these runs.
fn is_set(set: &CellSet, count: u32, runs: &[Run]) -> bool {
    set.count() == count && set.runs() == runs
}

/// Whether a set has each of some cells, and none of others.
fn has_but(set: &CellSet, inside: &[Cell], outside: &[Cell]) -> bool {
    inside.iter().all(|at| set.has(*at)) && outside.iter().all(|at| !set.has(*at))
}

/// Whether a set has the cells of a list, which names one twice, and two others not, of which the
/// shape does not hold one.
fn has_those_listed(set: &CellSet) -> bool {
    let inside = [cell(0, 0), cell(0, 1), cell(1, 2)];
    has_but(set, &inside, &[cell(1, 1), cell(2, 0)])
}

/// Whether the bounds of a set are the whole of two rows and three columns.
fn fills_two_by_three(set: &CellSet) -> bool {
    let bounds = Bounds {
        top: 0,
        left: 0,
        bottom: 1,
        right: 2,
    };
    set.bounds() == Some(bounds)
}

/// Whether a list out of order, which names a cell twice, is the set of its cells.
fn is_listed(alloc: Global) -> Result<bool, Fail> {
    let shape = two_by_three()?;
    let cells = [cell(0, 1), cell(0, 0), cell(0, 1), cell(1, 2)];
    let set = set_of(alloc, shape, &cells)?;
    Ok(
        set.shape() == shape
            && is_set(&set, 3, &[run(0, 1), run(5, 5)])
            && has_those_listed(&set)
            && fills_two_by_three(&set),
    )
}

#[test]
fn a_list_out_of_order_and_twice(rt: HostRuntime) -> Result<(), Fail> {
    assert!(rt; is_listed(rt.alloc())?);
    Ok(())
}

/// Whether a list of no cells is the set of none.
fn is_none_listed(alloc: Global) -> Result<bool, Fail> {
    let none = set_of(alloc, two_by_three()?, &[])?;
    Ok(none.count() == 0 && none.bounds() == None)
}

#[test]
fn a_list_of_no_cells(rt: HostRuntime) -> Result<(), Fail> {
    assert!(rt; is_none_listed(rt.alloc())?);
    assert_eq!(rt; NoMemory, NoMemory);
    Ok(())
}

/// The cells that are in one of two lists.
fn in_either(alloc: Global, shape: Shape, left: &[Cell], right: &[Cell]) -> Result<CellSet, Fail> {
    let left = set_of(alloc, shape, left)?;
    let right = set_of(alloc, shape, right)?;
    Ok(left.union(alloc, &right)?)
}

/// Whether two sets whose runs touch have longer runs together.
fn is_joined(alloc: Global) -> Result<bool, Fail> {
    let left = [cell(0, 0), cell(1, 2)];
    let right = [cell(0, 1), cell(1, 0)];
    let both = in_either(alloc, two_by_three()?, &left, &right)?;
    Ok(is_set(&both, 4, &[run(0, 1), run(3, 3), run(5, 5)]))
}

#[test]
fn a_union_joins_runs_that_touch(rt: HostRuntime) -> Result<(), Fail> {
    assert!(rt; is_joined(rt.alloc())?);
    Ok(())
}

/// Adds a run and a cell to a bitmap of one row.
fn add_some(bits: &mut CellBits)
    requires { bits.old.extent ≡ record { layers = 1; rows = 1; cols = 200 } }
{
    bits.add_run(run(60, 130));
    bits.set(cell(0, 199));
}

/// Whether a bitmap has the cell of an index of its shape.
fn has_at(bits: &CellBits, index: u32) -> bool {
    index < bits.shape().size() && bits.has_index(index)
}

/// Whether a bitmap has the cells that `add_some` adds, and none of those beside them.
fn has_some(bits: &CellBits) -> bool {
    bits.has(cell(0, 60))
        && bits.has(cell(0, 130))
        && bits.has(cell(0, 199))
        && !bits.has(cell(0, 59))
        && !bits.has(cell(0, 131))
        && !bits.has(cell(1, 0))
        && has_at(bits, 64)
        && !has_at(bits, 198)
}

/// Whether the least cells of a bitmap behind some numbers are those that `add_some` adds.
fn leads_on(bits: &CellBits) -> bool {
    bits.next_after(0) == Some(60)
        && bits.next_after(130) == Some(130)
        && bits.next_after(131) == Some(199)
        && bits.next_after(200) == None
}

/// Whether a bitmap is a set of so many cells, in these runs.
fn is_set_of(alloc: Global, bits: &CellBits, count: u32, runs: &[Run]) -> Result<bool, NoMemory> {
    let set = bits.to_set(alloc)?;
    Ok(is_set(&set, count, runs))
}

/// Whether a bitmap is that of the cells that `add_some` adds.
fn is_some(alloc: Global, bits: &CellBits) -> Result<bool, NoMemory> {
    Ok(
        !bits.is_empty()
            && has_some(bits)
            && leads_on(bits)
            && is_set_of(alloc, bits, 72, &[run(60, 130), run(199, 199)])?,
    )
}

/// Whether a bitmap is that of no cell.
fn is_none(alloc: Global, bits: &CellBits) -> Result<bool, NoMemory> {
    Ok(bits.is_empty() && is_set_of(alloc, bits, 0, &[])?)
}

/// Whether a new bitmap has no cell, those that are added, and again none once it is cleared.
fn is_added_to_and_cleared(alloc: Global) -> Result<bool, Fail> {
    let shape = long_row()?;
    let mut bits = CellBits::new(alloc, shape)?;
    let was_empty = bits.is_empty();
    add_some(&mut bits);
    let is_filled = bits.shape() == shape && is_some(alloc, &bits)?;
    bits.clear();
    Ok(was_empty && is_filled && is_none(alloc, &bits)?)
}

#[test]
fn a_bitmap_is_added_to_and_cleared(rt: HostRuntime) -> Result<(), Fail> {
    assert!(rt; is_added_to_and_cleared(rt.alloc())?);
    Ok(())
}

/// The bitmap of some cells of a shape.
fn bits_of(alloc: Global, shape: Shape, cells: &[Cell]) -> Result<CellBits, Fail>
    ensures { IfOk result (λ b. b.extent ≡ shape) }
{
    let set = set_of(alloc, shape, cells)?;
    let mut bits = CellBits::new(alloc, shape)?;
    bits.add_set(&set);
    Ok(bits)
}

/// Whether a bitmap of a run becomes that of another bitmap's cells too.
fn are_added(alloc: Global) -> Result<bool, Fail> {
    let shape = long_row()?;
    let low = bits_of(alloc, shape, &[cell(0, 5), cell(0, 63)])?;
    let mut all = CellBits::new(alloc, shape)?;
    all.add_run(run(64, 64));
    all.add_bits(&low);
    Ok(is_set_of(alloc, &all, 3, &[run(5, 5), run(63, 64)])?)
}

#[test]
fn sets_and_bitmaps_are_added(rt: HostRuntime) -> Result<(), Fail> {
    assert!(rt; are_added(rt.alloc())?);
    Ok(())
}

/// The set of all cells of a shape.
fn all_cells(alloc: Global, shape: Shape) -> Result<CellSet, NoMemory> {
    let mut bits = CellBits::new(alloc, shape)?;
    bits.add_run(Run {
        first: 0,
        last: shape.size() - 1,
    });
    bits.to_set(alloc)
}

/// Whether the set of all cells of a shape, so many, and its union with itself have memory.
fn has_memory(alloc: Global, shape: Shape, count: u32) -> Result<bool, NoMemory> {
    let set = all_cells(alloc, shape)?;
    let union = set.union(alloc, &set)?;
    Ok(set.count() == count && union.count() == count)
}

#[test]
fn the_greatest_set_has_memory(rt: HostRuntime) -> Result<(), Fail> {
    let shape = Shape::make(1024, 1024).ok_or("the greatest square is a shape")?;
    assert!(rt; has_memory(rt.alloc(), shape, 1_048_576) == Ok(true));
    Ok(())
}
