//! The bytes of a set as they are written, each fault of bytes that are no set, and one cell or
//! none as a set.

ghost use Rattle.std.specs.Prelude.{◌≡◌, IfOk};
ghost use Rattle.sz_cells.specs.Extent.{flat};

use std::alloc::Global;
use std::test::Fail;
use sz_cells::{Cell, CellBits, CellSet, Run, Shape};
use sz_frame::{add_cell, has_cell, set_of_cell};
use sz_region::{Take, put_set, take_set};

/// The shape of four rows and five columns.
pub(crate) fn four_by_five() -> Result<Shape, Fail>
    ensures { IfOk result (λ s. s ≡ flat 4 5) }
{
    Ok(Shape::make(4, 5).ok_or("four rows of five columns are a shape")?)
}

/// The set of three cells of the second row and one of the third.
pub(crate) fn set_of_four(alloc: Global) -> Result<CellSet, Fail> {
    let cells = [
        Cell { row: 2, col: 0 },
        Cell { row: 1, col: 1 },
        Cell { row: 1, col: 0 },
        Cell { row: 1, col: 2 },
    ];
    Ok(CellSet::from_cells(alloc, four_by_five()?, &cells)?)
}

/// The bytes of that set, behind a 9.
fn bytes_of_four(alloc: Global) -> Result<Vec<u8>, Fail> {
    let set = set_of_four(alloc)?;
    let mut bytes = vec![in alloc; 9u8]?;
    put_set(&set, &mut bytes)?;
    Ok(bytes)
}

/// Whether a set has its cells, as runs.
fn is_set_of_four(set: &CellSet) -> bool {
    let first = Run { first: 5, last: 7 };
    let last = Run {
        first: 10,
        last: 10,
    };
    set.runs() == [first, last].as_slice() && set.count() == 4
}

/// Whether that set is read behind the first byte, up to place 21.
fn is_read_again(alloc: Global, bytes: &[u8]) -> Result<bool, Fail> {
    let (again, next) = take_set(alloc, four_by_five()?, bytes, 1)?;
    Ok(next == 21 && is_set_of_four(&again))
}

/// The bytes of the set, behind a 9.
const FOUR: [u8; 21] = [
    9, 0, 0, 0, 2, 0, 0, 0, 5, 0, 0, 0, 7, 0, 0, 0, 10, 0, 0, 0, 10,
];

#[test]
fn a_set_is_written_and_read_again(rt: HostRuntime) -> Result<(), Fail> {
    let mut bytes = bytes_of_four(rt.alloc())?;
    assert_eq!(rt; bytes.as_slice(), FOUR.as_slice());
    bytes.push(1)?;
    assert!(rt; is_read_again(rt.alloc(), &bytes)?);
    Ok(())
}

/// Bytes of no set behind a 9: a run that is turned round, one that touches the next, one out of
/// range, one that is cut short, and too many runs; and no bytes.
const REFUSED: [&[u8]; 6] = [
    &[9, 0, 0, 0, 1, 0, 0, 0, 7, 0, 0, 0, 5],
    &[
        9, 0, 0, 0, 2, 0, 0, 0, 5, 0, 0, 0, 7, 0, 0, 0, 8, 0, 0, 0, 8,
    ],
    &[9, 0, 0, 0, 1, 0, 0, 0, 19, 0, 0, 0, 20],
    &[9, 0, 0, 0, 1, 0, 0, 0, 5, 0, 0, 0],
    &[9, 255, 255, 255, 255, 0, 0, 0, 5, 0, 0, 0, 5],
    &[],
];

/// The first of some bytes that are taken, if any: each is to be refused, at place 1.
pub(crate) fn first_taken<'a, F: Fn(&[u8]) -> Option<Take>>(
    rows: &[&'a [u8]],
    fault_of: F,
) -> Option<&'a [u8]>
    requires { F.IsAlwaysCallable fault_of }
{
    for bytes in rows {
        if fault_of(bytes) != Some(Take::Bad { at: 1 }) {
            return Some(*bytes);
        }
    }
    None
}

#[test]
fn bytes_of_no_set_are_refused(rt: HostRuntime) -> Result<(), Fail> {
    let (alloc, shape) = (rt.alloc(), four_by_five()?);
    let taken = first_taken(&REFUSED, |bytes| take_set(alloc, shape, bytes, 1).err());
    assert_eq!(rt; taken, None);
    Ok(())
}

/// Whether bytes of no run behind the first are the set of no cell.
fn is_no_cell(alloc: Global, bytes: &[u8]) -> Result<bool, Fail> {
    let (none, next) = take_set(alloc, four_by_five()?, bytes, 1)?;
    Ok(none.count() == 0 && next == 5)
}

#[test]
fn no_run_is_the_set_of_no_cell(rt: HostRuntime) -> Result<(), Fail> {
    assert!(rt; is_no_cell(rt.alloc(), &[9, 0, 0, 0, 0])?);
    Ok(())
}

/// A cell of the shape.
const CELL: Cell = Cell { row: 2, col: 3 };

/// Whether a set has a cell just from when it is added, and no cell is in none.
fn is_added(bits: &mut CellBits) -> bool
    requires { bits.old.extent ≡ flat 4 5 }
{
    add_cell(bits, None);
    let before = has_cell(bits, Some(CELL));
    add_cell(bits, Some(CELL));
    !before && has_cell(bits, Some(CELL)) && !has_cell(bits, None)
}

/// Whether it is so of the set of no cell.
fn is_added_to_none(alloc: Global) -> Result<bool, Fail> {
    let mut bits = CellBits::new(alloc, four_by_five()?)?;
    Ok(is_added(&mut bits))
}

/// Whether the set of the cell is its run.
fn cell_is_a_run(alloc: Global) -> Result<bool, Fail> {
    let set = set_of_cell(alloc, four_by_five()?, Some(CELL))?;
    let run = Run {
        first: 13,
        last: 13,
    };
    Ok(set.runs() == [run].as_slice())
}

/// Whether the set of none has no cell.
fn none_is_no_cell(alloc: Global) -> Result<bool, Fail> {
    Ok(set_of_cell(alloc, four_by_five()?, None)?.count() == 0)
}

#[test]
fn one_cell_or_none_is_a_set(rt: HostRuntime) -> Result<(), Fail> {
    assert!(rt; is_added_to_none(rt.alloc())?);
    assert!(rt; cell_is_a_run(rt.alloc())?);
    assert!(rt; none_is_no_cell(rt.alloc())?);
    Ok(())
}
