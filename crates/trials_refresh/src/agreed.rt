//! What a refresh asks of the arrays before and after a change, as a test of them.

ghost use Rattle.std.specs.Prelude.{◌≡◌, true, false, length, map};
ghost use Rattle.std.specs.Arc.{arc_value};
ghost use Rattle.sz_cells.specs.Extent.{holds};
ghost use Rattle.sz_cells.specs.Cells.{has};
ghost use Rattle.sz_spec.specs.Values.{extents_of, extent_at, value_at};
ghost use Rattle.trials_refresh.specs.Changes.{AgreeAt, AreAgreed};

use std::sync::Arc;
use sz_cells::{Cell, CellSet};
use sz_spec::Array;

/// Whether two arrays have one shape, and one value at each cell but, where it is the array that is
/// named, at most those of a set.
pub(crate) fn agree_at(one: &Array, other: &Array, named: bool, changed: &CellSet) -> bool
    ensures { result ≡ true → AgreeAt named changed.now one.now other.now }
{
    if one.shape() != other.shape() {
        return false;
    }
    let shape = one.shape();
    for index in 0..shape.size() {
        if !agree_in(one, other, named, changed, shape.cell_at(index)) {
            return false;
        }
    }
    true
}

/// Whether arrays agree one by one, but at most in a set of cells of one of them.
pub(crate) fn are_agreed(
    before: &[Arc<Array>],
    base: &[Arc<Array>],
    input: u32,
    changed: &CellSet,
) -> bool
    ensures { result ≡ true
        → AreAgreed input changed.now (map (λ a. arc_value a) before.now)
        (map (λ a. arc_value a) base.now) }
{
    if before.len() != base.len() {
        return false;
    }
    for number in 0..base.len() {
        let named = number == input as usize;
        if !agree_at(&before[number], &base[number], named, changed) {
            return false;
        }
    }
    true
}

/// Whether arrays of one shape have one value at a cell, or it may be changed.
fn agree_in(one: &Array, other: &Array, named: bool, changed: &CellSet, cell: Cell) -> bool
    requires one { holds one.now.extent cell ≡ true }
    requires other { holds other.now.extent cell ≡ true }
    ensures { result ≡ true → (named ≡ true → has changed.now cell ≡ false)
        → value_at one.now cell ≡ value_at other.now cell }
{
    (named && changed.has(cell)) || one.at(cell) == other.at(cell)
}

/// Whether a set is one of cells of a base array.
pub(crate) fn is_of(base: &[Arc<Array>], input: u32, changed: &CellSet) -> bool
    ensures { result ≡ true
        → changed.now.extent ≡ extent_at (extents_of (map (λ a. arc_value a) base.now)) input }
{
    match base.get(input as usize) {
        Some(array) => changed.shape() == array.shape(),
        None => false,
    }
}
