//! Which cells of connected regions are affected: those whose label, the old one or the new one, is
//! that of a changed cell, and the changed cells.
//!
//! Cells are related exactly where they are one or have one label, and a label names the first cell
//! of its region. So the first cells of the changed cells' regions are marked, and then the labels
//! are looked at, from the first marked cell on until a row of cells has none that names a marked
//! one: no region is made as a set.

ghost use Rattle.std.specs.Prelude.{◌≡◌};
ghost use Rattle.sz_refresh.specs.Terms.{map, IfSome, IfOk, OnOk, true, arc_value, holds, any_cell};
ghost use Rattle.sz_refresh.specs.Terms.{no_cells, with_those, is_cell, output_of, IsAtWork};
ghost use Rattle.sz_refresh.specs.Terms.{is_regions, reaches, first_of};

use crate::each::{Adder, add_each};
use crate::named::{add_named, least_of, named};
use std::alloc::Global;
use std::sync::Arc;
use sz_cells::{Cell, CellBits, NoMemory};
use sz_frame::add_cell;
use sz_spec::{Array, OpAt};

/// Adds the cells that are related to a cell of a set, by the old input or by the new one, given
/// the labels of both. A label names no later cell than its own, so nothing is looked at before the
/// first cell that is named; and neighbours are at most a row of cells apart, so nothing behind the
/// first gap of so many cells that name none, after all that are named.
///
/// Takes time in the number of the array's cells between, and memory for two bitmaps.
pub(crate) fn add_joined(
    alloc: Global,
    at: &OpAt,
    _old: &[Arc<Array>],
    _new: &[Arc<Array>],
    old_labels: &Array,
    new_labels: &Array,
    from: &CellBits,
    to: &mut CellBits,
) -> Result<(), NoMemory>
    requires op { is_regions at.now.op ≡ true }
    requires old { IsAtWork at.now (map (λ a. arc_value a) _old.now) }
    requires new { IsAtWork at.now (map (λ a. arc_value a) _new.now) }
    requires old_labels { old_labels.now ≡ output_of at.now.op (map (λ a. arc_value a) _old.now) }
    requires new_labels { new_labels.now ≡ output_of at.now.op (map (λ a. arc_value a) _new.now) }
    requires from { from.now.extent ≡ at.now.out }
    requires to { to.old.extent ≡ at.now.out }
    ensures { OnOk result (to.new ≡ with_those to.old (reaches at.now.op
        (map (λ a. arc_value a) _old.now) (map (λ a. arc_value a) _new.now) 0 from.now)) }
{
    from.shape(); // the sets as they were are those of their cells
    to.shape();
    let old_firsts = firsts_of(alloc, old_labels, from)?;
    let new_firsts = firsts_of(alloc, new_labels, from)?;
    let least = least_of(&old_firsts).min(least_of(&new_firsts));
    let gap = from.shape().cols;
    to.add_bits(from);
    add_named(
        1,
        least,
        gap,
        old_labels.cells(),
        &old_firsts,
        new_labels.cells(),
        &new_firsts,
        to,
    );
    Ok(())
}

/// The cells that the labels of the cells of a set name: the first ones of their regions.
fn firsts_of(alloc: Global, labels: &Array, from: &CellBits) -> Result<CellBits, NoMemory>
    requires { from.now.extent ≡ labels.now.extent }
    ensures { IfOk result (λ f. f ≡ with_those (no_cells labels.now.extent)
        (λ o. any_cell (λ x. is_cell (first_of labels.now x) o) from.now)) }
{
    let mut firsts = CellBits::new(alloc, labels.shape())?;
    add_each(&Firsts { labels }, from, &mut firsts);
    Ok(firsts)
}

/// What a cell adds to them: the cell that its label names.
#[derive(Drop)]
struct Firsts<'a> {
    labels: &'a Array,
}

impl<'a> Adder for Firsts<'a> {
    ghost of = { λ f. f.labels.now.extent };

    ghost into = { λ f. f.labels.now.extent };

    ghost adds = { λ f o x. is_cell (first_of f.labels.now x) o };

    fn add(&self, cell: Cell, to: &mut CellBits) {
        add_cell(to, first_of(self.labels, cell));
    }
}

/// The cell that the label of a cell names: the first one of its region. `None` where the cell is
/// in no region.
fn first_of(labels: &Array, cell: Cell) -> Option<Cell>
    requires { holds labels.now.extent cell ≡ true }
    ensures value { result ≡ first_of labels.now cell }
    ensures held { IfSome result (λ c. holds labels.now.extent c ≡ true) }
{
    let shape = labels.shape();
    match named(1, shape.size(), labels.at(cell)) {
        Some(index) => Some(shape.cell_at(index)),
        None => None,
    }
}
