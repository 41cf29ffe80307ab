//! The cells near changed ones, for an operator that relates an output cell to cells in the square
//! round it alone.

ghost use Rattle.std.specs.Prelude.{◌≡◌, ◌<◌, ◌&&◌, true, length, map, OnOk};
ghost use Rattle.std.specs.Arc.{arc_value};
ghost use Rattle.sz_cells.specs.Extent.{holds};
ghost use Rattle.sz_cells.specs.Cells.{any_cell, has, is_same, with_those};
ghost use Rattle.sz_spec.specs.Operators.Clean.{is_in_square};
ghost use Rattle.sz_spec.specs.Values.{extent_at, extents_of};
ghost use Rattle.sz_spec.specs.Work.{IsAtWork};
ghost use Rattle.sz_refresh.specs.Changes.{reaches};

use crate::each::{Adder, add_each};
use std::alloc::Global;
use sz_cells::{Cell, CellBits, NoMemory, Shape};
use sz_frame::{AtWork, at_work};
use sz_ops_window::Cleaning;
use sz_spec::square;

/// Adds the output cells that are related to a cell of a set, by one of two cleanings at work.
/// Takes time in the number of the set's cells, and memory for a bitmap.
pub(crate) fn add_round(
    alloc: Global,
    old: &Cleaning,
    new: &Cleaning,
    from: &CellBits,
    to: &mut CellBits,
) -> Result<(), NoMemory>
    requires old { IsAtWork old.now.at.now (map (λ a. arc_value a) old.now.inputs.now) }
    requires new { IsAtWork new.now.at.now (map (λ a. arc_value a) new.now.inputs.now) }
    requires site { new.now.at.now ≡ old.now.at.now }
    requires from { from.now.extent ≡ extent_at old.now.at.now.ins 0 }
    requires to { to.old.extent ≡ old.now.at.now.out }
    ensures { OnOk result (to.new ≡ with_those to.old (reaches old.now.at.now.op
        (map (λ a. arc_value a) old.now.inputs.now) (map (λ a. arc_value a) new.now.inputs.now)
        0 from.now)) }
{
    let mut near = CellBits::new(alloc, from.shape())?;
    add_squares(from, &mut near);
    add_related(old, new, from, &near, to);
    Ok(())
}

/// Adds the cells in the squares round those of a set. Takes time in the number of the set's cells,
/// and no memory.
fn add_squares(from: &CellBits, to: &mut CellBits)
    requires { to.old.extent ≡ from.now.extent }
    ensures { to.new ≡ with_those to.old
        (λ o. any_cell (λ x. is_in_square from.now.extent x o) from.now) }
{
    add_each(
        &Squares {
            shape: from.shape(),
        },
        from,
        to,
    );
}

/// What a cell adds to them: the square round it.
#[derive(Drop)]
struct Squares {
    shape: Shape,
}

impl Adder for Squares {
    ghost of = { λ s. s.shape };

    ghost into = { λ s. s.shape };

    ghost adds = { λ s o x. is_in_square s.shape x o };

    fn add(&self, cell: Cell, to: &mut CellBits) {
        square(self.shape, cell, to);
    }
}

/// Adds those cells of a set that are related to a cell of another set, by one of two cleanings at
/// work. Takes time in the number of the set's cells, and no memory.
fn add_related(old: &Cleaning, new: &Cleaning, from: &CellBits, near: &CellBits, to: &mut CellBits)
    requires old { IsAtWork old.now.at.now (map (λ a. arc_value a) old.now.inputs.now) }
    requires new { IsAtWork new.now.at.now (map (λ a. arc_value a) new.now.inputs.now) }
    requires site { new.now.at.now ≡ old.now.at.now }
    requires input { 0 < length old.now.at.now.ins }
    requires from { from.now.extent ≡ extent_at old.now.at.now.ins 0 }
    requires near { near.now.extent ≡ old.now.at.now.out }
    requires to { to.old.extent ≡ old.now.at.now.out }
    ensures { to.new ≡ with_those to.old (λ o. has near.now o && reaches old.now.at.now.op
        (map (λ a. arc_value a) old.now.inputs.now) (map (λ a. arc_value a) new.now.inputs.now)
        0 from.now o) }
{
    near.shape(); // the set is that of its cells
    add_each(&Related { old, new, from }, near, to);
}

/// What a cell adds to them: itself, where it is related.
#[derive(Drop)]
struct Related<'a> {
    old: &'a Cleaning<'a>,
    new: &'a Cleaning<'a>,
    from: &'a CellBits,
    ghost was: { extents_of (map (λ a. arc_value a) old.now.inputs.now) ≡ old.now.at.now.ins },
    ghost shapes: { extents_of (map (λ a. arc_value a) new.now.inputs.now) ≡ new.now.at.now.ins },
    ghost site: { new.now.at.now ≡ old.now.at.now },
    ghost input: { 0 < length old.now.at.now.ins },
    ghost within: { from.now.extent ≡ extent_at old.now.at.now.ins 0 },
}

impl<'a> Adder for Related<'a> {
    ghost of = { λ r. r.old.now.at.now.out };

    ghost into = { λ r. r.old.now.at.now.out };

    ghost adds = { λ r o x. reaches r.old.now.at.now.op
        (map (λ a. arc_value a) r.old.now.inputs.now) (map (λ a. arc_value a) r.new.now.inputs.now)
        0 r.from.now x && is_same o x };

    fn add(&self, cell: Cell, to: &mut CellBits) {
        at_work(self.old.at, self.old.inputs);
        at_work(self.new.at, self.new.inputs);
        add_if_related(self.old, self.new, self.from, cell, to);
    }
}

/// Adds a cell where it is related to a cell of a set, by one of two operators at work.
fn add_if_related<A: AtWork>(old: &A, new: &A, from: &CellBits, cell: Cell, to: &mut CellBits)
    requires old { IsAtWork (A.site old.now) (A.inputs old.now) }
    requires new { IsAtWork (A.site new.now) (A.inputs new.now) }
    requires site { A.site new.now ≡ A.site old.now }
    requires input { 0 < length (A.site old.now).ins }
    requires from { from.now.extent ≡ extent_at (A.site old.now).ins 0 }
    requires cell { holds (A.site old.now).out cell ≡ true }
    requires to { to.old.extent ≡ (A.site old.now).out }
    ensures { to.new ≡ with_those to.old (λ o. reaches (A.site old.now).op (A.inputs old.now)
        (A.inputs new.now) 0 from.now cell && is_same o cell) }
{
    to.shape(); // the set as it was is that of its cells
    if old.meets(cell, 0, from) || new.meets(cell, 0, from) {
        to.set(cell);
    }
}
