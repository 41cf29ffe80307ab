//! Tracing: the image of a set of cells, for which each component is added once.

ghost use Rattle.std.specs.Prelude.{◌≡◌, ◌<◌, ◌+◌, ◌^◌};
ghost use Rattle.sz_ops_region.specs.Terms.{true, map, length, OnOk, arc_value, holds, size_of};
ghost use Rattle.sz_ops_region.specs.Terms.{has, with_those, Back, extents_of, input_at, related};
ghost use Rattle.sz_ops_region.specs.Terms.{IsAtWork, near_side, far_side, image_in, traced};
ghost use Rattle.sz_ops_region.specs.Terms.{is_regions, AreMarked};

use crate::work::{Labelling, components_over, threshold};
use std::alloc::Global;
use std::sync::Arc;
use sz_cells::{Cell, CellBits, NoMemory};
use sz_spec::{Array, Dir, OpAt, Tally};

/// Adds the image of a set of cells by tracing: each output cell is looked at once, and counted,
/// and each component is added once, however many of its cells are asked for.
///
/// Prepares the components for itself. Takes time and memory in the number of the array's cells.
pub fn trace(
    alloc: Global,
    at: &OpAt,
    inputs: &[Arc<Array>],
    dir: Dir,
    input: u32,
    from: &CellBits,
    to: &mut CellBits,
    tally: &mut Tally,
) -> Result<(), NoMemory>
    requires regions { is_regions at.now.op ≡ true }
    requires inputs { extents_of (map (λ a. arc_value a) inputs.now) ≡ at.now.ins }
    requires input { input < length at.now.ins }
    requires from { from.now.extent ≡ near_side dir at.now input }
    requires to { to.old.extent ≡ far_side dir at.now input }
    requires room { tally.old + size_of at.now.out < 2 ^ 63 }
    ensures to { OnOk result (to.new ≡ with_those to.old (has (image_in dir at.now input
        (related at.now.op (map (λ a. arc_value a) inputs.now) input) from.now))) }
    ensures ticks { OnOk result (tally.new ≡ tally.old + size_of at.now.out) }
{
    let t = threshold(at);
    let aid = components_over(alloc, at, inputs)?;
    let mut marks = CellBits::new(alloc, at.out())?;
    let work = Labelling {
        at,
        inputs,
        aid: &aid,
        t,
    };
    trace_cells(&work, from, to, &mut marks, tally);
    Ok(())
}

/// Adds the cells to which those of a set are related. It is the image in both directions, since
/// the relation goes both ways.
fn trace_cells(
    work: &Labelling,
    from: &CellBits,
    to: &mut CellBits,
    marks: &mut CellBits,
    tally: &mut Tally,
)
    requires right { IsAtWork work.now.at.now (map (λ a. arc_value a) work.now.inputs.now) }
    requires from { from.now.extent ≡ work.now.at.now.out }
    requires to { to.old.extent ≡ work.now.at.now.out }
    requires marks { marks.old.extent ≡ work.now.at.now.out }
    requires marked { AreMarked work.now.t
        (input_at (map (λ a. arc_value a) work.now.inputs.now) 0) marks.old to.old }
    requires room { tally.old + size_of work.now.at.now.out < 2 ^ 63 }
    ensures to { to.new ≡ with_those to.old (has (image_in Back work.now.at.now 0
        (related work.now.at.now.op (map (λ a. arc_value a) work.now.inputs.now) 0) from.now)) }
    ensures ticks { tally.new ≡ tally.old + size_of work.now.at.now.out }
{
    from.shape(); // the sets as they were are those of their cells
    to.shape();
    let shape = work.at.out();
    for index in 0..shape.size() {
        trace_cell(work, shape.cell_at(index), from, to, marks);
        tally.tick();
    }
}

/// Adds the cells to which a cell is related, where it is in the set and they are not there yet.
fn trace_cell(
    work: &Labelling,
    cell: Cell,
    from: &CellBits,
    to: &mut CellBits,
    marks: &mut CellBits,
)
    requires right { IsAtWork work.now.at.now (map (λ a. arc_value a) work.now.inputs.now) }
    requires cell { holds work.now.at.now.out cell ≡ true }
    requires from { from.now.extent ≡ work.now.at.now.out }
    requires to { to.old.extent ≡ work.now.at.now.out }
    requires marks { marks.old.extent ≡ work.now.at.now.out }
    requires marked { AreMarked work.now.t
        (input_at (map (λ a. arc_value a) work.now.inputs.now) 0) marks.old to.old }
    ensures to { to.new ≡ with_those to.old (traced Back (related work.now.at.now.op
        (map (λ a. arc_value a) work.now.inputs.now) 0) from.now cell) }
    ensures marks { marks.new.extent ≡ work.now.at.now.out }
    ensures marked { AreMarked work.now.t
        (input_at (map (λ a. arc_value a) work.now.inputs.now) 0) marks.new to.new }
{
    to.shape(); // the set as it was is that of its cells
    if !from.has(cell) {
        return;
    }
    match work.kept(cell) {
        None => to.set(cell),
        Some(component) => {
            let first = work.at.out().cell_at(component.first());
            if !marks.has(first) {
                marks.set(first);
                to.add_set(component.cells());
            }
        }
    }
}
