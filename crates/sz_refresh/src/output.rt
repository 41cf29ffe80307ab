//! The output of an operator over new inputs, given what was its output over the old ones.

ghost use Rattle.std.specs.Prelude.{◌≡◌, ◌+◌, ◌-◌, ◌<◌, ◌≤◌, ◌^◌, ℕ, true, false, None, length};
ghost use Rattle.std.specs.Prelude.{map, IfOk, OnOk, IfSome, slice_index_or};
ghost use Rattle.std.specs.Arc.{arc_value};
ghost use Rattle.sz_cells.specs.Extent.{size_of, cell_of};
ghost use Rattle.sz_cells.specs.Runs.{is_in};
ghost use Rattle.sz_spec.specs.Values.{extents_of};
ghost use Rattle.sz_spec.specs.Evaluation.{value_of, output_of};
ghost use Rattle.sz_frame.specs.Walks.{values_before};
ghost use Rattle.sz_ops.specs.Aids.{aid_of};
ghost use Rattle.sz_refresh.specs.Outputs.{KeepsOthers, renewed};

use crate::whole::is_whole;
use rayon::prelude::*;
use std::alloc::Global;
use std::sync::Arc;
use std::thread::Threads;
use sz_cells::{CellBits, CellSet, NoMemory, Run};
use sz_frame::{at_work, output_with};
use sz_ops::{Aid, run_prepared, value_at};
use sz_spec::{Array, Op, OpAt, Tally, Value};

/// From how many cells on values are computed side by side.
const SIDE_BY_SIDE_FROM: u32 = 16_384;

/// The operator's output. The values of some cells are computed and counted, and the others are
/// those of an array that holds them already. Where no cell is to be computed that array is shared.
///
/// Takes time in the number of the array's cells to copy them, and else in the number of cells that
/// are computed. Of connected regions the labels were made already.
pub(crate) fn output_after<R: Threads + Sync>(
    rt: &R,
    alloc: Global,
    at: &OpAt,
    inputs: &[Arc<Array>],
    aid: &Aid,
    old: &Arc<Array>,
    labels: Option<Array>,
    cells: &CellSet,
    count: &mut Tally,
) -> Result<Arc<Array>, NoMemory>
    requires inputs { extents_of (map (λ a. arc_value a) inputs.now) ≡ at.now.ins }
    requires aid { aid.now ≡ aid_of at.now.op (map (λ a. arc_value a) inputs.now) }
    requires labels { IfSome labels
        (λ out. out ≡ output_of at.now.op (map (λ a. arc_value a) inputs.now)) }
    requires shape { (arc_value old.now).extent ≡ at.now.out }
    requires cells { cells.now.extent ≡ at.now.out }
    requires others { KeepsOthers at.now (map (λ a. arc_value a) inputs.now) (arc_value old.now)
        cells.now }
    requires room { count.old + size_of at.now.out < 2 ^ 63 }
    ensures output { IfOk result (λ a. arc_value a
        ≡ output_of at.now.op (map (λ a. arc_value a) inputs.now)) }
    ensures ticks { OnOk result (count.new ≡ count.old + length cells.now.indexes) }
{
    at_work(at, inputs);
    if cells.runs().is_empty() {
        old.cells();
        Ok(Arc::try_clone(old)?)
    } else {
        let renewal = Renewal {
            at,
            inputs,
            aid,
            old,
            cells,
        };
        let out = renewal.made(rt, alloc, labels, count)?;
        Ok(Arc::new(alloc, out)?)
    }
}

/// What an output is made from: an operator, its inputs and what was prepared for them, and an
/// array that holds all values of the output but those of some cells, which are to be computed.
#[derive(Drop)]
struct Renewal<'a> {
    at: &'a OpAt,
    inputs: &'a [Arc<Array>],
    aid: &'a Aid,
    old: &'a Array,
    cells: &'a CellSet,
    ghost right: { extents_of (map (λ a. arc_value a) inputs.now) ≡ at.now.ins },
    ghost prepared: { aid.now ≡ aid_of at.now.op (map (λ a. arc_value a) inputs.now) },
    ghost shape: { old.now.extent ≡ at.now.out },
    ghost within: { cells.now.extent ≡ at.now.out },
    ghost others: { KeepsOthers at.now (map (λ a. arc_value a) inputs.now) old.now cells.now },
}

impl<'a> Renewal<'a> {
    /// The output, as an array of its own: the labels where they are given, else made as a run
    /// makes it, where that pays, or from the old output.
    fn made<R: Threads + Sync>(
        &self,
        rt: &R,
        alloc: Global,
        labels: Option<Array>,
        count: &mut Tally,
    ) -> Result<Array, NoMemory>
        requires labels { IfSome labels (λ out. out
            ≡ output_of self.now.at.now.op (map (λ a. arc_value a) self.now.inputs.now)) }
        requires room { count.old + size_of self.now.at.now.out < 2 ^ 63 }
        ensures output { IfOk result (λ a. a
            ≡ output_of self.now.at.now.op (map (λ a. arc_value a) self.now.inputs.now)) }
        ensures ticks { OnOk result (count.new ≡ count.old + length self.now.cells.now.indexes) }
    {
        at_work(self.at, self.inputs);
        match labels {
            Some(labels) => {
                self.count_cells(count);
                Ok(labels)
            }
            None => {
                if is_made_whole(self.at.op(), self.cells) {
                    let out = run_prepared(alloc, self.at, self.inputs, self.aid)?;
                    self.count_cells(count);
                    Ok(out)
                } else {
                    let values = self.values(rt, alloc, count)?;
                    Ok(output_with(self.at, self.inputs, values))
                }
            }
        }
    }

    /// The values of all cells, of which some are computed and counted, and the others copied.
    fn values<R: Threads + Sync>(
        &self,
        rt: &R,
        alloc: Global,
        count: &mut Tally,
    ) -> Result<Vec<Value>, NoMemory>
        requires room { count.old + size_of self.now.at.now.out < 2 ^ 63 }
        ensures values { IfOk result (λ v. v.items ≡ values_before self.now.at.now
            (map (λ a. arc_value a) self.now.inputs.now) (size_of self.now.at.now.out)) }
        ensures ticks { OnOk result (count.new ≡ count.old + length self.now.cells.now.indexes) }
    {
        if is_side_by_side(self.at.op(), self.cells.count()) {
            let values = self.values_side_by_side(rt, alloc)?;
            self.count_cells(count);
            Ok(values)
        } else {
            self.values_in_turn(alloc, count)
        }
    }

    /// The same, the values computed side by side, and not counted: each place holds the old value,
    /// and gets a new one where it is among the cells.
    fn values_side_by_side<R: Threads + Sync>(
        &self,
        rt: &R,
        alloc: Global,
    ) -> Result<Vec<Value>, NoMemory>
        ensures { IfOk result (λ v. v.items ≡ values_before self.now.at.now
            (map (λ a. arc_value a) self.now.inputs.now) (size_of self.now.at.now.out)) }
    {
        let mut among = CellBits::new(alloc, self.cells.shape())?;
        among.add_set(self.cells);
        let mut values = copied(alloc, self.old)?;
        renew_all(rt, self.at, self.inputs, self.aid, &among, &mut values);
        Ok(values)
    }

    /// The same, the values computed and counted one after another.
    fn values_in_turn(&self, alloc: Global, count: &mut Tally) -> Result<Vec<Value>, NoMemory>
        requires room { count.old + size_of self.now.at.now.out < 2 ^ 63 }
        ensures values { IfOk result (λ v. v.items ≡ values_before self.now.at.now
            (map (λ a. arc_value a) self.now.inputs.now) (size_of self.now.at.now.out)) }
        ensures ticks { OnOk result (count.new ≡ count.old + length self.now.cells.now.indexes) }
    {
        let mut values = Vec::from_slice(alloc, self.old.cells())?;
        for run in self.cells.runs() {
            compute(self.at, self.inputs, self.aid, *run, &mut values, count);
        }
        Ok(values)
    }

    /// Counts the cells that are to be computed, one after another.
    fn count_cells(&self, tally: &mut Tally)
        requires { tally.old + size_of self.now.at.now.out < 2 ^ 63 }
        ensures { tally.new ≡ tally.old + length self.now.cells.now.indexes }
    {
        self.cells.shape(); // no more cells than the shape has
        count_all(self.cells.count(), tally);
    }
}

/// Whether an output of which all cells are affected is made as a run makes it. It settles the cost
/// alone.
fn is_made_whole(op: &Op, cells: &CellSet) -> bool {
    is_whole(cells) && !matches!(op, Op::Clean { .. })
}

/// Whether so many values of an operator are computed side by side. It settles the cost alone: it
/// pays for an operator that reads many cells for each value.
fn is_side_by_side(op: &Op, count: u32) -> bool {
    count >= SIDE_BY_SIDE_FROM && matches!(op, Op::Clean { .. } | Op::Convolve { .. })
}

/// The values of an array.
fn copied(alloc: Global, array: &Array) -> Result<Vec<Value>, NoMemory>
    ensures values { IfOk result (λ v. v.items ≡ array.now.values) }
    ensures count { IfOk result (λ v. length v.items ≡ size_of array.now.extent) }
{
    Ok(Vec::from_slice(alloc, array.cells())?)
}

/// Counts so many cells, one after another.
fn count_all(cells: u32, tally: &mut Tally)
    requires { tally.old + cells < 2 ^ 63 }
    ensures { tally.new ≡ tally.old + cells }
{
    for _ in 0..cells {
        tally.tick();
    }
}

/// Computes the values of the output cells that are among some, side by side, each at its place.
fn renew_all<R: Threads + Sync>(
    rt: &R,
    at: &OpAt,
    inputs: &[Arc<Array>],
    aid: &Aid,
    among: &CellBits,
    values: &mut [Value],
)
    requires inputs { extents_of (map (λ a. arc_value a) inputs.now) ≡ at.now.ins }
    requires aid { aid.now ≡ aid_of at.now.op (map (λ a. arc_value a) inputs.now) }
    requires among { among.now.extent ≡ at.now.out }
    requires long { length values.old ≡ size_of at.now.out }
    ensures { (k : ℕ) → k < size_of at.now.out → slice_index_or values.new k None
        ≡ renewed at.now (map (λ a. arc_value a) inputs.now) among.now k
        (slice_index_or values.old k None) }
{
    at.out().size(); // there are fewer cells than a u32 tells
    par_for_each_mut(
        rt,
        values,
        |index: usize, value: &mut Value|
            requires inputs { extents_of (map (λ a. arc_value a) inputs.now) ≡ at.now.ins }
            requires aid { aid.now ≡ aid_of at.now.op (map (λ a. arc_value a) inputs.now) }
            requires among { among.now.extent ≡ at.now.out }
            requires index { index < size_of at.now.out }
            requires fits { index < 2 ^ 32 }
            ensures { value.new ≡ renewed at.entry.now (map (λ a. arc_value a) inputs.entry.now)
                among.entry.now index value.old }
        {
            *value = renewed(at, inputs, aid, among, index as u32, *value);
        },
    );
}

/// The value of the output cell of a row-major index: computed where it is among some cells, and
/// else as it was.
fn renewed(
    at: &OpAt,
    inputs: &[Arc<Array>],
    aid: &Aid,
    among: &CellBits,
    index: u32,
    old: Value,
) -> Value
    requires inputs { extents_of (map (λ a. arc_value a) inputs.now) ≡ at.now.ins }
    requires aid { aid.now ≡ aid_of at.now.op (map (λ a. arc_value a) inputs.now) }
    requires among { among.now.extent ≡ at.now.out }
    requires index { index < size_of at.now.out }
    ensures { result ≡ renewed at.now (map (λ a. arc_value a) inputs.now) among.now index old }
{
    if among.has_index(index) {
        value_at(at, inputs, aid, at.out().cell_at(index))
    } else {
        old
    }
}

/// Computes the values of the cells of a run of indexes, and counts them.
fn compute(
    at: &OpAt,
    inputs: &[Arc<Array>],
    aid: &Aid,
    run: Run,
    values: &mut [Value],
    count: &mut Tally,
)
    requires inputs { extents_of (map (λ a. arc_value a) inputs.now) ≡ at.now.ins }
    requires aid { aid.now ≡ aid_of at.now.op (map (λ a. arc_value a) inputs.now) }
    requires order { run.first ≤ run.last }
    requires within { run.last < size_of at.now.out }
    requires long { length values.old ≡ size_of at.now.out }
    requires room { count.old + (run.last - run.first + 1) < 2 ^ 63 }
    ensures inside { (k : ℕ) → is_in run k ≡ true → slice_index_or values.new k None
        ≡ value_of at.now.op (map (λ a. arc_value a) inputs.now) (cell_of at.now.out k) }
    ensures outside { (k : ℕ) → is_in run k ≡ false
        → slice_index_or values.new k None ≡ slice_index_or values.old k None }
    ensures ticks { count.new ≡ count.old + (run.last - run.first + 1) }
{
    let shape = at.out();
    for index in run.first..run.last + 1 {
        values[index as usize] = value_at(at, inputs, aid, shape.cell_at(index));
        count.tick();
    }
}
