//! From a list of cells to the rising indexes that they name, from those to the longest runs that
//! spell them, and from the runs of two sets to those of both.

ghost use Rattle.std.specs.Prelude.{◌≡◌, ◌<◌, ◌≤◌, ◌||◌, ◌⊎◌};
ghost use Rattle.sz_cells.specs.Terms.{ℕ, true, false, nat_lt, length, map, fold, All, IfOk, OnOk};
ghost use Rattle.sz_cells.specs.Terms.{OnErr, flat_map, IsNonDecreasingBy, IsPartitionPoint};
ghost use Rattle.sz_cells.specs.Terms.{size_of, holds, index_of, cell_of, named_in, indexes_of};
ghost use Rattle.sz_cells.specs.Terms.{is_in, covers, first_at, bounds_with, AreRunsFrom};
ghost use Rattle.sz_cells.specs.Terms.{AreRising};

use crate::{Bounds, Cell, NoMemory, Run, Shape};
use std::alloc::Global;

/// The row-major indexes of the cells, each once and rising.
pub(crate) fn rising_indexes(
    alloc: Global,
    shape: &Shape,
    cells: &[Cell],
) -> Result<Vec<u32>, NoMemory>
    requires { All (λ c. holds shape.now c ≡ true) cells.now }
    ensures rising { IfOk result (λ v. AreRising 0 (size_of shape.now) v.items) }
    ensures named { IfOk result (λ v. named_in shape.now cells.now ≡ record {
      extent = shape.now;
      indexes = v.items;
    }) }
{
    let mut indexes = indexes_named(alloc, shape, cells)?;
    indexes.sort_unstable();
    indexes.dedup();
    Ok(indexes)
}

/// The row-major indexes of the cells, in the order of the list.
fn indexes_named(alloc: Global, shape: &Shape, cells: &[Cell]) -> Result<Vec<u32>, NoMemory>
    requires { All (λ c. holds shape.now c ≡ true) cells.now }
    ensures { IfOk result (λ v. v.items ≡ map (index_of shape.now) cells.now) }
{
    let mut indexes = Vec::with_capacity(alloc, cells.len())?;
    for cell in cells {
        indexes.push(shape.index(*cell))?;
    }
    Ok(indexes)
}

/// Adds a run that begins no earlier than any of the runs: to the last run where it touches or
/// overlaps it. So the longest runs of a set are made one after the other, for
/// [`CellSet::from_runs`](crate::CellSet::from_runs).
pub fn add_run(runs: &mut Vec<Run>, next: Run) -> Result<(), NoMemory>
    requires order { next.first ≤ next.last }
    requires later { All (λ r. r.first ≤ next.first) runs.old.items }
    ensures longest { OnOk result ((bound : ℕ) → AreRunsFrom 0 bound runs.old.items
        → next.last < bound → AreRunsFrom 0 bound runs.new.items) }
    ensures begun { OnOk result (All (λ r. r.first ≤ next.first) runs.new.items) }
    ensures added { OnOk result ((k : ℕ) → covers runs.new.items k
        ≡ (covers runs.old.items k || is_in next k)) }
    ensures kept { OnErr result (runs.new.items ≡ runs.old.items) }
{
    if let Some(run) = runs.last_mut() {
        if next.first <= run.last || next.first - run.last == 1 {
            run.last = run.last.max(next.last);
            return Ok(());
        }
    }
    runs.push(next)?;
    Ok(())
}

/// How many cells the longest runs of a shape have.
pub(crate) fn count_of(shape: &Shape, runs: &[Run]) -> u32
    requires { AreRunsFrom 0 (size_of shape.now) runs.now }
    ensures { result ≡ length (flat_map indexes_of runs.now) }
{
    prove!(runs.len() <= shape.size() as usize); // so no sum wraps
    let mut count = 0;
    for run in runs {
        count += run.last - run.first + 1;
    }
    count
}

/// Whether the next run on the left comes before the next one on the right, from a place on either
/// side on.
pub(crate) fn is_left_next(left: &[Run], right: &[Run], from_left: usize, from_right: usize) -> bool
    requires { (from_left < length left.now) ⊎ (from_right < length right.now) }
    ensures left { result ≡ true → from_left < length left.now }
    ensures before { result ≡ true → from_right < length right.now
        → first_at left.now from_left ≤ first_at right.now from_right }
    ensures right { result ≡ false → from_right < length right.now }
    ensures after { result ≡ false → from_left < length left.now
        → first_at right.now from_right ≤ first_at left.now from_left }
{
    from_left < left.len()
        && (from_right >= right.len() || left[from_left].first <= right[from_right].first)
}

/// A rectangle made so wide that it has the cells of a run of a shape. Takes no memory.
pub fn bounds_with_run(shape: &Shape, bounds: Bounds, run: Run) -> Bounds
    requires order { run.first ≤ run.last }
    requires within { run.last < size_of shape.now }
    ensures { result ≡ fold (λ b k. bounds_with b (cell_of shape.now k)) bounds (indexes_of run) }
{
    let first = shape.cell_at(run.first);
    let last = shape.cell_at(run.last);
    let (left, right) = if first.row == last.row {
        (first.col, last.col)
    } else {
        (0, shape.cols - 1)
    };
    Bounds {
        top: bounds.top.min(first.row),
        left: bounds.left.min(left),
        bottom: bounds.bottom.max(last.row),
        right: bounds.right.max(right),
    }
}

/// The place of the first run that does not end before an index, or the number of runs where each
/// does.
pub(crate) fn place_of(runs: &[Run], index: u32) -> usize
    requires { IsNonDecreasingBy (λ r. r.last) runs.now }
    ensures within { result ≤ length runs.now }
    ensures first { IsPartitionPoint (λ r. nat_lt r.last index ≡ true) (λ r. nat_lt r.last index
        ≡ false) runs.now result }
{
    runs.partition_point(|run| run.last < index)
}
