//! Sets of a table as cells of bitmaps: adding one, and whether one has an asked cell.

ghost use Rattle.std.specs.Prelude.{◌≡◌, ◌<◌, ◌≤◌};
ghost use Rattle.sz_tables.specs.Terms.{length, list_any, any_cell, has, next_index, union_of};
ghost use Rattle.sz_tables.specs.Terms.{with_those, size_of, AreRising, AreRunsFrom, covers, is_in};
ghost use Rattle.sz_tables.specs.Terms.{cells_at, extent_at, set_at, sets_of};

use crate::region_table::RegionTable;
use sz_cells::{CellBits, Run};

impl RegionTable {
    /// Adds the cells of the output set of a number. Takes no memory.
    pub fn add_out_set(&self, number: u32, to: &mut CellBits)
        requires number { number < length self.now.outs }
        requires to { to.old.extent ≡ self.now.out }
        ensures { to.new ≡ with_those to.old (has (set_at self.now.outs number)) }
    {
        add_runs(self.out_runs(number), to);
    }

    /// Adds the cells of the set of a number of an input. Takes no memory.
    pub fn add_in_set(&self, input: u32, number: u32, to: &mut CellBits)
        requires input { input < length self.now.ins }
        requires number { number < length (sets_of self.now.sets input) }
        requires to { to.old.extent ≡ extent_at self.now.ins input }
        ensures { to.new
            ≡ with_those to.old (has (set_at (sets_of self.now.sets input) number)) }
    {
        add_runs(self.in_runs(input, number), to);
    }

    /// Whether the output set of a number has one of these cells.
    pub fn out_set_meets(&self, number: u32, from: &CellBits) -> bool
        requires number { number < length self.now.outs }
        requires from { from.now.extent ≡ self.now.out }
        ensures { result ≡ any_cell (has (set_at self.now.outs number)) from.now }
    {
        runs_meet(self.out_runs(number), from)
    }

    /// Whether the set of a number of an input has one of these cells.
    pub fn in_set_meets(&self, input: u32, number: u32, from: &CellBits) -> bool
        requires input { input < length self.now.ins }
        requires number { number < length (sets_of self.now.sets input) }
        requires from { from.now.extent ≡ extent_at self.now.ins input }
        ensures { result ≡ any_cell (has (set_at (sets_of self.now.sets input) number)) from.now }
    {
        runs_meet(self.in_runs(input, number), from)
    }
}

/// Adds the cells of runs.
pub(crate) fn add_runs(runs: &[Run], to: &mut CellBits)
    requires { AreRunsFrom 0 (size_of to.old.extent) runs.now }
    ensures { to.new ≡ union_of to.old (cells_at to.old.extent (covers runs.now)) }
{
    to.shape(); // the set as it was is that of its cells
    for run in runs {
        to.add_run(*run);
    }
}

/// Whether one of some runs has an asked cell. Goes once over the runs and the asked cells.
fn runs_meet(runs: &[Run], from: &CellBits) -> bool
    requires { AreRunsFrom 0 (size_of from.now.extent) runs.now }
    ensures met { result ≡ list_any (covers runs.now) from.now.indexes }
    ensures rising { AreRising 0 (size_of from.now.extent) from.now.indexes }
{
    from.shape(); // the asked indexes rise
    let mut start = 0;
    let mut next = from.next_after(0);
    for run in runs {
        next = next_from(from, start, next, run.first);
        start = run.first;
        if is_up_to(from, *run, next) {
            return true;
        }
    }
    false
}

/// The least asked index at or after one number, by that at or after a lower one.
fn next_from(from: &CellBits, lower: u32, next: Option<u32>, start: u32) -> Option<u32>
    requires next { next ≡ next_index from.now lower }
    requires order { lower ≤ start }
    ensures { result ≡ next_index from.now start }
{
    match next {
        Some(index) => {
            if index < start {
                from.next_after(start)
            } else {
                Some(index)
            }
        }
        None => None,
    }
}

/// Whether a run has an asked index, by the least one at or after the run's first.
fn is_up_to(from: &CellBits, run: Run, next: Option<u32>) -> bool
    requires next { next ≡ next_index from.now run.first }
    requires rising { AreRising 0 (size_of from.now.extent) from.now.indexes }
    ensures { result ≡ list_any (is_in run) from.now.indexes }
{
    match next {
        Some(index) => index <= run.last,
        None => false,
    }
}
