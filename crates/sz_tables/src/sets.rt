//! What a store asks of a set before it keeps it.

ghost use Rattle.std.specs.Prelude.{◌≡◌, ◌<◌, ◌≤◌, ◌+◌, ◌*◌};
ghost use Rattle.sz_tables.specs.Terms.{length, sum_by, size_of, AreRunsFrom, runs_in, weight_of};
ghost use Rattle.sz_tables.specs.Terms.{cells_in, IsRound, spelled};

use sz_cells::{Bounds, CellSet, Run, Shape, bounds_with_run};
use sz_frame::Region;

/// How many runs are visited for the bounds of a set.
const MANY_RUNS: usize = 1024;

/// How many runs a set has. None of them is longer than the largest shape.
pub fn runs_of_set(set: &CellSet) -> usize
    ensures runs { result ≡ runs_in set.now }
    ensures few { result ≤ 1048576 }
    ensures cells { cells_in set.now ≤ result * 1048576 }
{
    set.shape().size(); // its runs are within a shape
    set.runs().len()
}

/// How many runs the sets of a region pair of two inputs at most have together.
pub fn runs_of_region(region: &Region) -> usize
    requires { length region.now.ins ≤ 2 }
    ensures runs { result ≡ weight_of region.now }
    ensures few { result ≤ 3145728 }
    ensures cells { cells_in region.now.out + sum_by cells_in region.now.ins ≤ result * 1048576 }
{
    let mut runs = runs_of_set(&region.out);
    for set in region.ins.as_slice() {
        runs += runs_of_set(set);
    }
    runs
}

/// A rectangle round a set; of the set of no cell one that overlaps none with cells.
///
/// Costs a visit to each run of a set of at most 1,024. One round a set of more has whole rows, so
/// it costs no more.
pub fn bounds_of_set(set: &CellSet) -> Bounds
    ensures { IsRound result set.now }
{
    bounds_of_runs(set.shape(), set.runs())
}

/// As [`bounds_of_set`], round the set of a shape that has these runs, which are its longest ones.
pub(crate) fn bounds_of_runs(shape: Shape, runs: &[Run]) -> Bounds
    requires { AreRunsFrom 0 (size_of shape) runs.now }
    ensures { IsRound result (spelled shape runs.now) }
{
    if runs.len() > MANY_RUNS {
        return rows_of_runs(shape, runs);
    }
    let mut bounds = nowhere();
    for run in runs {
        bounds = bounds_with_run(&shape, bounds, *run);
    }
    bounds
}

/// The rectangle of the rows from that of the first cell of some runs to that of their last.
fn rows_of_runs(shape: Shape, runs: &[Run]) -> Bounds
    requires longest { AreRunsFrom 0 (size_of shape) runs.now }
    requires some { 0 < length runs.now }
    ensures { IsRound result (spelled shape runs.now) }
{
    Bounds {
        top: shape.cell_at(runs[0].first).row,
        left: 0,
        bottom: shape.cell_at(runs[runs.len() - 1].last).row,
        right: shape.cols,
    }
}

/// A rectangle that overlaps none with cells.
fn nowhere() -> Bounds {
    Bounds {
        top: u32::MAX,
        left: u32::MAX,
        bottom: 0,
        right: 0,
    }
}
