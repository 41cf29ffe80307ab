//! Whether no cell is in two entries of a table. Only sets that are apart have together as many
//! cells as each has by itself, so it is enough to count.

ghost use Rattle.std.specs.Prelude.{◌≡◌, ◌≤◌};
ghost use Rattle.sz_tables.specs.Terms.{length, IfOk, flat_map, AreRunsFrom, indexes_of};
ghost use Rattle.sz_tables.specs.Terms.{SaysWhetherApart, entries};

use crate::entry_table::EntryTable;
use crate::looks::add_runs;
use std::alloc::Global;
use sz_cells::laws::a_bitmap_is_its_cells;
use sz_cells::{CellBits, NoMemory, Run};

/// Whether no cell is in two entries of a table.
///
/// Takes a bit for each cell of the shape, and time in the number of runs of the entries' sets and
/// of the words of 64 cells in which these have cells: sets with more cells than the shape has are
/// not apart, and are not looked at further.
pub(crate) fn are_apart(alloc: Global, table: &EntryTable) -> Result<bool, NoMemory>
    ensures { IfOk result (λ b. SaysWhetherApart (entries table.now) b) }
{
    let shape = table.shape();
    let size = shape.size();
    let mut seen = CellBits::new(alloc, shape)?;
    let mut count = 0;
    for row in 0..table.len() {
        a_bitmap_is_its_cells(&seen);
        let runs = table.out_runs(table.set_number(row));
        add_runs(runs, &mut seen);
        count += cells_of_runs(runs, size);
        if size < count {
            return Ok(false);
        }
    }
    let cells = seen.to_set(alloc)?;
    Ok(cells.count() == count)
}

/// How many cells runs have, the longest ones of a set of a shape of this size.
fn cells_of_runs(runs: &[Run], size: u32) -> u32
    requires longest { AreRunsFrom 0 size runs.now }
    requires few { size ≤ 1048576 }
    ensures count { result ≡ length (flat_map indexes_of runs.now) }
    ensures few { result ≤ size }
{
    let mut count = 0;
    for run in runs {
        count += run.last - run.first + 1;
    }
    count
}
