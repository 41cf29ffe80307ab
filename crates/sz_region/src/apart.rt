//! Whether no cell is in two entries, by a bitmap of the cells of the entries so far.

ghost use Rattle.std.specs.Prelude.{◌≡◌, ◌≤◌, ◌<◌};
ghost use Rattle.sz_region.specs.Terms.{map, length, All, IfOk, list_any, arc_value, size_of};
ghost use Rattle.sz_region.specs.Terms.{cell_of, has, any_cell, indexes_of, SaysWhetherApart};

use std::alloc::Global;
use std::sync::Arc;
use sz_cells::laws::a_set_is_its_cells;
use sz_cells::{CellBits, CellSet, NoMemory, Run, Shape};
use sz_frame::PayEntry;

/// Whether no cell is in two of these entries, whose sets have this shape.
///
/// Takes a bit for each cell of the shape, and time in the number of the entries' cells up to the
/// first that is in two.
pub(crate) fn are_apart(
    alloc: Global,
    out: Shape,
    entries: &[Arc<PayEntry>],
) -> Result<bool, NoMemory>
    requires { All (λ e. e.out.extent ≡ out) (map (λ e. arc_value e) entries.now) }
    ensures { IfOk result (λ b. SaysWhetherApart (map (λ e. arc_value e) entries.now) b) }
{
    let mut seen = CellBits::new(alloc, out)?;
    for entry in entries {
        let set: &CellSet = &entry.out;
        a_set_is_its_cells(set);
        if meets(&seen, set) {
            return Ok(false);
        }
        seen.add_set(set);
    }
    Ok(true)
}

/// Whether a set has a cell of a bitmap of the same shape.
fn meets(bits: &CellBits, set: &CellSet) -> bool
    requires { set.now.extent ≡ bits.now.extent }
    ensures { result ≡ any_cell (has bits.now) set.now }
{
    for run in set.runs() {
        if meets_run(bits, *run) {
            return true;
        }
    }
    false
}

/// Whether a run of a bitmap's shape has a cell of it.
fn meets_run(bits: &CellBits, run: Run) -> bool
    requires order { run.first ≤ run.last }
    requires within { run.last < size_of bits.now.extent }
    ensures { result ≡ list_any (λ k. has bits.now (cell_of bits.now.extent k)) (indexes_of run) }
{
    let shape = bits.shape();
    shape.size(); // few enough that the run's end fits
    for index in run.first..run.last + 1 {
        if bits.has_index(index) {
            return true;
        }
    }
    false
}
