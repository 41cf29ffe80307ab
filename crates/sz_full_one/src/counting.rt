//! How many runs and cells the sets of region pairs have.

ghost use Rattle.std.specs.Prelude.{◌≡◌, ◌+◌};
ghost use Rattle.sz_full_one.specs.Terms.{map, sum_by, IfOk, arc_value, runs_in, weight_of};
ghost use Rattle.sz_full_one.specs.Terms.{cells_in, pair_cells};

use std::sync::Arc;
use sz_cells::{CellSet, NoMemory};
use sz_frame::Region;

/// How many runs and cells some sets have together.
#[derive(Clone, Copy)]
pub struct Needs {
    pub runs: usize,
    pub cells: u32,
}

/// The runs and cells of the sets of region pairs, or `NoMemory` where they are too many to count.
pub fn needs_of(regions: &[Arc<Region>]) -> Result<Needs, NoMemory>
    ensures { IfOk result (λ n. n ≡ record {
      runs = sum_by weight_of (map (λ a. arc_value a) regions.now);
      cells = sum_by pair_cells (map (λ a. arc_value a) regions.now);
    }) }
{
    let mut needs = Needs { runs: 0, cells: 0 };
    for region in regions {
        needs = with_region(needs, region)?;
    }
    Ok(needs)
}

/// Those of a region pair more.
fn with_region(needs: Needs, region: &Region) -> Result<Needs, NoMemory>
    ensures { IfOk result (λ n. n ≡ record {
      runs = needs.runs + weight_of region.now;
      cells = needs.cells + pair_cells region.now;
    }) }
{
    let mut sum = with_set(needs, &region.out)?;
    for set in region.ins.as_slice() {
        sum = with_set(sum, set)?;
    }
    Ok(sum)
}

/// Those of a set more.
fn with_set(needs: Needs, set: &CellSet) -> Result<Needs, NoMemory>
    ensures { IfOk result (λ n. n ≡ record {
      runs = needs.runs + runs_in set.now;
      cells = needs.cells + cells_in set.now;
    }) }
{
    let runs = needs.runs.checked_add(set.runs().len()).ok_or(NoMemory)?;
    let cells = needs.cells.checked_add(set.count()).ok_or(NoMemory)?;
    Ok(Needs { runs, cells })
}
