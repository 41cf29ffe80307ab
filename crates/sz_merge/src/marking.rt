//! Output cells with the numbers of their lineages: region pair by region pair.

ghost use Rattle.std.specs.Prelude.{◌≡◌, ◌<◌, ◌≤◌};
ghost use Rattle.sz_merge.specs.Terms.{map, length, All, Some, IfOk, OnOk, slice_get, arc_value};
ghost use Rattle.sz_merge.specs.Terms.{size_of, is_in, HasShapes, nothing, IsNext, AreMarked};
ghost use Rattle.sz_merge.specs.Terms.{AreLabels, AreNumbers, has_index};

use crate::joining::{Step, new_step, step_from};
use crate::lineages::LineageTable;
use std::alloc::Global;
use std::sync::Arc;
use sz_cells::{NoMemory, Run, Shape};
use sz_frame::Region;

/// For each output cell the number of what stands behind it by these region pairs.
///
/// Costs a look at each cell of the region pairs' output sets, and a union for each change of the
/// number that the cells of a region pair had.
pub fn label_cells(
    alloc: Global,
    out: Shape,
    regions: &[Arc<Region>],
    lineages: &mut LineageTable,
) -> Result<Vec<u32>, NoMemory>
    requires shapes { All (HasShapes out lineages.old.ins) (map (λ a. arc_value a) regions.now) }
    requires zero { slice_get lineages.old.lists 0 ≡ Some (nothing lineages.old.ins) }
    ensures ok { IfOk result (λ v. AreLabels out lineages.old.ins
        (map (λ a. arc_value a) regions.now) v.items lineages.new.lists) }
    ensures ins { lineages.new.ins ≡ lineages.old.ins }
{
    let mut labels = vec![in alloc; 0u32; out.size() as usize]?;
    for region in regions {
        mark(alloc, region, &mut labels, lineages)?;
    }
    Ok(labels)
}

/// Marks the cells of a region pair's output set: each gets its input sets more.
fn mark(
    alloc: Global,
    region: &Region,
    labels: &mut Vec<u32>,
    lineages: &mut LineageTable,
) -> Result<(), NoMemory>
    requires ins { map (λ s. s.extent) region.now.ins ≡ lineages.old.ins }
    requires zero { 0 < length lineages.old.lists }
    requires size { length labels.old.items ≡ size_of region.now.out.extent }
    requires numbers { AreNumbers labels.old.items lineages.old.lists }
    ensures ok { OnOk result (AreMarked lineages.old.ins region.now
        (has_index region.now) labels.old.items labels.new.items lineages.old.lists
        lineages.new.lists) }
    ensures numbers { OnOk result (AreNumbers labels.new.items lineages.new.lists) }
    ensures ins { lineages.new.ins ≡ lineages.old.ins }
{
    let mut last = new_step(alloc, region, 0, lineages)?;
    for run in region.out.runs() {
        last = mark_run(alloc, region, *run, last, labels, lineages)?;
    }
    Ok(())
}

/// Marks the cells of a run. Gives the last step that was made.
fn mark_run(
    alloc: Global,
    region: &Region,
    run: Run,
    last: Step,
    labels: &mut Vec<u32>,
    lineages: &mut LineageTable,
) -> Result<Step, NoMemory>
    requires ins { map (λ s. s.extent) region.now.ins ≡ lineages.old.ins }
    requires last { IsNext lineages.old.ins region.now lineages.old.lists last.from last.to }
    requires order { run.first ≤ run.last }
    requires within { run.last < length labels.old.items }
    requires numbers { AreNumbers labels.old.items lineages.old.lists }
    ensures ok { IfOk result (λ _. AreMarked lineages.old.ins region.now (is_in run)
        labels.old.items labels.new.items lineages.old.lists lineages.new.lists) }
    ensures last { IfOk result
        (λ s. IsNext lineages.old.ins region.now lineages.new.lists s.from s.to) }
    ensures numbers { IfOk result (λ _. AreNumbers labels.new.items lineages.new.lists) }
    ensures ins { lineages.new.ins ≡ lineages.old.ins }
{
    let mut last = last;
    for index in run.first as usize..run.last as usize + 1 {
        last = step_from(alloc, region, last, labels[index], lineages)?;
        labels[index] = last.to;
    }
    Ok(last)
}
