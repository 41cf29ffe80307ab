//! Lineages joined with the input sets of region pairs.

ghost use Rattle.std.specs.Prelude.{◌≡◌, ◌<◌};
ghost use Rattle.sz_merge.specs.Terms.{map, length, Some, IfOk, slice_get, arc_value, union_of};
ghost use Rattle.sz_merge.specs.Terms.{joined, list_at, KeepsNumbers, IsNext};

use crate::lineages::LineageTable;
use std::alloc::Global;
use std::sync::Arc;
use sz_cells::laws::a_set_is_its_cells;
use sz_cells::{CellSet, NoMemory};
use sz_frame::Region;

/// A number of a lineage, and that of the one which has the input sets of a region pair more.
#[derive(Clone, Copy)]
pub struct Step {
    pub from: u32,
    pub to: u32,
}

/// The step from a number, by a region pair: the one that was made last, where it is from there.
pub fn step_from(
    alloc: Global,
    region: &Region,
    last: Step,
    from: u32,
    lineages: &mut LineageTable,
) -> Result<Step, NoMemory>
    requires ins { map (λ s. s.extent) region.now.ins ≡ lineages.old.ins }
    requires last { IsNext lineages.old.ins region.now lineages.old.lists last.from last.to }
    requires from { from < length lineages.old.lists }
    ensures from { IfOk result (λ s. s.from ≡ from) }
    ensures next { IfOk result
        (λ s. IsNext lineages.old.ins region.now lineages.new.lists s.from s.to) }
    ensures kept { KeepsNumbers lineages.old.lists lineages.new.lists }
    ensures ins { lineages.new.ins ≡ lineages.old.ins }
{
    if last.from == from {
        return Ok(last);
    }
    new_step(alloc, region, from, lineages)
}

/// The step from a number, by a region pair.
pub fn new_step(
    alloc: Global,
    region: &Region,
    from: u32,
    lineages: &mut LineageTable,
) -> Result<Step, NoMemory>
    requires ins { map (λ s. s.extent) region.now.ins ≡ lineages.old.ins }
    requires from { from < length lineages.old.lists }
    ensures from { IfOk result (λ s. s.from ≡ from) }
    ensures next { IfOk result
        (λ s. IsNext lineages.old.ins region.now lineages.new.lists s.from s.to) }
    ensures kept { KeepsNumbers lineages.old.lists lineages.new.lists }
    ensures ins { lineages.new.ins ≡ lineages.old.ins }
{
    let to = join(alloc, region, from, lineages)?;
    Ok(Step { from, to })
}

/// The number of a lineage with the input sets of a region pair more.
fn join(
    alloc: Global,
    region: &Region,
    from: u32,
    lineages: &mut LineageTable,
) -> Result<u32, NoMemory>
    requires ins { map (λ s. s.extent) region.now.ins ≡ lineages.old.ins }
    requires from { from < length lineages.old.lists }
    ensures number { let old = lineages.old.lists in IfOk result (λ n.
        slice_get lineages.new.lists n ≡ Some (joined (list_at old from) region.now.ins)) }
    ensures kept { KeepsNumbers lineages.old.lists lineages.new.lists }
    ensures ins { lineages.new.ins ≡ lineages.old.ins }
{
    let sets = join_sets(alloc, lineages.sets(from), region.ins.as_slice())?;
    lineages.add(alloc, sets)
}

/// Of each input the cells of either lineage.
fn join_sets(
    alloc: Global,
    sets: &[Arc<CellSet>],
    more: &[Arc<CellSet>],
) -> Result<Vec<Arc<CellSet>>, NoMemory>
    requires { map (λ s. s.extent) (map (λ a. arc_value a) more.now)
        ≡ map (λ s. s.extent) (map (λ a. arc_value a) sets.now) }
    ensures { IfOk result (λ v. map (λ a. arc_value a) v.items
        ≡ joined (map (λ a. arc_value a) sets.now) (map (λ a. arc_value a) more.now)) }
{
    let mut both = Vec::new(alloc);
    for input in 0..sets.len() {
        let set = join_set(alloc, &sets[input], &more[input])?;
        both.push(set)?;
    }
    Ok(both)
}

/// The cells of either set. The second one is shared where the first has none.
fn join_set(
    alloc: Global,
    set: &Arc<CellSet>,
    more: &Arc<CellSet>,
) -> Result<Arc<CellSet>, NoMemory>
    requires { (arc_value more.now).extent ≡ (arc_value set.now).extent }
    ensures { IfOk result
        (λ a. arc_value a ≡ union_of (arc_value set.now) (arc_value more.now)) }
{
    if set.runs().is_empty() {
        a_set_is_its_cells(more);
        return Ok(Arc::try_clone(more)?);
    }
    let both = set.union(alloc, more)?;
    Ok(Arc::new(alloc, both)?)
}
