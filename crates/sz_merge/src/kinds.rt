//! Region pairs, one for each kind of lineage.

ghost use Rattle.std.specs.Prelude.{◌≡◌, ◌<◌, ◌^◌, ◌==◌, ◌&&◌, ◌++◌, ◌∷◌, if◌then◌else◌};
ghost use Rattle.sz_merge.specs.Terms.{ℕ, List, [], map, length, All, IfOk, OnOk, not, nat_lt};
ghost use Rattle.sz_merge.specs.Terms.{arc_value, Cell, size_of, AreRunsFrom, HasShapes};
ghost use Rattle.sz_merge.specs.Terms.{full_stands, spelled, AreKinds, list_at, kinds_below};

use crate::grouping::{Grouping, group_cells};
use crate::lineages::LineageTable;
use crate::marking::label_cells;
use std::alloc::Global;
use std::sync::Arc;
use sz_cells::{CellSet, NoMemory, Run, Shape};
use sz_frame::{Region, SetList};

/// Region pairs that stand for the same as these, one for each kind of lineage.
pub fn kinds_of(
    alloc: Global,
    out: Shape,
    ins: &[Shape],
    regions: &[Arc<Region>],
) -> Result<Vec<Arc<Region>>, NoMemory>
    requires { All (HasShapes out ins.now) (map (λ a. arc_value a) regions.now) }
    ensures kinds { IfOk result (λ v. AreKinds (map (λ a. arc_value a) v.items)) }
    ensures shapes { IfOk result
        (λ v. All (HasShapes out ins.now) (map (λ a. arc_value a) v.items)) }
    ensures same { IfOk result (λ v. (i : ℕ) (o x : Cell) → i < length ins.now
        → full_stands (map (λ a. arc_value a) v.items) i o x
        ≡ full_stands (map (λ a. arc_value a) regions.now) i o x) }
{
    let mut lineages = LineageTable::new(alloc, ins)?;
    let labels = label_cells(alloc, out, regions, &mut lineages)?;
    let groups = group_cells(alloc, lineages.len(), &labels)?;
    let kinds = regions_of(alloc, out, &groups, lineages.lists())?;
    Ok(kinds)
}

/// For each number of a lineage of some cell, but that of nothing, the region pair of the cells
/// that have it.
pub fn regions_of(
    alloc: Global,
    out: Shape,
    groups: &Grouping,
    lists: &[SetList],
) -> Result<Vec<Arc<Region>>, NoMemory>
    requires groups { All (AreRunsFrom 0 (size_of out)) groups.now }
    requires many { length groups.now ≡ length lists.now }
    requires few { length lists.now < 2 ^ 32 }
    ensures { IfOk result (λ v. map (λ a. arc_value a) v.items ≡ kinds_below out groups.now
        lists.now (length lists.now)) }
{
    let mut regions = Vec::new(alloc);
    for number in 0..lists.len() {
        let mut group = Vec::new(alloc);
        groups.put_runs(number as u32, &mut group)?;
        add_kind(alloc, out, group, lists, number, &mut regions)?;
    }
    Ok(regions)
}

/// Adds the region pair of a number, if it is one of a kind.
fn add_kind(
    alloc: Global,
    out: Shape,
    runs: Vec<Run>,
    lists: &[SetList],
    number: usize,
    regions: &mut Vec<Arc<Region>>,
) -> Result<(), NoMemory>
    requires runs { AreRunsFrom 0 (size_of out) runs.items }
    requires there { number < length lists.now }
    ensures { OnOk result (map (λ a. arc_value a) regions.new.items
        ≡ map (λ a. arc_value a) regions.old.items ++ (if nat_lt 0 number
        && not (length runs.items == 0) then record {
          out = spelled out runs.items;
          ins = list_at lists.now number;
        } ∷ [] else [])) }
{
    if number == 0 || runs.is_empty() {
        return Ok(());
    }
    let region = region_of(alloc, out, runs, lists, number)?;
    regions.push(region)?;
    Ok(())
}

/// The region pair of the cells of these runs and the lineage of a number.
fn region_of(
    alloc: Global,
    out: Shape,
    runs: Vec<Run>,
    lists: &[SetList],
    number: usize,
) -> Result<Arc<Region>, NoMemory>
    requires runs { AreRunsFrom 0 (size_of out) runs.items }
    requires there { number < length lists.now }
    ensures { IfOk result (λ r. arc_value r ≡ record {
      out = spelled out runs.items;
      ins = list_at lists.now number;
    }) }
{
    let out = Arc::new(alloc, CellSet::from_runs(out, runs))?;
    let ins = SetList::of(share(alloc, lists[number].as_slice())?);
    Ok(Arc::new(alloc, Region { out, ins })?)
}

/// The same sets, shared once more.
fn share(alloc: Global, sets: &[Arc<CellSet>]) -> Result<Vec<Arc<CellSet>>, NoMemory>
    ensures { IfOk result
        (λ v. map (λ a. arc_value a) v.items ≡ map (λ a. arc_value a) sets.now) }
{
    let mut shared: Vec<Arc<CellSet>> = Vec::new(alloc);
    for set in sets {
        shared.push(Arc::try_clone(set)?)?;
    }
    Ok(shared)
}
