//! Writing a store of full lineage from region pairs: their sets are numbered first, each with the
//! number of the one before where it is the same set.

ghost use Rattle.std.specs.Prelude.{◌≡◌, ◌<◌, ◌≤◌, ◌+◌, ◌*◌, ◌^◌, ◌++◌, ◌∷◌};
ghost use Rattle.sz_region.specs.Terms.{[], ℕ, List, length, map, true, Some, All, IfSome, OnOk};
ghost use Rattle.sz_region.specs.Terms.{OnErr, slice_get, arc_value, Extent, Listed, listed_of};
ghost use Rattle.sz_region.specs.Terms.{IsFullWord, CanPutRegions, HasShapes, AreNumbered};
ghost use Rattle.sz_region.specs.Terms.{AreRegionsNumbered};

use crate::tables::{ListedSet, put_numbered};
use std::sync::Arc;
use sz_cells::laws::a_set_is_its_cells;
use sz_cells::{CellSet, NoMemory, Run};
use sz_frame::Region;

/// Appends a store of these region pairs. A set that is the one of the same array of the region
/// pair before is written once. After `NoMemory` the bytes are as before.
///
/// Takes time and memory in the number of the region pairs' sets and of their runs.
pub fn put_regions(regions: &[Arc<Region>], to: &mut Vec<u8>) -> Result<(), NoMemory>
    requires { (out : Extent) × (ins : List Extent)
        × CanPutRegions out ins (map (λ r. arc_value r) regions.now) }
    ensures ok { OnOk result ((out : Extent) (ins : List Extent)
        → All (HasShapes out ins) (map (λ r. arc_value r) regions.now)
        → (table : List Listed) × (word : List ℕ)
        × IsFullWord out ins table (map (λ r. arc_value r) regions.now) word
        × (to.new.items ≡ to.old.items ++ word)) }
    ensures err { OnErr result (to.new.items ≡ to.old.items) }
{
    let inputs = inputs_of(regions);
    let alloc = *to.allocator();
    let mut sets = Vec::new(alloc);
    let mut names = Vec::new(alloc);
    number_regions(regions, inputs, &mut sets, &mut names)?;
    put_numbered(&sets, inputs + 1, &names, to)
}

/// How many inputs each of the region pairs has, 0 where there is no region pair.
fn inputs_of(regions: &[Arc<Region>]) -> u32
    requires { (out : Extent) × (ins : List Extent)
        × CanPutRegions out ins (map (λ r. arc_value r) regions.now) }
    ensures each { All (λ r. length r.ins ≡ result) (map (λ r. arc_value r) regions.now) }
    ensures inputs { result ≤ 255 }
    ensures sets { length regions.now * (1 + result) < 2 ^ 32 }
    ensures few { length regions.now ≤ 2 ^ 30 }
{
    match regions.first() {
        Some(region) => region.ins.as_slice().len() as u32,
        None => 0,
    }
}

/// Adds the sets of region pairs to a table, and the number of each to the names.
fn number_regions<'a>(
    regions: &'a [Arc<Region>],
    inputs: u32,
    sets: &mut Vec<ListedSet<'a>>,
    names: &mut Vec<u32>,
) -> Result<(), NoMemory>
    requires each { All (λ r. length r.ins ≡ inputs) (map (λ r. arc_value r) regions.now) }
    requires inputs { inputs ≤ 255 }
    requires few { length regions.now * (1 + inputs) < 2 ^ 32 }
    requires sets { sets.old.items ≡ [] }
    requires names { names.old.items ≡ [] }
    ensures { OnOk result (AreRegionsNumbered sets.new.items names.new.items
        (map (λ r. arc_value r) regions.now)) }
{
    names.reserve(regions.len() * (1 + inputs as usize))?;
    let mut before = 0;
    for region in regions {
        let here = names.len();
        number_region(region, before, sets, names)?;
        before = here;
    }
    Ok(())
}

/// Adds the sets of a region pair, where the names of the one before begin at a place.
fn number_region<'a>(
    region: &'a Region,
    before: usize,
    sets: &mut Vec<ListedSet<'a>>,
    names: &mut Vec<u32>,
) -> Result<(), NoMemory>
    requires before { before < 2 ^ 32 }
    requires inputs { length region.now.ins ≤ 255 }
    requires room { length sets.old.items + (1 + length region.now.ins) ≤ 2 ^ 32 }
    ensures { OnOk result (AreNumbered sets.old.items sets.new.items names.old.items
        names.new.items (listed_of region.now)) }
{
    number_set(&region.out, 0, before, sets, names)?;
    let mut array = 0;
    for set in region.ins.as_slice() {
        array += 1;
        number_set(set, array, before + array as usize, sets, names)?;
    }
    Ok(())
}

/// Adds a set of an array, where that of the region pair before may be the one that a name at a
/// place names.
fn number_set<'a>(
    set: &'a CellSet,
    array: u8,
    before: usize,
    sets: &mut Vec<ListedSet<'a>>,
    names: &mut Vec<u32>,
) -> Result<(), NoMemory>
    requires { length sets.old.items < 2 ^ 32 }
    ensures { OnOk result (AreNumbered sets.old.items sets.new.items names.old.items
        names.new.items (record { array = array; set = set.now } ∷ [])) }
{
    a_set_is_its_cells(set);
    let next = ListedSet {
        array,
        shape: set.shape(),
        runs: set.runs(),
    };
    match known_name(sets, names, before, &next) {
        Some(name) => names.push(name)?,
        None => {
            names.push(sets.len() as u32)?;
            sets.push(next)?;
        }
    }
    Ok(())
}

/// The name at a place, where it names just this set.
fn known_name(sets: &[ListedSet], names: &[u32], before: usize, next: &ListedSet) -> Option<u32>
    ensures { IfSome result (λ n. slice_get sets.now n ≡ Some next.now) }
{
    let name = *names.get(before)?;
    let known = sets.get(name as usize)?;
    if is_same(known, next) {
        Some(name)
    } else {
        None
    }
}

/// Whether two listed sets are one.
fn is_same(one: &ListedSet, other: &ListedSet) -> bool
    ensures { result ≡ true → one.now ≡ other.now }
{
    if one.array != other.array {
        return false;
    }
    if one.shape != other.shape {
        return false;
    }
    are_same(one.runs, other.runs)
}

/// Whether two lists of runs are one.
fn are_same(runs: &[Run], other: &[Run]) -> bool
    ensures { result ≡ true → runs.now ≡ other.now }
{
    runs == other
}
