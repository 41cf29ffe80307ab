//! What is carried of the version that a refresh makes.

ghost use Rattle.std.specs.Prelude.{◌≡◌, ◌+◌, ◌*◌, ◌^◌, ◌<◌};
ghost use Rattle.sz_versions.specs.Terms.{true, None, IfOk, OnOk, map, length, slice_set, list_all};
ghost use Rattle.sz_versions.specs.Terms.{arc_value, execution_of, Holdings, arrays_of, judged};
ghost use Rattle.sz_versions.specs.Terms.{version_of, has_input, base_at, has_new_cell, with_cells};
ghost use Rattle.sz_versions.specs.Terms.{cells_set, array_refreshed, version_refreshed};
ghost use Rattle.sz_versions.specs.Terms.{cells_affected, executions_of, IsSoundVersion};
ghost use Rattle.sz_versions.specs.Terms.{IsInService, IsTrailOf};
ghost use Rattle.sz_script.specs.declared.command.Command.TheVariants as order;

use crate::cells::cell_of;
use crate::held::{HeldRuns, version_held};
use crate::recalled::arrays_of;
use crate::runs::VersionRun;
use crate::starting::carried;
use crate::tasks::Hands;
use std::alloc::Global;
use std::sync::{Arc, Wait};
use std::thread::Threads;
use sz_catalogue::{BaseArray, Catalogue, HeldVersion};
use sz_cells::{Cell, CellSet, NoMemory, Shape};
use sz_flow::NodeRun;
use sz_refresh::refresh;
use sz_script::NewCell;
use sz_spec::{Array, Tally};

/// What a refresh makes.
#[derive(Drop)]
pub struct RefreshedRun {
    /// The array that its version has in the place of an input's.
    pub array: Arc<Array>,
    /// What is carried of its version.
    pub run: VersionRun,
    /// How many node cells were computed again.
    pub cells: u64,
}

/// What a refresh makes of a version that was awaited: the base array of an input with some cells
/// set, and the runs of its nodes on it, of which those cells alone are computed again that a set
/// cell reaches; and, as at a start, what lineage needs and shelves, of which tasks are handed out.
/// Each of those cells is counted.
pub fn refresh_version<R: Threads + Wait + Sync>(
    rt: &R,
    alloc: Global,
    catalogue: &Catalogue,
    runs: &mut HeldRuns,
    hands: &Hands,
    version: u32,
    input: u32,
    set: &[NewCell],
    tally: &mut Tally,
) -> Result<RefreshedRun, NoMemory>
    requires service { IsInService catalogue.now runs.old }
    requires judged { judged catalogue.now (order.Refresh version input set.now) ≡ None }
    requires room { tally.old + 32 * 1048576 < 2 ^ 63 }
    ensures array { IfOk result (λ r. arc_value r.array
        ≡ array_refreshed (version_of catalogue.now version) input set.now) }
    ensures run { IfOk result (λ r. IsTrailOf (version_refreshed catalogue.now
        (version_of catalogue.now version) input set.now) r.run) }
    ensures cells { IfOk result (λ r. r.cells
        ≡ cells_affected catalogue.now (version_of catalogue.now version) input set.now) }
    ensures ticks { OnOk result (tally.new ≡ tally.old
        + cells_affected catalogue.now (version_of catalogue.now version) input set.now) }
    ensures same { runs.new ≡ runs.old }
{
    let held = version_held(catalogue, version);
    let old = runs.runs(rt, alloc, catalogue, version)?;
    let number = catalogue.next_number() as u32;
    let made = refresh_held(rt, alloc, held, &old, hands, number, input, set, tally)?;
    Ok(made)
}

/// What a refresh makes of a version and the runs of its nodes, under the number that the new
/// version is to have.
fn refresh_held<R: Threads + Wait + Sync>(
    rt: &R,
    alloc: Global,
    version: &HeldVersion,
    old: &[NodeRun],
    hands: &Hands,
    number: u32,
    input: u32,
    set: &[NewCell],
    tally: &mut Tally,
) -> Result<RefreshedRun, NoMemory>
    requires sound { IsSoundVersion version.now }
    requires input { has_input version.now input ≡ true }
    requires cells { list_all (has_new_cell (base_at version.now input).array.extent) set.now
        ≡ true }
    requires old { map execution_of old.now ≡ executions_of version.now }
    requires room { tally.old + 32 * 1048576 < 2 ^ 63 }
    ensures array { IfOk result
        (λ r. arc_value r.array ≡ array_refreshed version.now input set.now) }
    ensures run { IfOk result (λ r. (c : Holdings)
        → IsTrailOf (version_refreshed c version.now input set.now) r.run) }
    ensures cells { IfOk result
        (λ r. (c : Holdings) → r.cells ≡ cells_affected c version.now input set.now) }
    ensures ticks { OnOk result ((c : Holdings)
        → tally.new ≡ tally.old + cells_affected c version.now input set.now) }
{
    let new = base_with(alloc, version, input, set)?;
    let before = tally.count();
    let refreshed = refresh(
        rt,
        alloc,
        &version.flow,
        old,
        &new.arrays,
        input,
        &new.changed,
        tally,
    )?;
    let cells = tally.count() - before;
    let lists = version.lists.as_slice();
    let run = carried(rt, alloc, hands, number, lists, refreshed.runs)?;
    Ok(RefreshedRun {
        array: new.array,
        run,
        cells,
    })
}

/// Base arrays of which some cells of one are set.
#[derive(Drop)]
struct NewBase {
    /// The array with these cells set.
    array: Arc<Array>,
    /// All base arrays, with that in its place.
    arrays: Vec<Arc<Array>>,
    /// The cells that are set.
    changed: CellSet,
}

/// The base arrays of a version with some cells of an input's set.
fn base_with(
    alloc: Global,
    version: &HeldVersion,
    input: u32,
    set: &[NewCell],
) -> Result<NewBase, NoMemory>
    requires input { has_input version.now input ≡ true }
    requires cells { list_all (has_new_cell (base_at version.now input).array.extent) set.now
        ≡ true }
    ensures array { IfOk result
        (λ n. arc_value n.array ≡ array_refreshed version.now input set.now) }
    ensures arrays { IfOk result (λ n. (c : Holdings) → map (λ a. arc_value a) n.arrays.items
        ≡ arrays_of (version_refreshed c version.now input set.now).base) }
    ensures changed { IfOk result
        (λ n. n.changed ≡ cells_set (base_at version.now input).array.extent set.now) }
{
    let base = version.base.as_slice();
    let only = &base[input as usize];
    let changed = cells_set(alloc, only.array.shape(), set)?;
    let array = Arc::new(alloc, array_with(alloc, &only.array, set)?)?;
    let arrays = arrays_with(alloc, base, input, &array)?;
    Ok(NewBase {
        array,
        arrays,
        changed,
    })
}

/// An array with some cells set, one after another.
fn array_with(alloc: Global, array: &Array, set: &[NewCell]) -> Result<Array, NoMemory>
    requires { list_all (has_new_cell array.now.extent) set.now ≡ true }
    ensures { IfOk result (λ a. a ≡ with_cells array.now set.now) }
{
    let shape = array.shape();
    let mut cells = Vec::from_slice(alloc, array.cells())?;
    for one in set {
        let place = shape.index(cell_of(shape, one.layer, one.row, one.col));
        cells[place as usize] = one.value;
    }
    match Array::make(shape, cells) {
        Some(made) => Ok(made),
        None => unreachable!(),
    }
}

/// The cells of a shape that are set.
fn cells_set(alloc: Global, shape: Shape, set: &[NewCell]) -> Result<CellSet, NoMemory>
    requires { list_all (has_new_cell shape) set.now ≡ true }
    ensures { IfOk result (λ s. s ≡ cells_set shape set.now) }
{
    let mut cells: Vec<Cell> = Vec::with_capacity(alloc, set.len())?;
    for one in set {
        cells.push(cell_of(shape, one.layer, one.row, one.col))?;
    }
    CellSet::from_cells(alloc, shape, &cells)
}

/// Base arrays, with another in the place of an input's.
fn arrays_with(
    alloc: Global,
    base: &[BaseArray],
    input: u32,
    array: &Arc<Array>,
) -> Result<Vec<Arc<Array>>, NoMemory>
    requires { input < length base.now }
    ensures { IfOk result (λ v. map (λ a. arc_value a) v.items
        ≡ slice_set (arrays_of base.now) input (arc_value array.now)) }
{
    let mut arrays = arrays_of(alloc, base)?;
    arrays[input as usize] = Arc::try_clone(array)?;
    Ok(arrays)
}
