//! What is asked along a path of a version.

ghost use Rattle.std.specs.Prelude.{◌≡◌, ◌*◌, ◌≤◌};
ghost use Rattle.sz_versions.specs.Terms.{true, length, map, IfOk, OnOk, OnErr, list_all};
ghost use Rattle.sz_versions.specs.Terms.{arc_value, named_in, is_joined, source_of, is_there};
ghost use Rattle.sz_versions.specs.Terms.{execution_of, place_of, with_split, split_off, view_of};
ghost use Rattle.sz_versions.specs.Terms.{by_map, by_trace, by_store, by_growth, most_traced_by};
ghost use Rattle.sz_versions.specs.Terms.{most_traced_of, AreSteps, step_start, path_start};
ghost use Rattle.sz_versions.specs.Terms.{cell_named, has_named_cell, IsSoundVersion, IsOwn};
ghost use Rattle.sz_versions.specs.Terms.{keeping_of, view_by, view_kept, are_there, lent};
ghost use Rattle.sz_versions.specs.Terms.{once_viewed, once_asked, IsTrailStill, view_in};
ghost use Rattle.sz_versions.specs.Terms.{views_along, search_along, IsTrailFor};

use crate::cells::cell_of;
use crate::inquiry::Inquiry;
use crate::runs::{NodeKeeping, VersionRun};
use std::alloc::Global;
use std::sync::Arc;
use sz_catalogue::HeldVersion;
use sz_cells::{Cell, CellSet, NoMemory, Shape, laws};
use sz_flow::NodeRun;
use sz_query::{Growing, NodeRunRef, NodeView};
use sz_script::{NamedCell, NamedCells, Path, PathStep};
use sz_shelf::{Pass, Shelf};
use sz_spec::{Array, ArrayList, Dir, Strategy, way};
use sz_store::NodeStore;

/// What is asked along a path from some named cells, each step by the view of its node for the way
/// of the step. It shares what the run holds, and a view of a shelf has a pass that is split off,
/// which counts it: of what the run keeps nothing else changes.
pub(crate) fn inquiry_along(
    alloc: Global,
    version: &HeldVersion,
    run: &mut VersionRun,
    dir: Dir,
    path: &Path,
    named: &NamedCells,
) -> Result<Inquiry, NoMemory>
    requires sound { IsSoundVersion version.now }
    requires run { IsTrailFor version.now run.old }
    requires joined { is_joined dir version.now.flow path.now ≡ true }
    requires steps { AreSteps dir (views_along version.now dir path.now run.old)
        (map (λ s. s.input) path.now) (path_start dir version.now path.now) }
    requires named { list_all (has_named_cell (path_start dir version.now path.now)) named.now
        ≡ true }
    ensures search { IfOk result
        (λ s. s ≡ search_along version.now dir path.now named.now run.old) }
    ensures still { IsTrailStill run.old run.new }
{
    let steps = path.as_slice();
    let start = start_of(version, run, dir, steps[0]);
    let cells = cells_at(alloc, start, named.as_slice())?;
    let inputs = inputs_of(alloc, steps)?;
    let views = views_of(alloc, version, run, dir, steps)?;
    Ok(Inquiry {
        dir,
        views,
        inputs,
        cells,
    })
}

/// The shape in which a step starts: backward, of its node's output; forward, of its input.
fn start_of(_version: &HeldVersion, run: &VersionRun, dir: Dir, step: PathStep) -> Shape
    requires sound { IsSoundVersion _version.now }
    requires run { IsTrailFor _version.now run.now }
    requires there { is_there (source_of _version.now.flow step) ≡ true }
    ensures { result ≡ step_start dir _version.now step }
{
    let node = &run.runs()[step.node as usize];
    match dir {
        Dir::Back => node.at.out(),
        Dir::Forward => node.at.ins()[step.input as usize],
    }
}

/// The cells of a shape that are named.
fn cells_at(alloc: Global, shape: Shape, named: &[NamedCell]) -> Result<CellSet, NoMemory>
    requires { list_all (has_named_cell shape) named.now ≡ true }
    ensures { IfOk result (λ s. s ≡ named_in shape (map (cell_named shape) named.now)) }
{
    let mut cells: Vec<Cell> = Vec::with_capacity(alloc, named.len())?;
    for one in named {
        cells.push(cell_of(shape, one.layer, one.row, one.col))?;
    }
    CellSet::from_cells(alloc, shape, &cells)
}

/// The number of each step's input.
fn inputs_of(alloc: Global, path: &[PathStep]) -> Result<Vec<u32>, NoMemory>
    ensures { IfOk result (λ v. v.items ≡ map (λ s. s.input) path.now) }
{
    let mut inputs = Vec::with_capacity(alloc, path.len())?;
    for step in path {
        inputs.push(step.input)?;
    }
    Ok(inputs)
}

/// The view of each step's node.
fn views_of(
    alloc: Global,
    version: &HeldVersion,
    run: &mut VersionRun,
    dir: Dir,
    path: &[PathStep],
) -> Result<Vec<NodeView>, NoMemory>
    requires sound { IsSoundVersion version.now }
    requires run { IsTrailFor version.now run.old }
    requires there { are_there version.now.flow path.now ≡ true }
    ensures views { IfOk result
        (λ v. map view_of v.items ≡ views_along version.now dir path.now run.old) }
    ensures few { IfOk result
        (λ v. most_traced_of (map view_of v.items) ≤ length path.now * 1048576) }
    ensures still { IsTrailStill run.old run.new }
{
    let mut views = Vec::with_capacity(alloc, path.len())?;
    for step in path {
        views.push(view_at(alloc, version, run, dir, *step)?)?;
    }
    Ok(views)
}

/// The view of a step's node, for the way of the step.
fn view_at(
    alloc: Global,
    version: &HeldVersion,
    run: &mut VersionRun,
    dir: Dir,
    step: PathStep,
) -> Result<NodeView, NoMemory>
    requires sound { IsSoundVersion version.now }
    requires run { IsTrailFor version.now run.old }
    requires there { is_there (source_of version.now.flow step) ≡ true }
    ensures view { IfOk result (λ w. view_of w ≡ view_in version.now dir run.old step) }
    ensures few { IfOk result (λ w. most_traced_by (view_of w) ≤ 1048576) }
    ensures counted { OnOk result (run.new ≡ once_asked version.now dir step run.old) }
    ensures err { OnErr result (run.new ≡ run.old) }
{
    let lists = version.lists.as_slice();
    let way = way(lists[step.node as usize].as_slice(), dir);
    let node = &run.runs[step.node as usize];
    laws::a_shape_is_within_limits(&node.at.out());
    let stores = &mut run.stores[step.node as usize];
    view_by(alloc, way, node, stores)
}

/// The view of a node's run for a way: what a strategy keeps is looked at by a view of its kind.
fn view_by(
    alloc: Global,
    way: Strategy,
    run: &NodeRun,
    stores: &mut NodeKeeping,
) -> Result<NodeView, NoMemory>
    requires { IsOwn (keeping_of stores.old) }
    ensures view { IfOk result
        (λ w. view_of w ≡ view_by way (execution_of run.now) (keeping_of stores.old)) }
    ensures counted { OnOk result
        (keeping_of stores.new ≡ once_viewed way (keeping_of stores.old)) }
    ensures err { OnErr result (keeping_of stores.new ≡ keeping_of stores.old) }
{
    match way {
        Strategy::Map => map_view(run),
        Strategy::FullOneB
        | Strategy::FullOneF
        | Strategy::FullManyB
        | Strategy::FullManyF
        | Strategy::PayOne
        | Strategy::PayMany
        | Strategy::CompOne
        | Strategy::CompMany => kept_view(alloc, way, run, stores),
        Strategy::BlackBox => trace_view(alloc, run),
    }
}

/// The view by what a strategy keeps: by its store, made or read, by its shelf while that grows,
/// and where nothing is kept by a trace.
fn kept_view(
    alloc: Global,
    way: Strategy,
    run: &NodeRun,
    stores: &mut NodeKeeping,
) -> Result<NodeView, NoMemory>
    requires { IsOwn (keeping_of stores.old) }
    ensures view { IfOk result
        (λ w. view_of w ≡ view_kept way (execution_of run.now) (keeping_of stores.old)) }
    ensures counted { OnOk result (keeping_of stores.new ≡ lent 1 (keeping_of stores.old)) }
    ensures err { OnErr result (keeping_of stores.new ≡ keeping_of stores.old) }
{
    match stores {
        NodeKeeping::Nothing => trace_view(alloc, run),
        NodeKeeping::Growing { shelf, pass } => growing_view(alloc, way, run, shelf, pass),
        NodeKeeping::Whole(built) => store_view(way, run, &built.store),
        NodeKeeping::Read { store } => store_view(way, run, store),
    }
}

/// The view by a strategy's store.
fn store_view(way: Strategy, run: &NodeRun, store: &Arc<NodeStore>) -> Result<NodeView, NoMemory>
    ensures { IfOk result (λ w. view_of w
        ≡ by_store (execution_of run.now).site (arc_value store.now) way) }
{
    Ok(NodeView::Kept {
        at: Arc::try_clone(&run.at)?,
        store: Arc::try_clone(store)?,
        s: way,
    })
}

/// The view by a shelf on which a strategy's store grows, with a pass that is split off.
fn growing_view(
    alloc: Global,
    way: Strategy,
    run: &NodeRun,
    shelf: &Arc<Shelf>,
    pass: &mut Pass,
) -> Result<NodeView, NoMemory>
    requires { place_of pass.old ≡ arc_value shelf.now }
    ensures view { IfOk result (λ w. view_of w ≡ by_growth (execution_of run.now).site
        (execution_of run.now).inputs (arc_value shelf.now) (split_off pass.old) way) }
    ensures counted { OnOk result (pass.new ≡ with_split pass.old) }
    ensures err { OnErr result (pass.new ≡ pass.old) }
{
    let node = Growing::of(run_ref(alloc, run)?, Arc::try_clone(shelf)?);
    let pass = shelf.split(pass)?;
    Ok(NodeView::Building { node, pass, s: way })
}

/// The view by the mapping of cells.
fn map_view(run: &NodeRun) -> Result<NodeView, NoMemory>
    ensures { IfOk result (λ w. view_of w ≡ by_map (execution_of run.now).site) }
{
    let at = Arc::try_clone(&run.at)?;
    Ok(NodeView::Mapped { at })
}

/// The view by a trace over the arrays that the node took.
fn trace_view(alloc: Global, run: &NodeRun) -> Result<NodeView, NoMemory>
    ensures { IfOk result (λ w. view_of w
        ≡ by_trace (execution_of run.now).site (execution_of run.now).inputs) }
{
    Ok(NodeView::Traced {
        run: run_ref(alloc, run)?,
    })
}

/// The operator of a run, with the arrays that it took.
fn run_ref(alloc: Global, run: &NodeRun) -> Result<NodeRunRef, NoMemory>
    ensures at { IfOk result (λ r. arc_value r.at ≡ (execution_of run.now).site) }
    ensures inputs { IfOk result (λ r. r.inputs ≡ (execution_of run.now).inputs) }
{
    let at = Arc::try_clone(&run.at)?;
    let inputs = share(alloc, &run.inputs)?;
    Ok(NodeRunRef { at, inputs })
}

/// The same arrays, shared once more.
fn share(alloc: Global, arrays: &ArrayList) -> Result<ArrayList, NoMemory>
    ensures { IfOk result (λ a. a ≡ arrays.now) }
{
    let mut items: Vec<Arc<Array>> = Vec::new(alloc);
    for array in arrays.as_slice() {
        items.push(Arc::try_clone(array)?)?;
    }
    Ok(ArrayList::of(items))
}
