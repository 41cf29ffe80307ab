//! Whether the stores of an opened log stand for what the operators of its versions relate.

ghost use Rattle.std.specs.Prelude.{◌≡◌, ◌<◌, ◌≤◌, ◌∷◌};
ghost use Rattle.sz_recover.specs.Terms.{ℕ, List, [], length, map, true, false, All, option_map};
ghost use Rattle.sz_recover.specs.Terms.{Some, IfOk, OnOk, Decides, AllZip, arc_value, Extent};
ghost use Rattle.sz_recover.specs.Terms.{size_of, holds, cell_of, extents_of, extent_at, Site};
ghost use Rattle.sz_recover.specs.Terms.{supports, is_stored, is_listed, pieces_of, near_side};
ghost use Rattle.sz_recover.specs.Terms.{far_side, Parts, Fits, measure_of, aid_of, execution_of};
ghost use Rattle.sz_recover.specs.Terms.{holding_for, with_lineage, with_part, arrays_of, IsRun};
ghost use Rattle.sz_recover.specs.Terms.{FitsNode, FitNodes, Fit, lineages, HasItsStores};
ghost use Rattle.sz_recover.specs.Terms.{IsEntryOf, IsExact, TellsOfNode, TellsOfNodes};
ghost use Rattle.sz_recover.specs.Terms.{TellsOfEntry, TellsOfAll, TellsOfStrategy, executions_of};
ghost use Rattle.sz_recover.specs.Terms.{IsListAt, IsOneOf, AgreeAt, AgreeOn, AgreeOnEach};
ghost use Rattle.sz_recover.specs.Terms.{AreSides};

use crate::groups::KeptVersion;
use crate::opening::Recovered;
use crate::ticking::{keeps_each_piece, lineage_of};
use std::alloc::Global;
use std::sync::Arc;
use std::thread::Threads;
use sz_catalogue::{BaseArray, Catalogue, HeldVersion};
use sz_cells::{CellBits, NoMemory, Shape};
use sz_flow::{NodeRun, run_all};
use sz_frame::PieceLineage;
use sz_ops::{Aid, piece, prepare_lineage};
use sz_script::StrategyList;
use sz_spec::{Array, Dir, OpAt, Strategy, Tally, pieces_of};
use sz_store::NodeStore;

/// A store that does not stand for what its strategy is to keep: its version, from 1, its node,
/// from 0, and its strategy.
#[derive(Clone, Copy, Debug, PartialEq, Eq)]
pub struct WrongStore {
    pub version: u32,
    pub node: u32,
    pub s: Strategy,
}

/// The first store of an opened log that does not stand for exactly the relation of its node's
/// operator, in the order of the log, of the nodes and of the lists. `None` exactly where there is
/// none.
///
/// Runs each version again, and makes the lineage of each piece again, side by side: takes time and
/// memory as both take, and some numbers for each region pair or entry. A store that is not what its
/// pieces have is made again, which takes for each cell of each array, the output's or the inputs' as
/// the store is asked from, the time of two images of one cell. It keeps one version and one store at
/// a time.
pub fn unsound<R: Threads + Sync>(
    rt: &R,
    alloc: Global,
    r: &Recovered,
) -> Result<Option<WrongStore>, NoMemory>
    ensures { IfOk result (λ w. TellsOfAll r.now.catalogue r.now.stores.items w) }
{
    for kept in &r.stores {
        if let Some(wrong) = wrong_of_entry(rt, alloc, &r.catalogue, kept)? {
            return Ok(Some(wrong));
        }
    }
    Ok(None)
}

/// The first wrong store of an entry.
fn wrong_of_entry<R: Threads + Sync>(
    rt: &R,
    alloc: Global,
    catalogue: &Catalogue,
    kept: &KeptVersion,
) -> Result<Option<WrongStore>, NoMemory>
    requires entry { IsEntryOf catalogue.now kept.now }
    ensures { IfOk result (λ w. TellsOfEntry catalogue.now kept.now w) }
{
    let Some(version) = catalogue.version(kept.version) else {
        unreachable!()
    };
    let _outputs = catalogue.outputs(kept.version); // it is a run
    match wrong_of_version(rt, alloc, version, &kept.nodes)? {
        Some((node, s)) => Ok(Some(WrongStore {
            version: kept.version,
            node,
            s,
        })),
        None => Ok(None),
    }
}

/// The first node of a version that has a wrong store, and that store's strategy.
fn wrong_of_version<R: Threads + Sync>(
    rt: &R,
    alloc: Global,
    version: &HeldVersion,
    nodes: &[Option<Arc<NodeStore>>],
) -> Result<Option<(u32, Strategy)>, NoMemory>
    requires run { (outputs : List Extent) × IsRun version.now outputs }
    requires few { length nodes.now ≤ 32 }
    requires fit { Fit version.now (lineages nodes.now) }
    requires stored { All HasItsStores (lineages nodes.now) }
    ensures { IfOk result
        (λ w. TellsOfNodes (executions_of version.now) (lineages nodes.now) w) }
{
    sz_flow::laws::executions_are_those_of_their_nodes();
    let runs = run_again(rt, alloc, version)?;
    wrong_of_nodes(rt, alloc, &runs, version.lists.as_slice(), nodes)
}

/// The runs of a version's nodes.
fn run_again<R: Threads + Sync>(
    rt: &R,
    alloc: Global,
    version: &HeldVersion,
) -> Result<Vec<NodeRun>, NoMemory>
    requires run { (outputs : List Extent) × IsRun version.now outputs }
    ensures { IfOk result (λ v. map execution_of v.items ≡ executions_of version.now) }
{
    let arrays = arrays_of(alloc, version.base.as_slice())?;
    run_all(rt, alloc, &version.flow, &arrays)
}

/// The arrays of base arrays, shared.
fn arrays_of(alloc: Global, base: &[BaseArray]) -> Result<Vec<Arc<Array>>, NoMemory>
    ensures { IfOk result (λ v. map (λ a. arc_value a) v.items ≡ arrays_of base.now) }
{
    let mut arrays = Vec::with_capacity(alloc, base.len())?;
    for only in base {
        arrays.push(Arc::try_clone(&only.array)?)?;
    }
    Ok(arrays)
}

/// The first node that has a wrong store, and that store's strategy.
fn wrong_of_nodes<R: Threads + Sync>(
    rt: &R,
    alloc: Global,
    runs: &[NodeRun],
    lists: &[StrategyList],
    nodes: &[Option<Arc<NodeStore>>],
) -> Result<Option<(u32, Strategy)>, NoMemory>
    requires few { length nodes.now ≤ 32 }
    requires fit { FitNodes (map (λ e. e.site) (map execution_of runs.now)) lists.now
        (lineages nodes.now) }
    requires stored { All HasItsStores (lineages nodes.now) }
    requires lists { AllZip IsListAt (map execution_of runs.now) lists.now }
    ensures { IfOk result
        (λ w. TellsOfNodes (map execution_of runs.now) (lineages nodes.now) w) }
{
    for node in 0..nodes.len() {
        let found = wrong_of_node(rt, alloc, &runs[node], &lists[node], &nodes[node])?;
        if let Some(s) = found {
            return Ok(Some((node as u32, s)));
        }
    }
    Ok(None)
}

/// The strategy of the first wrong store of a node, in the order of its list.
fn wrong_of_node<R: Threads + Sync>(
    rt: &R,
    alloc: Global,
    run: &NodeRun,
    list: &StrategyList,
    node: &Option<Arc<NodeStore>>,
) -> Result<Option<Strategy>, NoMemory>
    requires fits { FitsNode (execution_of run.now).site list.now
        (option_map (λ a. arc_value a) node.now) }
    requires stored { HasItsStores (option_map (λ a. arc_value a) node.now) }
    requires list { IsListAt (execution_of run.now) list.now }
    ensures { IfOk result (λ w.
        TellsOfNode (execution_of run.now) (option_map (λ a. arc_value a) node.now) w) }
{
    match node {
        Some(store) => wrong_of_stores(rt, alloc, run, list.as_slice(), store),
        None => Ok(None),
    }
}

/// The same of the stores of a node.
fn wrong_of_stores<R: Threads + Sync>(
    rt: &R,
    alloc: Global,
    run: &NodeRun,
    list: &[Strategy],
    store: &NodeStore,
) -> Result<Option<Strategy>, NoMemory>
    requires site { store.now.site ≡ (execution_of run.now).site }
    requires own { store.now.list ≡ list.now }
    requires stored { HasItsStores (Some store.now) }
    requires list { IsListAt (execution_of run.now) list.now }
    ensures { IfOk result (λ w. TellsOfNode (execution_of run.now) (Some store.now) w) }
{
    for s in list {
        if is_wrong(rt, alloc, run, store, *s)? {
            return Ok(Some(*s));
        }
    }
    Ok(None)
}

/// Whether a strategy has a store, and that is wrong.
fn is_wrong<R: Threads + Sync>(
    rt: &R,
    alloc: Global,
    run: &NodeRun,
    store: &NodeStore,
    s: Strategy,
) -> Result<bool, NoMemory>
    requires site { store.now.site ≡ (execution_of run.now).site }
    requires listed { is_listed store.now.list s ≡ true }
    requires supported { supports (execution_of run.now).site.op s ≡ true }
    ensures { IfOk result (λ b. TellsOfStrategy (execution_of run.now) store.now s b) }
{
    if !s.is_stored() {
        return Ok(false);
    }
    match is_exact(rt, alloc, run, store, s)? {
        true => Ok(false),
        false => Ok(true),
    }
}

/// Whether the store of a strategy stands for exactly the relation of the operator that was run.
/// What its lineage needs is prepared once. A store that does not keep what its pieces have is made
/// again, and compared by images.
fn is_exact<R: Threads + Sync>(
    rt: &R,
    alloc: Global,
    run: &NodeRun,
    store: &NodeStore,
    s: Strategy,
) -> Result<bool, NoMemory>
    requires store { IsOneOf s (execution_of run.now).site store.now }
    ensures { IfOk result
        (λ b. Decides b (IsExact (execution_of run.now) (holding_for s store.now.stores))) }
{
    let aid = prepared_for(alloc, run)?;
    if keeps_each_piece(rt, alloc, run, &aid, store, s)? {
        return Ok(true);
    }
    let made = store_made(alloc, run, &aid, s)?;
    are_one(alloc, &run.at, &made, store, s)
}

/// The store of a strategy, made of all pieces of the operator that was run, by what was prepared
/// for its lineage.
fn store_made(alloc: Global, run: &NodeRun, aid: &Aid, s: Strategy) -> Result<NodeStore, NoMemory>
    requires aid { let e = execution_of run.now in aid.now ≡ aid_of e.site.op e.inputs }
    requires supported { supports (execution_of run.now).site.op s ≡ true }
    requires stored { is_stored s ≡ true }
    ensures store { IfOk result (λ m. IsOneOf s (execution_of run.now).site m) }
    ensures exact { IfOk result (λ m. IsExact (execution_of run.now) (holding_for s m.stores)) }
{
    sz_store::laws::placed_pieces_make_the_relation();
    let mut made = NodeStore::new(alloc, Arc::try_clone(&run.at)?, &[s])?;
    for k in 0..pieces_of(run.at.out()) {
        add_piece(alloc, run, aid, s, k, &mut made)?;
    }
    Ok(made)
}

/// What the lineage of the operator that was run needs.
fn prepared_for(alloc: Global, run: &NodeRun) -> Result<Aid, NoMemory>
    ensures { let e = execution_of run.now in IfOk result (λ a. a ≡ aid_of e.site.op e.inputs) }
{
    prepare_lineage(alloc, &run.at, run.inputs.as_slice())
}

/// Adds a piece, by what was prepared for the lineage of the operator that was run.
fn add_piece(
    alloc: Global,
    run: &NodeRun,
    aid: &Aid,
    s: Strategy,
    k: u32,
    made: &mut NodeStore,
) -> Result<(), NoMemory>
    requires aid { let e = execution_of run.now in aid.now ≡ aid_of e.site.op e.inputs }
    requires site { made.old.site ≡ (execution_of run.now).site }
    requires own { made.old.list ≡ s ∷ [] }
    requires supported { supports (execution_of run.now).site.op s ≡ true }
    requires piece { k < pieces_of (execution_of run.now).site.out }
    ensures { let e = execution_of run.now in OnOk result ((p : Parts) × (p.piece ≡ k)
        × Fits (measure_of e.site e.inputs) (s ∷ []) k p × (made.new ≡ with_lineage made.old p)) }
{
    sz_store::laws::fitting_lineages_can_be_placed();
    let lineage = lineage_of(alloc, run, aid, s, k)?;
    made.place(&lineage)?;
    Ok(())
}

/// Whether the stores of a strategy of two nodes of one operator stand for the same.
fn are_one(
    alloc: Global,
    at: &OpAt,
    a: &NodeStore,
    b: &NodeStore,
    s: Strategy,
) -> Result<bool, NoMemory>
    requires a { IsOneOf s at.now a.now }
    requires b { IsOneOf s at.now b.now }
    ensures { IfOk result (λ r. Decides r
        (AgreeOnEach at.now (holding_for s a.now.stores) (holding_for s b.now.stores))) }
{
    for input in 0..at.ins().len() {
        if !are_one_on(alloc, at, a, b, s, input as u32)? {
            return Ok(false);
        }
    }
    Ok(true)
}

/// Whether they stand for the same between the output and one input: whether both give each single
/// cell, of the side from which they are asked, the same image.
fn are_one_on(
    alloc: Global,
    at: &OpAt,
    a: &NodeStore,
    b: &NodeStore,
    s: Strategy,
    input: u32,
) -> Result<bool, NoMemory>
    requires a { IsOneOf s at.now a.now }
    requires b { IsOneOf s at.now b.now }
    requires input { input < length at.now.ins }
    ensures { IfOk result (λ r. Decides r
        (AgreeOn at.now (holding_for s a.now.stores) (holding_for s b.now.stores) input)) }
{
    let dir = side_of(s);
    let near = near_shape(at, dir, input);
    let mut sides = Sides::new(alloc, near, far_shape(at, dir, input))?;
    for index in 0..near.size() {
        if !agree_at(alloc, at, a, b, s, dir, input, index, &mut sides)? {
            return Ok(false);
        }
    }
    Ok(true)
}

/// The direction in which the store of a strategy is asked fast.
fn side_of(s: Strategy) -> Dir {
    match s {
        Strategy::FullOneF => Dir::Forward,
        Strategy::FullManyF => Dir::Forward,
        _ => Dir::Back,
    }
}

/// Bitmaps for the set of one cell, and for two images of it.
#[derive(Drop)]
struct Sides {
    cell: CellBits,
    left: CellBits,
    right: CellBits,
}

impl Sides {
    fn new(alloc: Global, near: Shape, far: Shape) -> Result<Sides, NoMemory>
        ensures { IfOk result (λ x. AreSides near far x) }
    {
        let cell = CellBits::new(alloc, near)?;
        let left = CellBits::new(alloc, far)?;
        let right = CellBits::new(alloc, far)?;
        Ok(Sides { cell, left, right })
    }
}

/// Whether they give the cell of an index the same image.
fn agree_at(
    alloc: Global,
    at: &OpAt,
    a: &NodeStore,
    b: &NodeStore,
    s: Strategy,
    dir: Dir,
    input: u32,
    index: u32,
    sides: &mut Sides,
) -> Result<bool, NoMemory>
    requires a { IsOneOf s at.now a.now }
    requires b { IsOneOf s at.now b.now }
    requires input { input < length at.now.ins }
    requires index { index < size_of (near_side dir at.now input) }
    requires sides { AreSides (near_side dir at.now input) (far_side dir at.now input) sides.old }
    ensures sides { AreSides (near_side dir at.now input) (far_side dir at.now input) sides.new }
    ensures agree { IfOk result (λ r. Decides r (AgreeAt dir at.now (holding_for s a.now.stores)
        (holding_for s b.now.stores) input index)) }
{
    let near = near_shape(at, dir, input);
    sides.cell.clear();
    sides.cell.set(near.cell_at(index));
    sides.left.clear();
    a.image(s, dir, input, &sides.cell, &mut sides.left);
    sides.right.clear();
    b.image(s, dir, input, &sides.cell, &mut sides.right);
    are_same(alloc, &sides.left, &sides.right)
}

/// The shape from which an image leads.
fn near_shape(at: &OpAt, dir: Dir, input: u32) -> Shape
    requires { input < length at.now.ins }
    ensures { result ≡ near_side dir at.now input }
{
    match dir {
        Dir::Back => at.out(),
        Dir::Forward => at.ins()[input as usize],
    }
}

/// The shape to which it leads.
fn far_shape(at: &OpAt, dir: Dir, input: u32) -> Shape
    requires { input < length at.now.ins }
    ensures { result ≡ far_side dir at.now input }
{
    match dir {
        Dir::Back => at.ins()[input as usize],
        Dir::Forward => at.out(),
    }
}

/// Whether two bitmaps of one shape have the same cells. Takes memory in the number of their runs.
fn are_same(alloc: Global, a: &CellBits, b: &CellBits) -> Result<bool, NoMemory>
    requires { a.now.extent ≡ b.now.extent }
    ensures { IfOk result (λ r. Decides r (a.now ≡ b.now)) }
{
    let left = a.to_set(alloc)?;
    let right = b.to_set(alloc)?;
    Ok(left.runs() == right.runs())
}
