//! When the stores of a version are built, and of what: at its start each node whose list has a
//! strategy that keeps one has a shelf, on which workers may place what they make; and at its await
//! what is missing is made, and the stores are shared off it. Nothing else in this crate says when.

ghost use Rattle.std.specs.Prelude.{◌≡◌};
ghost use Rattle.sz_versions.specs.Terms.{true, false, map, IfOk, list_all, supports, execution_of};
ghost use Rattle.sz_versions.specs.Terms.{ShelfPlace, place_of, arc_value, IsKeptOf, AreKeptOf};
ghost use Rattle.sz_versions.specs.Terms.{AreListed, AreStoresFor, has_stored, keeping_of};
ghost use Rattle.sz_versions.specs.Terms.{IsShelfFor, IsKeptStill, AreKeptStill, IsTrailStill};

use crate::built::Built;
use crate::runs::{NodeKeeping, VersionRun};
use std::alloc::Global;
use std::sync::{Arc, Wait};
use sz_cells::NoMemory;
use sz_flow::NodeRun;
use sz_pool::finish;
use sz_script::StrategyList;
use sz_shelf::{Pass, Shelf};
use sz_spec::{Strategy, Tally};

/// The runs with what lineage needs, where the list at their place has a strategy that keeps a
/// store: prepared once a version, and before tasks are made of them, so that workers and the await
/// share it. For the other runs nothing is prepared.
pub(crate) fn prepared(
    alloc: Global,
    runs: Vec<NodeRun>,
    lists: &[StrategyList],
) -> Result<Vec<NodeRun>, NoMemory>
    requires { AreListed (map execution_of runs.items) lists.now }
    ensures { IfOk result (λ v. map execution_of v.items ≡ map execution_of runs.items) }
{
    let mut runs = runs;
    prepare_each(alloc, &mut runs, lists)?;
    Ok(runs)
}

/// Prepares what lineage needs for each of these runs, where it is kept.
fn prepare_each(alloc: Global, runs: &mut [NodeRun], lists: &[StrategyList]) -> Result<(), NoMemory>
    requires { AreListed (map execution_of runs.old) lists.now }
    ensures { map execution_of runs.new ≡ map execution_of runs.old }
{
    for node in 0..runs.len() {
        prepare_one(alloc, &mut runs[node], lists[node].as_slice())?;
    }
    Ok(())
}

/// Prepares what lineage needs, where a strategy of the list keeps a store.
fn prepare_one(alloc: Global, run: &mut NodeRun, list: &[Strategy]) -> Result<(), NoMemory>
    ensures { execution_of run.new ≡ execution_of run.old }
{
    if has_stored(list) {
        run.prepare_lineage(alloc)?;
    }
    Ok(())
}

/// What is kept of each run at the start, for the list at its place.
pub(crate) fn begun(
    alloc: Global,
    runs: &[NodeRun],
    lists: &[StrategyList],
) -> Result<Vec<NodeKeeping>, NoMemory>
    requires { AreListed (map execution_of runs.now) lists.now }
    ensures { IfOk result (λ v.
        AreKeptOf false (map execution_of runs.now) lists.now (map keeping_of v.items)) }
{
    let mut stores = Vec::with_capacity(alloc, runs.len())?;
    for node in 0..runs.len() {
        stores.push(begin(alloc, &runs[node], lists[node].as_slice())?)?;
    }
    Ok(stores)
}

/// A shelf of a run for a list, where a strategy of the list keeps a store.
fn begin(alloc: Global, run: &NodeRun, list: &[Strategy]) -> Result<NodeKeeping, NoMemory>
    requires { list_all (supports (execution_of run.now).site.op) list.now ≡ true }
    ensures { IfOk result (λ s. IsKeptOf false (execution_of run.now) list.now (keeping_of s)) }
{
    if !has_stored(list) {
        return Ok(NodeKeeping::Nothing);
    }
    let (shelf, pass) = shelf_for(alloc, run, list)?;
    Ok(NodeKeeping::Growing { shelf, pass })
}

/// Whether a list has a strategy that keeps a store.
fn has_stored(list: &[Strategy]) -> bool
    ensures { result ≡ has_stored list.now }
{
    list.iter().any(|strategy| strategy.is_stored())
}

/// A shelf of a run for a list, and its first pass.
fn shelf_for(
    alloc: Global,
    run: &NodeRun,
    list: &[Strategy],
) -> Result<(Arc<Shelf>, Pass), NoMemory>
    requires supported { list_all (supports (execution_of run.now).site.op) list.now ≡ true }
    requires stored { has_stored list.now ≡ true }
    ensures { IfOk result (λ made.
        IsShelfFor (execution_of run.now) list.now (arc_value made.0) made.1) }
{
    Shelf::make(alloc, Arc::try_clone(&run.at)?, run.inputs.as_slice(), list)
}

/// A version's run with the stores of each node whole, beside the one that it has: they share the
/// runs, and of what that one keeps nothing changes but that passes took turns. It takes the time
/// of what workers left undone.
pub(crate) fn ended<R: Wait>(
    alloc: Global,
    rt: &R,
    run: &mut VersionRun,
    lists: &[StrategyList],
) -> Result<VersionRun, NoMemory>
    requires listed { AreListed run.old.executions lists.now }
    requires kept { AreKeptOf false run.old.executions lists.now run.old.kept }
    ensures executions { IfOk result (λ v. v.executions ≡ run.old.executions) }
    ensures whole { IfOk result (λ v. AreKeptOf true run.old.executions lists.now v.kept) }
    ensures still { IsTrailStill run.old run.new }
{
    let runs = Arc::try_clone(&run.runs)?;
    let stores = whole_stores(alloc, rt, &run.runs, lists, &mut run.stores)?;
    Ok(VersionRun { runs, stores })
}

/// The stores of each run, whole.
fn whole_stores<R: Wait>(
    alloc: Global,
    rt: &R,
    runs: &[NodeRun],
    lists: &[StrategyList],
    begun: &mut [NodeKeeping],
) -> Result<Vec<NodeKeeping>, NoMemory>
    requires listed { AreListed (map execution_of runs.now) lists.now }
    requires kept { AreKeptOf false (map execution_of runs.now) lists.now
        (map keeping_of begun.old) }
    ensures whole { IfOk result (λ v.
        AreKeptOf true (map execution_of runs.now) lists.now (map keeping_of v.items)) }
    ensures still { AreKeptStill (map keeping_of begun.old) (map keeping_of begun.new) }
{
    let mut stores = Vec::with_capacity(alloc, runs.len())?;
    for node in 0..runs.len() {
        let run = &runs[node];
        let list = lists[node].as_slice();
        stores.push(end(alloc, rt, run, list, &mut begun[node])?)?;
    }
    Ok(stores)
}

/// The stores of a run for a list, whole, where a strategy of the list keeps one.
fn end<R: Wait>(
    alloc: Global,
    rt: &R,
    run: &NodeRun,
    list: &[Strategy],
    begun: &mut NodeKeeping,
) -> Result<NodeKeeping, NoMemory>
    requires supported { list_all (supports (execution_of run.now).site.op) list.now ≡ true }
    requires kept { IsKeptOf false (execution_of run.now) list.now (keeping_of begun.old) }
    ensures whole { IfOk result
        (λ s. IsKeptOf true (execution_of run.now) list.now (keeping_of s)) }
    ensures still { IsKeptStill (keeping_of begun.old) (keeping_of begun.new) }
{
    match begun {
        NodeKeeping::Nothing => made(alloc, rt, run, list),
        NodeKeeping::Growing { shelf, pass } => {
            let built = taken(alloc, rt, run, list, shelf, pass)?;
            Ok(NodeKeeping::Whole(built))
        }
        NodeKeeping::Whole(built) => Ok(NodeKeeping::Whole(shared(built)?)),
        NodeKeeping::Read { .. } => unreachable!(),
    }
}

/// The same stores, shared once more, with a pass of their shelf that is split off.
fn shared(built: &mut Built) -> Result<Built, NoMemory>
    ensures shared { IfOk result (λ b. arc_value b.store ≡ arc_value built.old.store) }
    ensures still { arc_value built.new.store ≡ arc_value built.old.store }
{
    let pass = built.shelf.split(&mut built.pass)?;
    Ok(Built {
        store: Arc::try_clone(&built.store)?,
        shelf: Arc::try_clone(&built.shelf)?,
        pass,
    })
}

/// The stores of a run for a list, whole, of which nothing is kept: they are made, where a strategy
/// of the list keeps one.
fn made<R: Wait>(
    alloc: Global,
    rt: &R,
    run: &NodeRun,
    list: &[Strategy],
) -> Result<NodeKeeping, NoMemory>
    requires { list_all (supports (execution_of run.now).site.op) list.now ≡ true }
    ensures { IfOk result (λ s. IsKeptOf true (execution_of run.now) list.now (keeping_of s)) }
{
    if !has_stored(list) {
        return Ok(NodeKeeping::Nothing);
    }
    let (shelf, mut pass) = shelf_for(alloc, run, list)?;
    let made = taken(alloc, rt, run, list, &shelf, &mut pass)?;
    Ok(NodeKeeping::Whole(made))
}

/// The stores on a shelf, once what is missing was made and placed, with a pass that is split off.
fn taken<R: Wait>(
    alloc: Global,
    rt: &R,
    run: &NodeRun,
    list: &[Strategy],
    shelf: &Arc<Shelf>,
    pass: &mut Pass,
) -> Result<Built, NoMemory>
    requires { IsShelfFor (execution_of run.now) list.now (arc_value shelf.now) pass.old }
    ensures stands { IfOk result
        (λ b. AreStoresFor (execution_of run.now) list.now (arc_value b.store)) }
    ensures place { place_of pass.new ≡ place_of pass.old }
{
    let mut tally = Tally::new();
    finish(alloc, rt, run, list, shelf, pass, &mut tally)?;
    let Some(store) = shelf.store_of(alloc, rt, pass)? else {
        unreachable!()
    };
    let pass = shelf.split(pass)?;
    Ok(Built {
        store,
        shelf: Arc::try_clone(shelf)?,
        pass,
    })
}
