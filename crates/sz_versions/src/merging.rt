//! Merging the stores of a version that is carried: handed to a thread, which merges them beside
//! the asks, and finished by the session itself. Stores that were made are merged on their shelf,
//! and in what is carried; those that a log gave stay as they were read, and are merged for their
//! numbers alone.

ghost use Rattle.std.specs.Prelude.{◌≡◌, ◌++◌};
ghost use Rattle.sz_versions.specs.Terms.{[], map, true, false, All, IfOk, OnOk, OnErr, list_all};
ghost use Rattle.sz_versions.specs.Terms.{AllZip, arc_value, kinds_of, supports, execution_of};
ghost use Rattle.sz_versions.specs.Terms.{place_of, StandsFor, paired_in, has_no_version};
ghost use Rattle.sz_versions.specs.Terms.{version_of, IsWholeFor, IsSoundVersion, AreListed};
ghost use Rattle.sz_versions.specs.Terms.{AreStoresFor, has_stored, keeping_of, read, IsInService};
ghost use Rattle.sz_versions.specs.Terms.{IsTrailBy, logged_in, logged_under, logged_of, stored_in};
ghost use Rattle.sz_versions.specs.Terms.{stored_of, IsStill, kinds_by, kinds_in_kept};
ghost use Rattle.sz_versions.specs.Terms.{kinds_in_nodes, HasKinds, IsMergeable, AreMergeable};
ghost use Rattle.sz_versions.specs.Terms.{IsMergedNode, AreMergedNodes, IsMergedStored, IsMergedIn};
ghost use Rattle.sz_versions.specs.Terms.{IsKeptUp};

use crate::built::Built;
use crate::held::{Carried, HeldRun, HeldRuns};
use crate::runs::{NodeKeeping, VersionRun};
use std::alloc::Global;
use std::sync::{Arc, Wait};
use std::thread::Threads;
use sz_catalogue::{Catalogue, HeldVersion};
use sz_cells::NoMemory;
use sz_flow::NodeRun;
use sz_merge::{MergeTask, Sender, hand_merge, merge};
use sz_script::StrategyList;
use sz_shelf::{Pass, Shelf};
use sz_spec::Strategy;
use sz_store::NodeStore;

impl HeldRuns {
    /// Hands the stores of a version to the thread that merges them, as far as there is memory:
    /// what is not handed is merged by `merged`. Of what is carried nothing changes but that passes
    /// were split off.
    pub fn hand_merges<R: Wait>(
        &mut self,
        alloc: Global,
        rt: &R,
        catalogue: &Catalogue,
        to: &Sender<MergeTask>,
        version: u32,
    )
        requires service { IsInService catalogue.now self.old }
        ensures service { IsInService catalogue.now self.new }
        ensures logged { logged_in self.new ≡ logged_in self.old }
        ensures stored { stored_in self.new ≡ stored_in self.old }
    {
        let Some(held) = catalogue.version(version) else {
            return;
        };
        let Some(at) = self.place_of(version) else {
            return;
        };
        self.runs[at].hand_merges(alloc, rt, held, to);
    }

    /// Merges what is left to be merged of a version's stores, which are carried from then on, and
    /// tells how many kinds of lineage each with region pairs has, in the order of nodes and lists.
    /// The stores that a log gave are merged for their numbers, and stay as they were read.
    ///
    /// What a thread has merged on a shelf is merged once more, which costs a look at each of its
    /// region pairs.
    pub fn merged<R: Threads + Wait + Sync>(
        &mut self,
        alloc: Global,
        rt: &R,
        catalogue: &Catalogue,
        version: u32,
    ) -> Result<Vec<u32>, NoMemory>
        requires service { IsInService catalogue.now self.old }
        requires held { has_no_version catalogue.now version ≡ false }
        requires awaited { (version_of catalogue.now version).awaited ≡ true }
        ensures kinds { IfOk result (λ ks. ks.items
            ≡ kinds_by (logged_under version (logged_in self.old))
            (version_of catalogue.now version)) }
        ensures service { IsInService catalogue.now self.new }
        ensures logged { logged_in self.new ≡ logged_in self.old }
        ensures stored { OnOk result
            (AllZip (IsMergedIn version) (stored_in self.old) (stored_in self.new)) }
        ensures kept { OnErr result (stored_in self.new ≡ stored_in self.old) }
    {
        let (held, at) = self.found(catalogue, version);
        self.runs[at].merged(alloc, rt, held)
    }
}

impl HeldRun {
    /// Hands the stores of the version to the thread that merges them.
    fn hand_merges<R: Wait>(
        &mut self,
        alloc: Global,
        rt: &R,
        version: &HeldVersion,
        to: &Sender<MergeTask>,
    )
        requires sound { IsSoundVersion version.now }
        requires own { IsTrailBy self.old.logged version.now self.old.trail }
        ensures { IsStill self.old self.new }
    {
        let Carried::Made(run) = &mut self.run else {
            return; // a run that is not made has the stores that a log gave alone
        };
        let lists = version.lists.as_slice();
        hand_run(alloc, rt, run, lists, to);
    }

    /// Merges the stores of the version, and tells their numbers.
    fn merged<R: Threads + Wait + Sync>(
        &mut self,
        alloc: Global,
        rt: &R,
        version: &HeldVersion,
    ) -> Result<Vec<u32>, NoMemory>
        requires sound { IsSoundVersion version.now }
        requires awaited { version.now.awaited ≡ true }
        requires own { IsTrailBy self.old.logged version.now self.old.trail }
        ensures kinds { IfOk result (λ ks. ks.items ≡ kinds_by (logged_of self.old) version.now) }
        ensures kept { IsKeptUp version.now self.old self.new }
        ensures ok { OnOk result (AllZip IsMergedStored (map stored_of self.old.trail.kept)
            (map stored_of self.new.trail.kept)) }
        ensures err { OnErr result (self.new ≡ self.old) }
    {
        let lists = version.lists.as_slice();
        let mut run = self.lend(rt, alloc)?;
        let kinds = merge_run(alloc, rt, &mut run, lists);
        self.keep(run);
        Ok(kinds?)
    }
}

// ---- handed to a thread

/// Hands the stores of each node to the thread that merges them.
fn hand_run<R: Wait>(
    alloc: Global,
    rt: &R,
    run: &mut VersionRun,
    lists: &[StrategyList],
    to: &Sender<MergeTask>,
)
    requires { AreMergeable false run.old.executions lists.now run.old.kept }
    ensures { run.new ≡ run.old }
{
    hand_each(alloc, rt, &run.runs, lists, &mut run.stores, to);
}

/// Hands the stores of each of these runs to the thread.
fn hand_each<R: Wait>(
    alloc: Global,
    rt: &R,
    runs: &[NodeRun],
    lists: &[StrategyList],
    kept: &mut [NodeKeeping],
    to: &Sender<MergeTask>,
)
    requires { AreMergeable false (map execution_of runs.now) lists.now (map keeping_of kept.old) }
    ensures { map keeping_of kept.new ≡ map keeping_of kept.old }
{
    for node in 0..runs.len() {
        hand_node(
            alloc,
            rt,
            &runs[node],
            lists[node].as_slice(),
            &mut kept[node],
            to,
        );
    }
}

/// Hands the stores of a run to the thread, where they were made. Where there is no memory for
/// that, they are not.
fn hand_node<R: Wait>(
    alloc: Global,
    rt: &R,
    run: &NodeRun,
    list: &[Strategy],
    kept: &mut NodeKeeping,
    to: &Sender<MergeTask>,
)
    requires { IsMergeable false (execution_of run.now) list.now (keeping_of kept.old) }
    ensures { keeping_of kept.new ≡ keeping_of kept.old }
{
    let NodeKeeping::Whole(built) = kept else {
        return;
    };
    let _ = hand_built(alloc, rt, run, list, built, to);
}

/// Hands stores that were made to the thread, with a pass of their shelf that is split off.
fn hand_built<R: Wait>(
    alloc: Global,
    rt: &R,
    run: &NodeRun,
    list: &[Strategy],
    built: &mut Built,
    to: &Sender<MergeTask>,
) -> Result<(), NoMemory>
    requires { AreStoresFor (execution_of run.now) list.now (arc_value built.old.store) }
    ensures { arc_value built.new.store ≡ arc_value built.old.store }
{
    let at = Arc::try_clone(&run.at)?;
    let list = list.to_vec(alloc)?;
    let shelf = Arc::try_clone(&built.shelf)?;
    let pass = built.shelf.split(&mut built.pass)?;
    let task = MergeTask {
        at,
        list,
        shelf,
        pass,
    };
    hand_merge(rt, to, task);
    Ok(())
}

// ---- finished by the session

/// Merges the stores of each node, and tells their numbers. After `NoMemory` what is seen of the
/// run is as before.
fn merge_run<R: Threads + Wait + Sync>(
    alloc: Global,
    rt: &R,
    run: &mut VersionRun,
    lists: &[StrategyList],
) -> Result<Vec<u32>, NoMemory>
    requires listed { AreListed run.old.executions lists.now }
    requires mergeable { AreMergeable true run.old.executions lists.now run.old.kept }
    ensures executions { run.new.executions ≡ run.old.executions }
    ensures merged { OnOk result
        (AreMergedNodes run.old.executions lists.now run.old.kept run.new.kept) }
    ensures kinds { IfOk result
        (λ ks. ks.items ≡ kinds_in_nodes run.old.executions lists.now run.old.kept) }
    ensures err { OnErr result (run.new ≡ run.old) }
{
    let mut kinds = Vec::new(alloc);
    let merged = merge_each(alloc, rt, &run.runs, lists, &mut run.stores, &mut kinds)?;
    run.stores = merged;
    Ok(kinds)
}

/// What is to be kept of each of these runs once its stores are merged; the numbers of their kinds
/// are added. What is seen of what is kept stays.
fn merge_each<R: Threads + Wait + Sync>(
    alloc: Global,
    rt: &R,
    runs: &[NodeRun],
    lists: &[StrategyList],
    kept: &mut [NodeKeeping],
    kinds: &mut Vec<u32>,
) -> Result<Vec<NodeKeeping>, NoMemory>
    requires listed { AreListed (map execution_of runs.now) lists.now }
    requires mergeable { AreMergeable true (map execution_of runs.now) lists.now
        (map keeping_of kept.old) }
    requires none { kinds.old.items ≡ [] }
    ensures same { map keeping_of kept.new ≡ map keeping_of kept.old }
    ensures merged { IfOk result (λ v. AreMergedNodes (map execution_of runs.now) lists.now
        (map keeping_of kept.old) (map keeping_of v.items)) }
    ensures kinds { OnOk result (kinds.new.items
        ≡ kinds_in_nodes (map execution_of runs.now) lists.now (map keeping_of kept.old)) }
{
    let mut merged = Vec::with_capacity(alloc, runs.len())?;
    for node in 0..runs.len() {
        let run = &runs[node];
        let list = lists[node].as_slice();
        merged.push(merge_node(alloc, rt, run, list, &mut kept[node], kinds)?)?;
    }
    Ok(merged)
}

/// What is to be kept of a run once its stores are merged.
fn merge_node<R: Threads + Wait + Sync>(
    alloc: Global,
    rt: &R,
    run: &NodeRun,
    list: &[Strategy],
    kept: &mut NodeKeeping,
    kinds: &mut Vec<u32>,
) -> Result<NodeKeeping, NoMemory>
    requires supported { list_all (supports (execution_of run.now).site.op) list.now ≡ true }
    requires mergeable { IsMergeable true (execution_of run.now) list.now (keeping_of kept.old) }
    ensures same { keeping_of kept.new ≡ keeping_of kept.old }
    ensures merged { IfOk result (λ k. IsMergedNode (execution_of run.now) list.now
        (keeping_of kept.old) (keeping_of k)) }
    ensures kinds { OnOk result (kinds.new.items ≡ kinds.old.items
        ++ kinds_in_kept (execution_of run.now) list.now (keeping_of kept.old)) }
{
    match kept {
        NodeKeeping::Nothing => Ok(NodeKeeping::Nothing),
        NodeKeeping::Growing { .. } => unreachable!(),
        NodeKeeping::Whole(built) => {
            let merged = merge_built(alloc, rt, run, list, built, kinds)?;
            Ok(NodeKeeping::Whole(merged))
        }
        NodeKeeping::Read { store } => {
            tell_kinds(alloc, rt, run, list, store, kinds)?;
            Ok(NodeKeeping::Read {
                store: Arc::try_clone(store)?,
            })
        }
    }
}

/// Merges stores that were read, for the numbers of their kinds.
fn tell_kinds<R: Threads + Sync>(
    alloc: Global,
    rt: &R,
    run: &NodeRun,
    list: &[Strategy],
    store: &NodeStore,
    kinds: &mut Vec<u32>,
) -> Result<(), NoMemory>
    requires supported { list_all (supports (execution_of run.now).site.op) list.now ≡ true }
    requires fits { IsWholeFor (execution_of run.now).site list.now store.now }
    ensures { OnOk result (kinds.new.items ≡ kinds.old.items
        ++ kinds_in_kept (execution_of run.now) list.now (read store.now)) }
{
    let told = merge(alloc, rt, &run.at, list, store)?;
    kinds.extend_from_slice(&told.kinds)?;
    Ok(())
}

/// Stores that were made, merged, and put in the place of those on their shelf. They are made of
/// those that lie there, which a thread may have merged.
fn merge_built<R: Threads + Wait + Sync>(
    alloc: Global,
    rt: &R,
    run: &NodeRun,
    list: &[Strategy],
    built: &mut Built,
    kinds: &mut Vec<u32>,
) -> Result<Built, NoMemory>
    requires supported { list_all (supports (execution_of run.now).site.op) list.now ≡ true }
    requires stored { has_stored list.now ≡ true }
    requires own { AreStoresFor (execution_of run.now) list.now (arc_value built.old.store) }
    ensures same { arc_value built.new.store ≡ arc_value built.old.store }
    ensures stands { IfOk result
        (λ b. AreStoresFor (execution_of run.now) list.now (arc_value b.store)) }
    ensures merged { IfOk result (λ b. All (λ f. HasKinds f.holding) (arc_value b.store).stores) }
    ensures kinds { let e = execution_of run.now in OnOk result (kinds.new.items
        ≡ kinds.old.items ++ map (λ s. kinds_of e.site.op e.inputs) (paired_in list.now)) }
{
    let _ = run.at.out(); // the shape that its rule gives
    let mut pass = built.shelf.split(&mut built.pass)?;
    let store = shelved(alloc, rt, &built.shelf, &mut pass)?;
    let merged = merge(alloc, rt, &run.at, list, &store)?;
    kinds.extend_from_slice(&merged.kinds)?;
    let store = Arc::new(alloc, merged.store)?;
    let shelf = Arc::try_clone(&built.shelf)?;
    put(rt, &shelf, &mut pass, Arc::try_clone(&store)?);
    Ok(Built { store, shelf, pass })
}

/// A share of the stores on a sealed shelf.
fn shelved<R: Wait>(
    alloc: Global,
    rt: &R,
    shelf: &Shelf,
    pass: &mut Pass,
) -> Result<Arc<NodeStore>, NoMemory>
    requires own { place_of pass.old ≡ shelf.now }
    requires saw { pass.old.saw ≡ true }
    ensures place { place_of pass.new ≡ place_of pass.old }
    ensures saw { pass.new.saw ≡ true }
    ensures stands { IfOk result (λ a. StandsFor pass.old.tag (arc_value a)) }
{
    let Some(store) = shelf.store_of(alloc, rt, pass)? else {
        unreachable!() // the pass saw the seal
    };
    Ok(store)
}

/// Puts stores in the place of those on a sealed shelf.
fn put<R: Wait>(rt: &R, shelf: &Shelf, pass: &mut Pass, store: Arc<NodeStore>)
    requires own { place_of pass.old ≡ shelf.now }
    requires saw { pass.old.saw ≡ true }
    requires stands { StandsFor pass.old.tag (arc_value store) }
    ensures place { place_of pass.new ≡ place_of pass.old }
    ensures saw { pass.new.saw ≡ true }
{
    shelf.swap(rt, pass, store);
}
