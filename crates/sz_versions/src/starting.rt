//! What is carried of a version that is started.

ghost use Rattle.std.specs.Prelude.{◌≡◌};
ghost use Rattle.sz_versions.specs.Terms.{All, false, map, None, IfOk, arc_value, values_of};
ghost use Rattle.sz_versions.specs.Terms.{arrays_of, bases_of, version_started, judged};
ghost use Rattle.sz_versions.specs.Terms.{has_no_array, IsWorkflow, execution_of, IsTrailOf};
ghost use Rattle.sz_versions.specs.Terms.{AreListed, AreKeptOf};
ghost use Rattle.sz_script.specs.declared.command.Command.TheVariants as order;

use crate::building::{begun, prepared};
use crate::runs::VersionRun;
use crate::tasks::Hands;
use std::alloc::Global;
use std::sync::{Arc, Wait};
use std::thread::Threads;
use sz_catalogue::Catalogue;
use sz_cells::NoMemory;
use sz_flow::{NodeRun, run_all};
use sz_script::{BaseName, StrategyList};
use sz_spec::Array;

/// What is carried of the version that a start makes: the runs of its nodes, each value computed
/// once, and for each node with a stored strategy what its lineage needs, prepared once, and a
/// shelf, of which tasks are handed out.
pub fn run_version<R: Threads + Wait + Sync>(
    rt: &R,
    alloc: Global,
    catalogue: &Catalogue,
    hands: &Hands,
    name: &str,
    base: &[BaseName],
) -> Result<VersionRun, NoMemory>
    requires sound { All IsWorkflow (values_of catalogue.now.flows) }
    requires judged { judged catalogue.now (order.Start name.now base.now) ≡ None }
    ensures { IfOk result
        (λ r. IsTrailOf (version_started catalogue.now name.now base.now) r) }
{
    let Some(flow) = catalogue.flow(name) else {
        unreachable!()
    };
    let Some(lists) = catalogue.lists(name) else {
        unreachable!()
    };
    let arrays = arrays_named(alloc, catalogue, base)?;
    let executed = run_all(rt, alloc, flow, &arrays)?;
    let number = catalogue.next_number() as u32;
    carried(rt, alloc, hands, number, lists.as_slice(), executed)
}

/// What is carried of a version from its start on, given the runs of its nodes: for each node with
/// a stored strategy what its lineage needs, prepared once, and a shelf, of which tasks are handed
/// out.
pub(crate) fn carried<R: Wait>(
    rt: &R,
    alloc: Global,
    hands: &Hands,
    number: u32,
    lists: &[StrategyList],
    runs: Vec<NodeRun>,
) -> Result<VersionRun, NoMemory>
    requires { AreListed (map execution_of runs.items) lists.now }
    ensures executions { IfOk result (λ r. r.executions ≡ map execution_of runs.items) }
    ensures kept { IfOk result
        (λ r. AreKeptOf false (map execution_of runs.items) lists.now r.kept) }
{
    let runs = prepared(alloc, runs, lists)?;
    let stores = begun(alloc, &runs, lists)?;
    let mut run = VersionRun::of(alloc, runs, stores)?;
    hands.hand_out(alloc, rt, number, lists, &mut run);
    Ok(run)
}

/// The base arrays of these names and versions, all of which are held.
fn arrays_named(
    alloc: Global,
    catalogue: &Catalogue,
    base: &[BaseName],
) -> Result<Vec<Arc<Array>>, NoMemory>
    requires { has_no_array catalogue.now base.now ≡ false }
    ensures { IfOk result
        (λ v. map (λ a. arc_value a) v.items ≡ arrays_of (bases_of catalogue.now base.now)) }
{
    let mut arrays = Vec::with_capacity(alloc, base.len())?;
    for only in base {
        let Some(array) = catalogue.array(only.name.as_str(), only.version) else {
            unreachable!()
        };
        arrays.push(Arc::try_clone(array)?)?;
    }
    Ok(arrays)
}
