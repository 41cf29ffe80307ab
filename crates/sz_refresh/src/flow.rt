//! A flow over base arrays that were changed, given its runs over the arrays as they were.

ghost use Rattle.std.specs.Prelude.{◌≡◌, ◌+◌, ◌*◌, ◌<◌, ◌^◌};
ghost use Rattle.sz_refresh.specs.Terms.{true, length, map, List, IfOk, OnErr, arc_value, Grid};
ghost use Rattle.sz_refresh.specs.Terms.{extents_of, extent_at, is_well_formed, AreExtents};
ghost use Rattle.sz_refresh.specs.Terms.{affected, cells_in, executions, execution_of, FlowFits};
ghost use Rattle.sz_refresh.specs.Terms.{IsBefore};

use crate::node::refresh_node;
use std::alloc::Global;
use std::sync::Arc;
use std::thread::Threads;
use sz_cells::laws::a_shape_is_within_limits;
use sz_cells::{CellSet, NoMemory};
use sz_flow::NodeRun;
use sz_spec::{Array, Flow, Tally};

/// A flow that was refreshed.
#[derive(Drop)]
pub struct Refreshed {
    /// The runs of its nodes over the new arrays, in their order.
    pub runs: Vec<NodeRun>,
    /// The affected cells of each node: those whose values were computed again.
    pub affected: Vec<CellSet>,
}

/// Refreshes a flow: its runs over base arrays, given those over arrays of the same shapes that
/// differ from them at most in the cells `changed` of base array `input`. A base array that the
/// flow takes under another number too is changed under this one alone.
///
/// The value of each affected cell is computed again and counted, side by side where that pays, and
/// the others are copied; of connected regions all labels are made anew. After `NoMemory` nothing
/// is counted. It waits for nobody.
///
/// Takes time to copy the outputs of nodes that have affected cells, and else in the number of
/// affected cells, but for connected regions and a lookup whose table is changed: there each cell
/// is looked at.
pub fn refresh<R: Threads + Sync>(
    rt: &R,
    alloc: Global,
    flow: &Flow,
    old: &[NodeRun],
    base: &[Arc<Array>],
    input: u32,
    changed: &CellSet,
    tally: &mut Tally,
) -> Result<Refreshed, NoMemory>
    requires well_formed { is_well_formed flow.now ≡ true }
    requires count { length base.now ≡ flow.now.inputs }
    requires fits { FlowFits flow.now (map (λ a. arc_value a) base.now) }
    requires shape { changed.now.extent
        ≡ extent_at (extents_of (map (λ a. arc_value a) base.now)) input }
    requires before { (before : List Grid) × IsBefore flow.now (map execution_of old.now)
        (map (λ a. arc_value a) base.now) input changed.now before }
    requires room { tally.old + 32 * 1048576 < 2 ^ 63 }
    ensures runs { IfOk result (λ r. map execution_of r.runs.items
        ≡ executions flow.now (map (λ a. arc_value a) base.now)) }
    ensures affected { IfOk result (λ r. (before : List Grid)
        → IsBefore flow.now (map execution_of old.now) (map (λ a. arc_value a) base.now) input
        changed.now before
        → r.affected.items
        ≡ affected flow.now before (map (λ a. arc_value a) base.now) input changed.now) }
    ensures ticks { IfOk result (λ r. tally.new ≡ tally.old + cells_in r.affected.items) }
    ensures none { OnErr result (tally.new ≡ tally.old) }
{
    within_limits(base);
    let mut count = Tally::new();
    let mut runs = Vec::new(alloc);
    let mut affected = Vec::new(alloc);
    for (number, node) in flow.nodes().iter().enumerate() {
        let (run, cells) = refresh_node(
            rt,
            alloc,
            node,
            &old[number],
            base,
            &runs,
            input,
            changed,
            &affected,
            &mut count,
        )?;
        runs.push(run)?;
        affected.push(cells)?;
    }
    tally.add(count);
    Ok(Refreshed { runs, affected })
}

/// The shapes of arrays are within the limits, as its caller knows from now on.
fn within_limits(base: &[Arc<Array>])
    ensures { AreExtents (extents_of (map (λ a. arc_value a) base.now)) }
{
    for array in base {
        a_shape_is_within_limits(&array.shape());
    }
}
