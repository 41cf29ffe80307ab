//! Runs of a flow's nodes, one after another.

ghost use Rattle.std.specs.Prelude.{◌≡◌};
ghost use Rattle.sz_flow.specs.Terms.{true, length, map, IfOk, arc_value, is_well_formed};
ghost use Rattle.sz_flow.specs.Terms.{IsRightNode, execution, executions, execution_of, FlowFits};
ghost use Rattle.sz_flow.specs.Terms.{NodeFits, inputs_among};

use crate::inputs::{inputs_of, site_over};
use crate::node_run::NodeRun;
use crate::output::output_of;
use std::alloc::Global;
use std::sync::Arc;
use std::thread::Threads;
use sz_cells::NoMemory;
use sz_spec::{Array, Flow, Node};

/// The runs of a flow's nodes over base arrays, in the order of the nodes.
///
/// Each value is computed once, and what an operator's values need is prepared once for a node:
/// nothing of it is for lineage. Arrays are shared, not copied. It waits for nobody.
pub fn run_all<R: Threads + Sync>(
    rt: &R,
    alloc: Global,
    flow: &Flow,
    base: &[Arc<Array>],
) -> Result<Vec<NodeRun>, NoMemory>
    requires well_formed { is_well_formed flow.now ≡ true }
    requires count { length base.now ≡ flow.now.inputs }
    requires fits { FlowFits flow.now (map (λ a. arc_value a) base.now) }
    ensures { IfOk result (λ runs. map execution_of runs.items
        ≡ executions flow.now (map (λ a. arc_value a) base.now)) }
{
    let mut runs = Vec::new(alloc);
    for node in flow.nodes() {
        let run = run_node(rt, alloc, node, base, &runs)?;
        runs.push(run)?;
    }
    Ok(runs)
}

/// The run of a node, given the base arrays and the runs of the nodes before it.
fn run_node<R: Threads + Sync>(
    rt: &R,
    alloc: Global,
    node: &Node,
    base: &[Arc<Array>],
    earlier: &[NodeRun],
) -> Result<NodeRun, NoMemory>
    requires right { IsRightNode (length base.now) (length earlier.now) node.now }
    requires fits { NodeFits (map (λ a. arc_value a) base.now)
        (map (λ r. arc_value r.out) earlier.now) node.now }
    ensures { IfOk result (λ r. execution_of r ≡ execution node.now.op
        (inputs_among (map (λ a. arc_value a) base.now) (map (λ r. arc_value r.out) earlier.now)
        node.now)) }
{
    let inputs = inputs_of(alloc, node, base, earlier)?;
    let at = site_over(alloc, node.op.copy(alloc)?, inputs.as_slice())?;
    let aid = sz_ops::prepare(alloc, &at, inputs.as_slice())?;
    let out = output_of(rt, alloc, &at, inputs.as_slice(), &aid)?;
    Ok(NodeRun {
        at: Arc::new(alloc, at)?,
        inputs,
        aid: Arc::new(alloc, aid)?,
        out: Arc::new(alloc, out)?,
    })
}
