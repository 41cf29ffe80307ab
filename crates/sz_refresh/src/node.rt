//! A node over arrays of which some cells were changed, given its run over them as they were.

ghost use Rattle.std.specs.Prelude.{◌≡◌, ◌+◌, ◌<◌, ◌^◌};
ghost use Rattle.sz_refresh.specs.Terms.{length, map, All, true, false, IfOk, MatchOption};
ghost use Rattle.sz_refresh.specs.Terms.{arc_value, size_of, extents_of, IsRightNode, output_of};
ghost use Rattle.sz_refresh.specs.Terms.{affected_by, is_regions, aid_of, execution, execution_of};
ghost use Rattle.sz_refresh.specs.Terms.{inputs_among, changed_from, HaveShapes, KeepsOthers};

use crate::output::output_after;
use crate::reached::affected_of;
use std::alloc::Global;
use std::sync::Arc;
use std::thread::Threads;
use sz_cells::{CellSet, NoMemory};
use sz_flow::{NodeRun, inputs_of};
use sz_ops::{Aid, run_prepared};
use sz_spec::{Array, ArrayList, Node, Op, OpAt, Tally};

/// The run of a node over the base arrays and the runs of the nodes before it, and its affected
/// cells, given its run before some cells of a base array were changed.
pub(crate) fn refresh_node<R: Threads + Sync>(
    rt: &R,
    alloc: Global,
    node: &Node,
    old: &NodeRun,
    base: &[Arc<Array>],
    earlier: &[NodeRun],
    input: u32,
    changed: &CellSet,
    sets: &[CellSet],
    count: &mut Tally,
) -> Result<(NodeRun, CellSet), NoMemory>
    requires right { IsRightNode (length base.now) (length earlier.now) node.now }
    requires sets { length sets.now ≡ length earlier.now }
    requires op { (arc_value old.now.at).op ≡ node.now.op }
    requires ins { extents_of (inputs_among (map (λ a. arc_value a) base.now)
        (map (λ r. arc_value r.out) earlier.now) node.now) ≡ (arc_value old.now.at).ins }
    requires out { (arc_value old.now.out).extent ≡ (arc_value old.now.at).out }
    requires value { arc_value old.now.out ≡ output_of (arc_value old.now.at).op old.now.inputs }
    requires shapes { HaveShapes input changed.now sets.now (arc_value old.now.at).ins
        node.now.from }
    requires others { KeepsOthers (arc_value old.now.at)
        (inputs_among (map (λ a. arc_value a) base.now) (map (λ r. arc_value r.out) earlier.now)
        node.now)
        (arc_value old.now.out)
        (affected_by node.now.op old.now.inputs
        (inputs_among (map (λ a. arc_value a) base.now) (map (λ r. arc_value r.out) earlier.now)
        node.now)
        (map (changed_from input changed.now sets.now) node.now.from)) }
    requires room { count.old + size_of (arc_value old.now.at).out < 2 ^ 63 }
    ensures run { IfOk result (λ p. execution_of p.0 ≡ execution node.now.op
        (inputs_among (map (λ a. arc_value a) base.now) (map (λ r. arc_value r.out) earlier.now)
        node.now)) }
    ensures cells { IfOk result (λ p. p.1 ≡ affected_by node.now.op old.now.inputs
        (inputs_among (map (λ a. arc_value a) base.now) (map (λ r. arc_value r.out) earlier.now)
        node.now)
        (map (changed_from input changed.now sets.now) node.now.from)) }
    ensures ticks { IfOk result (λ p. count.new ≡ count.old + length p.1.indexes) }
{
    old.at.out(); // its output has the shape that its rule gives
    let inputs = inputs_of(alloc, node, base, earlier)?;
    let aid = sz_ops::prepare(alloc, &old.at, inputs.as_slice())?;
    let labels = labels_of(alloc, &old.at, inputs.as_slice(), &aid)?;
    let cells = affected_of(
        alloc,
        &old.at,
        old.inputs.as_slice(),
        inputs.as_slice(),
        &old.out,
        labels.as_ref(),
        node.from.as_slice(),
        input,
        changed,
        sets,
    )?;
    let run = run_after(rt, alloc, old, inputs, aid, labels, &cells, count)?;
    Ok((run, cells))
}

/// The labels of connected regions, which are their output, by what was prepared for the inputs.
/// `None` for any other operator.
fn labels_of(
    alloc: Global,
    at: &OpAt,
    inputs: &[Arc<Array>],
    aid: &Aid,
) -> Result<Option<Array>, NoMemory>
    requires inputs { extents_of (map (λ a. arc_value a) inputs.now) ≡ at.now.ins }
    requires aid { aid.now ≡ aid_of at.now.op (map (λ a. arc_value a) inputs.now) }
    ensures { IfOk result (λ labels. MatchOption labels (is_regions at.now.op ≡ false)
        (λ out. out ≡ output_of at.now.op (map (λ a. arc_value a) inputs.now))) }
{
    match at.op() {
        Op::Regions { .. } => Ok(Some(run_prepared(alloc, at, inputs, aid)?)),
        _ => Ok(None),
    }
}

/// The run of a node's operator over new arrays, given its run over others of the same shapes that
/// makes the same values but in some cells, and what was prepared and found for the new ones.
fn run_after<R: Threads + Sync>(
    rt: &R,
    alloc: Global,
    old: &NodeRun,
    inputs: ArrayList,
    aid: Aid,
    labels: Option<Array>,
    cells: &CellSet,
    count: &mut Tally,
) -> Result<NodeRun, NoMemory>
    requires ins { extents_of inputs ≡ (arc_value old.now.at).ins }
    requires aid { aid ≡ aid_of (arc_value old.now.at).op inputs }
    requires labels { MatchOption labels (is_regions (arc_value old.now.at).op ≡ false)
        (λ out. out ≡ output_of (arc_value old.now.at).op inputs) }
    requires out { (arc_value old.now.out).extent ≡ (arc_value old.now.at).out }
    requires cells { cells.now.extent ≡ (arc_value old.now.at).out }
    requires others { KeepsOthers (arc_value old.now.at) inputs (arc_value old.now.out) cells.now }
    requires room { count.old + size_of (arc_value old.now.at).out < 2 ^ 63 }
    ensures run { IfOk result
        (λ r. execution_of r ≡ execution (arc_value old.now.at).op inputs) }
    ensures ticks { IfOk result (λ r. count.new ≡ count.old + length cells.now.indexes) }
{
    old.at.out(); // its output has the shape that its rule gives
    let at = Arc::try_clone(&old.at)?;
    let out = output_after(
        rt,
        alloc,
        &at,
        inputs.as_slice(),
        &aid,
        &old.out,
        labels,
        cells,
        count,
    )?;
    Ok(NodeRun {
        at,
        inputs,
        aid: Arc::new(alloc, aid)?,
        out,
    })
}
