//! A refresh where all holds that it asks for, which is tested first.

ghost use Rattle.std.specs.Prelude.{◌≡◌, ◌+◌, ◌*◌, ◌<◌, ◌^◌, length, map, true, IfOk};
ghost use Rattle.std.specs.Arc.{arc_value};
ghost use Rattle.sz_spec.specs.Values.{extents_of};
ghost use Rattle.sz_spec.specs.Flows.{is_well_formed};
ghost use Rattle.sz_flow.specs.Executions.{executions, execution_of, FlowFits};

use crate::agreed::{are_agreed, is_of};
use std::alloc::Global;
use std::sync::Arc;
use std::thread::Threads;
use sz_cells::{CellSet, NoMemory, Shape};
use sz_flow::NodeRun;
use sz_refresh::{Refreshed, refresh};
use sz_spec::{Array, Flow, Tally, output_shapes};

/// Refreshes a flow that was run over the arrays before. `None` where the arrays now differ from
/// them in other cells too, or the flow cannot be run over them.
pub(crate) fn refresh_after<R: Threads + Sync>(
    rt: &R,
    alloc: Global,
    flow: &Flow,
    before: &[Arc<Array>],
    old: &[NodeRun],
    base: &[Arc<Array>],
    input: u32,
    changed: &CellSet,
    tally: &mut Tally,
) -> Result<Option<Refreshed>, NoMemory>
    requires old { map execution_of old.now
        ≡ executions flow.now (map (λ a. arc_value a) before.now) }
    requires room { tally.old + 32 * 1048576 < 2 ^ 63 }
{
    if !fits(alloc, flow, base)? {
        return Ok(None);
    }
    if !is_of(base, input, changed) {
        return Ok(None);
    }
    if !are_agreed(before, base, input, changed) {
        return Ok(None);
    }
    let made = refresh(rt, alloc, flow, old, base, input, changed, tally)?;
    Ok(Some(made))
}

/// The shapes of arrays.
fn shapes_of(alloc: Global, arrays: &[Arc<Array>]) -> Result<Vec<Shape>, NoMemory>
    ensures { IfOk result (λ v. v.items ≡ extents_of (map (λ a. arc_value a) arrays.now)) }
{
    let mut shapes = Vec::new(alloc);
    for array in arrays {
        shapes.push(array.shape())?;
    }
    Ok(shapes)
}

/// Whether a flow can be run over arrays.
pub(crate) fn fits(alloc: Global, flow: &Flow, base: &[Arc<Array>]) -> Result<bool, NoMemory>
    ensures { IfOk result (λ fits. fits ≡ true → (is_well_formed flow.now ≡ true)
        × (length base.now ≡ flow.now.inputs)
        × FlowFits flow.now (map (λ a. arc_value a) base.now)) }
{
    if flow.check().is_err() || base.len() != flow.inputs() as usize {
        return Ok(false);
    }
    let shapes = shapes_of(alloc, base)?;
    match output_shapes(alloc, flow, &shapes)? {
        Ok(_) => Ok(true),
        Err(_) => Ok(false),
    }
}
