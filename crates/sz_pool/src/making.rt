//! Tasks for the nodes of a version.

ghost use Rattle.std.specs.Prelude.{◌≡◌};
ghost use Rattle.sz_pool.specs.Terms.{map, IfOk, arc_value, pieces_of, place_of, tag_over};
ghost use Rattle.sz_pool.specs.Terms.{IsTaskFor};

use crate::task::{StrategyList, Task};
use std::alloc::Global;
use std::sync::Arc;
use sz_cells::NoMemory;
use sz_claims::{ClaimPass, Claims};
use sz_flow::NodeRun;
use sz_shelf::{Pass, Shelf};
use sz_spec::{Array, ArrayList, Strategy};

/// A task for a node of a version, by these two passes of its shelf and of its claims. It shares
/// what the run has. Where there is no memory, the passes are let go.
pub fn make_task(
    alloc: Global,
    version: u32,
    node: u32,
    run: &NodeRun,
    list: &[Strategy],
    shelf: &Arc<Shelf>,
    pass: Pass,
    claims: &Arc<Claims>,
    claim_pass: ClaimPass,
) -> Result<Task, NoMemory>
    requires own { place_of pass ≡ arc_value shelf.now }
    requires tag { pass.tag ≡ tag_over (arc_value run.now.at) run.now.inputs list.now }
    requires pieces { (arc_value claims.now).count ≡ pieces_of (arc_value run.now.at).out }
    requires claimant { claim_pass.table ≡ (arc_value claims.now).table }
    ensures { IfOk result (λ t. IsTaskFor version node run.now list.now (arc_value shelf.now) pass
        (arc_value claims.now) claim_pass t) }
{
    let at = Arc::try_clone(&run.at)?;
    let inputs = share(alloc, run.inputs.as_slice())?;
    let aid = Arc::try_clone(&run.aid)?;
    let list = StrategyList::of(list.to_vec(alloc)?);
    let shelf = Arc::try_clone(shelf)?;
    let claims = Arc::try_clone(claims)?;
    Ok(Task {
        version,
        node,
        at,
        inputs,
        aid,
        list,
        shelf,
        pass,
        claims,
        claim_pass,
    })
}

/// The same arrays, shared once more.
fn share(alloc: Global, arrays: &[Arc<Array>]) -> Result<ArrayList, NoMemory>
    ensures { IfOk result (λ s. s ≡ map (λ a. arc_value a) arrays.now) }
{
    let mut items: Vec<Arc<Array>> = Vec::new(alloc);
    for array in arrays {
        items.push(Arc::try_clone(array)?)?;
    }
    Ok(ArrayList::of(items))
}
