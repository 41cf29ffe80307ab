//! Reading the body of a version.

ghost use Rattle.std.specs.Prelude.{◌≡◌, ◌<◌};
ghost use Rattle.sz_bodies.specs.Terms.{ℕ, map, true, All, IfOk, IfErr, arc_value, Extent};
ghost use Rattle.sz_bodies.specs.Terms.{shapes_of, is_format, Fit, body_of, version_said, IsLawful};
ghost use Rattle.sz_bodies.specs.Terms.{CanBeAdded, IfBad, lineages, Taken, NoneIsLawful};
ghost use Rattle.sz_bodies.specs.Terms.{IsFitting, FitShapes, NoShapesFit};
ghost use Rattle.sz_bodies.specs.declared.reading.TakeFault.TheVariants as fault;

use crate::heads::{Head, take_head};
use crate::nodes::take_nodes;
use std::alloc::{AllocError, AllocFailed, Global};
use std::marker::Model;
use std::sync::Arc;
use std::thread::Threads;
use sz_catalogue::{BaseArrays, Catalogue, StrategyLists, base_shapes, cells_of};
use sz_cells::{NoMemory, Shape};
use sz_script::Name;
use sz_spec::{Flow, output_shapes};
use sz_store::NodeStore;

/// A version that a body says, with its stores: its number, the flow that is held under its name,
/// the base arrays that are held under theirs, the strategies of each node, and the stores of each
/// node whose strategies keep one. Contracts see a version that was awaited.
#[derive(Drop)]
pub struct TakenVersion {
    pub number: u32,
    pub flow_name: Name,
    pub flow: Arc<Flow>,
    pub base: BaseArrays,
    pub lists: StrategyLists,
    pub stores: Vec<Option<Arc<NodeStore>>>,
}

impl Model for TakenVersion {
    ghost Value = { Taken };

    ghost view = { λ t. record {
      number = t.number;
      version = record {
        flow_name = t.flow_name;
        flow = arc_value t.flow;
        base = t.base;
        lists = t.lists;
        awaited = true;
      };
      stores = lineages t.stores.items;
    } };
}

/// Why no version was read.
#[derive(Clone, Copy, Debug, Drop, PartialEq, Eq)]
pub enum TakeFault {
    /// The bytes are no lawful body.
    Bad,
    /// There was no memory.
    NoMemory,
}

impl<T: Drop> From<AllocFailed<T>> for TakeFault {
    ghost from_gives = { λ _ e. e ≡ fault.NoMemory };

    fn from(_error: AllocFailed<T>) -> TakeFault {
        TakeFault::NoMemory
    }
}

impl From<AllocError> for TakeFault {
    ghost from_gives = { λ _ e. e ≡ fault.NoMemory };

    fn from(_error: AllocError) -> TakeFault {
        TakeFault::NoMemory
    }
}

impl From<NoMemory> for TakeFault {
    ghost from_gives = { λ _ e. e ≡ fault.NoMemory };

    fn from(_error: NoMemory) -> TakeFault {
        TakeFault::NoMemory
    }
}

/// The version that a body in a format of logs, 1 or 2, says over what is held, with its stores.
/// `Bad` exactly where the bytes are no lawful body in that format. What is read can be added to
/// the catalogue.
///
/// Takes time and memory in the number of bytes, and in the flow, and for each name time in the
/// logarithm of what is held. The stores of the nodes of a long body in format 1 are read side by
/// side.
pub fn take_version_body<R: Threads + Sync>(
    rt: &R,
    alloc: Global,
    catalogue: &Catalogue,
    body: &[u8],
    format: u8,
) -> Result<TakenVersion, TakeFault>
    requires { is_format format ≡ true }
    ensures lawful { IfOk result (λ t.
        IsLawful format catalogue.now (body_of t.number t.version t.stores) body.now) }
    ensures said { IfOk result (λ t.
        t.version ≡ version_said catalogue.now (body_of t.number t.version t.stores)) }
    ensures fit { IfOk result (λ t. Fit t.version t.stores) }
    ensures added { IfOk result (λ t. CanBeAdded catalogue.now t.number t.version) }
    ensures bad { IfErr result (λ e. IfBad e (NoneIsLawful format catalogue.now body.now)) }
{
    let (head, place) = take_head(alloc, catalogue, body)?;
    let (base, outputs) = fit_shapes(alloc, catalogue, &head)?;
    let nodes = head.flow.nodes();
    let (lists, stores, end) = take_nodes(rt, alloc, format, nodes, &base, &outputs, body, place)?;
    if end != body.len() as u64 {
        return Err(TakeFault::Bad);
    }
    Ok(TakenVersion {
        number: head.number,
        flow_name: head.flow_name,
        flow: head.flow,
        base: BaseArrays::of(head.base),
        lists: StrategyLists::of(lists),
        stores,
    })
}

/// The shapes of the base arrays, and of the outputs that the flow makes of them. `Bad` where they
/// do not fit, or there is no room for the outputs.
fn fit_shapes(
    alloc: Global,
    catalogue: &Catalogue,
    head: &Head,
) -> Result<(Vec<Shape>, Vec<Shape>), TakeFault>
    ensures base { IfOk result (λ r. r.0.items ≡ shapes_of head.now.base) }
    ensures fit { IfOk result (λ r. FitShapes catalogue.now head.now r.1.items) }
    ensures nodes { IfOk result (λ r. All (IsFitting r.0.items r.1.items) head.now.flow.nodes) }
    ensures err { IfErr result (λ e. IfBad e (NoShapesFit catalogue.now head.now)) }
{
    let flow: &Flow = &head.flow;
    if flow.check().is_err() {
        return Err(TakeFault::NoMemory); // every flow that is held is well formed
    }
    if head.base.len() != flow.inputs() as usize || head.count as usize != flow.nodes().len() {
        return Err(TakeFault::Bad);
    }
    let base = base_shapes(alloc, &head.base)?;
    let Ok(outputs) = output_shapes(alloc, flow, &base)? else {
        return Err(TakeFault::Bad);
    };
    if !catalogue.has_room(cells_of(&outputs)) {
        return Err(TakeFault::Bad);
    }
    Ok((base, outputs))
}
