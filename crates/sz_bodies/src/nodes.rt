//! Reading the nodes of a body: the list of each, and its stores.

ghost use Rattle.std.specs.Prelude.{◌≡◌, ◌<◌, ◌≤◌, ◌∷◌};
ghost use Rattle.sz_bodies.specs.Terms.{ℕ, List, length, map, true, false, Ok, All, option_map};
ghost use Rattle.sz_bodies.specs.Terms.{IfOk, IfErr, arc_value, supports, stored_in, is_format};
ghost use Rattle.sz_bodies.specs.Terms.{BeginEachIn, NoneBeginIn, NodePart, FitsNode, FitNodes};
ghost use Rattle.sz_bodies.specs.Terms.{IsWholeFor, part_of, parts_of, lineages, IsRightSite};
ghost use Rattle.sz_bodies.specs.Terms.{IfBad, site_over, IsFitting, IsNodeAt, AreNodesAt};
ghost use Rattle.sz_bodies.specs.Terms.{NoNodeAt, NoNodesAt, IsOnlyNode, AreOnlyNodes};

use crate::lists::take_list;
use crate::reading::TakeFault;
use crate::tries::{take_tried, try_nodes};
use std::alloc::Global;
use std::sync::Arc;
use std::thread::Threads;
use sz_catalogue::{is_list_for, names_a_store, site_over};
use sz_cells::{NoMemory, Shape};
use sz_formats::take_stores;
use sz_region::{Take, shapes_are_within_limits};
use sz_script::StrategyList;
use sz_spec::{Node, OpAt, Strategy};
use sz_store::NodeStore;

/// The lists and the stores of nodes that stand one behind the other in a format, the first one at
/// a place, and the place behind the last one. The nodes work between shapes of these base arrays
/// and outputs.
pub(crate) fn take_nodes<R: Threads + Sync>(
    rt: &R,
    alloc: Global,
    format: u8,
    nodes: &[Node],
    base: &[Shape],
    outputs: &[Shape],
    bytes: &[u8],
    at: u64,
) -> Result<(Vec<StrategyList>, Vec<Option<Arc<NodeStore>>>, u64), TakeFault>
    requires format { is_format format ≡ true }
    requires fits { All (IsFitting base.now outputs.now) nodes.now }
    ensures nodes { IfOk result (λ r. AreNodesAt format base.now outputs.now nodes.now bytes.now at
        r.2 (parts_of r.0.items (lineages r.1.items))) }
    ensures only { IfOk result (λ r. AreOnlyNodes format base.now outputs.now nodes.now bytes.now at
        r.2 (parts_of r.0.items (lineages r.1.items))) }
    ensures fit { IfOk result (λ r. FitNodes (map (site_over base.now outputs.now) nodes.now)
        r.0.items (lineages r.1.items)) }
    ensures err { IfErr result (λ e. IfBad e
        (NoNodesAt format base.now outputs.now nodes.now bytes.now at)) }
{
    let mut lists = Vec::new(alloc);
    let mut stores = Vec::new(alloc);
    let tries = try_nodes(rt, alloc, format, nodes, base, outputs, bytes, at)?;
    let mut place = at;
    let mut index = 0;
    for node in nodes {
        let tried = &tries[index];
        let (list, kept, next) = take_tried(
            rt, alloc, format, node, base, outputs, bytes, place, tried,
        )?;
        lists.push(list)?;
        stores.push(kept)?;
        place = next;
        index += 1;
    }
    Ok((lists, stores, place))
}

/// The list and the stores of the node that stands at a place, and the place behind it.
pub(crate) fn take_node<R: Threads + Sync>(
    rt: &R,
    alloc: Global,
    format: u8,
    node: &Node,
    base: &[Shape],
    outputs: &[Shape],
    bytes: &[u8],
    at: u64,
) -> Result<(StrategyList, Option<Arc<NodeStore>>, u64), TakeFault>
    requires format { is_format format ≡ true }
    requires fits { IsFitting base.now outputs.now node.now }
    ensures node { let s = site_over base.now outputs.now node.now in IfOk result (λ r.
        IsNodeAt format s bytes.now at r.2 (part_of r.0 (option_map (λ a. arc_value a) r.1))) }
    ensures only { let s = site_over base.now outputs.now node.now in IfOk result (λ r.
        IsOnlyNode format s bytes.now at r.2 (part_of r.0 (option_map (λ a. arc_value a) r.1))) }
    ensures fits { let s = site_over base.now outputs.now node.now in IfOk result (λ r.
        FitsNode s r.0 (option_map (λ a. arc_value a) r.1)) }
    ensures err { let s = site_over base.now outputs.now node.now in IfErr result (λ e.
        IfBad e (NoNodeAt format s bytes.now at)) }
{
    let (list, place) = take_list(alloc, bytes, at)?;
    if !is_list_for(&node.op, list.as_slice()) {
        return Err(TakeFault::Bad);
    }
    if !names_a_store(list.as_slice()) {
        return Ok((list, None, place));
    }
    let own = list.as_slice();
    let (kept, next) = stores_at(rt, alloc, format, node, base, outputs, own, bytes, place)?;
    Ok((list, Some(kept), next))
}

/// The stores of a list of a node that stand at a place, and the place behind them.
fn stores_at<R: Threads + Sync>(
    rt: &R,
    alloc: Global,
    format: u8,
    node: &Node,
    base: &[Shape],
    outputs: &[Shape],
    list: &[Strategy],
    bytes: &[u8],
    at: u64,
) -> Result<(Arc<NodeStore>, u64), TakeFault>
    requires format { is_format format ≡ true }
    requires fits { IsFitting base.now outputs.now node.now }
    requires supported { All (λ t. supports node.now.op t ≡ true) list.now }
    requires within { at ≤ length bytes.now }
    ensures stores { let s = site_over base.now outputs.now node.now in IfOk result (λ r.
        BeginEachIn format s (stored_in list.now) bytes.now at r.1 (arc_value r.0).stores) }
    ensures whole { let s = site_over base.now outputs.now node.now in IfOk result (λ r.
        IsWholeFor s list.now (arc_value r.0)) }
    ensures within { IfOk result (λ r. r.1 ≤ length bytes.now) }
    ensures right { let s = site_over base.now outputs.now node.now in
        IfOk result (λ r. IsRightSite s) }
    ensures err { let s = site_over base.now outputs.now node.now in IfErr result (λ e.
        IfBad e (NoneBeginIn format s (stored_in list.now) bytes.now at)) }
{
    let op = op_at(alloc, node, base, outputs)?;
    shapes_are_within_limits(&op.out(), op.ins());
    match take_stores(rt, alloc, format, op, list, bytes, at) {
        Ok((store, next)) => Ok((Arc::new(alloc, store)?, next)),
        Err(Take::Bad { .. }) => Err(TakeFault::Bad),
        Err(Take::NoMemory) => Err(TakeFault::NoMemory),
    }
}

/// The operator of a node, between the shapes of what it takes and its output.
fn op_at(
    alloc: Global,
    node: &Node,
    base: &[Shape],
    outputs: &[Shape],
) -> Result<Arc<OpAt>, NoMemory>
    requires { IsFitting base.now outputs.now node.now }
    ensures { IfOk result (λ a. arc_value a ≡ site_over base.now outputs.now node.now) }
{
    let site = site_over(alloc, node, base, outputs)?;
    Ok(Arc::new(alloc, site)?)
}
