//! Nodes of a long body that are read side by side, each where it may begin. What was read of one
//! counts where the node before it ends there.

ghost use Rattle.std.specs.Prelude.{◌≡◌, ◌<◌};
ghost use Rattle.sz_bodies.specs.Terms.{ℕ, length, get_or, true, All, None, option_map, IfOk};
ghost use Rattle.sz_bodies.specs.Terms.{IfErr, arc_value, is_format, Node, TriedNode, FitsNode};
ghost use Rattle.sz_bodies.specs.Terms.{part_of, IfBad, site_over, IsFitting, IsNodeAt, NoNodeAt};
ghost use Rattle.sz_bodies.specs.Terms.{IsOnlyNode, IsTried};

use crate::nodes::take_node;
use crate::reading::TakeFault;
use crate::skipping::node_end;
use rayon::prelude::*;
use std::alloc::Global;
use std::sync::Arc;
use std::thread::Threads;
use sz_cells::{NoMemory, Shape};
use sz_script::StrategyList;
use sz_spec::Node;
use sz_store::NodeStore;

/// From how many bytes of a body on its nodes are read side by side.
const SIDE_BY_SIDE_FROM: usize = 1_048_576;

/// What was read of a node at a place where it may begin.
#[derive(Drop)]
pub(crate) struct TriedNode {
    at: u64,
    taken: Option<TakenNode>,
}

/// The list and the stores of a node, and the place behind them.
#[derive(Drop)]
struct TakenNode {
    list: StrategyList,
    kept: Option<Arc<NodeStore>>,
    next: u64,
}

/// What is read of each node side by side, where it may begin if the first one begins at a place:
/// nothing of a short body, or in format 2, whose parts say no lengths.
pub(crate) fn try_nodes<R: Threads + Sync>(
    rt: &R,
    alloc: Global,
    format: u8,
    nodes: &[Node],
    base: &[Shape],
    outputs: &[Shape],
    bytes: &[u8],
    at: u64,
) -> Result<Vec<TriedNode>, NoMemory>
    requires format { is_format format ≡ true }
    requires fits { All (IsFitting base.now outputs.now) nodes.now }
    ensures count { IfOk result (λ v. length v.items ≡ length nodes.now) }
    ensures each { IfOk result (λ v. (k : ℕ) (n : Node) (d : TriedNode) → k < length v.items
        → IsTried format (site_over base.now outputs.now (get_or nodes.now k n)) bytes.now
        (get_or v.items k d)) }
{
    let guess = format == 1 && bytes.len() >= SIDE_BY_SIDE_FROM;
    let mut tries = untried_nodes(alloc, nodes, guess, bytes, at)?;
    if guess {
        par_for_each_mut(
            rt,
            &mut tries,
            |index: usize, tried: &mut TriedNode|
                requires format { is_format format ≡ true }
                requires fits { All (IsFitting base.now outputs.now) nodes.now }
                requires index { index < length nodes.now }
                ensures { (n : Node) → IsTried format
                    (site_over base.entry.now outputs.entry.now (get_or nodes.entry.now index n))
                    bytes.entry.now tried.new }
            {
                try_node(
                    rt,
                    alloc,
                    format,
                    &nodes[index],
                    base,
                    outputs,
                    bytes,
                    tried,
                );
            },
        );
    }
    Ok(tries)
}

/// Where each node may begin, if that is to be guessed, and nothing read of it.
fn untried_nodes(
    alloc: Global,
    nodes: &[Node],
    guess: bool,
    bytes: &[u8],
    at: u64,
) -> Result<Vec<TriedNode>, NoMemory>
    ensures count { IfOk result (λ v. length v.items ≡ length nodes.now) }
    ensures none { IfOk result (λ v. All (λ t. t.taken ≡ None) v.items) }
{
    let mut tries = Vec::with_capacity(alloc, nodes.len())?;
    let mut place = at;
    for node in nodes {
        tries.push(untried(place))?;
        place = end_or_none(node, guess, bytes, place);
    }
    Ok(tries)
}

/// A place where a node may begin, and nothing read of it.
fn untried(at: u64) -> TriedNode
    ensures { result.taken ≡ None }
{
    TriedNode { at, taken: None }
}

/// The place behind the node that may stand at a place. One behind all bytes where none does, and
/// where it is not to be guessed.
fn end_or_none(node: &Node, guess: bool, bytes: &[u8], at: u64) -> u64 {
    if !guess {
        return u64::MAX;
    }
    let inputs = node.from.as_slice().len() as u64;
    node_end(inputs, bytes, at).unwrap_or(u64::MAX)
}

/// Reads a node where it may begin.
fn try_node<R: Threads + Sync>(
    rt: &R,
    alloc: Global,
    format: u8,
    node: &Node,
    base: &[Shape],
    outputs: &[Shape],
    bytes: &[u8],
    tried: &mut TriedNode,
)
    requires format { is_format format ≡ true }
    requires fits { IsFitting base.now outputs.now node.now }
    ensures { IsTried format (site_over base.now outputs.now node.now) bytes.now tried.new }
{
    tried.taken = match take_node(rt, alloc, format, node, base, outputs, bytes, tried.at) {
        Ok((list, kept, next)) => Some(TakenNode { list, kept, next }),
        Err(_) => None,
    };
}

/// As [`take_node`], by what was read before where that was at the same place.
pub(crate) fn take_tried<R: Threads + Sync>(
    rt: &R,
    alloc: Global,
    format: u8,
    node: &Node,
    base: &[Shape],
    outputs: &[Shape],
    bytes: &[u8],
    at: u64,
    tried: &TriedNode,
) -> Result<(StrategyList, Option<Arc<NodeStore>>, u64), TakeFault>
    requires format { is_format format ≡ true }
    requires fits { IsFitting base.now outputs.now node.now }
    requires tried { IsTried format (site_over base.now outputs.now node.now) bytes.now tried.now }
    ensures node { let s = site_over base.now outputs.now node.now in IfOk result (λ r.
        IsNodeAt format s bytes.now at r.2 (part_of r.0 (option_map (λ a. arc_value a) r.1))) }
    ensures only { let s = site_over base.now outputs.now node.now in IfOk result (λ r.
        IsOnlyNode format s bytes.now at r.2 (part_of r.0 (option_map (λ a. arc_value a) r.1))) }
    ensures fits { let s = site_over base.now outputs.now node.now in IfOk result (λ r.
        FitsNode s r.0 (option_map (λ a. arc_value a) r.1)) }
    ensures err { let s = site_over base.now outputs.now node.now in IfErr result (λ e.
        IfBad e (NoNodeAt format s bytes.now at)) }
{
    if let Some(taken) = &tried.taken {
        if tried.at == at {
            let (list, kept) = share(alloc, taken)?;
            return Ok((list, kept, taken.next));
        }
    }
    take_node(rt, alloc, format, node, base, outputs, bytes, at)
}

/// The same list, and the same stores once more.
fn share(
    alloc: Global,
    taken: &TakenNode,
) -> Result<(StrategyList, Option<Arc<NodeStore>>), NoMemory>
    ensures list { IfOk result (λ r. r.0 ≡ taken.now.list) }
    ensures kept { IfOk result (λ r. option_map (λ a. arc_value a) r.1
        ≡ option_map (λ a. arc_value a) taken.now.kept) }
{
    let list = StrategyList::of(taken.list.as_slice().to_vec(alloc)?);
    match &taken.kept {
        Some(store) => Ok((list, Some(Arc::try_clone(store)?))),
        None => Ok((list, None)),
    }
}
