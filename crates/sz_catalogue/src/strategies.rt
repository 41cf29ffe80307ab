//! Lists of strategies: those that a node has until others are set, and whether a list is one for
//! its operator.
ghost use Rattle.std.specs.Prelude.{◌≡◌};
ghost use Rattle.sz_catalogue.specs.Terms.{map, IfOk, list_all, is_listed, supports, first_list};
ghost use Rattle.sz_catalogue.specs.Terms.{are_distinct, is_list_for, is_list_of, names_a_store};

use crate::lists::StrategyLists;
use std::alloc::Global;
use sz_cells::NoMemory;
use sz_script::StrategyList;
use sz_spec::{Node, Op, Strategy, supports};

/// The strategies of a node until others are set.
pub fn first_list(alloc: Global, node: &Node) -> Result<StrategyList, NoMemory>
    ensures { IfOk result (λ l. l ≡ first_list node.now) }
{
    let first = if supports(&node.op, Strategy::Map) {
        Strategy::Map
    } else {
        Strategy::BlackBox
    };
    let mut list = Vec::new(alloc);
    list.push(first)?;
    Ok(StrategyList::of(list))
}

/// The strategies of each node until others are set.
pub fn first_lists(alloc: Global, nodes: &[Node]) -> Result<StrategyLists, NoMemory>
    ensures { IfOk result (λ l. l ≡ map first_list nodes.now) }
{
    let mut lists = Vec::with_capacity(alloc, nodes.len())?;
    for node in nodes {
        lists.push(first_list(alloc, node)?)?;
    }
    Ok(StrategyLists::of(lists))
}

/// Whether the node of a number is there, and the list is one for its operator.
pub fn is_list_of(nodes: &[Node], node: u32, list: &[Strategy]) -> bool
    ensures { result ≡ is_list_of nodes.now node list.now }
{
    match nodes.get(node as usize) {
        Some(node) => is_list_for(&node.op, list),
        None => false,
    }
}

/// Whether a list has one to three different strategies, each supported by the operator.
pub fn is_list_for(op: &Op, list: &[Strategy]) -> bool
    ensures { result ≡ is_list_for op.now list.now }
{
    if list.is_empty() || list.len() > 3 {
        return false;
    }
    are_distinct(list) && are_supported(op, list)
}

/// Whether an operator supports each strategy of a list.
fn are_supported(op: &Op, list: &[Strategy]) -> bool
    ensures { result ≡ list_all (supports op.now) list.now }
{
    list.iter().all(|strategy| supports(op, *strategy))
}

/// Whether no strategy stands twice in a list.
fn are_distinct(list: &[Strategy]) -> bool
    ensures { result ≡ are_distinct list.now }
{
    match list {
        [] => true,
        [first, rest @ ..] => !is_listed(rest, *first) && are_distinct(rest),
    }
}

/// Whether a strategy is in a list.
fn is_listed(list: &[Strategy], strategy: Strategy) -> bool
    ensures { result ≡ is_listed list.now strategy }
{
    list.iter().any(|listed| *listed == strategy)
}

/// Whether a list has a strategy that keeps a store.
pub fn names_a_store(list: &[Strategy]) -> bool
    ensures { result ≡ names_a_store list.now }
{
    list.iter().any(|strategy| strategy.is_stored())
}
