//! The table: for each number of units, the least that the nodes from some node on cost.

ghost use Rattle.std.specs.Prelude.{◌≡◌, ◌≤◌, ◌<◌, ◌+◌, ◌*◌, ◌^◌};
ghost use Rattle.sz_planner.specs.Terms.{ℕ, All, IfOk, length, slice_index, cheapest};
ghost use Rattle.sz_planner.specs.Terms.{most_at_a_node, AreCostsOver, IsTable};

use crate::offers::{Asks, Offer, offer_of, offers_of};
use std::alloc::Global;
use sz_cells::NoMemory;
use sz_spec::{OpAt, Strategy};

/// The least costs of no node, of the last one, of the last two and so on, each for every number of
/// units up to a limit. Takes time in the nodes times the units.
pub(crate) fn table_of(
    alloc: Global,
    nodes: &[OpAt],
    limit: usize,
    asks: Asks,
) -> Result<Vec<Vec<u64>>, NoMemory>
    requires few { length nodes.now ≤ 32 }
    requires limit { limit ≤ 65536 }
    ensures { IfOk result (λ table.
        IsTable asks.back asks.forward nodes.now limit table.items) }
{
    let mut table = Vec::with_capacity(alloc, nodes.len() + 1)?;
    table.push(vec![in alloc; 0u64; limit + 1]?)?;
    for done in 0..nodes.len() {
        let node = &nodes[nodes.len() - 1 - done];
        let costs = costs_over(alloc, node, &table[done], limit, asks)?;
        table.push(costs)?;
    }
    Ok(table)
}

/// The least costs of a node and those behind it, over the least costs of the latter.
fn costs_over(
    alloc: Global,
    node: &OpAt,
    behind: &[u64],
    limit: usize,
    asks: Asks,
) -> Result<Vec<u64>, NoMemory>
    requires limit { limit ≤ 65536 }
    requires len { length behind.now ≡ limit + 1 }
    requires small { (u : ℕ) → u ≤ limit → slice_index behind.now u ≤ 31 * most_at_a_node }
    ensures { IfOk result (λ costs.
        AreCostsOver asks.back asks.forward node.now behind.now limit costs.items) }
{
    let offers = offers_of(alloc, node, asks)?;
    let black_box = offer_of(node, Strategy::BlackBox, asks);
    let mut costs = Vec::with_capacity(alloc, limit + 1)?;
    for units in 0..limit + 1 {
        costs.push(cheapest(&offers, behind, units, black_box.cost + behind[units]))?;
    }
    Ok(costs)
}

/// The least of a cost and of those of the offers that fit into the units.
pub(crate) fn cheapest(offers: &[Offer], behind: &[u64], units: usize, start: u64) -> u64
    requires units { units < length behind.now }
    requires offers { All (λ o. o.cost ≤ most_at_a_node) offers.now }
    requires behind { (u : ℕ) → u ≤ units → slice_index behind.now u ≤ 31 * most_at_a_node }
    ensures { result ≡ cheapest (λ left. slice_index behind.now left) units start offers.now }
{
    let mut least = start;
    for offer in offers {
        if offer.units <= units {
            least = least.min(offer.cost + behind[units - offer.units]);
        }
    }
    least
}
