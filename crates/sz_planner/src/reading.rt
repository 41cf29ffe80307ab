//! The list that is read off from the table, from node 0 on.

ghost use Rattle.std.specs.Prelude.{◌≡◌, ◌≤◌, ◌<◌, ◌+◌, ◌*◌};
ghost use Rattle.sz_planner.specs.Terms.{ℕ, All, IfOk, length, slice_index, find, units_of};
ghost use Rattle.sz_planner.specs.Terms.{attains, offer_over, list_within, most_at_a_node, IsTable};

use crate::costs::cheapest;
use crate::offers::{Asks, Offer, offer_of, offers_of};
use std::alloc::Global;
use sz_cells::NoMemory;
use sz_spec::{OpAt, Strategy};

/// Of the cheapest choices within the limit the first by the strategies' numbers, node 0 first, and
/// the units that it takes.
pub(crate) fn list_within(
    alloc: Global,
    nodes: &[OpAt],
    table: &[Vec<u64>],
    limit: usize,
    asks: Asks,
) -> Result<(Vec<Strategy>, usize), NoMemory>
    requires few { length nodes.now ≤ 32 }
    requires limit { limit ≤ 65536 }
    requires table { IsTable asks.back asks.forward nodes.now limit table.now }
    ensures list { IfOk result (λ r.
        r.0.items ≡ list_within asks.back asks.forward nodes.now limit) }
    ensures units { IfOk result (λ r. r.1 ≡ units_of nodes.now r.0.items) }
    ensures within { IfOk result (λ r. r.1 ≤ limit) }
{
    let mut list = Vec::with_capacity(alloc, nodes.len())?;
    let mut left = limit;
    for done in 0..nodes.len() {
        let behind = &table[nodes.len() - 1 - done];
        let offer = offer_over(alloc, &nodes[done], behind, left, asks)?;
        list.push(offer.strategy)?;
        left -= offer.units;
    }
    Ok((list, limit - left))
}

/// The first offer by which a node and those behind it cost least within the units.
fn offer_over(
    alloc: Global,
    node: &OpAt,
    behind: &[u64],
    units: usize,
    asks: Asks,
) -> Result<Offer, NoMemory>
    requires units { units < length behind.now }
    requires behind { (u : ℕ) → u ≤ units → slice_index behind.now u ≤ 31 * most_at_a_node }
    ensures value { IfOk result (λ offer. offer
        ≡ offer_over asks.back asks.forward node.now (λ left. slice_index behind.now left) units) }
{
    let offers = offers_of(alloc, node, asks)?;
    let black_box = offer_of(node, Strategy::BlackBox, asks);
    let least = cheapest(&offers, behind, units, black_box.cost + behind[units]);
    Ok(first_of(&offers, behind, units, least).unwrap_or(black_box))
}

/// The first of the offers that fits into the units and costs just so much.
fn first_of(offers: &[Offer], behind: &[u64], units: usize, least: u64) -> Option<Offer>
    requires units { units < length behind.now }
    requires offers { All (λ o. o.cost ≤ most_at_a_node) offers.now }
    requires behind { (u : ℕ) → u ≤ units → slice_index behind.now u ≤ 31 * most_at_a_node }
    ensures { result
        ≡ find (attains (λ left. slice_index behind.now left) units least) offers.now }
{
    for offer in offers {
        if offer.units <= units && offer.cost + behind[units - offer.units] == least {
            return Some(*offer);
        }
    }
    None
}
