//! Offers: the strategies that a node's operator supports, each with the units that its store takes
//! and with what the asks cost by it.

ghost use Rattle.std.specs.Prelude.{◌≡◌, ◌≤◌};
ghost use Rattle.sz_planner.specs.Terms.{All, IfOk, units_over, offer_of, offers_among, offers_of};
ghost use Rattle.sz_planner.specs.Terms.{most_at_a_node};

use crate::estimates::{degree_of, row_for};
use std::alloc::Global;
use sz_cells::NoMemory;
use sz_spec::{OpAt, Strategy, supports};

/// How many asks are to come in each direction.
#[derive(Clone, Copy)]
pub(crate) struct Asks {
    pub back: u32,
    pub forward: u32,
}

/// A strategy at a node, the units of its store, and what the asks cost by it.
#[derive(Clone, Copy)]
pub(crate) struct Offer {
    pub strategy: Strategy,
    pub units: usize,
    pub cost: u64,
}

/// Every strategy but black box, by number.
pub(crate) const OTHERS: [Strategy; 9] = [
    Strategy::Map,
    Strategy::FullOneB,
    Strategy::FullOneF,
    Strategy::FullManyB,
    Strategy::FullManyF,
    Strategy::PayOne,
    Strategy::PayMany,
    Strategy::CompOne,
    Strategy::CompMany,
];

/// What a node is offered beside black box, by the strategies' numbers.
pub(crate) fn offers_of(alloc: Global, node: &OpAt, asks: Asks) -> Result<Vec<Offer>, NoMemory>
    ensures value { IfOk result (λ offers.
        offers.items ≡ offers_of asks.back asks.forward node.now) }
    ensures small { IfOk result (λ offers. All (λ o. o.cost ≤ most_at_a_node) offers.items) }
{
    offers_among(alloc, node, &OTHERS, asks)
}

/// Of these strategies those that the node's operator supports, each with what it takes and costs.
fn offers_among(
    alloc: Global,
    node: &OpAt,
    strategies: &[Strategy],
    asks: Asks,
) -> Result<Vec<Offer>, NoMemory>
    ensures value { IfOk result (λ offers.
        offers.items ≡ offers_among asks.back asks.forward node.now strategies.now) }
    ensures small { IfOk result (λ offers. All (λ o. o.cost ≤ most_at_a_node) offers.items) }
{
    let mut offers = Vec::with_capacity(alloc, strategies.len())?;
    for strategy in strategies {
        if supports(node.op(), *strategy) {
            offers.push(offer_of(node, *strategy, asks))?;
        }
    }
    Ok(offers)
}

/// A strategy at a node.
pub(crate) fn offer_of(node: &OpAt, strategy: Strategy, asks: Asks) -> Offer
    ensures value { result ≡ offer_of asks.back asks.forward node.now strategy }
    ensures small { result.cost ≤ most_at_a_node }
{
    let row = row_for(u64::from(node.out().size()), degree_of(node), strategy);
    Offer {
        strategy,
        units: units_over(row.bytes),
        cost: u64::from(asks.back) * row.back + u64::from(asks.forward) * row.forward,
    }
}

/// The units of so many bytes, the last of which may be begun.
fn units_over(bytes: u64) -> usize
    requires { bytes ≤ 17592186044416 }
    ensures { result ≡ units_over bytes }
{
    ((bytes + 4095) / 4096) as usize
}
