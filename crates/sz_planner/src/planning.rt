//! The plan: the table, and the list that is read off from it.

ghost use Rattle.std.specs.Prelude.{◌≡◌, ◌≤◌, ◌<◌, ◌^◌};
ghost use Rattle.sz_planner.specs.Terms.{IfOk, length, IsBestChoice, cost_of, units_of};

use crate::costs::table_of;
use crate::lists::ChoiceList;
use crate::offers::Asks;
use crate::reading::list_within;
use std::alloc::Global;
use sz_cells::NoMemory;
use sz_spec::OpAt;

/// A choice of strategies, what it costs, and how many units of 4,096 bytes its stores take.
#[derive(Debug, Drop)]
pub struct Planned {
    pub list: ChoiceList,
    pub cost: u64,
    pub units: u32,
}

/// Of the choices whose stores take at most so many units of 4,096 bytes the one that costs least
/// for so many asks in each direction, and of those that cost the same the first by the strategies'
/// numbers, node 0 first. Takes time and memory in the nodes times the units, 8 bytes each.
pub fn plan(
    alloc: Global,
    nodes: &[OpAt],
    units: u32,
    back: u32,
    forward: u32,
) -> Result<Planned, NoMemory>
    requires few { length nodes.now ≤ 32 }
    requires limit { units ≤ 65536 }
    ensures best { IfOk result (λ p. IsBestChoice back forward units nodes.now p.list) }
    ensures cost { IfOk result (λ p. p.cost ≡ cost_of back forward nodes.now p.list) }
    ensures units { IfOk result (λ p. p.units ≡ units_of nodes.now p.list) }
    ensures small { IfOk result (λ p. p.cost < 2 ^ 62) }
{
    let asks = Asks { back, forward };
    let limit = units as usize;
    let table = table_of(alloc, nodes, limit, asks)?;
    let cost = table[nodes.len()][limit];
    let (list, taken) = list_within(alloc, nodes, &table, limit, asks)?;
    Ok(Planned {
        list: ChoiceList::of(list),
        cost,
        units: taken as u32,
    })
}
