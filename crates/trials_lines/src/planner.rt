//! Plans that were worked out by hand.

use std::alloc::Global;
use std::test::Fail;
use sz_cells::Shape;
use sz_planner::plan;
use sz_spec::{Op, OpAt, Strategy, arity, has_right_parameters};

/// An operator of one input of one layer.
fn node(alloc: Global, op: Op, rows: u32, cols: u32) -> Result<OpAt, Fail> {
    let shape = Shape::make(rows, cols).ok_or("no sides of a shape")?;
    let ins = vec![in alloc; shape]?;
    if arity(&op) == 1 && has_right_parameters(&op) {
        return Ok(OpAt::of(op, ins).ok().ok_or("a wrong shape")?);
    }
    Err("not an operator of one input".into())
}

/// A plan in words: its cost, its units and its strategies.
type InWords<'a> = (u64, u32, &'a [Strategy]);

/// Whether of so many units for one or two nodes, and so many asks back and forward, this is
/// planned.
fn is_planned(
    alloc: Global,
    nodes: &[OpAt],
    units: u32,
    asks: (u32, u32),
    words: InWords<'_>,
) -> Result<bool, Fail> {
    if nodes.len() > 2 || units > 1 {
        return Err("too many nodes or units".into());
    }
    let planned = plan(alloc, nodes, units, asks.0, asks.1)?;
    Ok(planned.cost == words.0 && planned.units == words.1 && planned.list.as_slice() == words.2)
}

/// Whether a node that cleans 2 by 2 cells is black box without a unit, `full_one_b` where it is
/// asked back, also where `full_one_f` costs the same, and else `full_one_f`.
fn one_is_planned(alloc: Global) -> Result<bool, Fail> {
    let clean = [node(alloc, Op::Clean { t: 10 }, 2, 2)?];
    let back = [Strategy::FullOneB];
    let forward = [Strategy::FullOneF];
    Ok(
        is_planned(alloc, &clean, 0, (1, 0), (16, 0, &[Strategy::BlackBox]))?
            && is_planned(alloc, &clean, 1, (1, 0), (1, 1, &back))?
            && is_planned(alloc, &clean, 1, (1, 1), (5, 1, &back))?
            && is_planned(alloc, &clean, 1, (0, 1), (1, 1, &forward))?,
    )
}

/// Whether the one unit of two nodes that are alike goes to the first.
fn two_are_planned(alloc: Global) -> Result<bool, Fail> {
    let first = node(alloc, Op::Clean { t: 10 }, 2, 2)?;
    let alike = [first, node(alloc, Op::Clean { t: 10 }, 2, 2)?];
    let list = [Strategy::FullOneB, Strategy::BlackBox];
    is_planned(alloc, &alike, 1, (1, 0), (17, 1, &list))
}

#[test]
fn plans_worked_out_by_hand(rt: HostRuntime) -> Result<(), Fail> {
    let alloc = rt.alloc();
    assert!(rt; one_is_planned(alloc)?);
    assert!(rt; two_are_planned(alloc)?);
    let neg = [node(alloc, Op::Neg, 1, 3)?];
    assert!(rt; is_planned(alloc, &neg, 0, (1, 0), (1, 0, &[Strategy::Map]))?);
    Ok(())
}

#[test]
fn a_unit_goes_where_it_is_worth_most(rt: HostRuntime) -> Result<(), Fail> {
    let alloc = rt.alloc();
    let small = node(alloc, Op::Clean { t: 10 }, 2, 2)?;
    let two = [small, node(alloc, Op::Clean { t: 10 }, 4, 4)?];
    let second = [Strategy::BlackBox, Strategy::FullOneB];
    assert!(rt; is_planned(alloc, &two, 1, (1, 0), (17, 1, &second))?);
    Ok(())
}
