//! Plans of small flows against a plain twin that looks at every choice.

use crate::offers::{Asks, OTHERS, offer_of};
use crate::planning::{Planned, plan};
use std::alloc::Global;
use std::test::Fail;
use sz_cells::Shape;
use sz_spec::{Fold, Kernel, Op, OpAt, Strategy, arity, has_right_parameters, supports};

/// The strategy of a digit: black box comes behind all others.
fn strategy_of(digit: u64) -> Strategy {
    match OTHERS.get(digit as usize) {
        Some(strategy) => *strategy,
        None => Strategy::BlackBox,
    }
}

/// An operator of one input of one layer.
fn node(alloc: Global, op: Op, rows: u32, cols: u32) -> Result<OpAt, Fail> {
    if arity(&op) != 1 || !has_right_parameters(&op) {
        return Err("an operator of one input".into());
    }
    let shape = Shape::make(rows, cols).ok_or("a shape")?;
    let Ok(node) = OpAt::of(op, vec![in alloc; shape]?) else {
        return Err("a right shape".into());
    };
    Ok(node)
}

/// What is planned, in words: its cost, its units, and a digit for each strategy, its number less
/// 1, node 0 first.
fn in_digits(planned: &Planned) -> (u64, u64, u64) {
    let mut digits = 0u64;
    for strategy in planned.list.as_slice() {
        let number = OTHERS
            .iter()
            .position(|s| s == strategy)
            .unwrap_or(OTHERS.len());
        digits = digits.saturating_mul(10).saturating_add(number as u64);
    }
    (planned.cost, u64::from(planned.units), digits)
}

/// The cost, the units and the digits of the choice of these digits, where it is one within the
/// limit.
fn choice_of(nodes: &[OpAt], limit: u64, asks: Asks, digits: u64) -> Option<(u64, u64, u64)> {
    let mut rest = digits;
    let mut cost = 0u64;
    let mut units = 0u64;
    for node in nodes.iter().rev() {
        let strategy = strategy_of(rest % 10);
        if !supports(node.op(), strategy) {
            return None;
        }
        let offer = offer_of(node, strategy, asks);
        cost = cost.saturating_add(offer.cost);
        units = units.saturating_add(offer.units as u64);
        rest /= 10;
    }
    if rest == 0 && units <= limit {
        Some((cost, units, digits))
    } else {
        None
    }
}

/// The plain twin: the first of all choices that none undercuts.
fn by_all_choices(nodes: &[OpAt], limit: u64, asks: Asks) -> Option<(u64, u64, u64)> {
    let mut best = None;
    for digits in 0..10_000 {
        let choice = choice_of(nodes, limit, asks, digits);
        let Some((cost, _, _)) = choice else {
            continue;
        };
        match best {
            Some((least, _, _)) if least <= cost => {}
            _ => best = choice,
        }
    }
    best
}

/// What is planned, in digits.
fn planned(
    alloc: Global,
    nodes: &[OpAt],
    units: u32,
    back: u32,
    forward: u32,
) -> Result<(u64, u64, u64), Fail> {
    if nodes.len() > 32 || units > 65536 {
        return Err("at most 32 nodes and 65,536 units".into());
    }
    Ok(in_digits(&plan(alloc, nodes, units, back, forward)?))
}

#[test]
fn plans_are_those_of_the_plain_twin(rt: HostRuntime) -> Result<(), Fail> {
    let alloc = rt.alloc();
    let four = vec![in alloc;
        node(alloc, Op::Clean { t: 10 }, 5, 6)?,
        node(
            alloc,
            Op::Block {
                fold: Fold::Sum,
                h: 2,
                w: 3
            },
            20,
            31
        )?,
        node(alloc, Op::Regions { t: 5 }, 7, 9)?,
        node(alloc, Op::Transpose, 40, 3)?,
    ]?;
    let kernel = Kernel::make(1, 3, vec![in alloc; 0i64, 2, -1]?);
    let three = vec![in alloc;
        node(alloc, Op::Regions { t: 5 }, 3, 5)?,
        node(alloc, Op::Convolve { kernel }, 30, 30)?,
        node(alloc, Op::FoldLayers { fold: Fold::Min }, 25, 25)?,
    ]?;
    for units in 0..12u32 {
        for (back, forward) in [(1, 0), (0, 1), (3, 2), (1, 40), (u32::MAX, u32::MAX)] {
            for nodes in [&four, &three] {
                let twin = by_all_choices(nodes, u64::from(units), Asks { back, forward });
                assert_eq!(rt; Some(planned(alloc, nodes, units, back, forward)?), twin);
            }
        }
    }
    Ok(())
}
