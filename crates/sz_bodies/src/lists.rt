//! Reading lists of strategies.

ghost use Rattle.std.specs.Prelude.{◌≡◌};
ghost use Rattle.sz_bodies.specs.Terms.{map, IfOk, IfErr, IfSome, IfNone, number_of, IsAt, NoneAt};
ghost use Rattle.sz_bodies.specs.Terms.{list_bytes, IfBad, IsShortList, NumberNone};

use crate::parts::counted_at;
use crate::reading::TakeFault;
use std::alloc::Global;
use sz_script::StrategyList;
use sz_spec::Strategy;

/// The list of strategies that stands at a place, and the place behind it.
pub(crate) fn take_list(
    alloc: Global,
    bytes: &[u8],
    at: u64,
) -> Result<(StrategyList, u64), TakeFault>
    ensures short { IfOk result (λ r. IsShortList r.0) }
    ensures bytes { IfOk result (λ r. IsAt bytes.now at r.1 (list_bytes r.0)) }
    ensures err { IfErr result (λ e. IfBad e (NoneAt IsShortList list_bytes bytes.now at)) }
{
    let Some(numbers) = counted_at(bytes, at) else {
        return Err(TakeFault::Bad);
    };
    let list = strategies_of(alloc, numbers)?;
    Ok((StrategyList::of(list), at + 1 + numbers.len() as u64))
}

/// The strategies of these numbers.
fn strategies_of(alloc: Global, numbers: &[u8]) -> Result<Vec<Strategy>, TakeFault>
    ensures ok { IfOk result (λ v. map number_of v.items ≡ numbers.now) }
    ensures err { IfErr result (λ e. IfBad e (NumberNone numbers.now)) }
{
    let mut list = Vec::new(alloc);
    for number in numbers {
        let Some(strategy) = strategy_of(*number) else {
            return Err(TakeFault::Bad);
        };
        list.push(strategy)?;
    }
    Ok(list)
}

/// The strategy of a number. `None` exactly where there is none.
pub(crate) fn strategy_of(number: u8) -> Option<Strategy>
    ensures some { IfSome result (λ s. number_of s ≡ number) }
    ensures none { IfNone result ((s : Strategy) → number_of s ≡ number → ⊥) }
{
    match number {
        1 => Some(Strategy::Map),
        2 => Some(Strategy::FullOneB),
        3 => Some(Strategy::FullOneF),
        4 => Some(Strategy::FullManyB),
        5 => Some(Strategy::FullManyF),
        6 => Some(Strategy::PayOne),
        7 => Some(Strategy::PayMany),
        8 => Some(Strategy::CompOne),
        9 => Some(Strategy::CompMany),
        10 => Some(Strategy::BlackBox),
        _ => None,
    }
}
