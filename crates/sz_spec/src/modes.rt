//! How lineage is kept: modes and strategies, which of them an operator supports, and the way of a
//! query step.

ghost use Rattle.std.specs.Prelude.{◌≡◌, ◌<◌};
ghost use Rattle.sz_spec.specs.Terms.{length, find, has_mapping, has_mode, mode_of, supports};
ghost use Rattle.sz_spec.specs.Terms.{is_stored, order_of, is_listed, way};

use crate::op::Op;

/// The strategy of a list by which a query step in a direction goes: the first one of the
/// direction's order that is in the list. `BlackBox` is the last of each order. Takes no memory.
pub fn way(list: &[Strategy], dir: Dir) -> Strategy
    requires { 0 < length list.now }
    ensures { result ≡ way list.now dir }
{
    first_listed(list, &order_of(dir)).unwrap_or(Strategy::BlackBox)
}

/// The first strategy of an order that is in a list.
fn first_listed(list: &[Strategy], order: &[Strategy]) -> Option<Strategy>
    ensures { result ≡ find (is_listed list.now) order.now }
{
    order
        .iter()
        .copied()
        .find(|strategy| is_listed(list, *strategy))
}

/// The order in which a query step in a direction looks for a strategy.
fn order_of(dir: Dir) -> [Strategy; 10]
    ensures { result ≡ order_of dir }
{
    match dir {
        Dir::Back => [
            Strategy::Map,
            Strategy::FullOneB,
            Strategy::FullManyB,
            Strategy::PayOne,
            Strategy::CompOne,
            Strategy::PayMany,
            Strategy::CompMany,
            Strategy::FullOneF,
            Strategy::FullManyF,
            Strategy::BlackBox,
        ],
        Dir::Forward => [
            Strategy::Map,
            Strategy::FullOneF,
            Strategy::FullManyF,
            Strategy::FullOneB,
            Strategy::FullManyB,
            Strategy::PayOne,
            Strategy::CompOne,
            Strategy::PayMany,
            Strategy::CompMany,
            Strategy::BlackBox,
        ],
    }
}

/// Whether a strategy is in a list.
fn is_listed(list: &[Strategy], strategy: Strategy) -> bool
    ensures { result ≡ is_listed list.now strategy }
{
    list.iter().any(|listed| *listed == strategy)
}

/// Whether the lineage of an operator can be kept by a strategy. Takes no memory.
pub fn supports(op: &Op, strategy: Strategy) -> bool
    ensures { result ≡ supports op.now strategy }
{
    has_mode(op, strategy.mode())
}

/// Whether the lineage of an operator is known in a mode. Takes no memory.
pub fn has_mode(op: &Op, mode: Mode) -> bool
    ensures { result ≡ has_mode op.now mode }
{
    match mode {
        Mode::Full | Mode::BlackBox => true,
        Mode::Map => has_mapping(op),
        Mode::Pay | Mode::Comp => !has_mapping(op),
    }
}

/// Whether a mapping of cells is all of an operator's lineage, whatever the values.
fn has_mapping(op: &Op) -> bool
    ensures { result ≡ has_mapping op.now }
{
    match op {
        Op::Lookup | Op::Regions { t: _ } | Op::Clean { t: _ } => false,
        _ => true,
    }
}

/// How the lineage of a node is kept. `One` keys an entry by a single cell, `Many` by a set; `B` is
/// indexed for backward and `F` for forward queries.
#[derive(Clone, Copy, Debug, PartialEq, Eq)]
pub enum Strategy {
    Map,
    FullOneB,
    FullOneF,
    FullManyB,
    FullManyF,
    PayOne,
    PayMany,
    CompOne,
    CompMany,
    BlackBox,
}

impl Strategy {
    /// The mode of the strategy.
    pub fn mode(self) -> Mode
        ensures { result ≡ mode_of self }
    {
        match self {
            Strategy::Map => Mode::Map,
            Strategy::FullOneB => Mode::Full,
            Strategy::FullOneF => Mode::Full,
            Strategy::FullManyB => Mode::Full,
            Strategy::FullManyF => Mode::Full,
            Strategy::PayOne => Mode::Pay,
            Strategy::PayMany => Mode::Pay,
            Strategy::CompOne => Mode::Comp,
            Strategy::CompMany => Mode::Comp,
            Strategy::BlackBox => Mode::BlackBox,
        }
    }

    /// Whether a node that keeps its lineage so has a store: all but `Map` and `BlackBox`.
    pub fn is_stored(self) -> bool
        ensures { result ≡ is_stored self }
    {
        !matches!(self, Strategy::Map | Strategy::BlackBox)
    }
}

/// The ways in which lineage is known.
#[derive(Clone, Copy, Debug, PartialEq, Eq)]
pub enum Mode {
    /// Pairs of sets of cells are stored.
    Full,
    /// A mapping of cells gives it.
    Map,
    /// A payload is stored for each output cell, from which a mapping gives it.
    Pay,
    /// A mapping gives the default, and a stored payload overrides it for the cells that have one.
    Comp,
    /// Nothing is stored: the operator runs again.
    BlackBox,
}

/// The direction of a query: from results to raw cells, or from raw cells to results.
#[derive(Clone, Copy, Debug, PartialEq, Eq)]
pub enum Dir {
    /// From output cells to the input cells that they depend on.
    Back,
    /// From input cells to the output cells that depend on them.
    Forward,
}
