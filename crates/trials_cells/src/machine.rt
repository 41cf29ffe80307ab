//! Events and replies on two nodes, with asks in both directions.

ghost use Rattle.std.specs.Prelude.{◌≡◌, true, [], ◌∷◌, IfOk, map};
ghost use Rattle.sz_cells.specs.Extent.{flat, holds};
ghost use Rattle.sz_cells.specs.Cells.{named_in};
ghost use Rattle.sz_core.specs.Steps.{step_of};
ghost use Rattle.sz_core.specs.Examples.{sum_flow, first_pairs, second_pairs};
ghost use Rattle.trials_cells.specs.Asks.{queries};

use std::alloc::Global;
use std::test::Fail;
use sz_cells::{Cell, CellSet, NoMemory, Shape};
use sz_core::{CoreAsk, Event, Machine, Pair, ShelfPairs, Told};
use sz_spec::{Dir, Flow, Node, Op, SourceList, SourceRef};

fn pair(out: u32, input: u32, cell: u32) -> Pair
    ensures { result ≡ record { out = out; input = input; cell = cell } }
{
    Pair { out, input, cell }
}

/// A cell of the one row.
const fn at(col: u32) -> Cell
    ensures { result ≡ record { row = 0; col = col } }
{
    Cell { row: 0, col }
}

/// An ask that starts from one cell of a shape of one layer.
fn ask_from(
    alloc: Global,
    dir: Dir,
    path: &[(u32, u32)],
    shape: Shape,
    cell: Cell,
) -> Result<CoreAsk, NoMemory>
    requires { holds shape cell ≡ true }
    ensures { IfOk result (λ q. q ≡ record {
      dir = dir;
      path = map step_of path.now;
      cells = named_in shape (cell ∷ []);
    }) }
{
    let path = Vec::from_slice(alloc, path)?;
    let cells = CellSet::from_cells(alloc, shape, &[cell])?;
    Ok(CoreAsk { dir, path, cells })
}

/// A shape of one layer.
fn shape_of(rows: u32, cols: u32) -> Result<Shape, Fail>
    ensures { IfOk result (λ s. s ≡ flat rows cols) }
{
    Ok(Shape::make(rows, cols).ok_or("these sides make a shape")?)
}

/// A node, and one that adds its output and the base array.
fn flow_of_sum(alloc: Global) -> Result<Flow, NoMemory>
    ensures { IfOk result (λ f. f ≡ sum_flow) }
{
    let first = Node {
        op: Op::Neg,
        from: SourceList::of(vec![in alloc; SourceRef::Input(0)]?),
    };
    let second = Node {
        op: Op::Add,
        from: SourceList::of(vec![in alloc; SourceRef::Node(0), SourceRef::Input(0)]?),
    };
    Ok(Flow::make(1, vec![in alloc; first, second]?))
}

/// Pairs of the first node, in two pieces.
fn pairs_of_first(alloc: Global) -> Result<ShelfPairs, NoMemory>
    ensures { IfOk result (λ p. p ≡ first_pairs) }
{
    let low = vec![in alloc; pair(3, 0, 65), pair(3, 0, 1)]?;
    let high = vec![in alloc; pair(64, 0, 2)]?;
    Ok(ShelfPairs {
        pieces: vec![in alloc; low, high]?,
    })
}

/// Pairs of the second node, in two pieces and of two inputs.
fn pairs_of_second(alloc: Global) -> Result<ShelfPairs, NoMemory>
    ensures { IfOk result (λ p. p ≡ second_pairs) }
{
    let low = vec![in alloc; pair(7, 0, 3), pair(7, 1, 9)]?;
    let high = vec![in alloc; pair(69, 0, 64), pair(69, 0, 3)]?;
    Ok(ShelfPairs {
        pieces: vec![in alloc; low, high]?,
    })
}

/// The pairs of both nodes.
fn shelves_of(alloc: Global) -> Result<Vec<ShelfPairs>, NoMemory>
    ensures { IfOk result (λ v. v.items ≡ first_pairs ∷ second_pairs ∷ []) }
{
    let first = pairs_of_first(alloc)?;
    let second = pairs_of_second(alloc)?;
    Ok(vec![in alloc; first, second]?)
}

/// An ask backward over both nodes, one backward over the second input, and one forward over both.
fn asks_of(alloc: Global, shape: Shape) -> Result<Vec<CoreAsk>, NoMemory>
    requires { shape ≡ flat 1 70 }
    ensures { IfOk result (λ v. v.items ≡ queries shape) }
{
    let both = ask_from(alloc, Dir::Back, &[(1, 0), (0, 0)], shape, at(69))?;
    let other = ask_from(alloc, Dir::Back, &[(1, 1)], shape, at(7))?;
    let onward = ask_from(alloc, Dir::Forward, &[(0, 0), (1, 0)], shape, at(65))?;
    Ok(vec![in alloc; both, other, onward]?)
}

/// The machine of these two nodes over a row of 70 cells, with these asks.
fn sum_machine(alloc: Global) -> Result<Machine, Fail> {
    let shape = shape_of(1, 70)?;
    let flow = flow_of_sum(alloc)?;
    let base = vec![in alloc; shape]?;
    let shelves = shelves_of(alloc)?;
    let asks = asks_of(alloc, shape)?;
    Ok(Machine::new(alloc, flow, base, shelves, asks)?)
}

/// Whether an ask holds exactly these cells.
fn has_only(machine: &Machine, ask: u32, cells: &[Cell]) -> bool {
    match machine.cells(ask) {
        Some(held) => {
            held.count() as usize == cells.len() && cells.iter().all(|cell| held.has(*cell))
        }
        None => false,
    }
}

const EVENTS: [Event; 12] = [
    Event::Place { shelf: 0, piece: 1 },
    Event::Seal { shelf: 0 },
    Event::Place { shelf: 0, piece: 0 },
    Event::Seal { shelf: 0 },
    Event::Look { ask: 0 },
    Event::Look { ask: 0 },
    Event::Look { ask: 2 },
    Event::Place { shelf: 1, piece: 0 },
    Event::Seal { shelf: 1 },
    Event::Look { ask: 2 },
    Event::Look { ask: 1 },
    Event::Place { shelf: 1, piece: 2 },
];

/// What the events are told.
const TOLD: [Told; 12] = [
    Told::Placed,
    Told::Missing { piece: 0 },
    Told::Placed,
    Told::Sealed,
    Told::FromStore,
    Told::Ended,
    Told::FromStore,
    Told::Placed,
    Told::Missing { piece: 1 },
    Told::FromTrace,
    Told::FromTrace,
    Told::NoSuch,
];

/// Whether events are told this, one after the other.
fn are_told(
    alloc: Global,
    machine: &mut Machine,
    events: &[Event],
    told: &[Told],
) -> Result<bool, NoMemory> {
    let found = machine.run(alloc, events)?;
    Ok(found.as_slice() == told)
}

/// Whether the asks hold these cells in the end.
fn are_answered(machine: &Machine) -> bool {
    has_only(machine, 0, &[at(1), at(2), at(65)])
        && has_only(machine, 1, &[at(9)])
        && has_only(machine, 2, &[at(7), at(69)])
}

/// Whether a first look, then the events and then the asks are answered so.
fn goes_both_ways(alloc: Global, machine: &mut Machine) -> Result<bool, NoMemory> {
    let first = machine.step(alloc, Event::Look { ask: 0 })?;
    Ok(
        first == Told::FromTrace
            && are_told(alloc, machine, &EVENTS, &TOLD)?
            && are_answered(machine),
    )
}

// What the events are told and what the asks hold are rows of the definitions too, by hand.
#[test]
fn asks_go_both_ways_through_two_shelves(rt: HostRuntime) -> Result<(), Fail> {
    let mut machine = sum_machine(rt.alloc())?;
    assert!(rt; goes_both_ways(rt.alloc(), &mut machine) == Ok(true));
    Ok(())
}
