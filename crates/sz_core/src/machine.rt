//! The machine: its shelves, its asks, and the events that change them.

ghost use Rattle.std.specs.Prelude.{◌≡◌, ◌<◌, ◌^◌, if◌then◌else◌};
ghost use Rattle.sz_core.specs.Terms.{ℕ, true, Ok, None, IfOk, OnErr, OnOk, length, map, take};
ghost use Rattle.sz_core.specs.Terms.{slice_get, option_copied, option_map, option_map_or};
ghost use Rattle.sz_core.specs.Terms.{flow_fault, reply, next_state, replies, last_state};
ghost use Rattle.sz_core.specs.Terms.{change_at, place_reply, after_place, seal_reply, after_seal};
ghost use Rattle.sz_core.specs.Terms.{look_reply, after_look, CanGoOn, start, first_ask, is_shelf};
ghost use Rattle.sz_core.specs.Terms.{are_shelves, are_queries, first_shelves, shelf_of};
ghost use Rattle.sz_core.specs.Terms.{shapes_fit, shapes_made};

use crate::asks::{CoreAsk, MovingAsk};
use crate::events::{Event, Told};
use crate::pairs::ShelfPairs;
use crate::shelf::IndexedShelf;
use std::alloc::Global;
use std::marker::Model;
use sz_cells::{CellSet, NoMemory, Shape};
use sz_spec::{Flow, input_shapes, output_shapes};

/// A shelf for each node of a flow, and asks that look in them. Contracts see its state.
#[derive(Drop)]
pub struct Machine {
    shelves: Vec<IndexedShelf>,
    asks: Vec<MovingAsk>,
}

impl Model for Machine {
    ghost use Rattle.std.specs.Prelude.{All};
    ghost use Rattle.sz_core.specs.Invariants.{CanGoOn};
    ghost use Rattle.sz_core.specs.States.{State};

    ghost Value = { State };

    ghost view = { λ m. record { shelves = m.shelves.items; asks = m.asks.items } };

    ghost invariant = { λ m. All (CanGoOn m.shelves.items) m.asks.items };
}

impl Machine {
    /// The machine of a flow over base arrays of these shapes, with these pairs for each node's
    /// shelf and these asks, before any event.
    ///
    /// Takes time and memory in the number of nodes, pairs and asks, and of the cells of the nodes'
    /// shapes.
    pub fn new(
        alloc: Global,
        flow: Flow,
        base: Vec<Shape>,
        shelves: Vec<ShelfPairs>,
        asks: Vec<CoreAsk>,
    ) -> Result<Machine, NoMemory>
        requires checked { flow_fault flow ≡ None }
        requires fits { shapes_fit flow base.items ≡ true }
        requires shelves { are_shelves flow base.items shelves.items ≡ true }
        requires few { length asks.items < 2 ^ 32 }
        requires asks { are_queries flow (first_shelves flow base.items shelves.items) asks.items
            ≡ true }
        ensures { IfOk result (λ m. m ≡ start flow base.items shelves.items asks.items) }
    {
        let shelves = made_shelves(alloc, &flow, &base, shelves)?;
        let asks = first_asks(alloc, asks)?;
        Ok(Machine { shelves, asks })
    }

    /// Lets one event happen, and says what it is told. After `NoMemory` the machine is as before.
    ///
    /// A place takes no time that grows with anything. A seal takes time in the number of pieces
    /// that were placed on its shelf since the last seal of it. A look takes time in the number of
    /// cells that the ask holds, of the pairs that lead from them, and of the words of a bitmap, of
    /// 64 cells each, that lie between the least and the greatest cell to which this look and the
    /// one before it on the same shelf, input and direction lead.
    pub fn step(&mut self, alloc: Global, event: Event) -> Result<Told, NoMemory>
        ensures ok { IfOk result (λ told. told ≡ reply self.old event) }
        ensures after { OnOk result (self.new ≡ next_state self.old event) }
        ensures err { OnErr result (self.new ≡ self.old) }
    {
        match event {
            Event::Place { shelf, piece } => self.place(shelf, piece),
            Event::Seal { shelf } => Ok(self.seal(shelf)),
            Event::Look { ask } => self.look(alloc, ask),
        }
    }

    /// Lets events happen, one after the other, and says what each is told. After `NoMemory` those
    /// before one of them have happened, and no other.
    pub fn run(&mut self, alloc: Global, events: &[Event]) -> Result<Vec<Told>, NoMemory>
        ensures ok { IfOk result (λ told. told.items ≡ replies self.old events.now) }
        ensures after { OnOk result (self.new ≡ last_state self.old events.now) }
        ensures err { OnErr result ((n : ℕ) × (n < length events.now)
            × (self.new ≡ last_state self.old (take n events.now))) }
    {
        let mut told = Vec::new(alloc);
        for event in events {
            told.reserve(1)?;
            let reply = self.step(alloc, *event)?;
            told.push_reserved(reply);
        }
        Ok(told)
    }

    /// The cells that an ask holds. `None` exactly where there is no ask of this number.
    pub fn cells(&self, ask: u32) -> Option<&CellSet>
        ensures { option_copied result ≡ option_map (λ a. a.cells) (slice_get self.now.asks ask) }
    {
        let number = ask as usize;
        if number < self.asks.len() {
            Some(self.asks[number].cells())
        } else {
            None
        }
    }

    /// Places a piece on a shelf.
    fn place(&mut self, shelf: u32, piece: u32) -> Result<Told, NoMemory>
        ensures ok { IfOk result (λ told. told ≡ reply self.old (Event.Place shelf piece)) }
        ensures after { OnOk result (self.new ≡ next_state self.old (Event.Place shelf piece)) }
        ensures err { OnErr result (self.new ≡ self.old) }
    {
        place_on(&mut self.shelves, shelf, piece)
    }

    /// Seals a shelf.
    fn seal(&mut self, shelf: u32) -> Told
        ensures told { result ≡ reply self.old (Event.Seal shelf) }
        ensures after { self.new ≡ next_state self.old (Event.Seal shelf) }
    {
        seal_on(&mut self.shelves, shelf)
    }

    /// Lets an ask look in the shelf of its next step.
    fn look(&mut self, alloc: Global, ask: u32) -> Result<Told, NoMemory>
        ensures ok { IfOk result (λ told. told ≡ reply self.old (Event.Look ask)) }
        ensures after { OnOk result (self.new ≡ next_state self.old (Event.Look ask)) }
        ensures err { OnErr result (self.new ≡ self.old) }
    {
        let number = ask as usize;
        if number < self.asks.len() {
            look_by(alloc, &mut self.shelves, &mut self.asks[number])
        } else {
            Ok(Told::NoSuch)
        }
    }
}

/// Places a piece on the shelf of this number.
fn place_on(shelves: &mut Vec<IndexedShelf>, shelf: u32, piece: u32) -> Result<Told, NoMemory>
    ensures ok { IfOk result (λ told.
        told ≡ option_map_or (place_reply piece) (slice_get shelves.old.items shelf) Told.NoSuch) }
    ensures after { OnOk result
        (shelves.new.items ≡ change_at shelf (after_place piece) shelves.old.items) }
    ensures err { OnErr result (shelves.new.items ≡ shelves.old.items) }
{
    let number = shelf as usize;
    if number < shelves.len() {
        shelves[number].place(piece)
    } else {
        Ok(Told::NoSuch)
    }
}

/// Seals the shelf of this number.
fn seal_on(shelves: &mut Vec<IndexedShelf>, shelf: u32) -> Told
    ensures told { result
        ≡ option_map_or seal_reply (slice_get shelves.old.items shelf) Told.NoSuch }
    ensures after { shelves.new.items ≡ change_at shelf after_seal shelves.old.items }
{
    let number = shelf as usize;
    if number < shelves.len() {
        shelves[number].seal()
    } else {
        Told::NoSuch
    }
}

/// Takes the next step of an ask.
fn look_by(
    alloc: Global,
    shelves: &mut Vec<IndexedShelf>,
    ask: &mut MovingAsk,
) -> Result<Told, NoMemory>
    requires { CanGoOn shelves.old.items ask.old }
    ensures same { shelves.new.items ≡ shelves.old.items }
    ensures ok { IfOk result (λ told. told ≡ look_reply shelves.old.items ask.old) }
    ensures after { OnOk result (ask.new ≡ after_look shelves.old.items ask.old) }
    ensures err { OnErr result (ask.new ≡ ask.old) }
{
    let Some((node, input)) = ask.next_step() else {
        return Ok(Told::Ended);
    };
    let shelf = &mut shelves[node as usize];
    let cells = shelf.image(alloc, ask.dir(), input, ask.cells())?;
    let told = told_by(shelf.is_sealed());
    ask.make_step(cells);
    Ok(told)
}

/// What a look is told that takes a step, in a shelf that is sealed or not.
fn told_by(sealed: bool) -> Told
    ensures { result ≡ (if sealed then Told.FromStore else Told.FromTrace) }
{
    if sealed {
        Told::FromStore
    } else {
        Told::FromTrace
    }
}

/// The shelves of a flow's nodes before any event.
fn made_shelves(
    alloc: Global,
    flow: &Flow,
    base: &[Shape],
    shelves: Vec<ShelfPairs>,
) -> Result<Vec<IndexedShelf>, NoMemory>
    requires checked { flow_fault flow.now ≡ None }
    requires fits { shapes_fit flow.now base.now ≡ true }
    requires shelves { are_shelves flow.now base.now shelves.items ≡ true }
    ensures { IfOk result (λ made. made.items ≡ first_shelves flow.now base.now shelves.items) }
{
    let outs = shapes_made(alloc, flow, base)?;
    let mut made = Vec::with_capacity(alloc, shelves.len())?;
    for pairs in shelves {
        let node = made.len();
        made.push(made_shelf(alloc, flow, base, &outs, node, pairs)?)?;
    }
    Ok(made)
}

/// The shapes of the outputs of a flow's nodes, which fit.
fn shapes_made(alloc: Global, flow: &Flow, base: &[Shape]) -> Result<Vec<Shape>, NoMemory>
    requires checked { flow_fault flow.now ≡ None }
    requires fits { shapes_fit flow.now base.now ≡ true }
    ensures { IfOk result (λ outs. outs.items ≡ shapes_made flow.now base.now) }
{
    match output_shapes(alloc, flow, base)? {
        Ok(outs) => Ok(outs),
        Err(_) => unreachable!(),
    }
}

/// The shelf of a node before any event.
fn made_shelf(
    alloc: Global,
    flow: &Flow,
    base: &[Shape],
    outs: &[Shape],
    node: usize,
    pairs: ShelfPairs,
) -> Result<IndexedShelf, NoMemory>
    requires checked { flow_fault flow.now ≡ None }
    requires fits { shapes_fit flow.now base.now ≡ true }
    requires shapes { outs.now ≡ shapes_made flow.now base.now }
    requires node { node < length flow.now.nodes }
    requires shelf { is_shelf (shelf_of flow.now base.now node pairs) ≡ true }
    ensures { IfOk result (λ shelf. shelf ≡ shelf_of flow.now base.now node pairs) }
{
    let ins = input_shapes(alloc, base, outs, flow.nodes()[node].from.as_slice())?;
    IndexedShelf::new(alloc, outs[node], ins, pairs.pieces)
}

/// The asks of queries before any event.
fn first_asks(alloc: Global, asks: Vec<CoreAsk>) -> Result<Vec<MovingAsk>, NoMemory>
    ensures { IfOk result (λ made. made.items ≡ map first_ask asks.items) }
{
    let made = asks
        .into_iter()
        .map(|ask| MovingAsk::of(ask))
        .collect(alloc)?;
    Ok(made)
}
