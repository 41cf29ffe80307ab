//! Not the core of the program, which runs none of it: the pure machine of places, seals and looks,
//! by which the shelves of a version are told. It does what they do, one event after the other.
//!
//! Each node of a flow has a shelf. On it lie pairs of single cells, in pieces of the node's
//! output: output cell `out` depends on cell `cell` of input `input`. An [`Event`] places a piece,
//! seals a shelf, or lets an ask look. A look takes an ask one step along its path: it goes by the
//! placed pieces of a shelf that is sealed, and by all pairs, as tracing gives them, of one that is
//! not. A [`Machine`] is made of a flow, the shapes of its base arrays, the pairs of each shelf and
//! the asks; then [`Machine::step`] and [`Machine::run`] say what the events are told, and
//! [`Machine::cells`] what an ask holds.
//!
//! A node that adds a number to each cell of two, in one piece of two pairs, and an ask backward
//! from the first cell:
//!
//! ```
//! let shelf = ShelfPairs { pieces: vec![in alloc; vec![in alloc; first, second]?]? };
//! let ask = CoreAsk { dir: Dir::Back, path: vec![in alloc; (0, 0)]?, cells };
//! let shelves = vec![in alloc; shelf]?;
//! let asks = vec![in alloc; ask]?;
//! let mut machine = Machine::new(alloc, flow, base, shelves, asks)?;
//! // machine.step(alloc, Event::Seal { shelf: 0 })? == Told::Missing { piece: 0 }
//! // machine.step(alloc, Event::Place { shelf: 0, piece: 0 })? == Told::Placed
//! // machine.step(alloc, Event::Seal { shelf: 0 })? == Told::Sealed
//! // machine.step(alloc, Event::Look { ask: 0 })? == Told::FromStore
//! // machine.cells(0) is the set of the cells that `first` names, and a further look is told Ended
//! ```
//!
//! Contracts see a machine as its state, plain lists and sets, and the definitions in specs/ fold a
//! list of events over it: States says what a state is, Images what pairs say, Events what each
//! event is told and does, Starts what a machine is made of. The code keeps indexes beside them, so
//! a look costs by the cells and pairs that it touches. [`laws`] has what follows of every list of
//! events: an ask that has ended holds the composition of its path, whatever came in between.
#![tactic(auto)]

mod asks;
mod events;
mod index;
pub mod laws;
mod machine;
mod pairs;
mod relation;
mod shelf;

pub use asks::CoreAsk;
pub use events::{Event, Told};
pub use machine::Machine;
pub use pairs::{Pair, ShelfPairs};
