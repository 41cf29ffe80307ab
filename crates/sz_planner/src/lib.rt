//! A planner of strategies: how each node of a flow is to keep its lineage, so that the stores fit
//! and what is going to be asked costs least.
//!
//! [`plan`] is told the operators of a flow at their shapes, how many units of 4,096 bytes there
//! are for stores, and how many asks are to come in each direction. It names one strategy for each
//! node. By the estimates of sz_spec (`specs/Choices.antt`) no choice within the units costs less,
//! and of those that cost the same it is the first by the strategies' numbers, node 0 first. The
//! estimates are rules of thumb, and say nothing of real sizes.
//!
//! One node that cleans 2 by 2 cells, one unit, and one ask back:
//!
//! ```
//! let shape = Shape::make(2, 2).ok_or("2 by 2 is a shape")?;
//! let clean = OpAt::of(Op::Clean { t: 10 }, vec![in alloc; shape]?)?;
//! let planned = plan(alloc, &[clean], 1, 1, 0)?;
//! // planned.list.as_slice() == [Strategy::FullOneB], planned.cost == 1, planned.units == 1
//! ```
//!
//! An offer is a strategy that a node's operator supports, with what it takes and costs. A table
//! tells, for each number of units, the least that the nodes from some node on cost. It is made
//! from the last node to the first, and the list is then read off from node 0 on. Black box takes
//! no unit, so there is always a choice. [`laws`] says that there is one best choice, and which
//! list it is.
#![tactic(auto)]

mod costs;
mod estimates;
pub mod laws;
mod lists;
mod offers;
mod planning;
mod reading;
#[cfg(test)]
mod tests;

pub use lists::ChoiceList;
pub use planning::{Planned, plan};
