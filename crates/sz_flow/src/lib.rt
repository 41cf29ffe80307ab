//! Runs of flows: the values of all nodes over given base arrays.
//!
//! [`run_all`] runs a flow, node by node, and keeps of each node what questions about it need: the
//! operator with its shapes, the arrays that it took, what was prepared for it, and its output.
//! Arrays are shared, and each value is computed once, side by side where that pays. What lineage
//! needs beyond that is prepared by [`NodeRun::prepare_lineage`], where lineage is kept.
//!
//! Of one base array that holds 5, and two nodes of which the first negates it and the second adds
//! both, the outputs are -5 and 0:
//!
//! ```
//! let runs = run_all(rt, alloc, &flow, &[sky])?;
//! // runs[0].out.cells() == [Some(-5)]
//! // runs[1].out.cells() == [Some(0)], and runs[1].inputs has the arrays of -5 and of 5
//! ```
//!
//! Contracts see the runs as the flow's executions, and [`laws`] says how these stand to the
//! evaluations of a flow.
#![tactic(auto)]

mod inputs;
pub mod laws;
mod lineage;
mod node_run;
mod output;
mod run;
#[cfg(test)]
mod tests;

pub use inputs::inputs_of;
pub use node_run::NodeRun;
pub use run::run_all;
