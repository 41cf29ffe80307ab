//! What SubZero computes and what it says of it: values, arrays, operators, flows, directions and
//! strategies, with the definitions that the crates above are proved against.
//!
//! An [`Op`] makes one array of one or two. [`Flow::check`] tells whether a graph of operators is
//! well formed, and else its first fault. [`OpAt::of`] takes an operator to the shapes of given
//! inputs, and [`shape_of`] tells the shape of its output alone, [`output_shapes`] those of all
//! outputs of a flow. The lineage of an operator is a relation between the cells of its output and
//! those of its inputs. [`supports`] tells by which [`Strategy`] it can be kept, [`way`] which of
//! several a query step goes by, and a [`Mapper`] gives the part of it that is known without
//! values.
//!
//! A flow of one base array and two nodes, of which the second takes the first one's output and the
//! base array:
//!
//! ```
//! let negated = Node {
//!     op: Op::Neg,
//!     from: SourceList::of(vec![in alloc; SourceRef::Input(0)]?),
//! };
//! let sum = Node {
//!     op: Op::Add,
//!     from: SourceList::of(vec![in alloc; SourceRef::Node(0), SourceRef::Input(0)]?),
//! };
//! let flow = Flow::make(1, vec![in alloc; negated, sum]?);
//! // flow.check() == Ok(()); of no base array it would be Err(BadSource { node: 0, input: 0 })
//! ```
//!
//! The definitions are tables by operator, in specs/: what it takes and the shape of its output in
//! Shapes, what it computes in Evaluation, which cells are related in Lineage, how its lineage can
//! be kept in Modes, and which bytes stand for it in Payloads. An operator that needs more than a
//! line has a file of its own in Operators. Flows and Paths put operators together. What lineage
//! promises, over one operator, along a path and over a flow, are the laws of LawsDependence.
#![tactic(auto)]

mod array;
mod flow;
mod flow_shapes;
mod kernel;
pub mod laws;
mod mapper;
mod modes;
mod op;
mod op_at;
mod pieces;
mod shapes;
mod squares;
mod tally;

pub use array::{Array, ArrayList, Value};
pub use flow::{Flow, FlowFault, Node, SourceList, SourceRef};
pub use flow_shapes::{input_shapes, output_shapes, source_shape};
pub use kernel::Kernel;
pub use mapper::Mapper;
pub use modes::{Dir, Mode, Strategy, has_mode, supports, way};
pub use op::{Fold, Op, arity, has_right_parameters};
pub use op_at::OpAt;
pub use pieces::pieces_of;
pub use shapes::{ShapeFault, shape_of};
pub use squares::square;
pub use tally::Tally;
