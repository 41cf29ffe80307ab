//! One entry to all operators.
//!
//! An operator at its shapes is an [`OpAt`](sz_spec::OpAt), and each call takes it with its inputs:
//! shared arrays, in their order, each of the shape that it has there. [`prepare`] makes once what
//! an operator's values need, and [`prepare_lineage`] what its lineage needs; [`value_at`] gives
//! one value and [`run`] the whole output, [`piece`] the lineage of 64 cells of it as strategies
//! need it, [`trace`] the image of a set of cells by going through the operator's cells again, and
//! for an operator with a mapping [`image_by_map`] the image by that.
//!
//! ```
//! let at = OpAt::of(Op::Transpose, vec![in alloc; sky.shape()]?)?;
//! let output = run(alloc, &at, &[sky])?;
//! // which cells of the input does the set `from` of the output lead to?
//! image_by_map(&at, Dir::Back, 0, &from, &mut to);
//! ```
//!
//! Each call is the frame's of `sz_frame`, over the operator's own type. `table` says which that
//! is, of which crate; it is looked into once a call. A further operator is one arm there, and
//! nothing else here.
#![tactic(auto)]

mod aid;
mod calls;
mod op_map;
mod table;

pub use aid::Aid;
pub use calls::{
    image_by_map, piece, prepare, prepare_lineage, run, run_prepared, trace, value_at,
};
pub use op_map::OpMap;
