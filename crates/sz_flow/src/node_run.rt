//! What is kept of a node that was run.

ghost use Rattle.std.specs.Prelude.{◌≡◌};
ghost use Rattle.std.specs.Arc.{arc_value};
ghost use Rattle.sz_spec.specs.Values.{extents_of};
ghost use Rattle.sz_ops.specs.Aids.{aid_of};

use std::sync::Arc;
use sz_ops::Aid;
use sz_spec::{Array, ArrayList, OpAt};

/// The run of a node: its operator at its shapes, the arrays that it took, what was prepared for
/// them, and its output. The calls of operators can be made of these at once: the arrays have the
/// operator's shapes, and what was prepared is theirs.
#[derive(Drop)]
pub struct NodeRun {
    /// The operator, with the shapes of the arrays that it took and of its output.
    pub at: Arc<OpAt>,
    /// The arrays that it took, in the order of the node's sources.
    pub inputs: ArrayList,
    /// What was prepared for the operator and these arrays, shared with whoever makes pieces of its
    /// lineage. Nothing else reads it once the output is there. After a run it is what values need,
    /// which is little; pieces are to be made by what [`NodeRun::prepare_lineage`] puts in its
    /// place.
    pub aid: Arc<Aid>,
    /// Its output.
    pub out: Arc<Array>,
    ghost shapes: { extents_of inputs ≡ (arc_value at).ins },
    ghost prepared: { arc_value aid ≡ aid_of (arc_value at).op inputs },
}
