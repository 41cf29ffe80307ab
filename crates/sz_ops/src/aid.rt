//! What is prepared once for an operator at work.

ghost use Rattle.std.specs.Prelude.{◌≡◌};
ghost use Rattle.sz_ops.specs.Terms.{map, true, arc_value, aid_of};
ghost use Rattle.sz_ops_region.specs.Regions as regions;

use std::sync::Arc;
use sz_spec::{Array, OpAt};

/// What is prepared once for an operator and its inputs.
#[derive(Drop)]
pub enum Aid {
    /// Nothing has to be prepared.
    Nothing,
    /// The component of each cell, for connected regions: by its label, or with its set.
    Components(sz_ops_region::Aid),
}

impl Aid {
    /// The components, which were prepared for connected regions over these inputs.
    pub(crate) fn components(&self, at: &OpAt, _inputs: &[Arc<Array>]) -> &sz_ops_region::Aid
        requires regions { regions.is_regions at.now.op ≡ true }
        requires aid { self.now ≡ aid_of at.now.op (map (λ a. arc_value a) _inputs.now) }
        ensures { result.now ≡ regions.aid_of at.now.op (map (λ a. arc_value a) _inputs.now) }
    {
        match self {
            Aid::Components(components) => components,
            Aid::Nothing => unreachable!(),
        }
    }
}
