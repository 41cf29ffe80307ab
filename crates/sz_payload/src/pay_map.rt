//! The mapping of an operator that has payloads.

ghost use Rattle.std.specs.Prelude.{◌≡◌};
ghost use Rattle.sz_payload.specs.Terms.{false, arc_value, has_mapping};

use crate::table;
use std::marker::Model;
use std::sync::Arc;
use sz_cells::{Cell, CellBits};
use sz_spec::{Mapper, OpAt};

/// The mapping of an operator by payload, between its shapes. Contracts see the operator with
/// these.
#[derive(Drop)]
pub struct PayMap {
    at: Arc<OpAt>,
}

impl Model for PayMap {
    ghost use Rattle.std.specs.Prelude.{◌≡◌, false};
    ghost use Rattle.std.specs.Arc.{arc_value};
    ghost use Rattle.sz_spec.specs.Shapes.{Site};
    ghost use Rattle.sz_spec.specs.Modes.{has_mapping};

    ghost Value = { Site };

    ghost view = { λ m. arc_value m.at };

    ghost invariant = { λ m. has_mapping (arc_value m.at).op ≡ false };
}

impl PayMap {
    /// The mapping of this operator, which has payloads.
    pub fn new(at: Arc<OpAt>) -> PayMap
        requires { has_mapping (arc_value at).op ≡ false }
        ensures { result ≡ arc_value at }
    {
        PayMap { at }
    }
}

impl Mapper for PayMap {
    ghost site = { λ m. m };

    fn map_b_into(&self, out: Cell, input: u32, to: &mut CellBits) {
        table::default_back(&self.at, out, input, to);
    }

    fn map_f_into(&self, cell: Cell, input: u32, to: &mut CellBits) {
        table::default_forward(&self.at, cell, input, to);
    }

    fn map_p_into(&self, out: Cell, payload: &[u8], input: u32, to: &mut CellBits) {
        table::map_p(&self.at, out, payload, input, to);
    }
}
